//! How much memory the history and the logs of a round may take, by count.
ghost use Rattle.std.specs.Prelude.{◌≡◌, ◌-◌, ◌^◌, ◌<◌, ◌≤◌, min};
ghost use Rattle.tg_serve.specs.Inner.Keeping.{command_bytes, exchange_bytes, reply_bytes};

use std::sync::atomic::{AtomicU64, Ordering};
use tg_rights::{Command, MAX_SLOTS, MAX_TEXT, Reply};
use tg_vault::Room;

/// What an exchange counts besides its texts and lists: its entry in the history and its place in the log, each with
/// the room that is left behind it for more.
const EXCHANGE: u64 = 320;

/// What a text that is written counts besides its bytes: the block by which its copies share it.
const TEXT: u64 = 48;

/// What an edge of a list counts.
const EDGE: u64 = 32;

/// What the text of an exchange counts at most.
const MOST_TEXT: u64 = TEXT + MAX_TEXT as u64;

/// The most edges of a list: to all vertices but one.
const MOST_EDGES: u64 = MAX_SLOTS as u64 - 1;

/// More lines than one read can bring that each add an edge: such a line has 39 bytes or more.
const MOST_LINES: u64 = 2_000;

/// What a command counts. A text is kept once, since entry, log and vault share it; a name twice.
fn command_bytes(command: &Command) -> u64
    ensures { result ≡ command_bytes command.now }
{
    match command {
        Command::Write { over: _, text } => TEXT + text.get().len() as u64,
        Command::Enrol { name, rights: _ } => 2 * name.get().len() as u64,
        _ => 0,
    }
}

/// What a reply counts. A text that is read is shared with its write, which counted it, or with the graph with which
/// the round began.
fn reply_bytes(reply: &Reply) -> u64
    ensures { result ≡ reply_bytes reply.now }
{
    match reply {
        Reply::Edges(edges) => EDGE * edges.get().len() as u64,
        _ => 0,
    }
}

/// What an exchange counts, with its entry; or the greatest number, if that is more.
pub(crate) fn exchange_bytes(command: &Command, reply: &Reply) -> u64
    ensures { result ≡ min (exchange_bytes command.now reply.now) (2 ^ 64 - 1) }
{
    EXCHANGE
        .saturating_add(command_bytes(command))
        .saturating_add(reply_bytes(reply))
}

/// The most that an exchange can count in a graph of this many edges.
pub(crate) fn most_bytes(edges: u64) -> u64 {
    EXCHANGE + MOST_TEXT.max(EDGE * edges.min(MOST_EDGES))
}

/// How many of these lines a worker may take at once, if this much is left for all workers and a line may take up to
/// `most`: its share of what is left, and at least one.
pub(crate) fn lines_within(lines: u64, left: u64, workers: u64, most: u64) -> u64
    ensures some { 0 < lines → 0 < result }
    ensures few { result ≤ lines }
{
    let share = left / most.max(1) / workers.max(1);
    lines.min(share.max(1))
}

/// How much the history and the logs of a round take, and how much they may.
#[derive(Drop)]
pub(crate) struct Budget {
    bound: Option<u64>,
    workers: u64,
    /// What the exchanges so far count.
    kept: AtomicU64,
    /// What those may count whose lines workers have taken and not yet answered.
    set_aside: AtomicU64,
    /// How many exchanges there have been.
    exchanges: AtomicU64,
    /// At the last look at the vault, how many edges there were, and how many exchanges there had been before it.
    edges: AtomicU64,
    looked: AtomicU64,
}

impl Budget {
    /// Nothing is kept yet; this many workers share at most this many bytes.
    pub(crate) fn new(bound: Option<u64>, workers: u64) -> Budget {
        Budget {
            bound,
            workers,
            kept: AtomicU64::new(0),
            set_aside: AtomicU64::new(0),
            exchanges: AtomicU64::new(0),
            edges: AtomicU64::new(MOST_EDGES),
            looked: AtomicU64::new(0),
        }
    }

    /// Whether there is a bound.
    pub(crate) fn is_bounded(&self) -> bool {
        self.bound.is_some()
    }

    /// How many exchanges there have been, if there is a bound.
    pub(crate) fn exchanges(&self) -> u64 {
        self.exchanges.load(Ordering::SeqCst)
    }

    /// Notes how many edges there are in the vault, and how many exchanges there had been before that was seen: in this
    /// order, so that whoever finds the new number of exchanges finds the edges that belong to it.
    pub(crate) fn look(&self, room: Room, exchanges: u64) {
        if self.is_bounded() {
            self.edges.store(room.cells.saturating_sub(room.free_cells), Ordering::SeqCst);
            self.looked.store(exchanges, Ordering::SeqCst);
        }
    }

    /// Counts an exchange; whether the bound is reached.
    pub(crate) fn keep(&self, command: &Command, reply: &Reply) -> bool {
        let Some(bound) = self.bound else {
            return false;
        };
        let bytes = exchange_bytes(command, reply);
        self.exchanges.fetch_add(1, Ordering::SeqCst);
        self.kept
            .fetch_add(bytes, Ordering::SeqCst)
            .saturating_add(bytes)
            >= bound
    }

    /// How much is kept so far, if there is a bound.
    pub(crate) fn bytes(&self) -> u64 {
        self.kept.load(Ordering::SeqCst)
    }

    /// Whether the bound is reached.
    pub(crate) fn is_spent(&self) -> bool {
        self.bound
            .is_some_and(|bound| self.kept.load(Ordering::SeqCst) >= bound)
    }

    /// How many edges there may be once all lines that workers have taken are answered.
    fn most_edges(&self) -> u64 {
        let since = self
            .exchanges
            .load(Ordering::SeqCst)
            .saturating_sub(self.looked.load(Ordering::SeqCst));
        let taken = self.workers.saturating_mul(MOST_LINES);
        self.edges
            .load(Ordering::SeqCst)
            .saturating_add(since)
            .saturating_add(taken)
    }

    /// Sets aside what a worker needs for as many of these lines as it may take now; none may be taken once the bound
    /// is reached.
    pub(crate) fn set_aside(&self, lines: u64) -> SetAside {
        let Some(bound) = self.bound else {
            return SetAside { lines, bytes: 0 };
        };
        if self.is_spent() {
            return SetAside { lines: 0, bytes: 0 };
        }
        let kept = self.kept.load(Ordering::SeqCst);
        let left = bound
            .saturating_sub(kept)
            .saturating_sub(self.set_aside.load(Ordering::SeqCst));
        let most = most_bytes(self.most_edges());
        let lines = lines_within(lines, left, self.workers, most);
        let bytes = lines.saturating_mul(most);
        self.set_aside.fetch_add(bytes, Ordering::SeqCst);
        SetAside { lines, bytes }
    }

    /// Gives back what was set aside, once its lines are answered.
    pub(crate) fn give_back(&self, bytes: u64) {
        if bytes > 0 {
            self.set_aside.fetch_sub(bytes, Ordering::SeqCst);
        }
    }
}

/// Lines that a worker may take, and the bytes that are set aside for them.
#[derive(Clone, Copy, Debug, PartialEq, Eq)]
pub(crate) struct SetAside {
    pub(crate) lines: u64,
    pub(crate) bytes: u64,
}
