//! Sessions that play lines, gates that hold them, and what is seen once a server closes. A thread that has to be at
//! some point is waited for in turns of 10 microseconds, which are counted; a test fails if they are used up.
ghost use Rattle.std.specs.Prelude.{◌≡◌, [], IfOk};
ghost use Rattle.tg_share.specs.declared.locked.TheConstants.{PARTS};

use std::alloc::{AllocError, Global};
use std::process::Abort;
use std::rt::Clock;
use std::sync::Wait;
use std::sync::atomic::{AtomicBool, AtomicU64, Ordering};
use std::sync::ledger::Ledger;
use std::thread;
use std::time::Duration;
use tg_audit::Settled;
use tg_graph::OpenFault;
use tg_rights::{Command, Kind, Reply, Rights};
use tg_share::{Closed, Ended, Gate, PARTS, Place, Session, Shared, Worked};
use tg_tests::cases::{Ask, Asked, Opening, Want, command, config, is_reply};
use tg_vault::{AskFault, Vault};

/// The failed allocation that this fault stands for; any other fault stops the test.
fn only_out_of_memory(rt: &impl Abort, fault: OpenFault) -> AllocError {
    assert!(rt; fault == OpenFault::OutOfMemory);
    AllocError
}

/// The vault of this configuration.
pub fn opened(rt: &impl Abort, alloc: Global, opening: &Opening) -> Result<Vault, AllocError>
    ensures { IfOk result (λ vault. vault.history ≡ []) }
{
    let config = config(alloc, opening)?;
    Vault::new(alloc, config).map_err(|fault| only_out_of_memory(rt, fault))
}

const TURNS: u32 = 1_000_000;

/// What the threads of a case signal to one another.
#[derive(Drop)]
pub struct Board {
    /// What comes before a session's command has been done.
    pub is_prepared: AtomicBool,
    /// Somebody is held at a pause, a session with its command entered.
    pub is_held: AtomicBool,
    /// The one that is held may go on, as far as the other one is concerned.
    pub is_released: AtomicBool,
    /// How many times the one whose pauses are counted has paused.
    pub pauses: AtomicU64,
    /// The turns of some wait were used up.
    pub is_late: AtomicBool,
}

impl Board {
    pub fn new() -> Board {
        Board {
            is_prepared: AtomicBool::new(false),
            is_held: AtomicBool::new(false),
            is_released: AtomicBool::new(false),
            pauses: AtomicU64::new(0),
            is_late: AtomicBool::new(false),
        }
    }

    /// Waits for what is to come, in turns that are counted.
    pub fn wait<R: Clock, F: Fn(&Board) -> bool>(&self, rt: &R, has_come: F)
        requires { F.IsAlwaysCallable has_come }
    {
        for _ in 0..TURNS {
            if has_come(self) {
                return;
            }
            thread::sleep(rt, Duration::from_micros(10));
        }
        self.is_late.store(true, Ordering::SeqCst);
    }

    /// The result of a case, if no wait used up its turns.
    pub fn in_time<T: Drop>(&self, found: Option<T>) -> Option<T> {
        if self.is_late.load(Ordering::SeqCst) {
            None
        } else {
            found
        }
    }
}

/// Holds a session until it is released and the collector has paused this many times.
#[derive(Drop)]
pub struct Holds<'a> {
    pub board: &'a Board,
    pub pauses: u64,
}

impl Gate for Holds<'_> {
    fn pause<R: Wait + Clock>(&self, rt: &R, _place: Place) {
        let pauses = self.pauses;
        self.board.is_held.store(true, Ordering::SeqCst);
        self.board.wait(rt, |board| {
            board.is_released.load(Ordering::SeqCst)
                && board.pauses.load(Ordering::SeqCst) >= pauses
        });
    }
}

/// Counts the pauses, and holds the one who comes to this pause until the other one releases it.
#[derive(Drop)]
pub struct HoldsAt<'a> {
    pub board: &'a Board,
    /// How many pauses come before.
    pub pause: u64,
}

impl Gate for HoldsAt<'_> {
    fn pause<R: Wait + Clock>(&self, rt: &R, _place: Place) {
        if self.board.pauses.fetch_add(1, Ordering::SeqCst) == self.pause {
            self.board.is_held.store(true, Ordering::SeqCst);
            self.board
                .wait(rt, |board| board.is_released.load(Ordering::SeqCst));
        }
    }
}

/// Counts the collector's pauses.
#[derive(Drop)]
pub struct Counts<'a> {
    pub board: &'a Board,
}

impl Gate for Counts<'_> {
    fn pause<R: Wait + Clock>(&self, _rt: &R, _place: Place) {
        self.board.pauses.fetch_add(1, Ordering::SeqCst);
    }
}

/// Counts the pauses at each place, and the entries that it is told of.
#[derive(Drop)]
pub struct Tally {
    after_store: AtomicU64,
    entries: AtomicU64,
    created: AtomicU64,
    early: AtomicU64,
    between_steps: AtomicU64,
}

/// How many pauses there were at each place, and how many entries a gate was told of.
#[derive(Clone, Copy, PartialEq, Eq, Debug)]
pub struct Pauses {
    pub after_store: u64,
    pub entries: u64,
    /// Entries that made a vertex.
    pub created: u64,
    /// Entries that it was told of before their pause.
    pub early: u64,
    pub between_steps: u64,
}

impl Tally {
    pub fn new() -> Tally {
        Tally {
            after_store: AtomicU64::new(0),
            entries: AtomicU64::new(0),
            created: AtomicU64::new(0),
            early: AtomicU64::new(0),
            between_steps: AtomicU64::new(0),
        }
    }

    pub fn pauses(&self) -> Pauses {
        Pauses {
            after_store: self.after_store.load(Ordering::SeqCst),
            entries: self.entries.load(Ordering::SeqCst),
            created: self.created.load(Ordering::SeqCst),
            early: self.early.load(Ordering::SeqCst),
            between_steps: self.between_steps.load(Ordering::SeqCst),
        }
    }
}

impl Gate for Tally {
    fn pause<R: Wait + Clock>(&self, _rt: &R, place: Place) {
        match place {
            Place::AfterStore => self.after_store.fetch_add(1, Ordering::SeqCst),
            Place::BetweenSteps => self.between_steps.fetch_add(1, Ordering::SeqCst),
        };
    }

    fn after_entry<R: Wait + Clock>(&self, _rt: &R, _command: &Command, reply: &Reply) {
        let before = self.entries.fetch_add(1, Ordering::SeqCst);
        if self.after_store.load(Ordering::SeqCst) <= before {
            self.early.fetch_add(1, Ordering::SeqCst);
        }
        if matches!(reply, Reply::Created(_)) {
            self.created.fetch_add(1, Ordering::SeqCst);
        }
    }
}

/// Whether the session's command gets this reply; none if memory runs out.
pub fn told<L: Ledger, R: Wait + Clock, G: Gate>(
    rt: &R,
    alloc: Global,
    session: &mut Session<'_, L>,
    ask: Ask,
    want: Want,
    gate: &G,
) -> Result<Option<bool>, AllocError> {
    let command = command(alloc, ask)?;
    let rule = command.rule();
    Ok(match session.submit(rt, command, gate) {
        Ok(found) => Some(is_reply(found, rule, want)),
        Err(AskFault::OutOfMemory) => None,
        Err(_) => Some(false),
    })
}

/// Whether the session's commands get these replies, line by line.
pub fn are_told<L: Ledger, R: Wait + Clock, G: Gate>(
    rt: &R,
    alloc: Global,
    session: &mut Session<'_, L>,
    lines: &[Asked],
    gate: &G,
) -> Result<bool, AllocError> {
    for (ask, want) in lines {
        if told(rt, alloc, session, *ask, *want, gate)? != Some(true) {
            return Ok(false);
        }
    }
    Ok(true)
}

/// A whole session; none if it is refused or a command does not get its reply.
pub fn play<L: Ledger, R: Wait + Clock, G: Gate>(
    rt: &R,
    alloc: Global,
    shared: &Shared<L>,
    seat: u64,
    name: &str,
    lines: &[Asked],
    gate: &G,
) -> Option<Ended<L>> {
    let Ok(mut session) = shared.session(rt, alloc, seat, name) else {
        return None;
    };
    let told = are_told(rt, alloc, &mut session, lines, gate);
    let ended = session.end(rt);
    matches!(told, Ok(true)).then_some(ended)
}

/// What the threads of a case share.
#[derive(Drop)]
pub struct Stage<'a, L: Ledger, R> {
    pub rt: &'a R,
    pub alloc: Global,
    pub shared: &'a Shared<L>,
    pub board: &'a Board,
}

impl<'a, L: Ledger, R> Stage<'a, L, R> {
    pub fn new(
        rt: &'a R,
        alloc: Global,
        shared: &'a Shared<L>,
        board: &'a Board,
    ) -> Stage<'a, L, R> {
        Stage {
            rt,
            alloc,
            shared,
            board,
        }
    }
}

impl<L: Ledger, R: Wait + Clock> Stage<'_, L, R> {
    /// Waits for what is to come.
    pub fn wait<F: Fn(&Board) -> bool>(&self, has_come: F)
        requires { F.IsAlwaysCallable has_come }
    {
        self.board.wait(self.rt, has_come);
    }

    /// A whole session, as `play` has it.
    pub fn play<G: Gate>(
        &self,
        seat: u64,
        name: &str,
        lines: &[Asked],
        gate: &G,
    ) -> Option<Ended<L>> {
        play(self.rt, self.alloc, self.shared, seat, name, lines, gate)
    }

    /// What the collector does in so many steps.
    pub fn collect<G: Gate>(&self, steps: u64, gate: &G) -> Worked {
        self.shared.collector(self.rt, steps, gate)
    }
}

/// The list of one session's end.
pub fn one<L: Ledger>(alloc: Global, ended: Option<Ended<L>>) -> Option<Vec<Ended<L>>> {
    vec![in alloc; ended?].ok()
}

/// The list of two sessions' ends.
pub fn both<L: Ledger>(
    alloc: Global,
    first: Option<Ended<L>>,
    second: Option<Ended<L>>,
) -> Option<Vec<Ended<L>>> {
    let (first, second) = first.zip(second)?;
    vec![in alloc; first, second].ok()
}

/// The list with one more end.
pub fn with_one<L: Ledger>(
    ended: Option<Vec<Ended<L>>>,
    one: Option<Ended<L>>,
) -> Option<Vec<Ended<L>>> {
    let (mut ended, one) = ended.zip(one)?;
    ended.push(one).ok()?;
    Some(ended)
}

/// Closes, and once more if there was no room. Logs that agree have to come back, or it is said that not all sessions
/// were counted.
pub fn closed<L: Ledger>(shared: Shared<L>, ended: Vec<Ended<L>>) -> Closed<L>
    requires { L.parts ≡ PARTS }
{
    let sessions = ended.len();
    let (closed, logs) = shared.close_with_logs(ended);
    match closed {
        Closed::Done { settled, counted } => Closed::Done {
            counted: counted && logs.len() == sessions_agreed(&settled, sessions),
            settled,
        },
        Closed::NoRoom { shared, ended } => shared.close(ended),
    }
}

/// So many sessions, if their logs agree.
fn sessions_agreed(settled: &Settled, sessions: usize) -> usize {
    match settled {
        Settled::Agreed(_) => sessions,
        _ => 0,
    }
}

/// The vault itself, if the logs agree.
pub fn agreed_vault(settled: Settled) -> Option<Vault> {
    match settled {
        Settled::Agreed(vault) => Some(vault),
        Settled::Differs { vault, logs, .. } => {
            drop(vault);
            drop(logs);
            None
        }
        Settled::NoMemory { vault, logs } => {
            drop(vault);
            drop(logs);
            None
        }
    }
}

/// Whether the graph has only the principals, and alice's right to take from bob.
fn is_opening(vault: &Vault) -> bool {
    let graph = vault.opening();
    let subject = Some(Kind::Subject);
    graph.kind(1) == subject
        && graph.kind(2) == subject
        && graph.kind(0).is_none()
        && graph.kind(3).is_none()
        && graph.rights(1, 2) == Rights::take()
        && graph.rights(2, 1).is_empty()
}

/// What is seen of the result of `Shared::close`.
#[derive(Clone, Copy)]
pub struct Seen {
    /// How many entries there are, and whether the opening graph is that of alice and bob, if the logs agree and all
    /// sessions were counted.
    pub agreed: Option<(u64, bool)>,
    /// Where the logs differ from the history, if they do, and whether all sessions were counted.
    pub found: Option<(Option<(u64, u64)>, bool)>,
}

const NOTHING_SEEN: Seen = Seen {
    agreed: None,
    found: None,
};

/// What is seen of a vault whose logs agree.
fn look_at(vault: &Vault, counted: bool) -> Seen {
    let seen = (vault.count(), is_opening(vault));
    Seen {
        agreed: counted.then_some(seen),
        found: Some((None, counted)),
    }
}

/// What is seen once the logs were settled.
fn seen_in(settled: Settled, counted: bool) -> Seen {
    match settled {
        Settled::Agreed(vault) => look_at(&vault, counted),
        Settled::Differs {
            vault,
            logs,
            seat,
            index,
        } => {
            drop(vault);
            drop(logs);
            Seen {
                agreed: None,
                found: Some((Some((seat, index)), counted)),
            }
        }
        Settled::NoMemory { vault, logs } => {
            drop(vault);
            drop(logs);
            NOTHING_SEEN
        }
    }
}

/// Closes, and looks at the result, whose parts are dropped one by one: a drop of the whole takes most of the proof.
pub fn close<L: Ledger>(shared: Shared<L>, ended: Vec<Ended<L>>) -> Seen
    requires { L.parts ≡ PARTS }
{
    match closed(shared, ended) {
        Closed::Done { settled, counted } => seen_in(settled, counted),
        Closed::NoRoom { shared, ended } => {
            drop(shared);
            drop(ended);
            NOTHING_SEEN
        }
    }
}

/// How many entries there are, if there are ends to close with, the logs agree and all sessions were counted.
pub fn agreed<L: Ledger>(shared: Shared<L>, ended: Option<Vec<Ended<L>>>) -> Option<u64>
    requires { L.parts ≡ PARTS }
{
    match ended {
        Some(ended) => Some(close(shared, ended).agreed?.0),
        None => None,
    }
}
