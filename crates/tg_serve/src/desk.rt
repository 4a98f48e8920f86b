//! The desk of a server: what it reports while it runs, and what it is asked to do.

use crate::operating::Operating;
use std::alloc::{AllocError, Global};
use std::rt::Clock;
use std::sync::atomic::{AtomicBool, AtomicU64, Ordering};
use std::sync::{Mutex, Wait};
use tg_share::Worked;
use tg_talk::TalkFault;
use tg_vault::{Entry, Room};

/// For how many milliseconds the talks of a round go on with lines that have come, once their clients are not waited
/// for.
const LAST_LINES: u64 = 1_000;

/// The time that never comes, in milliseconds.
const NEVER: u64 = u64::MAX;

/// How many notices are kept until they are taken; further ones are lost.
const MOST_NOTICES: usize = 10_000;

/// How far a round is from its end.
#[derive(Clone, Copy, Debug, PartialEq, Eq)]
pub(crate) enum Course {
    /// Clients are served.
    Open,
    /// Nobody is let in any more; who is served goes on.
    Closing,
    /// Clients are not waited for: a talk ends once it has answered the lines that have come.
    Ending,
    /// No further line is taken.
    Over,
}

/// Who is served by a worker.
#[derive(Drop)]
pub(crate) struct Place {
    /// The number of the connection, from 1; 0 if nobody is served.
    connection: AtomicU64,
    /// When it came, and when its last line did, in milliseconds.
    came: AtomicU64,
    heard: AtomicU64,
    /// The serial of the principal that was greeted; 0 before.
    principal: AtomicU64,
    lines: AtomicU64,
}

/// What a server counts.
#[derive(Drop)]
pub(crate) struct Counts {
    pub(crate) round: AtomicU64,
    /// Connections of all rounds, and of rounds before this one.
    pub(crate) connections: AtomicU64,
    pub(crate) before: AtomicU64,
    /// Entries of this round.
    pub(crate) entries: AtomicU64,
    /// Answers that are errors, denials, and those that storage is full.
    pub(crate) refused: AtomicU64,
    pub(crate) denied: AtomicU64,
    pub(crate) full: AtomicU64,
    pub(crate) slots: AtomicU64,
    pub(crate) free_slots: AtomicU64,
    pub(crate) cells: AtomicU64,
    pub(crate) free_cells: AtomicU64,
    /// Cycles of the collector that ended, and slots that it freed.
    pub(crate) cycles: AtomicU64,
    pub(crate) freed: AtomicU64,
    /// Bytes that the history and the logs take, as they are counted for `--memory`.
    pub(crate) bytes: AtomicU64,
    /// The same of the earlier rounds whose histories are kept and not yet written.
    pub(crate) unwritten: AtomicU64,
}

/// What happened on a server.
#[derive(Clone, Copy, Debug, PartialEq, Eq)]
pub enum Notice {
    /// A connection has ended.
    Left(Departure),
    /// A round has been settled: its number, its connections and its entries.
    Settled {
        round: u64,
        connections: u64,
        entries: u64,
    },
}

/// How a connection ended.
#[derive(Clone, Copy, Debug, PartialEq, Eq)]
pub struct Departure {
    /// Its number, from 1.
    pub connection: u64,
    /// The worker that served it, which is its seat.
    pub worker: u64,
    /// The serial of its principal, if one was greeted.
    pub principal: Option<u64>,
    /// How many lines were taken.
    pub lines: u64,
    /// Why it ended before its client's lines did or before a bye, if it did.
    pub fault: Option<TalkFault>,
    /// How long it lasted.
    pub seconds: u64,
}

/// The history of a round that was settled.
#[derive(Drop)]
pub struct History {
    pub entries: Vec<Entry>,
    /// How many bytes the round took, as they are counted for `--memory`.
    pub bytes: u64,
}

/// Where a server leaves what its control socket, its log and its history take, and finds what it is asked. Nobody at
/// the desk makes the server wait for more than a few instructions, but for histories that are not written in time.
#[derive(Drop)]
pub struct Desk {
    pub(crate) counts: Counts,
    places: Vec<Place>,
    /// When clients of this round are no longer waited for, in milliseconds; `NEVER` until somebody asks for its end.
    due: AtomicU64,
    /// The same for a stop. It outlasts the round, so that a stop that comes as the next round begins is not lost.
    stop_due: AtomicU64,
    /// What the clock said last, in milliseconds, since the end of a round was first asked for.
    now: AtomicU64,
    /// Whether a round ended because that was asked for.
    was_ended: AtomicBool,
    /// Whether the server has ended.
    has_ended: AtomicBool,
    notices: Mutex<Vec<Notice>>,
    /// Notices that were lost.
    lost: AtomicU64,
    histories: Mutex<Vec<History>>,
    /// Whether a history was lost for lack of memory.
    lacks_history: AtomicBool,
}

/// Zero, to begin with.
fn none_yet() -> AtomicU64 {
    AtomicU64::new(0)
}

impl Counts {
    fn new() -> Counts {
        Counts {
            round: none_yet(),
            connections: none_yet(),
            before: none_yet(),
            entries: none_yet(),
            refused: none_yet(),
            denied: none_yet(),
            full: none_yet(),
            slots: none_yet(),
            free_slots: none_yet(),
            cells: none_yet(),
            free_cells: none_yet(),
            cycles: none_yet(),
            freed: none_yet(),
            bytes: none_yet(),
            unwritten: none_yet(),
        }
    }
}

impl Place {
    fn new() -> Place {
        Place {
            connection: none_yet(),
            came: none_yet(),
            heard: none_yet(),
            principal: none_yet(),
            lines: none_yet(),
        }
    }
}

/// The milliseconds on the clock; 0 if it cannot be read.
pub(crate) fn milliseconds<C: Clock>(clock: &C) -> u64 {
    match clock.monotonic() {
        Ok(now) => now
            .as_secs()
            .saturating_mul(1_000)
            .saturating_add(u64::from(now.subsec_millis())),
        Err(_) => 0,
    }
}

impl Desk {
    /// A desk that nobody attends: no worker has a place at it. It allocates nothing.
    pub fn unattended(alloc: Global) -> Desk {
        Desk {
            counts: Counts::new(),
            places: Vec::new(alloc),
            due: AtomicU64::new(NEVER),
            stop_due: AtomicU64::new(NEVER),
            now: none_yet(),
            was_ended: AtomicBool::new(false),
            has_ended: AtomicBool::new(false),
            notices: Mutex::new(Vec::new(alloc)),
            lost: none_yet(),
            histories: Mutex::new(Vec::new(alloc)),
            lacks_history: AtomicBool::new(false),
        }
    }

    /// A desk with a place for each worker. `AllocError` if there is no memory for them.
    pub fn new(alloc: Global, workers: u64) -> Result<Desk, AllocError> {
        let mut desk = Desk::unattended(alloc);
        for _ in 0..workers {
            desk.places.push(Place::new())?;
        }
        Ok(desk)
    }

    /// Asks that nobody be let in any more, that clients no longer be waited for after this many seconds, and that the
    /// server end with this round. If that was asked before, the earlier time counts.
    pub fn stop<C: Clock>(&self, clock: &C, within: u64) {
        lower(&self.stop_due, clock, within);
    }

    /// The same for this round alone; the next one follows.
    pub fn end_round<C: Clock>(&self, clock: &C, within: u64) {
        lower(&self.due, clock, within);
    }

    /// Whether the server has ended; nothing more comes from it then.
    pub fn has_ended(&self) -> bool {
        self.has_ended.load(Ordering::SeqCst)
    }

    /// The server has ended.
    pub fn end(&self) {
        self.has_ended.store(true, Ordering::SeqCst);
    }

    /// Takes the notices so far, and how many were lost.
    pub fn take_notices<R: Wait>(&self, rt: &R, alloc: Global) -> (Vec<Notice>, u64) {
        let mut notices = self.notices.lock(rt);
        let taken = std::mem::replace(&mut *notices, Vec::new(alloc));
        (taken, self.lost.swap(0, Ordering::SeqCst))
    }

    /// Takes the histories of the rounds that were settled, each of which is to be given to `drop_history` in the end.
    pub fn take_histories<R: Wait>(&self, rt: &R, alloc: Global) -> Vec<History> {
        let mut histories = self.histories.lock(rt);
        std::mem::replace(&mut *histories, Vec::new(alloc))
    }

    /// Drops a history that was taken, once it is written or given up: until then it may keep the next round waiting.
    pub fn drop_history(&self, history: History) {
        let bytes = history.bytes;
        drop(history);
        self.counts.unwritten.fetch_sub(bytes, Ordering::SeqCst);
    }

    /// Whether the history of a round was lost for lack of memory.
    pub fn lacks_history(&self) -> bool {
        self.lacks_history.load(Ordering::SeqCst)
    }

    /// How far this round was from its end at the last look at the clock.
    pub(crate) fn course(&self) -> Course {
        let due = self
            .due
            .load(Ordering::SeqCst)
            .min(self.stop_due.load(Ordering::SeqCst));
        if due == NEVER {
            return Course::Open;
        }
        let now = self.now.load(Ordering::SeqCst);
        if now >= due.saturating_add(LAST_LINES) {
            Course::Over
        } else if now >= due {
            Course::Ending
        } else {
            Course::Closing
        }
    }

    /// Goes on from `Closing` to `Ending` once clients are no longer waited for, and to `Over` a second later. Does
    /// nothing while the round is `Open`.
    pub(crate) fn advance<C: Clock>(&self, clock: &C) {
        if self.course() == Course::Open {
            return;
        }
        let now = milliseconds(clock);
        if self.now.load(Ordering::SeqCst) < now {
            self.now.store(now, Ordering::SeqCst);
        }
    }

    /// The next round begins, which is to end only if the server is.
    pub(crate) fn begin_round(&self, round: u64) {
        self.counts.round.store(round, Ordering::SeqCst);
        self.counts.entries.store(0, Ordering::SeqCst);
        self.counts.bytes.store(0, Ordering::SeqCst);
        self.counts.before.store(
            self.counts.connections.load(Ordering::SeqCst),
            Ordering::SeqCst,
        );
        self.was_ended.store(false, Ordering::SeqCst);
        self.due.store(NEVER, Ordering::SeqCst);
    }

    /// A round has ended: notes whether that was asked for.
    pub(crate) fn conclude_round(&self) {
        if self.course() != Course::Open {
            self.was_ended.store(true, Ordering::SeqCst);
        }
    }

    /// Whether the server is to end with this round.
    pub(crate) fn is_stopping(&self) -> bool {
        self.stop_due.load(Ordering::SeqCst) != NEVER
    }

    /// Whether the last round ended because that was asked for.
    pub(crate) fn was_ended(&self) -> bool {
        self.was_ended.load(Ordering::SeqCst)
    }

    /// A client came to a worker.
    pub(crate) fn welcome<C: Clock>(&self, clock: &C, worker: u64) {
        let connection = self
            .counts
            .connections
            .fetch_add(1, Ordering::SeqCst)
            .saturating_add(1);
        if let Some(place) = self.place(worker) {
            let now = milliseconds(clock);
            place.came.store(now, Ordering::SeqCst);
            place.heard.store(now, Ordering::SeqCst);
            place.principal.store(0, Ordering::SeqCst);
            place.lines.store(0, Ordering::SeqCst);
            place.connection.store(connection, Ordering::SeqCst);
        }
    }

    /// The client has left, or nobody came after all; the notice of it, if there is a place.
    pub(crate) fn part<C: Clock>(
        &self,
        clock: &C,
        worker: u64,
        lines: u64,
        fault: Option<TalkFault>,
    ) -> Option<Departure> {
        let place = self.place(worker)?;
        let connection = place.connection.swap(0, Ordering::SeqCst);
        let came = place.came.load(Ordering::SeqCst);
        Some(Departure {
            connection,
            worker,
            principal: serial_in(&place.principal),
            lines,
            fault,
            seconds: milliseconds(clock).saturating_sub(came) / 1_000,
        })
    }

    /// So many lines came to a worker.
    pub(crate) fn hear<C: Clock>(&self, clock: &C, worker: u64, lines: u64) {
        if let Some(place) = self.place(worker) {
            place.lines.fetch_add(lines, Ordering::SeqCst);
            place.heard.store(milliseconds(clock), Ordering::SeqCst);
        }
    }

    /// The client of a worker was greeted as this principal.
    pub(crate) fn greet(&self, worker: u64, principal: u64) {
        if let Some(place) = self.place(worker) {
            place.principal.store(principal, Ordering::SeqCst);
        }
    }

    fn place(&self, worker: u64) -> Option<&Place> {
        self.places.get(worker as usize)
    }

    /// Whether workers have places here.
    pub(crate) fn has_places(&self) -> bool {
        !self.places.is_empty()
    }

    /// Counts an entry of this round.
    pub(crate) fn count_entry(&self) {
        self.counts.entries.fetch_add(1, Ordering::SeqCst);
    }

    /// Notes how many bytes the history and the logs take.
    pub(crate) fn note_bytes(&self, bytes: u64) {
        self.counts.bytes.store(bytes, Ordering::SeqCst);
    }

    /// Notes how much room there is.
    pub(crate) fn look(&self, room: Room) {
        self.counts.slots.store(room.slots, Ordering::SeqCst);
        self.counts
            .free_slots
            .store(room.free_slots, Ordering::SeqCst);
        self.counts.cells.store(room.cells, Ordering::SeqCst);
        self.counts
            .free_cells
            .store(room.free_cells, Ordering::SeqCst);
    }

    /// Notes what the collector did.
    pub(crate) fn note_work(&self, worked: Worked) {
        self.counts.cycles.fetch_add(worked.ended, Ordering::SeqCst);
        self.counts.freed.fetch_add(worked.freed, Ordering::SeqCst);
    }

    /// Keeps a notice until it is taken.
    pub(crate) fn notify<R: Wait>(&self, rt: &R, notice: Notice) {
        let mut notices = self.notices.lock(rt);
        if notices.len() >= MOST_NOTICES || notices.push(notice).is_err() {
            self.lost.fetch_add(1, Ordering::SeqCst);
        }
    }

    /// A round was settled: if notices are wanted, that of it is kept until it is taken.
    pub(crate) fn settle<R: Wait>(&self, rt: &R, operating: Operating) {
        if !operating.notifies {
            return;
        }
        let taken = self.counts.connections.load(Ordering::SeqCst);
        let before = self.counts.before.load(Ordering::SeqCst);
        self.notify(
            rt,
            Notice::Settled {
                round: self.counts.round.load(Ordering::SeqCst),
                connections: taken.saturating_sub(before),
                entries: self.counts.entries.load(Ordering::SeqCst),
            },
        );
    }

    /// Keeps the history of the round that was settled last until it is taken. Once one is lost for want of memory no
    /// further one is kept, so that those that are taken have no gap.
    pub(crate) fn keep_history<R: Wait>(&self, rt: &R, entries: Vec<Entry>) {
        let bytes = self.counts.bytes.load(Ordering::SeqCst);
        let mut histories = self.histories.lock(rt);
        if self.lacks_history() || histories.push(History { entries, bytes }).is_err() {
            self.lacks_history.store(true, Ordering::SeqCst);
        } else {
            self.counts.unwritten.fetch_add(bytes, Ordering::SeqCst);
        }
    }

    /// Whether the histories that are not yet written take more than this, and more than the last round did.
    pub(crate) fn keeps_more_than(&self, bytes: u64) -> bool {
        let last = self.counts.bytes.load(Ordering::SeqCst);
        self.counts.unwritten.load(Ordering::SeqCst) > bytes.max(last)
    }

    /// Who is served by each worker, if anybody is.
    pub(crate) fn clients(&self) -> &[Place] {
        self.places.as_slice()
    }
}

/// Brings a time forward to this many seconds from now, if that is earlier, also if somebody else does so meanwhile.
fn lower<C: Clock>(due: &AtomicU64, clock: &C, within: u64) {
    let asked = milliseconds(clock)
        .saturating_add(within.saturating_mul(1_000))
        .min(NEVER - 1);
    let mut found = due.load(Ordering::SeqCst);
    for _ in 0..u64::MAX {
        if asked >= found {
            return;
        }
        match due.compare_exchange(found, asked, Ordering::SeqCst, Ordering::SeqCst) {
            Ok(_) => return,
            Err(now) => found = now,
        }
    }
}

/// The serial, if there is one.
fn serial_in(serial: &AtomicU64) -> Option<u64> {
    match serial.load(Ordering::SeqCst) {
        0 => None,
        serial => Some(serial),
    }
}

impl Place {
    /// Who is served, if anybody is: the connection's number, its principal, its lines, and when the last one came.
    pub(crate) fn client(&self) -> Option<(u64, Option<u64>, u64, u64)> {
        match self.connection.load(Ordering::SeqCst) {
            0 => None,
            connection => Some((
                connection,
                serial_in(&self.principal),
                self.lines.load(Ordering::SeqCst),
                self.heard.load(Ordering::SeqCst),
            )),
        }
    }
}
