//! A round of a server: a vault served to several clients at once, over connections.
ghost use Rattle.std.specs.Prelude.{◌≡◌, [], IfErr, IfOk, IfSome};
ghost use Rattle.tg_share.specs.declared.locked.TheConstants.{PARTS};
ghost use Rattle.tg_vault.specs.Promise.Contents.{graph_now};
ghost use Rattle.tg_serve.specs.Promise.Serving.{EndsServer, HasAgreed, IsFound, found_of};

use crate::budget::Budget;
use crate::client::{ClientReader, ClientWriter, Post, end_reads_and_writes_in_ticks};
use crate::desk::{Course, Desk, Notice};
use crate::door::{Door, Taken};
use crate::operating::Operating;
use crate::pace::{Assisting, Pace, REST};
use std::alloc::{AllocError, Global};
use std::net::{TcpListener, TcpStream};
use std::rt::Clock;
use std::sync::atomic::{AtomicBool, Ordering};
use std::sync::ledger::{Blank, Ledger};
use std::sync::{Mutex, Wait};
use std::thread;
use std::thread::Threads;
use std::time::Duration;
use tg_audit::{SeatLog, Settled};
use tg_graph::Graph;
use tg_share::{Closed, Ended, Open, PARTS, Shared, Worked};
use tg_talk::{TalkFault, Watched, buffered, talk};
use tg_vault::{Entry, Room, Vault};

/// The result of serving.
#[derive(Clone, Copy, Debug, PartialEq, Eq)]
pub struct Served {
    /// Whether the logs of each round agree with its history, the vault was rebased between any two, and every line of
    /// the server's own was written.
    pub settled: bool,
}

/// Why a server has not settled.
#[derive(Clone, Copy, Debug, PartialEq, Eq)]
pub(crate) enum Unsettled {
    /// The log of this seat differs from the history, first at this index.
    Differs { seat: u64, index: u64 },
    /// An allocation or the start of a thread failed in a round.
    NoMemory,
    /// An allocation failed between two rounds.
    OutOfMemory,
    /// A seat was in use between two rounds.
    Seated,
}

/// What a round leaves that the next one does not need.
#[derive(Drop)]
pub(crate) struct Leavings {
    pub(crate) history: Option<Vec<Entry>>,
    pub(crate) opening: Option<Graph>,
    pub(crate) logs: Vec<SeatLog>,
}

/// What each round is served with.
#[derive(Drop)]
pub(crate) struct Service<'a, R> {
    pub(crate) rt: &'a R,
    pub(crate) alloc: Global,
    pub(crate) listener: &'a TcpListener,
    /// A client that came while the door of a round was being closed, until the next round takes it.
    pub(crate) late: Mutex<Option<TcpStream>>,
    pub(crate) workers: u64,
    pub(crate) operating: Operating,
    pub(crate) desk: &'a Desk,
}

/// Serves the connections that are left at the door, each in a talk of a worker on the worker's own seat, while a
/// collector runs, and settles the logs. All threads have ended then. What the round before has left is dropped once
/// there are workers: that takes a while, and clients need not wait for it. Returns the vault, the graph that its
/// history leaves, and logs that agree with it.
pub(crate) fn serve_round<L: Ledger + Send + Sync, R: Threads + Wait + Clock + Sync>(
    service: &Service<'_, R>,
    door: &Door<'_>,
    blank: Blank,
    vault: Vault,
    past: Option<Leavings>,
) -> (Result<Vault, Unsettled>, Vec<SeatLog>, Option<Graph>)
    requires name { blank.name ≡ L.name }
    requires parts { blank.parts ≡ L.parts }
    requires all { blank.parts ≡ PARTS }
    requires empty { vault.history ≡ [] }
    ensures found { IsFound L result.0 }
    ensures agreed { IfOk result.0 HasAgreed }
    ensures ended { IfErr result.0 EndsServer }
    ensures graph { IfOk result.0 (λ settled. IfSome result.2 (λ graph. graph ≡ graph_now settled)) }
{
    let shared = Shared::<L>::new(service.alloc, blank, vault);
    let budget = Budget::new(service.operating.memory, service.workers);
    let round = Round {
        rt: service.rt,
        alloc: service.alloc,
        door,
        shared: &shared,
        budget: &budget,
        desk: service.desk,
        operating: service.operating,
    };
    match serve_in_threads(&round, service.workers, past) {
        Some(ended) => {
            let (closed, logs, graph) = shared.close_with_graph(ended);
            (found_in(closed), logs, graph)
        }
        None => (Err(Unsettled::NoMemory), Vec::new(service.alloc), None),
    }
}

/// The vault that was closed, if the logs agree with its history.
fn found_in<L: Ledger>(closed: Closed<L>) -> Result<Vault, Unsettled>
    ensures { result ≡ found_of closed }
{
    match closed {
        Closed::Done {
            settled,
            counted: _,
        } => match settled {
            Settled::Agreed(vault) => Ok(vault),
            Settled::Differs { seat, index, .. } => Err(Unsettled::Differs { seat, index }),
            Settled::NoMemory { .. } => Err(Unsettled::NoMemory),
        },
        Closed::NoRoom { .. } => Err(Unsettled::NoMemory),
    }
}

/// What the threads of a round share.
#[derive(Drop)]
struct Round<'a, L: Ledger, R> {
    rt: &'a R,
    alloc: Global,
    door: &'a Door<'a>,
    shared: &'a Shared<L>,
    budget: &'a Budget,
    desk: &'a Desk,
    operating: Operating,
}

/// The workers and the collector, each in a thread of its own, beside which what the round before has left is dropped.
/// Returns the ended sessions of all connections; `None` if an allocation or the start of a thread failed. There is room
/// for the handles of all workers before one begins, so the collector ends after all of them.
fn serve_in_threads<L: Ledger + Send + Sync, R: Threads + Wait + Clock + Sync>(
    round: &Round<'_, L, R>,
    workers: u64,
    past: Option<Leavings>,
) -> Option<Vec<Ended<L>>> {
    let is_over = AtomicBool::new(false);
    let over = &is_over;
    thread::scope(thread::scope_env(), round.rt, |scope| {
        let Ok(mut shifts) = Vec::with_capacity(round.alloc, workers as usize) else {
            return None;
        };
        let mut is_short = scope.spawn(move || collect_until(round, over)).is_err();
        for seat in 0..workers {
            if is_short {
                break;
            }
            is_short = match scope.spawn(move || work(round, seat)) {
                Ok(shift) => shifts.push(shift).is_err(),
                Err(_) => true,
            };
        }
        if is_short {
            round.door.close();
        }
        drop(past);
        let mut all = Vec::new(round.alloc);
        for shift in shifts {
            match shift.join(round.rt) {
                Some(mut ended) => is_short = is_short || all.append(&mut ended).is_err(),
                None => is_short = true,
            }
        }
        round.desk.note_bytes(round.budget.bytes());
        over.store(true, Ordering::SeqCst);
        if is_short { None } else { Some(all) }
    })
}

/// Collects until everything is over, some steps at a time, with rests between.
fn collect_until<L: Ledger, R: Wait + Clock>(round: &Round<'_, L, R>, is_over: &AtomicBool) {
    let rt = round.rt;
    let mut pace = Pace::new(round.shared.room(rt));
    for _ in rt.forever() {
        if is_over.load(Ordering::SeqCst) {
            break;
        }
        let exchanges = round.budget.exchanges();
        let room = round.shared.room(rt);
        round.budget.look(room, exchanges);
        let steps = pace.steps(room);
        let worked = round.shared.collector(rt, steps, &Open);
        pace.learn(worked);
        attend_to(round, room, worked);
        thread::sleep(rt, Duration::from_micros(REST));
    }
}

/// Tells the desk what is to be known of the vault, and does what was asked there.
fn attend_to<L: Ledger, R: Wait + Clock>(round: &Round<'_, L, R>, room: Room, worked: Worked) {
    let desk = round.desk;
    desk.look(room);
    desk.note_bytes(round.budget.bytes());
    desk.note_work(worked);
    if round.operating.is_attended {
        desk.advance(round.rt);
        if desk.course() != Course::Open {
            round.door.close();
        }
    }
}

/// Serves connections one after the other, until none is left. Returns their ended sessions; `None` if an allocation
/// failed, and then nobody is let in any more.
fn work<L: Ledger, R: Wait + Clock>(round: &Round<'_, L, R>, seat: u64) -> Option<Vec<Ended<L>>> {
    let mut all = Vec::new(round.alloc);
    for _ in round.rt.forever() {
        let Some(taken) = round.door.take(round.rt) else {
            break;
        };
        if serve_one(round, seat, taken, &mut all).is_err() {
            round.door.close();
            return None;
        }
    }
    Some(all)
}

/// One connection, in a talk on the seat; the session that it leaves, if any, is added to the others.
fn serve_one<L: Ledger, R: Wait + Clock>(
    round: &Round<'_, L, R>,
    seat: u64,
    taken: Taken,
    all: &mut Vec<Ended<L>>,
) -> Result<(), AllocError> {
    round.desk.welcome(round.rt, seat);
    let Taken::Client(stream) = taken else {
        see_off(round, seat, 0, Some(TalkFault::Reading));
        return Ok(());
    };
    let _ = stream.set_nodelay(true);
    if end_reads_and_writes_in_ticks(&stream).is_err() {
        see_off(round, seat, 0, Some(TalkFault::Reading));
        return Ok(());
    }
    match talk_with(round, seat, &stream) {
        Ok(Some(ended)) => Ok(all.push(ended)?),
        Ok(None) => Ok(()),
        Err(error) => {
            see_off(round, seat, 0, Some(TalkFault::OutOfMemory));
            Err(error)
        }
    }
}

/// A talk over the connection. `AllocError` if there is no memory for its buffers; then the desk is told nothing.
fn talk_with<L: Ledger, R: Wait + Clock>(
    round: &Round<'_, L, R>,
    seat: u64,
    stream: &TcpStream,
) -> Result<Option<Ended<L>>, AllocError> {
    let (rt, alloc, patience) = (round.rt, round.alloc, round.operating.patience);
    let post = Post {
        desk: round.desk,
        worker: seat,
    };
    let reader = ClientReader::new(alloc, stream, rt, round.budget, post, patience)?;
    let mut reader = Watched::new(reader);
    let writer = ClientWriter::new(stream, rt, round.budget, post, patience);
    let mut writer = buffered(alloc, writer)?;
    let gate = Assisting {
        shared: round.shared,
        budget: round.budget,
        door: round.door,
        desk: round.desk,
    };
    let talked = talk(
        rt,
        alloc,
        &mut reader,
        &mut writer,
        round.shared,
        seat,
        &gate,
    );
    see_off(round, seat, talked.lines, talked.fault);
    Ok(talked.ended)
}

/// Tells the desk how a talk ended.
fn see_off<L: Ledger, R: Wait + Clock>(
    round: &Round<'_, L, R>,
    seat: u64,
    lines: u64,
    fault: Option<TalkFault>,
) {
    if let Some(departure) = round.desk.part(round.rt, seat, lines, fault)
        && round.operating.notifies
    {
        round.desk.notify(round.rt, Notice::Left(departure));
    }
}
