//! A server that serves its connections in rounds: between two of them what lives becomes the opening graph, and the
//! history is dropped.
ghost use Rattle.std.specs.Prelude.{◌≡◌, ◌≤◌, ◌<◌, ◌+◌, ◌-◌, ◌↔◌, ◌⊎◌, [], IfErr, IfOk, IfSome, false, length, min, true};
ghost use Rattle.tg_talk.specs.Promise.Devices.{device_of, has_failed};
ghost use Rattle.tg_vault.specs.Promise.Contents.{graph_now};
ghost use Rattle.tg_vault.specs.Promise.Rebase.{HandsOver, IsRebased, Rebases};
ghost use Rattle.tg_serve.specs.Promise.Serving.{Concludes, EndsServer, HasAgreed, HasRebased, IsAlone, IsCounted, IsServed, SendsOn, rebased_line, unbounded};
ghost use Rattle.tg_serve.specs.Inner.Serving.{Announces, HasRounds};

use crate::desk::Desk;
use crate::door::{Door, end_accepts_in_ticks};
use crate::operating::Operating;
use crate::serve::{Leavings, Served, Service, Unsettled, serve_round};
use crate::telling::{agree, announce, tell, tell_rebase};
use std::alloc::Global;
use std::io::Write;
use std::marker::Brand;
use std::net::TcpListener;
use std::rt::Clock;
use std::sync::ledger::Blank;
use std::sync::{Mutex, Wait};
use std::thread;
use std::thread::Threads;
use std::time::Duration;
use tg_graph::Graph;
use tg_share::PARTS;
use tg_talk::Watched;
use tg_vault::{Entry, Past, Rebased, Vault};

/// How long to rest before looking again whether histories are written, in milliseconds.
const REST: u64 = 20;

/// Serves this many connections in rounds of `round`, as `serve_operated` does, without bounds: a client may keep the
/// server waiting for ever, and a round may take all memory.
pub fn serve_on<R: Threads + Wait + Clock + Sync, W: Write>(
    rt: &R,
    alloc: Global,
    listener: &TcpListener,
    writer: &mut Watched<W>,
    vault: Vault,
    workers: u64,
    connections: u64,
    round: u64,
) -> Served
    requires empty { vault.history ≡ [] }
    requires writes { has_failed writer.old ≡ false }
    ensures { result.settled ≡ true → IsServed unbounded connections round (W.contents (device_of writer.old)) (W.contents (device_of writer.new)) (has_failed writer.new) }
{
    let desk = Desk::unattended(alloc);
    serve_operated(
        rt,
        alloc,
        listener,
        writer,
        vault,
        workers,
        connections,
        round,
        Operating::none(),
        &desk,
    )
}

/// Serves this many connections in rounds of `round` (0 is taken as 1): none of the next round is taken before all of
/// this one have ended. Each of the `workers`, 1 to 63 (0 is taken as 1), has a seat of its own, and a collector runs.
/// After a round the logs are settled. If they agree and connections are left, the vault is rebased, and the next round
/// begins with what lives; until then clients wait. A connection that cannot be accepted counts as one; if descriptors
/// or memory are lacking it is tried again for ten seconds first.
///
/// It writes the address before the first connection, and after each rebase how many entries were dropped, and the
/// round, from 1. The last line is `agreed`; or, in a round that ends the server, `differs`, with the least seat whose
/// log differs and the least index in it; `no memory`, if an allocation or the start of a thread failed; or `out of
/// memory`, if a rebase lacked it; or there is none, if a seat was in use between two rounds, as no talk leaves one. If
/// the address cannot be written, clients are served all the same, nothing more is written, and nothing is settled; nor
/// is anything written after another line that failed. The address is not written either if the listener cannot be kept
/// from waiting for ever: a server that is to end would wait for one more client then.
///
/// A client that keeps the server waiting for longer than its patience is left: a read fails if a whole line takes
/// longer, from the read in which its first byte is awaited to its line feed, and so does a write, if it takes longer
/// until the client has taken all answers that are written before more of its lines are read. Once its round takes no
/// more lines, a client is also left if it takes nothing of an answer for a quarter of a second, or if the server has
/// waited for it for a second in all.
///
/// Once the history and the logs of a round take as much memory as they may, its talks end as at the end of their
/// clients' lines, it takes no further connection, and it is settled. The next round follows, if the connections are
/// served in more than one, or without an end; otherwise the server ends.
///
/// If it leaves histories at the desk, the next round waits while those that are not yet written take more memory than
/// a round may, unless there is only that of the last round, or the server is asked to stop.
///
/// If the server is attended, it ends with this round once it is asked to stop at the desk, and goes on with the next
/// one if a round is to end: nobody is let in any more, and after the time that was named with the request each talk
/// ends once it has answered the lines that have come, a second later before any further line.
pub fn serve_operated<R: Threads + Wait + Clock + Sync, W: Write>(
    rt: &R,
    alloc: Global,
    listener: &TcpListener,
    writer: &mut Watched<W>,
    vault: Vault,
    workers: u64,
    connections: u64,
    round: u64,
    operating: Operating,
    desk: &Desk,
) -> Served
    requires empty { vault.history ≡ [] }
    requires writes { has_failed writer.old ≡ false }
    ensures { result.settled ≡ true → IsServed operating connections round (W.contents (device_of writer.old)) (W.contents (device_of writer.new)) (has_failed writer.new) }
{
    let workers = at_least_one(workers);
    let service = Service {
        rt,
        alloc,
        listener,
        late: Mutex::new(None),
        workers,
        operating,
        desk,
    };
    let is_announced = announce_in_ticks(writer, listener);
    let size = at_least_one(round);
    let found = serve_rounds(&service, writer, is_announced, vault, connections, size);
    leave_late(&service);
    let served = conclude(writer, is_announced, &found);
    keep_last(&service, found);
    served
}

/// Makes each wait for a client end after a tick, and writes the address; returns whether that was done. Without ticks
/// the door would be looked at only when a client comes.
fn announce_in_ticks<W: Write>(writer: &mut Watched<W>, listener: &TcpListener) -> bool
    ensures unfailed { result ≡ true → has_failed writer.new ≡ false }
    ensures announced { result ≡ true → Announces (W.contents (device_of writer.old)) (W.contents (device_of writer.new)) }
{
    end_accepts_in_ticks(listener).is_ok() && announce(writer, listener)
}

/// Ends the connection of a client that came while the door of the last round was being closed, if one did.
fn leave_late<R: Wait>(service: &Service<'_, R>) {
    let mut late = service.late.lock(service.rt);
    *late = None;
}

/// Leaves the history of the last round at the desk, if it was settled.
fn keep_last<R: Wait>(service: &Service<'_, R>, found: Result<Vault, Unsettled>) {
    if let Ok(last) = found {
        let _ = keep(service, last.into_history());
    }
}

/// Leaves the history of a round at the desk, if it is to be kept there; otherwise returns it.
fn keep<R: Wait>(service: &Service<'_, R>, history: Vec<Entry>) -> Option<Vec<Entry>> {
    if !service.operating.keeps_history {
        return Some(history);
    }
    service.desk.keep_history(service.rt, history);
    None
}

/// The number, or 1 in place of 0.
fn at_least_one(number: u64) -> u64
    ensures some { 1 ≤ result }
    ensures same { 1 ≤ number → result ≡ number }
{
    if number == 0 { 1 } else { number }
}

/// Writes how the rounds ended.
pub(crate) fn conclude<W: Write>(
    writer: &mut Watched<W>,
    is_announced: bool,
    found: &Result<Vault, Unsettled>,
) -> Served
    ensures { Concludes found.now is_announced result.settled (W.contents (device_of writer.old)) (has_failed writer.old) (W.contents (device_of writer.new)) (has_failed writer.new) }
{
    match found {
        Ok(_) => agree(writer, is_announced),
        Err(end) => tell(writer, is_announced, *end),
    }
}

/// Serves all connections in rounds, and rebases the vault after each but the last. The first round whose logs do not
/// agree, or rebase that fails, ends it. Returns the vault of the last round.
fn serve_rounds<R: Threads + Wait + Clock + Sync, W: Write>(
    service: &Service<'_, R>,
    writer: &mut Watched<W>,
    is_announced: bool,
    opened: Vault,
    connections: u64,
    round: u64,
) -> Result<Vault, Unsettled>
    requires some { 1 ≤ round }
    requires empty { opened.history ≡ [] }
    ensures agreed { IfOk result HasAgreed }
    ensures ended { IfErr result EndsServer }
    ensures told { IfOk result (λ _. is_announced ≡ true → HasRounds service.now.operating connections round (W.contents (device_of writer.old)) (W.contents (device_of writer.new)) (has_failed writer.new)) }
{
    let mut vault = opened;
    let mut past = None;
    let mut left = connections;
    let mut number = 1u64;
    'rounds: for _ in service.rt.forever() {
        let size = size_of(service, left, round);
        let door = Door::new(service.listener, &service.late, size);
        service.desk.begin_round(number);
        let (found, logs, graph) = serve_round::<Brand, R>(
            service,
            &door,
            Blank::new(PARTS),
            vault,
            past,
        );
        let settled = match found {
            Ok(settled) => settled,
            Err(end) => return Err(end),
        };
        service.desk.conclude_round();
        service.desk.settle(service.rt, service.operating);
        left = left_after(service, &door, left, size);
        if is_last(service, left, connections, round) {
            return Ok(settled);
        }
        let Some(next) = number.checked_add(1) else {
            return Ok(settled);
        };
        let fresh = rebase(service, writer, is_announced, settled, graph, number)?;
        vault = fresh.vault;
        past = Some(Leavings {
            history: fresh.history,
            opening: fresh.opening,
            logs,
        });
        number = next;
        await_writing(service);
    }
    unreachable!()
}

/// Waits while the histories that are not yet written take more memory than a round may: otherwise a disk that does not
/// answer would make the server take all memory. A server that is asked to stop goes on.
fn await_writing<R: Wait + Clock>(service: &Service<'_, R>) {
    let Some(most) = service.operating.memory else {
        return;
    };
    for _ in service.rt.forever() {
        if !service.desk.keeps_more_than(most) || service.desk.is_stopping() {
            return;
        }
        thread::sleep(service.rt, Duration::from_millis(REST));
    }
}

/// How many connections a round may take.
fn size_of<R>(service: &Service<'_, R>, left: u64, round: u64) -> u64
    ensures ends { service.now.operating.is_endless ≡ false → result ≡ min left round }
{
    if service.operating.is_endless {
        return round;
    }
    left.min(round)
}

/// How many connections are left after a round that could take so many of them: all of those were taken, unless
/// something else ended it; and one at least, unless whoever attends ended it.
pub(crate) fn left_after<R: Wait>(
    service: &Service<'_, R>,
    door: &Door<'_>,
    left: u64,
    size: u64,
) -> u64
    ensures counted { IsCounted service.now.operating → result ≡ left - size }
    ensures few { left ≤ result + size }
    ensures no_more { result ≤ left }
    ensures some { IsAlone service.now.operating → 0 < size → 0 < left → result < left }
{
    let operating = service.operating;
    if operating.is_endless {
        return left;
    }
    if operating.memory.is_none() && !operating.is_attended {
        return left.saturating_sub(size);
    }
    let taken = size.saturating_sub(door.left(service.rt));
    if operating.is_attended {
        return left.saturating_sub(taken);
    }
    left.saturating_sub(taken.max(1).min(size))
}

/// Whether the server ends with the round after which so many connections are left.
fn is_last<R>(service: &Service<'_, R>, left: u64, connections: u64, round: u64) -> bool
    ensures { IsAlone service.now.operating → ((result ≡ true) ↔ ((left ≡ 0) ⊎ (connections ≤ round))) }
{
    let operating = service.operating;
    if operating.is_attended && service.desk.is_stopping() {
        return true;
    }
    if operating.is_endless {
        return false;
    }
    let goes_on = operating.is_attended && service.desk.was_ended();
    left == 0 || (connections <= round && !goes_on)
}

/// The vault of the next round, and of the one before the opening graph, and the history, unless it is at the desk.
#[derive(Drop)]
struct Fresh {
    vault: Vault,
    history: Option<Vec<Entry>>,
    opening: Option<Graph>,
}

/// A rebase from the graph that the history leaves, if that is known.
fn rebase_from(settled: Vault, graph: Option<Graph>) -> (Rebased, Past)
    requires { IfSome graph (λ graph. graph ≡ graph_now settled) }
    ensures rebased { Rebases settled result.0 }
    ensures past { HandsOver settled result.0 result.1 }
{
    match graph {
        Some(graph) => settled.rebase_with_graph(graph),
        None => settled.rebase_with_past(),
    }
}

/// Rebases the vault of a round, with the graph that its history leaves, if that is known, and writes how many entries
/// that dropped. Its history is left at the desk, if it is to be kept there, also if the rebase fails.
fn rebase<R: Wait, W: Write>(
    service: &Service<'_, R>,
    writer: &mut Watched<W>,
    is_announced: bool,
    settled: Vault,
    graph: Option<Graph>,
    round: u64,
) -> Result<Fresh, Unsettled>
    requires { IfSome graph (λ graph. graph ≡ graph_now settled) }
    ensures fresh { IfOk result (λ fresh. IsRebased settled fresh.vault) }
    ensures ended { IfErr result EndsServer }
    ensures told { IfOk result (λ _. is_announced ≡ true → SendsOn (W.contents (device_of writer.old)) (has_failed writer.old) (W.contents (device_of writer.new)) (has_failed writer.new) (rebased_line (length settled.history) round)) }
{
    let (rebased, past) = rebase_from(settled, graph);
    match rebased {
        Rebased::Fresh { vault, dropped } => {
            let Past { history, opening } = past;
            let history = keep(service, history);
            tell_rebase(writer, is_announced, dropped, round);
            Ok(Fresh {
                vault,
                history,
                opening,
            })
        }
        Rebased::Seated { vault, .. } => {
            let _ = keep(service, vault.into_history());
            Err(Unsettled::Seated)
        }
        Rebased::NoMemory { vault } => {
            let _ = keep(service, vault.into_history());
            Err(Unsettled::OutOfMemory)
        }
    }
}
