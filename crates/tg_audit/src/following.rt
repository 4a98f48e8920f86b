//! The logs of all seats, followed along the history.
ghost use Rattle.std.specs.Prelude.{◌≡◌, ◌↔◌, IsTrue, ◌<◌, ◌+◌, ◌≤◌, ◌^◌, [], ◌∷◌, ◌++◌, List, Some, IfOk, IfSome, IfNone, OnOk, length, slice_get};
ghost use Rattle.tg_rights.specs.declared.limits.TheConstants.{SEATS};
ghost use Rattle.tg_graph.specs.Promise.Fullness.{Limits, Permitted};
ghost use Rattle.tg_graph.specs.Promise.Rules.{next_graph};
ghost use Rattle.tg_vault.specs.Promise.Contents.{graph_now};
ghost use Rattle.tg_audit.specs.declared.logs.Exchange.{Exchange};
ghost use Rattle.tg_audit.specs.declared.logs.SeatLog.{SeatLog};
ghost use Rattle.tg_audit.specs.Inner.Following.{HasFollowed, FollowsAll, IsLeastAbove, followed, left_of, told_in};
ghost use Rattle.tg_audit.specs.Inner.Replies.{IsSubjectOrRetired};
ghost use Rattle.tg_audit.specs.Promise.Settling.{DifferAt, IsPlace, joined_logs};

use crate::logs::{Exchange, SeatLog};
use crate::replaying::{is_reply, reply_to};
use std::alloc::{AllocError, Global};
use tg_graph::Graph;
use tg_rights::SEATS;
use tg_vault::{Entry, Vault};

/// Where an exchange is: the number of a log, and the index in it.
#[derive(Clone, Copy)]
struct Position {
    log: usize,
    at: usize,
}

/// How far the logs of a seat have been followed along its entries.
#[derive(Clone, Copy)]
enum Progress {
    /// This many exchanges are those of the seat's first entries; the next is sought from this position on.
    Beside { position: Position, index: u64 },
    /// They differ at this index, and at none before.
    Apart { index: u64 },
}

/// The next exchange of the seat from the position on, and the position after it.
fn next(logs: &[SeatLog], seat: u64, from: Position) -> Option<(&Exchange, Position)>
    ensures some { IfSome result (λ found. left_of seat logs.now from ≡ found.0.now ∷ left_of seat logs.now found.1) }
    ensures none { IfNone result (left_of seat logs.now from ≡ []) }
{
    let mut at = from.at;
    for number in from.log..logs.len() {
        let log = &logs[number];
        if log.seat == seat {
            if let Some(exchange) = log.exchanges.get(at) {
                let position = Position {
                    log: number,
                    at: at + 1,
                };
                return Some((exchange, position));
            }
        }
        at = 0;
    }
    None
}

/// Whether the exchange has the actor and the command of the entry.
fn is_asked(entry: &Entry, exchange: &Exchange) -> bool
    ensures { IsTrue result ↔ (entry.now.actor ≡ exchange.now.actor) × (entry.now.command ≡ exchange.now.command) }
{
    entry.actor() == exchange.actor && *entry.command() == exchange.command
}

/// Whether the exchange is that of the entry, with the reply of the graph, which carries the entry's command out.
fn is_told(graph: &mut Graph, entry: &Entry, exchange: &Exchange) -> Result<bool, AllocError>
    requires asks { IsSubjectOrRetired graph.old entry.now.actor }
    requires permitted { (limits : Limits) × Permitted limits graph.old entry.now.actor entry.now.command entry.now.outcome }
    ensures same { IfOk result (λ same. IsTrue same ↔ told_in graph.old entry.now ≡ exchange.now) }
    ensures graph { OnOk result (graph.new ≡ next_graph graph.old entry.now.actor entry.now.command entry.now.outcome) }
{
    let is_reply = is_reply(graph, entry, &exchange.reply)?;
    Ok(is_reply && is_asked(entry, exchange))
}

impl Progress {
    /// Follows the logs of the seat along its next entry, whose command the graph carries out.
    fn advance(
        &mut self,
        alloc: Global,
        graph: &mut Graph,
        logs: &[SeatLog],
        entry: &Entry,
    ) -> Result<(), AllocError>
        requires room { followed self.old + 1 < 2 ^ 64 }
        requires asks { IsSubjectOrRetired graph.old entry.now.actor }
        requires permitted { (limits : Limits) × Permitted limits graph.old entry.now.actor entry.now.command entry.now.outcome }
        ensures follows { OnOk result ((entries rest : List Exchange) → HasFollowed entry.now.seat logs.now entries (told_in graph.old entry.now ∷ rest) self.old → HasFollowed entry.now.seat logs.now entries rest self.new) }
        ensures count { OnOk result (followed self.new ≤ followed self.old + 1) }
        ensures graph { OnOk result (graph.new ≡ next_graph graph.old entry.now.actor entry.now.command entry.now.outcome) }
    {
        let Progress::Beside { position, index } = self else {
            reply_to(alloc, graph, entry)?;
            return Ok(());
        };
        let Some(found) = next(logs, entry.seat(), *position) else {
            let index = *index;
            reply_to(alloc, graph, entry)?;
            *self = Progress::Apart { index };
            return Ok(());
        };
        if is_told(graph, entry, found.0)? {
            *position = found.1;
            *index += 1;
        } else {
            let index = *index;
            *self = Progress::Apart { index };
        }
        Ok(())
    }
}

/// The index at which the logs of a seat without further entries differ from its entries.
fn index_apart(logs: &[SeatLog], seat: u64, progress: Progress) -> Option<u64>
    ensures some { IfSome result (λ index. (entries : List Exchange) → HasFollowed seat logs.now entries [] progress → DifferAt entries (joined_logs seat logs.now) index) }
    ensures none { IfNone result ((entries : List Exchange) → HasFollowed seat logs.now entries [] progress → entries ≡ joined_logs seat logs.now) }
{
    match progress {
        Progress::Apart { index } => Some(index),
        Progress::Beside { position, index } => match next(logs, seat, position) {
            None => None,
            Some(_) => Some(index),
        },
    }
}

/// The least seat, of those that no entry has, whose logs have an exchange, after one more log.
fn least_with(least: Option<u64>, log: &SeatLog) -> Option<u64>
    ensures { (before : List SeatLog) → IsLeastAbove before least → IsLeastAbove (before ++ log.now ∷ []) result }
{
    if log.seat < SEATS {
        return least;
    }
    if log.exchanges.is_empty() {
        return least;
    }
    match least {
        None => Some(log.seat),
        Some(found) => {
            if found < log.seat {
                Some(found)
            } else {
                Some(log.seat)
            }
        }
    }
}

/// The least seat, of those that no entry has, whose logs have an exchange.
fn least_above(logs: &[SeatLog]) -> Option<u64>
    ensures { IsLeastAbove logs.now result }
{
    let mut least = None;
    for log in logs {
        least = least_with(least, log);
    }
    least
}

/// The entry of this number.
fn entry_at(vault: &Vault, number: u64) -> &Entry
    requires { number < length vault.now.history }
    ensures entry { slice_get vault.now.history number ≡ Some result.now }
    ensures seat { result.now.seat < SEATS }
{
    vault.soundness();
    match vault.entry(number) {
        Some(entry) => entry,
        None => unreachable!(),
    }
}

/// The progress of each seat after the whole history, and the graph that the history leaves. Each reply is compared as
/// the replay finds it, and none is kept.
fn follow(
    alloc: Global,
    vault: &Vault,
    logs: &[SeatLog],
) -> Result<([Progress; 64], Graph), AllocError>
    ensures whole { IfOk result (λ found. length found.0 ≡ SEATS) }
    ensures follows { IfOk result (λ found. FollowsAll vault.now logs.now found.0) }
    ensures graph { IfOk result (λ found. found.1 ≡ graph_now vault.now) }
{
    vault.soundness();
    let mut graph = vault.opening().copy()?;
    let start = Progress::Beside {
        position: Position { log: 0, at: 0 },
        index: 0,
    };
    let mut table = [start; SEATS as usize];
    for number in 0..vault.count() {
        let entry = entry_at(vault, number);
        let seat = entry.seat() as usize;
        table[seat].advance(alloc, &mut graph, logs, entry)?;
    }
    Ok((table, graph))
}

/// The place, a seat and an index, at which the logs first differ from the history, as this table has followed them.
fn place_in(vault: &Vault, logs: &[SeatLog], table: &[Progress; 64]) -> Option<(u64, u64)>
    requires whole { length table.now ≡ SEATS }
    requires follows { FollowsAll vault.now logs.now table.now }
    ensures { IsPlace vault.now logs.now result }
{
    vault.soundness();
    for seat in 0..SEATS {
        if let Some(index) = index_apart(logs, seat, table[seat as usize]) {
            return Some((seat, index));
        }
    }
    match least_above(logs) {
        None => None,
        Some(above) => Some((above, 0)),
    }
}

/// The place, a seat and an index, at which the logs first differ from the history with its replies by replay, and the
/// graph that the history leaves. `AllocError` if there is no memory for the graph or a reply.
pub fn first_difference(
    alloc: Global,
    vault: &Vault,
    logs: &[SeatLog],
) -> Result<(Option<(u64, u64)>, Graph), AllocError>
    ensures place { IfOk result (λ found. IsPlace vault.now logs.now found.0) }
    ensures graph { IfOk result (λ found. found.1 ≡ graph_now vault.now) }
{
    let (table, graph) = follow(alloc, vault, logs)?;
    let place = place_in(vault, logs, &table);
    Ok((place, graph))
}
