//! Settling: the logs of all callers against the history.
ghost use Rattle.tg_audit.specs.Promise.Settling.{GivesBack, HandsOn, SettledAs};

use crate::following::first_difference;
use crate::logs::{SeatLog, Settled};
use std::alloc::Global;
use tg_graph::Graph;
use tg_vault::Vault;

/// Compares what callers received with the history. `Agreed`: for each seat, its entries in order, each with its actor,
/// its command and its reply by replay, are the seat's logs joined in the order given. Otherwise `Differs`, with the
/// least seat, and in it the least index, at which the two differ. `NoMemory` only if there was none for the graph of
/// the replay or a reply. It goes over the history once, and over the logs once for each seat that has entries; each
/// reply is compared as the replay finds it.
pub fn settle(alloc: Global, vault: Vault, logs: Vec<SeatLog>) -> Settled
    ensures { SettledAs vault logs.items result }
{
    let (settled, logs) = settle_with_logs(alloc, vault, logs);
    drop(logs);
    settled
}

/// As `settle`, and returns the logs if they agree, which `settle` drops: so they can be dropped later. Otherwise they
/// are in the result, and the list is empty.
pub fn settle_with_logs(alloc: Global, vault: Vault, logs: Vec<SeatLog>) -> (Settled, Vec<SeatLog>)
    ensures settled { SettledAs vault logs.items result.0 }
    ensures logs { GivesBack logs.items result.0 result.1.items }
{
    let (settled, logs, graph) = settle_with_graph(alloc, vault, logs);
    drop(graph);
    (settled, logs)
}

/// As `settle_with_logs`, and returns the graph that the history leaves if the logs agree: so a rebase can go on from
/// it.
pub fn settle_with_graph(
    alloc: Global,
    vault: Vault,
    logs: Vec<SeatLog>,
) -> (Settled, Vec<SeatLog>, Option<Graph>)
    ensures settled { SettledAs vault logs.items result.0 }
    ensures logs { GivesBack logs.items result.0 result.1.items }
    ensures graph { HandsOn vault result.0 result.2 }
{
    let none = Vec::new(alloc);
    match first_difference(alloc, &vault, logs.as_slice()) {
        Err(_) => (Settled::NoMemory { vault, logs }, none, None),
        Ok((None, graph)) => (Settled::Agreed(vault), logs, Some(graph)),
        Ok((Some(place), _)) => {
            let settled = Settled::Differs {
                vault,
                logs,
                seat: place.0,
                index: place.1,
            };
            (settled, none, None)
        }
    }
}
