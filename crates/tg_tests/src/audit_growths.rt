//! Calls that lack memory and are made again: tests/faults/growths.py makes each allocation of these tests fail in
//! turn.
use crate::audit::{Derivation, Finding, goal_of, is_found, is_verdict, steps_of};
use crate::audit_logs::{
    ENTRIES, SETTLEMENTS, Settlement, are_settled, is_replayed, logs_of, opened,
    vault_as_worked_out,
};
use crate::cases::{Ask, Opening, TWO};
use crate::graph;
use std::alloc::{AllocError, Global};
use std::io::Print;
use std::process::Abort;
use tg_audit::{SeatLog, Settled, check, settle};
use tg_vault::Vault;

/// Whether the derivation has the verdict that was worked out. If memory runs out the graph is used up, and is made
/// again.
fn is_found_again(
    rt: &(impl Abort + Print),
    alloc: Global,
    derivation: &Derivation,
) -> Result<bool, AllocError> {
    let graph = graph::opened(rt, alloc, &derivation.opening)?;
    let steps = steps_of(alloc, derivation)?;
    match check(alloc, graph, &steps, goal_of(derivation)) {
        Ok(found) => Ok(is_verdict(found, derivation.finding)),
        Err(_) => {
            let _ = rt.println("no memory");
            is_found(rt, alloc, derivation)
        }
    }
}

/// Alice makes a document, in a graph without edges: the first edge needs memory.
const FIRST_EDGE: &Derivation = &Derivation {
    opening: Opening {
        names: &["alice"],
        next: 2,
        ..TWO
    },
    steps: &[(1, Ask::Document("r"))],
    goal: (1, "r", 2),
    finding: Finding::Shared,
};

/// A check that lacks memory has its verdict when it is made again.
#[test]
fn growth_refused_in_a_check(rt: HostRuntime) -> Result<(), AllocError> {
    assert!(rt; is_found_again(&rt, rt.alloc(), FIRST_EDGE)?);
    Ok(())
}

/// Whether the history is replayed with the replies to its entries, again if memory runs out.
fn is_replayed_again(
    rt: &(impl Abort + Print),
    alloc: Global,
    vault: &Vault,
) -> Result<bool, AllocError> {
    match is_replayed(alloc, vault, ENTRIES) {
        Ok(replayed) => Ok(replayed),
        Err(_) => {
            let _ = rt.println("no memory");
            assert!(rt; vault.count() == 4);
            is_replayed(alloc, vault, ENTRIES)
        }
    }
}

/// The history is replayed in that way.
fn replays_again(
    rt: &(impl Abort + Print),
    alloc: Global,
    vault: &Vault,
) -> Result<(), AllocError> {
    let replayed = is_replayed_again(rt, alloc, vault)?;
    assert!(rt; replayed);
    Ok(())
}

/// A replay that lacks memory leaves the history.
#[test]
fn growth_refused_in_a_replay(rt: HostRuntime) -> Result<(), AllocError> {
    let vault = opened(&rt, rt.alloc())?;
    replays_again(&rt, rt.alloc(), &vault)
}

/// Whether these logs have the seats and the lengths of the settlement's.
fn are_handed_back(logs: &[SeatLog], settlement: &Settlement) -> bool {
    logs.len() == settlement.logs.len()
        && logs.iter().zip(settlement.logs.iter()).all(|(log, given)| log.seat == given.0
            && log.exchanges.len() == given.2.len())
}

/// Settles what a settlement without memory handed back.
fn settled_later(
    rt: &(impl Abort + Print),
    alloc: Global,
    vault: Vault,
    logs: Vec<SeatLog>,
    settlement: &Settlement,
) -> Settled {
    let _ = rt.println("no memory");
    assert!(rt; vault.count() == 4 && are_handed_back(&logs, settlement));
    settle(alloc, vault, logs)
}

/// Settles the logs. If memory runs out, vault and logs are returned, and settled again.
fn settled_again(
    rt: &(impl Abort + Print),
    alloc: Global,
    vault: Vault,
    logs: Vec<SeatLog>,
    settlement: &Settlement,
) -> Settled {
    match settle(alloc, vault, logs) {
        Settled::NoMemory { vault, logs } => settled_later(rt, alloc, vault, logs, settlement),
        settled => settled,
    }
}

/// The vault, with whose history the settlement's logs are settled as worked out.
fn settles_again(
    rt: &(impl Abort + Print),
    alloc: Global,
    vault: Vault,
    settlement: &Settlement,
) -> Result<Vault, AllocError> {
    let logs = logs_of(rt, alloc, settlement)?;
    let settled = settled_again(rt, alloc, vault, logs, settlement);
    vault_as_worked_out(rt, settled, settlement)
}

/// The same for a vault that an earlier settlement returned, if there was memory.
fn settles_another_again(
    rt: &(impl Abort + Print),
    alloc: Global,
    settled: Result<Vault, AllocError>,
    settlement: &Settlement,
) -> Result<Vault, AllocError> {
    settles_again(rt, alloc, settled?, settlement)
}

/// The settlements' logs are settled, one after another, as worked out.
fn settles_all_again(rt: &(impl Abort + Print), alloc: Global) -> Result<(), AllocError> {
    let mut settled = opened(rt, alloc);
    for settlement in SETTLEMENTS {
        settled = settles_another_again(rt, alloc, settled, settlement);
    }
    are_settled(settled)
}

/// A settlement that lacks memory leaves the vault and the logs.
#[test]
fn growth_refused_in_a_settlement(rt: HostRuntime) -> Result<(), AllocError> {
    settles_all_again(&rt, rt.alloc())
}
