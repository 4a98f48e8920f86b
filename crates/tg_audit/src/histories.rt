//! A history as a derivation, and the graph that it leaves.
ghost use Rattle.std.specs.Prelude.{◌≡◌, IfOk};
ghost use Rattle.tg_audit.specs.Promise.Derived.{derivation_of, entry_step};
ghost use Rattle.tg_vault.specs.Promise.Contents.{graph_now};

use crate::replaying::reply_to;
use std::alloc::{AllocError, Global};
use tg_graph::{Graph, Step, rewriting_step};
use tg_rights::Outcome;
use tg_vault::{Entry, Vault};

/// The step that changes edges as the entry did, if it changed any: take, grant, create or remove, as in `derivation`.
/// Allocates nothing.
pub fn entry_step(entry: &Entry) -> Option<Step>
    ensures { result ≡ entry_step entry.now }
{
    match entry.outcome() {
        Outcome::Allowed => rewriting_step(entry.actor(), entry.command()),
        Outcome::Denied(..) => None,
        Outcome::Full(_) => None,
    }
}

/// What the entries did to the edges, as steps of take, grant, create and remove alone: an enrol is a create of a
/// subject, and what was refused or changes no edge is left out. From the opening graph of a vault that has not been
/// rebased, they lead to one with the kinds, edges and next serial of the graph of the history (`histories_derive`).
/// `AllocError` if an allocation failed.
pub fn derivation(alloc: Global, vault: &Vault) -> Result<Vec<Step>, AllocError>
    ensures { IfOk result (λ steps. steps.items ≡ derivation_of vault.now.history) }
{
    let mut steps = Vec::new(alloc);
    for number in 0..vault.count() {
        let Some(entry) = vault.entry(number) else {
            unreachable!()
        };
        if let Some(step) = entry_step(entry) {
            steps.push(step)?;
        }
    }
    Ok(steps)
}

/// The plain graph to which the history leads, whether or not the store still holds all of it. `AllocError` if an
/// allocation failed.
pub fn graph_of_history(alloc: Global, vault: &Vault) -> Result<Graph, AllocError>
    ensures { IfOk result (λ graph. graph ≡ graph_now vault.now) }
{
    vault.soundness();
    let mut graph = vault.opening().copy()?;
    for number in 0..vault.count() {
        let Some(entry) = vault.entry(number) else {
            unreachable!()
        };
        reply_to(alloc, &mut graph, entry)?;
    }
    Ok(graph)
}
