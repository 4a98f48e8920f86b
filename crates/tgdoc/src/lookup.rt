//! All vertices that could ever come to have rights over one, or over which one could, in the graph to which a run led.
ghost use Rattle.std.specs.Prelude.{◌≡◌, IfOk, false};
ghost use Rattle.tg_rights.specs.Promise.Letters.{is_none};
ghost use Rattle.tg_graph.specs.Promise.Protection.{IsVertex};
ghost use Rattle.tg_sharing.specs.Promise.Lookups.{IsListing};
ghost use Rattle.tg_vault.specs.Promise.Contents.{graph_now};
ghost use Rattle.tg_wire.specs.Promise.Unshared.{could_line};
ghost use Rattle.tgdoc.specs.Promise.Lookups.{LookedUp, TakesMore, goal_with};

use crate::question::{End, Lookup};
use crate::unshared::{Told, unshared_told, vertex_in};
use std::alloc::{AllocError, Global};
use tg_audit::graph_of_history;
use tg_graph::Graph;
use tg_rights::Rights;
use tg_sharing::{Listing, every_holder, every_target};
use tg_vault::Vault;
use tg_wire::{LineRoom, Unshared, write_could_in};

/// The answer to a lookup, about the graph to which the vault's history led.
pub(crate) fn answer_lookup(
    alloc: Global,
    vault: &Vault,
    lookup: &Lookup,
) -> Result<Told, AllocError>
    ensures { IfOk result (λ told. LookedUp (graph_now vault.now) lookup.now told.text.items told.is_error) }
{
    let graph = graph_of_history(alloc, vault)?;
    let vertex = match vertex_in(&graph, &lookup.vertex) {
        Ok(vertex) => vertex,
        Err(unshared) => return unshared_told(alloc, unshared),
    };
    if lookup.rights.is_empty() {
        return unshared_told(alloc, Unshared::NoRights);
    }
    match listing(alloc, &graph, lookup, vertex)? {
        Listing::All(could) => listed(alloc, &could),
        Listing::TooMuch => unshared_told(alloc, Unshared::TooMuch),
        Listing::Unknown => unshared_told(alloc, Unshared::NoSerial),
    }
}

/// All vertices that are asked for, if that takes no more than the bound allows.
fn listing(
    alloc: Global,
    graph: &Graph,
    lookup: &Lookup,
    vertex: u64,
) -> Result<Listing, AllocError>
    requires vertex { IsVertex graph.now vertex }
    requires some { is_none lookup.now.rights ≡ false }
    ensures { IfOk result (IsListing graph.now (goal_with lookup.now.end lookup.now.rights vertex) (TakesMore lookup.now.end graph.now lookup.now.most)) }
{
    match lookup.end {
        End::To => every_holder(alloc, graph, lookup.rights, vertex, lookup.most),
        End::From => every_target(alloc, graph, vertex, lookup.rights, lookup.most),
    }
}

/// The line of the vertices that could.
fn listed(alloc: Global, could: &[(u64, Rights)]) -> Result<Told, AllocError>
    ensures { IfOk result (λ told. (told.text.items ≡ could_line could.now) × (told.is_error ≡ false)) }
{
    let mut room = LineRoom::new(alloc);
    write_could_in(&mut room, could)?;
    Ok(Told {
        text: room.into_line()?,
        is_error: false,
    })
}
