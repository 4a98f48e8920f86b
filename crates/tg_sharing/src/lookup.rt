//! All vertices that could ever come to have rights over one, and all over which one could ever come to have them.
ghost use Rattle.std.specs.Prelude.{◌≡◌, IfOk, false};
ghost use Rattle.std.specs.List.{filter_map, list_any};
ghost use Rattle.tg_rights.specs.Promise.Letters.{is_none};
ghost use Rattle.tg_graph.specs.Promise.Protection.{IsVertex};
ghost use Rattle.tg_sharing.specs.Promise.Lookups.{AreMany, IsListing, holder_goal, present, target_goal};
ghost use Rattle.tg_sharing.specs.Inner.Lookups.{AreEnds, holder_of, is_unknown, target_found};
ghost use Rattle.tg_sharing.specs.Promise.Prospects.{IsTooMuch};

use crate::prospect::{Could, what_could, who_could};
use crate::withheld_for_ever;
use std::alloc::{AllocError, Global};
use std::collections::BTreeSet;
use tg_graph::{Graph, commands_keep_graphs};
use tg_rights::Rights;

/// All vertices that a lookup asks for, or why they are not listed.
#[derive(Debug, Drop)]
pub enum Listing {
    /// All for which the rights can ever be shared, by rising serial, each with those of the rights that are there now.
    All(Vec<(u64, Rights)>),
    /// It takes more than the bound allows.
    TooMuch,
    /// Not known, since serials run out.
    Unknown,
}

/// All vertices that could ever come to have the rights, at least one, over `to`, whatever the subjects do; no other
/// vertex can. `TooMuch` exactly if more than `most` vertices are an end of an edge; each of those takes as long as
/// `can_share`. `Unknown` only where serials run out. `AllocError` if there is no memory for the answer.
pub fn every_holder(
    alloc: Global,
    graph: &Graph,
    rights: Rights,
    to: u64,
    most: usize,
) -> Result<Listing, AllocError>
    requires to { IsVertex graph.now to }
    requires some { is_none rights ≡ false }
    ensures { IfOk result (IsListing graph.now (holder_goal rights to) (AreMany graph.now most)) }
{
    graph.soundness();
    withheld_for_ever();
    let ends = ends_of(alloc, graph)?;
    if ends.len() > most {
        return Ok(Listing::TooMuch);
    }
    let asked = listed(alloc, &ends)?;
    let found = who_could(alloc, graph, rights, to, &asked)?;
    if has_unknown(&found) {
        return Ok(Listing::Unknown);
    }
    Ok(Listing::All(holders(alloc, graph, rights, to, &found)?))
}

/// All vertices over which `from` could ever come to have the rights, at least one, whatever the subjects do; there is
/// no other such vertex. `TooMuch` only if the derivation of all that it could have takes more steps than `most`, or
/// more new vertices than there are serials. `AllocError` if there is no memory for the answer.
pub fn every_target(
    alloc: Global,
    graph: &Graph,
    from: u64,
    rights: Rights,
    most: usize,
) -> Result<Listing, AllocError>
    requires from { IsVertex graph.now from }
    requires some { is_none rights ≡ false }
    ensures { IfOk result (IsListing graph.now (target_goal rights from) (IsTooMuch graph.now most)) }
{
    graph.soundness();
    commands_keep_graphs();
    let Some(prospect) = what_could(alloc, graph, from, most)? else {
        return Ok(Listing::TooMuch);
    };
    let found = targets(alloc, graph, from, rights, &prospect.labels)?;
    Ok(Listing::All(found))
}

/// The vertices that are an end of an edge.
fn ends_of(alloc: Global, graph: &Graph) -> Result<BTreeSet<u64>, AllocError>
    ensures { IfOk result (λ ends. AreEnds graph.now ends.keys) }
{
    graph.soundness();
    let mut ends = BTreeSet::new(alloc);
    let labels = graph.labels();
    for (pair, label) in labels {
        if !label.is_empty() {
            ends.insert(pair.0)?;
            ends.insert(pair.1)?;
        }
    }
    Ok(ends)
}

fn listed(alloc: Global, ends: &BTreeSet<u64>) -> Result<Vec<u64>, AllocError>
    ensures { IfOk result (λ list. list.items ≡ ends.now.keys) }
{
    ends.iter().copied().collect(alloc)
}

/// Which of the rights `from` has over `to` now.
fn present(graph: &Graph, from: u64, to: u64, rights: Rights) -> Rights
    ensures { result ≡ present graph.now (record { from = from; to = to; rights = rights }) }
{
    rights.minus(rights.minus(graph.rights(from, to)))
}

/// Whether the answer for some vertex is unknown.
fn has_unknown(found: &[(u64, Could)]) -> bool
    ensures { result ≡ list_any (λ p. is_unknown p.1) found.now }
{
    found.iter().any(|one| is_unknown(one.1))
}

fn is_unknown(could: Could) -> bool
    ensures { result ≡ is_unknown could }
{
    match could {
        Could::Never => false,
        Could::Ever => false,
        Could::Unknown => true,
    }
}

/// Those that could, each with the rights that it has now.
fn holders(
    alloc: Global,
    graph: &Graph,
    rights: Rights,
    to: u64,
    found: &[(u64, Could)],
) -> Result<Vec<(u64, Rights)>, AllocError>
    ensures { IfOk result (λ list. list.items ≡ filter_map (λ p. holder_of graph.now rights to p.0 p.1) found.now) }
{
    found
        .iter()
        .filter_map(|one| holder(graph, rights, to, one.0, one.1))
        .collect(alloc)
}

/// A vertex with the rights that it has now, if it could come to have all of them.
fn holder(
    graph: &Graph,
    rights: Rights,
    to: u64,
    vertex: u64,
    could: Could,
) -> Option<(u64, Rights)>
    ensures { result ≡ holder_of graph.now rights to vertex could }
{
    match could {
        Could::Never => None,
        Could::Ever => Some((vertex, present(graph, vertex, to, rights))),
        Could::Unknown => None,
    }
}

/// Those over which the vertex comes to have all the rights, each with the rights that are there now.
fn targets(
    alloc: Global,
    graph: &Graph,
    from: u64,
    rights: Rights,
    found: &[(u64, Rights)],
) -> Result<Vec<(u64, Rights)>, AllocError>
    ensures { IfOk result (λ list. list.items ≡ filter_map (λ p. target_found graph.now rights from p.0 p.1) found.now) }
{
    found
        .iter()
        .filter_map(|one| target(graph, from, rights, one.0, one.1))
        .collect(alloc)
}

/// A vertex with the rights over it that are there now, if this label has all of them.
fn target(
    graph: &Graph,
    from: u64,
    rights: Rights,
    over: u64,
    label: Rights,
) -> Option<(u64, Rights)>
    ensures { result ≡ target_found graph.now rights from over label }
{
    if label.contains(rights) {
        Some((over, present(graph, from, over, rights)))
    } else {
        None
    }
}
