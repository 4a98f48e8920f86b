//! Graphs from lists, and the labels that a graph lends.
ghost use Rattle.std.specs.Prelude.{◌≡◌, ◌<◌, ℕ, map, IfOk, ◌↔◌, IsTrue, true};
ghost use Rattle.std.specs.List.{list_any};
ghost use Rattle.std.specs.Ordering.{eq_by_cmp, nat_cmp};
ghost use Rattle.tg_graph.specs.Promise.Parts.{AreParts, Before, Lists, Rises};
ghost use Rattle.tg_graph.specs.Inner.Parts.{label_entry, vertex_entry};
ghost use Rattle.tg_graph.specs.Promise.Fullness.{vertex_count};
ghost use Rattle.tg_graph.specs.Promise.Protection.{IsGraph, IsVertex, has_retired};
ghost use Rattle.tg_graph.specs.Promise.Views.{AreLabels};

use crate::graph::Graph;
use crate::roll::Roll;
use crate::vertex::Vertex;
use std::alloc::{AllocError, Global};
use std::collections::{BTreeMap, BTreeSet};
use tg_rights::{Kind, Name, Rights, Text};

/// What a graph has, in lists.
#[derive(Drop)]
pub struct Parts {
    /// The vertices by rising serial: what each is, and its text.
    pub vertices: Vec<(u64, Kind, Text)>,
    /// The edges by rising pairs of ends, each with its label.
    pub edges: Vec<(u64, Rights, u64)>,
    /// The active principals.
    pub names: Vec<(Name, u64)>,
    /// Those that were principals and have retired, by rising serial.
    pub retired: Vec<u64>,
    /// The next serial.
    pub next: u64,
}

impl Graph {
    /// Lends the labels by the ends of their edges: first the vertex that has the rights, then the one over which it
    /// has them. Each edge is there once, by rising ends; a pair with an empty label is no edge.
    pub fn labels(&self) -> &BTreeMap<(u64, u64), Rights>
        ensures { AreLabels self.now result.now.entries }
    {
        &self.labels
    }

    /// How many vertices there are.
    pub fn vertex_count(&self) -> u64
        ensures { result ≡ vertex_count self.now }
    {
        self.vertices.len() as u64
    }

    /// Whether all who have retired are vertices, as they are in a graph from which nothing has been dropped since it
    /// was opened.
    pub fn has_all_retired(&self) -> bool
        ensures { IsTrue result ↔ ((v : ℕ) → has_retired self.now v ≡ true → IsVertex self.now v) }
    {
        for serial in &self.retired {
            if !self.vertices.contains_key(serial) {
                return false;
            }
        }
        true
    }

    /// The graph that has exactly what is in these lists. Vertices and those who have retired are listed by rising
    /// serial and edges by rising pairs of ends; the ends of an edge are two different vertices, and its label is not
    /// empty; there are at most 64 principals, subjects of different names and serials, and none of them has retired;
    /// who has retired is a vertex; and the next serial is above all. `AllocError` if there is no memory for the graph.
    pub fn from_parts(alloc: Global, parts: Parts) -> Result<Graph, AllocError>
        requires { AreParts parts }
        ensures lists { IfOk result (Lists parts) }
        ensures graph { IfOk result IsGraph }
    {
        let Parts {
            vertices,
            edges,
            names,
            retired,
            next,
        } = parts;
        let listed = edges.as_slice();
        let gone = retired.as_slice();
        let vertices = vertices_of(alloc, vertices)?;
        let labels = labels_of(alloc, listed)?;
        let roll = Roll::of_pairs(alloc, names)?;
        let retired = serials_of(alloc, gone)?;
        Ok(Graph {
            vertices,
            labels,
            next,
            roll,
            retired,
            alloc,
        })
    }
}

/// The vertices by their serials, which rise: so the map is built at once, with no search for the place of each.
fn vertices_of(
    alloc: Global,
    listed: Vec<(u64, Kind, Text)>,
) -> Result<BTreeMap<u64, Vertex>, AllocError>
    requires { Rises (λ v w. v.0 < w.0) listed.items }
    ensures { IfOk result (λ found. found.entries ≡ map vertex_entry listed.items) }
{
    listed
        .into_iter()
        .map(|(serial, kind, text)| (serial, Vertex { kind, text }))
        .collect(alloc)
}

/// The labels by the ends of their edges, which rise: so the map is built at once, with no search for the place of
/// each.
fn labels_of(
    alloc: Global,
    listed: &[(u64, Rights, u64)],
) -> Result<BTreeMap<(u64, u64), Rights>, AllocError>
    requires { Rises Before listed.now }
    ensures { IfOk result (λ found. found.entries ≡ map label_entry listed.now) }
{
    listed
        .iter()
        .map(|&(from, rights, to)| ((from, to), rights))
        .collect(alloc)
}

/// The set of these serials.
fn serials_of(alloc: Global, listed: &[u64]) -> Result<BTreeSet<u64>, AllocError>
    ensures { IfOk result (λ found. (q : ℕ) → list_any (eq_by_cmp nat_cmp q) found.keys ≡ list_any (eq_by_cmp nat_cmp q) listed.now) }
{
    listed.iter().copied().collect(alloc)
}
