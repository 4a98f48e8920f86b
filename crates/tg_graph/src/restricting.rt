//! A graph without what nobody needs of it any longer.
ghost use Rattle.std.specs.Prelude.{◌≡◌, ◌<◌, filter};
ghost use Rattle.tg_lists.specs.Promise.Membership.{Contains};
ghost use Rattle.tg_graph.specs.Inner.Restricting.{begins_with, is_among, is_vertex_in, without_below};
ghost use Rattle.tg_graph.specs.Promise.Parts.{Rises};
ghost use Rattle.tg_graph.specs.Promise.Protection.{IsClosed, IsGraph, IsRestriction};

use crate::graph::Graph;
use crate::vertex::Vertex;
use std::collections::{BTreeMap, BTreeSet};
use tg_rights::Rights;

impl Graph {
    /// Restricts the graph to the vertices of these serials, which rise: they stay with their edges, and so do those of
    /// the retired that are among them, the active principals and the next serial; all else is dropped. The active
    /// principals have to be among them, and no edge may lead from them to another vertex. Allocates nothing, and goes
    /// through the graph once.
    pub fn restrict(&mut self, kept: &[u64])
        requires rising { Rises (λ v w. v < w) kept.now }
        requires closed { IsClosed self.old (Contains kept.now) }
        ensures restricted { IsRestriction self.old self.new (Contains kept.now) }
        ensures graph { IsGraph self.new }
    {
        keep_vertices(&mut self.vertices, kept);
        keep_labels(&mut self.labels, kept);
        keep_retired(&mut self.retired, &self.vertices);
        self.soundness();
    }
}

/// The serials without the first ones, those below this one.
fn without_below(kept: &[u64], serial: u64) -> &[u64]
    ensures { result.now ≡ without_below kept.now serial }
{
    let mut left = kept;
    while let [first, rest @ ..] = left {
        if serial <= *first {
            return left;
        }
        left = rest;
    }
    left
}

/// Whether the first of the serials is this one.
fn begins_with(left: &[u64], serial: u64) -> bool
    ensures { result ≡ begins_with left.now serial }
{
    match left {
        [first, ..] => *first == serial,
        [] => false,
    }
}

/// Keeps the vertices of these serials.
fn keep_vertices(vertices: &mut BTreeMap<u64, Vertex>, kept: &[u64])
    requires { Rises (λ v w. v < w) kept.now }
    ensures { vertices.new.entries ≡ filter (λ e. is_among kept.now e.0) vertices.old.entries }
{
    let mut left = kept;
    vertices.retain(move |serial, _| {
        left = without_below(left, *serial);
        begins_with(left, *serial)
    });
}

/// Keeps the labels of the edges from the vertices of these serials.
fn keep_labels(labels: &mut BTreeMap<(u64, u64), Rights>, kept: &[u64])
    requires { Rises (λ v w. v < w) kept.now }
    ensures { labels.new.entries ≡ filter (λ e. is_among kept.now e.0.0) labels.old.entries }
{
    let mut left = kept;
    labels.retain(move |ends, _| {
        left = without_below(left, ends.0);
        begins_with(left, ends.0)
    });
}

/// Keeps those of the serials that are vertices.
fn keep_retired(retired: &mut BTreeSet<u64>, vertices: &BTreeMap<u64, Vertex>)
    ensures { retired.new.keys ≡ filter (λ x. is_vertex_in vertices.now.entries x) retired.old.keys }
{
    retired.retain(|serial| vertices.contains_key(serial));
}
