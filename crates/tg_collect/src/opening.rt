//! The machine of an opening graph.
ghost use Rattle.std.specs.Prelude.{◌≡◌, ◌<◌, ◌≤◌, ◌+◌, length, replicate, None, IfOk};
ghost use Rattle.tg_rights.specs.declared.limits.TheConstants.{MAX_CELLS, MAX_PRINCIPALS, MAX_SLOTS, SEATS};
ghost use Rattle.tg_collect.specs.Inner.Machine.{Whole};
ghost use Rattle.tg_collect.specs.Inner.Stored.{stored};
ghost use Rattle.tg_collect.specs.Promise.Openings.{IsOpening, Opened};
ghost use Rattle.tg_collect.specs.Inner.Openings.{OpensFirst, OpensAll, OpensEdges, KeepsSize, rank};

use crate::machine::{Machine, Progress, Root, Roots};
use crate::packed_progress::PackedProgress;
use crate::roster::Roster;
use std::alloc::{AllocError, Global};
use tg_graph::Graph;
use tg_heap::{Heap, Key};
use tg_rights::{Kind, SEATS, Text};

impl Machine {
    /// The machine of a graph: its vertices, which are the principals, and then its edges by rising pairs of their
    /// ends.
    pub fn open(
        alloc: Global,
        key: Key,
        graph: &Graph,
        slots: u32,
        cells: u32,
    ) -> Result<Machine, AllocError>
        requires low_slots { 1 ≤ slots }
        requires high_slots { slots ≤ MAX_SLOTS }
        requires low_cells { 1 ≤ cells }
        requires high_cells { cells ≤ MAX_CELLS }
        requires opening { IsOpening graph.now slots cells }
        ensures whole { IfOk result Whole }
        ensures opened { IfOk result (λ m. Opened (stored m) graph.now slots cells) }
        ensures key { IfOk result (λ m. m.heap.key ≡ key) }
    {
        graph.soundness();
        let mut machine = Machine::blank(alloc, key, slots, cells)?;
        machine.open_principals(alloc, graph);
        machine.open_edges(graph);
        Ok(machine)
    }

    /// Free slots and free cells, with no root, and room for 64 of each.
    fn blank(alloc: Global, key: Key, slots: u32, cells: u32) -> Result<Machine, AllocError>
        requires low_slots { 1 ≤ slots }
        requires high_slots { slots ≤ MAX_SLOTS }
        requires low_cells { 1 ≤ cells }
        requires high_cells { cells ≤ MAX_CELLS }
        ensures first { IfOk result (λ m. OpensFirst m 0) }
        ensures slots { IfOk result (λ m. length m.heap.table.slots ≡ slots) }
        ensures cells { IfOk result (λ m. m.heap.cell_count ≡ cells) }
        ensures key { IfOk result (λ m. m.heap.key ≡ key) }
    {
        let progress = PackedProgress::of(Progress::Idle);
        let heap = Heap::with_key(alloc, key, slots, cells)?;
        let roots = Roots {
            targets: empty_seats(alloc)?,
            principals: Roster::new(alloc)?,
            agents: empty_seats(alloc)?,
        };
        Ok(Machine {
            heap,
            progress,
            roots,
        })
    }

    /// Puts the graph's vertices into the first slots, in the order of their serials.
    fn open_principals(&mut self, alloc: Global, graph: &Graph)
        requires first { OpensFirst self.old 0 }
        requires opening { IsOpening graph.now (length self.old.heap.table.slots) self.old.heap.cell_count }
        ensures all { OpensAll self.new graph.now }
        ensures size { KeepsSize self.old self.new }
    {
        let mut count = 0;
        while graph.kind(count + 1).is_some() {
            self.open_principal(alloc, count);
            count += 1;
        }
    }

    /// Puts a subject into the first free slot and makes it a principal, after as many as the count says.
    fn open_principal(&mut self, alloc: Global, count: u64)
        requires first { OpensFirst self.old count }
        requires few { count < MAX_PRINCIPALS }
        requires room { count < length self.old.heap.table.slots }
        ensures { OpensFirst self.new (count + 1) × KeepsSize self.old self.new }
    {
        self.heap.soundness();
        match self.place_vertex(count + 1, Kind::Subject, Text::empty(alloc)) {
            Err(_) => unreachable!(),
            Ok(slot) => self.add_principal(Root {
                serial: count + 1,
                slot,
            }),
        }
    }

    /// Adds the graph's edges between the principals, by rising pairs of their ends.
    fn open_edges(&mut self, graph: &Graph)
        requires { OpensEdges self.old graph.now (rank 1 1) }
        ensures whole { Whole self.new }
        ensures opened { Opened (stored self.new) graph.now (length self.old.heap.table.slots)
            self.old.heap.cell_count }
        ensures key { self.new.heap.key ≡ self.old.heap.key }
    {
        let count = self.roots.principals.len() as u32;
        for from in 0..count {
            for to in 0..count {
                self.open_pair(graph, from, to);
            }
        }
        self.heap.soundness();
    }

    /// Adds the edge of a pair of principals, if the graph has one. The principals are in the first slots, in the order
    /// of their serials, which begin with 1.
    fn open_pair(&mut self, graph: &Graph, from: u32, to: u32)
        requires from { from < length self.old.roots.principals }
        requires to { to < length self.old.roots.principals }
        requires opens { OpensEdges self.old graph.now (rank (from + 1) (to + 1)) }
        ensures opens { OpensEdges self.new graph.now (rank (from + 1) (to + 1 + 1)) }
        ensures roots { self.new.roots ≡ self.old.roots }
        ensures size { KeepsSize self.old self.new }
    {
        self.heap.soundness();
        let rights = graph.rights(from as u64 + 1, to as u64 + 1);
        if !rights.is_empty() {
            self.heap.add_edge(from, to, rights);
            self.heap.soundness();
        }
    }
}

/// 64 seats without a root.
fn empty_seats(alloc: Global) -> Result<Vec<Option<Root>>, AllocError>
    ensures { IfOk result (λ seats. seats.items ≡ replicate SEATS None) }
{
    let mut seats = Vec::with_capacity(alloc, SEATS as usize)?;
    while seats.len() < SEATS as usize {
        seats.push(None)?;
    }
    Ok(seats)
}
