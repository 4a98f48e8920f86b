//! The store as callers see it: what is held as a protection graph, and how far the collector has come.
ghost use Rattle.std.specs.Prelude.{◌≡◌, ◌≢◌, ℕ, ◌<◌, ◌≤◌, Option, Some, None, MatchOption, OnOk, OnErr, IfOk, IfErr, IsSome, true, false, length, map};
ghost use Rattle.std.specs.Bool.{OnFalse};
ghost use Rattle.std.specs.Option.{option_map};
ghost use Rattle.std.specs.FinMap as finmap;
ghost use Rattle.tg_lists.specs.Promise.Membership.{Contains};
ghost use Rattle.tg_rights.specs.declared.limits.TheConstants.{MAX_CELLS, MAX_PRINCIPALS, MAX_SLOTS, SEATS};
ghost use Rattle.tg_rights.specs.Promise.Letters.{is_none, includes, none};
ghost use Rattle.tg_graph.specs.Promise.Protection.{label};
ghost use Rattle.tg_graph.specs.Promise.Rules.{edges_of};
ghost use Rattle.tg_heap.specs.Promise.Graph.{edges};
ghost use Rattle.tg_collect.specs.Promise.Readings.{IsHeldIn, IsParkedIn, IsEdgeIn, held, vertices, principals, place, serial_at, pending_of, agent_of, free_slots, slot_count, phase};
ghost use Rattle.tg_collect.specs.Promise.Stored.{FIXED};
ghost use Rattle.tg_collect.specs.Promise.Views.{IsStore, Collected};
ghost use Rattle.tg_collect.specs.Promise.Runs.{Cycled};
ghost use Rattle.tg_collect.specs.Promise.Sessions.{Shaded, EdgeStored, VertexStored, PrincipalStored, Retired, Assumed, AgentLeft, RightsRemoved, TextReplaced, Acted};
ghost use Rattle.tg_collect.specs.Promise.Openings.{IsOpening, Opened};

use crate::machine::{Machine, Root};
use crate::note::{Note, Phase, Swept};
use std::alloc::{AllocError, Global};
use std::marker::Model;
use tg_graph::Graph;
use tg_heap::{HeapFull, Key};
use tg_rights::{Kind, Rights, Text};

/// Vertices with their labelled edges in slots and cells, the principals, each seat's pending target and agent, and
/// their collector. Contracts see what is held as a protection graph, what each slot has and in which colour, also
/// if it is parked, and of the collector its phase, how far the sweep is, and what is left of a cycle.
///
/// A call that names a slot requires that a vertex is held there; one that names a seat, that it is 0 to 63.
#[derive(Drop)]
pub struct Store {
    pub(crate) machine: Machine,
}

impl Model for Store {
    ghost use Rattle.tg_collect.specs.Inner.Machine.{Whole};
    ghost use Rattle.tg_collect.specs.Promise.Stored.{Stored};
    ghost use Rattle.tg_collect.specs.Inner.Stored.{stored};
    ghost use Rattle.std.specs.Coded.{codes};

    ghost Value = { Stored };

    ghost coded = { Prim.hlevel (codes) };

    ghost view = { λ s. stored s.machine };

    ghost invariant = { λ s. Whole s.machine };
}

impl Store {
    /// The store of a graph of at most 64 subjects, its principals, with consecutive serials from 1 on; they and their
    /// edges have to fit. They are in the first slots, white, in the order of their serials; their edges are added by
    /// rising pairs of their ends. All memory is allocated here; the only error is that an allocation failed. Edges are
    /// found under the key that everybody can read.
    pub fn new(alloc: Global, graph: &Graph, slots: u32, cells: u32) -> Result<Store, AllocError>
        requires low_slots { 1 ≤ slots }
        requires high_slots { slots ≤ MAX_SLOTS }
        requires low_cells { 1 ≤ cells }
        requires high_cells { cells ≤ MAX_CELLS }
        requires opening { IsOpening graph.now slots cells }
        ensures opened { IfOk result (λ store. Opened store graph.now slots cells) }
        ensures key { IfOk result (λ store. store.key ≡ FIXED) }
    {
        Store::with_key(alloc, Key::FIXED, graph, slots, cells)
    }

    /// The same under a key of the caller's, by which edges are found. The only error is that an allocation failed.
    pub fn with_key(
        alloc: Global,
        key: Key,
        graph: &Graph,
        slots: u32,
        cells: u32,
    ) -> Result<Store, AllocError>
        requires low_slots { 1 ≤ slots }
        requires high_slots { slots ≤ MAX_SLOTS }
        requires low_cells { 1 ≤ cells }
        requires high_cells { cells ≤ MAX_CELLS }
        requires opening { IsOpening graph.now slots cells }
        ensures opened { IfOk result (λ store. Opened store graph.now slots cells) }
        ensures key { IfOk result (λ store. store.key ≡ key) }
    {
        let machine = Machine::open(alloc, key, graph, slots, cells)?;
        Ok(Store { machine })
    }

    /// No-op; its postcondition exposes the invariant.
    pub fn soundness(&self)
        ensures sound { IsStore self.now }
        ensures slots { slot_count self.now ≤ MAX_SLOTS }
        ensures cells { self.now.cells ≤ MAX_CELLS }
    {
        self.machine.heap.soundness();
    }

    /// The slot of a principal, by its serial; none if no principal has it.
    pub fn principal(&self, serial: u64) -> Option<u32>
        ensures { MatchOption result (Contains (principals self.now) serial → ⊥) (λ id. Contains (principals self.now) serial × (place self.now id ≡ Some serial)) }
    {
        for root in self.machine.roots.principals.as_slice() {
            if root.serial == serial {
                return Some(root.slot);
            }
        }
        None
    }

    /// What the vertex in a slot is.
    pub fn kind(&self, id: u32) -> Kind
        requires { IsSome (place self.now id) }
        ensures { option_map (λ v. v.kind) (finmap.get (vertices self.now) (serial_at self.now id)) ≡ Some result }
    {
        self.machine.heap.kind(id).unwrap()
    }

    /// The text of the vertex in a slot.
    pub fn text(&self, id: u32) -> &Text
        requires { IsSome (place self.now id) }
        ensures { option_map (λ v. v.text) (finmap.get (vertices self.now) (serial_at self.now id)) ≡ Some result.now }
    {
        self.machine.heap.text(id).unwrap()
    }

    /// The slot of the vertex with this serial, and the rights that the vertex in slot `id` has over it; none if it has
    /// none.
    pub fn edge(&self, id: u32, serial: u64) -> Option<(u32, Rights)>
        requires { IsSome (place self.now id) }
        ensures { MatchOption result
            ((next : ℕ) → label (held self.now next) (serial_at self.now id) serial ≡ none)
            (λ t. (place self.now t.0 ≡ Some serial) × (is_none t.1 ≡ false) × ((next : ℕ) → label (held self.now next) (serial_at self.now id) serial ≡ t.1)) }
    {
        self.machine.heap.soundness();
        self.machine.heap.edge(id, serial)
    }

    /// The edges of the vertex in a slot: each serial over which it has rights, with these, by rising serial. The only
    /// error is that an allocation failed.
    pub fn edges(&self, alloc: Global, id: u32) -> Result<Vec<(u64, Rights)>, AllocError>
        requires { IsSome (place self.now id) }
        ensures { IfOk result (λ edges. (next : ℕ) → edges.items ≡ edges_of (held self.now next) (serial_at self.now id)) }
    {
        self.machine.heap.soundness();
        let mut edges = self.machine.edge_list(alloc, id)?;
        edges.sort_unstable_by_key(|edge| edge.0);
        Ok(edges)
    }

    /// The seat's pending target.
    pub fn pending(&self, seat: u64) -> Option<u64>
        requires { seat < SEATS }
        ensures { result ≡ pending_of self.now seat }
    {
        match self.machine.roots.targets[seat as usize] {
            None => None,
            Some(root) => Some(root.serial),
        }
    }

    /// For whom the seat acts, and the slot; none if it has no agent.
    pub fn agent(&self, seat: u64) -> Option<(u64, u32)>
        requires { seat < SEATS }
        ensures { MatchOption result (agent_of self.now seat ≡ None) (λ a. (agent_of self.now seat ≡ Some a.0) × (place self.now a.1 ≡ Some a.0)) }
    {
        match self.machine.roots.agents[seat as usize] {
            None => None,
            Some(root) => Some((root.serial, root.slot)),
        }
    }

    /// How many slots are free.
    pub fn free_slots(&self) -> u32
        ensures { result ≡ free_slots self.now }
    {
        self.machine.heap.soundness();
        self.machine.heap.free_slots()
    }

    /// How many cells are free.
    pub fn free_cells(&self) -> u32
        ensures { result ≡ self.now.free_cells }
    {
        self.machine.heap.free_cells()
    }

    /// The collector's phase.
    pub fn phase(&self) -> Phase
        ensures { result ≡ phase self.now }
    {
        self.machine.progress.get().phase()
    }

    /// The vertex in a slot, as a root.
    fn root_at(&self, id: u32) -> Root
        requires { IsSome (place self.now id) }
        ensures { result ≡ record { serial = serial_at self.now id; slot = id } }
    {
        let serial = self.machine.heap.serial(id).unwrap();
        Root { serial, slot: id }
    }

    /// Joins rights to the label of an edge, and makes its target the seat's pending one. The only error is Cells, if
    /// the edge is new and no cell is free; everything is then as before.
    pub fn store_edge(
        &mut self,
        seat: u64,
        id: u32,
        target: u32,
        rights: Rights,
    ) -> Result<(), HeapFull>
        requires seat { seat < SEATS }
        requires idle { pending_of self.old seat ≡ None }
        requires source { IsSome (place self.old id) }
        requires target { IsSome (place self.old target) }
        requires distinct { target ≢ id }
        requires some { is_none rights ≡ false }
        ensures ok { OnOk result (EdgeStored self.old self.new seat (serial_at self.old id) (serial_at self.old target) rights) }
        ensures acted { OnOk result (Acted self.old self.new None (Some (serial_at self.old target))) }
        ensures full { IfErr result (λ full. (full ≡ HeapFull.Cells) × (self.old.free_cells ≡ 0) × (IsEdgeIn self.old (serial_at self.old id) (serial_at self.old target) → ⊥)) }
        ensures unchanged { OnErr result (self.new ≡ self.old) }
    {
        let root = self.root_at(target);
        self.machine.heap.soundness();
        let added = self.machine.add_edge(seat as usize, id, root, rights);
        self.machine.heap.soundness();
        added
    }

    /// Puts a new vertex into a slot, with an edge to it from the vertex in the slot `id`, and makes it the seat's
    /// pending target. The error is Slots if no slot is free, else Cells if no cell is; everything is then as before
    /// and the text is returned. The serial is neither held nor parked.
    pub fn store_vertex(
        &mut self,
        seat: u64,
        id: u32,
        serial: u64,
        kind: Kind,
        rights: Rights,
        text: Text,
    ) -> Result<(), (HeapFull, Text)>
        requires seat { seat < SEATS }
        requires idle { pending_of self.old seat ≡ None }
        requires source { IsSome (place self.old id) }
        requires some { is_none rights ≡ false }
        requires unheld { IsHeldIn self.old serial → ⊥ }
        requires unparked { IsParkedIn self.old serial → ⊥ }
        ensures ok { OnOk result (VertexStored self.old self.new seat (serial_at self.old id) serial kind text rights) }
        ensures acted { OnOk result (Acted self.old self.new (Some serial) (Some serial)) }
        ensures slots { IfErr result (λ refused. refused.0 ≡ HeapFull.Slots → free_slots self.old ≡ 0) }
        ensures cells { IfErr result (λ refused. refused.0 ≡ HeapFull.Cells → (free_slots self.old ≢ 0) × (self.old.free_cells ≡ 0)) }
        ensures back { IfErr result (λ refused. refused.1 ≡ text) }
        ensures unchanged { OnErr result (self.new ≡ self.old) }
    {
        self.machine.heap.soundness();
        if self.machine.heap.free_slots() == 0 {
            return Err((HeapFull::Slots, text));
        }
        if self.machine.heap.free_cells() == 0 {
            return Err((HeapFull::Cells, text));
        }
        let Ok(slot) = self.machine.place_vertex(serial, kind, text) else {
            unreachable!()
        };
        self.machine.heap.soundness();
        let root = Root { serial, slot };
        self.machine.link_edge(seat as usize, id, root, rights);
        self.machine.heap.soundness();
        Ok(())
    }

    /// Puts a new subject into a slot, as `store_vertex` does with the same errors, and makes it a principal, of whom
    /// there are fewer than 64.
    pub fn store_principal(
        &mut self,
        seat: u64,
        id: u32,
        serial: u64,
        rights: Rights,
        text: Text,
    ) -> Result<(), (HeapFull, Text)>
        requires seat { seat < SEATS }
        requires idle { pending_of self.old seat ≡ None }
        requires source { IsSome (place self.old id) }
        requires some { is_none rights ≡ false }
        requires unheld { IsHeldIn self.old serial → ⊥ }
        requires unparked { IsParkedIn self.old serial → ⊥ }
        requires few { length (principals self.old) < MAX_PRINCIPALS }
        ensures ok { OnOk result (PrincipalStored self.old self.new seat (serial_at self.old id) serial text rights) }
        ensures acted { OnOk result (Acted self.old self.new (Some serial) (Some serial)) }
        ensures slots { IfErr result (λ refused. refused.0 ≡ HeapFull.Slots → free_slots self.old ≡ 0) }
        ensures cells { IfErr result (λ refused. refused.0 ≡ HeapFull.Cells → (free_slots self.old ≢ 0) × (self.old.free_cells ≡ 0)) }
        ensures back { IfErr result (λ refused. refused.1 ≡ text) }
        ensures unchanged { OnErr result (self.new ≡ self.old) }
    {
        self.store_vertex(seat, id, serial, Kind::Subject, rights, text)?;
        let Some(root) = self.machine.roots.targets[seat as usize] else {
            unreachable!();
        };
        self.machine.add_principal(root);
        Ok(())
    }

    /// Makes the vertex of this serial a principal no longer; its vertex and its edges stay.
    pub fn retire(&mut self, serial: u64)
        ensures retired { Retired self.old self.new serial }
        ensures acted { Acted self.old self.new None None }
    {
        self.machine.retire(serial);
    }

    /// Makes the vertex in a slot the seat's agent, in place of the one before, and its pending target.
    pub fn assume(&mut self, seat: u64, id: u32)
        requires seat { seat < SEATS }
        requires idle { pending_of self.old seat ≡ None }
        requires held { IsSome (place self.old id) }
        ensures assumed { Assumed self.old self.new seat (serial_at self.old id) }
        ensures acted { Acted self.old self.new None (Some (serial_at self.old id)) }
    {
        let root = self.root_at(id);
        self.machine.assume(seat as usize, root);
    }

    /// Takes the seat's agent away, if it has one.
    pub fn leave(&mut self, seat: u64)
        requires { seat < SEATS }
        ensures left { AgentLeft self.old self.new seat }
        ensures acted { Acted self.old self.new None None }
    {
        self.machine.leave(seat as usize);
    }

    /// Takes rights from the label of an edge, which has them; an edge left with none gives its cell back.
    pub fn remove_rights(&mut self, id: u32, serial: u64, rights: Rights)
        requires source { IsSome (place self.old id) }
        requires edge { IsEdgeIn self.old (serial_at self.old id) serial }
        requires has { includes (label (held self.old 0) (serial_at self.old id) serial) rights ≡ true }
        ensures removed { RightsRemoved self.old self.new (serial_at self.old id) serial rights }
        ensures acted { Acted self.old self.new None None }
    {
        self.machine.heap.soundness();
        self.machine.remove_rights(id, serial, rights);
        self.machine.heap.soundness();
    }

    /// Replaces the text of the vertex in a slot, and returns the old one.
    pub fn set_text(&mut self, id: u32, text: Text) -> Text
        requires { IsSome (place self.old id) }
        ensures replaced { TextReplaced self.old self.new (serial_at self.old id) text result }
        ensures acted { Acted self.old self.new None None }
    {
        self.machine.set_text(id, text)
    }

    /// Shades the seat's pending target, if it has one, and clears it; returns it.
    pub fn shade(&mut self, seat: u64) -> Option<u64>
        requires { seat < SEATS }
        ensures shaded { Shaded self.old self.new seat result }
        ensures acted { Acted self.old self.new None None }
    {
        self.machine.shade(seat as usize)
    }

    /// One step of the collector: one line of its table.
    #[inline(always)]
    pub fn collect(&mut self) -> Note
        ensures collected { Collected self.old self.new result.freed result.ended }
        ensures phase { result.phase ≡ phase self.new }
    {
        self.machine.heap.soundness();
        let note = self.machine.collect();
        self.machine.heap.soundness();
        note
    }

    /// The collector steps up to and including the first that ends a cycle: how many slots they freed, and how many
    /// there were.
    pub fn cycle(&mut self) -> Swept
        ensures { Cycled self.old self.new result.freed result.steps }
    {
        self.machine.cycle()
    }
}

#[cfg(test)]
impl Store {
    /// Whether a slot has the serial, held or parked.
    pub(crate) fn has(&self, serial: u64) -> bool
        ensures { OnFalse result ((IsHeldIn self.now serial → ⊥) × (IsParkedIn self.now serial → ⊥)) }
    {
        crate::tests::has(&self.machine, serial)
    }

    /// How many principals there are.
    pub(crate) fn principal_count(&self) -> usize
        ensures { result ≡ length (principals self.now) }
    {
        crate::tests::count(&self.machine)
    }

    /// Whether these are the serials of the principals, in this order.
    pub(crate) fn has_principals(&self, serials: &[u64]) -> bool {
        crate::tests::are_principals(&self.machine, serials)
    }
}
