//! The heap: a table of slots and cells that belong to them.
ghost use Rattle.std.specs.Prelude.{◌≡◌, ◌≢◌, ℕ, ◌<◌, ◌≤◌, ◌+◌, List, [], ◌∷◌, length, MatchResult, MatchOption, MatchBool, IfOk, IfSome, IsTrue, ◌↔◌, set, ◌⊎◌, Option, Some, None, true, false};
ghost use Rattle.tg_lists.specs.Promise.Membership.{Contains};
ghost use Rattle.tg_rights.specs.declared.limits.TheConstants.{MAX_CELLS, MAX_SLOTS};
ghost use Rattle.tg_rights.specs.Promise.Letters.{is_none, includes};
ghost use Rattle.tg_slots.specs.Promise.Table.{Free, Has, slot, with_slot_text, in_slot, fresh};
ghost use Rattle.tg_slots.specs.declared.slots.Occupant.{Occupant};
ghost use Rattle.tg_cells.specs.declared.key.TheConstants.Key.{FIXED};
ghost use Rattle.tg_cells.specs.Promise.Lists.{Edge, first_cell, Stands, IsLinked, HasNone, Found};
ghost use Rattle.tg_heap.specs.Promise.Graph.{HeapGraph, edges, mark_at, shaded, painted, IsHeap};
ghost use Rattle.tg_heap.specs.Promise.Calls.{IsAdded, IsDropped};

use std::alloc::{AllocError, Global};
use std::marker::Model;
use tg_cells::{Cells, Key};
use tg_rights::{Kind, Rights, Text};
use tg_slots::{Colour, Slots};

/// Which of the heap's two stores a refused call found used up.
#[derive(Clone, Copy, PartialEq, Eq, Debug, Drop)]
pub enum HeapFull {
    Slots,
    Cells,
}

/// What became of an edge that lost rights: it kept some, or its cell was freed. `next` is the cell that followed the
/// freed one in its list.
#[derive(Clone, Copy, PartialEq, Eq, Debug, Drop)]
pub enum Dropped {
    Kept,
    Gone { cell: u32, next: Option<u32> },
}

/// Vertices in slots, and labelled edges between them.
#[derive(Drop)]
pub struct Heap {
    slots: Slots,
    cells: Cells,
}

impl Model for Heap {
    ghost use Rattle.tg_heap.specs.Promise.Graph.{HeapGraph};
    ghost use Rattle.tg_heap.specs.Inner.Graph.{AreJoined, heap_of};

    ghost Value = { HeapGraph };

    ghost view = { λ h. heap_of h.slots h.cells };

    ghost invariant = { λ h. AreJoined h.slots h.cells };
}

impl Heap {
    /// That many free slots, 1 to 65,536, and free cells, 1 to 1,048,576, under the key that everybody can read. The
    /// only error is that an allocation failed.
    pub fn new(alloc: Global, slots: u32, cells: u32) -> Result<Heap, AllocError>
        requires low_slots { 1 ≤ slots }
        requires high_slots { slots ≤ MAX_SLOTS }
        requires low_cells { 1 ≤ cells }
        requires high_cells { cells ≤ MAX_CELLS }
        ensures empty { IfOk result (λ h. (h.table ≡ fresh slots) × (h.free_cells ≡ cells) × (h.cell_count ≡ cells) × ((i : ℕ) → edges h i ≡ [])) }
        ensures key { IfOk result (λ h. h.key ≡ FIXED) }
    {
        Heap::with_key(alloc, Key::FIXED, slots, cells)
    }

    /// The same under a key of the caller's, by which edges are found. The only error is that an allocation failed.
    pub fn with_key(alloc: Global, key: Key, slots: u32, cells: u32) -> Result<Heap, AllocError>
        requires low_slots { 1 ≤ slots }
        requires high_slots { slots ≤ MAX_SLOTS }
        requires low_cells { 1 ≤ cells }
        requires high_cells { cells ≤ MAX_CELLS }
        ensures empty { IfOk result (λ h. (h.table ≡ fresh slots) × (h.free_cells ≡ cells) × (h.cell_count ≡ cells) × ((i : ℕ) → edges h i ≡ [])) }
        ensures key { IfOk result (λ h. h.key ≡ key) }
    {
        let table = Slots::new(alloc, slots)?;
        let cells = Cells::with_key(alloc, key, slots, cells)?;
        Ok(Heap {
            slots: table,
            cells,
        })
    }

    /// No-op; its postcondition exposes the invariant.
    pub fn soundness(&self)
        ensures sound { IsHeap self.now }
        ensures size { length self.now.table.slots ≤ MAX_SLOTS }
        ensures cells { self.now.cell_count ≤ MAX_CELLS }
    {
        self.slots.soundness();
        self.cells.soundness();
    }

    /// How many slots there are, free ones among them.
    pub fn len(&self) -> u32
        ensures { result ≡ length self.now.table.slots }
    {
        self.slots.len()
    }

    /// How many slots are free.
    pub fn free_slots(&self) -> u32
        ensures { result ≡ length self.now.table.free }
    {
        self.slots.free()
    }

    /// How many cells are free.
    pub fn free_cells(&self) -> u32
        ensures { result ≡ self.now.free_cells }
    {
        self.cells.free()
    }

    /// Whether the slot has no vertex.
    pub fn is_free(&self, id: u32) -> bool
        requires { id < length self.now.table.slots }
        ensures { IsTrue result ↔ (mark_at self.now id ≡ Free) }
    {
        self.slots.is_free(id)
    }

    /// The serial of the vertex; none if the slot is free.
    pub fn serial(&self, id: u32) -> Option<u64>
        requires { id < length self.now.table.slots }
        ensures { result ≡ in_slot (λ o. o.serial) (slot self.now.table id) }
    {
        self.slots.serial(id)
    }

    /// The kind of the vertex; none if the slot is free.
    pub fn kind(&self, id: u32) -> Option<Kind>
        requires { id < length self.now.table.slots }
        ensures { result ≡ in_slot (λ o. o.kind) (slot self.now.table id) }
    {
        self.slots.kind(id)
    }

    /// The colour of the vertex; none if the slot is free.
    pub fn colour(&self, id: u32) -> Option<Colour>
        requires { id < length self.now.table.slots }
        ensures { MatchOption result (mark_at self.now id ≡ Free) (λ c. mark_at self.now id ≡ Has c) }
    {
        self.slots.colour(id)
    }

    /// The text of the vertex; none if the slot is free.
    pub fn text(&self, id: u32) -> Option<&Text>
        requires { id < length self.now.table.slots }
        ensures { MatchOption result (mark_at self.now id ≡ Free) (λ t. in_slot (λ o. o.text) (slot self.now.table id) ≡ Some t.now) }
    {
        self.slots.text(id)
    }

    /// Replaces the text of a vertex, and returns the old one.
    pub fn set_text(&mut self, id: u32, text: Text) -> Text
        requires { mark_at self.old id ≢ Free }
        ensures slots { self.new ≡ record self.old { table = record self.old.table { slots = set self.old.table.slots id (with_slot_text text (slot self.old.table id)) } } }
        ensures old { IfSome (slot self.old.table id) (λ o. result ≡ o.text) }
    {
        self.slots.set_text(id, text)
    }

    /// Puts a vertex, white or black and without edges, into the first free slot, and returns its index. The only error
    /// is `Slots`, only if no slot is free; everything is then as before, and the text is returned.
    pub fn add_vertex(
        &mut self,
        serial: u64,
        kind: Kind,
        colour: Colour,
        text: Text,
    ) -> Result<u32, (HeapFull, Text)>
        requires { (colour ≡ Colour.White) ⊎ (colour ≡ Colour.Black) }
        ensures { MatchResult result
            (λ id. (self.old.table.free ≡ id ∷ self.new.table.free)
            × (self.new ≡ record self.old { table = record self.old.table { slots = set self.old.table.slots id (Some (record { serial = serial; kind = kind; colour = colour; text = text })); free = self.new.table.free } }))
            (λ back. (back.0 ≡ HeapFull.Slots) × (back.1 ≡ text) × (self.old.table.free ≡ []) × (self.new ≡ self.old)) }
    {
        match self.slots.take_free(serial, kind, colour, text) {
            Ok(id) => Ok(id),
            Err(text) => Err((HeapFull::Slots, text)),
        }
    }

    /// Joins rights that are not empty to the label of the edge from one vertex to another, and makes the edge if there
    /// is none. The only error is `Cells`, only if the edge is new and no cell is free; everything is then as before.
    pub fn add_rights(&mut self, id: u32, target: u32, rights: Rights) -> Result<(), HeapFull>
        requires owner { mark_at self.old id ≢ Free }
        requires target { mark_at self.old target ≢ Free }
        requires some { is_none rights ≡ false }
        ensures { MatchResult result
            (λ _. (o : Occupant) × (slot self.old.table target ≡ Some o) × IsAdded self.old self.new id target o.serial rights)
            (λ e. (e ≡ HeapFull.Cells) × (o : Occupant) × (slot self.old.table target ≡ Some o) × (HasNone (edges self.old id) o.serial) × (self.old.free_cells ≡ 0) × (self.new ≡ self.old)) }
    {
        let serial = self.slots.serial(target).unwrap();
        match self.cells.find(id, serial) {
            Some(cell) => {
                let label = self.cells.label(cell);
                self.cells.set_rights(cell, label.union(rights));
                Ok(())
            }
            None => {
                if self.cells.link(id, target, serial, rights) {
                    Ok(())
                } else {
                    Err(HeapFull::Cells)
                }
            }
        }
    }

    /// Puts an edge to a vertex in front of a slot's edges, none of which leads to it, if a cell is free. Unlike
    /// `add_rights` it looks for no edge, so it takes as long whatever the number of edges.
    pub fn add_edge(&mut self, id: u32, target: u32, rights: Rights)
        requires owner { mark_at self.old id ≢ Free }
        requires target { mark_at self.old target ≢ Free }
        requires some { is_none rights ≡ false }
        requires none { (o : Occupant) → slot self.old.table target ≡ Some o → HasNone (edges self.old id) o.serial }
        requires room { self.old.free_cells ≢ 0 }
        ensures { (o : Occupant) × (slot self.old.table target ≡ Some o) × IsAdded self.old self.new id target o.serial rights }
    {
        let serial = self.slots.serial(target).unwrap();
        if !self.cells.link(id, target, serial, rights) {
            unreachable!();
        }
    }

    /// Takes rights that it has from the label of the edge to a serial; an edge left with none is gone, and its cell is
    /// free.
    pub fn drop_rights(&mut self, id: u32, serial: u64, rights: Rights) -> Dropped
        requires { (f : Found (edges self.old id) serial) × (includes f.edge.rights rights ≡ true) }
        ensures { IsDropped self.old self.new id serial rights result }
    {
        let cell = self.cells.find(id, serial).unwrap();
        let left = self.cells.label(cell).minus(rights);
        if left.is_empty() {
            let next = self.cells.next(cell);
            self.cells.unlink(id, cell);
            Dropped::Gone { cell, next }
        } else {
            self.cells.set_rights(cell, left);
            Dropped::Kept
        }
    }

    /// The slot that the edge to a serial leads to, and its label; none if there is no such edge.
    pub fn edge(&self, id: u32, serial: u64) -> Option<(u32, Rights)>
        requires { id < length self.now.table.slots }
        ensures { MatchOption result (HasNone (edges self.now id) serial) (λ t. (f : Found (edges self.now id) serial) × (t.0 ≡ f.edge.target) × (t.1 ≡ f.edge.rights)) }
    {
        match self.cells.find(id, serial) {
            None => None,
            Some(cell) => Some((self.cells.target(cell), self.cells.label(cell))),
        }
    }

    /// The first cell of the slot's list; none if it is empty.
    pub fn first(&self, id: u32) -> Option<u32>
        requires { id < length self.now.table.slots }
        ensures { result ≡ first_cell (edges self.now id) }
    {
        self.cells.first(id)
    }

    /// The cell that follows in its list; none after the last.
    pub fn next(&self, cell: u32) -> Option<u32>
        requires { IsLinked self.now.lists cell }
        ensures { (i : ℕ) (p : List Edge) (e : Edge) (r : List Edge) → Stands self.now.lists cell i p e r → result ≡ first_cell r }
    {
        self.cells.next(cell)
    }

    /// The slot that the cell's edge leads to.
    pub fn target(&self, cell: u32) -> u32
        requires { IsLinked self.now.lists cell }
        ensures { (i : ℕ) (p : List Edge) (e : Edge) (r : List Edge) → Stands self.now.lists cell i p e r → result ≡ e.target }
    {
        self.cells.target(cell)
    }

    /// The serial of the vertex that the cell's edge leads to.
    pub fn target_serial(&self, cell: u32) -> u64
        requires { IsLinked self.now.lists cell }
        ensures { (i : ℕ) (p : List Edge) (e : Edge) (r : List Edge) → Stands self.now.lists cell i p e r → result ≡ e.serial }
    {
        self.cells.serial(cell)
    }

    /// The rights on the cell's edge, its label.
    pub fn label(&self, cell: u32) -> Rights
        requires { IsLinked self.now.lists cell }
        ensures { (i : ℕ) (p : List Edge) (e : Edge) (r : List Edge) → Stands self.now.lists cell i p e r → result ≡ e.rights }
    {
        self.cells.label(cell)
    }

    /// Makes a white vertex grey, and puts it in front of the grey list; any other slot stays as it is.
    pub fn shade(&mut self, id: u32)
        requires { id < length self.old.table.slots }
        ensures { self.new ≡ record self.old { table = shaded self.old.table id } }
    {
        if let Some(Colour::White) = self.slots.colour(id) {
            self.slots.push_grey(id);
        }
    }

    /// Takes the first index out of the grey list; its vertex stays grey. None, and everything as before, if the list
    /// is empty.
    pub fn pop_grey(&mut self) -> Option<u32>
        ensures { MatchOption result ((self.old.table.grey ≡ []) × (self.new ≡ self.old))
            (λ id. (self.old.table.grey ≡ id ∷ self.new.table.grey) × (self.new ≡ record self.old { table = record self.old.table { grey = self.new.table.grey } })) }
    {
        self.slots.pop_grey()
    }

    /// Makes a grey vertex that no longer waits in the grey list black.
    pub fn blacken(&mut self, id: u32)
        requires grey { mark_at self.old id ≡ Has Colour.Grey }
        requires taken { Contains self.old.table.grey id → ⊥ }
        ensures { self.new ≡ record self.old { table = painted self.old.table id Colour.Black } }
    {
        self.slots.blacken(id);
    }

    /// Makes a black vertex white.
    pub fn whiten(&mut self, id: u32)
        requires { mark_at self.old id ≡ Has Colour.Black }
        ensures { self.new ≡ record self.old { table = painted self.old.table id Colour.White } }
    {
        self.slots.whiten(id);
    }

    /// Frees the first cell of a white slot, and so one edge of its vertex; false, and everything as before, if it has
    /// none.
    pub fn strip_one_cell(&mut self, id: u32) -> bool
        requires { mark_at self.old id ≡ Has Colour.White }
        ensures { MatchBool result
            ((e : Edge) × (r : List Edge) × (edges self.old id ≡ e ∷ r)
            × (self.new ≡ record self.old { lists = set self.old.lists id r; free_cells = self.old.free_cells + 1 }))
            ((edges self.old id ≡ []) × (self.new ≡ self.old)) }
    {
        match self.cells.first(id) {
            None => false,
            Some(cell) => {
                self.cells.unlink(id, cell);
                true
            }
        }
    }

    /// Frees a white slot without cells, in front of the free list; the vertex's text is dropped.
    pub fn free_slot(&mut self, id: u32)
        requires white { mark_at self.old id ≡ Has Colour.White }
        requires bare { edges self.old id ≡ [] }
        ensures { self.new ≡ record self.old { table = record self.old.table { slots = set self.old.table.slots id None; free = id ∷ self.old.table.free } } }
    {
        self.slots.give_back(id);
    }
}
