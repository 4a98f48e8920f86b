//! The table of slots, with the two lists through its link fields.
ghost use Rattle.std.specs.Prelude.{◌≡◌, ◌≢◌, ◌<◌, ◌≤◌, [], ◌∷◌, length, MatchResult, MatchOption, IsTrue, ◌↔◌, set, ◌⊎◌, IfSome, IfOk, None, Some, get_or};
ghost use Rattle.tg_lists.specs.Promise.Membership.{Contains};
ghost use Rattle.tg_rights.specs.declared.limits.TheConstants.{MAX_SLOTS};
ghost use Rattle.tg_slots.specs.Promise.Table.{Table, Free, Has, slot, mark, coloured, recoloured, with_slot_text, in_slot, IsSound, fresh};
ghost use Rattle.tg_slots.specs.Inner.Inside.{IsInside, links, table};

use crate::Colour;
use crate::shelf::Shelf;
use std::alloc::{AllocError, Global};
use std::marker::Model;
use tg_rights::{Kind, Text};

/// A vertex in its slot.
#[derive(Drop)]
pub struct Occupant {
    pub serial: u64,
    pub kind: Kind,
    pub colour: Colour,
    pub text: Text,
}

/// Slots by index, the list of free ones and the list of waiting grey ones.
#[derive(Drop)]
pub struct Slots {
    // The slots that were used so far, with room for all: a slot that was never used is not written. It is free, behind
    // the free ones of those that were used.
    entries: Shelf,
    // The first free one of the slots that were used so far, and the first waiting grey one.
    free: u32,
    grey: u32,
    free_count: u32,
    // The number of all slots, which is no slot's index and ends both lists.
    size: u32,
}

impl Model for Slots {
    ghost Value = { Table };

    ghost view = { table };

    ghost invariant = { IsInside };
}

/// Where a slot leads; one that was never used leads nowhere, which is written as `size`.
fn next_of(entries: &Shelf, id: u32, size: u32) -> u32
    ensures { result ≡ get_or (links entries.now.items) id size }
{
    match entries.link(id) {
        Some(next) => next,
        None => size,
    }
}

impl Slots {
    /// That many slots, 1 to 65,536, all free, in the order of their indices. The only error is that an allocation
    /// failed.
    pub fn new(alloc: Global, count: u32) -> Result<Slots, AllocError>
        requires low { 1 ≤ count }
        requires high { count ≤ MAX_SLOTS }
        ensures { IfOk result (λ t. t ≡ fresh count) }
    {
        let entries = Shelf::new(alloc, count)?;
        Ok(Slots {
            entries,
            free: count,
            grey: count,
            free_count: count,
            size: count,
        })
    }

    /// No-op; its postcondition exposes the invariant.
    pub fn soundness(&self)
        ensures sound { IsSound self.now }
        ensures size { length self.now.slots ≤ MAX_SLOTS }
    {
        let _ = &self.entries;
    }

    /// How many slots there are, free ones among them.
    pub fn len(&self) -> u32
        ensures { result ≡ length self.now.slots }
    {
        self.size
    }

    /// How many slots are free.
    pub fn free(&self) -> u32
        ensures { result ≡ length self.now.free }
    {
        self.free_count
    }

    /// Whether the slot has no vertex.
    pub fn is_free(&self, id: u32) -> bool
        requires { id < length self.now.slots }
        ensures { IsTrue result ↔ (mark self.now id ≡ Free) }
    {
        self.colour(id).is_none()
    }

    /// The serial of the vertex; none if the slot is free.
    pub fn serial(&self, id: u32) -> Option<u64>
        requires { id < length self.now.slots }
        ensures { result ≡ in_slot (λ o. o.serial) (slot self.now id) }
    {
        self.entries.serial(id)
    }

    /// The kind of the vertex; none if the slot is free.
    pub fn kind(&self, id: u32) -> Option<Kind>
        requires { id < length self.now.slots }
        ensures { result ≡ in_slot (λ o. o.kind) (slot self.now id) }
    {
        self.entries.kind(id)
    }

    /// The colour of the vertex; none if the slot is free.
    pub fn colour(&self, id: u32) -> Option<Colour>
        requires { id < length self.now.slots }
        ensures { MatchOption result (mark self.now id ≡ Free) (λ c. mark self.now id ≡ Has c) }
    {
        self.entries.colour(id)
    }

    /// The text of the vertex; none if the slot is free.
    pub fn text(&self, id: u32) -> Option<&Text>
        requires { id < length self.now.slots }
        ensures { MatchOption result (mark self.now id ≡ Free) (λ t. in_slot (λ o. o.text) (slot self.now id) ≡ Some t.now) }
    {
        self.entries.text(id)
    }

    /// Takes the first free slot for a vertex, white or black, and returns its index. If no slot is free, everything is
    /// as before and the text is returned.
    pub fn take_free(
        &mut self,
        serial: u64,
        kind: Kind,
        colour: Colour,
        text: Text,
    ) -> Result<u32, Text>
        requires { (colour ≡ Colour.White) ⊎ (colour ≡ Colour.Black) }
        ensures { MatchResult result
            (λ id. (self.old.free ≡ id ∷ self.new.free) × (self.new.grey ≡ self.old.grey)
            × (self.new.slots ≡ set self.old.slots id (Some (record { serial = serial; kind = kind; colour = colour; text = text }))))
            (λ back. (back ≡ text) × (self.old.free ≡ []) × (self.new ≡ self.old)) }
    {
        // The first free one of the slots used so far or, if there is none, the next one after them.
        let id = self.free.min(self.entries.len() as u32);
        if id >= self.size {
            return Err(text);
        }
        self.free = next_of(&self.entries, id, self.size);
        self.free_count -= 1;
        let vertex = Occupant {
            serial,
            kind,
            colour,
            text,
        };
        self.entries.fill(id, vertex);
        Ok(id)
    }

    /// Frees the slot of a white vertex, in front of the free list; the vertex's text is dropped.
    pub fn give_back(&mut self, id: u32)
        requires { mark self.old id ≡ Has Colour.White }
        ensures { self.new ≡ record self.old { slots = set self.old.slots id None; free = id ∷ self.old.free } }
    {
        self.free_count += 1;
        self.entries.free(id, self.free);
        self.free = id;
    }

    /// Makes a white vertex grey, and puts it in front of the grey list.
    pub fn push_grey(&mut self, id: u32)
        requires { mark self.old id ≡ Has Colour.White }
        ensures { self.new ≡ record self.old { slots = recoloured self.old id Colour.Grey; grey = id ∷ self.old.grey } }
    {
        self.entries.paint_and_lead(id, Colour::Grey, self.grey);
        self.grey = id;
    }

    /// Takes the first index out of the grey list; its vertex stays grey. None, and everything as before, if the list
    /// is empty.
    pub fn pop_grey(&mut self) -> Option<u32>
        ensures { MatchOption result ((self.old.grey ≡ []) × (self.new ≡ self.old)) (λ id. self.old ≡ record self.new { grey = id ∷ self.new.grey }) }
    {
        let id = self.grey;
        self.grey = self.entries.link(id)?;
        Some(id)
    }

    /// Makes a grey vertex that no longer waits in the grey list black.
    pub fn blacken(&mut self, id: u32)
        requires grey { mark self.old id ≡ Has Colour.Grey }
        requires taken { Contains self.old.grey id → ⊥ }
        ensures { self.new ≡ record self.old { slots = recoloured self.old id Colour.Black } }
    {
        self.entries.paint(id, Colour::Black);
    }

    /// Makes a black vertex white.
    pub fn whiten(&mut self, id: u32)
        requires { mark self.old id ≡ Has Colour.Black }
        ensures { self.new ≡ record self.old { slots = recoloured self.old id Colour.White } }
    {
        self.entries.paint(id, Colour::White);
    }

    /// Replaces the text of a vertex, and returns the old one.
    pub fn set_text(&mut self, id: u32, text: Text) -> Text
        requires { mark self.old id ≢ Free }
        ensures slots { self.new ≡ record self.old { slots = set self.old.slots id (with_slot_text text (slot self.old id)) } }
        ensures old { IfSome (slot self.old id) (λ o. result ≡ o.text) }
    {
        self.entries.set_text(id, text)
    }
}
