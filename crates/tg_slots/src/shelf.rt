//! The slots that were used so far, as they lie in memory.
ghost use Rattle.std.specs.Prelude.{◌≡◌, ◌≢◌, ◌<◌, ◌≤◌, [], IfOk, MatchOption, None, Some, length, set, true};
ghost use Rattle.std.specs.List.{All};
ghost use Rattle.std.specs.Option.{option_map};
ghost use Rattle.tg_lists.specs.Promise.Columns.{HasRight};
ghost use Rattle.tg_slots.specs.Promise.Table.{in_slot, with_slot_text, coloured};
ghost use Rattle.tg_slots.specs.Inner.Linked.{Shelved, at, occupant_at, written};
ghost use Rattle.tg_slots.specs.Inner.Shelf.{IsMatched, colour_of, is_filled, form_kind, form_serial, shelved, telling, form_text, tint_of};

use crate::{Colour, Occupant};
use std::alloc::{AllocError, Global};
use std::marker::Model;
use tg_lists::Columns;
use tg_rights::{Kind, Text};

// Whether a slot is free, or the colour of its vertex.
#[derive(Clone, Copy, Drop)]
enum Tint {
    Free,
    White,
    Grey,
    Black,
}

// The tint, and the next slot of the slot's list.
#[derive(Clone, Copy, Drop)]
struct Lead {
    tint: Tint,
    link: u32,
}

// What else a slot holds. The tag and the kind fit into one word.
#[derive(Drop)]
enum Form {
    Free,
    Taken { kind: Kind, serial: u64, text: Text },
}

/// Slots from index 0 on, with room for more: each has a vertex or is free, and leads to the next one of its list.
///
/// A step of the collector looks at colours and links, and at nothing else here, so these lie in a column of their own,
/// eight bytes for each slot.
#[derive(Drop)]
pub(crate) struct Shelf {
    slots: Columns<Lead, Form>,
}

impl Model for Shelf {
    ghost Value = { Shelved };

    ghost view = { shelved };

    ghost invariant = { λ s. All IsMatched s.slots.items };
}

impl Tint {
    fn of(colour: Colour) -> Tint
        ensures { result ≡ tint_of colour }
    {
        match colour {
            Colour::White => Tint::White,
            Colour::Grey => Tint::Grey,
            Colour::Black => Tint::Black,
        }
    }

    fn colour(self) -> Option<Colour>
        ensures { result ≡ colour_of self }
    {
        match self {
            Tint::Free => None,
            Tint::White => Some(Colour::White),
            Tint::Grey => Some(Colour::Grey),
            Tint::Black => Some(Colour::Black),
        }
    }
}

impl Form {
    fn serial(&self) -> Option<u64>
        ensures { result ≡ form_serial self.now }
    {
        match self {
            Form::Free => None,
            Form::Taken { serial, .. } => Some(*serial),
        }
    }

    fn kind(&self) -> Option<Kind>
        ensures { result ≡ form_kind self.now }
    {
        match self {
            Form::Free => None,
            Form::Taken { kind, .. } => Some(*kind),
        }
    }

    fn text(&self) -> Option<&Text>
        ensures { option_map (λ t. t.now) result ≡ form_text self.now }
    {
        match self {
            Form::Free => None,
            Form::Taken { text, .. } => Some(text),
        }
    }

    fn set_text(&mut self, new: Text) -> Text
        requires { is_filled self.old ≡ true }
        ensures form { self.new ≡ telling self.old new }
        ensures old { form_text self.old ≡ Some result }
    {
        match self {
            Form::Free => unreachable!(),
            Form::Taken { text, .. } => std::mem::replace(text, new),
        }
    }
}

fn form_at(slots: &Columns<Lead, Form>, id: u32) -> Option<&Form>
    ensures { MatchOption result (length slots.now.items ≤ id) (λ f. HasRight slots.now.items id f.now) }
{
    if (id as usize) < slots.len() {
        Some(slots.right(id as usize))
    } else {
        None
    }
}

impl Shelf {
    /// No slots, with room for that many. The only error is that an allocation failed.
    pub fn new(alloc: Global, count: u32) -> Result<Shelf, AllocError>
        ensures none { IfOk result (λ s. s.items ≡ []) }
        ensures room { IfOk result (λ s. count ≤ s.room) }
    {
        Ok(Shelf {
            slots: Columns::new(alloc, count as usize)?,
        })
    }

    /// How many slots there are.
    pub fn len(&self) -> usize
        ensures { result ≡ length self.now.items }
    {
        self.slots.len()
    }

    /// The colour of the vertex; none if there is no vertex.
    pub fn colour(&self, id: u32) -> Option<Colour>
        ensures { result ≡ in_slot (λ o. o.colour) (occupant_at self.now.items id) }
    {
        if (id as usize) < self.slots.len() {
            self.slots.left(id as usize).tint.colour()
        } else {
            None
        }
    }

    /// The serial of the vertex; none if there is no vertex.
    pub fn serial(&self, id: u32) -> Option<u64>
        ensures { result ≡ in_slot (λ o. o.serial) (occupant_at self.now.items id) }
    {
        match form_at(&self.slots, id) {
            Some(form) => form.serial(),
            None => None,
        }
    }

    /// The kind of the vertex; none if there is no vertex.
    pub fn kind(&self, id: u32) -> Option<Kind>
        ensures { result ≡ in_slot (λ o. o.kind) (occupant_at self.now.items id) }
    {
        match form_at(&self.slots, id) {
            Some(form) => form.kind(),
            None => None,
        }
    }

    /// The text of the vertex; none if there is no vertex.
    pub fn text(&self, id: u32) -> Option<&Text>
        ensures { option_map (λ t. t.now) result ≡ in_slot (λ o. o.text) (occupant_at self.now.items id) }
    {
        match form_at(&self.slots, id) {
            Some(form) => form.text(),
            None => None,
        }
    }

    /// The next slot of the slot's list; none if there is no such slot.
    pub fn link(&self, id: u32) -> Option<u32>
        ensures { MatchOption result (length self.now.items ≤ id) (λ next. (id < length self.now.items) × (next ≡ (at self.now.items id).link)) }
    {
        if (id as usize) < self.slots.len() {
            Some(self.slots.left(id as usize).link)
        } else {
            None
        }
    }

    /// Makes a slot free; it then leads to the next one.
    pub fn free(&mut self, id: u32, link: u32)
        requires { id < length self.old.items }
        ensures { self.new ≡ record self.old { items = set self.old.items id (record { occupant = None; link = link }) } }
    {
        let tint = Tint::Free;
        self.slots.set(id as usize, Lead { tint, link }, Form::Free);
    }

    /// Puts a vertex into a slot, or into the next one, for which there is room. The slot is then in no list, so it
    /// does not matter where it leads.
    pub fn fill(&mut self, id: u32, occupant: Occupant)
        requires used { id ≤ length self.old.items }
        requires within { id < self.old.room }
        ensures items { self.new.items ≡ written self.old.items id (record { occupant = Some occupant; link = 0 }) }
        ensures room { self.old.room ≤ self.new.room }
    {
        let tint = Tint::of(occupant.colour);
        let lead = Lead { tint, link: 0 };
        let form = Form::Taken {
            kind: occupant.kind,
            serial: occupant.serial,
            text: occupant.text,
        };
        if (id as usize) < self.slots.len() {
            self.slots.set(id as usize, lead, form);
        } else {
            self.slots.push(lead, form);
        }
    }

    /// Gives the vertex in a slot a colour.
    pub fn paint(&mut self, id: u32, colour: Colour)
        requires { occupant_at self.old.items id ≢ None }
        ensures { self.new ≡ record self.old { items = set self.old.items id (record { occupant = coloured colour (occupant_at self.old.items id); link = (at self.old.items id).link }) } }
    {
        let tint = Tint::of(colour);
        let link = self.slots.left(id as usize).link;
        self.slots.set_left(id as usize, Lead { tint, link });
    }

    /// Gives the vertex in a slot a colour, and lets the slot lead to another one.
    pub fn paint_and_lead(&mut self, id: u32, colour: Colour, next: u32)
        requires { occupant_at self.old.items id ≢ None }
        ensures { self.new ≡ record self.old { items = set self.old.items id (record { occupant = coloured colour (occupant_at self.old.items id); link = next }) } }
    {
        let tint = Tint::of(colour);
        self.slots.set_left(id as usize, Lead { tint, link: next });
    }

    /// Replaces the text of the vertex in a slot, and returns the old one.
    pub fn set_text(&mut self, id: u32, new: Text) -> Text
        requires { occupant_at self.old.items id ≢ None }
        ensures slot { self.new ≡ record self.old { items = set self.old.items id (record { occupant = with_slot_text new (occupant_at self.old.items id); link = (at self.old.items id).link }) } }
        ensures old { in_slot (λ o. o.text) (occupant_at self.old.items id) ≡ Some result }
    {
        self.slots.right_mut(id as usize).set_text(new)
    }
}
