//! The session steps of the machine.
ghost use Rattle.std.specs.Prelude.{◌≡◌, ◌≢◌, ◌<◌, length, false, true, None, Some};
ghost use Rattle.tg_rights.specs.declared.limits.TheConstants.{MAX_PRINCIPALS};
ghost use Rattle.tg_rights.specs.Promise.Letters.{includes, is_none};
ghost use Rattle.tg_slots.specs.Promise.Table.{Free, slot};
ghost use Rattle.tg_slots.specs.declared.slots.Occupant.{Occupant};
ghost use Rattle.tg_cells.specs.Promise.Lists.{HasNone, Found};
ghost use Rattle.tg_heap.specs.Promise.Graph.{edges, mark_at};
ghost use Rattle.tg_collect.specs.Promise.Stored.{assuming, with_agent, with_principal, without_principal};
ghost use Rattle.tg_collect.specs.Inner.Machine.{Whole, Adds, LinksTo, Removes, Puts, SetsText, ShadesSeat, Rerooted, lists_of, progress_without, has_passed, colour_ahead};

use crate::machine::{Machine, Progress, Root, Scan};
use crate::packed_progress::PackedProgress;
use tg_heap::{Dropped, HeapFull};
use tg_rights::{Kind, Rights, Text};
use tg_slots::Colour;

impl Machine {
    /// Shades the seat's pending target and clears it.
    pub fn shade(&mut self, seat: usize) -> Option<u64>
        requires seat { seat < length self.old.roots.targets.items }
        requires whole { Whole self.old }
        ensures step { ShadesSeat self.old seat result self.new }
    {
        match self.roots.targets[seat] {
            None => None,
            Some(target) => {
                self.heap.shade(target.slot);
                self.roots.targets[seat] = None;
                Some(target.serial)
            }
        }
    }

    /// Joins rights to the label of the edge to a held slot, and makes that the seat's pending target.
    pub fn add_edge(
        &mut self,
        seat: usize,
        id: u32,
        target: Root,
        rights: Rights,
    ) -> Result<(), HeapFull>
        requires seat { seat < length self.old.roots.targets.items }
        requires owner { mark_at self.old.heap id ≢ Free }
        requires target { mark_at self.old.heap target.slot ≢ Free }
        requires some { is_none rights ≡ false }
        ensures step { Adds self.old seat id target rights result self.new }
    {
        match self.heap.add_rights(id, target.slot, rights) {
            Ok(()) => {
                self.roots.targets[seat] = Some(target);
                Ok(())
            }
            Err(full) => Err(full),
        }
    }

    /// Adds an edge to a held slot to which the owner has none, if a cell is free, and makes it the seat's pending
    /// target.
    pub fn link_edge(&mut self, seat: usize, id: u32, target: Root, rights: Rights)
        requires seat { seat < length self.old.roots.targets.items }
        requires owner { mark_at self.old.heap id ≢ Free }
        requires target { mark_at self.old.heap target.slot ≢ Free }
        requires some { is_none rights ≡ false }
        requires none { (o : Occupant) → slot self.old.heap.table target.slot ≡ Some o → HasNone (edges self.old.heap id) o.serial }
        requires room { self.old.heap.free_cells ≢ 0 }
        ensures step { LinksTo self.old seat id target rights self.new }
    {
        self.heap.add_edge(id, target.slot, rights);
        self.roots.targets[seat] = Some(target);
    }

    /// Takes rights from the label of an edge of a held slot; a cursor at a freed cell moves to the next cell.
    pub fn remove_rights(&mut self, id: u32, serial: u64, rights: Rights)
        requires found { (f : Found (edges self.old.heap id) serial) × (includes f.edge.rights rights ≡ true) }
        ensures step { Removes self.old id serial rights self.new }
    {
        match self.heap.drop_rights(id, serial, rights) {
            Dropped::Kept => {}
            Dropped::Gone { cell, next } => {
                self.progress = PackedProgress::of(self.progress.get().without(id, cell, next));
            }
        }
    }

    /// Puts a vertex without edges into the first free slot; returns the text if there is none.
    pub fn place_vertex(&mut self, serial: u64, kind: Kind, text: Text) -> Result<u32, Text>
        ensures step { Puts self.old serial kind text result self.new }
    {
        self.heap.soundness();
        let progress = self.progress.get();
        let colour = progress.colour_ahead();
        match self.heap.add_vertex(serial, kind, colour, text) {
            Err(refused) => Err(refused.1),
            Ok(id) => {
                if progress.has_passed(id) {
                    self.heap.whiten(id);
                }
                Ok(id)
            }
        }
    }

    /// Makes a root a principal, of whom there are fewer than 64.
    pub fn add_principal(&mut self, root: Root)
        requires few { length self.old.roots.principals < MAX_PRINCIPALS }
        ensures step { Rerooted self.old (with_principal (lists_of self.old.roots) root) self.new }
    {
        self.roots.principals.push(root);
    }

    /// Makes the vertex of this serial a principal no longer.
    pub fn retire(&mut self, serial: u64)
        ensures step { Rerooted self.old (without_principal (lists_of self.old.roots) serial) self.new }
    {
        self.roots.principals.remove(serial);
    }

    /// Makes a root the seat's pending target and its agent.
    pub fn assume(&mut self, seat: usize, root: Root)
        requires target { seat < length self.old.roots.targets.items }
        requires agent { seat < length self.old.roots.agents.items }
        ensures step { Rerooted self.old (assuming (lists_of self.old.roots) seat root) self.new }
    {
        self.roots.targets[seat] = Some(root);
        self.roots.agents[seat] = Some(root);
    }

    /// Takes the seat's agent away, if it has one.
    pub fn leave(&mut self, seat: usize)
        requires seat { seat < length self.old.roots.agents.items }
        ensures step { Rerooted self.old (with_agent (lists_of self.old.roots) seat None) self.new }
    {
        self.roots.agents[seat] = None;
    }

    /// Replaces the text of a held slot, and returns the old one.
    pub fn set_text(&mut self, id: u32, text: Text) -> Text
        requires held { mark_at self.old.heap id ≢ Free }
        ensures step { SetsText self.old id text result self.new }
    {
        self.heap.set_text(id, text)
    }
}

impl Progress {
    /// Whether the sweep has passed the slot.
    fn has_passed(self, id: u32) -> bool
        ensures { result ≡ has_passed self id }
    {
        match self {
            Progress::Sweeping(at) => id < at,
            _ => false,
        }
    }

    /// The colour of a vertex that comes into a slot that the sweep has not passed.
    fn colour_ahead(self) -> Colour
        ensures { result ≡ colour_ahead self }
    {
        match self {
            Progress::Sweeping(_) => Colour::Black,
            _ => Colour::White,
        }
    }

    /// The progress after a cell was freed that `next` followed.
    fn without(self, id: u32, cell: u32, next: Option<u32>) -> Progress
        ensures { result ≡ progress_without self id cell next }
    {
        match self {
            Progress::Marking(Some(scan)) if scan.slot == id && scan.cursor == Some(cell) => {
                Progress::Marking(Some(Scan {
                    slot: scan.slot,
                    cursor: next,
                }))
            }
            other => other,
        }
    }
}
