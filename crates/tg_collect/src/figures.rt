//! What the slots show, in lists.
ghost use Rattle.std.specs.Prelude.{◌≡◌, ◌<◌, ◌++◌, length, IfOk, OnOk};
ghost use Rattle.std.specs.Option.{option_to_list};
ghost use Rattle.tg_graph.specs.Promise.Parts.{Before};
ghost use Rattle.tg_heap.specs.Promise.Graph.{HeapGraph};
ghost use Rattle.tg_marking.specs.Promise.Values.{keeps, shown};
ghost use Rattle.tg_collect.specs.Promise.Figures.{Shows, figure};
ghost use Rattle.tg_collect.specs.Inner.Figures.{arrows, arrows_from, source_at};
ghost use Rattle.tg_collect.specs.Inner.Machine.{progress_in};
ghost use Rattle.tg_collect.specs.Inner.Parts.{AreFound};
ghost use Rattle.tg_collect.specs.Inner.Stored.{stored};
ghost use Rattle.tg_collect.specs.Promise.Views.{IsStore};

use crate::machine::{Machine, Progress};
use crate::store::Store;
use std::alloc::{AllocError, Global};
use tg_rights::{Kind, Rights};
use tg_slots::Colour;

/// A vertex as its slot shows it: not its text, but its colour, and whether it is held or waits to be swept.
#[derive(Clone, Copy, PartialEq, Eq, Debug, Drop)]
pub struct Figure {
    pub serial: u64,
    pub kind: Kind,
    pub colour: Colour,
    pub is_held: bool,
}

impl Store {
    /// What the slots show: each vertex that has a slot, those that wait to be swept among them, by rising serial, and
    /// the edges between these by rising pairs of ends. An edge whose end has lost its slot is left out. The only error
    /// is that an allocation failed.
    pub fn figures(
        &self,
        alloc: Global,
    ) -> Result<(Vec<Figure>, Vec<(u64, Rights, u64)>), AllocError>
        ensures { IfOk result (λ p. Shows self.now p.0.items p.1.items) }
    {
        self.soundness();
        let vertices = self.machine.figures(alloc)?;
        let edges = self.machine.arrows(alloc, true)?;
        Ok((vertices, edges))
    }
}

impl Machine {
    /// What the slots show, by rising serial.
    fn figures(&self, alloc: Global) -> Result<Vec<Figure>, AllocError>
        requires { IsStore (stored self.now) }
        ensures { IfOk result (λ found. AreFound (λ i. option_to_list (figure (stored self.now) i)) (λ a b. a.serial < b.serial) found.items) }
    {
        let mut found = Vec::new(alloc);
        for id in 0..self.heap.len() {
            let shown = self.figure_at(id);
            add_found(&mut found, shown)?;
        }
        found.sort_unstable_by_key(|figure| figure.serial);
        Ok(found)
    }

    /// What a slot shows; none if it is free.
    pub(crate) fn figure_at(&self, id: u32) -> Option<Figure>
        requires { id < length self.now.heap.table.slots }
        ensures { result ≡ figure (stored self.now) id }
    {
        match self.heap.colour(id) {
            None => None,
            Some(colour) => Some(Figure {
                serial: self.heap.serial(id).unwrap(),
                kind: self.heap.kind(id).unwrap(),
                colour,
                is_held: self.progress.get().keeps(id, colour),
            }),
        }
    }

    /// The edges between vertices that have a slot, by rising pairs of ends: those from all of them, or from the held
    /// ones only.
    pub(crate) fn arrows(
        &self,
        alloc: Global,
        with_parked: bool,
    ) -> Result<Vec<(u64, Rights, u64)>, AllocError>
        requires { IsStore (stored self.now) }
        ensures { IfOk result (λ found. AreFound (arrows (stored self.now) with_parked) Before found.items) }
    {
        let mut found = Vec::new(alloc);
        let mut few = Vec::new(alloc);
        for slot in 0..self.heap.len() {
            let from = self.source_at(slot, with_parked);
            self.add_arrows(&mut few, from, slot)?;
            few.sort_unstable_by_key(|arrow| arrow.2);
            found.append(&mut few)?;
        }
        // As long as no slot was used again they are in order, and one look at each is enough.
        found.sort_unstable_by_key(|arrow| (arrow.0, arrow.2));
        Ok(found)
    }

    /// The serial of a slot's vertex; none if it has none, or if this waits to be swept and those are left out.
    pub(crate) fn source_at(&self, id: u32, with_parked: bool) -> Option<u64>
        requires { id < length self.now.heap.table.slots }
        ensures { result ≡ source_at (stored self.now) with_parked id }
    {
        match self.figure_at(id) {
            None => None,
            Some(shown) => {
                if with_parked || shown.is_held {
                    Some(shown.serial)
                } else {
                    None
                }
            }
        }
    }

    /// Adds the edges from a slot's vertex, of this serial, to those that have a slot, in the order of its cells; none
    /// if no serial is given.
    fn add_arrows(
        &self,
        found: &mut Vec<(u64, Rights, u64)>,
        from: Option<u64>,
        id: u32,
    ) -> Result<(), AllocError>
        requires { id < length self.now.heap.table.slots }
        ensures { OnOk result (found.new.items ≡ found.old.items ++ arrows_from (stored self.now) from id) }
    {
        self.heap.soundness();
        let Some(from) = from else {
            return Ok(());
        };
        let mut cursor = self.heap.first(id);
        while let Some(cell) = cursor {
            let to = self.heap.target_serial(cell);
            let is_there = self.heap.serial(self.heap.target(cell)) == Some(to);
            add_found(found, is_there.then_some((from, self.heap.label(cell), to)))?;
            cursor = self.heap.next(cell);
        }
        Ok(())
    }
}

impl Progress {
    /// Whether a vertex of this colour in a slot is held; else it waits to be swept.
    fn keeps(self, id: u32, colour: Colour) -> bool
        ensures { (h : HeapGraph) → result ≡ keeps (shown (progress_in h self)) id colour }
    {
        match self {
            Progress::Idle => true,
            Progress::Marking(_) => true,
            Progress::Sweeping(at) => match colour {
                Colour::White => id < at,
                Colour::Grey => true,
                Colour::Black => true,
            },
        }
    }
}

/// Adds what was found at the end, if anything was.
pub(crate) fn add_found<T: Drop>(list: &mut Vec<T>, found: Option<T>) -> Result<(), AllocError>
    ensures { OnOk result (list.new.items ≡ list.old.items ++ option_to_list found) }
{
    match found {
        None => Ok(()),
        Some(one) => {
            list.push(one)?;
            Ok(())
        }
    }
}
