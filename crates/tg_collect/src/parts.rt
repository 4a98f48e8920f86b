//! What is held, in lists.
ghost use Rattle.std.specs.Prelude.{◌≡◌, ◌<◌, length, map, IfOk};
ghost use Rattle.std.specs.Option.{option_to_list};
ghost use Rattle.tg_heap.specs.Promise.Graph.{edges};
ghost use Rattle.tg_collect.specs.Promise.Parts.{ListsHeld, ListsSerials};
ghost use Rattle.tg_collect.specs.Promise.Readings.{place};
ghost use Rattle.tg_collect.specs.Inner.Parts.{AreFound, listed_at};
ghost use Rattle.tg_collect.specs.Inner.Stored.{stored};
ghost use Rattle.tg_collect.specs.Promise.Views.{IsStore};

use crate::figures::add_found;
use crate::machine::Machine;
use crate::store::Store;
use std::alloc::{AllocError, Global};
use tg_rights::{Kind, Rights, Text};

impl Store {
    /// What is held: its vertices by rising serial, with copies of their texts, and its edges by rising pairs of ends.
    /// The only error is that an allocation failed.
    pub fn parts(
        &self,
        alloc: Global,
    ) -> Result<(Vec<(u64, Kind, Text)>, Vec<(u64, Rights, u64)>), AllocError>
        ensures { IfOk result (λ p. ListsHeld self.now p.0.items p.1.items) }
    {
        self.soundness();
        let vertices = self.machine.vertices(alloc)?;
        let edges = self.machine.arrows(alloc, false)?;
        Ok((vertices, edges))
    }

    /// The serials of what is held, which rise. Allocates once, and the only error is that this failed.
    pub fn serials(&self, alloc: Global) -> Result<Vec<u64>, AllocError>
        ensures { IfOk result (λ found. ListsSerials self.now found.items) }
    {
        self.soundness();
        let found = self.machine.serials(alloc)?;
        Ok(found)
    }
}

impl Machine {
    /// The vertices that are held, by rising serial, with copies of their texts.
    fn vertices(&self, alloc: Global) -> Result<Vec<(u64, Kind, Text)>, AllocError>
        requires { IsStore (stored self.now) }
        ensures { IfOk result (λ found. AreFound (λ i. option_to_list (listed_at (stored self.now) i)) (λ a b. a.0 < b.0) found.items) }
    {
        let mut found = Vec::new(alloc);
        for id in 0..self.heap.len() {
            let vertex = self.vertex_at(alloc, id)?;
            add_found(&mut found, vertex)?;
        }
        found.sort_unstable_by_key(|vertex| vertex.0);
        Ok(found)
    }

    /// The serials of the vertices that are held, which rise.
    fn serials(&self, alloc: Global) -> Result<Vec<u64>, AllocError>
        requires { IsStore (stored self.now) }
        ensures { IfOk result (λ found. AreFound (λ i. option_to_list (place (stored self.now) i)) (λ a b. a < b) found.items) }
    {
        let mut found = Vec::with_capacity(alloc, self.heap.len() as usize)?;
        for slot in 0..self.heap.len() {
            let serial = self.source_at(slot, false);
            add_found(&mut found, serial)?;
        }
        // As long as no slot was used again they are in order, and one look at each is enough.
        found.sort_unstable_by_key(|serial| *serial);
        Ok(found)
    }

    /// The vertex that is held in a slot, with a copy of its text; none if the slot is free or parked.
    fn vertex_at(&self, alloc: Global, id: u32) -> Result<Option<(u64, Kind, Text)>, AllocError>
        requires { id < length self.now.heap.table.slots }
        ensures { IfOk result (λ found. found ≡ listed_at (stored self.now) id) }
    {
        match self.figure_at(id) {
            None => Ok(None),
            Some(shown) => {
                if !shown.is_held {
                    return Ok(None);
                }
                let text = self.heap.text(id).unwrap().copy(alloc)?;
                Ok(Some((shown.serial, shown.kind, text)))
            }
        }
    }

    /// The serials and labels of a slot's edges, in the order of its cells.
    pub fn edge_list(&self, alloc: Global, id: u32) -> Result<Vec<(u64, Rights)>, AllocError>
        requires { id < length self.now.heap.table.slots }
        ensures { IfOk result (λ list. list.items ≡ map (λ e. (e.serial, e.rights)) (edges self.now.heap id)) }
    {
        self.heap.soundness();
        let mut list = Vec::new(alloc);
        let mut cursor = self.heap.first(id);
        while let Some(cell) = cursor {
            list.push((self.heap.target_serial(cell), self.heap.label(cell)))?;
            cursor = self.heap.next(cell);
        }
        Ok(list)
    }
}
