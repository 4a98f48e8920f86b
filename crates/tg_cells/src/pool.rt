//! The cells that were used so far, as they lie in memory.
ghost use Rattle.std.specs.Prelude.{◌≡◌, ◌<◌, ◌≤◌, ◌&&◌, [], IfOk, eqb, length, set};
ghost use Rattle.tg_index.specs.Inner.Links.{written};
ghost use Rattle.tg_cells.specs.Inner.Chain.{Pooled, cell_at, with_next, with_previous};
ghost use Rattle.tg_cells.specs.Inner.Pool.{hop_of, pooled, rest_of};

use std::alloc::{AllocError, Global};
use std::marker::Model;
use tg_lists::Columns;
use tg_rights::Rights;

/// A cell, and its neighbours in its list.
#[derive(Drop)]
pub(crate) struct Cell {
    pub next: u32,
    pub target: u32,
    pub serial: u64,
    pub rights: Rights,
    pub owner: u32,
    pub previous: u32,
}

/// What a walk over a list reads of a cell.
#[derive(Drop)]
pub(crate) struct Hop {
    pub next: u32,
    pub target: u32,
}

/// What else a cell holds.
#[derive(Drop)]
pub(crate) struct Rest {
    pub serial: u64,
    pub owner: u32,
    pub previous: u32,
    pub rights: Rights,
}

/// Cells from number 0 on, with room for more.
///
/// The collector walks over lists, and reads nothing else of a cell. So what it reads lies in a column of its own, in 8
/// bytes for each cell.
#[derive(Drop)]
pub(crate) struct Pool {
    cells: Columns<Hop, Rest>,
}

impl Model for Pool {
    ghost Value = { Pooled };

    ghost view = { pooled };
}

impl Cell {
    /// The cell as it lies in the two columns.
    fn halves(self) -> (Hop, Rest)
        ensures hop { result.0 ≡ hop_of self }
        ensures rest { result.1 ≡ rest_of self }
    {
        let hop = Hop {
            next: self.next,
            target: self.target,
        };
        let rest = Rest {
            serial: self.serial,
            owner: self.owner,
            previous: self.previous,
            rights: self.rights,
        };
        (hop, rest)
    }
}

impl Pool {
    /// No cells, with room for that many. The only error is that an allocation failed.
    pub fn new(alloc: Global, count: u32) -> Result<Pool, AllocError>
        ensures none { IfOk result (λ p. p.items ≡ []) }
        ensures room { IfOk result (λ p. count ≤ p.room) }
    {
        let cells = Columns::new(alloc, count as usize)?;
        Ok(Pool { cells })
    }

    /// How many cells there are.
    pub fn len(&self) -> usize
        ensures { result ≡ length self.now.items }
    {
        self.cells.len()
    }

    /// What a walk reads of the cell: the next one of its list, and the slot that its edge leads to.
    pub fn hop(&self, number: u32) -> &Hop
        requires { number < length self.now.items }
        ensures { result.now ≡ hop_of (cell_at self.now.items number) }
    {
        self.cells.left(number as usize)
    }

    /// What else the cell holds.
    pub fn rest(&self, number: u32) -> &Rest
        requires { number < length self.now.items }
        ensures { result.now ≡ rest_of (cell_at self.now.items number) }
    {
        self.cells.right(number as usize)
    }

    /// Whether the cell is the owner's, with that serial.
    pub fn is_of(&self, number: u32, owner: u32, serial: u64) -> bool
        requires { number < length self.now.items }
        ensures { result ≡ (eqb (cell_at self.now.items number).serial serial && eqb (cell_at self.now.items number).owner owner) }
    {
        let rest = self.rest(number);
        rest.serial == serial && rest.owner == owner
    }

    /// Writes a cell in place of another, or as the next one, for which there is room.
    pub fn write(&mut self, number: u32, cell: Cell)
        requires used { number ≤ length self.old.items }
        requires within { number < self.old.room }
        ensures items { self.new.items ≡ written self.old.items number cell }
        ensures room { self.old.room ≤ self.new.room }
    {
        let (hop, rest) = cell.halves();
        if (number as usize) < self.cells.len() {
            self.cells.set(number as usize, hop, rest);
        } else {
            self.cells.push(hop, rest);
        }
    }

    /// Links the cell of that number, if there is one, on to another.
    pub fn set_next(&mut self, number: u32, next: u32)
        ensures { self.new ≡ record self.old { items = with_next self.old.items number next } }
    {
        if (number as usize) < self.cells.len() {
            let target = self.cells.left(number as usize).target;
            self.cells.set_left(number as usize, Hop { next, target });
        }
    }

    /// Links the cell of that number, if there is one, back to another.
    pub fn set_previous(&mut self, number: u32, previous: u32)
        ensures { self.new ≡ record self.old { items = with_previous self.old.items number previous } }
    {
        if (number as usize) < self.cells.len() {
            self.cells.right_mut(number as usize).previous = previous;
        }
    }

    /// Replaces the rights on the cell's edge.
    pub fn set_rights(&mut self, number: u32, rights: Rights)
        requires { number < length self.old.items }
        ensures { self.new ≡ record self.old { items = set self.old.items number (record (cell_at self.old.items number) { rights = rights }) } }
    {
        self.cells.right_mut(number as usize).rights = rights;
    }
}
