//! The cells: arrays of numbers, and a list through them for each owner.
ghost use Rattle.std.specs.Prelude.{◌≡◌, ℕ, ◌+◌, ◌*◌, ◌<◌, ◌≤◌, List, [], ◌∷◌, ◌++◌, length, MatchOption, MatchBool, IfOk, Some, None, max, cond, ltb, eqb, ◌&&◌, set, false};
ghost use Rattle.std.specs.Int.{IsPowerOfTwo};
ghost use Rattle.tg_rights.specs.declared.limits.TheConstants.{MAX_CELLS, MAX_SLOTS};
ghost use Rattle.tg_rights.specs.Promise.Letters.{is_none};
ghost use Rattle.tg_cells.specs.declared.key.TheConstants.Key.{FIXED};
ghost use Rattle.tg_cells.specs.Promise.Lists.{CellLists, Edge, owned, first_cell, Stands, IsLinked, IsLinkedBy, HasNone, IsUnowned, Found, IsCells};
ghost use Rattle.tg_cells.specs.Inner.Chain.{cell_at};

use crate::key::{Key, bucket_of};
use crate::pool::{Cell, Pool};
use std::alloc::{AllocError, Global};
use std::marker::Model;
use tg_index::Buckets;
use tg_rights::Rights;

/// One list of cells for each owner, and the free cells.
#[derive(Drop)]
pub struct Cells {
    // The cells that were used so far, by number, with room for all: a cell that was never used is not written.
    cells: Pool,
    // The first cell of each owner's list, its newest.
    heads: Vec<u32>,
    // The first free one of the cells that were used so far; if there is none, the number of all cells.
    free: u32,
    free_count: u32,
    // The number of all cells, which is no cell's number and ends each list.
    size: u32,
    // The linked cells, each in the bucket of its owner and its serial.
    index: Buckets,
    // The key that determines that bucket.
    key: Key,
}

impl Model for Cells {
    ghost use Rattle.tg_cells.specs.Promise.Lists.{CellLists};
    ghost use Rattle.tg_cells.specs.Inner.Inside.{view_of, IsKept};

    ghost Value = { CellLists };

    ghost view = { view_of };

    ghost invariant = { IsKept };
}

/// The number, if it is that of a cell that was used so far.
fn cell_or_none(cells: &Pool, number: u32) -> Option<u32>
    ensures { result ≡ cond (ltb number (length cells.now.items)) (Some number) None }
{
    if (number as usize) < cells.len() {
        Some(number)
    } else {
        None
    }
}

/// The first free one of the cells used so far, once this free cell is used: the next one in their list. If the cell
/// was never used, there is none, which is written as `size`.
fn free_after(cells: &Pool, number: u32, size: u32) -> u32
    ensures { result ≡ cond (ltb number (length cells.now.items)) (cell_at cells.now.items number).next size }
{
    if (number as usize) < cells.len() {
        cells.hop(number).next
    } else {
        size
    }
}

/// If a list has lost its first cell, which had none before it, its head is the next one.
fn set_head(heads: &mut [u32], owner: u32, is_first: bool, next: u32)
    requires { owner < length heads.old }
    ensures { heads.new ≡ cond is_first (set heads.old owner next) heads.old }
{
    if is_first {
        heads[owner as usize] = next;
    }
}

/// How many buckets there are for that many cells: a power of two, from one for two cells to one for each. With more,
/// rows would hardly be shorter, and the heads would take more of the processor's cache.
fn buckets_for(count: u32) -> u32
    requires { count ≤ MAX_CELLS }
    ensures power { IsPowerOfTwo result }
    ensures enough { count ≤ 4 * result }
    ensures few { result ≤ max 1 count }
{
    (count / 2).max(1).next_power_of_two()
}

impl Cells {
    /// Empty lists for that many owners, 1 to 65,536, and that many free cells, 1 to 1,048,576, under the key that
    /// everybody can read. The only error is that an allocation failed.
    pub fn new(alloc: Global, owners: u32, count: u32) -> Result<Cells, AllocError>
        requires low_owners { 1 ≤ owners }
        requires high_owners { owners ≤ MAX_SLOTS }
        requires low { 1 ≤ count }
        requires high { count ≤ MAX_CELLS }
        ensures empty { IfOk result (λ c. (length c.lists ≡ owners) × (c.free ≡ count) × (c.size ≡ count) × ((i : ℕ) → owned c.lists i ≡ [])) }
        ensures key { IfOk result (λ c. c.key ≡ FIXED) }
    {
        Cells::with_key(alloc, Key::FIXED, owners, count)
    }

    /// The same under the caller's key, which determines the bucket of each edge. The only error is that an allocation
    /// failed.
    pub fn with_key(alloc: Global, key: Key, owners: u32, count: u32) -> Result<Cells, AllocError>
        requires low_owners { 1 ≤ owners }
        requires high_owners { owners ≤ MAX_SLOTS }
        requires low { 1 ≤ count }
        requires high { count ≤ MAX_CELLS }
        ensures empty { IfOk result (λ c. (length c.lists ≡ owners) × (c.free ≡ count) × (c.size ≡ count) × ((i : ℕ) → owned c.lists i ≡ [])) }
        ensures key { IfOk result (λ c. c.key ≡ key) }
    {
        let heads = vec![in alloc; count; owners as usize]?;
        let cells = Pool::new(alloc, count)?;
        let index = Buckets::new(alloc, buckets_for(count), count)?;
        Ok(Cells {
            cells,
            heads,
            free: count,
            free_count: count,
            size: count,
            index,
            key,
        })
    }

    /// No-op; its postcondition exposes the invariant.
    pub fn soundness(&self)
        ensures sound { IsCells self.now }
        ensures size { self.now.size ≤ MAX_CELLS }
        ensures owners { length self.now.lists ≤ MAX_SLOTS }
    {
        let _ = &self.cells;
    }

    /// How many cells are free.
    pub fn free(&self) -> u32
        ensures { result ≡ self.now.free }
    {
        self.free_count
    }

    /// Puts a free cell in front of the owner's list, which has none of that serial, for an edge to the vertex of the
    /// serial in slot `target`, with rights that are not empty. False, and everything as before, only if no cell is
    /// free.
    pub fn link(&mut self, owner: u32, target: u32, serial: u64, rights: Rights) -> bool
        requires owner { owner < length self.old.lists }
        requires none { HasNone (owned self.old.lists owner) serial }
        requires some { is_none rights ≡ false }
        ensures { MatchBool result
            ((e : Edge) × (IsUnowned self.old.lists e.cell) × (e.target ≡ target) × (e.serial ≡ serial) × (e.rights ≡ rights) × (self.old.free ≡ self.new.free + 1)
            × (self.new ≡ record self.old { lists = set self.old.lists owner (e ∷ owned self.old.lists owner); free = self.new.free }))
            ((self.old.free ≡ 0) × (self.new ≡ self.old)) }
    {
        let end = self.size;
        // The first free one of the cells used so far or, if there is none, the next one after them.
        let number = self.free.min(self.cells.len() as u32);
        if number >= end {
            return false;
        }
        let head = self.heads[owner as usize];
        self.free = free_after(&self.cells, number, end);
        self.free_count -= 1;
        let cell = Cell {
            owner,
            previous: end,
            next: head,
            target,
            serial,
            rights,
        };
        self.cells.write(number, cell);
        self.heads[owner as usize] = number;
        self.cells.set_previous(head, number);
        let bucket = bucket_of(self.key, owner, serial, self.index.buckets());
        self.index.put(bucket, number);
        true
    }

    /// Takes a cell out of its owner's list, and frees it.
    pub fn unlink(&mut self, owner: u32, cell: u32)
        requires { IsLinkedBy self.old.lists cell owner }
        ensures { (p : List Edge) (e : Edge) (r : List Edge) → Stands self.old.lists cell owner p e r
            → self.new ≡ record self.old { lists = set self.old.lists owner (p ++ r); free = self.old.free + 1 } }
    {
        let end = self.size;
        let previous = self.cells.rest(cell).previous;
        let next = self.cells.hop(cell).next;
        let serial = self.cells.rest(cell).serial;
        self.index.soundness();
        let bucket = bucket_of(self.key, owner, serial, self.index.buckets());
        self.index.take(bucket, cell);
        set_head(&mut self.heads, owner, previous == end, next);
        self.cells.set_next(previous, next);
        self.cells.set_previous(next, previous);
        self.cells.set_next(cell, self.free);
        self.free = cell;
        self.free_count += 1;
    }

    /// The cell of that serial in the owner's list; none if no cell of the list has it.
    pub fn find(&self, owner: u32, serial: u64) -> Option<u32>
        requires { owner < length self.now.lists }
        ensures { MatchOption result (HasNone (owned self.now.lists owner) serial) (λ c. (f : Found (owned self.now.lists owner) serial) × (c ≡ f.edge.cell)) }
    {
        self.index.soundness();
        let bucket = bucket_of(self.key, owner, serial, self.index.buckets());
        let mut cursor = self.index.first(bucket);
        while let Some(number) = cursor {
            if self.cells.is_of(number, owner, serial) {
                return Some(number);
            }
            cursor = self.index.next(number);
        }
        None
    }

    /// The first cell of the owner's list; none if it is empty.
    pub fn first(&self, owner: u32) -> Option<u32>
        requires { owner < length self.now.lists }
        ensures { result ≡ first_cell (owned self.now.lists owner) }
    {
        cell_or_none(&self.cells, self.heads[owner as usize])
    }

    /// The cell that follows in the list of the cell's owner; none after the last.
    pub fn next(&self, cell: u32) -> Option<u32>
        requires { IsLinked self.now.lists cell }
        ensures { (i : ℕ) (p : List Edge) (e : Edge) (r : List Edge) → Stands self.now.lists cell i p e r → result ≡ first_cell r }
    {
        cell_or_none(&self.cells, self.cells.hop(cell).next)
    }

    /// The slot that the cell's edge leads to.
    pub fn target(&self, cell: u32) -> u32
        requires { IsLinked self.now.lists cell }
        ensures { (i : ℕ) (p : List Edge) (e : Edge) (r : List Edge) → Stands self.now.lists cell i p e r → result ≡ e.target }
    {
        self.cells.hop(cell).target
    }

    /// The serial of the vertex that the cell's edge leads to.
    pub fn serial(&self, cell: u32) -> u64
        requires { IsLinked self.now.lists cell }
        ensures { (i : ℕ) (p : List Edge) (e : Edge) (r : List Edge) → Stands self.now.lists cell i p e r → result ≡ e.serial }
    {
        self.cells.rest(cell).serial
    }

    /// The rights on the cell's edge, its label.
    pub fn label(&self, cell: u32) -> Rights
        requires { IsLinked self.now.lists cell }
        ensures { (i : ℕ) (p : List Edge) (e : Edge) (r : List Edge) → Stands self.now.lists cell i p e r → result ≡ e.rights }
    {
        self.cells.rest(cell).rights
    }

    /// Replaces the rights on the cell's edge by others that are not empty.
    pub fn set_rights(&mut self, cell: u32, rights: Rights)
        requires some { is_none rights ≡ false }
        requires linked { IsLinked self.old.lists cell }
        ensures { (i : ℕ) (p : List Edge) (e : Edge) (r : List Edge) → Stands self.old.lists cell i p e r
            → self.new ≡ record self.old { lists = set self.old.lists i (p ++ record e { rights = rights } ∷ r) } }
    {
        self.cells.set_rights(cell, rights);
    }
}
