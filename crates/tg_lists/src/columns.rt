//! Lists of pairs in two arrays.
ghost use Rattle.std.specs.Prelude.{◌≡◌, ◌<◌, ◌≤◌, ◌++◌, ◌∷◌, [], IfOk, length, set};
ghost use Rattle.std.specs.Borrow.{sem};
ghost use Rattle.std.specs.Vec.{vec_capacity};
ghost use Rattle.tg_lists.specs.Promise.Columns.{HasLeft, HasRight, with_left};

use std::alloc::{AllocError, Global};
use std::marker::Model;

/// A list of pairs whose halves lie in two arrays, with room for more pairs: a walk that reads left halves alone brings
/// nothing of the right ones into the processor's cache.
#[derive(Drop)]
pub struct Columns<L, R> {
    left: Vec<L>,
    right: Vec<R>,
}

impl<L, R> Model for Columns<L, R> {
    ghost use Rattle.std.specs.Prelude.{◌≡◌, length, min};
    ghost use Rattle.std.specs.List.{zip};
    ghost use Rattle.std.specs.Vec.{vec_capacity};
    ghost use Rattle.tg_lists.specs.Promise.Columns.{Pairs};
    ghost use Rattle.tg_lists.specs.Inner.Columns.{pairs_code};

    ghost Value = { Pairs L R };

    ghost coded = { pairs_code L.code R.code };

    ghost view = { λ c. record { items = zip c.left.items c.right.items; room = min (vec_capacity c.left) (vec_capacity c.right) } };

    ghost invariant = { λ c. length c.left.items ≡ length c.right.items };
}

/// Appends an element for which there is room.
fn append<T: Drop>(items: &mut Vec<T>, item: T)
    requires { length items.old.items < vec_capacity items.old }
    ensures items { items.new.items ≡ items.old.items ++ item ∷ [] }
    ensures room { vec_capacity items.old ≤ vec_capacity items.new }
{
    let Ok(()) = items.push(item) else {
        unreachable!();
    };
}

impl<L: Drop, R: Drop> Columns<L, R> {
    ghost use Rattle.tg_lists.specs.Promise.ColumnsLent.{lends_right};

    /// No pairs, with room for that many. The only error is that an allocation failed.
    pub fn new(alloc: Global, count: usize) -> Result<Columns<L, R>, AllocError>
        ensures none { IfOk result (λ c. c.items ≡ []) }
        ensures room { IfOk result (λ c. count ≤ c.room) }
    {
        let left = Vec::with_capacity(alloc, count)?;
        let right = Vec::with_capacity(alloc, count)?;
        Ok(Columns { left, right })
    }

    /// How many pairs there are.
    #[inline]
    pub fn len(&self) -> usize
        ensures { result ≡ length self.now.items }
    {
        self.left.len()
    }

    /// The left half of a pair.
    #[inline]
    pub fn left(&self, index: usize) -> &L
        requires { index < length self.now.items }
        ensures { HasLeft self.now.items index result.now }
    {
        &self.left[index]
    }

    /// The right half of a pair.
    #[inline]
    pub fn right(&self, index: usize) -> &R
        requires { index < length self.now.items }
        ensures { HasRight self.now.items index result.now }
    {
        &self.right[index]
    }

    /// The right half of a pair, for writing.
    #[inline]
    pub fn right_mut(&mut self, index: usize) -> &mut R
        requires { index < length self.old.items }
        ensures* writes_back { sem 𝓛 (lends_right L.row R.row self.entry index result) }
        ensures value { HasRight self.old.items index result.now }
    {
        &mut self.right[index]
    }

    /// Appends a pair, for which there is room.
    #[inline]
    pub fn push(&mut self, left: L, right: R)
        requires { length self.old.items < self.old.room }
        ensures items { self.new.items ≡ self.old.items ++ (left, right) ∷ [] }
        ensures room { self.old.room ≤ self.new.room }
    {
        append(&mut self.left, left);
        append(&mut self.right, right);
    }

    /// Writes a left half in place of another.
    #[inline]
    pub fn set_left(&mut self, index: usize, left: L)
        requires { index < length self.old.items }
        ensures { self.new ≡ record self.old { items = with_left self.old.items index left } }
    {
        self.left[index] = left;
    }

    /// Writes a pair in place of another.
    #[inline]
    pub fn set(&mut self, index: usize, left: L, right: R)
        requires { index < length self.old.items }
        ensures { self.new ≡ record self.old { items = set self.old.items index (left, right) } }
    {
        self.left[index] = left;
        self.right[index] = right;
    }
}
