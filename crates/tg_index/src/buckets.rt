//! The buckets: arrays of numbers, and a row through them for each bucket.
ghost use Rattle.std.specs.Prelude.{◌≡◌, ℕ, ◌+◌, ◌<◌, ◌≤◌, List, [], ◌∷◌, ◌++◌, length, IfOk, Some, None, cond, ltb, set};
ghost use Rattle.std.specs.Vec.{vec_capacity};
ghost use Rattle.tg_lists.specs.Promise.Membership.{Contains};
ghost use Rattle.tg_index.specs.Promise.Rows.{row, first_of, IsUnheld, IsHeld, AreRows};
ghost use Rattle.tg_index.specs.Inner.Links.{with_previous, with_next, first_link, written};

use std::alloc::{AllocError, Global};
use std::marker::Model;

// The neighbours of a number in its row. They lie together, in 8 bytes: taking a number out reads both.
#[derive(Drop)]
struct Link {
    next: u32,
    previous: u32,
}

/// One row of numbers for each bucket.
#[derive(Drop)]
pub struct Buckets {
    // The first number of each bucket's row, its newest.
    heads: Vec<u32>,
    // The links of the numbers that were used so far, by number, with room for all: that of a number that was never
    // used is not written.
    links: Vec<Link>,
    // How many numbers there are, which is none of them and ends each row.
    size: u32,
}

impl Model for Buckets {
    ghost use Rattle.tg_index.specs.Promise.Rows.{Rows};

    ghost Value = { Rows };

    ghost use Rattle.tg_index.specs.Inner.Inside.{view_of, IsInside};

    ghost view = { view_of };

    ghost invariant = { IsInside };
}

/// The number, if it is one of those that were used.
fn number_or_none(links: &[Link], number: u32) -> Option<u32>
    ensures { result ≡ cond (ltb number (length links.now)) (Some number) None }
{
    if (number as usize) < links.len() {
        Some(number)
    } else {
        None
    }
}

/// Links the number, if it is one of those that were used, back to another.
fn set_previous(links: &mut [Link], number: u32, previous: u32)
    ensures { links.new ≡ with_previous links.old number previous }
{
    if (number as usize) < links.len() {
        links[number as usize].previous = previous;
    }
}

/// Links the number, if it is one of those that were used, on to another.
fn set_next(links: &mut [Link], number: u32, next: u32)
    ensures { links.new ≡ with_next links.old number next }
{
    if (number as usize) < links.len() {
        links[number as usize].next = next;
    }
}

/// If a row has lost its first number, which had none before it, its head is the next one.
fn set_head(heads: &mut [u32], bucket: usize, is_first: bool, next: u32)
    requires { bucket < length heads.old }
    ensures { heads.new ≡ cond is_first (set heads.old bucket next) heads.old }
{
    if is_first {
        heads[bucket] = next;
    }
}

/// Makes the number the first of a row, with `next` after it.
fn write(links: &mut Vec<Link>, number: u32, next: u32, size: u32)
    requires used { number ≤ length links.old.items }
    requires within { number < size }
    requires room { size ≤ vec_capacity links.old }
    ensures written { links.new.items ≡ written links.old.items number (first_link next size) }
    ensures room { size ≤ vec_capacity links.new }
{
    let link = Link {
        next,
        previous: size,
    };
    if (number as usize) < links.len() {
        links[number as usize] = link;
        return;
    }
    let Ok(()) = links.push(link) else {
        unreachable!();
    };
}

impl Buckets {
    /// Empty rows for that many buckets, and that many numbers from 0 on. The only error is that an allocation failed.
    pub fn new(alloc: Global, buckets: u32, size: u32) -> Result<Buckets, AllocError>
        ensures { IfOk result (λ r. (length r.lists ≡ buckets) × (r.used ≡ 0) × (r.size ≡ size) × ((b : ℕ) → row r.lists b ≡ [])) }
    {
        let heads = vec![in alloc; size; buckets as usize]?;
        let links = Vec::with_capacity(alloc, size as usize)?;
        Ok(Buckets { heads, links, size })
    }

    /// No-op; its postcondition exposes the invariant.
    pub fn soundness(&self)
        ensures { AreRows self.now }
    {
        let _ = &self.heads;
    }

    /// How many buckets there are.
    pub fn buckets(&self) -> usize
        ensures { result ≡ length self.now.lists }
    {
        self.heads.len()
    }

    /// The first number of the bucket's row; none if it is empty.
    pub fn first(&self, bucket: usize) -> Option<u32>
        requires { bucket < length self.now.lists }
        ensures { result ≡ first_of (row self.now.lists bucket) }
    {
        number_or_none(&self.links, self.heads[bucket])
    }

    /// The number that follows in its row; none after the last.
    pub fn next(&self, number: u32) -> Option<u32>
        requires { IsHeld self.now.lists number }
        ensures { (b : ℕ) (p r : List ℕ) → row self.now.lists b ≡ p ++ number ∷ r → result ≡ first_of r }
    {
        number_or_none(&self.links, self.links[number as usize].next)
    }

    /// Puts a number that is in no row in front of the bucket's row. Numbers are first used in their order.
    pub fn put(&mut self, bucket: usize, number: u32)
        requires bucket { bucket < length self.old.lists }
        requires unheld { IsUnheld self.old.lists number }
        requires used { number ≤ self.old.used }
        requires within { number < self.old.size }
        ensures { self.new ≡ record self.old { lists = set self.old.lists bucket (number ∷ row self.old.lists bucket); used = cond (ltb number self.old.used) self.old.used (self.old.used + 1) } }
    {
        let head = self.heads[bucket];
        let size = self.size;
        write(&mut self.links, number, head, size);
        set_previous(&mut self.links, head, number);
        self.heads[bucket] = number;
    }

    /// Takes a number out of the bucket's row.
    pub fn take(&mut self, bucket: usize, number: u32)
        requires { Contains (row self.old.lists bucket) number }
        ensures { (p r : List ℕ) → row self.old.lists bucket ≡ p ++ number ∷ r → self.new ≡ record self.old { lists = set self.old.lists bucket (p ++ r) } }
    {
        let end = self.size;
        let previous = self.links[number as usize].previous;
        let next = self.links[number as usize].next;
        set_head(&mut self.heads, bucket, previous == end, next);
        set_next(&mut self.links, previous, next);
        set_previous(&mut self.links, next, previous);
    }
}
