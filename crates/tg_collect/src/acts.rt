//! What a script says: calls of a store with their results, and what is seen between them.

use tg_heap::HeapFull;

/// One call of a script with its result, or what must be seen after the calls before it. Rights are given by their
/// letters.
pub enum Act {
    /// A principal's new document: seat, principal, serial, rights, and what is full.
    Create(u64, u64, u64, &'static str, Option<HeapFull>),
    /// A principal's new subject, who is a principal too: seat, principal, serial, rights, and what is full.
    Enrol(u64, u64, u64, &'static str, Option<HeapFull>),
    /// A principal retires.
    Retire(u64),
    /// The serials of the principals, in their order.
    Principals(&'static [u64]),
    /// An edge gains rights: seat, its two ends, each with a principal that has a right over it, rights, and what is
    /// full.
    Join(u64, (u64, u64), (u64, u64), &'static str, Option<HeapFull>),
    /// A principal loses rights over a serial.
    Remove(u64, u64, &'static str),
    /// A seat shades its target.
    Shade(u64, Option<u64>),
    /// The text of a document over which a principal has a right is replaced, with the old one.
    Write(u64, u64, &'static str, &'static str),
    /// A seat assumes a principal, or a vertex that it has an edge to.
    Assume(u64, u64, u64),
    Leave(u64),
    /// For whom a seat acts, and the slot.
    Agent(u64, Option<(u64, u32)>),
    /// This many collector steps of the marking.
    Mark(u32),
    /// This many collector steps of the sweep that free no slot.
    Sweep(u32),
    /// This many collector steps of the sweep that free a slot each.
    Reclaim(u32),
    /// The collector step that ends a cycle.
    End,
    /// A cycle that frees no slot: steps of the marking, steps of the sweep, and the step that ends it.
    Cycle(u32, u32),
    /// The steps of a cycle that are left, at once: the slots that they free, and how many there are.
    Rest(u64, u64),
    Pending(u64, Option<u64>),
    FreeSlots(u32),
    FreeCells(u32),
    /// The slot of a serial over which a principal has a right.
    At(u64, u64, u32),
    /// The text of a document over which a principal has a right.
    Reads(u64, u64, &'static str),
    /// A principal's only edge.
    Edge(u64, u64, &'static str),
}

pub struct Script {
    pub name: &'static str,
    pub principals: &'static [&'static str],
    pub edges: &'static [(u64, &'static str, u64)],
    pub slots: u32,
    pub cells: u32,
    pub acts: &'static [Act],
}

/// Alice and bob, who are 1 and 2, without rights over each other, and a slot for one document.
pub const PLAIN: Script = Script {
    name: "nothing happens",
    principals: &["alice", "bob"],
    edges: &[],
    slots: 3,
    cells: 8,
    acts: &[],
};
