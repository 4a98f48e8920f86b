//! Scripts of calls of a heap, with the lists that they must leave, as they were worked out by hand.
use tg_heap::HeapFull;

/// One call of a script with its result, or what must be seen after the calls before it. Rights are given by their
/// letters.
#[derive(Clone, Copy)]
pub enum Act {
    /// A white document of this serial is put into this slot.
    Put(u64, u32),
    /// This many white documents, of serials 10, 20 and so on, are put into the slots from the first on.
    Fill(u32),
    /// A vertex finds no free slot.
    NoSlot,
    /// An edge between two slots gains rights, and what is full.
    Add(u32, u32, &'static str, Option<HeapFull>),
    /// An edge between two slots is added that was not there.
    First(u32, u32, &'static str),
    /// The edge from a slot to a serial loses rights, and whether it is gone.
    Lose(u32, u64, &'static str, bool),
    Shade(u32),
    /// The first of the grey list is this slot, and is made black.
    Scan(u32),
    /// No slot is grey and waits.
    NoneWaits,
    /// A black slot is made white.
    Whiten(u32),
    White(u32),
    /// A white slot is freed with all its cells.
    Clear(u32),
    /// The free slots and the free cells.
    Free(u32, u32),
    /// A slot's edges, newest first: target, serial and label.
    Edges(u32, &'static [(u32, u64, &'static str)]),
    /// A slot has no edge to a serial.
    NoEdge(u32, u64),
}

use Act::{
    Add, Clear, Edges, Fill, First, Free, Lose, NoEdge, NoSlot, NoneWaits, Put, Scan, Shade, White,
    Whiten,
};

pub struct Script {
    pub slots: u32,
    pub cells: u32,
    pub acts: &'static [Act],
}

pub const SCRIPTS: &[Script] = &[
    // labels are joined
    Script {
        slots: 3,
        cells: 4,
        acts: &[
            Fill(3),
            Add(0, 1, "r", None),
            Add(0, 2, "g", None),
            Add(0, 1, "w", None),
            Edges(0, &[(2, 30, "g"), (1, 20, "rw")]),
            Edges(1, &[]),
            Free(0, 2),
        ],
    },
    // an edge that was not there is put in front
    Script {
        slots: 3,
        cells: 2,
        acts: &[
            Fill(3),
            First(0, 1, "r"),
            First(0, 2, "wg"),
            Edges(0, &[(2, 30, "wg"), (1, 20, "r")]),
            Free(0, 0),
            Add(0, 1, "t", None),
            Edges(0, &[(2, 30, "wg"), (1, 20, "rt")]),
        ],
    },
    // an edge left with no right is gone
    Script {
        slots: 2,
        cells: 3,
        acts: &[
            Put(10, 0),
            Put(20, 1),
            Add(0, 0, "t", None),
            Add(0, 1, "rw", None),
            Lose(0, 20, "r", false),
            Edges(0, &[(1, 20, "w"), (0, 10, "t")]),
            Lose(0, 20, "w", true),
            Edges(0, &[(0, 10, "t")]),
            NoEdge(0, 20),
            Free(0, 2),
        ],
    },
    // shading takes white slots only
    Script {
        slots: 4,
        cells: 1,
        acts: &[
            Put(10, 0),
            Put(10, 1),
            Put(10, 2),
            Shade(2),
            Shade(0),
            Shade(2),
            Shade(3),
            Scan(0),
            Shade(0),
            Scan(2),
            NoneWaits,
            Whiten(0),
            White(0),
            Whiten(2),
            White(2),
            White(1),
        ],
    },
    // a heap is filled and emptied
    Script {
        slots: 3,
        cells: 4,
        acts: &[
            Fill(3),
            NoSlot,
            Add(0, 1, "r", None),
            Add(0, 2, "r", None),
            Add(1, 0, "r", None),
            Add(2, 0, "r", None),
            Free(0, 0),
            Add(2, 1, "r", Some(HeapFull::Cells)),
            Add(0, 1, "w", None),
            Clear(1),
            Free(1, 1),
            Clear(0),
            Free(2, 3),
            Clear(2),
            Free(3, 4),
            Put(50, 2),
            Put(50, 0),
            Put(50, 1),
        ],
    },
];
