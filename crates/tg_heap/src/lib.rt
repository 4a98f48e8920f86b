//! A heap: vertices in slots with a colour each, and labelled edges between them in cells, on which the collector and
//! the sessions work.
//!
//! Contracts see a table of slots, one list of edges for each slot, the numbers of cells and of free ones, and the key.
//! Only `Heap::new` and `Heap::with_key` allocate.
#![tactic(auto)]

mod heap;

pub use heap::{Dropped, Heap, HeapFull};
pub use tg_cells::Key;
