//! A table of slots, each free or with one vertex, and two lists of slot indices: the free slots, and the grey slots
//! that wait for the collector.
//!
//! Contracts see the table as its slots and the two lists. In memory both lists run through one link field of each
//! slot, so that no list operation needs a loop, and only `Slots::new` allocates.
#![tactic(auto)]

mod colour;
mod shelf;
mod slots;

pub use colour::Colour;
pub use slots::{Occupant, Slots};
