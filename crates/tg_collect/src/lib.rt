//! The store and its collector: the on-the-fly mark-sweep collector of Dijkstra, Lamport, Martin, Scholten and Steffens
//! (1978), for up to 64 sessions and any number of edges, over a labelled heap.
#![tactic(auto)]

#[cfg(test)]
mod acts;
mod figures;
#[cfg(test)]
mod growth_tests;
mod laws;
mod machine;
#[cfg(test)]
mod many_tests;
mod note;
mod opening;
mod packed_progress;
mod parts;
mod reader;
mod roster;
#[cfg(test)]
mod scripts;
mod sessions;
mod store;
#[cfg(test)]
mod tests;

pub use figures::Figure;
pub use laws::{
    held_changes, one_mark_a_step, openings_can_be_stored, runs_are_complete_and_bounded,
    steps_in_the_graph, texts_come_back,
};
pub use note::{Note, Phase, Swept};
pub use store::Store;
pub use tg_heap::{HeapFull, Key};
pub use tg_slots::Colour;
