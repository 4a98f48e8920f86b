//! What every crate needs of lists: lists of pairs in two arrays, and, for contracts and proofs, membership in a list.
#![tactic(auto)]

mod columns;

pub use columns::Columns;
