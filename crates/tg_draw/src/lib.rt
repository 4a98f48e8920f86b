//! Vaults as pictures, in the DOT language of Graphviz.
#![tactic(auto)]

mod dot;
mod label;
mod laws;
mod words;

pub use dot::{draw, picture};
pub use laws::{drawn_on_examples, one_picture};
