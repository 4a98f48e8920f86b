//! For the tests of crates above: a reader and a writer over memory that fail at a given call.
#![tactic(auto)]

mod failing;

pub use failing::{FailingReader, FailingWriter, Failure};
