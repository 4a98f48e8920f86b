//! Rows of numbers in buckets: each number is in at most one row, and each row is a chain of numbers.
//!
//! Contracts see the rows as lists, the newest number first. In memory each bucket has the first number of its row, and
//! each number is linked to the one before it and the one after it, so that no call but `new` has a loop. Only
//! `Buckets::new` allocates.
#![tactic(auto)]

mod buckets;

pub use buckets::Buckets;
