//! The tests of tg_share, tg_wire and tg_talk, each in a module of its crate's name; those of calls that lack memory
//! are in its module `growths`. They are in one crate for the reason that those of tg_tests are.
#![tactic(auto)]

#[cfg(test)]
mod share;
#[cfg(test)]
mod sharing;
#[cfg(test)]
mod talk;
#[cfg(test)]
mod wire;
