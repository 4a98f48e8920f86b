//! The tests of the crates from tg_rights up to tg_sharing, each in a module of its crate's name; those of calls that
//! lack memory are in one that ends in `_growths`. They are in one crate because the gate proves a crate once more for
//! its tests, and loads all that it depends on: here it does so once. tg_collect has its tests in the crate itself, as
//! they look at what it does not show.
#![tactic(auto)]

#[cfg(test)]
mod audit;
#[cfg(test)]
mod audit_growths;
#[cfg(test)]
mod audit_histories;
#[cfg(test)]
mod audit_logs;
pub mod cases;
#[cfg(test)]
mod cells;
#[cfg(test)]
mod graph;
#[cfg(test)]
mod graph_growths;
#[cfg(test)]
mod heap;
#[cfg(test)]
mod heap_scripts;
#[cfg(test)]
mod index;
#[cfg(test)]
mod rights;
#[cfg(test)]
mod sharing;
#[cfg(test)]
mod sharing_cases;
#[cfg(test)]
mod slots;
#[cfg(test)]
mod vault;
#[cfg(test)]
mod vault_agents;
#[cfg(test)]
mod vault_cases;
#[cfg(test)]
mod vault_growths;
#[cfg(test)]
mod vault_rebase;
#[cfg(test)]
mod vault_run_growths;
#[cfg(test)]
mod vault_runs;
#[cfg(test)]
mod vault_scene;
