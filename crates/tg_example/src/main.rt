//! The vault as a library: alice shares a document with bob, both give it up, and its slot is freed.
#![tactic(auto)]

use std::alloc::Global;
use std::process::ExitCode;
use tg_graph::Config;
use tg_rights::{Command, Kind, Rights, Word};
use tg_vault::Vault;

/// A vault of alice (1) and bob (2), with g from alice to bob, three slots and four cells.
fn opened(alloc: Global) -> Option<Vault> {
    let mut principals = Vec::new(alloc);
    for name in ["alice", "bob"] {
        let word = Word::new(String::from_str(alloc, name).ok()?);
        principals.push(word).ok()?;
    }
    let mut edges = Vec::new(alloc);
    edges.push((1, Rights::grant(), 2)).ok()?;
    let config = Config {
        principals,
        edges,
        next: 3,
        slots: 3,
        cells: 4,
    };
    Vault::new(alloc, config).ok()
}

/// Asks the command at the seat, prints the reply, and shades the seat's pending target, if there is one.
fn ask(rt: &HostRuntime, vault: &mut Vault, seat: u64, command: Command) -> Option<Option<u64>> {
    let (number, reply) = vault.command(seat, command).ok()?;
    println!(rt; "{number}: {reply:?}").ok()?;
    vault.shade(seat).ok()
}

/// The story; `None` if a call fails.
fn play(rt: &HostRuntime, vault: &mut Vault) -> Option<()> {
    let (rights, kind) = (Rights::read(), Kind::Document);
    vault.hello(0, "alice").ok()?;
    let bob = vault.hello(1, "bob").ok()?;
    let over = ask(rt, vault, 0, Command::create(kind, rights))??;
    ask(rt, vault, 1, Command::read(over))?;
    ask(rt, vault, 0, Command::grant(rights, over, bob))?;
    ask(rt, vault, 1, Command::read(over))?;
    ask(rt, vault, 0, Command::remove(rights, over))?;
    ask(rt, vault, 1, Command::remove(rights, over))?;
    for _ in 0..2 {
        let swept = vault.cycle();
        println!(rt; "{} freed in {} steps", swept.freed, swept.steps).ok()?;
    }
    Some(())
}

/// Opens a vault, and plays the story in it.
fn open_and_play(rt: &HostRuntime) -> Option<()> {
    let mut vault = opened(rt.alloc())?;
    play(rt, &mut vault)
}

fn main(rt: HostRuntime) -> ExitCode {
    match open_and_play(&rt) {
        Some(()) => ExitCode::SUCCESS,
        None => ExitCode::FAILURE,
    }
}
