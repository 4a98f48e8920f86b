//! A vault that is closed, rebased and shared again.
ghost use Rattle.std.specs.Prelude.{◌≡◌, []};
ghost use Rattle.tg_share.specs.declared.locked.TheConstants.{PARTS};
ghost use Rattle.tg_talk_tests.specs.Inner.Fresh.{IsBlank};

use crate::sharing::{Board, Stage, agreed_vault, both, closed, opened};
use std::alloc::{AllocError, Global};
use std::marker::Brand;
use std::process::Abort;
use std::rt::Clock;
use std::sync::Wait;
use std::sync::ledger::{Blank, Ledger};
use std::thread;
use std::thread::Threads;
use tg_audit::Settled;
use tg_share::{Closed, Ended, Open, PARTS, Shared};
use tg_tests::cases::{Ask, Asked, TAKING, Want};
use tg_vault::{Rebased, Vault};

/// Alice makes two documents, one of which she drops.
const FIRST: &[Asked] = &[
    (Ask::Document("rw"), Want::Created(3)),
    (Ask::Write(3, "hi"), Want::Done),
    (Ask::Document("r"), Want::Created(4)),
    (Ask::Remove("r", 4), Want::Done),
];

/// The other one is there in the next round, and no serial is given again.
const SECOND: &[Asked] = &[
    (Ask::Read(3), Want::Text("hi")),
    (Ask::Read(4), Want::Lacks(1, 4, "r")),
    (Ask::Document("r"), Want::Created(5)),
    (Ask::Look(1), Want::Edges(&[(2, "t"), (3, "rw"), (5, "r")])),
];

const LOOKED: &[Asked] = &[(Ask::Look(2), Want::Edges(&[]))];

/// Some steps of the collector, and then a session of bob.
fn look<L: Ledger, R: Wait + Clock>(stage: &Stage<'_, L, R>) -> Option<Ended<L>> {
    let _worked = stage.collect(40, &Open);
    stage.play(1, "bob", LOOKED, &Open)
}

/// A session of alice in this round.
fn ask<L: Ledger, R: Wait + Clock>(stage: &Stage<'_, L, R>, round: u64) -> Option<Ended<L>> {
    let lines = if round == 1 { FIRST } else { SECOND };
    stage.play(0, "alice", lines, &Open)
}

/// Both at once.
fn ask_and_look<L: Ledger + Send + Sync, R: Threads + Wait + Clock + Sync>(
    stage: &Stage<'_, L, R>,
    round: u64,
) -> (Option<Ended<L>>, Option<Ended<L>>) {
    thread::join(stage.rt, || ask(stage, round), || look(stage))
}

/// The vault, if the logs agree and all sessions were counted.
fn counted_vault(settled: Settled, counted: bool) -> Option<Vault> {
    let vault = agreed_vault(settled);
    if counted {
        return vault;
    }
    drop(vault);
    None
}

/// Closes, and takes the vault out, if the logs agree and all sessions were counted.
fn reclaim<L: Ledger>(shared: Shared<L>, ended: Vec<Ended<L>>) -> Option<Vault>
    requires { L.parts ≡ PARTS }
{
    match closed(shared, ended) {
        Closed::Done { settled, counted } => counted_vault(settled, counted),
        Closed::NoRoom { shared, ended } => {
            drop(shared);
            drop(ended);
            None
        }
    }
}

/// The vault after this round, if the logs agree.
fn play_round<L: Ledger + Send + Sync, R: Threads + Wait + Clock + Sync>(
    rt: &R,
    alloc: Global,
    blank: Blank,
    vault: Vault,
    round: u64,
) -> Option<Vault>
    requires { IsBlank L.name L.parts blank vault.history }
{
    let board = Board::new();
    let shared = Shared::<L>::new(alloc, blank, vault);
    let stage = Stage::new(rt, alloc, &shared, &board);
    let (alice, bob) = ask_and_look(&stage, round);
    match both(alloc, alice, bob) {
        Some(ended) => reclaim(shared, ended),
        None => None,
    }
}

/// The vault after a rebase, which drops so many entries.
fn rebased(rt: &impl Abort, vault: Vault, entries: u64) -> Vault
    ensures { result.history ≡ [] }
{
    match vault.rebase() {
        Rebased::Fresh { vault, dropped } => {
            assert!(rt; dropped == entries);
            vault
        }
        Rebased::Seated { .. } => panic!(rt; "seated"),
        Rebased::NoMemory { .. } => panic!(rt; "no memory"),
    }
}

/// A vault can be shared again once it was rebased; the logs of the second round alone are settled with its history.
#[test]
fn a_second_round_begins_with_what_lives(rt: HostRuntime) -> Result<(), AllocError> {
    let vault = opened(&rt, rt.alloc(), &TAKING)?;
    let first = play_round::<Brand, _>(&rt, rt.alloc(), Blank::new(PARTS), vault, 1);
    let fresh = rebased(&rt, first.expect(&rt, "not settled"), 5);
    let second = play_round::<Brand, _>(&rt, rt.alloc(), Blank::new(PARTS), fresh, 2);
    let last = second.expect(&rt, "not settled");
    assert!(rt; last.count() == 5);
    Ok(())
}
