//! Sessions that are held with their target, between the store and the shade.
ghost use Rattle.tg_talk_tests.specs.Inner.Fresh.{IsBlank};

use crate::share::{CREATED, REMOVED};
use crate::sharing::{Board, Counts, Holds, Stage, agreed, both, one, opened, with_one};
use std::alloc::{AllocError, Global};
use std::marker::Brand;
use std::rt::Clock;
use std::sync::Wait;
use std::sync::atomic::Ordering;
use std::sync::ledger::{Blank, Ledger};
use std::thread;
use std::thread::Threads;
use tg_share::{Ended, Open, PARTS, Shared, Worked};
use tg_tests::cases::{Ask, Asked, ONE_MORE, TAKING, Want};
use tg_vault::Vault;

/// Alice creates a document on the seat, and is held with it.
fn create_held<L: Ledger, R: Wait + Clock>(
    stage: &Stage<'_, L, R>,
    seat: u64,
    pauses: u64,
) -> Option<Ended<L>> {
    let gate = Holds {
        board: stage.board,
        pauses,
    };
    stage.play(seat, "alice", &[CREATED], &gate)
}

/// Bob looks at himself once alice is held, and releases her.
fn look_meanwhile<L: Ledger, R: Wait + Clock>(stage: &Stage<'_, L, R>) -> Option<Ended<L>> {
    stage.wait(|board| board.is_held.load(Ordering::SeqCst));
    let lines = [(Ask::Look(2), Want::Edges(&[]))];
    let ended = stage.play(1, "bob", &lines, &Open);
    stage.board.is_released.store(true, Ordering::SeqCst);
    ended
}

fn collect_counted<L: Ledger, R: Wait + Clock>(stage: &Stage<'_, L, R>, steps: u64) -> Worked {
    let gate = Counts { board: stage.board };
    stage.collect(steps, &gate)
}

fn create_and_look<L: Ledger + Send + Sync, R: Threads + Wait + Clock + Sync>(
    stage: &Stage<'_, L, R>,
) -> (Option<Ended<L>>, Option<Ended<L>>) {
    thread::join(
        stage.rt,
        || create_held(stage, 0, 100),
        || look_meanwhile(stage),
    )
}

fn create_look_and_collect<L: Ledger + Send + Sync, R: Threads + Wait + Clock + Sync>(
    stage: &Stage<'_, L, R>,
) -> ((Option<Ended<L>>, Option<Ended<L>>), Worked) {
    thread::join(
        stage.rt,
        || create_and_look(stage),
        || collect_counted(stage, 101),
    )
}

/// How many entries there are in the end, if all replies are as worked out, and how many times the collector paused.
fn hold_a_create<L: Ledger + Send + Sync, R: Threads + Wait + Clock + Sync>(
    rt: &R,
    alloc: Global,
    blank: Blank,
    vault: Vault,
) -> (Option<u64>, u64)
    requires { IsBlank L.name L.parts blank vault.history }
{
    let board = Board::new();
    let shared = Shared::<L>::new(alloc, blank, vault);
    let stage = Stage::new(rt, alloc, &shared, &board);
    let ((alice, bob), _) = create_look_and_collect(&stage);
    let ended = board.in_time(both(alloc, alice, bob));
    let pauses = board.pauses.load(Ordering::SeqCst);
    (agreed(shared, ended), pauses)
}

/// Alice is held between the store and the shade until bob has his reply and the collector has made 100 steps: so the
/// lock is free. The collector pauses after each of its 101 steps but the last.
#[test]
fn held_create(rt: HostRuntime) -> Result<(), AllocError> {
    let vault = opened(&rt, rt.alloc(), &TAKING)?;
    let done = hold_a_create::<Brand, _>(&rt, rt.alloc(), Blank::new(PARTS), vault);
    assert_eq!(rt; done, (Some(2), 100));
    Ok(())
}

/// The seat of a session that is held with its target. The other seats below `others` have a session meanwhile.
#[derive(Clone, Copy)]
struct Seats {
    held: u64,
    others: u64,
}

const LOOKED: Asked = (Ask::Look(1), Want::Edges(&[]));

/// Alice, who has no edges, looks at herself on each of the other seats in turn. None if she gets another reply.
fn look_from_others<L: Ledger, R: Wait + Clock>(
    stage: &Stage<'_, L, R>,
    seats: Seats,
    ended: &mut Vec<Ended<L>>,
) -> Option<()> {
    for seat in 0..seats.others {
        if seat != seats.held {
            let looked = stage.play(seat, "alice", &[LOOKED], &Open)?;
            ended.push(looked).ok()?;
        }
    }
    Some(())
}

/// Alice removes her document, and then looks at herself on each of the other seats.
fn remove_and_look<L: Ledger, R: Wait + Clock>(
    stage: &Stage<'_, L, R>,
    seats: Seats,
) -> Option<Vec<Ended<L>>> {
    let removed = stage.play(2, "alice", &[REMOVED], &Open);
    let mut ended = one(stage.alloc, removed)?;
    look_from_others(stage, seats, &mut ended)?;
    Some(ended)
}

/// Once the first session of alice is held with its document, her other ones have their turns, and the collector ends
/// two cycles.
fn remove_meanwhile<L: Ledger, R: Wait + Clock>(
    stage: &Stage<'_, L, R>,
    seats: Seats,
) -> (Option<Vec<Ended<L>>>, Worked) {
    stage.wait(|board| board.is_held.load(Ordering::SeqCst));
    let ended = remove_and_look(stage, seats);
    let worked = stage.collect(26, &Open);
    stage.board.is_released.store(true, Ordering::SeqCst);
    (ended, worked)
}

fn create_and_remove<L: Ledger + Send + Sync, R: Threads + Wait + Clock + Sync>(
    stage: &Stage<'_, L, R>,
    seats: Seats,
) -> (Option<Ended<L>>, (Option<Vec<Ended<L>>>, Worked)) {
    thread::join(
        stage.rt,
        || create_held(stage, seats.held, 0),
        || remove_meanwhile(stage, seats),
    )
}

/// What the collector did while the target was held, and how many entries there are in the end, if they are known.
fn hold_a_target<L: Ledger + Send + Sync, R: Threads + Wait + Clock + Sync>(
    rt: &R,
    alloc: Global,
    blank: Blank,
    vault: Vault,
    seats: Seats,
) -> (Worked, Option<u64>)
    requires { IsBlank L.name L.parts blank vault.history }
{
    let board = Board::new();
    let shared = Shared::<L>::new(alloc, blank, vault);
    let stage = Stage::new(rt, alloc, &shared, &board);
    let (first, (others, worked)) = create_and_remove(&stage, seats);
    let ended = board.in_time(with_one(others, first));
    (worked, agreed(shared, ended))
}

/// A target that is not yet shaded keeps its slot through two cycles, though no edge leads to it; it does so even if
/// each of the 63 other seats has a session meanwhile, which shades what it has itself.
#[test]
fn target_held_through_two_cycles(rt: HostRuntime) -> Result<(), AllocError> {
    for (held, others, entries) in [(0, 0, 2), (31, 64, 65)] {
        let vault = opened(&rt, rt.alloc(), &ONE_MORE)?;
        let seats = Seats { held, others };
        let done = hold_a_target::<Brand, _>(&rt, rt.alloc(), Blank::new(PARTS), vault, seats);
        assert_eq!(rt; done, (Worked { freed: 0, ended: 2 }, Some(entries)));
    }
    Ok(())
}
