//! A take, while the edge that it went by is removed, in the middle of a marking.
ghost use Rattle.tg_talk_tests.specs.Inner.Fresh.{IsBlank};

use crate::sharing::{Board, Holds, HoldsAt, Stage, agreed, are_told, both, opened};
use std::alloc::{AllocError, Global};
use std::marker::Brand;
use std::rt::Clock;
use std::sync::Wait;
use std::sync::atomic::Ordering;
use std::sync::ledger::{Blank, Ledger};
use std::thread;
use std::thread::Threads;
use tg_share::{Ended, Open, PARTS, Shared, Worked};
use tg_tests::cases::{Ask, Asked, Opening, TAKING_AND_GRANTING, Want};
use tg_vault::Vault;

const MADE: &[Asked] = &[
    (Ask::Document("rw"), Want::Created(3)),
    (Ask::Write(3, "hi"), Want::Done),
];

const TAKEN: &[Asked] = &[
    (Ask::Take("r", 3, 2), Want::Done),
    (Ask::Read(3), Want::Text("hi")),
];

const REMOVED: &[Asked] = &[(Ask::Remove("rw", 3), Want::Done)];

/// Alice takes the right to read bob's document, is held with it until the collector has paused 101 times, and reads
/// it.
fn take_held<L: Ledger, R: Wait + Clock>(stage: &Stage<'_, L, R>) -> Option<Ended<L>> {
    stage.wait(|board| board.is_prepared.load(Ordering::SeqCst));
    let gate = Holds {
        board: stage.board,
        pauses: 101,
    };
    stage.play(0, "alice", TAKEN, &gate)
}

/// Bob creates his document, and the collector goes through a cycle and on until alice is black. Once the collector has
/// gone on and is held, with its cursor at bob's edge to the document, he removes that edge. Returns his end, and what
/// the collector did at first.
fn remove_meanwhile<L: Ledger, R: Wait + Clock>(
    stage: &Stage<'_, L, R>,
) -> Option<(Ended<L>, Worked)> {
    let Ok(mut bob) = stage.shared.session(stage.rt, stage.alloc, 1, "bob") else {
        return None;
    };
    let made = are_told(stage.rt, stage.alloc, &mut bob, MADE, &Open);
    let worked = stage.collect(18, &Open);
    stage.board.is_prepared.store(true, Ordering::SeqCst);
    stage.wait(|board| board.pauses.load(Ordering::SeqCst) > 0);
    let removed = are_told(stage.rt, stage.alloc, &mut bob, REMOVED, &Open);
    stage.board.is_released.store(true, Ordering::SeqCst);
    let ended = bob.end(stage.rt);
    if matches!(made, Ok(true)) && matches!(removed, Ok(true)) {
        Some((ended, worked))
    } else {
        None
    }
}

/// Once alice is held, the collector goes on through the rest of its cycle and further ones.
fn collect_on<L: Ledger, R: Wait + Clock>(stage: &Stage<'_, L, R>) -> Worked {
    stage.wait(|board| board.is_held.load(Ordering::SeqCst));
    let gate = HoldsAt {
        board: stage.board,
        pause: 0,
    };
    stage.collect(102, &gate)
}

fn take_and_remove<L: Ledger + Send + Sync, R: Threads + Wait + Clock + Sync>(
    stage: &Stage<'_, L, R>,
) -> (Option<Ended<L>>, Option<(Ended<L>, Worked)>) {
    thread::join(stage.rt, || take_held(stage), || remove_meanwhile(stage))
}

fn take_remove_and_collect<L: Ledger + Send + Sync, R: Threads + Wait + Clock + Sync>(
    stage: &Stage<'_, L, R>,
) -> ((Option<Ended<L>>, Option<(Ended<L>, Worked)>), Worked) {
    thread::join(stage.rt, || take_and_remove(stage), || collect_on(stage))
}

/// What the collector did at first, and how many entries there are in the end, if all replies are as worked out.
fn race<L: Ledger + Send + Sync, R: Threads + Wait + Clock + Sync>(
    rt: &R,
    alloc: Global,
    blank: Blank,
    vault: Vault,
) -> (Option<Worked>, Option<u64>)
    requires { IsBlank L.name L.parts blank vault.history }
{
    let board = Board::new();
    let shared = Shared::<L>::new(alloc, blank, vault);
    let stage = Stage::new(rt, alloc, &shared, &board);
    let ((alice, bob), _) = take_remove_and_collect(&stage);
    let (bob, worked) = bob.unzip();
    let ended = board.in_time(both(alloc, alice, bob));
    (worked, agreed(shared, ended))
}

/// Alice may take from bob and grant to him, with one slot for a document.
const SMALL: Opening = Opening {
    slots: 3,
    ..TAKING_AND_GRANTING
};

/// When the collector has scanned alice and not yet bob, she takes a right over a white document of his, and he removes
/// the only other edge to it before she has shaded it: she can read it when that cycle and further ones have ended.
#[test]
fn take_while_the_other_edge_is_removed(rt: HostRuntime) -> Result<(), AllocError> {
    let vault = opened(&rt, rt.alloc(), &SMALL)?;
    let done = race::<Brand, _>(&rt, rt.alloc(), Blank::new(PARTS), vault);
    assert_eq!(rt; done, (Some(Worked { freed: 0, ended: 1 }), Some(5)));
    Ok(())
}
