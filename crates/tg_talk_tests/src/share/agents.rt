//! A session that acts for an agent, while another one removes the last edge to it.
ghost use Rattle.std.specs.Prelude.{◌≡◌};
ghost use Rattle.tg_share.specs.declared.locked.TheConstants.{PARTS};
ghost use Rattle.tg_talk_tests.specs.Inner.Fresh.{IsBlank};

use crate::sharing::{Board, HoldsAt, Stage, both, close, opened};
use std::alloc::{AllocError, Global};
use std::marker::Brand;
use std::rt::Clock;
use std::sync::Wait;
use std::sync::atomic::Ordering;
use std::sync::ledger::{Blank, Ledger};
use std::thread;
use std::thread::Threads;
use tg_audit::Exchange;
use tg_share::{Ended, Open, PARTS, Shared, Worked};
use tg_tests::cases::{Ask, Asked, Opening, TWO, Want};
use tg_vault::Vault;

/// Alice and bob, with a slot for the agent and one for its document.
const TWO_MORE: Opening = Opening {
    slots: 4,
    cells: 4,
    ..TWO
};

/// Alice makes a subject and acts for it, and it makes a document and reads it.
const ACTED: &[Asked] = &[
    (Ask::Subject("tg"), Want::Created(3)),
    (Ask::Assume(3), Want::Done),
    (Ask::Document("r"), Want::Created(4)),
    (Ask::Read(4), Want::Text("")),
    (Ask::Look(3), Want::Edges(&[(4, "r")])),
];

const REMOVED: &[Asked] = &[(Ask::Remove("tg", 3), Want::Done)];

/// The session in which alice acts for the agent is held with the agent's document.
fn act_held<L: Ledger, R: Wait + Clock>(stage: &Stage<'_, L, R>) -> Option<Ended<L>> {
    let gate = HoldsAt {
        board: stage.board,
        pause: 2,
    };
    stage.play(0, "alice", ACTED, &gate)
}

/// Meanwhile alice removes her edge to the agent in another session, and the collector makes two cycles of 1 + 3 * 2 +
/// 3 + 1 + 4 + 1 = 16 steps: the agent has an edge.
fn remove_meanwhile<L: Ledger, R: Wait + Clock>(
    stage: &Stage<'_, L, R>,
) -> (Option<Ended<L>>, Worked) {
    stage.wait(|board| board.is_held.load(Ordering::SeqCst));
    let ended = stage.play(2, "alice", REMOVED, &Open);
    let worked = stage.collect(32, &Open);
    stage.board.is_released.store(true, Ordering::SeqCst);
    (ended, worked)
}

fn act_and_remove<L: Ledger + Send + Sync, R: Threads + Wait + Clock + Sync>(
    stage: &Stage<'_, L, R>,
) -> (Option<Ended<L>>, (Option<Ended<L>>, Worked)) {
    thread::join(stage.rt, || act_held(stage), || remove_meanwhile(stage))
}

/// Whether the log names alice twice, and then the agent.
fn names_agent(exchanges: &[Exchange]) -> bool {
    match exchanges {
        [made, assumed, first, second, third] => {
            let agents = (first.actor, second.actor, third.actor);
            (made.actor, assumed.actor) == (1, 1) && agents == (3, 3, 3)
        }
        _ => false,
    }
}

/// Whose name the agent's first exchange has when the logs are settled.
#[derive(Clone, Copy)]
enum Named {
    Agent,
    Principal,
}

/// The end of the session with the agent's first exchange in this name; none if the log does not name the agent.
fn renamed<L: Ledger>(ended: Option<Ended<L>>, named: Named) -> Option<Ended<L>> {
    let mut ended = ended?;
    if !names_agent(ended.log.exchanges.as_slice()) {
        return None;
    }
    if matches!(named, Named::Principal) {
        if let Some(exchange) = ended.log.exchanges.get_mut(2) {
            exchange.actor = 1;
        }
    }
    Some(ended)
}

/// Where the logs differ from the history, if they do, and whether all sessions were counted; none without their ends.
fn found<L: Ledger>(
    shared: Shared<L>,
    ended: Option<Vec<Ended<L>>>,
) -> Option<(Option<(u64, u64)>, bool)>
    requires { L.parts ≡ PARTS }
{
    match ended {
        Some(ended) => close(shared, ended).found,
        None => None,
    }
}

/// What the collector did meanwhile, and what is found in the end.
fn act_for_agent<L: Ledger + Send + Sync, R: Threads + Wait + Clock + Sync>(
    rt: &R,
    alloc: Global,
    blank: Blank,
    vault: Vault,
    named: Named,
) -> (Worked, Option<(Option<(u64, u64)>, bool)>)
    requires { IsBlank L.name L.parts blank vault.history }
{
    let board = Board::new();
    let shared = Shared::<L>::new(alloc, blank, vault);
    let stage = Stage::new(rt, alloc, &shared, &board);
    let (first, (second, worked)) = act_and_remove(&stage);
    let ended = board.in_time(both(alloc, renamed(first, named), second));
    (worked, found(shared, ended))
}

/// An agent to which no edge leads any more lives while a seat acts for it, and so does what it makes. The log of the
/// session names the agent from its first command on, and does not agree with the history if it names the principal.
#[test]
fn an_agent_outlives_its_last_edge(rt: HostRuntime) -> Result<(), AllocError> {
    for (named, place) in [(Named::Agent, None), (Named::Principal, Some((0, 2)))] {
        let vault = opened(&rt, rt.alloc(), &TWO_MORE)?;
        let done = act_for_agent::<Brand, _>(&rt, rt.alloc(), Blank::new(PARTS), vault, named);
        assert_eq!(rt; done, (Worked { freed: 0, ended: 2 }, Some((place, true))));
    }
    Ok(())
}
