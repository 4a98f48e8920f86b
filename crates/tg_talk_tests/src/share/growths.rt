//! Calls that lack memory and are made again: tests/faults/growths.py makes each allocation of these tests fail in
//! turn. A session that gets another reply ends a test like preparations that lack memory; if memory ran out before,
//! that shows.
ghost use Rattle.std.specs.Prelude.{◌≡◌};
ghost use Rattle.tg_share.specs.declared.locked.TheConstants.{PARTS};
ghost use Rattle.tg_talk_tests.specs.Inner.Fresh.{IsBlank};

use crate::share::{ALONE, CREATED};
use crate::sharing::{Pauses, Tally, agreed, agreed_vault, both, one, opened, play, told};
use std::alloc::{AllocError, Global};
use std::io::Print;
use std::marker::Brand;
use std::rt::Clock;
use std::sync::Wait;
use std::sync::ledger::{Blank, Ledger};
use tg_audit::{SeatLog, Settled, settle};
use tg_share::{Closed, Ended, Open, PARTS, Session, Shared};
use tg_tests::cases::{Ask, Asked, TAKING, Want};
use tg_vault::Vault;

/// Whether the session's commands get the replies of `ALONE`, line by line. If memory runs out it asks again.
fn are_told_again<L: Ledger, R: Wait + Clock + Print>(
    rt: &R,
    alloc: Global,
    session: &mut Session<'_, L>,
    gate: &Tally,
) -> Result<bool, AllocError> {
    for (ask, want) in ALONE {
        let mut is_told = told(rt, alloc, session, *ask, *want, gate)?;
        if is_told.is_none() {
            let _ = rt.println("no memory");
            is_told = told(rt, alloc, session, *ask, *want, gate)?;
        }
        if is_told != Some(true) {
            return Ok(false);
        }
    }
    Ok(true)
}

/// How many entries there are after a session of alice, who asks again if memory runs out, and how many times she
/// paused at each place.
fn play_again<L: Ledger, R: Wait + Clock + Print>(
    rt: &R,
    alloc: Global,
    blank: Blank,
    vault: Vault,
) -> Option<(u64, Pauses)>
    requires { IsBlank L.name L.parts blank vault.history }
{
    let shared = Shared::<L>::new(alloc, blank, vault);
    let Ok(mut alice) = shared.session(rt, alloc, 0, "alice") else {
        return None;
    };
    let gate = Tally::new();
    let told = are_told_again(rt, alloc, &mut alice, &gate);
    let alice = alice.end(rt);
    let alice = matches!(told, Ok(true)).then_some(alice);
    agreed(shared, one(alloc, alice)).zip(Some(gate.pauses()))
}

/// One of the lines is a create.
const PAUSES: Pauses = Pauses {
    after_store: 8,
    entries: 8,
    created: 1,
    early: 0,
    between_steps: 0,
};

/// A submit that lacks memory enters nothing, in the history or in the log, and does not pause: in the end they agree,
/// with one entry and one pause for each line.
#[test]
fn growth_refused_in_a_submit(rt: HostRuntime) -> Result<(), AllocError> {
    let vault = opened(&rt, rt.alloc(), &TAKING)?;
    let done = play_again::<Brand, _>(&rt, rt.alloc(), Blank::new(PARTS), vault);
    let (entries, pauses) = done.ok_or(AllocError)?;
    assert_eq!(rt; entries, 8);
    assert_eq!(rt; pauses, PAUSES);
    Ok(())
}

/// Whether these are the ends of a session of alice and one of bob, with one exchange each.
fn are_both<L: Ledger>(ended: &[Ended<L>]) -> bool {
    match ended {
        [alice, bob] => {
            let one_each = alice.log.exchanges.len() == 1 && bob.log.exchanges.len() == 1;
            (alice.actor, bob.actor) == (1, 2) && one_each
        }
        _ => false,
    }
}

/// Whether these are their logs, and the vault has the two entries.
fn are_their_logs(vault: &Vault, logs: &[SeatLog]) -> bool {
    match logs {
        [alice, bob] => {
            let one_each = alice.exchanges.len() == 1 && bob.exchanges.len() == 1;
            (alice.seat, bob.seat) == (0, 1) && one_each && vault.count() == 2
        }
        _ => false,
    }
}

/// The result of settling. If memory runs out, vault and logs are returned, and settled again.
fn settled_again<R: Print>(rt: &R, alloc: Global, settled: Settled) -> Settled {
    match settled {
        Settled::NoMemory { vault, logs } => {
            let _ = rt.println("no memory");
            if are_their_logs(&vault, &logs) {
                settle(alloc, vault, logs)
            } else {
                Settled::NoMemory { vault, logs }
            }
        }
        settled => settled,
    }
}

/// How many entries there are, if the logs agree and all sessions were counted, settled again if memory ran out.
fn count_after<R: Print>(rt: &R, alloc: Global, settled: Settled, counted: bool) -> Option<u64> {
    let settled = settled_again(rt, alloc, settled);
    match agreed_vault(settled) {
        Some(vault) => { if counted { Some(vault.count()) } else { None } }
        None => None,
    }
}

/// The same for a vault that is closed again, if both ends were returned.
fn closed_at_last<L: Ledger, R: Print>(
    rt: &R,
    shared: Shared<L>,
    ended: Vec<Ended<L>>,
) -> Option<u64>
    requires { L.parts ≡ PARTS }
{
    let _ = rt.println("no memory");
    let ended = are_both(&ended).then_some(ended);
    agreed(shared, ended)
}

/// How many entries there are, if the logs agree and all sessions were counted. If there is no room for the list of
/// logs, everything is returned, and closed again.
fn closed_again<L: Ledger, R: Print>(
    rt: &R,
    alloc: Global,
    shared: Shared<L>,
    ended: Vec<Ended<L>>,
) -> Option<u64>
    requires { L.parts ≡ PARTS }
{
    match shared.close(ended) {
        Closed::Done { settled, counted } => count_after(rt, alloc, settled, counted),
        Closed::NoRoom { shared, ended } => closed_at_last(rt, shared, ended),
    }
}

const LOOKED: Asked = (Ask::Look(2), Want::Edges(&[]));

/// How many entries there are after a session of alice, who creates a document, and one of bob, who looks at himself.
fn close_again<L: Ledger, R: Wait + Clock + Print>(
    rt: &R,
    alloc: Global,
    blank: Blank,
    vault: Vault,
) -> Option<u64>
    requires { IsBlank L.name L.parts blank vault.history }
{
    let shared = Shared::<L>::new(alloc, blank, vault);
    let alice = play(rt, alloc, &shared, 0, "alice", &[CREATED], &Open);
    let bob = play(rt, alloc, &shared, 1, "bob", &[LOOKED], &Open);
    let ended = both(alloc, alice, bob)?;
    closed_again(rt, alloc, shared, ended)
}

/// A close that lacks memory returns the vault with the ends or with the logs.
#[test]
fn growth_refused_in_a_close(rt: HostRuntime) -> Result<(), AllocError> {
    let vault = opened(&rt, rt.alloc(), &TAKING)?;
    let count = close_again::<Brand, _>(&rt, rt.alloc(), Blank::new(PARTS), vault);
    assert_eq!(rt; count.ok_or(AllocError)?, 2);
    Ok(())
}
