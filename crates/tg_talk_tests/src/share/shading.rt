//! When a target is shaded: behind the gate, and before the answer.
ghost use Rattle.tg_talk_tests.specs.Inner.Fresh.{IsBlank};

use crate::share::{CREATED, REMOVED};
use crate::sharing::{agreed, both, opened, play, told};
use std::alloc::{AllocError, Global};
use std::marker::Brand;
use std::rt::Clock;
use std::sync::Wait;
use std::sync::atomic::{AtomicU64, Ordering};
use std::sync::ledger::{Blank, Ledger};
use tg_rights::{Command, Reply};
use tg_share::{Gate, Open, PARTS, Place, Shared, Worked};
use tg_tests::cases::ONE_MORE;
use tg_vault::Vault;

/// What the collector does in two cycles once a session of alice has been told of its document, and stays, and another
/// one has removed it; and how many entries there are once both have ended, if all replies are as worked out.
fn collect_beside<L: Ledger, R: Wait + Clock>(
    rt: &R,
    alloc: Global,
    blank: Blank,
    vault: Vault,
) -> Option<(Worked, Option<u64>)>
    requires { IsBlank L.name L.parts blank vault.history }
{
    let shared = Shared::<L>::new(alloc, blank, vault);
    let (worked, first, second) = {
        let mut staying = shared.session(rt, alloc, 0, "alice").ok()?;
        let created = told(rt, alloc, &mut staying, CREATED.0, CREATED.1, &Open);
        let second = play(rt, alloc, &shared, 2, "alice", &[REMOVED], &Open);
        let worked = shared.collector(rt, 22, &Open);
        let first = staying.end(rt);
        let is_told = matches!(created, Ok(Some(true)));
        (worked, is_told.then_some(first), second)
    };
    Some((worked, agreed(shared, both(alloc, first, second))))
}

/// A document is shaded before its create is answered: though its session goes on, it is freed once it has been
/// removed.
#[test]
fn a_target_is_shaded_before_the_answer(rt: HostRuntime) -> Result<(), AllocError> {
    let vault = opened(&rt, rt.alloc(), &ONE_MORE)?;
    let done = collect_beside::<Brand, _>(&rt, rt.alloc(), Blank::new(PARTS), vault);
    assert_eq!(rt; done, Some((Worked { freed: 1, ended: 2 }, Some(2))));
    Ok(())
}

/// Once it is told of a new vertex, has another session remove it and the collector end two cycles, and notes what
/// these did.
#[derive(Drop)]
struct Removes<'a, L: Ledger> {
    shared: &'a Shared<L>,
    alloc: Global,
    freed: AtomicU64,
    ended: AtomicU64,
}

impl<L: Ledger> Gate for Removes<'_, L> {
    fn pause<R: Wait + Clock>(&self, _rt: &R, _place: Place) {}

    fn after_entry<R: Wait + Clock>(&self, rt: &R, _command: &Command, reply: &Reply) {
        if !matches!(reply, Reply::Created(_)) {
            return;
        }
        let removed = play(rt, self.alloc, self.shared, 2, "alice", &[REMOVED], &Open);
        if removed.is_none() {
            return;
        }
        let worked = self.shared.collector(rt, 26, &Open);
        self.freed.fetch_add(worked.freed, Ordering::SeqCst);
        self.ended.fetch_add(worked.ended, Ordering::SeqCst);
    }
}

/// What the collector does while a gate is told of a create.
fn collect_in_the_gate<L: Ledger, R: Wait + Clock>(
    rt: &R,
    alloc: Global,
    blank: Blank,
    vault: Vault,
) -> (bool, u64, u64)
    requires { IsBlank L.name L.parts blank vault.history }
{
    let shared = Shared::<L>::new(alloc, blank, vault);
    let gate = Removes {
        shared: &shared,
        alloc,
        freed: AtomicU64::new(0),
        ended: AtomicU64::new(0),
    };
    let alice = play(rt, alloc, &shared, 0, "alice", &[CREATED], &gate);
    (
        alice.is_some(),
        gate.freed.load(Ordering::SeqCst),
        gate.ended.load(Ordering::SeqCst),
    )
}

/// A gate is told of an entry before its target is shaded: the target is a root, so two cycles do not free it, though
/// no edge leads to it any more.
#[test]
fn a_target_is_a_root_in_the_gate(rt: HostRuntime) -> Result<(), AllocError> {
    let vault = opened(&rt, rt.alloc(), &ONE_MORE)?;
    let done = collect_in_the_gate::<Brand, _>(&rt, rt.alloc(), Blank::new(PARTS), vault);
    assert_eq!(rt; done, (true, 0, 2));
    Ok(())
}
