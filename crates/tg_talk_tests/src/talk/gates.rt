//! A talk hands its gate to its session, and makes no step of the collector.
ghost use Rattle.tg_talk_tests.specs.Inner.Fresh.{IsBlank};

use super::{LINES, opened};
use crate::sharing::{Pauses, Tally};
use std::alloc::{AllocError, Global};
use std::marker::Brand;
use std::rt::Clock;
use std::sync::Wait;
use std::sync::ledger::{Blank, Ledger};
use tg_share::{Open, PARTS, Shared, Worked};
use tg_talk::{Watched, buffered, talk};
use tg_vault::Vault;

/// What a gate is told in a talk, and what the collector does behind it in eighteen steps, and in one more.
fn talk_counted<L: Ledger, R: Wait + Clock>(
    rt: &R,
    alloc: Global,
    blank: Blank,
    vault: Vault,
) -> Result<(Pauses, Worked, Worked), AllocError>
    requires { IsBlank L.name L.parts blank vault.history }
{
    let shared = Shared::<L>::new(alloc, blank, vault);
    let gate = Tally::new();
    let mut out = Vec::new(alloc);
    let mut writer = buffered(alloc, &mut out)?;
    let mut reader = Watched::new(LINES);
    let talked = talk(rt, alloc, &mut reader, &mut writer, &shared, 0, &gate);
    drop(talked);
    let worked = shared.collector(rt, 18, &Open);
    let last = shared.collector(rt, 1, &Open);
    Ok((gate.pauses(), worked, last))
}

/// A create and a read are entered. Then alice has two edges, so a cycle has 1 + 4 + 2 * 2 + 1 + 8 + 1 = 19 steps.
#[test]
fn a_talk_is_gated(rt: HostRuntime) -> Result<(), AllocError> {
    let vault = opened(rt.alloc()).ok_or(AllocError)?;
    let (pauses, worked, last) = talk_counted::<Brand, _>(
        &rt,
        rt.alloc(),
        Blank::new(PARTS),
        vault,
    )?;
    let told = Pauses {
        after_store: 2,
        entries: 2,
        created: 1,
        early: 0,
        between_steps: 0,
    };
    assert_eq!(rt; pauses, told);
    assert_eq!(rt; worked, Worked { freed: 0, ended: 0 });
    assert_eq!(rt; last, Worked { freed: 0, ended: 1 });
    Ok(())
}
