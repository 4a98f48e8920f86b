//! The collector's pace, as numbers worked out by hand.

ghost use Rattle.std.specs.Prelude.{◌≡◌, [], IfSome};
ghost use Rattle.tg_share.specs.declared.locked.TheConstants.{PARTS};

use crate::budget::Budget;
use crate::desk::Desk;
use crate::door::Door;
use crate::pace::{Assisting, Pace, assist_steps};
use std::alloc::Global;
use std::io;
use std::marker::Brand;
use std::net::TcpListener;
use std::rt::Clock;
use std::sync::ledger::{Blank, Ledger};
use std::sync::{Mutex, Wait};
use tg_rights::{Command, Kind, Reply, Rights};
use tg_share::{PARTS, Session, Shared, Worked};
use tg_vault::{Room, Vault};
use tg_wire::read_config;

/// So many of a thousand slots are free, and all cells.
fn room(free_slots: u64) -> Room {
    Room {
        slots: 1_000,
        free_slots,
        cells: 4_000,
        free_cells: 4_000,
    }
}

/// Free slots, and the steps that a session makes when it takes another one: eight for each of the thousand slots,
/// shared by those that are free, of which an eighth counts at least.
const ASSISTED: &[(u64, u64)] = &[
    (1_000, 0),
    (500, 0),
    (499, 16),
    (400, 20),
    (250, 32),
    (125, 64),
    (0, 64),
];

#[test]
fn sessions_assist_below_half(rt: HostRuntime) {
    for (free, steps) in ASSISTED {
        assert_eq!(rt; assist_steps(room(*free)), *steps);
    }
}

#[test]
fn cells_are_worth_as_much_as_slots(rt: HostRuntime) {
    let few_cells = Room {
        free_cells: 1_000,
        ..room(400)
    };
    assert_eq!(rt; assist_steps(few_cells), 32);
    let all_slots = Room {
        free_cells: 1_000,
        ..room(1_000)
    };
    assert_eq!(rt; assist_steps(all_slots), 32);
}

/// A turn that ends a cycle and frees nothing.
const FRUITLESS: Worked = Worked { freed: 0, ended: 1 };

/// The first of three cycles may have begun before the last change.
#[test]
fn few_steps_are_made_when_nothing_is_left(rt: HostRuntime) {
    let mut pace = Pace::new(room(400));
    pace.learn(FRUITLESS);
    pace.learn(FRUITLESS);
    assert_eq!(rt; pace.steps(room(400)), 150);
    pace.learn(FRUITLESS);
    assert_eq!(rt; pace.steps(room(400)), 50);
    assert_eq!(rt; pace.steps(room(399)), 150);
}

#[test]
fn what_was_freed_shows_that_more_may_be_left(rt: HostRuntime) {
    let mut pace = Pace::new(room(400));
    pace.learn(FRUITLESS);
    pace.learn(Worked { freed: 1, ended: 1 });
    pace.learn(FRUITLESS);
    assert_eq!(rt; pace.steps(room(400)), 150);
}

const CONFIG: &[u8] = b"{\"principals\":[\"alice\"],\"slots\":256}";

fn opened(alloc: Global) -> Option<Vault>
    ensures { IfSome result (λ vault. vault.history ≡ []) }
{
    let config = read_config(alloc, CONFIG).ok()?;
    Vault::new(alloc, config).ok()
}

/// The serial of a document that the session makes; none if it is refused, as full too.
fn made<L: Ledger, R: Wait + Clock>(
    rt: &R,
    session: &mut Session<'_, L>,
    gate: &Assisting<'_, L>,
) -> Option<u64> {
    let create = Command::create(Kind::Document, Rights::read());
    match session.submit(rt, create, gate) {
        Ok(Reply::Created(serial)) => Some(*serial),
        _ => None,
    }
}

/// How many documents the session makes and drops, one after the other, before one is refused.
fn make_and_drop<L: Ledger, R: Wait + Clock>(
    rt: &R,
    session: &mut Session<'_, L>,
    gate: &Assisting<'_, L>,
    most: u64,
) -> u64 {
    for count in 0..most {
        let Some(serial) = made(rt, session, gate) else {
            return count;
        };
        let remove = Command::remove(Rights::read(), serial);
        if session.submit(rt, remove, gate).is_err() {
            return count;
        }
    }
    most
}

/// How many documents alice makes and drops beside a hundred that she keeps, in a vault of which no thread collects.
fn made_and_dropped<L: Ledger, R: Wait + Clock>(
    rt: &R,
    alloc: Global,
    listener: &TcpListener,
    blank: Blank,
    vault: Vault,
) -> Option<u64>
    requires name { blank.name ≡ L.name }
    requires parts { blank.parts ≡ L.parts }
    requires all { blank.parts ≡ PARTS }
    requires empty { vault.history ≡ [] }
{
    let shared = Shared::<L>::new(alloc, blank, vault);
    let budget = Budget::new(None, 1);
    let late = Mutex::new(None);
    let door = Door::new(listener, &late, 1);
    let desk = Desk::unattended(alloc);
    let gate = Assisting {
        shared: &shared,
        budget: &budget,
        door: &door,
        desk: &desk,
    };
    let mut session = shared.session(rt, alloc, 0, "alice").ok()?;
    for _ in 0..100u32 {
        let _ = made(rt, &mut session, &gate);
    }
    let count = make_and_drop(rt, &mut session, &gate, 10_000);
    drop(session.end(rt));
    Some(count)
}

/// Sessions free as much as they need, without the collector's thread, as long as less than half of the slots is kept.
#[test]
fn sessions_alone_keep_pace(rt: HostRuntime) -> io::Result<()> {
    let listener = TcpListener::bind(&rt, "127.0.0.1:0")?;
    let vault = opened(rt.alloc()).expect(&rt, "no vault");
    let count = made_and_dropped::<Brand, _>(&rt, rt.alloc(), &listener, Blank::new(PARTS), vault);
    assert_eq!(rt; count, Some(10_000));
    Ok(())
}
