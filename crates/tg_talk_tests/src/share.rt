//! What no clause says: that sessions are given and their commands entered, that the lock is free where it is said to
//! be, and the results of cases that were worked by hand.
ghost use Rattle.tg_talk_tests.specs.Inner.Fresh.{IsBlank};

mod agents;
mod growths;
mod holds;
mod races;
mod rounds;
mod shading;

use crate::sharing::{Pauses, Tally, agreed, both, close, one, opened, play};
use std::alloc::{AllocError, Global};
use std::marker::Brand;
use std::rt::Clock;
use std::sync::Wait;
use std::sync::ledger::{Blank, Ledger};
use tg_share::{Ended, Open, PARTS, Shared, Worked};
use tg_tests::cases::{Ask, Asked, ONE_MORE, Opening, TAKING, TWO, Want};
use tg_vault::{SeatFault, Vault};

pub const ALONE: &[Asked] = &[
    (Ask::Document("rw"), Want::Created(3)),
    (Ask::Write(3, "hi"), Want::Done),
    (Ask::Read(3), Want::Text("hi")),
    (Ask::Look(1), Want::Edges(&[(2, "t"), (3, "rw")])),
    (Ask::Grant("r", 3, 2), Want::Lacks(1, 2, "g")),
    (Ask::Take("w", 3, 2), Want::Lacks(2, 3, "w")),
    (Ask::Remove("r", 3), Want::Done),
    (Ask::Read(3), Want::Lacks(1, 3, "r")),
];

/// How many entries there are after a session of alice, and whether the vault's opening graph is as it was.
fn play_alone<L: Ledger, R: Wait + Clock>(
    rt: &R,
    alloc: Global,
    blank: Blank,
    vault: Vault,
) -> Option<(u64, bool)>
    requires { IsBlank L.name L.parts blank vault.history }
{
    let shared = Shared::<L>::new(alloc, blank, vault);
    let alice = play(rt, alloc, &shared, 0, "alice", ALONE, &Open);
    match one(alloc, alice) {
        Some(ended) => close(shared, ended).agreed,
        None => None,
    }
}

#[test]
fn a_session_alone(rt: HostRuntime) -> Result<(), AllocError> {
    let vault = opened(&rt, rt.alloc(), &TAKING)?;
    let found = play_alone::<Brand, _>(&rt, rt.alloc(), Blank::new(PARTS), vault);
    assert_eq!(rt; found, Some((8, true)));
    Ok(())
}

/// How many slots and cells are free.
fn free_of<L: Ledger, R: Wait + Clock>(
    rt: &R,
    alloc: Global,
    blank: Blank,
    vault: Vault,
) -> (u64, u64)
    requires { IsBlank L.name L.parts blank vault.history }
{
    let shared = Shared::<L>::new(alloc, blank, vault);
    let room = shared.room(rt);
    (room.free_slots, room.free_cells)
}

/// Of eight slots two principals take two, and of eight cells their edge takes one.
#[test]
fn a_shared_vault_tells_how_much_room_is_left(rt: HostRuntime) -> Result<(), AllocError> {
    let vault = opened(&rt, rt.alloc(), &TAKING)?;
    let found = free_of::<Brand, _>(&rt, rt.alloc(), Blank::new(PARTS), vault);
    assert_eq!(rt; found, (6, 7));
    Ok(())
}

pub const CREATED: Asked = (Ask::Document("r"), Want::Created(3));

pub const REMOVED: Asked = (Ask::Remove("r", 3), Want::Done);

/// What the collector did, and how many entries there are in the end, if they are known.
fn collect_after<L: Ledger, R: Wait + Clock>(
    rt: &R,
    alloc: Global,
    blank: Blank,
    vault: Vault,
) -> (Worked, Option<u64>)
    requires { IsBlank L.name L.parts blank vault.history }
{
    let shared = Shared::<L>::new(alloc, blank, vault);
    let alice = play(rt, alloc, &shared, 0, "alice", &[CREATED, REMOVED], &Open);
    let worked = shared.collector(rt, 22, &Open);
    (worked, agreed(shared, one(alloc, alice)))
}

#[test]
fn a_collector_frees_in_two_cycles(rt: HostRuntime) -> Result<(), AllocError> {
    let vault = opened(&rt, rt.alloc(), &ONE_MORE)?;
    let done = collect_after::<Brand, _>(&rt, rt.alloc(), Blank::new(PARTS), vault);
    assert_eq!(rt; done, (Worked { freed: 1, ended: 2 }, Some(2)));
    Ok(())
}

/// A session of alice over the vault of a configuration, and then two calls of the collector.
struct Tour {
    opening: Opening,
    lines: &'static [Asked],
    /// Where alice pauses.
    asked: Pauses,
    /// How many steps the first call makes. The second makes one.
    steps: u64,
    /// How many times the first call pauses.
    pauses: u64,
    worked: Worked,
    last: Worked,
}

const NOTHING: Worked = Worked { freed: 0, ended: 0 };

const NO_PAUSE: Pauses = Pauses {
    after_store: 0,
    entries: 0,
    created: 0,
    early: 0,
    between_steps: 0,
};

const A_CYCLE: Worked = Worked { freed: 0, ended: 1 };

const THREE: &[Asked] = &[
    (Ask::Document("r"), Want::Created(3)),
    (Ask::Document("r"), Want::Created(4)),
    (Ask::Document("r"), Want::Created(5)),
    (Ask::Remove("r", 3), Want::Done),
    (Ask::Remove("r", 4), Want::Done),
    (Ask::Remove("r", 5), Want::Done),
];

const GUEST: &[Asked] = &[
    (Ask::Enrol("carol", "t"), Want::Created(3)),
    (Ask::Read(3), Want::Lacks(1, 3, "r")),
];

/// A cycle shades alice and bob in one step, takes each grey vertex under scan and makes it black in two, as none has
/// an edge any more, goes to the sweep in one, sweeps each slot in one and ends in one.
const TOURS: &[Tour] = &[
    Tour {
        opening: ONE_MORE,
        lines: &[],
        asked: NO_PAUSE,
        steps: 5,
        pauses: 4,
        worked: NOTHING,
        last: NOTHING,
    },
    // A cycle of 1 + 2 * 2 + 1 + 3 + 1 = 10 steps.
    Tour {
        opening: ONE_MORE,
        lines: &[],
        asked: NO_PAUSE,
        steps: 9,
        pauses: 8,
        worked: NOTHING,
        last: A_CYCLE,
    },
    // With a document that was shaded, 1 + 3 * 2 + 1 + 3 + 1 = 12 steps.
    Tour {
        opening: ONE_MORE,
        lines: &[CREATED, REMOVED],
        asked: Pauses {
            after_store: 2,
            entries: 2,
            created: 1,
            ..NO_PAUSE
        },
        steps: 11,
        pauses: 10,
        worked: NOTHING,
        last: A_CYCLE,
    },
    // An enrol makes a vertex, as a create does, and a denied command is entered too. With one more subject, and an
    // edge to it, 1 + 3 * 2 + 1 + 1 + 3 + 1 = 13 steps.
    Tour {
        opening: ONE_MORE,
        lines: GUEST,
        asked: Pauses {
            after_store: 2,
            entries: 2,
            created: 1,
            ..NO_PAUSE
        },
        steps: 12,
        pauses: 11,
        worked: NOTHING,
        last: A_CYCLE,
    },
    // 7,000 cycles of ten steps each, and the first step of one more.
    Tour {
        opening: ONE_MORE,
        lines: &[],
        asked: NO_PAUSE,
        steps: 70_000,
        pauses: 69_999,
        worked: Worked {
            freed: 0,
            ended: 7_000,
        },
        last: NOTHING,
    },
    // With three such documents 1 + 5 * 2 + 1 + 8 + 1 = 21 steps. The second cycle frees them in 1 + 2 * 2 + 1 + 8 + 1
    // = 15, and the others have 15 too: 330 in 4,950 steps. Then 14 steps are left, and the next ends a cycle.
    Tour {
        opening: TWO,
        lines: THREE,
        asked: Pauses {
            after_store: 6,
            entries: 6,
            created: 3,
            ..NO_PAUSE
        },
        steps: 5000,
        pauses: 4999,
        worked: Worked {
            freed: 3,
            ended: 332,
        },
        last: A_CYCLE,
    },
];

/// Whether the collector's calls do what they should, alice pauses once for each line, after its store, and her gate is
/// then told of its entry, and the collector pauses as many times as the tour says, between its steps.
fn is_as_counted<L: Ledger, R: Wait + Clock>(
    rt: &R,
    alloc: Global,
    blank: Blank,
    vault: Vault,
    tour: &Tour,
) -> bool
    requires { IsBlank L.name L.parts blank vault.history }
{
    let shared = Shared::<L>::new(alloc, blank, vault);
    let (asked, collected) = (Tally::new(), Tally::new());
    let alice = play(rt, alloc, &shared, 0, "alice", tour.lines, &asked);
    let looks = [shared.room(rt), shared.room(rt)];
    let worked = shared.collector(rt, tour.steps, &collected);
    let last = shared.collector(rt, 1, &collected);
    alice.is_some()
        && looks[0] == looks[1]
        && (worked, last) == (tour.worked, tour.last)
        && asked.pauses() == tour.asked
        && collected.pauses()
            == Pauses {
                between_steps: tour.pauses,
                ..NO_PAUSE
            }
}

/// Only the collector's own calls make steps of it, no session and no look at the room, and they make as many as they
/// should.
#[test]
fn steps_and_pauses_are_counted(rt: HostRuntime) -> Result<(), AllocError> {
    for tour in TOURS {
        let vault = opened(&rt, rt.alloc(), &tour.opening)?;
        assert!(rt; is_as_counted::<Brand, _>(&rt, rt.alloc(), Blank::new(PARTS), vault, tour));
    }
    Ok(())
}

/// Which of two sessions' ends are handed in, and in which order.
#[derive(Clone, Copy)]
enum HandedIn {
    InOrder,
    Turned,
    FirstAlone,
    SecondAlone,
}

/// Keeps those of two sessions' ends that are handed in.
fn hand_in<L: Ledger>(ended: &mut Vec<Ended<L>>, order: HandedIn) {
    match order {
        HandedIn::InOrder => {}
        HandedIn::Turned => ended.reverse(),
        HandedIn::FirstAlone => ended.truncate(1),
        HandedIn::SecondAlone => {
            ended.reverse();
            ended.truncate(1);
        }
    }
}

/// Two sessions of alice on a seat, one after the other.
fn play_two<L: Ledger, R: Wait + Clock>(
    rt: &R,
    alloc: Global,
    shared: &Shared<L>,
) -> Option<Vec<Ended<L>>> {
    let first = play(rt, alloc, shared, 0, "alice", &[CREATED], &Open);
    let second = play(rt, alloc, shared, 0, "alice", &[REMOVED], &Open);
    both(alloc, first, second)
}

/// Where the logs differ from the history, if they do, and whether all sessions were counted, after two sessions of
/// alice on a seat, one after the other.
fn close_two<L: Ledger, R: Wait + Clock>(
    rt: &R,
    alloc: Global,
    blank: Blank,
    vault: Vault,
    order: HandedIn,
) -> Option<(Option<(u64, u64)>, bool)>
    requires { IsBlank L.name L.parts blank vault.history }
{
    let shared = Shared::<L>::new(alloc, blank, vault);
    match play_two(rt, alloc, &shared) {
        Some(mut ended) => {
            hand_in(&mut ended, order);
            close(shared, ended).found
        }
        None => None,
    }
}

/// The logs of a seat are joined in the order in which they are handed in; a session that is kept back is not counted.
#[test]
fn logs_are_settled_as_handed_in(rt: HostRuntime) -> Result<(), AllocError> {
    for (order, wanted) in [
        (HandedIn::InOrder, (None, true)),
        (HandedIn::Turned, (Some((0, 0)), true)),
        (HandedIn::FirstAlone, (Some((0, 1)), false)),
        (HandedIn::SecondAlone, (Some((0, 0)), false)),
    ] {
        let vault = opened(&rt, rt.alloc(), &TWO)?;
        let found = close_two::<Brand, _>(&rt, rt.alloc(), Blank::new(PARTS), vault, order);
        assert_eq!(rt; found, Some(wanted));
    }
    Ok(())
}

/// The fault of a session; none if it is given, and ended at once.
fn fault<L: Ledger, R: Wait>(
    rt: &R,
    alloc: Global,
    shared: &Shared<L>,
    seat: u64,
    name: &str,
) -> Option<SeatFault> {
    match shared.session(rt, alloc, seat, name) {
        Ok(session) => {
            let _ = session.end(rt);
            None
        }
        Err(fault) => Some(fault),
    }
}

const ENROLLED: &[Asked] = &[(Ask::Enrol("carol", "t"), Want::Created(3))];

/// What carol asks for, who retires.
const RETIRED: &[Asked] = &[
    (Ask::Document("r"), Want::Created(4)),
    (Ask::Retire, Want::Done),
    (Ask::Read(4), Want::Retired),
    (Ask::Retire, Want::Retired),
];

/// The fault of carol's next session once alice has enrolled her and she has retired, and how many entries there are in
/// the end, if all replies are as worked out.
fn come_and_go<L: Ledger, R: Wait + Clock>(
    rt: &R,
    alloc: Global,
    blank: Blank,
    vault: Vault,
) -> (Option<SeatFault>, Option<u64>)
    requires { IsBlank L.name L.parts blank vault.history }
{
    let shared = Shared::<L>::new(alloc, blank, vault);
    let alice = play(rt, alloc, &shared, 0, "alice", ENROLLED, &Open);
    let carol = play(rt, alloc, &shared, 1, "carol", RETIRED, &Open);
    let again = fault(rt, alloc, &shared, 1, "carol");
    (again, agreed(shared, both(alloc, alice, carol)))
}

/// A session of one who was enrolled goes on when that one retires, and there is none after it.
#[test]
fn a_principal_comes_and_goes(rt: HostRuntime) -> Result<(), AllocError> {
    let vault = opened(&rt, rt.alloc(), &TWO)?;
    let done = come_and_go::<Brand, _>(&rt, rt.alloc(), Blank::new(PARTS), vault);
    assert_eq!(rt; done, (Some(SeatFault::NoPrincipal), Some(5)));
    Ok(())
}

/// The faults of sessions while alice has one on seat 0, and of one on that seat once she has left.
fn faults<L: Ledger, R: Wait>(
    rt: &R,
    alloc: Global,
    blank: Blank,
    vault: Vault,
) -> Option<[Option<SeatFault>; 5]>
    requires { IsBlank L.name L.parts blank vault.history }
{
    let shared = Shared::<L>::new(alloc, blank, vault);
    let Ok(alice) = shared.session(rt, alloc, 0, "alice") else {
        return None;
    };
    let beyond = fault(rt, alloc, &shared, 64, "alice");
    let bound = fault(rt, alloc, &shared, 0, "bob");
    let stranger = fault(rt, alloc, &shared, 1, "carol");
    let twice = fault(rt, alloc, &shared, 63, "alice");
    let _ = alice.end(rt);
    let after = fault(rt, alloc, &shared, 0, "bob");
    Some([beyond, bound, stranger, twice, after])
}

#[test]
fn sessions_are_given_or_refused(rt: HostRuntime) -> Result<(), AllocError> {
    let vault = opened(&rt, rt.alloc(), &TWO)?;
    let found = faults::<Brand, _>(&rt, rt.alloc(), Blank::new(PARTS), vault);
    let wanted = [
        Some(SeatFault::NoSeat),
        Some(SeatFault::Bound),
        Some(SeatFault::NoPrincipal),
        None,
        None,
    ];
    assert_eq!(rt; found, Some(wanted));
    Ok(())
}
