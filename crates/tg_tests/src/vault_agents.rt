//! The worked cases of seats that act for a subject, with every sum of the collector's steps as it was worked out by
//! hand.
use crate::cases::{Ask, Opening, TAKING_AND_GRANTING, TWO, Want};
use crate::vault::{ALICE, BOB, Case, Line, plays};
use std::alloc::AllocError;
use tg_vault::{AskFault, SeatFault};

/// Alice and bob, with two more slots.
const FOUR: Opening = Opening { slots: 4, ..TWO };

/// Alice on a second and a third seat.
const ALICE_TOO: Line = Line::Hello(1, "alice", Ok(1));

const ALICE_AGAIN: Line = Line::Hello(2, "alice", Ok(1));

/// Alice on seat 0 makes a subject, 3, over which she has t and g.
const MADE: Line = Line::Ask(0, Ask::Subject("tg"), Want::Created(3));

/// Alice's seat acts for a subject of hers over which she gives up her rights on another seat; it is kept, and freed
/// once it is left.
const ACTING: Case = Case {
    opening: FOUR,
    lines: &[
        ALICE,
        BOB,
        MADE,
        Line::Shaded(0, 3),
        Line::Ask(1, Ask::Assume(3), Want::Lacks(2, 3, "tg")),
        Line::Ask(0, Ask::Assume(2), Want::Lacks(1, 2, "tg")),
        Line::Ask(0, Ask::Assume(3), Want::Done),
        Line::Shaded(0, 3),
        ALICE_AGAIN,
        Line::Ask(2, Ask::Remove("tg", 3), Want::Done),
        Line::Cycle(0, 13),
        Line::Cycle(0, 13),
        Line::Make(0, "r", 4),
        Line::Ask(0, Ask::Look(3), Want::Edges(&[(4, "r")])),
        Line::Ask(0, Ask::Retire, Want::NotPrincipal),
        Line::Ask(0, Ask::Leave, Want::Done),
        Line::Ask(0, Ask::Look(1), Want::Edges(&[])),
        Line::Cycle(1, 14),
        Line::Cycle(1, 11),
    ],
};

/// A document acts for nobody, and nobody for itself; who acts for nobody may leave.
const DENIED: Case = Case {
    opening: FOUR,
    lines: &[
        ALICE,
        BOB,
        Line::Make(0, "tg", 3),
        Line::Ask(0, Ask::Assume(3), Want::NotSubject(3)),
        Line::Ask(0, Ask::Assume(1), Want::NotDistinct),
        Line::Ask(0, Ask::Leave, Want::Done),
    ],
};

/// A bye takes the agent away, but not its target, which keeps the seat busy.
const BYE: Case = Case {
    opening: FOUR,
    lines: &[
        ALICE,
        ALICE_TOO,
        MADE,
        Line::Shaded(0, 3),
        Line::Ask(0, Ask::Assume(3), Want::Done),
        Line::Bye(0, Err(SeatFault::Busy)),
        Line::Refused(0, Ask::Leave, AskFault::Busy),
        Line::Shaded(0, 3),
        Line::Ask(1, Ask::Remove("tg", 3), Want::Done),
        Line::Cycle(0, 13),
        Line::Cycle(0, 13),
        Line::Bye(0, Ok(())),
        ALICE,
        Line::Ask(0, Ask::Look(1), Want::Edges(&[])),
        Line::Cycle(1, 11),
    ],
};

/// A subject that two seats act for is kept until both have left it; whoever sits there next acts for nobody.
const OF_TWO_SEATS: Case = Case {
    opening: FOUR,
    lines: &[
        ALICE,
        ALICE_TOO,
        ALICE_AGAIN,
        MADE,
        Line::Shaded(0, 3),
        Line::Ask(0, Ask::Assume(3), Want::Done),
        Line::Shaded(0, 3),
        Line::Ask(1, Ask::Assume(3), Want::Done),
        Line::Shaded(1, 3),
        Line::Ask(2, Ask::Remove("tg", 3), Want::Done),
        Line::Make(0, "rw", 4),
        Line::Ask(1, Ask::Write(4, "hi"), Want::Done),
        Line::Ask(0, Ask::Leave, Want::Done),
        Line::Ask(0, Ask::Read(4), Want::Lacks(1, 4, "r")),
        Line::Cycle(0, 16),
        Line::Cycle(0, 16),
        Line::Ask(1, Ask::Read(4), Want::Text("hi")),
        Line::Bye(1, Ok(())),
        BOB,
        Line::Ask(1, Ask::Read(4), Want::Lacks(2, 4, "r")),
        Line::Cycle(2, 12),
    ],
};

/// An agent may act for a subject of its own, and is then no root any more; one leave ends it all.
const OF_AN_AGENT: Case = Case {
    opening: FOUR,
    lines: &[
        ALICE,
        ALICE_TOO,
        MADE,
        Line::Shaded(0, 3),
        Line::Ask(0, Ask::Assume(3), Want::Done),
        Line::Shaded(0, 3),
        Line::Ask(0, Ask::Subject("tg"), Want::Created(4)),
        Line::Shaded(0, 4),
        Line::Ask(0, Ask::Assume(4), Want::Done),
        Line::Shaded(0, 4),
        Line::Ask(0, Ask::Assume(3), Want::Lacks(4, 3, "tg")),
        Line::Ask(1, Ask::Remove("tg", 3), Want::Done),
        Line::Cycle(0, 16),
        Line::Cycle(1, 14),
        Line::Make(0, "r", 5),
        Line::Ask(0, Ask::Leave, Want::Done),
        Line::Ask(0, Ask::Look(4), Want::Lacks(1, 4, "t")),
        Line::Ask(0, Ask::Leave, Want::Done),
        Line::Cycle(1, 14),
        Line::Cycle(1, 11),
    ],
};

/// Bob retires while alice's seat acts for him, and by her word: all but a leave is denied to it, and he is kept until
/// it leaves him.
const RETIRES: Case = Case {
    opening: Opening {
        slots: 4,
        ..TAKING_AND_GRANTING
    },
    lines: &[
        ALICE,
        BOB,
        ALICE_AGAIN,
        Line::Make(1, "rw", 3),
        Line::Ask(0, Ask::Assume(2), Want::Done),
        Line::Shaded(0, 2),
        Line::Ask(0, Ask::Retire, Want::Done),
        Line::Ask(0, Ask::Read(3), Want::Retired),
        Line::Ask(0, Ask::Assume(2), Want::Retired),
        Line::Ask(1, Ask::Read(3), Want::Retired),
        Line::Ask(2, Ask::Look(2), Want::Edges(&[(3, "rw")])),
        Line::Ask(2, Ask::Remove("tg", 2), Want::Done),
        Line::Cycle(0, 14),
        Line::Cycle(0, 14),
        Line::Ask(1, Ask::Leave, Want::Done),
        Line::Ask(1, Ask::Read(3), Want::Retired),
        Line::Ask(0, Ask::Leave, Want::Done),
        Line::Ask(0, Ask::Look(1), Want::Edges(&[])),
        Line::Cycle(2, 10),
        Line::Ask(1, Ask::Leave, Want::Done),
    ],
};

/// Who has retired before is an agent like any other, but may only be left.
const RETIRED: Case = Case {
    opening: TAKING_AND_GRANTING,
    lines: &[
        ALICE,
        BOB,
        Line::Ask(1, Ask::Retire, Want::Done),
        Line::Ask(0, Ask::Assume(2), Want::Done),
        Line::Shaded(0, 2),
        Line::Ask(0, Ask::Look(1), Want::Retired),
        Line::Ask(0, Ask::Document(""), Want::Retired),
        Line::Ask(0, Ask::Retire, Want::Retired),
        Line::Ask(0, Ask::Leave, Want::Done),
        Line::Ask(0, Ask::Look(2), Want::Edges(&[])),
    ],
};

/// An assume falls between two steps of a marking, the edge goes before it is looked at, and the seat waits to the end:
/// its target is shaded for it. Then one falls into a sweep.
const IN_A_CYCLE: Case = Case {
    opening: FOUR,
    lines: &[
        ALICE,
        BOB,
        ALICE_AGAIN,
        MADE,
        Line::Shaded(0, 3),
        Line::Cycle(0, 14),
        Line::Collect("mm"),
        Line::Ask(0, Ask::Assume(3), Want::Done),
        Line::Ask(2, Ask::Remove("tg", 3), Want::Done),
        Line::Cycle(0, 12),
        Line::Shaded(0, 3),
        Line::Ask(0, Ask::Look(3), Want::Edges(&[])),
        Line::Collect("mmmmmmmsss"),
        Line::Ask(0, Ask::Subject("tg"), Want::Created(4)),
        Line::Shaded(0, 4),
        Line::Ask(0, Ask::Assume(4), Want::Done),
        Line::Cycle(0, 3),
        Line::Shaded(0, 4),
        Line::Cycle(1, 14),
        Line::Cycle(0, 13),
        Line::Ask(0, Ask::Look(4), Want::Edges(&[])),
        Line::Ask(0, Ask::Leave, Want::Done),
        Line::Cycle(1, 11),
    ],
};

/// The principal retires on another seat, and loses its slot while the agent goes on; who leaves then has retired.
const PRINCIPAL_RETIRES: Case = Case {
    opening: FOUR,
    lines: &[
        ALICE,
        MADE,
        Line::Shaded(0, 3),
        Line::Ask(0, Ask::Assume(3), Want::Done),
        Line::Shaded(0, 3),
        ALICE_AGAIN,
        Line::Ask(2, Ask::Retire, Want::Done),
        Line::Make(0, "r", 4),
        Line::Ask(0, Ask::Look(3), Want::Edges(&[(4, "r")])),
        Line::Ask(0, Ask::Look(1), Want::Lacks(3, 1, "t")),
        Line::Cycle(1, 15),
        Line::Ask(0, Ask::Look(3), Want::Edges(&[(4, "r")])),
        Line::Ask(0, Ask::Leave, Want::Done),
        Line::Ask(0, Ask::Look(3), Want::Retired),
        Line::Ask(0, Ask::Leave, Want::Done),
        Line::Cycle(2, 10),
        Line::Bye(0, Ok(())),
    ],
};

const CASES: &[Case] = &[
    ACTING,
    DENIED,
    BYE,
    OF_TWO_SEATS,
    OF_AN_AGENT,
    RETIRES,
    RETIRED,
    IN_A_CYCLE,
    PRINCIPAL_RETIRES,
];

#[test]
fn each_case_of_agents_is_answered_as_worked_out(rt: HostRuntime) -> Result<(), AllocError> {
    for case in CASES {
        plays(&rt, rt.alloc(), case)?;
    }
    Ok(())
}
