//! The worked cases of the vault, with every sum of the collector's steps as it was worked out by hand.
use crate::cases::{Ask, CROWD, ONE_MORE, Opening, TAKING, TAKING_AND_GRANTING, TWO, Want};
use crate::vault::{ALICE, BOB, Case, Line};
use tg_rights::Which;
use tg_vault::{AskFault, SeatFault};

pub const CASES: &[Case] = &[
    // seats are refused in the order of their faults
    Case {
        opening: TWO,
        lines: &[
            Line::Shade(0, Err(SeatFault::NoActor)),
            Line::Hello(64, "alice", Err(SeatFault::NoSeat)),
            Line::Hello(0, "carol", Err(SeatFault::NoPrincipal)),
            ALICE,
            Line::Hello(0, "alice", Err(SeatFault::Bound)),
            Line::Bye(0, Ok(())),
            Line::Bye(0, Err(SeatFault::NoActor)),
        ],
    },
    // a target keeps the seat busy
    Case {
        opening: TWO,
        lines: &[
            BOB,
            Line::Ask(1, Ask::Document("r"), Want::Created(3)),
            Line::Refused(1, Ask::Look(2), AskFault::Busy),
            Line::Bye(1, Err(SeatFault::Busy)),
            Line::Shaded(1, 3),
            Line::Shade(1, Ok(None)),
        ],
    },
    // a take of an edge that is already there leaves a target
    Case {
        opening: TAKING,
        lines: &[
            ALICE,
            BOB,
            Line::Ask(1, Ask::Document("r"), Want::Created(3)),
            Line::Ask(0, Ask::Take("r", 3, 2), Want::Done),
            Line::Shaded(0, 3),
            Line::Ask(0, Ask::Take("r", 3, 2), Want::Done),
            Line::Shaded(0, 3),
        ],
    },
    // garbage needs two cycles, and a serial that was freed is denied like one that never existed
    Case {
        opening: ONE_MORE,
        lines: &[
            ALICE,
            BOB,
            Line::Ask(0, Ask::Read(99), Want::Lacks(1, 99, "r")),
            Line::Make(0, "r", 3),
            Line::Ask(0, Ask::Remove("r", 3), Want::Done),
            Line::Ask(0, Ask::Document("r"), Want::Full(Which::Slots)),
            Line::Cycle(0, 12),
            Line::Cycle(1, 10),
            Line::Ask(0, Ask::Read(3), Want::Lacks(1, 3, "r")),
            Line::Ask(0, Ask::Document("r"), Want::Created(4)),
        ],
    },
    // each step of a cycle is noted
    Case {
        opening: ONE_MORE,
        lines: &[
            ALICE,
            BOB,
            Line::Make(0, "r", 3),
            Line::Ask(0, Ask::Remove("r", 3), Want::Done),
            Line::Collect("mmmmmmmsssse"),
            Line::Collect("mmmmmsssfe"),
        ],
    },
    // the last serial is given, and no more
    Case {
        opening: Opening {
            next: 18_446_744_073_709_551_614,
            cells: 4,
            ..TWO
        },
        lines: &[
            ALICE,
            Line::Make(0, "r", 18_446_744_073_709_551_614),
            Line::Ask(0, Ask::Document("r"), Want::Full(Which::Serials)),
        ],
    },
    // denials come before fullness
    Case {
        opening: Opening {
            edges: &[(1, "t", 2)],
            cells: 3,
            ..TWO
        },
        lines: &[
            ALICE,
            BOB,
            Line::Make(1, "r", 3),
            Line::Make(1, "r", 4),
            Line::Ask(0, Ask::Take("w", 3, 2), Want::Lacks(2, 3, "w")),
            Line::Ask(0, Ask::Take("r", 3, 2), Want::Full(Which::Cells)),
        ],
    },
    // a subject has no text to read, and the label is checked first
    Case {
        opening: Opening {
            edges: &[(1, "r", 2)],
            slots: 4,
            cells: 4,
            ..TWO
        },
        lines: &[
            ALICE,
            Line::Ask(0, Ask::Read(2), Want::NotDocument(2)),
            Line::Ask(0, Ask::Write(2, "x"), Want::Lacks(1, 2, "w")),
            Line::Ask(0, Ask::Read(1), Want::NotDistinct),
        ],
    },
    // a denial names only the missing rights
    Case {
        opening: TAKING_AND_GRANTING,
        lines: &[
            ALICE,
            BOB,
            Line::Ask(1, Ask::Document("r"), Want::Created(3)),
            Line::Ask(0, Ask::Take("rw", 3, 2), Want::Lacks(2, 3, "w")),
        ],
    },
    // a denial names the first need that fails; empty comes before not distinct
    Case {
        opening: TWO,
        lines: &[
            ALICE,
            Line::Ask(0, Ask::Take("w", 3, 2), Want::Lacks(1, 2, "t")),
            Line::Ask(0, Ask::Take("r", 1, 2), Want::NotDistinct),
            Line::Ask(0, Ask::Take("", 1, 2), Want::Empty),
        ],
    },
    // rights that are taken join the label
    Case {
        opening: TAKING_AND_GRANTING,
        lines: &[
            ALICE,
            BOB,
            Line::Make(1, "rwg", 3),
            Line::Ask(0, Ask::Take("r", 3, 2), Want::Done),
            Line::Shaded(0, 3),
            Line::Ask(0, Ask::Take("w", 3, 2), Want::Done),
            Line::Shaded(0, 3),
            Line::Ask(0, Ask::Look(1), Want::Edges(&[(2, "tg"), (3, "rw")])),
            Line::Ask(0, Ask::Look(2), Want::Edges(&[(3, "rwg")])),
        ],
    },
    // a look returns the edges by rising serial
    Case {
        opening: Opening {
            edges: &[(1, "t", 2), (2, "g", 1)],
            ..TWO
        },
        lines: &[
            ALICE,
            BOB,
            Line::Make(1, "r", 3),
            Line::Make(1, "w", 4),
            Line::Ask(
                0,
                Ask::Look(2),
                Want::Edges(&[(1, "g"), (3, "r"), (4, "w")]),
            ),
        ],
    },
    // a look at another needs take; if there is no edge, the list is empty
    Case {
        opening: Opening {
            edges: &[(1, "g", 2)],
            ..TWO
        },
        lines: &[
            ALICE,
            BOB,
            Line::Ask(0, Ask::Look(1), Want::Edges(&[(2, "g")])),
            Line::Ask(0, Ask::Look(2), Want::Lacks(1, 2, "t")),
            Line::Ask(0, Ask::Document("rw"), Want::Created(3)),
            Line::Ask(1, Ask::Look(1), Want::Lacks(2, 1, "t")),
            Line::Ask(1, Ask::Look(2), Want::Edges(&[])),
        ],
    },
    // a new text is empty, and an empty text takes the place of another
    Case {
        opening: Opening {
            slots: 4,
            cells: 4,
            ..TWO
        },
        lines: &[
            ALICE,
            Line::Make(0, "rw", 3),
            Line::Ask(0, Ask::Read(3), Want::Text("")),
            Line::Ask(0, Ask::Write(3, "hi"), Want::Done),
            Line::Ask(0, Ask::Read(3), Want::Text("hi")),
            Line::Ask(0, Ask::Write(3, ""), Want::Done),
            Line::Ask(0, Ask::Read(3), Want::Text("")),
        ],
    },
    // a removed edge gives its cell back
    Case {
        opening: Opening {
            edges: &[(1, "t", 2)],
            slots: 4,
            cells: 1,
            ..TWO
        },
        lines: &[
            ALICE,
            Line::Ask(0, Ask::Document("r"), Want::Full(Which::Cells)),
            Line::Ask(0, Ask::Remove("t", 2), Want::Done),
            Line::Ask(0, Ask::Document("r"), Want::Created(3)),
        ],
    },
    // a target that was taken while alice is black and it is white is kept through the cycle
    Case {
        opening: Opening {
            edges: &[(1, "tg", 2)],
            slots: 3,
            ..TWO
        },
        lines: &[
            ALICE,
            BOB,
            Line::Make(1, "rw", 3),
            Line::Ask(1, Ask::Write(3, "hi"), Want::Done),
            Line::Cycle(0, 14),
            Line::Collect("mmmm"),
            Line::Ask(0, Ask::Take("r", 3, 2), Want::Done),
            Line::Ask(1, Ask::Remove("rw", 3), Want::Done),
            Line::Cycle(0, 10),
            Line::Shaded(0, 3),
            Line::Ask(0, Ask::Read(3), Want::Text("hi")),
        ],
    },
    // slots that are taken in the sweep are kept by it
    Case {
        opening: Opening { slots: 5, ..TWO },
        lines: &[
            ALICE,
            BOB,
            Line::Make(0, "r", 3),
            Line::Ask(0, Ask::Remove("r", 3), Want::Done),
            Line::Cycle(0, 14),
            Line::Collect("mmmmmsssf"),
            Line::Make(0, "r", 4),
            Line::Ask(0, Ask::Document("r"), Want::Created(5)),
            Line::Cycle(0, 3),
            Line::Shaded(0, 5),
            Line::Ask(0, Ask::Read(4), Want::Text("")),
            Line::Ask(0, Ask::Read(5), Want::Text("")),
            Line::Cycle(0, 18),
        ],
    },
    // a ring of documents that have rights over each other is freed
    Case {
        opening: Opening { slots: 4, ..TWO },
        lines: &[
            ALICE,
            BOB,
            Line::Make(0, "rg", 3),
            Line::Make(0, "rg", 4),
            Line::Ask(0, Ask::Grant("r", 4, 3), Want::Done),
            Line::Shaded(0, 4),
            Line::Ask(0, Ask::Grant("r", 3, 4), Want::Done),
            Line::Shaded(0, 3),
            Line::Ask(0, Ask::Remove("rg", 3), Want::Done),
            Line::Ask(0, Ask::Remove("rg", 4), Want::Done),
            Line::Cycle(0, 17),
            Line::Cycle(2, 13),
        ],
    },
    // a principal is enrolled and retires; its name is free again, its serial is not
    Case {
        opening: Opening { slots: 4, ..TWO },
        lines: &[
            ALICE,
            BOB,
            Line::Ask(0, Ask::Enrol("carol", "t"), Want::Created(3)),
            Line::Shaded(0, 3),
            Line::Hello(2, "carol", Ok(3)),
            Line::Ask(1, Ask::Enrol("carol", "t"), Want::NameTaken),
            Line::Ask(0, Ask::Enrol("dave", ""), Want::Empty),
            Line::Ask(0, Ask::Remove("t", 3), Want::Done),
            Line::Cycle(0, 13),
            Line::Make(2, "r", 4),
            Line::Ask(2, Ask::Retire, Want::Done),
            Line::Ask(2, Ask::Read(4), Want::Retired),
            Line::Cycle(1, 14),
            Line::Cycle(1, 11),
            Line::Bye(2, Ok(())),
            Line::Make(0, "r", 5),
            Line::Ask(1, Ask::Enrol("carol", "t"), Want::Created(6)),
            Line::Shaded(1, 6),
            Line::Hello(2, "carol", Ok(6)),
        ],
    },
    // the last principal retires
    Case {
        opening: Opening {
            names: &["alice"],
            next: 2,
            slots: 1,
            ..TWO
        },
        lines: &[
            ALICE,
            Line::Ask(0, Ask::Retire, Want::Done),
            Line::Ask(0, Ask::Look(1), Want::Retired),
            Line::Cycle(1, 4),
            Line::Hello(1, "alice", Err(SeatFault::NoPrincipal)),
        ],
    },
    // there are as many principals as there may be
    Case {
        opening: CROWD,
        lines: &[
            Line::Hello(0, "a", Ok(1)),
            Line::Hello(1, "b", Ok(2)),
            Line::Ask(0, Ask::Enrol("zz", "r"), Want::Crowded),
            Line::Ask(0, Ask::Enrol("a", "r"), Want::NameTaken),
            Line::Ask(0, Ask::Retire, Want::Done),
            Line::Ask(1, Ask::Enrol("a", "r"), Want::Created(65)),
        ],
    },
    // whoever has retired is denied every command, on every seat, and also once its slot was freed
    Case {
        opening: TWO,
        lines: &[
            BOB,
            Line::Hello(2, "bob", Ok(2)),
            Line::Make(1, "rw", 3),
            Line::Ask(1, Ask::Retire, Want::Done),
            Line::Ask(1, Ask::Take("r", 3, 1), Want::Retired),
            Line::Ask(1, Ask::Grant("r", 3, 1), Want::Retired),
            Line::Ask(1, Ask::Document(""), Want::Retired),
            Line::Ask(1, Ask::Subject("r"), Want::Retired),
            Line::Ask(1, Ask::Remove("rw", 3), Want::Retired),
            Line::Ask(1, Ask::Read(3), Want::Retired),
            Line::Ask(1, Ask::Write(3, "x"), Want::Retired),
            Line::Ask(1, Ask::Look(2), Want::Retired),
            Line::Ask(2, Ask::Enrol("bob", "r"), Want::Retired),
            Line::Ask(2, Ask::Retire, Want::Retired),
            Line::Cycle(1, 16),
            Line::Cycle(1, 13),
            Line::Ask(1, Ask::Look(2), Want::Retired),
            Line::Bye(1, Ok(())),
            Line::Ask(2, Ask::Enrol("bob", "r"), Want::Retired),
        ],
    },
    // an enrolled principal is a root at once, and a name is known before the target is shaded; who retires with a
    // target is busy first
    Case {
        opening: Opening { slots: 3, ..TWO },
        lines: &[
            ALICE,
            Line::Ask(0, Ask::Enrol("carol", "t"), Want::Created(3)),
            Line::Hello(1, "carol", Ok(3)),
            Line::Refused(0, Ask::Retire, AskFault::Busy),
            Line::Shaded(0, 3),
            Line::Ask(0, Ask::Remove("t", 3), Want::Done),
            Line::Cycle(0, 12),
            Line::Cycle(0, 12),
            Line::Ask(1, Ask::Enrol("dave", "t"), Want::Full(Which::Slots)),
            Line::Ask(1, Ask::Look(3), Want::Edges(&[])),
        ],
    },
    // alice retires and leaves the first slot to carol, who is a root there as any principal is
    Case {
        opening: Opening { slots: 3, ..TWO },
        lines: &[
            ALICE,
            BOB,
            Line::Ask(0, Ask::Retire, Want::Done),
            Line::Bye(0, Ok(())),
            Line::Cycle(1, 8),
            Line::Ask(1, Ask::Enrol("carol", "t"), Want::Created(3)),
            Line::Shaded(1, 3),
            Line::Ask(1, Ask::Remove("t", 3), Want::Done),
            Line::Cycle(0, 10),
            Line::Cycle(0, 10),
            Line::Hello(0, "carol", Ok(3)),
            Line::Ask(0, Ask::Look(3), Want::Edges(&[])),
        ],
    },
];
