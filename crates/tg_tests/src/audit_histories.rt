//! Histories, their entries with the replies, and what is found when logs are settled with them.
use crate::audit_logs::{ENTRIES, HISTORY, SETTLEMENTS, Settlement};
use crate::cases::{Ask, Asked, TWO, Want};
use crate::vault::{ALICE, Case, Line};

/// Alice enrols carol, who retires and asks on.
const COME_AND_GO: Case = Case {
    opening: TWO,
    lines: &[
        ALICE,
        Line::Ask(0, Ask::Enrol("carol", "t"), Want::Created(3)),
        Line::Hello(1, "carol", Ok(3)),
        Line::Ask(1, Ask::Enrol("alice", "t"), Want::NameTaken),
        Line::Ask(1, Ask::Retire, Want::Done),
        Line::Ask(1, Ask::Write(3, "x"), Want::Retired),
        Line::Shaded(0, 3),
        Line::Ask(0, Ask::Enrol("carol", "t"), Want::Created(4)),
    ],
};

const ALICES: &[Asked] = &[
    (Ask::Enrol("carol", "t"), Want::Created(3)),
    (Ask::Enrol("carol", "t"), Want::Created(4)),
];

const CAROLS: &[Asked] = &[
    (Ask::Enrol("alice", "t"), Want::NameTaken),
    (Ask::Retire, Want::Done),
    (Ask::Write(3, "x"), Want::Retired),
];

/// The same with another reply to the last command.
const WRITTEN: &[Asked] = &[
    (Ask::Enrol("alice", "t"), Want::NameTaken),
    (Ask::Retire, Want::Done),
    (Ask::Write(3, "x"), Want::Done),
];

/// In the order of the history.
const COMING_AND_GOING: &[Asked] = &[
    (Ask::Enrol("carol", "t"), Want::Created(3)),
    (Ask::Enrol("alice", "t"), Want::NameTaken),
    (Ask::Retire, Want::Done),
    (Ask::Write(3, "x"), Want::Retired),
    (Ask::Enrol("carol", "t"), Want::Created(4)),
];

const OF_BOTH: &[Settlement] = &[
    Settlement {
        logs: &[(1, 3, CAROLS), (0, 1, ALICES)],
        place: None,
    },
    // the second carol is another actor
    Settlement {
        logs: &[(0, 1, ALICES), (1, 4, CAROLS)],
        place: Some((1, 0)),
    },
    Settlement {
        logs: &[(0, 1, ALICES), (1, 3, WRITTEN)],
        place: Some((1, 2)),
    },
];

/// Alice's seat acts for a subject of hers and leaves it, before and after she retires.
const ACTING: Case = Case {
    opening: TWO,
    lines: &[
        ALICE,
        Line::Ask(0, Ask::Subject("tg"), Want::Created(3)),
        Line::Shaded(0, 3),
        Line::Ask(0, Ask::Assume(3), Want::Done),
        Line::Shaded(0, 3),
        Line::Make(0, "r", 4),
        Line::Ask(0, Ask::Retire, Want::NotPrincipal),
        Line::Ask(0, Ask::Leave, Want::Done),
        Line::Ask(0, Ask::Retire, Want::Done),
        Line::Ask(0, Ask::Leave, Want::Done),
        Line::Ask(0, Ask::Assume(3), Want::Retired),
    ],
};

const BEFORE: &[Asked] = &[
    (Ask::Subject("tg"), Want::Created(3)),
    (Ask::Assume(3), Want::Done),
];

const AS_AGENT: &[Asked] = &[
    (Ask::Document("r"), Want::Created(4)),
    (Ask::Retire, Want::NotPrincipal),
    (Ask::Leave, Want::Done),
];

const AFTER: &[Asked] = &[
    (Ask::Retire, Want::Done),
    (Ask::Leave, Want::Done),
    (Ask::Assume(3), Want::Retired),
];

/// In the order of the history.
const ACTED: &[Asked] = &[
    (Ask::Subject("tg"), Want::Created(3)),
    (Ask::Assume(3), Want::Done),
    (Ask::Document("r"), Want::Created(4)),
    (Ask::Retire, Want::NotPrincipal),
    (Ask::Leave, Want::Done),
    (Ask::Retire, Want::Done),
    (Ask::Leave, Want::Done),
    (Ask::Assume(3), Want::Retired),
];

const OF_AN_AGENT: &[Settlement] = &[
    Settlement {
        logs: &[(0, 1, BEFORE), (0, 3, AS_AGENT), (0, 1, AFTER)],
        place: None,
    },
    // the principal is another actor than the agent
    Settlement {
        logs: &[(0, 1, ACTED)],
        place: Some((0, 2)),
    },
    Settlement {
        logs: &[(0, 1, BEFORE), (0, 3, AS_AGENT), (0, 3, AFTER)],
        place: Some((0, 5)),
    },
];

/// The lines of a vault, its entries with their replies, and logs that are settled with them.
pub struct History {
    pub case: Case,
    pub entries: &'static [Asked],
    pub settlements: &'static [Settlement],
}

pub const HISTORIES: &[History] = &[
    History {
        case: HISTORY,
        entries: ENTRIES,
        settlements: SETTLEMENTS,
    },
    // the commands of one who enrols, who is enrolled, and who has retired, are entries like all others
    History {
        case: COME_AND_GO,
        entries: COMING_AND_GOING,
        settlements: OF_BOTH,
    },
    // the commands of an agent are its own, those before and after it the principal's
    History {
        case: ACTING,
        entries: ACTED,
        settlements: OF_AN_AGENT,
    },
];
