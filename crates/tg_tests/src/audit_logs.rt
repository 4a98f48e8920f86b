//! What no clause says: that replays and settlements succeed if there is memory, and the results of histories that were
//! worked by hand.
use crate::audit_histories::{HISTORIES, History};
use crate::cases::{Ask, Asked, ONE_MORE, Want, command, is_reply, rule_of};
use crate::vault::{ALICE, BOB, Case, Line, played};
use std::alloc::{AllocError, Global};
use std::process::Abort;
use tg_audit::{Exchange, SeatLog, Settled, replay, settle_with_logs};
use tg_rights::{Cause, Reply, Rule, Which};
use tg_vault::Vault;

/// What alice asks for at seat 0, and the replies: in a vault of three slots a document is made and dropped, another
/// one is refused, and after two cycles it is made.
pub const ENTRIES: &[Asked] = &[
    (Ask::Document("r"), Want::Created(3)),
    (Ask::Remove("r", 3), Want::Done),
    (Ask::Document("r"), Want::Full(Which::Slots)),
    (Ask::Document("r"), Want::Created(4)),
];

/// The same with another serial at the end.
const INVENTED: &[Asked] = &[
    (Ask::Document("r"), Want::Created(3)),
    (Ask::Remove("r", 3), Want::Done),
    (Ask::Document("r"), Want::Full(Which::Slots)),
    (Ask::Document("r"), Want::Created(5)),
];

const FIRST_TWO: &[Asked] = &[
    (Ask::Document("r"), Want::Created(3)),
    (Ask::Remove("r", 3), Want::Done),
];

const LAST_TWO: &[Asked] = &[
    (Ask::Document("r"), Want::Full(Which::Slots)),
    (Ask::Document("r"), Want::Created(4)),
];

const ONE: &[Asked] = &[(Ask::Document("r"), Want::Created(4))];

/// Exchanges of an actor at a seat.
pub type Log = (u64, u64, &'static [Asked]);

/// Logs, and the seat and the index at which they first differ from the history, if they do.
pub struct Settlement {
    pub logs: &'static [Log],
    pub place: Option<(u64, u64)>,
}

pub const SETTLEMENTS: &[Settlement] = &[
    Settlement {
        logs: &[(0, 1, ENTRIES)],
        place: None,
    },
    Settlement {
        logs: &[(0, 1, INVENTED)],
        place: Some((0, 3)),
    },
    Settlement {
        logs: &[],
        place: Some((0, 0)),
    },
    // another actor
    Settlement {
        logs: &[(0, 2, ENTRIES)],
        place: Some((0, 0)),
    },
    // the logs of a seat are joined in the order given
    Settlement {
        logs: &[(0, 1, FIRST_TWO), (1, 2, &[]), (0, 1, LAST_TWO)],
        place: None,
    },
    Settlement {
        logs: &[(0, 1, LAST_TWO), (0, 1, FIRST_TWO)],
        place: Some((0, 0)),
    },
    // one is longer
    Settlement {
        logs: &[(0, 1, FIRST_TWO)],
        place: Some((0, 2)),
    },
    Settlement {
        logs: &[(0, 1, ENTRIES), (0, 1, ONE)],
        place: Some((0, 4)),
    },
    // the least seat is named, whatever the order of the logs
    Settlement {
        logs: &[(2, 1, ONE), (1, 1, ONE), (0, 1, ENTRIES)],
        place: Some((1, 0)),
    },
    // no entry is of a seat above 63
    Settlement {
        logs: &[(64, 1, &[]), (0, 1, ENTRIES)],
        place: None,
    },
    Settlement {
        logs: &[(65, 1, ONE), (0, 1, ENTRIES), (64, 1, ONE)],
        place: Some((64, 0)),
    },
];

/// Those entries, with two cycles before the last.
pub const HISTORY: Case = Case {
    opening: ONE_MORE,
    lines: &[
        ALICE,
        BOB,
        Line::Make(0, "r", 3),
        Line::Ask(0, Ask::Remove("r", 3), Want::Done),
        Line::Ask(0, Ask::Document("r"), Want::Full(Which::Slots)),
        Line::Cycle(0, 12),
        Line::Cycle(1, 10),
        Line::Ask(0, Ask::Document("r"), Want::Created(4)),
    ],
};

/// The vault of those entries.
pub fn opened(rt: &impl Abort, alloc: Global) -> Result<Vault, AllocError> {
    played(rt, alloc, &HISTORY)
}

/// Whether these are the replies to what was asked.
pub fn are_replies(found: &[Reply], asked: &[Asked]) -> bool {
    found.len() == asked.len()
        && found.iter().zip(asked.iter()).all(|(reply, entry)| is_reply(
            reply,
            rule_of(entry.0),
            entry.1,
        ))
}

/// Whether the vault's history is replayed with these replies to what was asked.
pub fn is_replayed(alloc: Global, vault: &Vault, asked: &[Asked]) -> Result<bool, AllocError> {
    let replies = replay(alloc, vault)?;
    Ok(are_replies(&replies, asked))
}

/// The cause that is wanted, of those that the tables name.
fn cause(rt: &impl Abort, want: Want) -> Cause {
    match want {
        Want::Retired => Cause::Retired,
        Want::NotPrincipal => Cause::NotPrincipal,
        Want::NameTaken => Cause::NameTaken,
        _ => panic!(rt; "a reply of another kind"),
    }
}

/// The reply to a command of this rule, which is one of those that hold no memory.
fn reply(rt: &impl Abort, rule: Rule, want: Want) -> Reply {
    match want {
        Want::Done => Reply::Done,
        Want::Created(serial) => Reply::Created(serial),
        Want::Full(which) => Reply::Full(which),
        _ => Reply::Denied(rule, cause(rt, want)),
    }
}

/// The log of these exchanges.
fn log_of(rt: &impl Abort, alloc: Global, log: Log) -> Result<SeatLog, AllocError> {
    let mut exchanges = Vec::new(alloc);
    for (ask, want) in log.2 {
        exchanges.push(Exchange {
            actor: log.1,
            command: command(alloc, *ask)?,
            reply: reply(rt, rule_of(*ask), *want),
        })?;
    }
    Ok(SeatLog {
        seat: log.0,
        exchanges,
    })
}

/// The logs of the settlement.
pub fn logs_of(
    rt: &impl Abort,
    alloc: Global,
    settlement: &Settlement,
) -> Result<Vec<SeatLog>, AllocError> {
    let mut logs = Vec::new(alloc);
    for log in settlement.logs {
        logs.push(log_of(rt, alloc, *log)?)?;
    }
    Ok(logs)
}

/// Whether it was settled as worked out, if there was memory.
fn is_settled(settled: &Settled, settlement: &Settlement) -> bool {
    match settled {
        Settled::Agreed(_) => settlement.place.is_none(),
        Settled::Differs {
            logs,
            seat,
            index,
            ..
        } => settlement.place == Some((*seat, *index)) && logs.len() == settlement.logs.len(),
        Settled::NoMemory { .. } => true,
    }
}

/// The vault, if there was memory to settle it.
fn vault_of(settled: Settled) -> Result<Vault, AllocError> {
    match settled {
        Settled::Agreed(vault) => Ok(vault),
        Settled::Differs { vault, .. } => Ok(vault),
        Settled::NoMemory { .. } => Err(AllocError),
    }
}

/// The vault, which was settled as worked out.
pub fn vault_as_worked_out(
    rt: &impl Abort,
    settled: Settled,
    settlement: &Settlement,
) -> Result<Vault, AllocError> {
    assert!(rt; is_settled(&settled, settlement));
    vault_of(settled)
}

/// Whether the logs were given back if they agree, and otherwise none.
fn are_given_back(settled: &Settled, back: &[SeatLog], settlement: &Settlement) -> bool {
    match settled {
        Settled::Agreed(_) => back.len() == settlement.logs.len(),
        _ => back.is_empty(),
    }
}

/// The vault, with whose history the settlement's logs are settled as worked out.
fn after(
    rt: &impl Abort,
    alloc: Global,
    vault: Vault,
    settlement: &Settlement,
) -> Result<Vault, AllocError> {
    let logs = logs_of(rt, alloc, settlement)?;
    let (settled, back) = settle_with_logs(alloc, vault, logs);
    assert!(rt; are_given_back(&settled, &back, settlement));
    vault_as_worked_out(rt, settled, settlement)
}

/// The same for a vault that an earlier settlement returned, if there was memory.
fn after_another(
    rt: &impl Abort,
    alloc: Global,
    settled: Result<Vault, AllocError>,
    settlement: &Settlement,
) -> Result<Vault, AllocError> {
    after(rt, alloc, settled?, settlement)
}

/// All was settled, if there was memory.
pub fn are_settled(settled: Result<Vault, AllocError>) -> Result<(), AllocError> {
    settled?;
    Ok(())
}

/// The logs are settled with the vault's history as worked out, one after another.
fn settles(
    rt: &impl Abort,
    alloc: Global,
    opened: Vault,
    settlements: &[Settlement],
) -> Result<(), AllocError> {
    let mut settled = Ok(opened);
    for settlement in settlements {
        settled = after_another(rt, alloc, settled, settlement);
    }
    are_settled(settled)
}

/// The vault's history is replayed with these replies to what was asked.
fn replays(
    rt: &impl Abort,
    alloc: Global,
    vault: &Vault,
    asked: &[Asked],
) -> Result<(), AllocError> {
    let replayed = is_replayed(alloc, vault, asked)?;
    assert!(rt; replayed);
    Ok(())
}

/// The history is replayed, and its logs are settled, as worked out.
fn is_told(rt: &impl Abort, alloc: Global, history: &History) -> Result<(), AllocError> {
    let vault = played(rt, alloc, &history.case)?;
    replays(rt, alloc, &vault, history.entries)?;
    settles(rt, alloc, vault, history.settlements)
}

/// Each history is.
fn are_told(rt: &impl Abort, alloc: Global) -> Result<(), AllocError> {
    for history in HISTORIES {
        is_told(rt, alloc, history)?;
    }
    Ok(())
}

#[test]
fn logs_are_settled_as_worked_out(rt: HostRuntime) -> Result<(), AllocError> {
    are_told(&rt, rt.alloc())
}
