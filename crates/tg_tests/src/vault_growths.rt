//! Calls that lack memory and are made again: tests/faults/growths.py makes each allocation of these tests fail in
//! turn.
use crate::cases::{
    Ask, CROWD, LONG, Opening, TAKING, TWO, Want, command, config, is_reply, rule_of,
};
use crate::vault::{ALICE, BOB, Case, Line, answers, opened};
use std::alloc::{AllocError, Global};
use std::io::Print;
use std::process::Abort;
use tg_graph::OpenFault;
use tg_rights::Kind;
use tg_vault::{AskFault, SeatFault, Vault};

/// Alice alone, with the default numbers of slots and cells.
const ALICE_ALONE: Opening = Opening {
    names: &["alice"],
    edges: &[],
    next: 2,
    slots: 1024,
    cells: 16_384,
};

/// The vault of alice alone, opened again if memory runs out.
fn opened_again(rt: &(impl Abort + Print), alloc: Global) -> Result<Vault, AllocError> {
    match Vault::new(alloc, config(alloc, &ALICE_ALONE)?) {
        Ok(vault) => Ok(vault),
        Err(fault) => {
            let _ = rt.println("no memory");
            assert!(rt; fault == OpenFault::OutOfMemory);
            let config = config(alloc, &ALICE_ALONE)?;
            Ok(Vault::new(alloc, config).ok().expect(rt, "refused again"))
        }
    }
}

/// Whether the vault has no entry, and began with alice alone.
fn has_alice_alone(vault: &Vault) -> bool {
    vault.count() == 0
        && vault.opening().kind(1) == Some(Kind::Subject)
        && vault.opening().kind(2).is_none()
}

/// That is so, and she takes her seat.
fn seats_alice_alone(rt: &impl Abort, vault: &mut Vault) {
    assert!(rt; has_alice_alone(vault));
    assert!(rt; vault.hello(0, "alice") == Ok(1));
}

/// After an opening that lacked memory the same configuration opens a vault: without entries, and with alice alone.
#[test]
fn growth_refused_in_an_opening(rt: HostRuntime) -> Result<(), AllocError> {
    let mut vault = opened_again(&rt, rt.alloc())?;
    seats_alice_alone(&rt, &mut vault);
    Ok(())
}

/// Whether nothing was entered since there were this many entries, and the seat has no target.
fn is_unchanged(vault: &mut Vault, seat: u64, entries: u64) -> bool {
    vault.count() == entries && vault.shade(seat) == Ok(None)
}

/// Whether the seat's command gets this reply, as the next entry. If memory runs out nothing is entered, no target is
/// left, and the same command gets this reply when it is submitted again.
fn asks_again(
    rt: &(impl Abort + Print),
    alloc: Global,
    vault: &mut Vault,
    seat: u64,
    ask: Ask,
    want: Want,
) -> Result<bool, AllocError> {
    let entries = vault.count();
    let first = command(alloc, ask)?;
    let entered = match vault.command(seat, first) {
        Ok(entered) => entered,
        Err(fault) => {
            let _ = rt.println("no memory");
            assert!(rt; fault == AskFault::OutOfMemory && is_unchanged(vault, seat, entries));
            let second = command(alloc, ask)?;
            vault.command(seat, second).ok().expect(rt, "refused again")
        }
    };
    Ok(entered.0 == entries && is_reply(&entered.1, rule_of(ask), want))
}

/// Whether the line has this answer; a command that lacks memory is submitted again.
fn answers_again(
    rt: &(impl Abort + Print),
    alloc: Global,
    vault: &mut Vault,
    line: Line,
) -> Result<bool, AllocError> {
    match line {
        Line::Ask(seat, ask, want) => asks_again(rt, alloc, vault, seat, ask, want),
        other => answers(alloc, vault, other),
    }
}

/// The lines have these answers, one after another; each command that lacks memory is submitted again.
fn lines_are_answered_again(
    rt: &(impl Abort + Print),
    alloc: Global,
    vault: &mut Vault,
    lines: &[Line],
) -> Result<(), AllocError> {
    for line in lines {
        let answered = answers_again(rt, alloc, vault, *line)?;
        assert!(rt; answered);
    }
    Ok(())
}

/// The case's lines have the answers that it says, submitted again if memory runs out.
fn plays_again(rt: &(impl Abort + Print), alloc: Global, case: &Case) -> Result<(), AllocError> {
    let mut vault = opened(rt, alloc, &case.opening)?;
    lines_are_answered_again(rt, alloc, &mut vault, case.lines)
}

/// Bob creates a document and shades it, and has nothing more to shade.
const CREATED: Case = Case {
    opening: TWO,
    lines: &[
        BOB,
        Line::Ask(1, Ask::Document("rwg"), Want::Created(3)),
        Line::Shaded(1, 3),
        Line::Shade(1, Ok(None)),
    ],
};

/// A create that lacks memory leaves no vertex and no target.
#[test]
fn growth_refused_in_a_create(rt: HostRuntime) -> Result<(), AllocError> {
    plays_again(&rt, rt.alloc(), &CREATED)
}

/// Commands that need memory of their own: for the copy of a text, and for a list of edges.
const ON_A_TEXT: Case = Case {
    opening: TAKING,
    lines: &[
        ALICE,
        Line::Ask(0, Ask::Document("rw"), Want::Created(3)),
        Line::Shaded(0, 3),
        Line::Ask(0, Ask::Write(3, LONG), Want::Done),
        Line::Ask(0, Ask::Read(3), Want::Text(LONG)),
        Line::Ask(0, Ask::Look(1), Want::Edges(&[(2, "t"), (3, "rw")])),
    ],
};

/// A write that lacks memory leaves the text, a read and a look the vault.
#[test]
fn growth_refused_in_commands_on_a_text(rt: HostRuntime) -> Result<(), AllocError> {
    plays_again(&rt, rt.alloc(), &ON_A_TEXT)
}

/// Alice enrols carol, who retires: an enrol needs memory for the copy of its name, a retire for the vault's set of
/// those who have retired.
const ENROLLED: Case = Case {
    opening: TWO,
    lines: &[
        ALICE,
        Line::Ask(0, Ask::Enrol("carol", "t"), Want::Created(3)),
        Line::Shaded(0, 3),
        Line::Hello(2, "carol", Ok(3)),
        Line::Ask(2, Ask::Retire, Want::Done),
        Line::Ask(2, Ask::Look(3), Want::Retired),
        Line::Hello(3, "carol", Err(SeatFault::NoPrincipal)),
    ],
};

/// An enrol that lacks memory leaves the name free, a retire the principal.
#[test]
fn growth_refused_in_an_enrol_and_a_retire(rt: HostRuntime) -> Result<(), AllocError> {
    plays_again(&rt, rt.alloc(), &ENROLLED)
}

/// Whether the principal of this name says hello, retires and says bye; a retire that lacks memory is submitted again.
fn visits_again(
    rt: &(impl Abort + Print),
    alloc: Global,
    vault: &mut Vault,
    name: &str,
) -> Result<bool, AllocError> {
    let is_seated = vault.hello(0, name).is_ok();
    let is_gone = asks_again(rt, alloc, vault, 0, Ask::Retire, Want::Done)?;
    Ok(is_seated && is_gone && vault.bye(0) == Ok(()))
}

/// Those of these names retire, one after another.
fn all_retire(
    rt: &(impl Abort + Print),
    alloc: Global,
    vault: &mut Vault,
    names: &[&str],
) -> Result<(), AllocError> {
    for name in names {
        assert!(rt; visits_again(rt, alloc, vault, name)?);
    }
    Ok(())
}

/// As many as there may be retire.
fn crowd_retires(rt: &(impl Abort + Print), alloc: Global) -> Result<(), AllocError> {
    let mut vault = opened(rt, alloc, &CROWD)?;
    all_retire(rt, alloc, &mut vault, CROWD.names)
}

/// However many have retired, a retire that lacks memory leaves the principal.
#[test]
fn growth_refused_in_the_retires_of_a_crowd(rt: HostRuntime) -> Result<(), AllocError> {
    crowd_retires(&rt, rt.alloc())
}

/// Alice acts for a subject that she made: neither an assume nor a leave needs memory but for the entry.
const ACTED: Case = Case {
    opening: TWO,
    lines: &[
        ALICE,
        Line::Ask(0, Ask::Subject("tg"), Want::Created(3)),
        Line::Shaded(0, 3),
        Line::Ask(0, Ask::Assume(3), Want::Done),
        Line::Shaded(0, 3),
        Line::Ask(0, Ask::Leave, Want::Done),
        Line::Ask(0, Ask::Leave, Want::Done),
        Line::Ask(0, Ask::Assume(3), Want::Done),
        Line::Shaded(0, 3),
        Line::Ask(0, Ask::Read(1), Want::Lacks(3, 1, "r")),
        Line::Make(0, "r", 4),
        Line::Ask(0, Ask::Read(4), Want::Text("")),
        Line::Ask(0, Ask::Leave, Want::Done),
        Line::Ask(0, Ask::Read(4), Want::Lacks(1, 4, "r")),
    ],
};

/// An assume that lacks memory leaves the seat to its principal, a leave to its agent.
#[test]
fn growth_refused_in_an_assume_and_a_leave(rt: HostRuntime) -> Result<(), AllocError> {
    plays_again(&rt, rt.alloc(), &ACTED)
}
