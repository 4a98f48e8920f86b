//! Vaults that begin anew with what is live: what is left, what is answered from then on, and who is refused.
use crate::audit_logs::{is_replayed, opened};
use crate::cases::{Ask, Asked, LONG, TWO, Want, rights_of};
use crate::vault::{ALICE, Case, Line, lines_are_answered, played};
use std::alloc::{AllocError, Global};
use std::io::Print;
use std::process::Abort;
use tg_audit::entry_step;
use tg_graph::Graph;
use tg_rights::{Kind, Which};
use tg_vault::{Entry, Rebased, SeatFault, Vault};

/// Whether the vault began anew, and its history had this many entries, if there was memory.
fn is_fresh(rebased: &Rebased, entries: u64) -> bool {
    match rebased {
        Rebased::Fresh { dropped, .. } => *dropped == entries,
        Rebased::Seated { .. } => false,
        Rebased::NoMemory { .. } => true,
    }
}

/// The least seat in use, if the vault was handed back for it.
fn seat(rebased: &Rebased) -> Option<u64> {
    match rebased {
        Rebased::Fresh { .. } => None,
        Rebased::Seated { seat, .. } => Some(*seat),
        Rebased::NoMemory { .. } => None,
    }
}

/// The vault, whatever a rebase did.
fn vault_of(rebased: Rebased) -> Vault {
    match rebased {
        Rebased::Fresh { vault, .. } => vault,
        Rebased::Seated { vault, .. } => vault,
        Rebased::NoMemory { vault, .. } => vault,
    }
}

/// The vault, if there was memory for a rebase.
fn vault_with_memory(rebased: Rebased) -> Result<Vault, AllocError> {
    match rebased {
        Rebased::Fresh { vault, .. } => Ok(vault),
        Rebased::Seated { vault, .. } => Ok(vault),
        Rebased::NoMemory { .. } => Err(AllocError),
    }
}

/// The vault that begins anew, whose history had this many entries.
fn fresh(rt: &impl Abort, vault: Vault, entries: u64) -> Result<Vault, AllocError> {
    let rebased = vault.rebase();
    assert!(rt; is_fresh(&rebased, entries));
    vault_with_memory(rebased)
}

/// The vault, which is handed back because this is the least seat in use.
fn seated(rt: &impl Abort, vault: Vault, least: u64) -> Vault {
    let rebased = vault.rebase();
    assert!(rt; seat(&rebased) == Some(least));
    vault_of(rebased)
}

/// Alice finishes her target, and both leave.
const ALL_LEAVE: &[Line] = &[
    Line::Shaded(0, 4),
    Line::Bye(0, Ok(())),
    Line::Bye(1, Ok(())),
];

/// Alice has the document that lived, and not the one that was garbage; the slots are still in use.
const AFTER_GARBAGE: &[Line] = &[
    ALICE,
    Line::Ask(0, Ask::Read(4), Want::Text("")),
    Line::Ask(0, Ask::Read(3), Want::Lacks(1, 3, "r")),
    Line::Ask(0, Ask::Document("r"), Want::Full(Which::Slots)),
];

const ASKED_AFTER_GARBAGE: &[Asked] = &[
    (Ask::Read(4), Want::Text("")),
    (Ask::Read(3), Want::Lacks(1, 3, "r")),
    (Ask::Document("r"), Want::Full(Which::Slots)),
];

/// Whether these are alice and bob, and the document 4, which alice may read.
fn has_no_garbage(opening: &Graph) -> bool {
    opening.kind(1) == Some(Kind::Subject)
        && opening.kind(2) == Some(Kind::Subject)
        && opening.kind(3).is_none()
        && opening.kind(4) == Some(Kind::Document)
        && opening.kind(5).is_none()
        && opening.rights(1, 4) == rights_of("r")
}

/// The lines have these answers in a vault without entries, each command as the next entry, and are replayed so.
fn answers_anew(
    rt: &impl Abort,
    alloc: Global,
    anew: &mut Vault,
    lines: &[Line],
    asked: &[Asked],
) -> Result<(), AllocError> {
    assert!(rt; anew.count() == 0);
    lines_are_answered(rt, alloc, anew, lines)?;
    assert!(rt; anew.count() == asked.len() as u64);
    assert!(rt; is_replayed(alloc, anew, asked)?);
    Ok(())
}

/// All leave the vault that a rebase handed back, with its four entries.
fn all_leave(rt: &impl Abort, alloc: Global, vault: &mut Vault) -> Result<(), AllocError> {
    assert!(rt; vault.count() == 4);
    lines_are_answered(rt, alloc, vault, ALL_LEAVE)
}

/// The vault in which a document became garbage and was freed, after a rebase was refused and all have left.
fn left_with_garbage(rt: &impl Abort, alloc: Global) -> Result<Vault, AllocError> {
    let used = opened(rt, alloc)?;
    let mut vault = seated(rt, used, 0);
    all_leave(rt, alloc, &mut vault)?;
    Ok(vault)
}

/// The vault began without the document that was garbage, and answers so.
fn answers_without_garbage(
    rt: &impl Abort,
    alloc: Global,
    anew: &mut Vault,
) -> Result<(), AllocError> {
    assert!(rt; has_no_garbage(anew.opening()));
    answers_anew(rt, alloc, anew, AFTER_GARBAGE, ASKED_AFTER_GARBAGE)
}

/// After a document became garbage and was freed, a rebase is refused while somebody sits, and leaves what lives.
fn begins_without_garbage(rt: &impl Abort, alloc: Global) -> Result<(), AllocError> {
    let vault = left_with_garbage(rt, alloc)?;
    let mut anew = fresh(rt, vault, 4)?;
    answers_without_garbage(rt, alloc, &mut anew)
}

#[test]
fn rebase_after_garbage(rt: HostRuntime) -> Result<(), AllocError> {
    begins_without_garbage(&rt, rt.alloc())
}

/// Alice enrols carol and dave, who retire; over carol she keeps a right, over dave none.
const TWO_RETIRE: Case = Case {
    opening: TWO,
    lines: &[
        ALICE,
        Line::Ask(0, Ask::Enrol("carol", "t"), Want::Created(3)),
        Line::Shaded(0, 3),
        Line::Ask(0, Ask::Enrol("dave", "t"), Want::Created(4)),
        Line::Shaded(0, 4),
        Line::Hello(2, "carol", Ok(3)),
        Line::Ask(2, Ask::Retire, Want::Done),
        Line::Bye(2, Ok(())),
        Line::Hello(2, "dave", Ok(4)),
        Line::Ask(2, Ask::Retire, Want::Done),
        Line::Bye(2, Ok(())),
        Line::Ask(0, Ask::Remove("t", 4), Want::Done),
        Line::Bye(0, Ok(())),
    ],
};

/// Whether carol is there and has retired, and dave is not.
fn has_carol(opening: &Graph) -> bool {
    opening.kind(3) == Some(Kind::Subject)
        && opening.retired(3)
        && opening.rights(1, 3) == rights_of("t")
        && opening.kind(4).is_none()
        && !opening.retired(4)
        && !opening.retired(1)
}

/// Carol is no principal, her name is free, and a new principal gets the serial after dave's.
const CAROL_IS_KEPT: &[Line] = &[
    Line::Hello(0, "carol", Err(SeatFault::NoPrincipal)),
    ALICE,
    Line::Ask(0, Ask::Look(1), Want::Edges(&[(3, "t")])),
    Line::Ask(0, Ask::Look(3), Want::Edges(&[])),
    Line::Ask(0, Ask::Enrol("carol", "r"), Want::Created(5)),
    Line::Shaded(0, 5),
    Line::Hello(1, "carol", Ok(5)),
];

const ASKED_OF_CAROL: &[Asked] = &[
    (Ask::Look(1), Want::Edges(&[(3, "t")])),
    (Ask::Look(3), Want::Edges(&[])),
    (Ask::Enrol("carol", "r"), Want::Created(5)),
];

/// The vault began with carol and without dave, and answers so.
fn answers_with_carol(rt: &impl Abort, alloc: Global, anew: &mut Vault) -> Result<(), AllocError> {
    assert!(rt; has_carol(anew.opening()));
    answers_anew(rt, alloc, anew, CAROL_IS_KEPT, ASKED_OF_CAROL)
}

/// Of those who have retired a rebase keeps the one that somebody has rights over.
fn keeps_the_retired_that_are_held(rt: &impl Abort, alloc: Global) -> Result<(), AllocError> {
    let vault = played(rt, alloc, &TWO_RETIRE)?;
    let mut anew = fresh(rt, vault, 5)?;
    answers_with_carol(rt, alloc, &mut anew)
}

#[test]
fn a_rebase_keeps_the_retired_that_are_held(rt: HostRuntime) -> Result<(), AllocError> {
    keeps_the_retired_that_are_held(&rt, rt.alloc())
}

/// Whether these are the entries of that vault: two enrols, two retirements and a remove.
fn are_of_two_who_retired(history: &[Entry]) -> bool {
    let actors = history.iter().map(|entry| entry.actor());
    actors.eq([1, 1, 3, 4, 1])
}

/// Who did a step that changed edges, by an entry.
fn who_changed_edges(entry: &Entry) -> Option<u64> {
    let step = entry_step(entry)?;
    Some(step.actor)
}

/// Whether the two enrols and the remove changed edges, and the retirements did not.
fn changed_edges(history: &[Entry]) -> bool {
    let changes = history.iter().map(who_changed_edges);
    changes.eq([Some(1), Some(1), None, None, Some(1)])
}

/// Whether it is the graph of alice and bob alone.
fn is_of_two(opening: Option<&Graph>) -> bool {
    match opening {
        Some(graph) => graph.kind(2) == Some(Kind::Subject) && graph.kind(3).is_none(),
        None => false,
    }
}

/// The vault hands its history and its opening graph over as it begins anew, and has neither then.
fn hands_its_history_over(rt: &impl Abort, alloc: Global) -> Result<(), AllocError> {
    let vault = played(rt, alloc, &TWO_RETIRE)?;
    let (rebased, past) = vault.rebase_with_past();
    let anew = vault_with_memory(rebased)?;
    assert!(rt; are_of_two_who_retired(&past.history));
    assert!(rt; changed_edges(&past.history));
    assert!(rt; is_of_two(past.opening.as_ref()));
    assert!(rt; anew.into_history().is_empty());
    Ok(())
}

#[test]
fn a_rebase_hands_its_history_over(rt: HostRuntime) -> Result<(), AllocError> {
    hands_its_history_over(&rt, rt.alloc())
}

/// A vault with somebody on a seat hands nothing over, and has its entries still.
fn keeps_its_history(rt: &impl Abort, alloc: Global) -> Result<(), AllocError> {
    let used = opened(rt, alloc)?;
    let (rebased, none) = used.rebase_with_past();
    assert!(rt; none.history.is_empty());
    assert!(rt; none.opening.is_none());
    let vault = vault_of(rebased);
    assert!(rt; vault.into_history().len() == 4);
    Ok(())
}

#[test]
fn a_refused_rebase_keeps_its_history(rt: HostRuntime) -> Result<(), AllocError> {
    keeps_its_history(&rt, rt.alloc())
}

/// Alice writes into a document of hers and enrols carol, who retires; then both leave.
const WRITTEN: Case = Case {
    opening: TWO,
    lines: &[
        ALICE,
        Line::Make(0, "rw", 3),
        Line::Ask(0, Ask::Write(3, LONG), Want::Done),
        Line::Ask(0, Ask::Enrol("carol", "t"), Want::Created(4)),
        Line::Shaded(0, 4),
        Line::Hello(2, "carol", Ok(4)),
        Line::Ask(2, Ask::Retire, Want::Done),
        Line::Bye(2, Ok(())),
        Line::Bye(0, Ok(())),
    ],
};

/// All of that is there.
const STILL_WRITTEN: &[Line] = &[
    ALICE,
    Line::Ask(0, Ask::Read(3), Want::Text(LONG)),
    Line::Ask(0, Ask::Look(1), Want::Edges(&[(3, "rw"), (4, "t")])),
    Line::Bye(0, Ok(())),
];

/// The vault has its whole history and what was written, and gets two more entries.
fn is_still_written(rt: &impl Abort, alloc: Global, vault: &mut Vault) -> Result<(), AllocError> {
    assert!(rt; vault.count() == 4);
    lines_are_answered(rt, alloc, vault, STILL_WRITTEN)
}

/// The vault that begins anew with what a rebase without memory handed back: with its whole history, to which two more
/// entries are added first.
fn fresh_later(rt: &impl Abort, alloc: Global, handed_back: Vault) -> Result<Vault, AllocError> {
    let mut vault = handed_back;
    is_still_written(rt, alloc, &mut vault)?;
    fresh(rt, vault, 6)
}

/// The vault that begins anew. If memory runs out all is there, and the rebase is made again.
fn fresh_again(
    rt: &(impl Abort + Print),
    alloc: Global,
    vault: Vault,
) -> Result<Vault, AllocError> {
    match vault.rebase() {
        Rebased::NoMemory { vault } => {
            let _ = rt.println("no memory");
            fresh_later(rt, alloc, vault)
        }
        Rebased::Fresh { vault, dropped } => {
            assert!(rt; dropped == 4);
            Ok(vault)
        }
        Rebased::Seated { .. } => panic!(rt; "seated"),
    }
}

/// Whether the opening graph has alice's document and carol, who has retired.
fn has_what_was_written(vault: &Vault) -> bool {
    vault.count() == 0
        && vault.opening().kind(3) == Some(Kind::Document)
        && vault.opening().retired(4)
}

/// The vault began with all of it, and answers so.
fn answers_what_was_written(
    rt: &impl Abort,
    alloc: Global,
    anew: &mut Vault,
) -> Result<(), AllocError> {
    assert!(rt; has_what_was_written(anew));
    lines_are_answered(rt, alloc, anew, STILL_WRITTEN)
}

/// The vault that begins anew has all of it.
fn begins_anew_again(rt: &(impl Abort + Print), alloc: Global) -> Result<(), AllocError> {
    let written = played(rt, alloc, &WRITTEN)?;
    let mut vault = fresh_again(rt, alloc, written)?;
    answers_what_was_written(rt, alloc, &mut vault)
}

/// A rebase that lacks memory leaves the vault with its history: tests/faults/growths.py makes each allocation fail in
/// turn.
#[test]
fn growth_refused_in_a_rebase(rt: HostRuntime) -> Result<(), AllocError> {
    begins_anew_again(&rt, rt.alloc())
}
