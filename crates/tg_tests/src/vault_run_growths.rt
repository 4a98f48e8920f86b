//! Events and runs that lack memory and are made again: tests/faults/growths.py makes each allocation of these tests
//! fail in turn.
use crate::cases::{Ask, TWO};
use crate::vault::{BOB, Case, opened, played};
use crate::vault_runs::{Step, event, events};
use std::alloc::{AllocError, Global};
use std::io::Print;
use std::process::Abort;
use tg_rights::Reply;
use tg_vault::{Answer, AskFault, Event, Ran, Vault};

/// Bob creates a document.
const CREATE: Step = Step::Ask(1, Ask::Document("rwg"));

/// The answer to an event.
#[derive(Clone, Copy)]
enum Told {
    Hello(u64),
    /// The first entry is a create, with this serial.
    Created(u64),
    Shaded(Option<u64>),
}

/// Whether the answer is this one.
fn tells(answer: &Answer, told: Told) -> bool {
    match told {
        Told::Hello(wanted) => matches!(answer, Answer::Hello(serial) if *serial == wanted),
        Told::Created(wanted) => {
            matches!(answer, Answer::Asked(0, Reply::Created(serial)) if *serial == wanted)
        }
        Told::Shaded(wanted) => matches!(answer, Answer::Shaded(target) if *target == wanted),
    }
}

/// Bob sits, and nobody has rights.
const SEATED: Case = Case {
    opening: TWO,
    lines: &[BOB],
};

/// The answer to bob's create as an event; if memory runs out nothing is entered, and it comes again.
fn created_again(
    rt: &(impl Abort + Print),
    alloc: Global,
    vault: &mut Vault,
) -> Result<Answer, AllocError> {
    Ok(match vault.run_one(event(alloc, CREATE)?) {
        Answer::Ask(AskFault::OutOfMemory) => {
            let _ = rt.println("no memory");
            assert!(rt; vault.count() == 0);
            vault.run_one(event(alloc, CREATE)?)
        }
        answer => answer,
    })
}

/// Whether the create has this answer and is shaded, and is the one entry.
fn is_created_again(
    rt: &(impl Abort + Print),
    alloc: Global,
    vault: &mut Vault,
) -> Result<bool, AllocError> {
    let created = created_again(rt, alloc, vault)?;
    let shaded = vault.run_one(event(alloc, Step::Shade(1))?);
    Ok(
        tells(&created, Told::Created(3))
            && tells(&shaded, Told::Shaded(Some(3)))
            && vault.count() == 1,
    )
}

/// Bob's create is answered in that way.
fn creates_again(
    rt: &(impl Abort + Print),
    alloc: Global,
    vault: &mut Vault,
) -> Result<(), AllocError> {
    assert!(rt; is_created_again(rt, alloc, vault)?);
    Ok(())
}

/// A create that lacks memory as an event leaves no entry, and is answered when it comes again.
#[test]
fn growth_refused_in_an_event(rt: HostRuntime) -> Result<(), AllocError> {
    let mut vault = played(&rt, rt.alloc(), &SEATED)?;
    creates_again(&rt, rt.alloc(), &mut vault)
}

/// Alice and bob take their seats; he creates a document, shades it, and has nothing more to shade.
const CREATE_AND_SHADE: &[Step] = &[
    Step::Hello(0, "alice"),
    Step::Hello(1, "bob"),
    Step::Ask(1, Ask::Document("rwg")),
    Step::Shade(1),
    Step::Shade(1),
];

/// The answers to these events.
const CREATED_AND_SHADED: [Told; 5] = [
    Told::Hello(1),
    Told::Hello(2),
    Told::Created(3),
    Told::Shaded(Some(3)),
    Told::Shaded(None),
];

/// How many answers are as they should be, before the first that is not.
fn count_told(answers: &[Answer], wanted: &[Told]) -> usize {
    let other = answers
        .iter()
        .zip(wanted.iter())
        .position(|(answer, want)| !tells(answer, *want));
    other.unwrap_or(answers.len())
}

/// Whether nothing was answered, or a command was refused and left no target.
fn are_refused(answers: &[Answer]) -> bool {
    match answers {
        [] => true,
        [asked, shaded @ ..] => {
            matches!(asked, Answer::Ask(AskFault::OutOfMemory))
                && shaded
                    .iter()
                    .all(|answer| matches!(answer, Answer::Shaded(None)))
        }
    }
}

/// What follows the first items.
fn rest<T>(items: &[T], done: usize) -> &[T] {
    items.get(done..).unwrap_or(&[])
}

/// Whether the run lacked memory after the first answers, and carried out no more than those.
fn ends_at(ran: &Ran, done: usize) -> bool {
    are_refused(rest(&ran.answers, done)) && (ran.vault.count() == 1) == (done > 2)
}

/// Whether each answer is as it should be.
fn are_told(answers: &[Answer], wanted: &[Told]) -> bool {
    answers.len() == wanted.len() && count_told(answers, wanted) == wanted.len()
}

/// The vault after the events. What a run that lacks memory did not carry out is answered in a further run.
fn run_again(rt: &(impl Abort + Print), vault: Vault, events: &[Event]) -> Vault {
    let ran = vault.run(events);
    let done = count_told(&ran.answers, &CREATED_AND_SHADED);
    if done >= events.len() {
        return ran.vault;
    }
    let _ = rt.println("no memory");
    assert!(rt; ends_at(&ran, done));
    let again = ran.vault.run(rest(events, done));
    assert!(rt; are_told(&again.answers, rest(&CREATED_AND_SHADED, done)));
    again.vault
}

/// How many entries the vault has after the events.
fn count_after(rt: &(impl Abort + Print), vault: Vault, events: &[Event]) -> u64 {
    run_again(rt, vault, events).count()
}

/// How many entries a new vault has after those events.
fn count_again(rt: &(impl Abort + Print), alloc: Global) -> Result<u64, AllocError> {
    let events = events(alloc, CREATE_AND_SHADE)?;
    let vault = opened(rt, alloc, &TWO)?;
    Ok(count_after(rt, vault, &events))
}

/// A run that has no room for its answers carries out no event, and one that has none for a command goes on as though
/// that had not been submitted. What was not carried out is answered in a further run.
#[test]
fn growth_refused_in_a_run(rt: HostRuntime) -> Result<(), AllocError> {
    assert!(rt; count_again(&rt, rt.alloc())? == 1);
    Ok(())
}
