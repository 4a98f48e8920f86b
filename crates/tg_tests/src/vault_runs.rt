//! Runs of events, and a run that was worked out by hand.
use crate::cases::{Ask, Opening, TWO, are_edges, command, word};
use crate::vault::opened;
use std::alloc::{AllocError, Global};
use std::process::Abort;
use tg_rights::Reply;
use tg_vault::{Answer, AskFault, Event, SeatFault, Vault};

/// An event that holds no memory.
#[derive(Clone, Copy)]
pub enum Step {
    Hello(u64, &'static str),
    Bye(u64),
    Ask(u64, Ask),
    Shade(u64),
    Collect,
}

/// The event of a step.
pub fn event(alloc: Global, step: Step) -> Result<Event, AllocError> {
    Ok(match step {
        Step::Hello(seat, name) => Event::Hello {
            seat,
            name: word(alloc, name)?,
        },
        Step::Bye(seat) => Event::Bye { seat },
        Step::Ask(seat, ask) => Event::Ask {
            seat,
            command: command(alloc, ask)?,
        },
        Step::Shade(seat) => Event::Shade { seat },
        Step::Collect => Event::Collect,
    })
}

/// The events of the steps.
pub fn events(alloc: Global, steps: &[Step]) -> Result<Vec<Event>, AllocError> {
    let mut events = Vec::new(alloc);
    for step in steps {
        events.push(event(alloc, *step)?)?;
    }
    Ok(events)
}

/// Alice may grant to bob.
const GRANTED: Opening = Opening {
    edges: &[(1, "g", 2)],
    ..TWO
};

/// Alice's first look and first document, with a refused hello, bye, command and shade between.
const FIRST_LOOK: &[Step] = &[
    Step::Hello(64, "alice"),
    Step::Hello(0, "alice"),
    Step::Bye(1),
    Step::Ask(0, Ask::Look(1)),
    Step::Ask(0, Ask::Document("r")),
    Step::Ask(0, Ask::Look(1)),
    Step::Shade(1),
    Step::Shade(0),
    Step::Collect,
];

/// Whether these are the answers of that run.
fn are_first_look(answers: &[Answer]) -> bool {
    match answers {
        [
            refused,
            taken,
            left,
            asked,
            made,
            busy,
            empty,
            shaded,
            noted,
        ] => {
            matches!(refused, Answer::Seat(SeatFault::NoSeat))
                && matches!(taken, Answer::Hello(1))
                && matches!(left, Answer::Seat(SeatFault::NoActor))
                && matches!(asked, Answer::Asked(0, Reply::Edges(edges))
                    if are_edges(edges.get(), &[(2, "g")]))
                && matches!(made, Answer::Asked(1, Reply::Created(3)))
                && matches!(busy, Answer::Ask(AskFault::Busy))
                && matches!(empty, Answer::Seat(SeatFault::NoActor))
                && matches!(shaded, Answer::Shaded(Some(3)))
                && matches!(noted, Answer::Noted(note) if note.freed == 0 && !note.ended)
        }
        _ => false,
    }
}

/// Whether the vault gives these answers, with two entries.
fn answers_first_look(vault: Vault, events: &[Event]) -> bool {
    let ran = vault.run(events);
    are_first_look(&ran.answers) && ran.vault.count() == 2
}

/// Whether a new vault does.
fn first_look_is_answered(rt: &impl Abort, alloc: Global) -> Result<bool, AllocError> {
    let events = events(alloc, FIRST_LOOK)?;
    let vault = opened(rt, alloc, &GRANTED)?;
    Ok(answers_first_look(vault, &events))
}

#[test]
fn a_run_answers_each_event(rt: HostRuntime) -> Result<(), AllocError> {
    assert!(rt; first_look_is_answered(&rt, rt.alloc())?);
    Ok(())
}
