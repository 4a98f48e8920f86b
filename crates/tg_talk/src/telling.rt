//! What a talk answers to one line, before it is written.

ghost use Rattle.std.specs.Prelude.{◌≡◌, Some, None, IfSome, IfNone, false};
ghost use Rattle.tg_talk.specs.Promise.Talks.{is_hello};
ghost use Rattle.tg_talk.specs.Promise.Answering.{saying};
ghost use Rattle.tg_talk.specs.Inner.Talking.{Asks, IsHello, SaysTo};
ghost use Rattle.tg_talk.specs.declared.answering.Said.TheVariants as said;

use crate::answering::{Said, Text, text_of_answer};
use std::alloc::Global;
use std::rt::Clock;
use std::sync::Wait;
use std::sync::ledger::Ledger;
use tg_rights::{Command, Word};
use tg_share::{Gate, Session, Shared};
use tg_vault::{Answer, AskFault, Event, SeatFault};
use tg_wire::{Line, LineRoom, read_line_in, read_line_into, write_reply_in};

/// The name of a hello.
fn hello_in(line: Line) -> Option<Word>
    ensures hello { IfSome result (IsHello line) }
    ensures other { IfNone result (is_hello line ≡ false) }
{
    match line {
        Line::Cycle => None,
        Line::Act(event) => match event {
            Event::Hello { seat: _, name } => Some(name),
            Event::Bye { seat: _ } => None,
            Event::Ask {
                seat: _,
                command: _,
            } => None,
            Event::Shade { seat: _ } => None,
            Event::Collect => None,
        },
    }
}

/// Reads a line from a client whose hello has not succeeded yet; a hello that succeeds begins its session.
pub(crate) fn hear_stranger<'s, L: Ledger, R: Wait>(
    rt: &R,
    alloc: Global,
    shared: &'s Shared<L>,
    seat: u64,
    bytes: &[u8],
    room: &mut LineRoom,
) -> (Text, Option<Session<'s, L>>)
    ensures told { SaysTo None bytes.now (saying room.new (said.Answer result.0)) result.1 }
    ensures seat { IfSome result.1 (λ s. s.seat ≡ seat) }
{
    match read_line_in(room, alloc, bytes) {
        Err(fault) => (Text::Refusal(fault), None),
        Ok(line) => match hello_in(line) {
            None => (text_of_answer(room, &Answer::Ask(AskFault::NoActor)), None),
            Some(name) => match shared.session(rt, alloc, seat, name.get()) {
                Err(fault) => (text_of_answer(room, &Answer::Seat(fault)), None),
                Ok(session) => {
                    let text = text_of_answer(room, &Answer::Hello(session.actor()));
                    (text, Some(session))
                }
            },
        },
    }
}

/// Reads a line of a session, and submits its command.
pub(crate) fn hear_session<'s, L: Ledger, R: Wait + Clock, G: Gate>(
    rt: &R,
    alloc: Global,
    session: &mut Session<'s, L>,
    gate: &G,
    bytes: &[u8],
    room: &mut LineRoom,
) -> Said
    ensures heard { SaysTo (Some session.old) bytes.now (saying room.new result) (Some session.new) }
    ensures seat { session.new.seat ≡ session.old.seat }
{
    let mut line = Line::Cycle;
    match read_line_into(room, alloc, bytes, &mut line) {
        Err(fault) => Said::Answer(Text::Refusal(fault)),
        Ok(()) => match line {
            Line::Cycle => Said::Answer(Text::NotForASession),
            Line::Act(event) => match event {
                Event::Hello { seat: _, name: _ } => {
                    Said::Answer(text_of_answer(room, &Answer::Seat(SeatFault::Bound)))
                }
                Event::Bye { seat: _ } => Said::Last(text_of_answer(room, &Answer::Bye)),
                Event::Ask { seat: _, command } => ask(rt, session, gate, command, room),
                Event::Shade { seat: _ } => Said::Answer(Text::NotForASession),
                Event::Collect => Said::Answer(Text::NotForASession),
            },
        },
    }
}

/// Submits the command, and returns the line of the reply.
fn ask<'s, L: Ledger, R: Wait + Clock, G: Gate>(
    rt: &R,
    session: &mut Session<'s, L>,
    gate: &G,
    command: Command,
    room: &mut LineRoom,
) -> Said
    ensures { Asks session.old command (saying room.new result) session.new }
{
    match session.submit(rt, command, gate) {
        Ok(reply) => match write_reply_in(room, reply) {
            Ok(()) => Said::Answer(Text::Line),
            Err(_) => Said::Nothing,
        },
        Err(fault) => Said::Answer(text_of_answer(room, &Answer::Ask(fault))),
    }
}
