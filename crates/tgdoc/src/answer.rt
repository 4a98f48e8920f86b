//! One line: read, carried out, answered.

ghost use Rattle.std.specs.Prelude.{false};
ghost use Rattle.tg_talk.specs.Promise.Answering.{is_wrong, one_if, shown_line};
ghost use Rattle.tgdoc.specs.Inner.Running.{AnswersLine, RunnerSays, TellsSwept};

use std::alloc::Global;
use tg_talk::{Responder, Said, Text, text_of_answer};
use tg_vault::{Answer, Swept, Vault};
use tg_wire::{Line, LineRoom, WireFault, read_line_into, write_swept_in};

/// Who answers the lines of a run: a vault, on which their events are carried out.
#[derive(Drop)]
pub(crate) struct Runner {
    pub alloc: Global,
    pub vault: Vault,
    // What the last line asked for, in whose place the next is read.
    pub line: Line,
}

impl Responder for Runner {
    ghost stays = { λ start now. Unit {0} };

    ghost says = { RunnerSays };

    ghost may_give_up = { false };

    #[inline(always)]
    fn respond(&mut self, line: &[u8], room: &mut LineRoom) -> Said {
        Said::Answer(answer(self.alloc, &mut self.vault, &mut self.line, line, room))
    }
}

/// Reads a line, whose value takes the place of another, carries out its event, without moving it, or a cycle of the
/// collector, and writes the answer's line into the room.
#[inline(always)]
pub(crate) fn answer(
    alloc: Global,
    vault: &mut Vault,
    line: &mut Line,
    bytes: &[u8],
    room: &mut LineRoom,
) -> Text
    ensures { AnswersLine vault.old bytes.now vault.new (shown_line room.new result) (one_if (is_wrong result)) }
{
    if let Err(fault) = read_line_into(room, alloc, bytes, line) {
        return Text::Refusal(fault);
    }
    match line {
        Line::Act(event) => {
            let mut answer = Answer::Bye;
            vault.run_one_into(event, &mut answer);
            text_of_answer(room, &answer)
        }
        Line::Cycle => {
            let swept = vault.cycle();
            tell_swept(room, swept)
        }
    }
}

/// The same where nobody waits for the answer.
// Out of line, so that the loop of a run is the only one that has all of it in place.
#[inline(never)]
pub(crate) fn answer_apart(
    alloc: Global,
    vault: &mut Vault,
    bytes: &[u8],
    room: &mut LineRoom,
) -> Text
    ensures { AnswersLine vault.old bytes.now vault.new (shown_line room.new result) (one_if (is_wrong result)) }
{
    let mut line = Line::Cycle;
    answer(alloc, vault, &mut line, bytes, room)
}

/// The line of what a cycle did, or `out of memory` in its place.
fn tell_swept(room: &mut LineRoom, swept: Swept) -> Text
    ensures { TellsSwept swept (shown_line room.new result) (is_wrong result) }
{
    match write_swept_in(room, swept) {
        Ok(()) => Text::Line,
        Err(_) => Text::Refusal(WireFault::OutOfMemory),
    }
}
