//! From a step or a goal of a derivation to its line, as an auditor reads it. The keys of a line are in rising order.

ghost use Rattle.std.specs.Prelude.{◌≡◌, ◌<◌, ◌^◌, Ok, OnOk, Some};
ghost use Rattle.tg_graph.specs.Promise.Rewriting.{rewriting};
ghost use Rattle.tg_wire.specs.Promise.Lines.{goal_of, step_of};
ghost use Rattle.tg_wire.specs.Promise.StepLines.{Rewrites, goal_line, goal_text, kind_text as text_of_kind, step_line, step_text};

use crate::laws::{goals_read_back, steps_read_back};
use crate::line_room::LineRoom;
use crate::object_line::{Told, object_line};
use std::alloc::AllocError;
use tg_graph::{Goal, Step};
use tg_rights::{Command, Kind};

/// The line of a step, which ends with a line feed: its command's fields and the actor, in rising order of their keys,
/// with no white space. One of take, grant, create and remove is read back by `read_step`. In room that is kept from
/// line to line. `AllocError` if an allocation failed; nothing is then known of the room's line.
#[tactic(auto, unfolding(crate::specs::Promise::StepLines::step_line))]
pub fn write_step_in(room: &mut LineRoom, step: &Step) -> Result<(), AllocError>
    ensures { OnOk result (room.new ≡ step_line step.now) }
{
    let actor = ("actor", Told::Number(step.actor));
    match &step.command {
        Command::Take { rights, over, from } => object_line(
            room,
            &[
                actor,
                ("from", Told::Number(*from)),
                ("op", Told::Word("take")),
                ("over", Told::Number(*over)),
                ("rights", Told::Letters(*rights)),
            ],
        ),
        Command::Grant { rights, over, to } => object_line(
            room,
            &[
                actor,
                ("op", Told::Word("grant")),
                ("over", Told::Number(*over)),
                ("rights", Told::Letters(*rights)),
                ("to", Told::Number(*to)),
            ],
        ),
        Command::Create { kind, rights } => object_line(
            room,
            &[
                actor,
                ("kind", Told::Word(kind_text(*kind))),
                ("op", Told::Word("create")),
                ("rights", Told::Letters(*rights)),
            ],
        ),
        Command::Remove { rights, over } => object_line(
            room,
            &[
                actor,
                ("op", Told::Word("remove")),
                ("over", Told::Number(*over)),
                ("rights", Told::Letters(*rights)),
            ],
        ),
        Command::Read { over } => {
            object_line(
                room,
                &[
                    actor,
                    ("op", Told::Word("read")),
                    ("over", Told::Number(*over)),
                ],
            )
        }
        Command::Write { over, text } => object_line(
            room,
            &[
                actor,
                ("op", Told::Word("write")),
                ("over", Told::Number(*over)),
                ("text", Told::Word(text.get())),
            ],
        ),
        Command::Look { at } => {
            object_line(
                room,
                &[actor, ("at", Told::Number(*at)), ("op", Told::Word("look"))],
            )
        }
        Command::Enrol { name, rights } => object_line(
            room,
            &[
                actor,
                ("name", Told::Word(name.get())),
                ("op", Told::Word("enrol")),
                ("rights", Told::Letters(*rights)),
            ],
        ),
        Command::Retire => object_line(room, &[actor, ("op", Told::Word("retire"))]),
        Command::Assume { agent } => object_line(
            room,
            &[
                actor,
                ("agent", Told::Number(*agent)),
                ("op", Told::Word("assume")),
            ],
        ),
        Command::Leave => object_line(room, &[actor, ("op", Told::Word("leave"))]),
    }
}

/// The line of a goal, which ends with a line feed, its keys in rising order, with no white space. It is read back by
/// `read_goal`. In room that is kept, and with the error of `write_step_in`.
#[tactic(auto, unfolding(crate::specs::Promise::StepLines::goal_line))]
pub fn write_goal_in(room: &mut LineRoom, goal: &Goal) -> Result<(), AllocError>
    ensures { OnOk result (room.new ≡ goal_line goal.now) }
{
    object_line(
        room,
        &[
            ("from", Told::Number(goal.from)),
            ("rights", Told::Letters(goal.rights)),
            ("to", Told::Number(goal.to)),
        ],
    )
}

fn kind_text(kind: Kind) -> &'static str
    ensures { result.now ≡ text_of_kind kind }
{
    match kind {
        Kind::Subject => "subject",
        Kind::Document => "document",
    }
}

// Laws of steps and goals of the code, whose numbers have 64 bits.

/// A step by take, grant, create or remove is read back from its line.
pub fn step_reads_back(step: &Step)
    ensures { rewriting step.now.command ≡ Some step.now.command → step_of (step_text step.now) ≡ Ok step.now }
{
    steps_read_back();
    in_range(step.actor);
    command_in_range(&step.command);
}

/// A goal is read back from its line.
pub fn goal_reads_back(goal: &Goal)
    ensures { goal_of (goal_text goal.now) ≡ Ok goal.now }
{
    goals_read_back();
    in_range(goal.from);
    in_range(goal.to);
}

fn command_in_range(command: &Command)
    ensures { rewriting command.now ≡ Some command.now → Rewrites command.now }
{
    match command {
        Command::Take {
            rights: _,
            over,
            from,
        } => {
            in_range(*over);
            in_range(*from);
        }
        Command::Grant {
            rights: _,
            over,
            to,
        } => {
            in_range(*over);
            in_range(*to);
        }
        Command::Remove { rights: _, over } => in_range(*over),
        Command::Create { .. } => {}
        Command::Read { .. } => {}
        Command::Write { .. } => {}
        Command::Look { .. } => {}
        Command::Enrol { .. } => {}
        Command::Retire => {}
        Command::Assume { .. } => {}
        Command::Leave => {}
    }
}

fn in_range(_number: u64)
    ensures { _number < 2 ^ 64 }
{}
