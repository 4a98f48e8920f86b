//! From a line to what it asks for, and from a line to a step.

ghost use Rattle.tg_wire.specs.declared.line.TheConstants.{LONGEST_LINE};
ghost use Rattle.std.specs.Prelude.{◌≡◌, ◌≤◌, ◌++◌, Err, Some, length};
ghost use Rattle.tg_wire.specs.Inner.Flat.{data_of};
ghost use Rattle.tg_wire.specs.Promise.Ops.{command_form, op_form};
ghost use Rattle.tg_wire.specs.Promise.Lines.{line_extras, line_in, line_of, step_in, step_of, op_in, rule_in};
ghost use Rattle.tg_wire.specs.Inner.Lines.{line_of_json};
ghost use Rattle.tg_wire.specs.Inner.Members.{flat_data};
ghost use Rattle.tg_wire.specs.Promise.Reading.{Answers, fields_of, filled, guard, knows_all as knows_all_of, or_else};
ghost use Rattle.tg_wire.specs.Inner.Reading.{AnswersField};
ghost use Rattle.tg_wire.specs.declared.line.Line.TheVariants.{Act};
ghost use Rattle.tg_vault.specs.declared.event.Event.TheVariants.{Ask};
ghost use Rattle.tg_rights.specs.declared.command.Command.TheVariants.{Leave};
ghost use Rattle.tg_wire.specs.declared.fault.WireFault.TheVariants.{NoOp, OutOfMemory, UnknownField};

use crate::escaped::read_escaped;
use crate::fault::WireFault;
use crate::field;
use crate::flat::{Flat, read_flat};
use crate::key::Key;
use crate::line::Line;
use crate::line_room::{LineRoom, TokensRoom};
use crate::members::Members;
use crate::object::{LineObject, check_length, check_required, is_known, knows_all, tree};
use crate::op::{Op, command_form, step_rule_named};
use std::alloc::Global;
use std::mem;
use tg_graph::Step;
use tg_rights::{Command, Rule};
use tg_vault::Event;

/// The value of an event line, or its first fault. `seat` is 0 if it is absent; `collect` and `cycle` do not use it,
/// but even there it has to be a number if it is given.
pub fn read_line(alloc: Global, bytes: &[u8]) -> Result<Line, WireFault>
    ensures answered { Answers result (line_of bytes.now) }
    ensures short { result ≡ Err OutOfMemory → length bytes.now ≤ LONGEST_LINE }
{
    read_line_in(&mut LineRoom::new(alloc), alloc, bytes)
}

/// As `read_line`, in room that is kept from line to line.
#[inline(always)]
#[tactic(auto, unfolding(crate::specs::Promise::Lines::line_of))]
pub fn read_line_in(room: &mut LineRoom, alloc: Global, bytes: &[u8]) -> Result<Line, WireFault>
    ensures answered { Answers result (line_of bytes.now) }
    ensures short { result ≡ Err OutOfMemory → length bytes.now ≤ LONGEST_LINE }
{
    let mut line = Line::Cycle;
    match read_line_into(room, alloc, bytes, &mut line) {
        Ok(()) => Ok(line),
        Err(fault) => Err(fault),
    }
}

/// As `read_line_in`, with the value put in the place of another one, so that it is not moved. After a fault, what is
/// there means nothing.
#[inline(always)]
#[tactic(auto, unfolding(crate::specs::Promise::Lines::line_of))]
pub fn read_line_into(
    room: &mut LineRoom,
    alloc: Global,
    bytes: &[u8],
    line: &mut Line,
) -> Result<(), WireFault>
    ensures answered { Answers (filled result line.new) (line_of bytes.now) }
    ensures short { result ≡ Err OutOfMemory → length bytes.now ≤ LONGEST_LINE }
{
    // Here the room for members is cleared only once.
    let mut members = Members::new();
    begin(line);
    check_length(bytes)?;
    let (text, tokens) = room.texts().parts();
    if read_flat(bytes, text, &mut members).is_some() {
        return put_flat(alloc, &members, line);
    }
    put_other(tokens, alloc, bytes, line)
}

/// Puts a leave at seat 0 in the place of a line. If a command was entered from there, a leave already stands there,
/// and only its seat is written.
#[inline(always)]
fn begin(line: &mut Line)
    ensures { line.new ≡ Act (Ask 0 Leave) }
{
    if let Line::Act(event) = line {
        if let Event::Ask { seat, command } = event {
            if let Command::Leave = command {
                *seat = 0;
                return;
            }
        }
    }
    let command = Command::Leave;
    *line = Line::Act(Event::Ask { seat: 0, command });
}

/// The same for a line that is not too long, where other escapes are, or something is not flat.
#[inline(never)]
fn put_other(
    room: &mut TokensRoom,
    alloc: Global,
    bytes: &[u8],
    line: &mut Line,
) -> Result<(), WireFault>
    requires { line.old ≡ Act (Ask 0 Leave) }
    ensures { Answers (filled result line.new) (line_of_json bytes.now) }
{
    let scratch = room.lend()?;
    let mut members = Members::new();
    if read_escaped(bytes, scratch, &mut members)?.is_some() {
        return put_flat(alloc, &members, line);
    }
    put_object(alloc, &tree(alloc, bytes)?, line)
}

/// The same for the members of a flat object.
#[inline(never)]
fn put_flat(alloc: Global, members: &Members<'_>, line: &mut Line) -> Result<(), WireFault>
    requires { line.old ≡ Act (Ask 0 Leave) }
    ensures { Answers (filled result line.new) (line_in (flat_data members.now.list.items)) }
{
    put_object(alloc, &LineObject::Flat(Flat::new(members)), line)
}

// Where it is inlined, it is known which kind of object it reads.
#[inline(always)]
fn put_object(alloc: Global, object: &LineObject<'_>, line: &mut Line) -> Result<(), WireFault>
    requires { line.old ≡ Act (Ask 0 Leave) }
    ensures { Answers (filled result line.new) (line_in (data_of object.now)) }
{
    let op = op(object)?;
    match put_op(alloc, op, object, line) {
        Ok(()) => only_known(line, op, object),
        Err(fault) => {
            // A missing field comes before a bad one, and no good line lacks one.
            check_required(op.keys(), object)?;
            Err(fault)
        }
    }
}

/// Puts a line in the place of a leave, which has nothing to drop.
#[inline(always)]
fn replace_leave(place: &mut Line, line: Line)
    requires { place.old ≡ Act (Ask 0 Leave) }
    ensures { place.new ≡ line }
{
    mem::forget(mem::replace(place, line));
}

/// The same for a command.
#[inline(always)]
fn replace_command(place: &mut Command, command: Command)
    requires { place.old ≡ Leave }
    ensures { place.new ≡ command }
{
    mem::forget(mem::replace(place, command));
}

/// Whether the object of this good line has no other fields.
#[inline(always)]
fn only_known(line: &Line, op: Op, object: &LineObject<'_>) -> Result<(), WireFault>
    requires { (op_form op).value (data_of object.now) ≡ Some line.now }
    ensures { filled result line.now ≡ fields_of (op_form op).fields line_extras (op_form op).value (data_of object.now) }
{
    knows_line(op, object)?;
    Ok(())
}

/// `UnknownField` if the object has a field that a line of this op does not have.
#[inline(always)]
fn knows_line(op: Op, object: &LineObject<'_>) -> Result<(), WireFault>
    ensures { result ≡ guard (knows_all_of (line_extras ++ (op_form op).fields) (data_of object.now)) UnknownField }
{
    if is_line_known(op, object) {
        Ok(())
    } else {
        Err(WireFault::UnknownField)
    }
}

#[inline(always)]
fn is_line_known(op: Op, object: &LineObject<'_>) -> bool
    ensures { result ≡ knows_all_of (line_extras ++ (op_form op).fields) (data_of object.now) }
{
    match object {
        LineObject::Flat(flat) => flat.knows_line(op),
        LineObject::Tree(_) => is_known_apart(op, object),
    }
}

/// The same out of line.
#[inline(never)]
fn is_known_apart(op: Op, object: &LineObject<'_>) -> bool
    ensures { result ≡ knows_all_of (line_extras ++ (op_form op).fields) (data_of object.now) }
{
    is_known(&[Key::Op, Key::Seat], op.keys(), object)
}

/// The value of a step line, or its first fault: one of the seven commands that a step of a derivation may be, with its
/// actor and no seat.
#[tactic(auto, unfolding(crate::specs::Promise::Lines::step_of))]
pub fn read_step(alloc: Global, bytes: &[u8]) -> Result<Step, WireFault>
    ensures answered { Answers result (step_of bytes.now) }
    ensures short { result ≡ Err OutOfMemory → length bytes.now ≤ LONGEST_LINE }
{
    check_length(bytes)?;
    let mut room = Vec::new(alloc);
    let mut members = Members::new();
    if read_flat(bytes, &mut room, &mut members).is_some() {
        return step_of_object(alloc, &LineObject::Flat(Flat::new(&members)));
    }
    step_of_object(alloc, &tree(alloc, bytes)?)
}

fn step_of_object(alloc: Global, object: &LineObject<'_>) -> Result<Step, WireFault>
    ensures { Answers result (step_in (data_of object.now)) }
{
    let rule = rule(object)?;
    check_required(&[Key::Actor], object)?;
    check_required(command_form(rule).keys, object)?;
    let actor = field::number(object, Key::Actor).ok_or(WireFault::BadField)?;
    let mut command = Command::Leave;
    put_command(alloc, rule, object, &mut command)?;
    knows_all(&[Key::Op, Key::Actor], command_form(rule).keys, object)?;
    Ok(Step { actor, command })
}

/// The op that the object names, or `NoOp`.
#[inline(always)]
fn op(object: &LineObject<'_>) -> Result<Op, WireFault>
    ensures { result ≡ or_else NoOp (op_in (data_of object.now)) }
{
    let word = field::string(object, Key::Op).ok_or(WireFault::NoOp)?;
    Op::named(word).ok_or(WireFault::NoOp)
}

/// The rule that the step's op names, or `NoOp`.
fn rule(object: &LineObject<'_>) -> Result<Rule, WireFault>
    ensures { result ≡ or_else NoOp (rule_in (data_of object.now)) }
{
    let word = field::string(object, Key::Op).ok_or(WireFault::NoOp)?;
    step_rule_named(word).ok_or(WireFault::NoOp)
}

/// The line of an op, in the place of a command's: `BadField` if a field that it needs is missing or bad, `OutOfMemory`
/// if an allocation failed. Other fields are not looked at.
#[inline(always)]
fn put_op(alloc: Global, op: Op, object: &LineObject<'_>, line: &mut Line) -> Result<(), WireFault>
    requires { line.old ≡ Act (Ask 0 Leave) }
    ensures { AnswersField (filled result line.new) ((op_form op).value (data_of object.now)) }
{
    let seat = field::seat(object).ok_or(WireFault::BadField)?;
    match op {
        Op::Hello => {
            let name = field::word(alloc, object, Key::Name)?;
            replace_leave(line, Line::Act(Event::Hello { seat, name }));
        }
        Op::Bye => replace_leave(line, Line::Act(Event::Bye { seat })),
        Op::Shade => replace_leave(line, Line::Act(Event::Shade { seat })),
        Op::Collect => replace_leave(line, Line::Act(Event::Collect)),
        Op::Cycle => replace_leave(line, Line::Cycle),
        Op::Ask(rule) => {
            if let Line::Act(event) = line {
                if let Event::Ask {
                    seat: place,
                    command,
                } = event
                {
                    *place = seat;
                    put_command(alloc, rule, object, command)?;
                }
            }
        }
    }
    Ok(())
}

/// The command of a rule, with the same faults, in the place of `Leave`.
#[inline(always)]
fn put_command(
    alloc: Global,
    rule: Rule,
    object: &LineObject<'_>,
    command: &mut Command,
) -> Result<(), WireFault>
    requires { command.old ≡ Leave }
    ensures { AnswersField (filled result command.new) ((command_form rule).value (data_of object.now)) }
{
    match rule {
        Rule::Take => {
            let rights = field::rights(object).ok_or(WireFault::BadField)?;
            let over = field::number(object, Key::Over).ok_or(WireFault::BadField)?;
            let from = field::number(object, Key::From).ok_or(WireFault::BadField)?;
            replace_command(command, Command::Take { rights, over, from });
        }
        Rule::Grant => {
            let rights = field::rights(object).ok_or(WireFault::BadField)?;
            let over = field::number(object, Key::Over).ok_or(WireFault::BadField)?;
            let to = field::number(object, Key::To).ok_or(WireFault::BadField)?;
            replace_command(command, Command::Grant { rights, over, to });
        }
        Rule::Create => {
            let kind = field::kind(object).ok_or(WireFault::BadField)?;
            let rights = field::rights(object).ok_or(WireFault::BadField)?;
            replace_command(command, Command::Create { kind, rights });
        }
        Rule::Remove => {
            let rights = field::rights(object).ok_or(WireFault::BadField)?;
            let over = field::number(object, Key::Over).ok_or(WireFault::BadField)?;
            replace_command(command, Command::Remove { rights, over });
        }
        Rule::Read => {
            let over = field::number(object, Key::Over).ok_or(WireFault::BadField)?;
            replace_command(command, Command::Read { over });
        }
        Rule::Write => {
            let over = field::number(object, Key::Over).ok_or(WireFault::BadField)?;
            let text = field::text(alloc, object)?;
            replace_command(command, Command::Write { over, text });
        }
        Rule::Look => {
            let at = field::number(object, Key::At).ok_or(WireFault::BadField)?;
            replace_command(command, Command::Look { at });
        }
        Rule::Enrol => {
            let rights = field::rights(object).ok_or(WireFault::BadField)?;
            let name = field::name(alloc, object)?;
            replace_command(command, Command::Enrol { name, rights });
        }
        Rule::Retire => replace_command(command, Command::Retire),
        Rule::Assume => {
            let agent = field::number(object, Key::Agent).ok_or(WireFault::BadField)?;
            replace_command(command, Command::Assume { agent });
        }
        Rule::Leave => {}
    }
    Ok(())
}
