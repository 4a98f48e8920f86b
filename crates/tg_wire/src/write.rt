//! From a reply, an answer, a cycle or a verdict to its line. The keys of a line are in rising order.

ghost use Rattle.std.specs.Prelude.{◌≡◌, ◌≤◌, ◌++◌, IfOk, OnErr, OnOk, codes, length};
ghost use Rattle.std.specs.Bool.{OnTrue};
ghost use Rattle.json.specs.Print.{escape};
ghost use Rattle.serde_json.specs.Data.{array, object, member, no_members, string, number, unsigned};
ghost use Rattle.tg_wire.specs.Promise.Faults.{line_text, seat_fault_text as text_of_seat_fault, ask_fault_text as text_of_ask_fault};
ghost use Rattle.tg_wire.specs.Promise.Memory.{MayAskForAnswer, MayAskForReply};
ghost use Rattle.tg_wire.specs.Promise.Replies.{edges_data, which_text as text_of_which, rule_text, denied_data, reply_line};
ghost use Rattle.tg_wire.specs.Inner.LastLine.{line_in};
ghost use Rattle.tg_wire.specs.Inner.Told.{led_text};
ghost use Rattle.tg_wire.specs.declared.write.TheConstants.{LONGEST_CAUSE};
ghost use Rattle.tg_wire.specs.Promise.Answers.{denied_step_data, noted_data, answer_line, swept_line, verdict_line};

use crate::before::{bytes_before, letters_before, number_before};
use crate::edges::put_edges;
use crate::last_line::LastLine;
use crate::line_room::LineRoom;
use crate::object_line::{
    Told, object_line, put_last_number, put_led_number, put_led_text, put_led_word,
};
use crate::op::command_form;
use crate::plain::is_plain;
use std::alloc::{AllocError, Global};
use tg_collect::{Note, Phase};
use tg_graph::Verdict;
use tg_rights::{Cause, Reply, Rights, Rule, Text, Which};
use tg_vault::{Answer, AskFault, SeatFault, Swept};

/// The most bytes of a cause's word.
const LONGEST_CAUSE: usize = 13;

/// The line of a reply, which ends with a line feed. Keys are in rising order, with no white space. `AllocError` if an
/// allocation failed.
pub fn write_reply(alloc: Global, reply: &Reply) -> Result<Vec<u8>, AllocError>
    ensures { IfOk result (λ line. line.items ≡ reply_line reply.now) }
{
    let mut room = LineRoom::new(alloc);
    write_reply_in(&mut room, reply)?;
    room.into_line()
}

/// The same, in room that is kept from line to line. `AllocError` if an allocation failed; nothing is then known of the
/// room's line. That something is done, made or denied takes no memory.
#[inline(always)]
pub fn write_reply_in(room: &mut LineRoom, reply: &Reply) -> Result<(), AllocError>
    ensures line { OnOk result (room.new ≡ reply_line reply.now) }
    ensures memory { OnErr result (MayAskForReply reply.now) }
{
    put_reply(&mut room.last, reply)
}

#[inline(always)]
#[tactic(auto, unfolding(crate::specs::Promise::Replies::reply_line, crate::proofs::Literals::numbers_on_literals))]
fn put_reply(line: &mut LastLine, reply: &Reply) -> Result<(), AllocError>
    ensures line { OnOk result (line_in line.new ≡ reply_line reply.now) }
    ensures memory { OnErr result (MayAskForReply reply.now) }
{
    match reply {
        Reply::Done => line.put(b"{\"ok\":\"done\"}\n"),
        Reply::Created(vertex) => {
            put_last_number(line, b"{\"ok\":\"created\",\"vertex\":", *vertex)
        }
        Reply::Text(text) => return put_told_text(line, text),
        Reply::Edges(edges) => {
            line.begin()?;
            return put_told_edges(&mut line.long, edges.get());
        }
        Reply::Denied(rule, cause) => put_denied(line, *rule, *cause),
        Reply::Full(which) => return put_word(line, b"{\"full\":", which_text(*which)),
    }
    Ok(())
}

/// The line of a text that was read.
#[inline(always)]
#[tactic(auto, unfolding(crate::proofs::Literals::numbers_on_literals))]
fn put_told_text(line: &mut LastLine, text: &Text) -> Result<(), AllocError>
    ensures { OnOk result (line_in line.new ≡ line_text (object (member (codes "ok") (string (codes "text")) (member (codes "text") (string text.now) no_members)))) }
{
    if is_plain_text(text) {
        let bytes = text.get().as_bytes();
        return put_led_text(line, b"{\"ok\":\"text\",\"text\":\"", bytes);
    }
    put_word(line, b"{\"ok\":\"text\",\"text\":", text.get())
}

/// The line of an object that begins with these bytes, and ends with this word.
#[inline(never)]
fn put_word(line: &mut LastLine, lead: &[u8], word: &str) -> Result<(), AllocError>
    ensures { OnOk result (line_in line.new ≡ led_text lead.now (string word.now)) }
{
    line.begin()?;
    put_led_word(&mut line.long, lead, word)
}

/// Whether no byte of the text needs an escape; some texts know.
#[inline(always)]
fn is_plain_text(text: &Text) -> bool
    ensures { OnTrue result (escape text.now ≡ text.now) }
{
    text.is_unescaped() || is_plain(text.get().as_bytes())
}

/// The line of the edges that were looked at.
fn put_told_edges(line: &mut Vec<u8>, edges: &[(u64, Rights)]) -> Result<(), AllocError>
    ensures { OnOk result (line.new.items ≡ line.old.items ++ line_text (object (member (codes "edges") (array (edges_data edges.now)) (member (codes "ok") (string (codes "edges")) no_members)))) }
{
    line.extend_from_slice(b"{\"edges\":")?;
    put_edges(line, edges)?;
    line.extend_from_slice(b",\"ok\":\"edges\"}\n")
}

/// The line of an answer, which ends with a line feed. Keys are in rising order, with no white space. `AllocError` if
/// an allocation failed.
pub fn write_answer(alloc: Global, answer: &Answer) -> Result<Vec<u8>, AllocError>
    ensures { IfOk result (λ line. line.items ≡ answer_line answer.now) }
{
    let mut room = LineRoom::new(alloc);
    write_answer_in(&mut room, answer)?;
    room.into_line()
}

/// The same, in room that is kept, and with the error of `write_reply_in`. Of the answers that are no replies only the
/// faults take memory.
#[inline(always)]
pub fn write_answer_in(room: &mut LineRoom, answer: &Answer) -> Result<(), AllocError>
    ensures line { OnOk result (room.new ≡ answer_line answer.now) }
    ensures memory { OnErr result (MayAskForAnswer answer.now) }
{
    put_answer(&mut room.last, answer)
}

#[inline(always)]
#[tactic(auto, unfolding(crate::specs::Promise::Answers::answer_line, crate::specs::Promise::Replies::reply_line, crate::proofs::Literals::numbers_on_literals))]
fn put_answer(line: &mut LastLine, answer: &Answer) -> Result<(), AllocError>
    ensures line { OnOk result (line_in line.new ≡ answer_line answer.now) }
    ensures memory { OnErr result (MayAskForAnswer answer.now) }
{
    match answer {
        Answer::Hello(vertex) => {
            put_last_number(line, b"{\"ok\":\"hello\",\"vertex\":", *vertex)
        }
        Answer::Bye => line.put(b"{\"ok\":\"bye\"}\n"),
        Answer::Asked(_, reply) => return put_reply(line, reply),
        Answer::Shaded(Some(vertex)) => put_last_number(line, b"{\"shaded\":", *vertex),
        Answer::Shaded(None) => line.put(b"{\"shaded\":null}\n"),
        Answer::Seat(fault) => return put_word(line, b"{\"error\":", seat_fault_text(*fault)),
        Answer::Ask(fault) => return put_word(line, b"{\"error\":", ask_fault_text(*fault)),
        Answer::Noted(note) => put_note(line, *note),
    }
    Ok(())
}

/// The line of what a cycle did, which ends with a line feed. Keys are in rising order, with no white space.
/// `AllocError` if an allocation failed.
pub fn write_swept(alloc: Global, swept: Swept) -> Result<Vec<u8>, AllocError>
    ensures { IfOk result (λ line. line.items ≡ swept_line swept) }
{
    let mut room = LineRoom::new(alloc);
    write_swept_in(&mut room, swept)?;
    room.into_line()
}

/// The same, in room that is kept, and with the error of `write_reply_in`.
#[tactic(auto, unfolding(crate::specs::Promise::Answers::swept_line))]
pub fn write_swept_in(room: &mut LineRoom, swept: Swept) -> Result<(), AllocError>
    ensures { OnOk result (room.new ≡ swept_line swept) }
{
    object_line(
        room,
        &[
            ("freed", Told::Number(swept.freed)),
            ("steps", Told::Number(swept.steps)),
        ],
    )
}

/// The line of a verdict, which ends with a line feed. Keys are in rising order, with no white space. `AllocError` if
/// an allocation failed.
pub fn write_verdict(alloc: Global, verdict: &Verdict) -> Result<Vec<u8>, AllocError>
    ensures { IfOk result (λ line. line.items ≡ verdict_line verdict.now) }
{
    let mut room = LineRoom::new(alloc);
    write_verdict_in(&mut room, verdict)?;
    room.into_line()
}

#[tactic(auto, unfolding(crate::specs::Promise::Answers::verdict_line))]
fn write_verdict_in(room: &mut LineRoom, verdict: &Verdict) -> Result<(), AllocError>
    ensures { OnOk result (room.new ≡ verdict_line verdict.now) }
{
    match verdict {
        Verdict::Shared => object_line(room, &[("verdict", Told::Word("shared"))]),
        Verdict::ActorNotSubject { index } => step_line(room, *index, "actor not subject"),
        Verdict::StepDenied { index, rule, cause } => {
            denied_step_line(room, *index, *rule, *cause)
        }
        Verdict::StepFull { index } => step_line(room, *index, "step full"),
        Verdict::GoalMissing { rights } => object_line(
            room,
            &[
                ("missing", Told::Letters(*rights)),
                ("verdict", Told::Word("goal missing")),
            ],
        ),
    }
}

/// The line of this verdict on the step of this number.
fn step_line(room: &mut LineRoom, step: u64, verdict: &str) -> Result<(), AllocError>
    ensures { OnOk result (room.new ≡ line_text (object (member (codes "step") (number (unsigned step)) (member (codes "verdict") (string verdict.now) no_members)))) }
{
    object_line(
        room,
        &[
            ("step", Told::Number(step)),
            ("verdict", Told::Word(verdict)),
        ],
    )
}

/// The line of a denial for this cause.
#[tactic(auto, unfolding(crate::proofs::Literals::numbers_on_literals))]
fn put_denied(line: &mut LastLine, rule: Rule, cause: Cause)
    ensures { line_in line.new ≡ line_text (denied_data rule cause) }
{
    match cause {
        Cause::Retired => put_denied_for(line, rule, "retired"),
        Cause::Empty => put_denied_for(line, rule, "empty"),
        Cause::NotDistinct => put_denied_for(line, rule, "not distinct"),
        Cause::Missing { from, to, rights } => put_missing(line, rule, from, rights, to),
        Cause::NotDocument { vertex } => put_denied_at(line, rule, "not document", vertex),
        Cause::NotSubject { vertex } => put_denied_at(line, rule, "not subject", vertex),
        Cause::NotPrincipal => put_denied_for(line, rule, "not principal"),
        Cause::NameTaken => put_denied_for(line, rule, "name taken"),
        Cause::Crowded => put_denied_for(line, rule, "crowded"),
    }
}

/// The line of a denial for rights that are missing.
fn put_missing(line: &mut LastLine, rule: Rule, from: u64, rights: Rights, to: u64)
    ensures { line_in line.new ≡ line_text (denied_data rule (Cause.Missing rights from to)) }
{
    let end = line.put_end(b"}\n");
    let end = number_before(&mut line.short, end, to);
    let end = bytes_before(&mut line.short, end, b",\"to\":");
    let end = letters_before(&mut line.short, end, rights);
    let end = bytes_before(&mut line.short, end, b",\"missing\":");
    let end = number_before(&mut line.short, end, from);
    let end = bytes_before(&mut line.short, end, b"\",\"from\":");
    let end = bytes_before(&mut line.short, end, command_form(rule).word.as_bytes());
    line.put_start(end, b"{\"denied\":\"");
}

/// The line of a denial for a cause with no field but its word.
fn put_denied_for(line: &mut LastLine, rule: Rule, cause: &str)
    requires plain { escape cause.now ≡ cause.now }
    requires short { length cause.now ≤ LONGEST_CAUSE }
    ensures { line_in line.new ≡ line_text (object (member (codes "cause") (string cause.now) (member (codes "denied") (string (rule_text rule)) no_members))) }
{
    let end = line.put_end(b"\"}\n");
    let end = bytes_before(&mut line.short, end, command_form(rule).word.as_bytes());
    let end = bytes_before(&mut line.short, end, b"\",\"denied\":\"");
    let end = bytes_before(&mut line.short, end, cause.as_bytes());
    line.put_start(end, b"{\"cause\":\"");
}

/// The line of a denial for a cause with a word and a vertex.
fn put_denied_at(line: &mut LastLine, rule: Rule, cause: &str, vertex: u64)
    requires plain { escape cause.now ≡ cause.now }
    requires short { length cause.now ≤ LONGEST_CAUSE }
    ensures { line_in line.new ≡ line_text (object (member (codes "cause") (string cause.now) (member (codes "denied") (string (rule_text rule))
        (member (codes "vertex") (number (unsigned vertex)) no_members)))) }
{
    let end = line.put_end(b"}\n");
    let end = number_before(&mut line.short, end, vertex);
    let end = bytes_before(&mut line.short, end, b"\",\"vertex\":");
    let end = bytes_before(&mut line.short, end, command_form(rule).word.as_bytes());
    let end = bytes_before(&mut line.short, end, b"\",\"denied\":\"");
    let end = bytes_before(&mut line.short, end, cause.as_bytes());
    line.put_start(end, b"{\"cause\":\"");
}

/// The line of the verdict that the step of this number is denied for this cause.
fn denied_step_line(
    room: &mut LineRoom,
    step: u64,
    rule: Rule,
    cause: Cause,
) -> Result<(), AllocError>
    ensures { OnOk result (room.new ≡ line_text (denied_step_data step rule cause)) }
{
    match cause {
        Cause::Retired => denied_step_for(room, step, rule, "retired"),
        Cause::Empty => denied_step_for(room, step, rule, "empty"),
        Cause::NotDistinct => denied_step_for(room, step, rule, "not distinct"),
        Cause::Missing { from, to, rights } => object_line(
            room,
            &[
                ("denied", Told::Word(command_form(rule).word)),
                ("from", Told::Number(from)),
                ("missing", Told::Letters(rights)),
                ("step", Told::Number(step)),
                ("to", Told::Number(to)),
                ("verdict", Told::Word("step denied")),
            ],
        ),
        Cause::NotDocument { vertex } => denied_step_at(room, step, rule, "not document", vertex),
        Cause::NotSubject { vertex } => denied_step_at(room, step, rule, "not subject", vertex),
        Cause::NotPrincipal => denied_step_for(room, step, rule, "not principal"),
        Cause::NameTaken => denied_step_for(room, step, rule, "name taken"),
        Cause::Crowded => denied_step_for(room, step, rule, "crowded"),
    }
}

/// The line of a step that is denied for a cause with no field but its word.
fn denied_step_for(
    room: &mut LineRoom,
    step: u64,
    rule: Rule,
    cause: &str,
) -> Result<(), AllocError>
    ensures { OnOk result (room.new ≡ line_text (object (member (codes "cause") (string cause.now) (member (codes "denied") (string (rule_text rule))
        (member (codes "step") (number (unsigned step)) (member (codes "verdict") (string (codes "step denied")) no_members)))))) }
{
    object_line(
        room,
        &[
            ("cause", Told::Word(cause)),
            ("denied", Told::Word(command_form(rule).word)),
            ("step", Told::Number(step)),
            ("verdict", Told::Word("step denied")),
        ],
    )
}

/// The line of a step that is denied for a cause with a word and a vertex.
fn denied_step_at(
    room: &mut LineRoom,
    step: u64,
    rule: Rule,
    cause: &str,
    vertex: u64,
) -> Result<(), AllocError>
    ensures { OnOk result (room.new ≡ line_text (object (member (codes "cause") (string cause.now) (member (codes "denied") (string (rule_text rule))
        (member (codes "step") (number (unsigned step)) (member (codes "verdict") (string (codes "step denied")) (member (codes "vertex") (number (unsigned vertex)) no_members))))))) }
{
    object_line(
        room,
        &[
            ("cause", Told::Word(cause)),
            ("denied", Told::Word(command_form(rule).word)),
            ("step", Told::Number(step)),
            ("verdict", Told::Word("step denied")),
            ("vertex", Told::Number(vertex)),
        ],
    )
}

/// The line of what a collector step did.
fn put_note(line: &mut LastLine, note: Note)
    ensures { line_in line.new ≡ line_text (noted_data note) }
{
    match (note.ended, note.phase) {
        (false, Phase::Idle) => put_led_number(
            line,
            b"{\"ended\":false,\"freed\":",
            note.freed,
            b",\"phase\":\"idle\"}",
        ),
        (false, Phase::Mark) => put_led_number(
            line,
            b"{\"ended\":false,\"freed\":",
            note.freed,
            b",\"phase\":\"mark\"}",
        ),
        (false, Phase::Sweep) => put_led_number(
            line,
            b"{\"ended\":false,\"freed\":",
            note.freed,
            b",\"phase\":\"sweep\"}",
        ),
        (true, Phase::Idle) => put_led_number(
            line,
            b"{\"ended\":true,\"freed\":",
            note.freed,
            b",\"phase\":\"idle\"}",
        ),
        (true, Phase::Mark) => put_led_number(
            line,
            b"{\"ended\":true,\"freed\":",
            note.freed,
            b",\"phase\":\"mark\"}",
        ),
        (true, Phase::Sweep) => put_led_number(
            line,
            b"{\"ended\":true,\"freed\":",
            note.freed,
            b",\"phase\":\"sweep\"}",
        ),
    }
}

fn which_text(which: Which) -> &'static str
    ensures { result.now ≡ text_of_which which }
{
    match which {
        Which::Serials => "serials",
        Which::Slots => "slots",
        Which::Cells => "cells",
    }
}

fn seat_fault_text(fault: SeatFault) -> &'static str
    ensures { result.now ≡ text_of_seat_fault fault }
{
    match fault {
        SeatFault::NoSeat => "no seat",
        SeatFault::NoActor => "no actor",
        SeatFault::Bound => "bound",
        SeatFault::NoPrincipal => "no principal",
        SeatFault::Busy => "busy",
    }
}

fn ask_fault_text(fault: AskFault) -> &'static str
    ensures { result.now ≡ text_of_ask_fault fault }
{
    match fault {
        AskFault::NoSeat => "no seat",
        AskFault::NoActor => "no actor",
        AskFault::Busy => "busy",
        AskFault::OutOfMemory => "out of memory",
    }
}
