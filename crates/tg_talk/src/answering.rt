//! Lines that are answered one after another.

ghost use Rattle.std.specs.Prelude.{◌≡◌, ◌≢◌, ◌↔◌, ℕ, ◌<◌, ◌≤◌, ◌+◌, List, Bool, Option, [], true, false, IfSome, Some, None};
ghost use Rattle.std.specs.Io.KnownBytes.{Keeps, prepend_known};
ghost use Rattle.tg_talk.specs.Promise.Devices.{Sends, device_of, has_failed, owed, promised};
ghost use Rattle.tg_talk.specs.Promise.Endings.{EndsOnce};
ghost use Rattle.tg_talk.specs.Promise.Finding.{is_decided};
ghost use Rattle.tg_talk.specs.Promise.Answering.{RestAnswered, Saying, TellsAnswer, is_wrong, one_if, saying, shown_line};
ghost use Rattle.tg_talk.specs.Inner.Answering.{AnswersTaken, Turned, fault_in, goes_on_in, point};
ghost use Rattle.tg_talk.specs.declared.fault.TalkFault.TheVariants.{OutOfMemory, Reading, Writing};
ghost use Rattle.tg_talk.specs.declared.line_buffer.TheConstants.{MOST_LINES};
ghost use Rattle.tg_wire.specs.Promise.Answers.{is_error as is_error_line};

use crate::fault::TalkFault;
use crate::input_lines::{InputLines, Next};
use crate::refusal::too_many_line;
use crate::watched::Watched;
use crate::write_line::{pay_last, send_last_line, send_line};
use std::alloc::Global;
use std::io::{BufWriter, Read, Write};
use tg_vault::Answer;
use tg_wire::{LineRoom, WireFault, error_line, write_answer_in};

/// How the lines of an input ended: how many were taken, how many of the answers count as errors, and why no more lines
/// were taken, if some were left or the last answer is not written.
#[derive(Clone, Copy, Debug, PartialEq, Eq)]
pub struct Finished {
    /// Input lines taken, a last one that is too long or one too many among them.
    pub lines: u64,
    /// Answers with the key `error`, even if a drawing does not write them; in an audit, also a verdict other than
    /// `shared`.
    pub errors: u64,
    /// The fault that ended the lines.
    pub fault: Option<TalkFault>,
}

/// The text of an answer: the line in the room for lines, or the refusal whose line it is.
#[derive(Clone, Copy, Debug, PartialEq, Eq)]
pub enum Text {
    /// The room's line, which is no `error` line.
    Line,
    /// The room's line, which has the key `error`.
    ErrorLine,
    /// The line of this fault.
    Refusal(WireFault),
    /// The line that answers, in a talk, a line that asks for the shade or for the collector.
    NotForASession,
}

/// The answer to a line.
#[derive(Clone, Copy, Debug, PartialEq, Eq)]
pub enum Said {
    /// This, and the next line is taken.
    Answer(Text),
    /// This, and no further line is taken.
    Last(Text),
    /// None, since there is no memory for the line of a reply; no further line is taken.
    Nothing,
}

/// Answers the lines of an input, one after another.
pub trait Responder {
    // what every answer keeps: of the responder at the start, and of the responder now
    ghost stays: { Self → Self → Type 0 };

    // what an answer does: the responder before, the line, what is said, and the responder after
    ghost says: { Self → List ℕ → Saying → Self → Type 0 };

    // whether a line may go without an answer
    ghost may_give_up: { Bool };

    /// Answers a line, in the room or by a refusal.
    fn respond(&mut self, line: &[u8], room: &mut LineRoom) -> Said
        ensures stays { (start : Self) → stays start self.old → stays start self.new }
        ensures says { says self.old line.now (saying room.new result) self.new }
        ensures gives_up { saying room.new result ≡ Saying.unanswered → may_give_up ≡ true };
}

/// Writes the line of an answer into the room; the text is that line, or `out of memory` in its place.
#[inline(always)]
pub fn text_of_answer(room: &mut LineRoom, answer: &Answer) -> Text
    ensures { TellsAnswer answer.now (shown_line room.new result) (is_wrong result) }
{
    match write_answer_in(room, answer) {
        Ok(()) if matches!(answer, Answer::Seat(_) | Answer::Ask(_)) => Text::ErrorLine,
        Ok(()) => Text::Line,
        Err(_) => Text::Refusal(WireFault::OutOfMemory),
    }
}

/// The result of a turn: whether the next line is taken.
#[derive(Clone, Copy)]
pub(crate) enum Turn {
    GoOn,
    Ended(Option<TalkFault>),
}

/// The writer of answers, which are held back in its buffer.
type Out<W> = Watched<BufWriter<W>>;

/// The lines of the input, the `error` lines answered so far, and room for the lines of answers.
#[derive(Drop)]
struct LinesSoFar {
    input: InputLines,
    errors: u64,
    room: LineRoom,
}

/// Has the responder answer each line that is left in the input. Answers to lines that came together are written
/// together, and nothing is held back when more is read, nor at the end. It ends after the responder's last answer, at
/// the end of the input, at a line of more than 16,384 bytes, at the line after the millionth, or when the reader or
/// the writer fails.
pub fn answer_lines<S: Responder, D: Read, W: Write + Drop>(
    alloc: Global,
    input: InputLines,
    responder: &mut S,
    reader: &mut Watched<D>,
    writer: &mut Watched<BufWriter<W>>,
) -> Finished
    requires few { input.taken ≤ MOST_LINES }
    requires stays { S.stays responder.old responder.old }
    requires reads { has_failed reader.old ≡ false }
    requires writes { has_failed writer.old ≡ false }
    ensures stays { S.stays responder.old responder.new }
    ensures paid { has_failed writer.new ≡ false → owed writer.new ≡ [] }
    ensures reading { (has_failed reader.new ≡ true) ↔ (result.fault ≡ Some Reading) }
    ensures writing { (has_failed writer.new ≡ true) ↔ (result.fault ≡ Some Writing) }
    ensures memory { result.fault ≡ Some OutOfMemory → (S.may_give_up ≡ true) × (0 < result.lines) }
    ensures few { result.lines ≤ MOST_LINES + 1 }
    ensures errors { result.errors ≤ result.lines }
    ensures answered { IfSome (prepend_known input.left (D.remaining (device_of reader.old)))
        (RestAnswered S.says responder.old input.taken responder.new result
        (promised W.contents writer.old) (promised W.contents writer.new) (has_failed writer.new)) }
{
    let mut lines = LinesSoFar {
        input,
        errors: 0,
        room: LineRoom::new(alloc),
    };
    'turns: loop {
        if !lines.may_read(writer) {
            return lines.over(Some(TalkFault::Writing));
        }
        match lines.turn(responder, reader, writer) {
            Turn::GoOn => {}
            Turn::Ended(fault) => return lines.over(fault),
        }
    }
}

impl LinesSoFar {
    /// Writes what is held back if more has to be read for the next line, so that nothing is read while an answer is
    /// owed; false if the writer fails.
    #[inline(always)]
    fn may_read<W: Write + Drop>(&self, writer: &mut Out<W>) -> bool
        requires { has_failed writer.old ≡ false }
        ensures kept { Keeps (promised W.contents writer.old) (promised W.contents writer.new) }
        ensures paid { result ≡ true → is_decided self.now.input.left ≡ false → owed writer.new ≡ [] }
        ensures unfailed { result ≡ true → has_failed writer.new ≡ false }
        ensures failed { result ≡ false → has_failed writer.new ≡ true }
    {
        if self.input.is_at_hand() {
            true
        } else {
            writer.pay()
        }
    }

    /// Takes one line, and answers it. Nothing may be owed if more has to be read for it.
    #[inline(always)]
    fn turn<S: Responder, D: Read, W: Write + Drop>(
        &mut self,
        responder: &mut S,
        reader: &mut Watched<D>,
        writer: &mut Out<W>,
    ) -> Turn
        requires few { self.old.input.taken ≤ MOST_LINES }
        requires errors { self.old.errors ≤ self.old.input.taken }
        requires reads { has_failed reader.old ≡ false }
        requires writes { has_failed writer.old ≡ false }
        requires paid { is_decided self.old.input.left ≡ false → owed writer.old ≡ [] }
        ensures few { goes_on_in result ≡ true → (self.new.input.taken ≡ self.old.input.taken + 1) × (self.new.input.taken ≤ MOST_LINES) }
        ensures most { self.new.input.taken ≤ self.old.input.taken + 1 }
        ensures errors { self.new.errors ≤ self.new.input.taken }
        ensures stays { (start : S) → S.stays start responder.old → S.stays start responder.new }
        ensures reads { goes_on_in result ≡ true → has_failed reader.new ≡ false }
        ensures writes { goes_on_in result ≡ true → has_failed writer.new ≡ false }
        ensures reading { (has_failed reader.new ≡ true) ↔ (fault_in result ≡ Some Reading) }
        ensures writing { (has_failed writer.new ≡ true) ↔ (fault_in result ≡ Some Writing) }
        ensures memory { fault_in result ≡ Some OutOfMemory → (S.may_give_up ≡ true) × (0 < self.new.input.taken) }
        ensures paid { goes_on_in result ≡ false → has_failed writer.new ≡ false → owed writer.new ≡ [] }
        ensures turned { IfSome (prepend_known self.old.input.left (D.remaining (device_of reader.old)))
            (Turned S.says result
            (point responder.old self.old.input.taken self.old.errors (prepend_known self.old.input.left (D.remaining (device_of reader.old))) (promised W.contents writer.old))
            (point responder.new self.new.input.taken self.new.errors (prepend_known self.new.input.left (D.remaining (device_of reader.new))) (promised W.contents writer.new))
            (has_failed writer.new)) }
    {
        match self.input.next(reader) {
            Next::Failed => Turn::Ended(Some(TalkFault::Reading)),
            Next::End => Turn::Ended(None),
            Next::Line => self.answer(responder, writer),
            Next::TooLong => {
                let text = error_line(WireFault::TooLong);
                Turn::Ended(self.refuse(writer, text, TalkFault::TooLong))
            }
            Next::TooMany => {
                Turn::Ended(self.refuse(writer, too_many_line(), TalkFault::TooMany))
            }
        }
    }

    /// Answers the line that was taken.
    #[inline(always)]
    fn answer<S: Responder, W: Write + Drop>(
        &mut self,
        responder: &mut S,
        writer: &mut Out<W>,
    ) -> Turn
        requires few { self.old.input.taken ≤ MOST_LINES }
        requires errors { self.old.errors < self.old.input.taken }
        requires writes { has_failed writer.old ≡ false }
        ensures input { self.new.input ≡ self.old.input }
        ensures errors { self.new.errors ≤ self.new.input.taken }
        ensures stays { (start : S) → S.stays start responder.old → S.stays start responder.new }
        ensures writes { goes_on_in result ≡ true → has_failed writer.new ≡ false }
        ensures reading { fault_in result ≢ Some Reading }
        ensures writing { (has_failed writer.new ≡ true) ↔ (fault_in result ≡ Some Writing) }
        ensures memory { fault_in result ≡ Some OutOfMemory → S.may_give_up ≡ true }
        ensures paid { goes_on_in result ≡ false → has_failed writer.new ≡ false → owed writer.new ≡ [] }
        ensures answered { (unread : Option (List ℕ)) → AnswersTaken S.says result self.old.input.line
            (point responder.old self.old.input.taken self.old.errors unread (promised W.contents writer.old))
            (point responder.new self.old.input.taken self.new.errors unread (promised W.contents writer.new)) (has_failed writer.new) }
    {
        match responder.respond(self.input.line(), &mut self.room) {
            Said::Answer(text) => match self.send(writer, text) {
                None => Turn::GoOn,
                Some(fault) => Turn::Ended(Some(fault)),
            },
            Said::Last(text) => Turn::Ended(self.send_last(writer, text)),
            Said::Nothing => Turn::Ended(pay_last(writer, Some(TalkFault::OutOfMemory))),
        }
    }

    /// Writes the line of a text; returns the writer's fault if it fails.
    #[inline(always)]
    fn send<W: Write + Drop>(&mut self, writer: &mut Out<W>, text: Text) -> Option<TalkFault>
        requires errors { self.old.errors < MOST_LINES }
        requires writes { has_failed writer.old ≡ false }
        ensures input { self.new.input ≡ self.old.input }
        ensures errors { self.new.errors ≡ self.old.errors + one_if (is_wrong text) }
        ensures fault { EndsOnce None (has_failed writer.new) result }
        ensures sent { Sends (promised W.contents writer.old) (promised W.contents writer.new) (has_failed writer.new) (shown_line self.old.room text) }
    {
        if text.is_error() {
            self.errors += 1;
        }
        send_line(writer, text.bytes(&self.room));
        if writer.failed() {
            Some(TalkFault::Writing)
        } else {
            None
        }
    }

    /// Writes the line of a text, and all that is held back; returns the writer's fault if it fails.
    fn send_last<W: Write + Drop>(&mut self, writer: &mut Out<W>, text: Text) -> Option<TalkFault>
        requires errors { self.old.errors < MOST_LINES }
        requires writes { has_failed writer.old ≡ false }
        ensures input { self.new.input ≡ self.old.input }
        ensures errors { self.new.errors ≡ self.old.errors + one_if (is_wrong text) }
        ensures fault { EndsOnce None (has_failed writer.new) result }
        ensures paid { has_failed writer.new ≡ false → owed writer.new ≡ [] }
        ensures sent { Sends (promised W.contents writer.old) (promised W.contents writer.new) (has_failed writer.new) (shown_line self.old.room text) }
    {
        match self.send(writer, text) {
            None => pay_last(writer, None),
            Some(fault) => Some(fault),
        }
    }

    /// Ends at a line that gets an `error` line as its only answer; returns the fault, unless the writer fails.
    fn refuse<W: Write + Drop>(
        &mut self,
        writer: &mut Out<W>,
        text: &[u8],
        fault: TalkFault,
    ) -> Option<TalkFault>
        requires errors { self.old.errors ≤ MOST_LINES }
        requires writes { has_failed writer.old ≡ false }
        ensures input { self.new.input ≡ self.old.input }
        ensures errors { self.new.errors ≡ self.old.errors + 1 }
        ensures fault { EndsOnce (Some fault) (has_failed writer.new) result }
        ensures paid { has_failed writer.new ≡ false → owed writer.new ≡ [] }
        ensures sent { Sends (promised W.contents writer.old) (promised W.contents writer.new) (has_failed writer.new) text.now }
    {
        self.errors += 1;
        send_last_line(writer, text, Some(fault))
    }

    /// How the lines ended.
    fn over(&self, fault: Option<TalkFault>) -> Finished
        ensures { result ≡ record { lines = self.now.input.taken; errors = self.now.errors; fault = fault } }
    {
        Finished {
            lines: self.input.taken(),
            errors: self.errors,
            fault,
        }
    }
}
