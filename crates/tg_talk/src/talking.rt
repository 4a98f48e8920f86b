//! A talk: a client's lines, answered over one session.

ghost use Rattle.std.specs.Prelude.{◌≡◌, ◌≢◌, ◌↔◌, ◌≤◌, [], true, false, IfSome, IsNone, None, Some};
ghost use Rattle.std.specs.Io.KnownBytes.{Keeps};
ghost use Rattle.tg_talk.specs.Promise.Devices.{device_of, has_failed, owed, promised};
ghost use Rattle.tg_talk.specs.Promise.Talks.{HasTalked};
ghost use Rattle.tg_talk.specs.Promise.Answering.{Saying, saying};
ghost use Rattle.tg_talk.specs.Inner.Talking.{HostSays, Leaves, SaysTo};
ghost use Rattle.tg_talk.specs.declared.fault.TalkFault.TheVariants.{OutOfMemory, Reading, Writing};

use crate::answering::{Responder, Said, answer_lines};
use crate::fault::TalkFault;
use crate::input_lines::InputLines;
use crate::telling::{hear_session, hear_stranger};
use crate::watched::Watched;
use std::alloc::Global;
use std::io::{BufWriter, Read, Write};
use std::mem;
use std::rt::Clock;
use std::sync::Wait;
use std::sync::ledger::Ledger;
use tg_share::{Ended, Gate, Session, Shared};
use tg_wire::LineRoom;

/// The result of a talk.
#[derive(Drop)]
pub struct Talked<L: Ledger> {
    /// Input lines taken, a last one that is too long or one too many among them.
    pub lines: u64,
    /// Why the talk ended before its lines did or before a bye, if it did.
    pub fault: Option<TalkFault>,
    /// What is left of the session; none if no hello succeeded.
    pub ended: Option<Ended<L>>,
}

/// Answers each line. Answers to lines that came together are written together, and nothing is held back when more is
/// read: by then, and when the talk ends, the writer has received all of them, unless it fails. Until a hello has
/// succeeded, each other line that can be read is answered `no actor`; then a hello is answered `bound`, and a line
/// that asks for the shade or for the collector `not for a session`. The seat, 0 to 63, is this one, whatever seat a
/// line names; above 63, or once `PARTS - 1` sessions were given, each hello is answered `no seat`. The talk ends at a
/// bye, which is answered, at the end of the input, at a line of more than 16,384 bytes, at the line after the
/// millionth, or when the reader or the writer fails. If there is no memory to read a line or for its answer's line,
/// `out of memory` is answered in its place; but if there is none for the line of a reply, nothing is, and the talk
/// ends. If there is none for the buffer of 32,768 bytes, no line is read. A session that a hello has begun is ended
/// here, whatever ends the talk.
pub fn talk<L: Ledger, D: Read, W: Write + Drop, R: Wait + Clock, G: Gate>(
    rt: &R,
    alloc: Global,
    reader: &mut Watched<D>,
    writer: &mut Watched<BufWriter<W>>,
    shared: &Shared<L>,
    seat: u64,
    gate: &G,
) -> Talked<L>
    requires reads { has_failed reader.old ≡ false }
    requires writes { has_failed writer.old ≡ false }
    requires paid { owed writer.old ≡ [] }
    ensures paid { has_failed writer.new ≡ false → owed writer.new ≡ [] }
    ensures reading { (has_failed reader.new ≡ true) ↔ (result.fault ≡ Some Reading) }
    ensures writing { (has_failed writer.new ≡ true) ↔ (result.fault ≡ Some Writing) }
    ensures few { result.lines ≤ 1000001 }
    ensures seat { IfSome result.ended (λ e. e.log.seat ≡ seat) }
    // If the talk's buffer lacks memory. A reply that lacks memory ends the talk after a line.
    ensures unread { result.fault ≡ Some OutOfMemory → result.lines ≡ 0
        → IsNone result.ended × Keeps (D.remaining (device_of reader.old)) (D.remaining (device_of reader.new)) }
    ensures talked { IfSome (D.remaining (device_of reader.old))
        (HasTalked result.lines result.fault result.ended (promised W.contents writer.old) (promised W.contents writer.new) (has_failed writer.new)) }
{
    let Ok(input) = InputLines::new(alloc) else {
        return Talked {
            lines: 0,
            fault: Some(TalkFault::OutOfMemory),
            ended: None,
        };
    };
    let mut host = Host {
        rt,
        alloc,
        shared,
        seat,
        gate,
        sitting: None,
    };
    let finished = answer_lines(alloc, input, &mut host, reader, writer);
    Talked {
        lines: finished.lines,
        fault: finished.fault,
        ended: leave(rt, host.into_sitting()),
    }
}

/// Who answers the lines of a client, and who sits there, once a hello has succeeded.
struct Host<'a, 's, L: Ledger, R: Wait + Clock, G: Gate> {
    rt: &'a R,
    alloc: Global,
    shared: &'s Shared<L>,
    seat: u64,
    gate: &'a G,
    sitting: Option<Session<'s, L>>,
}

impl<'a, 's, L: Ledger, R: Wait + Clock, G: Gate> Host<'a, 's, L, R, G> {
    /// Answers a line while nobody sits there.
    #[inline(never)]
    fn hear(&mut self, line: &[u8], room: &mut LineRoom) -> Said
        requires { self.old.sitting ≡ None }
        ensures seat { self.new.seat ≡ self.old.seat }
        ensures told { SaysTo None line.now (saying room.new result) self.new.sitting }
        ensures sits { IfSome self.new.sitting (λ s. s.seat ≡ self.old.seat) }
        ensures answered { saying room.new result ≢ Saying.unanswered }
    {
        let (text, come) = hear_stranger(self.rt, self.alloc, self.shared, self.seat, line, room);
        // Nobody sat there before; a session cannot be dropped, so the other case has to end it.
        if let Some(before) = mem::replace(&mut self.sitting, come) {
            drop(before.end(self.rt));
        }
        Said::Answer(text)
    }

    /// Who sits there.
    fn into_sitting(self) -> Option<Session<'s, L>>
        ensures { result ≡ self.entry.sitting }
    {
        let Host {
            rt: _,
            alloc: _,
            shared: _,
            seat: _,
            gate: _,
            sitting,
        } = self;
        sitting
    }
}

impl<'a, 's, L: Ledger, R: Wait + Clock, G: Gate> Responder for Host<'a, 's, L, R, G> {
    ghost stays = { λ start now. (now.seat ≡ start.seat) × IfSome now.sitting (λ s. s.seat ≡ start.seat) };

    ghost says = { HostSays (λ host. host.sitting) };

    ghost may_give_up = { true };

    fn respond(&mut self, line: &[u8], room: &mut LineRoom) -> Said {
        match &mut self.sitting {
            None => self.hear(line, room),
            Some(session) => hear_session(self.rt, self.alloc, session, self.gate, line, room),
        }
    }
}

/// Ends the session, if there is one.
fn leave<'s, L: Ledger, R: Wait>(rt: &R, sitting: Option<Session<'s, L>>) -> Option<Ended<L>>
    ensures { Leaves sitting.entry result }
{
    match sitting {
        Some(session) => Some(session.end(rt)),
        None => None,
    }
}
