//! The lines of an input, taken one after another.

ghost use Rattle.std.specs.Prelude.{◌≡◌, ◌<◌};
ghost use Rattle.tg_talk.specs.Promise.Taking.{count_of};
ghost use Rattle.tg_talk.specs.declared.line_buffer.TheConstants.{MOST_LINES};

use crate::line_buffer::{Found, LineBuffer, MOST_LINES};
use crate::watched::Watched;
use std::alloc::{AllocError, Global};
use std::io::Read;
use std::marker::Model;

/// The lines of an input: how many were taken, the last of them, and the bytes that were read and not yet taken.
#[derive(Drop)]
pub struct InputLines {
    buffer: LineBuffer,
    taken: u64,
    // The last line, at the front of the buffer, without and with its line feed.
    line: usize,
    whole: usize,
}

/// What is next in an input.
#[derive(Clone, Copy, Debug, PartialEq, Eq)]
pub enum Next {
    /// A line of at most 16,384 bytes, which `line` lends.
    Line,
    /// Nothing is left.
    End,
    /// A line above the limit.
    TooLong,
    /// A line after the millionth, whatever its length.
    TooMany,
    /// The reader failed.
    Failed,
}

impl Model for InputLines {
    ghost use Rattle.std.specs.Prelude.{◌≤◌, length, take, drop};
    ghost use Rattle.tg_talk.specs.Promise.Taking.{Input};

    ghost Value = { Input };

    ghost view = { λ l. record { taken = l.taken; line = take l.line l.buffer; left = drop l.whole l.buffer } };

    ghost invariant = { λ l. (l.line ≤ l.whole) × (l.whole ≤ length l.buffer) };
}

impl InputLines {
    ghost use Rattle.std.specs.Prelude.{◌≡◌, ◌⊎◌, ◌+◌, ◌<◌, ◌≤◌, ◌↔◌, length, [], IfOk, IfSome, true, false};
    ghost use Rattle.std.specs.Io.KnownBytes.{Keeps, prepend_known};
    ghost use Rattle.tg_talk.specs.declared.line_buffer.TheConstants.{MOST_LINES};
    ghost use Rattle.tg_wire.specs.declared.line.TheConstants.{LONGEST_LINE};
    ghost use Rattle.tg_talk.specs.Promise.Devices.{device_of, has_failed};
    ghost use Rattle.tg_talk.specs.Promise.Finding.{is_decided};
    ghost use Rattle.tg_talk.specs.Promise.Taking.{Takes, count_of};

    /// No line taken, nothing read. The memory for all lines, 32,768 bytes, is allocated here and never again;
    /// `AllocError` if that fails.
    pub fn new(alloc: Global) -> Result<InputLines, AllocError>
        ensures { IfOk result (λ lines. lines ≡ record { taken = 0; line = []; left = [] }) }
    {
        let buffer = LineBuffer::new(alloc)?;
        Ok(InputLines {
            buffer,
            taken: 0,
            line: 0,
            whole: 0,
        })
    }

    /// The number of lines taken.
    pub fn taken(&self) -> u64
        ensures { result ≡ self.now.taken }
    {
        self.taken
    }

    /// Lends the last line, without its line feed; no bytes before any line, and at the end.
    pub fn line(&self) -> &[u8]
        ensures { result.now ≡ self.now.line }
    {
        &self.buffer.bytes()[..self.line]
    }

    /// Whether it is known without a read what comes next.
    #[inline(always)]
    pub fn is_at_hand(&self) -> bool
        ensures { result ≡ is_decided self.now.left }
    {
        self.buffer.is_decided_after(self.whole)
    }

    /// Takes the next line. A line that is too long is counted, and so is the one after the millionth, which is
    /// recognised as that whatever its length. Nothing is read ahead: a whole line is found before more is asked for.
    /// Allocates nothing.
    #[inline(always)]
    pub fn next<R: Read>(&mut self, reader: &mut Watched<R>) -> Next
        requires few { self.old.taken ≤ MOST_LINES }
        requires reads { has_failed reader.old ≡ false }
        ensures count { self.new.taken ≡ self.old.taken + count_of result }
        ensures few { result ≡ Next.Line → self.new.taken ≤ MOST_LINES }
        ensures over { result ≡ Next.TooMany → self.old.taken ≡ MOST_LINES }
        ensures short { length self.new.line ≤ LONGEST_LINE }
        ensures empty { (result ≡ Next.End) ⊎ ((result ≡ Next.Failed) ⊎ (result ≡ Next.TooLong)) → self.new.line ≡ [] }
        ensures kept { result ≡ Next.Failed → Keeps (prepend_known self.old.left (R.remaining (device_of reader.old))) (prepend_known self.new.left (R.remaining (device_of reader.new))) }
        ensures failed { (has_failed reader.new ≡ true) ↔ (result ≡ Next.Failed) }
        ensures at_hand { is_decided self.old.left ≡ true → reader.new ≡ reader.old }
        ensures none { (result ≡ Next.End) ⊎ (result ≡ Next.Failed) → is_decided self.old.left ≡ false }
        ensures takes { IfSome (prepend_known self.old.left (R.remaining (device_of reader.old)))
            (Takes result self.old.taken self.new.line (prepend_known self.new.left (R.remaining (device_of reader.new)))) }
    {
        self.buffer.consume(self.whole);
        self.line = 0;
        self.whole = 0;
        match self.buffer.find(reader) {
            Found::Failed => Next::Failed,
            Found::End => Next::End,
            Found::TooLong => {
                let next = counted(self.taken, Next::TooLong);
                self.taken += 1;
                next
            }
            Found::Line(n) => {
                let next = counted(self.taken, Next::Line);
                self.taken += 1;
                self.line = n;
                self.whole = n + 1;
                next
            }
            Found::Last => {
                let next = counted(self.taken, Next::Line);
                self.taken += 1;
                self.line = self.buffer.bytes().len();
                self.whole = self.line;
                next
            }
        }
    }
}

/// What a line is that comes after this many.
fn counted(taken: u64, next: Next) -> Next
    requires { count_of next ≡ 1 }
    ensures one { count_of result ≡ 1 }
    ensures within { taken < MOST_LINES → result ≡ next }
    ensures over { taken ≡ MOST_LINES → result ≡ Next.TooMany }
{
    if taken == MOST_LINES {
        Next::TooMany
    } else {
        next
    }
}
