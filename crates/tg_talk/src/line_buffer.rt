//! The bytes that were read and not yet taken.

ghost use Rattle.std.specs.Prelude.{◌≡◌, ℕ, ◌+◌, ◌-◌, ◌<◌, ◌≤◌, ◌↔◌, List, length, take, drop, IfSome, IfNone, None, true, false};
ghost use Rattle.std.specs.Io.KnownBytes.{Consumes, Keeps, IsAtEnd};
ghost use Rattle.tg_talk.specs.declared.line_buffer.TheConstants.{CAPACITY};
ghost use Rattle.tg_wire.specs.declared.line.TheConstants.{LONGEST_LINE};
ghost use Rattle.tg_talk.specs.Promise.Devices.{device_of, has_failed};
ghost use Rattle.tg_talk.specs.Inner.InputLines.{EndsLines};

use crate::watched::Watched;
use memchr::{memchr, memrchr};
use std::alloc::{AllocError, Global};
use std::io::Read;
use std::marker::Model;
use tg_wire::LONGEST_LINE;

/// The size of a buffer: room for a read after the bytes of the longest line.
const CAPACITY: usize = 32_768;

/// The greatest number of lines of a run or a talk.
pub const MOST_LINES: u64 = 1_000_000;

/// The bytes that were read and not yet taken, seen as their list. Lines are taken from its front: `find` reads until
/// one is there, `bytes` lends it and `consume` takes it away.
#[derive(Drop)]
pub struct LineBuffer {
    bytes: Vec<u8>,
    start: usize,
    end: usize,
    // The place after the last line feed before `end`; 0 if there is none.
    lines_to: usize,
}

/// What is at the front of the buffer.
#[derive(Clone, Copy, Debug, PartialEq, Eq)]
pub enum Found {
    /// A line of this many bytes, and its line feed.
    Line(usize),
    /// The last line, which has no line feed, and is all that is left.
    Last,
    /// Nothing is left.
    End,
    /// A line above the limit.
    TooLong,
    /// The reader failed.
    Failed,
}

/// The result of one read.
#[derive(Clone, Copy, Debug, PartialEq, Eq)]
enum Filled {
    More,
    End,
    Failed,
}

impl Model for LineBuffer {
    ghost Value = { List ℕ };

    ghost view = { λ b. take (b.end - b.start) (drop b.start b.bytes.items) };

    ghost invariant = { λ b. (b.start ≤ b.end) × (b.end ≤ CAPACITY) × (length b.bytes.items ≡ CAPACITY)
        × EndsLines (take b.end b.bytes.items) b.lines_to };
}

impl LineBuffer {
    ghost use Rattle.std.specs.Prelude.{◌≡◌, ◌<◌, ◌≤◌, ◌↔◌, length, take, drop, [], IfOk, true, false};
    ghost use Rattle.std.specs.Io.{StartsWith};
    ghost use Rattle.std.specs.Io.KnownBytes.{Keeps, IsAtEnd, prepend_known};
    ghost use Rattle.tg_talk.specs.Promise.Devices.{device_of, has_failed};
    ghost use Rattle.tg_talk.specs.Promise.Finding.{FindsLine, is_decided};
    ghost use Rattle.tg_talk.specs.Inner.Finding.{Fills};

    /// No bytes. The memory for all lines, 32,768 bytes, is allocated here and never again; `AllocError` if that fails.
    pub fn new(alloc: Global) -> Result<LineBuffer, AllocError>
        ensures { IfOk result (λ buffer. buffer ≡ []) }
    {
        let bytes = vec![in alloc; 0; CAPACITY]?;
        Ok(LineBuffer::over(bytes))
    }

    /// A buffer over this memory, with nothing read.
    fn over(bytes: Vec<u8>) -> LineBuffer
        requires { length bytes.items ≡ CAPACITY }
        ensures { result ≡ [] }
    {
        LineBuffer {
            bytes,
            start: 0,
            end: 0,
            lines_to: 0,
        }
    }

    /// Lends the bytes. Allocates nothing.
    pub fn bytes(&self) -> &[u8]
        ensures { result.now ≡ self.now }
    {
        &self.bytes[self.start..self.end]
    }

    /// Takes the first `n` bytes away.
    pub fn consume(&mut self, n: usize)
        requires { n ≤ length self.old }
        ensures { self.new ≡ drop n self.old }
    {
        self.start += n;
    }

    /// Whether it is known without a read what comes after the first `n` bytes: a line is there, or more bytes than one
    /// may have. Looks at no byte.
    #[inline(always)]
    pub fn is_decided_after(&self, n: usize) -> bool
        requires { n ≤ length self.now }
        ensures { result ≡ is_decided (drop n self.now) }
    {
        let from = self.start + n;
        from < self.lines_to || self.end - from > LONGEST_LINE
    }

    /// Reads until the next line is at the front, and reports what it is: one of at most 16,384 bytes, the last one,
    /// the end, one that is too long, or that the reader failed. Nothing is read ahead: a read is made only if the
    /// bytes at hand have no line feed and are at most 16,384, so a whole line is found before more is asked for, and
    /// none is left when a read fails. Allocates nothing.
    pub fn find<R: Read>(&mut self, reader: &mut Watched<R>) -> Found
        requires { has_failed reader.old ≡ false }
        ensures kept { Keeps (prepend_known self.old (R.remaining (device_of reader.old))) (prepend_known self.new (R.remaining (device_of reader.new))) }
        ensures found { FindsLine result self.new (R.remaining (device_of reader.new)) }
        ensures failed { (has_failed reader.new ≡ true) ↔ (result ≡ Found.Failed) }
        ensures at_hand { is_decided self.old ≡ true → (self.new ≡ self.old) × (reader.new ≡ reader.old) }
    {
        while !self.is_decided_after(0) {
            match self.fill(reader) {
                Filled::More => {}
                Filled::End => {
                    return if self.bytes().is_empty() {
                        Found::End
                    } else {
                        Found::Last
                    };
                }
                Filled::Failed => return Found::Failed,
            }
        }
        match memchr(b'\n', self.bytes()) {
            Some(n) if n <= LONGEST_LINE => Found::Line(n),
            _ => Found::TooLong,
        }
    }

    /// One read, after the bytes that are there.
    fn fill<R: Read>(&mut self, reader: &mut Watched<R>) -> Filled
        requires room { length self.old ≤ LONGEST_LINE }
        requires unfailed { has_failed reader.old ≡ false }
        ensures kept { Keeps (prepend_known self.old (R.remaining (device_of reader.old))) (prepend_known self.new (R.remaining (device_of reader.new))) }
        ensures front { StartsWith self.new self.old }
        ensures filled { Fills result self.old self.new (R.remaining (device_of reader.new)) }
        ensures failed { (has_failed reader.new ≡ true) ↔ (result ≡ Filled.Failed) }
    {
        let pending = self.end - self.start;
        move_down(&mut self.bytes, self.start, self.end);
        self.lines_to = self.lines_to.saturating_sub(self.start);
        self.start = 0;
        self.end = pending;
        match read_at(reader, &mut self.bytes, pending) {
            None => Filled::Failed,
            Some(0) => Filled::End,
            Some(n) => {
                self.end = pending + n;
                self.lines_to = last_lines_to(&self.bytes[..self.end], pending, self.lines_to);
                Filled::More
            }
        }
    }
}

/// Moves the bytes from `start` to `end` to the front.
fn move_down(bytes: &mut Vec<u8>, start: usize, end: usize)
    requires order { start ≤ end }
    requires within { end ≤ length bytes.old.items }
    ensures front { take (end - start) bytes.new.items ≡ take (end - start) (drop start bytes.old.items) }
    ensures len { length bytes.new.items ≡ length bytes.old.items }
{
    bytes.copy_within(start..end, 0);
}

/// The place after the last line feed, or 0 if there is none; `before` is that place among the bytes before `from`,
/// which are not searched again.
fn last_lines_to(bytes: &[u8], from: usize, before: usize) -> usize
    requires within { from ≤ length bytes.now }
    requires known { EndsLines (take from bytes.now) before }
    ensures { EndsLines bytes.now result }
{
    match memrchr(b'\n', &bytes[from..]) {
        Some(last) => from + last + 1,
        None => before,
    }
}

/// One read at `at`, and how many bytes it returned; `None` if it failed.
fn read_at<R: Read>(reader: &mut Watched<R>, bytes: &mut Vec<u8>, at: usize) -> Option<usize>
    requires room { at < length bytes.old.items }
    requires unfailed { has_failed reader.old ≡ false }
    ensures len { length bytes.new.items ≡ length bytes.old.items }
    ensures front { take at bytes.new.items ≡ take at bytes.old.items }
    ensures within { IfSome result (λ n. at + n ≤ length bytes.old.items) }
    ensures consumed { IfSome result (λ n. Consumes (R.remaining (device_of reader.old)) (R.remaining (device_of reader.new)) (take n (drop at bytes.new.items))) }
    ensures end { IfSome result (λ n. n ≡ 0 → IsAtEnd (R.remaining (device_of reader.new))) }
    ensures kept { IfNone result (Keeps (R.remaining (device_of reader.old)) (R.remaining (device_of reader.new))) }
    ensures failed { (has_failed reader.new ≡ true) ↔ (result ≡ None) }
{
    match reader.read(&mut bytes[at..]) {
        Ok(n) => Some(n),
        Err(_) => None,
    }
}
