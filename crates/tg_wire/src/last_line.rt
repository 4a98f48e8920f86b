//! The line that was written last.

ghost use Rattle.std.specs.Prelude.{◌≡◌, ◌+◌, ◌<◌, ◌≤◌, ◌++◌, [], IfErr, IfOk, OnOk, drop, length};
ghost use Rattle.tg_wire.specs.Inner.LastLine.{line_in};
ghost use Rattle.tg_wire.specs.declared.last_line.TheConstants.{SHORT_LINE};

use crate::before::bytes_before;
use std::alloc::{AllocError, Global};

/// Room for a short line.
pub(crate) const SHORT_LINE: usize = 96;

/// Room for a line that is not short, as it is made at the first.
const ROOM: usize = 128;

/// The line that was written last. A short one is written from its last part to the first, at the end of an array,
/// where it takes no memory; any other stands in a vector, which is kept from line to line.
#[derive(Drop)]
pub(crate) struct LastLine {
    pub(crate) short: [u8; SHORT_LINE],
    // Where a short line starts; the size of the array if the line is in the vector.
    pub(crate) start: usize,
    pub(crate) long: Vec<u8>,
}

impl LastLine {
    /// No line. Allocates nothing.
    pub(crate) fn new(alloc: Global) -> LastLine
        ensures { line_in result ≡ [] }
    {
        LastLine::over(Vec::new(alloc))
    }

    /// The line in this vector.
    pub(crate) fn over(long: Vec<u8>) -> LastLine
        ensures { line_in result ≡ long.items }
    {
        LastLine {
            short: [0; SHORT_LINE],
            start: SHORT_LINE,
            long,
        }
    }

    /// Lends the line.
    #[inline(always)]
    pub(crate) fn get(&self) -> &[u8]
        ensures { result.now ≡ line_in self.now }
    {
        if self.start < SHORT_LINE {
            &self.short[self.start..]
        } else {
            self.long.as_slice()
        }
    }

    /// The line, in a vector of its own: `AllocError` if a short one lacks memory for that.
    pub(crate) fn into_vec(self) -> Result<Vec<u8>, AllocError>
        ensures line { IfOk result (λ line. line.items ≡ line_in self) }
        ensures short { IfErr result (λ _. length (line_in self) ≤ SHORT_LINE) }
    {
        let LastLine {
            short,
            start,
            mut long,
        } = self;
        if start < SHORT_LINE {
            long.clear();
            long.extend_from_slice(&short[start..])?;
        }
        Ok(long)
    }

    /// Drops the line, and keeps the vector. Allocates nothing.
    #[inline(always)]
    pub(crate) fn clear(&mut self)
        ensures start { self.new.start ≡ SHORT_LINE }
        ensures long { self.new.long.items ≡ [] }
    {
        self.start = SHORT_LINE;
        self.long.clear();
    }

    /// Begins a line in the vector, with room for most.
    pub(crate) fn begin(&mut self) -> Result<(), AllocError>
        ensures start { OnOk result (self.new.start ≡ SHORT_LINE) }
        ensures long { OnOk result (self.new.long.items ≡ []) }
    {
        self.clear();
        self.long.try_reserve(ROOM)
    }

    /// Puts these bytes in its place.
    #[inline(always)]
    pub(crate) fn put(&mut self, bytes: &[u8])
        requires some { 0 < length bytes.now }
        requires short { length bytes.now ≤ SHORT_LINE }
        ensures { line_in self.new ≡ bytes.now }
    {
        self.start = bytes_before(&mut self.short, SHORT_LINE, bytes);
    }

    // A short line is put from its end to its start, each part before what stands.
    /// The last part of a short line; returns where it starts.
    #[inline(always)]
    pub(crate) fn put_end(&mut self, bytes: &[u8]) -> usize
        requires { length bytes.now ≤ SHORT_LINE }
        ensures size { result + length bytes.now ≡ SHORT_LINE }
        ensures text { drop result self.new.short ≡ bytes.now }
    {
        bytes_before(&mut self.short, SHORT_LINE, bytes)
    }

    /// The first part of a short line, before the others, which start at `end`.
    #[inline(always)]
    pub(crate) fn put_start(&mut self, end: usize, bytes: &[u8])
        requires some { 0 < length bytes.now }
        requires room { length bytes.now ≤ end }
        requires end { end ≤ SHORT_LINE }
        ensures { line_in self.new ≡ bytes.now ++ drop end self.old.short }
    {
        self.start = bytes_before(&mut self.short, end, bytes);
    }
}
