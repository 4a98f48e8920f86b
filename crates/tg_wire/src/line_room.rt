//! Room for lines: for those of answers, and for the texts of one that is read.

use crate::last_line::LastLine;
use json::Scratch;
use std::alloc::{AllocError, Global};
use std::marker::Model;

/// Room for the texts of a line that is read and has escapes: for one such text, and for all of a line with more, or
/// with a surrogate pair. Either is made at the first such line, and grows to the length of the longest.
#[derive(Drop)]
pub(crate) struct TextsRoom {
    text: Vec<u8>,
    tokens: TokensRoom,
}

/// Room for the texts of a line that is read token by token, once there was one.
#[derive(Drop)]
pub(crate) struct TokensRoom {
    alloc: Global,
    scratch: Option<Box<Scratch>>,
}

impl TextsRoom {
    fn new(alloc: Global) -> TextsRoom {
        TextsRoom {
            text: Vec::new(alloc),
            tokens: TokensRoom {
                alloc,
                scratch: None,
            },
        }
    }

    /// Lends both.
    #[inline(always)]
    pub(crate) fn parts(&mut self) -> (&mut Vec<u8>, &mut TokensRoom) {
        (&mut self.text, &mut self.tokens)
    }
}

impl TokensRoom {
    /// Lends the room, which is made if there is none yet.
    pub(crate) fn lend(&mut self) -> Result<&mut Scratch, AllocError> {
        let scratch = match self.scratch.take() {
            Some(kept) => kept,
            None => Box::new(self.alloc, Scratch::new(self.alloc))?,
        };
        Ok(self.scratch.insert(scratch))
    }
}

/// Room in which lines are written, one after another, seen as the last of them. A short answer takes no memory, and
/// another line only if it is longer than all lines before it in the same room. It also has the room that
/// `read_line_in` needs for texts with escapes, which is taken at the first such line and grows to the length of the
/// longest.
#[derive(Drop)]
pub struct LineRoom {
    pub(crate) last: LastLine,
    texts: TextsRoom,
}

impl Model for LineRoom {
    ghost use Rattle.std.specs.Prelude.{List, ℕ};
    ghost use Rattle.tg_wire.specs.Inner.LastLine.{line_in};

    ghost Value = { List ℕ };

    ghost view = { λ room. line_in room.last };
}

impl LineRoom {
    ghost use Rattle.std.specs.Prelude.{◌≡◌, ◌≤◌, [], IfErr, IfOk, length};

    /// No line, and no room yet. Allocates nothing.
    pub fn new(alloc: Global) -> LineRoom
        ensures { result ≡ [] }
    {
        LineRoom {
            last: LastLine::new(alloc),
            texts: TextsRoom::new(alloc),
        }
    }

    /// Lends the line that was written last; it may be anything if memory for it ran out.
    #[inline(always)]
    pub fn line(&self) -> &[u8]
        ensures { result.now ≡ self.now }
    {
        self.last.get()
    }

    /// The line that was written last, which is all that is kept. `AllocError` if it is a short one, of at most 96
    /// bytes, which took no memory yet, and a vector for it cannot be allocated.
    pub fn into_line(self) -> Result<Vec<u8>, AllocError>
        ensures line { IfOk result (λ line. line.items ≡ self) }
        ensures short { IfErr result (λ _. length self ≤ 96) }
    {
        let LineRoom { last, texts } = self;
        drop(texts);
        last.into_vec()
    }

    /// Replaces the last line, and its room, by a line of the caller's.
    pub fn put(&mut self, line: Vec<u8>)
        ensures { self.new ≡ line.items }
    {
        self.last = LastLine::over(line);
    }

    /// Drops the line, and keeps its room. Allocates nothing.
    #[inline(always)]
    pub fn clear(&mut self)
        ensures { self.new ≡ [] }
    {
        self.last.clear();
    }

    /// Room for the texts of a line that is read.
    #[inline(always)]
    pub(crate) fn texts(&mut self) -> &mut TextsRoom {
        &mut self.texts
    }
}
