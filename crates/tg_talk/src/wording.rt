//! What a text says.
ghost use Rattle.std.specs.Prelude.{◌≡◌};
ghost use Rattle.tg_talk.specs.Promise.Answering.{is_wrong, shown_line};

use crate::answering::Text;
use crate::refusal::not_for_a_session_line;
use tg_wire::{LineRoom, error_line};

impl Text {
    /// The line, if this is the room.
    #[inline(always)]
    pub fn bytes(self, room: &LineRoom) -> &[u8]
        ensures { result.now ≡ shown_line room.now self }
    {
        match self {
            Text::Line | Text::ErrorLine => room.line(),
            Text::Refusal(refused) => error_line(refused),
            Text::NotForASession => not_for_a_session_line(),
        }
    }

    /// Whether the line is an `error` line.
    pub fn is_error(self) -> bool
        ensures { result ≡ is_wrong self }
    {
        !matches!(self, Text::Line)
    }
}
