//! A member of a flat object.

use crate::key::Key;
use crate::unescaped::Unescaped;

/// A member's value.
#[derive(Clone, Copy, Drop)]
pub(crate) enum Plain<'a> {
    // The first, so that room for members begins as zeros.
    Number(u64),
    Text(Unescaped<'a>),
    /// A text that may need escapes.
    Escaped(&'a str),
}

/// A member: its key and its value.
#[derive(Clone, Copy, Drop)]
pub(crate) struct Member<'a> {
    pub(crate) key: Key,
    pub(crate) value: Plain<'a>,
}

impl Default for Member<'_> {
    fn default() -> Self {
        Member {
            key: Key::Op,
            value: Plain::Number(0),
        }
    }
}
