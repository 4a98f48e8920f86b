//! Whether a connection begins as a request of HTTP does, whatever its method is.

/// What the bytes that have come are.
#[derive(Clone, Copy, Debug, PartialEq, Eq)]
enum Shape {
    Nothing,
    /// Bytes of which a method may be made.
    Word,
    /// A word and a blank.
    Blank,
    /// A word, a blank and a slash.
    Request,
    /// Anything else.
    Other,
}

impl Shape {
    /// The shape of these bytes and one more.
    fn with(self, byte: u8) -> Shape {
        match self {
            Shape::Nothing | Shape::Word if is_of_a_word(byte) => Shape::Word,
            Shape::Word if byte == b' ' => Shape::Blank,
            Shape::Blank if byte == b'/' => Shape::Request,
            Shape::Request => Shape::Request,
            _ => Shape::Other,
        }
    }

    /// Whether further bytes change nothing.
    fn is_known(self) -> bool {
        matches!(self, Shape::Request | Shape::Other)
    }
}

/// Whether a method may have this byte.
fn is_of_a_word(byte: u8) -> bool {
    byte.is_ascii_alphanumeric() || b"!#$%&'*+-.^_`|~".contains(&byte)
}

/// How far a connection is like a request. A page whose own name leads to this machine can name any word as a method.
#[derive(Drop)]
pub(crate) struct Likeness {
    shape: Shape,
}

impl Likeness {
    /// No bytes yet.
    pub(crate) fn new() -> Likeness {
        Likeness {
            shape: Shape::Nothing,
        }
    }

    /// Takes note of bytes behind those that came before; returns whether all of them begin as a request does.
    pub(crate) fn note(&mut self, more: &[u8]) -> bool {
        for byte in more {
            if self.shape.is_known() {
                break;
            }
            self.shape = self.shape.with(*byte);
        }
        self.shape == Shape::Request
    }
}
