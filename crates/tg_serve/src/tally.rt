//! What answers tell: how many refuse, deny, or say that storage is full, and who was greeted.

/// The longest beginning of an answer that is looked at: a greeting, with its serial.
const LONGEST: usize = 48;

const GREETING: &[u8] = b"{\"ok\":\"hello\",\"vertex\":";

/// What some answers tell.
#[derive(Clone, Copy, Debug, PartialEq, Eq)]
pub(crate) struct Tallied {
    /// How many are errors.
    pub(crate) refused: u64,
    /// How many are denials.
    pub(crate) denied: u64,
    /// How many say that storage is full.
    pub(crate) full: u64,
    /// The serial of the principal that was greeted last.
    pub(crate) greeted: Option<u64>,
}

impl Tallied {
    /// Nothing.
    pub(crate) fn none() -> Tallied {
        Tallied {
            refused: 0,
            denied: 0,
            full: 0,
            greeted: None,
        }
    }

    /// Counts an answer by its beginning.
    fn count(&mut self, answer: &[u8]) {
        if answer.starts_with(b"{\"error\"") {
            self.refused = self.refused.saturating_add(1);
        } else if answer.starts_with(b"{\"denied\"") || answer.starts_with(b"{\"cause\"") {
            self.denied = self.denied.saturating_add(1);
        } else if answer.starts_with(b"{\"full\"") {
            self.full = self.full.saturating_add(1);
        } else if let Some(rest) = answer.strip_prefix(GREETING) {
            self.greeted = Some(number_in(rest));
        }
    }
}

/// The number whose digits these bytes begin with.
fn number_in(bytes: &[u8]) -> u64 {
    let mut number = 0u64;
    for byte in bytes {
        if !byte.is_ascii_digit() {
            break;
        }
        let digit = u64::from(byte.saturating_sub(b'0'));
        number = number.saturating_mul(10).saturating_add(digit);
    }
    number
}

/// The beginning of the answer that is being written.
#[derive(Clone, Copy, Debug)]
pub(crate) struct Tally {
    start: [u8; LONGEST],
    len: usize,
}

impl Tally {
    /// No answer has begun.
    pub(crate) fn new() -> Tally {
        Tally {
            start: [0; LONGEST],
            len: 0,
        }
    }

    /// Counts the answers that end in these bytes, which follow those before.
    pub(crate) fn note(&mut self, bytes: &[u8]) -> Tallied {
        let mut tallied = Tallied::none();
        for byte in bytes {
            if *byte == b'\n' {
                tallied.count(self.start.get(..self.len).unwrap_or(&[]));
                self.len = 0;
            } else if let Some(place) = self.start.get_mut(self.len) {
                *place = *byte;
                self.len = self.len.saturating_add(1);
            }
        }
        tallied
    }
}
