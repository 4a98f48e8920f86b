//! The keys that the objects of lines have.

ghost use Rattle.std.specs.Prelude.{◌≡◌, ◌≤◌, ◌↔◌, ◌∷◌, ◌++◌, [], IfSome, IfNone, length, take, true};
ghost use Rattle.std.specs.Int.{from_le_bytes, w32};
ghost use Rattle.std.specs.Io.{StartsWith};
ghost use Rattle.std.specs.Str.{bytes_eq};
ghost use Rattle.tg_wire.specs.Inner.Keys.{is_in_set, is_listed, is_listed_in_either, key_bit, key_place, key_text};

/// A key that some line has.
#[derive(Clone, Copy, Debug, PartialEq, Eq)]
pub(crate) enum Key {
    Op,
    Seat,
    Agent,
    Over,
    From,
    To,
    At,
    Rights,
    Kind,
    Text,
    Name,
    Actor,
    Principals,
    Edges,
    Next,
    Slots,
    Cells,
}

/// How many keys there are.
pub(crate) const KEY_COUNT: usize = 17;

/// Each key.
const KEYS: [Key; KEY_COUNT] = [
    Key::Op,
    Key::Seat,
    Key::Agent,
    Key::Over,
    Key::From,
    Key::To,
    Key::At,
    Key::Rights,
    Key::Kind,
    Key::Text,
    Key::Name,
    Key::Actor,
    Key::Principals,
    Key::Edges,
    Key::Next,
    Key::Slots,
    Key::Cells,
];

// A bit for each key, in a set of keys.
pub(crate) const OP: u32 = 1 << 0;

pub(crate) const SEAT: u32 = 1 << 1;

pub(crate) const AGENT: u32 = 1 << 2;

pub(crate) const OVER: u32 = 1 << 3;

pub(crate) const FROM: u32 = 1 << 4;

pub(crate) const TO: u32 = 1 << 5;

pub(crate) const AT: u32 = 1 << 6;

pub(crate) const RIGHTS: u32 = 1 << 7;

pub(crate) const KIND: u32 = 1 << 8;

pub(crate) const TEXT: u32 = 1 << 9;

pub(crate) const NAME: u32 = 1 << 10;

impl Key {
    /// The key as lines have it, without quotes.
    #[inline(always)]
    pub(crate) fn word(self) -> &'static str
        ensures { result.now ≡ key_text self }
    {
        match self {
            Key::Op => "op",
            Key::Seat => "seat",
            Key::Actor => "actor",
            Key::Agent => "agent",
            Key::Over => "over",
            Key::From => "from",
            Key::To => "to",
            Key::At => "at",
            Key::Rights => "rights",
            Key::Kind => "kind",
            Key::Text => "text",
            Key::Name => "name",
            Key::Principals => "principals",
            Key::Edges => "edges",
            Key::Next => "next",
            Key::Slots => "slots",
            Key::Cells => "cells",
        }
    }

    /// The key whose word begins these bytes, with a quote after it, if some line has one.
    #[inline(always)]
    pub(crate) fn before_quote(bytes: &[u8]) -> Option<Key>
        ensures some { IfSome result (λ key. StartsWith bytes.now (key_text key ++ 34 ∷ [])) }
        ensures none { IfNone result ((key : Key) → StartsWith bytes.now (key_text key ++ 34 ∷ []) → ⊥) }
    {
        // The keys that most lines have come first.
        if Key::Op.is_before_quote(bytes) {
            Some(Key::Op)
        } else if Key::Seat.is_before_quote(bytes) {
            Some(Key::Seat)
        } else if Key::Over.is_before_quote(bytes) {
            Some(Key::Over)
        } else if Key::From.is_before_quote(bytes) {
            Some(Key::From)
        } else if Key::To.is_before_quote(bytes) {
            Some(Key::To)
        } else if Key::Rights.is_before_quote(bytes) {
            Some(Key::Rights)
        } else if Key::At.is_before_quote(bytes) {
            Some(Key::At)
        } else if Key::Text.is_before_quote(bytes) {
            Some(Key::Text)
        } else if Key::Kind.is_before_quote(bytes) {
            Some(Key::Kind)
        } else if Key::Actor.is_before_quote(bytes) {
            Some(Key::Actor)
        } else if Key::Name.is_before_quote(bytes) {
            Some(Key::Name)
        } else if Key::Agent.is_before_quote(bytes) {
            Some(Key::Agent)
        } else if Key::Principals.is_before_quote(bytes) {
            Some(Key::Principals)
        } else if Key::Edges.is_before_quote(bytes) {
            Some(Key::Edges)
        } else if Key::Next.is_before_quote(bytes) {
            Some(Key::Next)
        } else if Key::Slots.is_before_quote(bytes) {
            Some(Key::Slots)
        } else if Key::Cells.is_before_quote(bytes) {
            Some(Key::Cells)
        } else {
            None
        }
    }

    /// The key of this word, if some line has it.
    pub(crate) fn named(word: &str) -> Option<Key>
        ensures { IfSome result (λ key. key_text key ≡ word.now) }
    {
        for key in KEYS {
            if key.word() == word {
                return Some(key);
            }
        }
        None
    }

    /// Whether the word of the key begins these bytes, with a quote after it.
    // With the key a constant, as in each call, four letters become one comparison, and the loop one for each letter.
    #[inline(always)]
    fn is_before_quote(self, bytes: &[u8]) -> bool
        ensures { (result ≡ true) ↔ StartsWith bytes.now (key_text self ++ 34 ∷ []) }
    {
        let word = self.word().as_bytes();
        if bytes.len() <= word.len() {
            return false;
        }
        if word.len() == 4 {
            return bytes[4] == b'"' && have_same_four(bytes, word);
        }
        let mut at = 0;
        while at < word.len() {
            if bytes[at] != word[at] {
                return false;
            }
            at += 1;
        }
        bytes[at] == b'"'
    }

    /// Whether it is the other key.
    #[inline(always)]
    pub(crate) fn is(self, other: Key) -> bool
        ensures { result ≡ bytes_eq (key_text self) (key_text other) }
    {
        self == other
    }

    /// Its place among all keys, counted from 0.
    #[inline(always)]
    pub(crate) fn place(self) -> usize
        ensures { result ≡ key_place self }
    {
        self as usize
    }

    /// The key's bit in a set of keys.
    #[inline(always)]
    pub(crate) fn bit(self) -> u32
        ensures { result ≡ key_bit self }
    {
        1 << self.place()
    }

    /// Whether the set has the key.
    #[inline(always)]
    pub(crate) fn is_in_set(self, set: u32) -> bool
        ensures { result ≡ is_in_set set self }
    {
        set & self.bit() != 0
    }

    /// Whether the key is in one of the lists.
    #[inline(always)]
    pub(crate) fn is_in_either(self, others: &[Key], required: &[Key]) -> bool
        ensures { result ≡ is_listed_in_either others.now required.now (key_text self) }
    {
        self.is_in(others) || self.is_in(required)
    }

    #[inline(always)]
    fn is_in(self, keys: &[Key]) -> bool
        ensures { result ≡ is_listed (key_text self) keys.now }
    {
        for key in keys {
            if self.is(*key) {
                return true;
            }
        }
        false
    }
}

/// Whether both begin with the same four bytes.
#[inline(always)]
fn have_same_four(bytes: &[u8], word: &[u8]) -> bool
    requires bytes { 4 ≤ length bytes.now }
    requires word { 4 ≤ length word.now }
    ensures { (result ≡ true) ↔ (take 4 bytes.now ≡ take 4 word.now) }
{
    first_four(bytes) == first_four(word)
}

/// The first four bytes, as a number.
#[inline(always)]
fn first_four(bytes: &[u8]) -> u32
    requires { 4 ≤ length bytes.now }
    ensures { result ≡ from_le_bytes w32 (take 4 bytes.now) }
{
    u32::from_le_bytes([bytes[0], bytes[1], bytes[2], bytes[3]])
}

/// The word of one of the keys in the lists.
pub(crate) fn is_word_in_either(word: &str, others: &[Key], required: &[Key]) -> bool
    ensures { result ≡ is_listed_in_either others.now required.now word.now }
{
    is_word_in(word, others) || is_word_in(word, required)
}

fn is_word_in(word: &str, keys: &[Key]) -> bool
    ensures { result ≡ is_listed word.now keys.now }
{
    keys.iter().any(|key| word == key.word())
}
