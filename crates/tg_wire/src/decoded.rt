//! A text in which a backslash and one byte stand for a byte, or `\u` and four hex digits for a character, read in its
//! place.

ghost use Rattle.std.specs.Prelude.{◌≡◌, ◌<◌, ◌≤◌, ◌∷◌, ◌++◌, Some, IfOk, IfSome, OnOk, length, drop};
ghost use Rattle.std.specs.Char.{encode_utf8};
ghost use Rattle.json.specs.Token.{string};
ghost use Rattle.json.specs.Lex.{token, between, lex};
ghost use Rattle.json.specs.Text.{short_escape};
ghost use Rattle.tg_wire.specs.Inner.Runs.{Decodes, IsHex, SpellsCharacter};

use crate::scan::{byte_at, plain_end, text_of};
use std::alloc::AllocError;

/// Room for one text of a line, unless it was taken.
#[derive(Drop)]
pub(crate) struct TextRoom<'a> {
    room: Option<&'a mut Vec<u8>>,
}

impl<'a> TextRoom<'a> {
    #[inline(always)]
    pub(crate) fn new(room: &'a mut Vec<u8>) -> TextRoom<'a> {
        TextRoom { room: Some(room) }
    }
}

/// The text at a place, if one with such escapes is there and there is room for it, and the place after it. It takes
/// the room. `None` does not mean that no text is there.
// Out of line, since few texts have escapes.
#[inline(never)]
pub(crate) fn read_decoded<'a>(
    bytes: &[u8],
    quote: usize,
    room: &mut TextRoom<'a>,
) -> Option<(&'a str, usize)>
    requires { quote ≤ length bytes.now }
    ensures found { IfSome result (λ r. lex between (drop quote bytes.now) ≡ token (string r.0.now) ∷ lex between (drop r.1 bytes.now)) }
    ensures bounds { IfSome result (λ r. (quote < r.1) × (r.1 ≤ length bytes.now)) }
{
    if byte_at(bytes, quote) != b'"' {
        return None;
    }
    let text = room.room.take()?;
    match decode(bytes, quote + 1, text) {
        Ok(Some(end)) => Some((text_of(text.as_slice())?, end)),
        _ => None,
    }
}

/// Writes the text after a quote into the room, and returns the place after the quote that ends it. `None` if it has
/// other escapes.
fn decode(bytes: &[u8], from: usize, text: &mut Vec<u8>) -> Result<Option<usize>, AllocError>
    requires { from ≤ length bytes.now }
    ensures found { IfOk result (λ end. IfSome end (Decodes bytes.now from text.new.items)) }
    ensures bounds { IfOk result (λ end. IfSome end (λ to. (from < to) × (to ≤ length bytes.now))) }
{
    text.clear();
    let mut at = from;
    loop {
        let end = plain_end(bytes, at);
        text.extend_from_slice(&bytes[at..end])?;
        match byte_at(bytes, end) {
            b'"' => return Ok(Some(end + 1)),
            b'\\' => {
                let letter = byte_at(bytes, end + 1);
                if letter == b'u' {
                    let Some(character) = spelled_at(bytes, end + 2) else {
                        return Ok(None);
                    };
                    push_character(text, character)?;
                    at = end + 6;
                } else {
                    let Some(byte) = meant(letter) else {
                        return Ok(None);
                    };
                    text.push(byte)?;
                    at = end + 2;
                }
            }
            _ => return Ok(None),
        }
    }
}

/// The byte for which a backslash and this byte stand.
fn meant(byte: u8) -> Option<u8>
    ensures { IfSome result (λ c. short_escape byte ≡ Some c) }
{
    match byte {
        b'"' | b'\\' | b'/' => Some(byte),
        b'b' => Some(8),
        b'f' => Some(12),
        b'n' => Some(b'\n'),
        b'r' => Some(b'\r'),
        b't' => Some(b'\t'),
        _ => None,
    }
}

/// The character that the four hex digits from a place on spell. `None` for a surrogate, which stands only in a pair.
fn spelled_at(bytes: &[u8], at: usize) -> Option<char>
    requires { at ≤ length bytes.now }
    ensures { IfSome result (SpellsCharacter bytes.now at) }
{
    let first = hex_at(bytes, at)?;
    let second = hex_at(bytes, at + 1)?;
    let third = hex_at(bytes, at + 2)?;
    let fourth = hex_at(bytes, at + 3)?;
    char::from_u32(first * 4096 + second * 256 + third * 16 + fourth)
}

/// The value of the hex digit at a place, if one is there.
fn hex_at(bytes: &[u8], at: usize) -> Option<u32>
    ensures { IfSome result (IsHex bytes.now at) }
{
    char::from(byte_at(bytes, at)).to_digit(16)
}

/// Adds the bytes of a character.
fn push_character(text: &mut Vec<u8>, character: char) -> Result<(), AllocError>
    ensures { OnOk result (text.new.items ≡ text.old.items ++ encode_utf8 character) }
{
    let mut room = [0; 4];
    text.extend_from_slice(character.encode_utf8(&mut room).as_bytes())
}
