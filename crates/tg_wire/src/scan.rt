//! What is at a place of a line: spaces, a text without escapes, a whole number.

ghost use Rattle.std.specs.Prelude.{◌≡◌, ◌<◌, ◌≤◌, ◌^◌, ◌∷◌, ◌||◌, ◌==◌, ℕ, List, Some, IfSome, length, drop, get_or, map, false};
ghost use Rattle.std.specs.Char.{is_ascii_digit};
ghost use Rattle.std.specs.Str.{IsUtf8};
ghost use Rattle.std.specs.Simd.Lanes.{mask_l};
ghost use Rattle.std.specs.Str.Parse.{digits_value};
ghost use Rattle.json.specs.Token.{string, number};
ghost use Rattle.json.specs.Word.{is_space};
ghost use Rattle.json.specs.Run.{is_plain, is_stop};
ghost use Rattle.json.specs.Lex.{token, between, lex};
ghost use Rattle.serde_json.specs.Data.{unsigned};
ghost use Rattle.serde_json.specs.Read.{number_of};
ghost use Rattle.tg_wire.specs.Inner.Keys.{key_text};
ghost use Rattle.tg_wire.specs.Inner.Runs.{EndsRun, front};

use crate::ascii::is_ascii;
use crate::key::Key;
use crate::unescaped::Unescaped;
use std::simd::prelude::*;

/// The greatest number that may get another digit: with a zero it is below 2 ^ 64.
const MOST_BEFORE_A_DIGIT: u64 = 1_844_674_407_370_955_161;

/// The bytes as a text, if they are UTF-8. Nearly all lines are ASCII.
#[inline(always)]
pub(crate) fn text_of(bytes: &[u8]) -> Option<&str>
    ensures same { IfSome result (λ text. text.now ≡ bytes.now) }
    ensures utf8 { IfSome result (λ text. IsUtf8 bytes.now) }
{
    if is_ascii(bytes) {
        return Some(unsafe { std::str::from_utf8_unchecked(bytes) });
    }
    std::str::from_utf8(bytes).ok()
}

/// The byte at a place, or a space after the last one.
#[inline(always)]
pub(crate) fn byte_at(bytes: &[u8], at: usize) -> u8
    ensures { result ≡ get_or bytes.now at 32 }
{
    if at < bytes.len() { bytes[at] } else { b' ' }
}

/// The first place from this one on that has no space.
#[inline(always)]
pub(crate) fn spaces_end(bytes: &[u8], from: usize) -> usize
    requires { from ≤ length bytes.now }
    ensures { EndsRun is_space bytes.now from result }
{
    // Most lines have no spaces.
    if from >= bytes.len() || bytes[from] > b' ' {
        return from;
    }
    let mut at = from;
    while at < bytes.len() && is_space(bytes[at]) {
        at += 1;
    }
    at
}

/// The first place from this one on that has no space, and the byte there, or a space behind the last one.
// The byte comes along, since it would be read anew behind a branch.
#[inline(always)]
pub(crate) fn after_spaces(bytes: &[u8], from: usize) -> (usize, u8)
    requires { from ≤ length bytes.now }
    ensures place { EndsRun is_space bytes.now from result.0 }
    ensures byte { get_or bytes.now result.0 32 ≡ result.1 }
{
    if from < bytes.len() {
        let byte = bytes[from];
        if byte > b' ' {
            return (from, byte);
        }
    }
    let at = spaces_end(bytes, from);
    (at, byte_at(bytes, at))
}

/// The place of this byte, from which it may stand behind spaces.
// Most lines have no spaces, so that the byte is looked for first.
#[inline(always)]
pub(crate) fn place_of(bytes: &[u8], from: usize, byte: u8) -> Option<usize>
    requires { from ≤ length bytes.now }
    ensures spaces { IfSome result (λ at. lex between (drop from bytes.now) ≡ lex between (drop at bytes.now)) }
    ensures byte { IfSome result (λ at. get_or bytes.now at 32 ≡ byte) }
    ensures order { IfSome result (λ at. from ≤ at) }
    ensures bound { IfSome result (λ at. at < length bytes.now) }
{
    if from < bytes.len() && bytes[from] == byte {
        return Some(from);
    }
    let at = spaces_end(bytes, from);
    if at < bytes.len() && bytes[at] == byte {
        return Some(at);
    }
    None
}

#[inline(always)]
fn is_space(byte: u8) -> bool
    ensures { result ≡ is_space byte }
{
    byte == b' ' || byte == b'\t' || byte == b'\n' || byte == b'\r'
}

/// The first quote, backslash or control byte from a place on, 64 bytes at a time while there are as many, then 16, and
/// then 8.
// If inlined, the loop would also count up, at each byte, what the caller computes from the place.
#[inline(never)]
pub(crate) fn plain_end(bytes: &[u8], from: usize) -> usize
    requires { from ≤ length bytes.now }
    ensures { EndsRun is_plain bytes.now from result }
{
    let mut at = from;
    while bytes.len() - at >= 64 && !has_stop(u8x64::from_slice(&bytes[at..])) {
        at += 64;
    }
    while bytes.len() - at >= 16 {
        let found = stops(u8x16::from_slice(&bytes[at..]));
        if found != 0 {
            return at + found.trailing_zeros() as usize;
        }
        at += 16;
    }
    if bytes.len() - at < 8 {
        return plain_end_slowly(bytes, at);
    }
    let found = stops_among_eight(u8x8::from_slice(&bytes[at..]));
    if found != 0 {
        return at + found.trailing_zeros() as usize;
    }
    plain_end_slowly(bytes, at + 8)
}

/// A bit for each byte at which the plain text of a string stops, the lowest for the first byte.
#[inline(always)]
fn stops(bytes: u8x16) -> u64
    ensures { result ≡ mask_l (map is_stop bytes) }
{
    (bytes.simd_eq(u8x16::splat(b'"'))
        | bytes.simd_eq(u8x16::splat(b'\\'))
        | bytes.simd_lt(u8x16::splat(b' '))).to_bitmask()
}

/// The same for eight bytes.
#[inline(always)]
fn stops_among_eight(bytes: u8x8) -> u64
    ensures { result ≡ mask_l (map is_stop bytes) }
{
    (bytes.simd_eq(u8x8::splat(b'"'))
        | bytes.simd_eq(u8x8::splat(b'\\'))
        | bytes.simd_lt(u8x8::splat(b' '))).to_bitmask()
}

/// Whether the plain text of a string stops at one of the bytes, or one is perhaps not ASCII.
// A control byte or a quote is at most a space once its second bit is turned, and then 33 less has its top bit: so has
// much that is not ASCII. One instruction takes the top bits of 16 bytes.
#[inline(always)]
fn has_stop(bytes: u8x64) -> bool
    ensures { result ≡ false → mask_l (map is_stop bytes) ≡ 0 }
{
    let low = (bytes ^ u8x64::splat(2)) - u8x64::splat(33);
    let backslash = bytes.simd_eq(u8x64::splat(b'\\'));
    let found = low | backslash.select(u8x64::splat(255), u8x64::splat(0));
    found.simd_ge(u8x64::splat(128)).to_bitmask() != 0
}

/// The same a byte at a time.
#[inline(always)]
fn plain_end_slowly(bytes: &[u8], from: usize) -> usize
    requires { from ≤ length bytes.now }
    ensures { EndsRun is_plain bytes.now from result }
{
    let mut at = from;
    while at < bytes.len() && bytes[at] != b'"' && bytes[at] != b'\\' && bytes[at] >= b' ' {
        at += 1;
    }
    at
}

/// The number that the digits from a place on write, 0 without any, and the place after them; none if it is 2 ^ 64 or
/// more.
#[inline(always)]
fn read_digits(bytes: &[u8], from: usize) -> Option<(u64, usize)>
    requires { from ≤ length bytes.now }
    ensures ends { IfSome result (λ r. EndsRun is_ascii_digit bytes.now from r.1) }
    ensures value { IfSome result (λ r. digits_value 10 (front (drop from bytes.now)) ≡ r.0) }
    ensures small { IfSome result (λ r. r.0 < 2 ^ 64) }
{
    if from >= bytes.len() || !bytes[from].is_ascii_digit() {
        return Some((0, from));
    }
    // The first digit needs no look whether there is room for it.
    let mut number = u64::from(bytes[from] - b'0');
    let mut at = from + 1;
    while at < bytes.len() && bytes[at].is_ascii_digit() {
        if number > MOST_BEFORE_A_DIGIT {
            return None;
        }
        number = (number * 10).checked_add(u64::from(bytes[at] - b'0'))?;
        at += 1;
    }
    Some((number, at))
}

/// The key after the quote at a place, if one is there, and the place after it.
#[inline(always)]
pub(crate) fn read_key(bytes: &[u8], quote: usize) -> Option<(Key, usize)>
    requires bound { quote < length bytes.now }
    requires opens { get_or bytes.now quote 32 ≡ 34 }
    ensures found { IfSome result (λ r. lex between (drop quote bytes.now) ≡ token (string (key_text r.0)) ∷ lex between (drop r.1 bytes.now)) }
    ensures bounds { IfSome result (λ r. (quote < r.1) × (r.1 ≤ length bytes.now)) }
{
    let key = Key::before_quote(&bytes[quote + 1..])?;
    Some((key, quote + key.word().len() + 2))
}

/// The text after the quote at a place, if one without escapes is there, and the place after it.
#[inline(always)]
pub(crate) fn read_text<'a>(line: &'a str, quote: usize) -> Option<(Unescaped<'a>, usize)>
    requires bound { quote < length line.now }
    requires opens { get_or line.now quote 32 ≡ 34 }
    ensures found { IfSome result (λ r. lex between (drop quote line.now) ≡ token (string r.0.text.now) ∷ lex between (drop r.1 line.now)) }
    ensures bounds { IfSome result (λ r. (quote < r.1) × (r.1 ≤ length line.now)) }
{
    let bytes = line.as_bytes();
    let end = plain_end(bytes, quote + 1);
    if byte_at(bytes, end) != b'"' {
        return None;
    }
    Some((Unescaped::new(&line[quote + 1..end]), end + 1))
}

/// The whole number that the bytes are, if they are its digits and no others.
pub(crate) fn number_in(bytes: &[u8]) -> Option<u64>
    ensures { IfSome result (λ n. number_of bytes.now ≡ Some (unsigned n)) }
{
    let (number, end) = read_digits(bytes, 0)?;
    if end == 0 || end < bytes.len() {
        return None;
    }
    Some(number)
}

/// The whole number at a place, if one is there, and the place after it.
#[inline(always)]
pub(crate) fn read_number(bytes: &[u8], at: usize) -> Option<(u64, usize)>
    requires { at ≤ length bytes.now }
    ensures found { IfSome result (λ r. (digits : List ℕ) × (number_of digits ≡ Some (unsigned r.0))
        × (lex between (drop at bytes.now) ≡ token (number digits) ∷ lex between (drop r.1 bytes.now))) }
    ensures bounds { IfSome result (λ r. (at < r.1) × (r.1 ≤ length bytes.now)) }
{
    let (number, end) = read_digits(bytes, at)?;
    if end == at || !ends_number(byte_at(bytes, end)) || is_padded(bytes[at], end - at) {
        return None;
    }
    Some((number, end))
}

#[inline(always)]
fn ends_number(byte: u8) -> bool
    ensures { result ≡ (byte == 44 || byte == 125 || byte == 32) }
{
    byte == b',' || byte == b'}' || byte == b' '
}

/// Whether a zero comes before other digits.
#[inline(always)]
fn is_padded(first: u8, digits: usize) -> bool
    ensures { result ≡ false → (first ≡ 48) → (digits ≤ 1) }
{
    first == b'0' && digits > 1
}
