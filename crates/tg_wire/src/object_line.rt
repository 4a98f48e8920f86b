//! The line of an object, written field by field into one buffer.

ghost use Rattle.std.specs.Prelude.{◌≡◌, ◌+◌, ◌%◌, ◌<◌, ◌≤◌, ◌∷◌, ◌++◌, [], false, decimal, length, OnOk};
ghost use Rattle.tg_wire.specs.declared.object_line.TheConstants.{LONGEST_LEAD, SHORT_TEXT};
ghost use Rattle.json.specs.Print.{quoted};
ghost use Rattle.serde_json.specs.Data.{object, string};
ghost use Rattle.serde_json.specs.Written.{compact_text, members_text};
ghost use Rattle.tg_rights.specs.Promise.Written.{rights_text};
ghost use Rattle.tg_wire.specs.Promise.Faults.{line_text};
ghost use Rattle.tg_wire.specs.Inner.LastLine.{line_in};
ghost use Rattle.tg_wire.specs.Inner.Told.{byte_if, led_text, told_data, told_members};

use crate::before::{bytes_before, number_before};
use crate::edges::put_edges;
use crate::last_line::LastLine;
use crate::line_room::LineRoom;
use crate::plain::is_plain;
use itoa::Buffer;
use json::Writer;
use std::alloc::AllocError;
use std::mem;
use tg_rights::Rights;

/// The most bytes before, and after, the value of a short line.
const LONGEST_LEAD: usize = 29;

/// The most bytes of a text in a short line.
const SHORT_TEXT: usize = 64;

/// The value of a field to write.
#[derive(Clone, Copy, Drop)]
pub(crate) enum Told<'a> {
    Number(u64),
    Word(&'a str),
    Letters(Rights),
    Edges(&'a [(u64, Rights)]),
}

/// The line of an object with these fields, in their order. It ends with a line feed.
pub(crate) fn object_line(
    room: &mut LineRoom,
    fields: &[(&str, Told<'_>)],
) -> Result<(), AllocError>
    ensures { OnOk result (room.new ≡ line_text (object (told_members fields.now))) }
{
    room.last.begin()?;
    put_object(&mut room.last.long, fields)
}

// Each of the rest of a line is put after what the room has, which is nothing: so no line is moved from call to call.
/// The same, put into the line's room.
#[tactic(auto, using(crate::proofs::ObjectLineLemmas::braced))]
pub(crate) fn put_object(line: &mut Vec<u8>, fields: &[(&str, Told<'_>)]) -> Result<(), AllocError>
    ensures { OnOk result (line.new.items ≡ line.old.items ++ line_text (object (told_members fields.now))) }
{
    line.push(b'{')?;
    put_fields(line, fields)?;
    line.push(b'\n')?;
    Ok(())
}

/// The line of an object that begins with these bytes, and ends with this word. It ends with a line feed.
#[tactic(auto, using(crate::proofs::ObjectLineLemmas::led))]
pub(crate) fn put_led_word(line: &mut Vec<u8>, lead: &[u8], word: &str) -> Result<(), AllocError>
    ensures { OnOk result (line.new.items ≡ line.old.items ++ led_text lead.now (string word.now)) }
{
    line.extend_from_slice(lead)?;
    put_text(line, word)?;
    put_end(line)
}

/// The line of an object that has these bytes before the bytes of a text, a quote the last of them, and a quote after
/// it. It ends with a line feed.
#[inline(always)]
pub(crate) fn put_led_text(line: &mut LastLine, lead: &[u8], text: &[u8]) -> Result<(), AllocError>
    requires some { 0 < length lead.now }
    requires short { length lead.now ≤ LONGEST_LEAD }
    ensures { OnOk result (line_in line.new ≡ lead.now ++ (text.now ++ 34 ∷ 125 ∷ 10 ∷ [])) }
{
    if text.len() <= SHORT_TEXT {
        put_short_text(line, lead, text);
        return Ok(());
    }
    put_long_text(line, lead, text)
}

/// The same for a short text.
#[inline(always)]
fn put_short_text(line: &mut LastLine, lead: &[u8], text: &[u8])
    requires some { 0 < length lead.now }
    requires short { length lead.now ≤ LONGEST_LEAD }
    requires text { length text.now ≤ SHORT_TEXT }
    ensures { line_in line.new ≡ lead.now ++ (text.now ++ 34 ∷ 125 ∷ 10 ∷ []) }
{
    let end = line.put_end(b"\"}\n");
    let end = bytes_before(&mut line.short, end, text);
    line.put_start(end, lead);
}

/// The same for any other text.
#[inline(always)]
#[tactic(auto, using(crate::proofs::ObjectLineLemmas::in_three))]
fn put_long_text(line: &mut LastLine, lead: &[u8], text: &[u8]) -> Result<(), AllocError>
    ensures { OnOk result (line_in line.new ≡ lead.now ++ (text.now ++ 34 ∷ 125 ∷ 10 ∷ [])) }
{
    line.begin()?;
    line.long.extend_from_slice(lead)?;
    line.long.extend_from_slice(text)?;
    line.long.extend_from_slice(b"\"}\n")?;
    Ok(())
}

/// The line of an object that has these bytes before a number, and these after it. It ends with a line feed.
#[inline(always)]
#[tactic(auto, using(crate::proofs::ObjectLineLemmas::fed))]
pub(crate) fn put_led_number(line: &mut LastLine, lead: &[u8], number: u64, rest: &[u8])
    requires some { 0 < length lead.now }
    requires short { length lead.now ≤ LONGEST_LEAD }
    requires rest { length rest.now ≤ LONGEST_LEAD }
    ensures { line_in line.new ≡ lead.now ++ ((decimal number ++ rest.now) ++ 10 ∷ []) }
{
    let end = line.put_end(b"\n");
    let end = bytes_before(&mut line.short, end, rest);
    let end = number_before(&mut line.short, end, number);
    line.put_start(end, lead);
}

/// The line of an object whose last member is a number: the bytes before it, and the number. It ends with a line feed.
#[inline(always)]
#[tactic(auto, using(crate::proofs::ObjectLineLemmas::fed))]
pub(crate) fn put_last_number(line: &mut LastLine, lead: &[u8], number: u64)
    requires some { 0 < length lead.now }
    requires short { length lead.now ≤ LONGEST_LEAD }
    ensures { line_in line.new ≡ lead.now ++ ((decimal number ++ 125 ∷ []) ++ 10 ∷ []) }
{
    let end = line.put_end(b"}\n");
    let end = number_before(&mut line.short, end, number);
    line.put_start(end, lead);
}

/// The end of an object that is a line.
#[inline(always)]
fn put_end(line: &mut Vec<u8>) -> Result<(), AllocError>
    ensures { OnOk result (line.new.items ≡ line.old.items ++ 125 ∷ 10 ∷ []) }
{
    put_two(line, b'}', b'\n')
}

/// Fields, with a comma between two, and the closing brace.
fn put_fields(line: &mut Vec<u8>, fields: &[(&str, Told<'_>)]) -> Result<(), AllocError>
    ensures { OnOk result (line.new.items ≡ line.old.items ++ members_text false (told_members fields.now)) }
{
    let mut later = false;
    for (key, told) in fields {
        put_if(line, later, b',')?;
        put_text(line, *key)?;
        line.push(b':')?;
        put(line, told)?;
        later = true;
    }
    line.push(b'}')?;
    Ok(())
}

/// A value.
#[inline(always)]
fn put(line: &mut Vec<u8>, told: &Told<'_>) -> Result<(), AllocError>
    ensures { OnOk result (line.new.items ≡ line.old.items ++ compact_text (told_data told.now)) }
{
    match told {
        Told::Number(number) => put_number(line, *number),
        Told::Word(text) => put_text(line, text),
        Told::Letters(rights) => put_letters(line, *rights),
        Told::Edges(edges) => put_edges(line, edges),
    }
}

/// A byte, if it is shown.
#[inline(always)]
fn put_if(line: &mut Vec<u8>, shown: bool, byte: u8) -> Result<(), AllocError>
    ensures { OnOk result (line.new.items ≡ line.old.items ++ byte_if shown byte) }
{
    if shown {
        line.push(byte)?;
    }
    Ok(())
}

/// A number's digits. Those of a number of more than four are made apart, and copied.
pub(crate) fn put_number(line: &mut Vec<u8>, number: u64) -> Result<(), AllocError>
    ensures { OnOk result (line.new.items ≡ line.old.items ++ decimal number) }
{
    if number >= 10_000 {
        return put_many_digits(line, number);
    }
    let one = last_digit(number);
    if number < 10 {
        return put_byte(line, one);
    }
    let ten = last_digit(number / 10);
    if number < 100 {
        return put_two(line, ten, one);
    }
    let hundred = last_digit(number / 10 / 10);
    if number < 1_000 {
        return line.extend_from_slice(&[hundred, ten, one]);
    }
    let thousand = last_digit(number / 10 / 10 / 10);
    line.extend_from_slice(&[thousand, hundred, ten, one])
}

// One or two bytes take less time by a push each than by a call that copies them.
#[inline(always)]
fn put_byte(line: &mut Vec<u8>, byte: u8) -> Result<(), AllocError>
    ensures { OnOk result (line.new.items ≡ line.old.items ++ byte ∷ []) }
{
    line.push(byte)?;
    Ok(())
}

#[inline(always)]
fn put_two(line: &mut Vec<u8>, first: u8, second: u8) -> Result<(), AllocError>
    ensures { OnOk result (line.new.items ≡ line.old.items ++ first ∷ second ∷ []) }
{
    line.push(first)?;
    line.push(second)?;
    Ok(())
}

#[inline(always)]
fn last_digit(number: u64) -> u8
    ensures { result ≡ 48 + number % 10 }
{
    b'0' + (number % 10) as u8
}

#[inline(never)]
fn put_many_digits(line: &mut Vec<u8>, number: u64) -> Result<(), AllocError>
    ensures { OnOk result (line.new.items ≡ line.old.items ++ decimal number) }
{
    let mut buffer = Buffer::new();
    line.extend_from_slice(buffer.format(number).as_bytes())
}

/// The letters of rights, in quotes.
#[inline(always)]
pub(crate) fn put_letters(line: &mut Vec<u8>, rights: Rights) -> Result<(), AllocError>
    ensures { OnOk result (line.new.items ≡ line.old.items ++ quoted (rights_text rights)) }
{
    line.push(b'"')?;
    put_if(line, rights.contains(Rights::read()), b'r')?;
    put_if(line, rights.contains(Rights::write()), b'w')?;
    put_if(line, rights.contains(Rights::take()), b't')?;
    put_if(line, rights.contains(Rights::grant()), b'g')?;
    line.push(b'"')?;
    Ok(())
}

/// A text, in quotes, with the escapes that it needs.
pub(crate) fn put_text(line: &mut Vec<u8>, text: &str) -> Result<(), AllocError>
    ensures { OnOk result (line.new.items ≡ line.old.items ++ quoted text.now) }
{
    if is_plain(text.as_bytes()) {
        put_quoted(line, text.as_bytes())
    } else {
        put_escaped(line, text)
    }
}

/// The bytes, in quotes.
#[inline(always)]
fn put_quoted(line: &mut Vec<u8>, text: &[u8]) -> Result<(), AllocError>
    ensures { OnOk result (line.new.items ≡ line.old.items ++ 34 ∷ (text.now ++ 34 ∷ [])) }
{
    // With room for the end of a line.
    line.reserve(text.len() + 4)?;
    line.push(b'"')?;
    line.extend_from_slice(text)?;
    line.push(b'"')?;
    Ok(())
}

/// The same for a text that needs escapes.
#[inline(never)]
#[tactic(auto, using(crate::proofs::ObjectLineLemmas::text_told))]
fn put_escaped(line: &mut Vec<u8>, text: &str) -> Result<(), AllocError>
    ensures { OnOk result (line.new.items ≡ line.old.items ++ quoted text.now) }
{
    let empty = Vec::new(*line.allocator());
    let mut out = Writer::new(mem::replace(line, empty));
    out.string(text)?;
    *line = out.into_inner();
    Ok(())
}
