//! A line's object in which each key is one that some line has, and each member a text or a whole number, as a list of
//! its members; and how it is read if at most one text has escapes, none of them a surrogate.

ghost use Rattle.std.specs.Prelude.{◌≡◌, ◌<◌, ◌≤◌, ◌∷◌, ◌++◌, [], Some, IfSome, OnSome, option_map, length, drop, get_or, if◌then◌else◌};
ghost use Rattle.std.specs.Str.{bytes_eq};
ghost use Rattle.std.specs.List.{list_all};
ghost use Rattle.json.specs.Token.{Token, string};
ghost use Rattle.json.specs.Lex.{token, colon, between, lex};
ghost use Rattle.serde_json.specs.Read.{read};
ghost use Rattle.serde_json.specs.Find.{get};
ghost use Rattle.tg_wire.specs.Promise.Fields as fields;
ghost use Rattle.tg_wire.specs.Inner.Flat.{Spells, ReadsMembers};
ghost use Rattle.tg_wire.specs.Inner.Members.{plain_data, flat_data};
ghost use Rattle.tg_wire.specs.Promise.Lines.{line_extras};
ghost use Rattle.tg_wire.specs.Promise.Ops.{op_form};
ghost use Rattle.tg_wire.specs.Promise.Reading.{json_of, knows_all as knows_all_of};
ghost use Rattle.tg_wire.specs.Inner.Keys.{is_in_set, is_listed_in_either, key_text, key_texts};

use crate::decoded::{TextRoom, read_decoded};
use crate::key::Key;
use crate::member::{Member, Plain};
use crate::members::Members;
use crate::op::Op;
use crate::scan::{after_spaces, place_of, read_key, read_number, read_text, spaces_end, text_of};
use crate::unescaped::Unescaped;

/// A flat object: its members in the order of the line.
#[derive(Clone, Copy, Drop)]
pub(crate) struct Flat<'a> {
    members: &'a Members<'a>,
}

/// Reads the members of a line's object into room for them, if it is flat, and a text that has escapes into room of its
/// own. `None` does not mean that it is not flat.
pub(crate) fn read_flat<'a>(
    bytes: &'a [u8],
    room: &'a mut Vec<u8>,
    found: &mut Members<'a>,
) -> Option<()>
    requires { found.old.list.items ≡ [] }
    ensures { OnSome result (json_of bytes.now ≡ Some (flat_data found.new.list.items)) }
{
    let line = text_of(bytes)?;
    read_object(line, TextRoom::new(room), found)
}

/// The same for a text.
#[inline(always)]
fn read_object<'a>(line: &'a str, room: TextRoom<'a>, found: &mut Members<'a>) -> Option<()>
    requires { found.old.list.items ≡ [] }
    ensures { OnSome result (read line.now ≡ Some (flat_data found.new.list.items)) }
{
    let bytes = line.as_bytes();
    let brace = place_of(bytes, 0, b'{')?;
    let after = read_members(line, brace + 1, room, found)?;
    if spaces_end(bytes, after) < bytes.len() {
        return None;
    }
    Some(())
}

/// The members after the opening brace, and the place after the closing one.
#[inline(always)]
fn read_members<'a>(
    line: &'a str,
    from: usize,
    room: TextRoom<'a>,
    found: &mut Members<'a>,
) -> Option<usize>
    requires room { from ≤ length line.now }
    requires none { found.old.list.items ≡ [] }
    ensures found { IfSome result (λ after. ReadsMembers line.now from after found.new.list.items) }
    ensures bound { IfSome result (λ after. after ≤ length line.now) }
{
    let bytes = line.as_bytes();
    let mut room = room;
    let mut at = from;
    loop {
        let (member, after) = read_member(line, at, &mut room)?;
        let (end, mark) = after_spaces(bytes, after);
        found.add(member)?;
        match mark {
            b',' => at = end + 1,
            b'}' => return Some(end + 1),
            _ => return None,
        }
    }
}

/// The member at a place, and the place after it.
#[inline(always)]
fn read_member<'a>(
    line: &'a str,
    from: usize,
    room: &mut TextRoom<'a>,
) -> Option<(Member<'a>, usize)>
    requires { from ≤ length line.now }
    ensures found { IfSome result (λ r. (t : Token) × Spells t r.0.value
        × (lex between (drop from line.now) ≡ token (string (key_text r.0.key)) ∷ colon ∷ token t ∷ lex between (drop r.1 line.now))) }
    ensures bounds { IfSome result (λ r. (from < r.1) × (r.1 ≤ length line.now)) }
{
    let bytes = line.as_bytes();
    let quote = place_of(bytes, from, b'"')?;
    let (key, after) = read_key(bytes, quote)?;
    let between = place_of(bytes, after, b':')?;
    let (start, first) = after_spaces(bytes, between + 1);
    let (value, end) = read_value(line, start, first, room)?;
    Some((Member { key, value }, end))
}

/// The value at a place, which begins with this byte, and the place after it.
#[inline(always)]
fn read_value<'a>(
    line: &'a str,
    at: usize,
    first: u8,
    room: &mut TextRoom<'a>,
) -> Option<(Plain<'a>, usize)>
    requires place { at ≤ length line.now }
    requires first { get_or line.now at 32 ≡ first }
    ensures found { IfSome result (λ r. (t : Token) × Spells t r.0
        × (lex between (drop at line.now) ≡ token t ∷ lex between (drop r.1 line.now))) }
    ensures bounds { IfSome result (λ r. (at < r.1) × (r.1 ≤ length line.now)) }
{
    if first == b'"' {
        if let Some((text, after)) = read_text(line, at) {
            return Some((Plain::Text(text), after));
        }
        let (text, after) = read_decoded(line.as_bytes(), at, room)?;
        Some((Plain::Escaped(text), after))
    } else {
        let (number, after) = read_number(line.as_bytes(), at)?;
        Some((Plain::Number(number), after))
    }
}

impl<'a> Flat<'a> {
    pub(crate) fn new(members: &'a Members<'a>) -> Flat<'a>
        ensures { result.members.now ≡ members.now }
    {
        Flat { members }
    }

    /// The last member of that key.
    #[inline(always)]
    pub(crate) fn get(&self, key: Key) -> Option<Plain<'a>>
        ensures { option_map plain_data result ≡ get (key_text key) (flat_data self.now.members.now.list.items) }
    {
        self.members.last(key)
    }

    #[inline(always)]
    pub(crate) fn number(&self, key: Key) -> Option<u64>
        ensures { result ≡ fields.number_in (key_text key) (flat_data self.now.members.now.list.items) }
    {
        match self.get(key)? {
            Plain::Number(number) => Some(number),
            Plain::Text(_) | Plain::Escaped(_) => None,
        }
    }

    #[inline(always)]
    pub(crate) fn optional_number(&self, key: Key, default: u64) -> Option<u64>
        ensures { result ≡ fields.optional_number (key_text key) default (flat_data self.now.members.now.list.items) }
    {
        match self.get(key) {
            None => Some(default),
            Some(Plain::Number(number)) => Some(number),
            Some(Plain::Text(_) | Plain::Escaped(_)) => None,
        }
    }

    #[inline(always)]
    pub(crate) fn string(&self, key: Key) -> Option<&'a str>
        ensures { option_map (λ s. s.now) result ≡ fields.string_in (key_text key) (flat_data self.now.members.now.list.items) }
    {
        match self.get(key)? {
            Plain::Text(text) => Some(text.get()),
            Plain::Escaped(text) => Some(text),
            Plain::Number(_) => None,
        }
    }

    /// A text, if it is known to need no escape.
    #[inline(always)]
    pub(crate) fn unescaped(&self, key: Key) -> Option<Unescaped<'a>>
        ensures { IfSome result (λ s. fields.string_in (key_text key) (flat_data self.now.members.now.list.items) ≡ Some s.text.now) }
    {
        match self.get(key)? {
            Plain::Text(text) => Some(text),
            Plain::Escaped(_) | Plain::Number(_) => None,
        }
    }

    /// Whether each key is one of these.
    #[inline(always)]
    pub(crate) fn knows_all(&self, others: &[Key], required: &[Key]) -> bool
        ensures { result ≡ knows_all_of (key_texts others.now ++ key_texts required.now) (flat_data self.now.members.now.list.items) }
    {
        self.are_known(others, required)
    }

    /// Whether each key is one that a line of this op may have.
    #[inline(always)]
    pub(crate) fn knows_line(&self, op: Op) -> bool
        ensures { result ≡ knows_all_of (line_extras ++ (op_form op).fields) (flat_data self.now.members.now.list.items) }
    {
        self.members.are_in(op.known())
    }

    #[inline(always)]
    fn are_known(&self, others: &[Key], required: &[Key]) -> bool
        ensures { result ≡ list_all (λ m. is_listed_in_either others.now required.now (key_text m.key)) self.now.members.now.list.items }
    {
        self.members
            .as_slice()
            .iter()
            .all(|member| member.key.is_in_either(others, required))
    }
}
