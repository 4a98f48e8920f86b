//! A line's object as a list of its members, token by token, where a text of it has escapes.

ghost use Rattle.std.specs.Prelude.{◌≡◌, ◌∷◌, [], Some, IfOk, IfSome, OnSome, option_map};
ghost use Rattle.json.specs.Token.{begin_object};
ghost use Rattle.json.specs.Reads.{token_of};
ghost use Rattle.serde_json.specs.Data.{unsigned};
ghost use Rattle.serde_json.specs.Read.{number_of};
ghost use Rattle.tg_wire.specs.Inner.Flat.{Spells, TakesMembers, TakesObject};
ghost use Rattle.tg_wire.specs.Inner.Members.{flat_data};
ghost use Rattle.tg_wire.specs.Promise.Reading.{json_of};

use crate::key::Key;
use crate::member::{Member, Plain};
use crate::members::Members;
use crate::scan::number_in;
use json::{Reader, Scratch, Token};
use std::alloc::AllocError;

/// Reads the members of a line's object into room for them, if each is a text or a whole number whose key some line
/// has. `None` does not mean that one is not. Texts with escapes are written to the scratch, which grows to the length
/// of the line.
pub(crate) fn read_escaped<'a>(
    bytes: &'a [u8],
    scratch: &'a mut Scratch,
    found: &mut Members<'a>,
) -> Result<Option<()>, AllocError>
    requires { found.old.list.items ≡ [] }
    ensures { IfOk result (λ done. OnSome done (json_of bytes.now ≡ Some (flat_data found.new.list.items))) }
{
    let Ok(line) = std::str::from_utf8(bytes) else {
        return Ok(None);
    };
    let mut reader = Reader::new(line, scratch)?;
    Ok(take_object(&mut reader, found))
}

/// Takes all tokens, if they are those of such an object.
fn take_object<'a>(reader: &mut Reader<'a>, found: &mut Members<'a>) -> Option<()>
    requires { found.old.list.items ≡ [] }
    ensures { OnSome result (TakesObject reader.old found.new.list.items) }
{
    let Some(Token::BeginObject) = reader.next() else {
        return None;
    };
    take_members(reader, found)?;
    match reader.next() {
        None => Some(()),
        Some(_) => None,
    }
}

/// Takes the tokens up to the end of the object.
fn take_members<'a>(reader: &mut Reader<'a>, found: &mut Members<'a>) -> Option<()>
    requires { found.old.list.items ≡ [] }
    ensures { OnSome result (TakesMembers reader.old reader.new found.new.list.items) }
{
    loop {
        match reader.next()? {
            Token::Key(word) => {
                let key = Key::named(word)?;
                let value = value_of(reader.next()?)?;
                found.add(Member { key, value })?;
            }
            Token::EndObject => return Some(()),
            _ => return None,
        }
    }
}

/// The token's value.
fn value_of(token: Token<'_>) -> Option<Plain<'_>>
    ensures { IfSome result (λ value. Spells (token_of token.entry) value) }
{
    match token {
        Token::String(text) => Some(Plain::Escaped(text)),
        Token::Number(text) => Some(Plain::Number(number_in(text.as_bytes())?)),
        _ => None,
    }
}
