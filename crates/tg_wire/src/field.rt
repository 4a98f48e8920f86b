//! The fields of an object: none if a required one is absent, or if its value is bad.

ghost use Rattle.std.specs.Prelude.{◌≡◌, is_some, length, nat_le, option_map, option_and_then, IfSome, Some};
ghost use Rattle.serde_json.specs.Find.{as_array, get};
ghost use Rattle.serde_json.specs.View.{view, items_view};
ghost use Rattle.tg_rights.specs.Promise.Escapes.{NeedsNoEscape};
ghost use Rattle.tg_rights.specs.Promise.Written.{rights_of};
ghost use Rattle.tg_wire.specs.Promise.Fields as fields;
ghost use Rattle.tg_wire.specs.Inner.Flat.{data_of};
ghost use Rattle.tg_wire.specs.Inner.Keys.{key_text};
ghost use Rattle.tg_wire.specs.Inner.Reading.{AnswersField};
ghost use Rattle.tg_wire.specs.Promise.Reading.{guard};
ghost use Rattle.tg_wire.specs.declared.fault.WireFault.TheVariants.{BadField};

use crate::fault::WireFault;
use crate::key::Key;
use crate::object::LineObject;
use crate::unescaped::Unescaped;
use serde_json::Value;
use std::alloc::Global;
use tg_rights::{Kind, MAX_TEXT, Name, Rights, Text, Word, is_name};

/// Whether the field is there, with any value.
pub(crate) fn has(object: &LineObject<'_>, key: Key) -> bool
    ensures { result ≡ is_some (get (key_text key) (data_of object.now)) }
{
    match object {
        LineObject::Flat(flat) => flat.get(key).is_some(),
        LineObject::Tree(value) => value.get(key.word()).is_some(),
    }
}

/// A number.
#[inline(always)]
pub(crate) fn number(object: &LineObject<'_>, key: Key) -> Option<u64>
    ensures { result ≡ fields.number_in (key_text key) (data_of object.now) }
{
    match object {
        LineObject::Flat(flat) => flat.number(key),
        LineObject::Tree(value) => number_in(value, key),
    }
}

// What reads a tree is out of line, so that what reads a flat object can be in line.
#[inline(never)]
fn number_in(value: &Value, key: Key) -> Option<u64>
    ensures { result ≡ fields.number_in (key_text key) (view value.now) }
{
    value.get(key.word()).and_then(Value::as_u64)
}

/// A number that may be absent.
#[inline(always)]
pub(crate) fn optional_number(object: &LineObject<'_>, key: Key, default: u64) -> Option<u64>
    ensures { result ≡ fields.optional_number (key_text key) default (data_of object.now) }
{
    match object {
        LineObject::Flat(flat) => flat.optional_number(key, default),
        LineObject::Tree(value) => optional_in(value, key, default),
    }
}

#[inline(never)]
fn optional_in(value: &Value, key: Key, default: u64) -> Option<u64>
    ensures { result ≡ fields.optional_number (key_text key) default (view value.now) }
{
    match value.get(key.word()) {
        None => Some(default),
        Some(found) => found.as_u64(),
    }
}

/// A text, which is lent.
#[inline(always)]
pub(crate) fn string<'o>(object: &'o LineObject<'_>, key: Key) -> Option<&'o str>
    ensures { option_map (λ s. s.now) result ≡ fields.string_in (key_text key) (data_of object.now) }
{
    match object {
        LineObject::Flat(flat) => flat.string(key),
        LineObject::Tree(value) => string_in(value, key),
    }
}

#[inline(never)]
fn string_in(value: &Value, key: Key) -> Option<&str>
    ensures { option_map (λ s. s.now) result ≡ fields.string_in (key_text key) (view value.now) }
{
    value.get(key.word()).and_then(Value::as_str)
}

/// The list in the field of this key, if there is one. A flat object has none.
pub(crate) fn list<'o>(object: &'o LineObject<'_>, key: Key) -> Option<&'o Vec<Value>>
    ensures { option_map (λ v. items_view v.now.items) result ≡ option_and_then as_array (get (key_text key) (data_of object.now)) }
{
    match object {
        LineObject::Flat(_) => None,
        LineObject::Tree(value) => value.get(key.word()).and_then(Value::as_array),
    }
}

/// The rights in the field `rights`.
pub(crate) fn rights(object: &LineObject<'_>) -> Option<Rights>
    ensures { result ≡ fields.rights_in (data_of object.now) }
{
    rights_of(string(object, Key::Rights)?)
}

/// The rights that a text spells, if it does. Most texts are one of a few.
fn rights_of(text: &str) -> Option<Rights>
    ensures { result ≡ rights_of text.now }
{
    match text {
        "r" => Some(Rights::read()),
        "rw" => Some(Rights::read().union(Rights::write())),
        "rwg" => Some(Rights::read().union(Rights::write()).union(Rights::grant())),
        "tg" => Some(Rights::take().union(Rights::grant())),
        _ => text.parse().ok(),
    }
}

/// The rights that a value spells, if it does.
pub(crate) fn rights_value(value: &Value) -> Option<Rights>
    ensures { result ≡ fields.rights_value (view value.now) }
{
    value.as_str()?.parse().ok()
}

/// The kind in the field `kind`.
pub(crate) fn kind(object: &LineObject<'_>) -> Option<Kind>
    ensures { result ≡ fields.kind_in (data_of object.now) }
{
    match string(object, Key::Kind)? {
        "subject" => Some(Kind::Subject),
        "document" => Some(Kind::Document),
        _ => None,
    }
}

/// The seat, 0 if the field is absent.
#[inline(always)]
pub(crate) fn seat(object: &LineObject<'_>) -> Option<u64>
    ensures { result ≡ fields.seat_in (data_of object.now) }
{
    optional_number(object, Key::Seat, 0)
}

/// A copy of any text.
pub(crate) fn word(alloc: Global, object: &LineObject<'_>, key: Key) -> Result<Word, WireFault>
    ensures { AnswersField result (fields.string_in (key_text key) (data_of object.now)) }
{
    let text = string(object, key).ok_or(WireFault::BadField)?;
    Ok(Word::new(String::from_str(alloc, text)?))
}

/// A text, which is lent, if it is known to need no escape.
#[inline(always)]
fn unescaped<'o>(object: &'o LineObject<'_>, key: Key) -> Option<Unescaped<'o>>
    ensures { IfSome result (λ s. fields.string_in (key_text key) (data_of object.now) ≡ Some s.text.now) }
{
    match object {
        LineObject::Flat(flat) => flat.unescaped(key),
        LineObject::Tree(_) => None,
    }
}

/// The text of at most 4,096 bytes, which its copies share. A longer one is refused before memory is asked for.
pub(crate) fn text(alloc: Global, object: &LineObject<'_>) -> Result<Text, WireFault>
    ensures { AnswersField result (fields.text_field (data_of object.now)) }
{
    match unescaped(object, Key::Text) {
        Some(text) => unescaped_text(alloc, text.get()),
        None => shared_text(alloc, string(object, Key::Text).ok_or(WireFault::BadField)?),
    }
}

/// The text of these bytes, of which none needs an escape.
#[inline(always)]
fn unescaped_text(alloc: Global, text: &str) -> Result<Text, WireFault>
    requires { NeedsNoEscape text.now }
    ensures { AnswersField result (fields.short_text text.now) }
{
    check_text(text)?;
    Ok(Text::unescaped(alloc, text)?)
}

/// The text of these bytes.
fn shared_text(alloc: Global, text: &str) -> Result<Text, WireFault>
    ensures { AnswersField result (fields.short_text text.now) }
{
    check_text(text)?;
    Ok(Text::shared(alloc, text)?)
}

/// `BadField` for more bytes than a text may have.
#[inline(always)]
fn check_text(text: &str) -> Result<(), WireFault>
    ensures { result ≡ guard (nat_le (length text.now) 4096) BadField }
{
    if text.len() > MAX_TEXT {
        return Err(WireFault::BadField);
    }
    Ok(())
}

/// The name of a principal. A text that is none is refused before memory is asked for.
pub(crate) fn name(alloc: Global, object: &LineObject<'_>) -> Result<Name, WireFault>
    ensures { AnswersField result (fields.name_field (data_of object.now)) }
{
    let text = string(object, Key::Name).ok_or(WireFault::BadField)?;
    if !is_name(text) {
        return Err(WireFault::BadField);
    }
    let Ok(name) = Name::new(String::from_str(alloc, text)?) else {
        unreachable!()
    };
    Ok(name)
}
