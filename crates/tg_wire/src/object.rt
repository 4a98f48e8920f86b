//! A line as a JSON object, and which fields it has.

ghost use Rattle.tg_wire.specs.declared.line.TheConstants.{LONGEST_LINE};
ghost use Rattle.std.specs.Prelude.{◌≡◌, ◌≤◌, ◌++◌, Err, is_some, length, string_bytes, nat_le};
ghost use Rattle.std.specs.List.{list_all};
ghost use Rattle.std.specs.BTreeMap.{keys};
ghost use Rattle.serde_json.specs.Find.{as_object, get};
ghost use Rattle.serde_json.specs.View.{view};
ghost use Rattle.tg_wire.specs.Inner.Flat.{data_of};
ghost use Rattle.tg_wire.specs.Promise.Reading.{json_of, json_object, object_of, has_all as has_all_of, knows_all as knows_all_of, guard, or_else, AnswersBy};
ghost use Rattle.tg_wire.specs.Inner.Keys.{is_listed_in_either, key_text, key_texts};
ghost use Rattle.tg_wire.specs.declared.fault.WireFault.TheVariants.{NotJson, NotObject, MissingField, UnknownField, TooLong, OutOfMemory};

use crate::fault::WireFault;
use crate::field::has;
use crate::flat::Flat;
use crate::key::{Key, is_word_in_either};
use crate::line::LONGEST_LINE;
use serde_json::{Map, Value};
use std::alloc::Global;

/// The object of a line: the list of its members if it is flat, or its tree.
#[derive(Drop)]
pub(crate) enum LineObject<'a> {
    Flat(Flat<'a>),
    Tree(Value),
}

/// The object of a line, as its tree. Its length is checked before any memory is asked for.
pub(crate) fn object<'a>(alloc: Global, bytes: &[u8]) -> Result<LineObject<'a>, WireFault>
    ensures answered { AnswersBy data_of result (object_of bytes.now) }
    ensures short { result ≡ Err OutOfMemory → length bytes.now ≤ LONGEST_LINE }
{
    check_length(bytes)?;
    tree(alloc, bytes)
}

/// `TooLong` for a line of more than 16,384 bytes.
pub(crate) fn check_length(bytes: &[u8]) -> Result<(), WireFault>
    ensures { result ≡ guard (nat_le (length bytes.now) LONGEST_LINE) TooLong }
{
    if bytes.len() <= LONGEST_LINE {
        Ok(())
    } else {
        Err(WireFault::TooLong)
    }
}

/// The object of a line that is not too long, as its tree.
#[inline(never)]
pub(crate) fn tree<'a>(alloc: Global, bytes: &[u8]) -> Result<LineObject<'a>, WireFault>
    ensures { AnswersBy data_of result (json_object bytes.now) }
{
    let value = json(alloc, bytes)?;
    check_object(&value)?;
    Ok(LineObject::Tree(value))
}

fn json(alloc: Global, bytes: &[u8]) -> Result<Value, WireFault>
    ensures { AnswersBy view result (or_else NotJson (json_of bytes.now)) }
{
    match Value::from_slice(alloc, bytes) {
        Ok(value) => Ok(value),
        Err(e) => {
            if e.is_memory() {
                Err(WireFault::OutOfMemory)
            } else {
                Err(WireFault::NotJson)
            }
        }
    }
}

/// `NotObject` unless the value is an object.
fn check_object(value: &Value) -> Result<(), WireFault>
    ensures { result ≡ guard (is_some (as_object (view value.now))) NotObject }
{
    match value.as_object() {
        Some(_) => Ok(()),
        None => Err(WireFault::NotObject),
    }
}

/// `MissingField` unless the object has each of the keys.
#[tactic(auto, using(crate::proofs::KeysLemmas::has_all_texts))]
pub(crate) fn check_required(keys: &[Key], object: &LineObject<'_>) -> Result<(), WireFault>
    ensures { result ≡ guard (has_all_of (key_texts keys.now) (data_of object.now)) MissingField }
{
    if has_all(keys, object) {
        Ok(())
    } else {
        Err(WireFault::MissingField)
    }
}

fn has_all(keys: &[Key], object: &LineObject<'_>) -> bool
    ensures { result ≡ list_all (λ key. is_some (get (key_text key) (data_of object.now))) keys.now }
{
    keys.iter().all(|key| has(object, *key))
}

/// `UnknownField` unless each key of the object is one of these.
#[inline(always)]
pub(crate) fn knows_all(
    others: &[Key],
    required: &[Key],
    object: &LineObject<'_>,
) -> Result<(), WireFault>
    ensures { result ≡ guard (knows_all_of (key_texts others.now ++ key_texts required.now) (data_of object.now)) UnknownField }
{
    if is_known(others, required, object) {
        Ok(())
    } else {
        Err(WireFault::UnknownField)
    }
}

/// Whether each key of the object is one of these.
#[inline(always)]
pub(crate) fn is_known(others: &[Key], required: &[Key], object: &LineObject<'_>) -> bool
    ensures { result ≡ knows_all_of (key_texts others.now ++ key_texts required.now) (data_of object.now) }
{
    match object {
        LineObject::Flat(flat) => flat.knows_all(others, required),
        LineObject::Tree(value) => all_known(others, required, value),
    }
}

fn all_known(others: &[Key], required: &[Key], value: &Value) -> bool
    ensures { result ≡ knows_all_of (key_texts others.now ++ key_texts required.now) (view value.now) }
{
    match value.as_object() {
        Some(members) => are_known(others, required, members),
        None => true,
    }
}

fn are_known(others: &[Key], required: &[Key], members: &Map<String, Value>) -> bool
    ensures { result ≡ list_all (λ key. is_listed_in_either others.now required.now (string_bytes key)) (keys members.now) }
{
    members
        .keys()
        .all(|key| is_word_in_either(key.as_str(), others, required))
}
