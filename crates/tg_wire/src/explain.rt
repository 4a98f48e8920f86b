//! Which field of a refused line is at fault, for whoever wrote the line. No contract says so.

use crate::fault::WireFault;
use crate::field;
use crate::field::has;
use crate::key::{Key, is_word_in_either};
use crate::object::{LineObject, tree};
use crate::op::{Op, step_rule_named};
use std::alloc::Global;

/// What a line is to be.
#[derive(Clone, Copy, Debug, PartialEq, Eq)]
pub enum LineKind {
    /// An event of a run.
    Event,
    /// A step of a derivation.
    Step,
}

/// The key of the field for which a line is refused: the first that is missing, of those that its op asks for; else the
/// first whose value is bad; else one that such a line does not have. None if it is refused for no field, or without
/// memory.
pub fn key_at_fault(alloc: Global, kind: LineKind, bytes: &[u8]) -> Option<String> {
    let object = tree(alloc, bytes).ok()?;
    let word = field::string(&object, Key::Op)?;
    let op = op_of(kind, word)?;
    if let Some(key) = missing_key(kind, op, &object) {
        return String::from_str(alloc, key.word()).ok();
    }
    if let Some(key) = bad_key(alloc, kind, op, &object) {
        return String::from_str(alloc, key.word()).ok();
    }
    unknown_key(alloc, kind, op, &object)
}

fn op_of(kind: LineKind, word: &str) -> Option<Op> {
    match kind {
        LineKind::Event => Op::named(word),
        LineKind::Step => step_rule_named(word).map(Op::Ask),
    }
}

/// The key of who acts.
fn acting_key(kind: LineKind) -> Key {
    match kind {
        LineKind::Event => Key::Seat,
        LineKind::Step => Key::Actor,
    }
}

fn missing_key(kind: LineKind, op: Op, object: &LineObject<'_>) -> Option<Key> {
    if kind == LineKind::Step && !has(object, Key::Actor) {
        return Some(Key::Actor);
    }
    op.keys().iter().copied().find(|key| !has(object, *key))
}

fn bad_key(alloc: Global, kind: LineKind, op: Op, object: &LineObject<'_>) -> Option<Key> {
    let acting = acting_key(kind);
    if field::optional_number(object, acting, 0).is_none() {
        return Some(acting);
    }
    op.keys()
        .iter()
        .copied()
        .find(|key| !is_good(alloc, op, object, *key))
}

/// Whether the value of a field is one that it may have, as far as there is memory to read it.
fn is_good(alloc: Global, op: Op, object: &LineObject<'_>, key: Key) -> bool {
    match key {
        Key::Rights => field::rights(object).is_some(),
        Key::Kind => field::kind(object).is_some(),
        Key::Text => !matches!(field::text(alloc, object), Err(WireFault::BadField)),
        Key::Name if op == Op::Hello => field::string(object, key).is_some(),
        Key::Name => !matches!(field::name(alloc, object), Err(WireFault::BadField)),
        _ => field::number(object, key).is_some(),
    }
}

fn unknown_key(alloc: Global, kind: LineKind, op: Op, object: &LineObject<'_>) -> Option<String> {
    let LineObject::Tree(value) = object else {
        return None;
    };
    for key in value.as_object()?.keys() {
        let word = key.as_str();
        if !is_known(kind, op, word) {
            return String::from_str(alloc, word).ok();
        }
    }
    None
}

fn is_known(kind: LineKind, op: Op, word: &str) -> bool {
    is_word_in_either(word, &[Key::Op, acting_key(kind)], op.keys())
}
