//! From a line to a configuration, and from a line to a goal.

ghost use Rattle.tg_wire.specs.declared.line.TheConstants.{LONGEST_LINE};
ghost use Rattle.std.specs.Prelude.{◌≡◌, ◌≤◌, Err, length, option_map};
ghost use Rattle.serde_json.specs.View.{view, items_view};
ghost use Rattle.tg_wire.specs.Promise.Fields as fields;
ghost use Rattle.tg_wire.specs.Inner.Flat.{data_of};
ghost use Rattle.tg_wire.specs.Inner.Keys.{key_text};
ghost use Rattle.tg_wire.specs.Promise.Configs.{goal_in, opening_in, opening_of};
ghost use Rattle.tg_wire.specs.Promise.Lines.{goal_of, config_of};
ghost use Rattle.tg_wire.specs.Promise.Reading.{Answers, AnswersBy, or_else};
ghost use Rattle.tg_wire.specs.declared.fault.WireFault.TheVariants.{BadField, OutOfMemory};

use crate::fault::WireFault;
use crate::field;
use crate::key::Key;
use crate::object::{LineObject, check_required, knows_all, object};
use serde_json::Value;
use std::alloc::Global;
use tg_graph::{Config, Goal};
use tg_rights::{Rights, Word};

/// The value of a configuration line, or its first fault. If a field is absent, `edges` are none, `next` is the number
/// of principals plus 1, `slots` are 1,024 and `cells` 16,384. The fault is never `NoOp`.
#[tactic(auto, unfolding(crate::specs::Promise::Lines::config_of))]
pub fn read_config(alloc: Global, bytes: &[u8]) -> Result<Config, WireFault>
    ensures answered { AnswersBy opening_of result (config_of bytes.now) }
    ensures short { result ≡ Err OutOfMemory → length bytes.now ≤ LONGEST_LINE }
{
    let object = object(alloc, bytes)?;
    check_required(&[Key::Principals], &object)?;
    let config = config(alloc, &object)?;
    knows_all(
        &[Key::Edges, Key::Next, Key::Slots, Key::Cells],
        &[Key::Principals],
        &object,
    )?;
    Ok(config)
}

/// The value of a goal line, or its first fault. The fault is never `NoOp`.
#[tactic(auto, unfolding(crate::specs::Promise::Lines::goal_of))]
pub fn read_goal(alloc: Global, bytes: &[u8]) -> Result<Goal, WireFault>
    ensures answered { Answers result (goal_of bytes.now) }
    ensures short { result ≡ Err OutOfMemory → length bytes.now ≤ LONGEST_LINE }
{
    let object = object(alloc, bytes)?;
    check_required(&[Key::From, Key::To, Key::Rights], &object)?;
    let goal = goal(&object).ok_or(WireFault::BadField)?;
    knows_all(&[], &[Key::From, Key::To, Key::Rights], &object)?;
    Ok(goal)
}

fn goal(object: &LineObject<'_>) -> Option<Goal>
    ensures { result ≡ goal_in (data_of object.now) }
{
    let from = field::number(object, Key::From)?;
    let to = field::number(object, Key::To)?;
    let rights = field::rights(object)?;
    Some(Goal { from, to, rights })
}

fn config(alloc: Global, object: &LineObject<'_>) -> Result<Config, WireFault>
    ensures { AnswersBy opening_of result (or_else BadField (opening_in (data_of object.now))) }
{
    let principals = words(alloc, object, Key::Principals)?;
    let edges = edges(alloc, object)?;
    let least = principals.len() as u64 + 1;
    let next = field::optional_number(object, Key::Next, least).ok_or(WireFault::BadField)?;
    let slots = field::optional_number(object, Key::Slots, 1_024).ok_or(WireFault::BadField)?;
    let cells = field::optional_number(object, Key::Cells, 16_384).ok_or(WireFault::BadField)?;
    Ok(Config {
        principals,
        edges,
        next,
        slots,
        cells,
    })
}

fn words(alloc: Global, object: &LineObject<'_>, key: Key) -> Result<Vec<Word>, WireFault>
    ensures { AnswersBy (λ v. v.items) result (or_else BadField (fields.texts_in (key_text key) (data_of object.now))) }
{
    let list = field::list(object, key).ok_or(WireFault::BadField)?;
    words_of(alloc, list)
}

fn words_of(alloc: Global, list: &Vec<Value>) -> Result<Vec<Word>, WireFault>
    ensures { AnswersBy (λ v. v.items) result (or_else BadField (fields.texts_of (items_view list.now.items))) }
{
    let mut found = Vec::new(alloc);
    for value in list {
        let text = value.as_str().ok_or(WireFault::BadField)?;
        found.push(Word::new(String::from_str(alloc, text)?))?;
    }
    Ok(found)
}

fn edges(alloc: Global, object: &LineObject<'_>) -> Result<Vec<(u64, Rights, u64)>, WireFault>
    ensures { AnswersBy (λ v. v.items) result (or_else BadField (fields.edges_in (data_of object.now))) }
{
    if field::has(object, Key::Edges) {
        let list = field::list(object, Key::Edges).ok_or(WireFault::BadField)?;
        edges_of(alloc, list)
    } else {
        Ok(Vec::new(alloc))
    }
}

fn edges_of(alloc: Global, list: &Vec<Value>) -> Result<Vec<(u64, Rights, u64)>, WireFault>
    ensures { AnswersBy (λ v. v.items) result (or_else BadField (fields.read_edges (items_view list.now.items))) }
{
    let mut found = Vec::new(alloc);
    for value in list {
        found.push(edge(value).ok_or(WireFault::BadField)?)?;
    }
    Ok(found)
}

/// An edge as `[number, rights, number]`.
fn edge(value: &Value) -> Option<(u64, Rights, u64)>
    ensures { result ≡ fields.edge_value (view value.now) }
{
    let (from, rights, to) = three(value)?;
    let from = from.as_u64()?;
    let rights = field::rights_value(rights)?;
    let to = to.as_u64()?;
    Some((from, rights, to))
}

/// The items of a list of three.
fn three(value: &Value) -> Option<(&Value, &Value, &Value)>
    ensures { option_map (λ t. (view t.0.now, view t.1.now, view t.2.now)) result ≡ fields.three_in (view value.now) }
{
    let items = value.as_array()?.as_slice();
    if items.len() == 3 {
        Some((&items[0], &items[1], &items[2]))
    } else {
        None
    }
}
