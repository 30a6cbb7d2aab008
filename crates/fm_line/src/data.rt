//! Payloads: from a list of names and values to a JSON value.

ghost use Rattle.std.specs.Prelude.{◌≡◌, IfOk, map};
ghost use Rattle.serde_json.specs.Data.{array};
ghost use Rattle.serde_json.specs.View.{view, items_of};
ghost use Rattle.fm_nv.specs.View.{datum};
ghost use Rattle.fm_line.specs.Printed.{data_of, payload_data, numbers_items, texts_items};

use fm_bytes::NoMemory;
use fm_nv::{Nv, NvText, Value};
use serde_json::{Map, Value as Json};
use std::alloc::Global;

/// An array of numbers from 0.
fn numbers_json(alloc: Global, numbers: &[u64]) -> Result<Json, NoMemory>
    ensures { IfOk result (λ v. view v ≡ array (numbers_items numbers.now)) }
{
    let mut items = Vec::new(alloc);
    for number in numbers {
        items.push(Json::from(*number))?;
    }
    Ok(Json::Array(items))
}

/// An array of texts.
fn texts_json(alloc: Global, texts: &[NvText]) -> Result<Json, NoMemory>
    ensures { IfOk result (λ v. view v ≡ array (texts_items texts.now)) }
{
    let mut items = Vec::new(alloc);
    for text in texts {
        items.push(Json::String(String::from_str(alloc, text.get())?))?;
    }
    Ok(Json::Array(items))
}

/// An array of lists.
#[cycle(print)]
#[tactic(auto, using(crate::proofs::Listed::depth_of_item))]
fn lists_json(alloc: Global, lists: &[Nv]) -> Result<Json, NoMemory>
    ensures { IfOk result (λ v. view v ≡ array (items_of (map payload_data lists.now))) }
{
    let mut items = Vec::new(alloc);
    for list in lists {
        items.push(list_json(alloc, list)?)?;
    }
    Ok(Json::Array(items))
}

/// The value as JSON.
#[cycle(print)]
#[tactic(auto, using(crate::proofs::Listed::lists_items_lists_of))]
fn value_json(alloc: Global, value: &Value) -> Result<Json, NoMemory>
    ensures { IfOk result (λ v. view v ≡ data_of (datum value.now)) }
{
    match value {
        Value::Bool(truth) => Ok(Json::Bool(*truth)),
        Value::Unsigned(number) => Ok(Json::from(*number)),
        Value::Signed(number) => Ok(Json::from(*number)),
        Value::Text(text) => Ok(Json::String(String::from_str(alloc, text.get())?)),
        Value::List(list) => list_json(alloc, list),
        Value::Unsigneds(numbers) => numbers_json(alloc, numbers.as_slice()),
        Value::Texts(texts) => texts_json(alloc, texts.as_slice()),
        Value::Lists(lists) => lists_json(alloc, lists.as_slice()),
    }
}

/// The list as an object, whose names are in byte order.
#[cycle(print)]
#[tactic(auto, using(crate::proofs::Listed::members, fm_nv::proofs::Places::from_step))]
pub(crate) fn list_json(alloc: Global, list: &Nv) -> Result<Json, NoMemory>
    ensures { IfOk result (λ v. view v ≡ payload_data list.now) }
{
    let mut members = Map::new(alloc);
    for at in 0..list.len() {
        let member = value_json(alloc, list.value(at))?;
        members.insert(String::from_str(alloc, list.name(at))?, member)?;
    }
    Ok(Json::Object(members))
}
