//! Payloads: from a JSON value to a list of names and values.

ghost use Rattle.std.specs.Prelude.{◌≡◌, IfOk, OnOk, option_map};
ghost use Rattle.serde_json.specs.View.{view, items_view, members_view, number_view};
ghost use Rattle.fm_nv.specs.Data.{no_pairs};
ghost use Rattle.fm_nv.specs.Refusal.{pushed};
ghost use Rattle.fm_nv.specs.View.{datum};
ghost use Rattle.fm_line.specs.Payload.{unsigneds_of, texts_of, number_value, array_value, added};
ghost use Rattle.fm_line.specs.Payload.{value_of, lists_from, list_of, pairs_onto};

use fm_bytes::NoMemory;
use fm_nv::{Nv, NvFault, NvLists, NvNumbers, NvText, NvTexts, Value};
use serde_json::{Map, Number, Value as Json};
use std::alloc::Global;

/// Adds the pair, where the list takes it.
fn add_pair(mut list: Nv, name: &str, value: Value) -> Result<Option<Nv>, NoMemory>
    ensures { IfOk result (λ found. found ≡ pushed name.now (datum value) list) }
{
    match list.push(name, value) {
        Ok(()) => Ok(Some(list)),
        Err(NvFault::NoMemory) => Err(NoMemory),
        Err(_) => Ok(None),
    }
}

/// The items, where all of them are integers from 0.
fn unsigneds_from(alloc: Global, items: &Vec<Json>) -> Result<Option<NvNumbers>, NoMemory>
    ensures { IfOk result (λ found. found ≡ unsigneds_of (items_view items.now.items)) }
{
    let mut found = Vec::new(alloc);
    for item in items {
        let Some(number) = item.as_u64() else {
            return Ok(None);
        };
        found.push(number)?;
    }
    Ok(Some(NvNumbers::new(found)))
}

/// The items, where all of them are texts.
fn texts_from(alloc: Global, items: &Vec<Json>) -> Result<Option<NvTexts>, NoMemory>
    ensures { IfOk result (λ found. found ≡ texts_of (items_view items.now.items)) }
{
    let mut found = Vec::new(alloc);
    for item in items {
        let Some(text) = item.as_str() else {
            return Ok(None);
        };
        found.push(NvText::new(alloc, text)?)?;
    }
    Ok(Some(NvTexts::new(found)))
}

/// The value of a number: a float is refused.
fn number_from(number: &Number) -> Option<Value>
    ensures { option_map datum result ≡ number_value (number_view number.now) }
{
    if let Some(unsigned) = number.as_u64() {
        return Some(Value::Unsigned(unsigned));
    }
    number.as_i64().map(Value::Signed)
}

/// The items, where all of them are objects of allowed values.
#[cycle(convert)]
fn lists_from(alloc: Global, items: &Vec<Json>) -> Result<Option<NvLists>, NoMemory>
    ensures { IfOk result (λ found. found ≡ lists_from (items_view items.now.items)) }
{
    let mut found = Vec::new(alloc);
    for item in items {
        let Some(list) = list_from(alloc, item)? else {
            return Ok(None);
        };
        found.push(list)?;
    }
    Ok(Some(NvLists::from_vec(found)))
}

/// The value of an array.
#[cycle(convert)]
fn array_from(alloc: Global, items: &Vec<Json>) -> Result<Option<Value>, NoMemory>
    ensures { IfOk result
        (λ found. option_map datum found ≡ array_value (unsigneds_of (items_view items.now.items))
        (texts_of (items_view items.now.items)) (lists_from (items_view items.now.items))) }
{
    if let Some(numbers) = unsigneds_from(alloc, items)? {
        return Ok(Some(Value::Unsigneds(numbers)));
    }
    if let Some(texts) = texts_from(alloc, items)? {
        return Ok(Some(Value::Texts(texts)));
    }
    let Some(lists) = lists_from(alloc, items)? else {
        return Ok(None);
    };
    Ok(Some(Value::Lists(lists)))
}

/// The list that the members of an object are.
#[cycle(convert)]
fn pairs_from(alloc: Global, members: &Map<String, Json>) -> Result<Option<Nv>, NoMemory>
    ensures { IfOk result
        (λ found. found ≡ pairs_onto no_pairs (members_view members.now.entries)) }
{
    let mut list = Nv::new(alloc);
    for (name, member) in members.iter() {
        let Some(value) = value_from(alloc, member)? else {
            return Ok(None);
        };
        let Some(longer) = add_pair(list, name.as_str(), value)? else {
            return Ok(None);
        };
        list = longer;
    }
    Ok(Some(list))
}

/// The value that a JSON value is, where it is allowed.
#[cycle(convert)]
fn value_from(alloc: Global, json: &Json) -> Result<Option<Value>, NoMemory>
    ensures { IfOk result (λ found. option_map datum found ≡ value_of (view json.now)) }
{
    match json {
        Json::Null => Ok(None),
        Json::Bool(truth) => Ok(Some(Value::Bool(*truth))),
        Json::Number(number) => Ok(number_from(number)),
        Json::String(text) => Ok(Some(Value::Text(NvText::new(alloc, text.as_str())?))),
        Json::Array(items) => array_from(alloc, items),
        Json::Object(members) => {
            let Some(list) = pairs_from(alloc, members)? else {
                return Ok(None);
            };
            Ok(Some(Value::List(list)))
        }
    }
}

/// The list that a JSON value is, where it is an object of allowed values.
#[cycle(convert)]
pub(crate) fn list_from(alloc: Global, json: &Json) -> Result<Option<Nv>, NoMemory>
    ensures { IfOk result (λ found. found ≡ list_of (view json.now)) }
{
    match json {
        Json::Object(members) => pairs_from(alloc, members),
        _ => Ok(None),
    }
}
