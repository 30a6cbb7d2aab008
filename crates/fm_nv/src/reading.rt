//! Lists and their values, read from the front of some bytes.

ghost use Rattle.std.specs.Prelude.{◌≡◌, ◌<◌, ◌≤◌, false, Some, None, IfOk, IfErr, IsTrue, OnOk};
ghost use Rattle.std.specs.Int.{w64, cast_signed};
ghost use Rattle.fm_nv.specs.Data.{add, count, depth, boolean, unsigned, signed, text, nested};
ghost use Rattle.fm_nv.specs.Data.{unsigneds, texts, lists, lists_of};
ghost use Rattle.fm_nv.specs.Reading.{name_from, tagged_from, value_from, pair_from, list_from};
ghost use Rattle.fm_nv.specs.Reading.{to_pairs};
ghost use Rattle.fm_bytes.specs.Reading.{IsMisspelled, made, number_from, flag_from};
ghost use Rattle.fm_bytes.specs.Reading.{long_text_from, items_from, counted_from};
ghost use Rattle.fm_nv.specs.Spelled.{distinct, is_pair_name, pairs_fit};
ghost use Rattle.fm_nv.specs.View.{datum};

use crate::distinct::are_distinct;
use crate::numbers::{NvNumbers, NvTexts};
use crate::nv::{Content, Nv, NvLists, Value};
use crate::text::NvText;
use fm_bytes::{Input, ReadFault};
use std::alloc::Global;

/// A list of names and values, read from the front of what is left.
pub fn take_nv(input: &mut Input, alloc: Global) -> Result<Nv, ReadFault>
    ensures ok { IfOk result (λ ps. list_from 8 input.old ≡ Some (ps, input.new)) }
    ensures err { IfErr result (λ f. IsMisspelled f → list_from 8 input.old ≡ None) }
{
    read_list(input, alloc, 8)
}

/// A list that is at most so deep.
#[cycle(reading)]
fn read_list(input: &mut Input, alloc: Global, deep: u64) -> Result<Nv, ReadFault>
    requires { deep ≤ 8 }
    ensures ok { IfOk result (λ ps. list_from deep input.old ≡ Some (ps, input.new)) }
    ensures err { IfErr result (λ f. IsMisspelled f → list_from deep input.old ≡ None) }
{
    if deep == 0 {
        return Err(ReadFault::NoSpelling);
    }
    let _left = input.left();
    let content = read_pairs(input, alloc, deep - 1)?;
    checked(alloc, content)
}

/// The pairs of a list, behind their number. Lists in them are at most so deep.
#[cycle(reading)]
#[tactic(auto, unfolding(fm_bytes::specs::Reading::counted_from))]
fn read_pairs(input: &mut Input, alloc: Global, deep: u64) -> Result<Content, ReadFault>
    requires { deep < 8 }
    ensures ok { IfOk result
        (λ ps. counted_from 2 (pair_from (list_from deep)) input.old
        ≡ Some (to_pairs ps, input.new)) }
    ensures err { IfErr result
        (λ f. IsMisspelled f → counted_from 2 (pair_from (list_from deep)) input.old ≡ None) }
{
    let count = input.take_u16()?;
    read_each_pair(input, alloc, deep, count)
}

/// So many pairs.
#[cycle(reading)]
fn read_each_pair(
    input: &mut Input,
    alloc: Global,
    deep: u64,
    count: u16,
) -> Result<Content, ReadFault>
    requires { deep < 8 }
    ensures ok { IfOk result
        (λ ps. items_from (pair_from (list_from deep)) count input.old
        ≡ Some (to_pairs ps, input.new)) }
    ensures err { IfErr result
        (λ f. IsMisspelled f → items_from (pair_from (list_from deep)) count input.old ≡ None) }
{
    let mut content = Content::new(alloc);
    'pairs: for at in 0..count {
        let _at = at;
        read_pair(input, alloc, deep, &mut content)?;
    }
    Ok(content)
}

/// A name and its value, which are added to those that were read before.
#[cycle(reading)]
#[tactic(auto, unfolding(crate::specs::Reading::pair_from))]
fn read_pair(
    input: &mut Input,
    alloc: Global,
    deep: u64,
    content: &mut Content,
) -> Result<(), ReadFault>
    requires deep { deep < 8 }
    requires room { count content.old < 65535 }
    ensures ok { OnOk result
        (made (λ p. add p.0 p.1 content.old) (pair_from (list_from deep) input.old)
        ≡ Some (content.new, input.new)) }
    ensures err { IfErr result (λ f. IsMisspelled f → pair_from (list_from deep) input.old ≡ None) }
{
    let name = read_name(input)?;
    let value = read_value(input, alloc, deep)?;
    content.push(name, value)?;
    Ok(())
}

/// A name behind its length in one byte.
#[tactic(auto, unfolding(crate::specs::Reading::name_from))]
fn read_name<'a>(input: &mut Input<'a>) -> Result<&'a str, ReadFault>
    ensures ok { IfOk result (λ t. name_from input.old ≡ Some (t.now, input.new)) }
    ensures err { IfErr result (λ f. IsMisspelled f → name_from input.old ≡ None) }
    ensures fits { IfOk result (λ t. IsTrue (is_pair_name t.now)) }
{
    let length = input.take_u8()?;
    if length == 0 {
        return Err(ReadFault::NoSpelling);
    }
    input.take_text(usize::from(length))
}

/// A value: its tag, and its content.
#[cycle(reading)]
#[tactic(auto, unfolding(crate::specs::Reading::value_from))]
fn read_value(input: &mut Input, alloc: Global, deep: u64) -> Result<Value, ReadFault>
    requires { deep < 8 }
    ensures ok { IfOk result
        (λ v. value_from (list_from deep) input.old ≡ Some (datum v, input.new)) }
    ensures err { IfErr result
        (λ f. IsMisspelled f → value_from (list_from deep) input.old ≡ None) }
{
    let tag = input.take_u8()?;
    read_tagged(input, alloc, deep, tag)
}

/// The content of a value with this tag.
#[cycle(reading)]
#[tactic(auto, unfolding(crate::specs::Reading::tagged_from))]
fn read_tagged(input: &mut Input, alloc: Global, deep: u64, tag: u8) -> Result<Value, ReadFault>
    requires { deep < 8 }
    ensures ok { IfOk result
        (λ v. tagged_from (list_from deep) tag input.old ≡ Some (datum v, input.new)) }
    ensures err { IfErr result
        (λ f. IsMisspelled f → tagged_from (list_from deep) tag input.old ≡ None) }
{
    match tag {
        1 => read_flag(input),
        2 => read_unsigned(input),
        3 => read_signed(input),
        4 => read_text_value(input, alloc),
        5 => read_nested(input, alloc, deep),
        6 => read_unsigneds(input, alloc),
        7 => read_texts(input, alloc),
        8 => read_lists(input, alloc, deep),
        _ => Err(ReadFault::NoSpelling),
    }
}

/// A truth value.
#[tactic(auto, unfolding(fm_bytes::specs::Reading::flag_from))]
fn read_flag(input: &mut Input) -> Result<Value, ReadFault>
    ensures ok { IfOk result (λ v. made boolean (flag_from input.old) ≡ Some (datum v, input.new)) }
    ensures err { IfErr result (λ f. IsMisspelled f → made boolean (flag_from input.old) ≡ None) }
{
    match input.take_u8()? {
        0 => Ok(Value::Bool(false)),
        1 => Ok(Value::Bool(true)),
        _ => Err(ReadFault::NoSpelling),
    }
}

/// A number from 0.
fn read_unsigned(input: &mut Input) -> Result<Value, ReadFault>
    ensures ok { IfOk result
        (λ v. made unsigned (number_from 8 input.old) ≡ Some (datum v, input.new)) }
    ensures err { IfErr result
        (λ f. IsMisspelled f → made unsigned (number_from 8 input.old) ≡ None) }
{
    let number = input.take_u64()?;
    Ok(Value::Unsigned(number))
}

/// A number with a sign.
fn read_signed(input: &mut Input) -> Result<Value, ReadFault>
    ensures ok { IfOk result
        (λ v. made (λ n. signed (cast_signed w64 n)) (number_from 8 input.old)
        ≡ Some (datum v, input.new)) }
    ensures err { IfErr result
        (λ f. IsMisspelled f → made (λ n. signed (cast_signed w64 n)) (number_from 8 input.old)
        ≡ None) }
{
    let number = input.take_u64()?;
    Ok(Value::Signed(number.cast_signed()))
}

/// A text.
fn read_text_value(input: &mut Input, alloc: Global) -> Result<Value, ReadFault>
    ensures ok { IfOk result
        (λ v. made text (long_text_from 65536 input.old) ≡ Some (datum v, input.new)) }
    ensures err { IfErr result
        (λ f. IsMisspelled f → made text (long_text_from 65536 input.old) ≡ None) }
{
    let text = input.take_long_text(65536)?;
    Ok(Value::Text(NvText::new(alloc, text)?))
}

/// A list in a list.
#[cycle(reading)]
fn read_nested(input: &mut Input, alloc: Global, deep: u64) -> Result<Value, ReadFault>
    requires { deep < 8 }
    ensures ok { IfOk result
        (λ v. made nested (list_from deep input.old) ≡ Some (datum v, input.new)) }
    ensures err { IfErr result
        (λ f. IsMisspelled f → made nested (list_from deep input.old) ≡ None) }
{
    let list = read_list(input, alloc, deep)?;
    Ok(Value::List(list))
}

/// An array of numbers.
#[tactic(auto, unfolding(fm_bytes::specs::Reading::counted_from))]
fn read_unsigneds(input: &mut Input, alloc: Global) -> Result<Value, ReadFault>
    ensures ok { IfOk result
        (λ v. made unsigneds (counted_from 2 (number_from 8) input.old)
        ≡ Some (datum v, input.new)) }
    ensures err { IfErr result
        (λ f. IsMisspelled f → made unsigneds (counted_from 2 (number_from 8) input.old) ≡ None) }
{
    let count = input.take_u16()?;
    let items = read_each_number(input, alloc, count)?;
    Ok(Value::Unsigneds(NvNumbers::new(items)))
}

/// So many numbers.
fn read_each_number(input: &mut Input, alloc: Global, count: u16) -> Result<Vec<u64>, ReadFault>
    ensures ok { IfOk result
        (λ v. items_from (number_from 8) count input.old ≡ Some (v.items, input.new)) }
    ensures err { IfErr result
        (λ f. IsMisspelled f → items_from (number_from 8) count input.old ≡ None) }
{
    let mut items = Vec::new(alloc);
    'items: for at in 0..count {
        let _at = at;
        items.push(input.take_u64()?)?;
    }
    Ok(items)
}

/// An array of texts.
#[tactic(auto, unfolding(fm_bytes::specs::Reading::counted_from))]
fn read_texts(input: &mut Input, alloc: Global) -> Result<Value, ReadFault>
    ensures ok { IfOk result
        (λ v. made texts (counted_from 2 (long_text_from 65536) input.old)
        ≡ Some (datum v, input.new)) }
    ensures err { IfErr result
        (λ f. IsMisspelled f → made texts (counted_from 2 (long_text_from 65536) input.old)
        ≡ None) }
{
    let count = input.take_u16()?;
    let items = read_each_text(input, alloc, count)?;
    Ok(Value::Texts(NvTexts::new(items)))
}

/// So many texts.
fn read_each_text(input: &mut Input, alloc: Global, count: u16) -> Result<Vec<NvText>, ReadFault>
    ensures ok { IfOk result
        (λ v. items_from (long_text_from 65536) count input.old ≡ Some (v.items, input.new)) }
    ensures err { IfErr result
        (λ f. IsMisspelled f → items_from (long_text_from 65536) count input.old ≡ None) }
{
    let mut items = Vec::new(alloc);
    'items: for at in 0..count {
        let _at = at;
        let text = input.take_long_text(65536)?;
        items.push(NvText::new(alloc, text)?)?;
    }
    Ok(items)
}

/// An array of lists.
#[cycle(reading)]
#[tactic(auto, unfolding(fm_bytes::specs::Reading::counted_from))]
fn read_lists(input: &mut Input, alloc: Global, deep: u64) -> Result<Value, ReadFault>
    requires { deep < 8 }
    ensures ok { IfOk result
        (λ v. made (λ ls. lists (lists_of ls)) (counted_from 2 (list_from deep) input.old)
        ≡ Some (datum v, input.new)) }
    ensures err { IfErr result
        (λ f. IsMisspelled f → made (λ ls. lists (lists_of ls))
        (counted_from 2 (list_from deep) input.old) ≡ None) }
{
    let count = input.take_u16()?;
    let items = read_each_list(input, alloc, deep, count)?;
    Ok(Value::Lists(NvLists::from_vec(items)))
}

/// So many lists.
#[cycle(reading)]
fn read_each_list(
    input: &mut Input,
    alloc: Global,
    deep: u64,
    count: u16,
) -> Result<Vec<Nv>, ReadFault>
    requires { deep < 8 }
    ensures ok { IfOk result
        (λ v. items_from (list_from deep) count input.old ≡ Some (v.items, input.new)) }
    ensures err { IfErr result
        (λ f. IsMisspelled f → items_from (list_from deep) count input.old ≡ None) }
{
    let mut items = Vec::new(alloc);
    'items: for at in 0..count {
        let _at = at;
        items.push(read_list(input, alloc, deep)?)?;
    }
    Ok(items)
}

/// The list of these pairs, where their names are distinct.
fn checked(alloc: Global, content: Content) -> Result<Nv, ReadFault>
    requires fit { IsTrue (pairs_fit content) }
    requires shallow { depth content ≤ 8 }
    ensures ok { IfOk result (λ ps. (ps ≡ content) × IsTrue (distinct ps)) }
    ensures err { IfErr result (λ f. IsMisspelled f → distinct content ≡ false) }
{
    if content.len() == 0 {
        return Ok(Nv::new(alloc));
    }
    if !are_distinct(alloc, &content)? {
        return Err(ReadFault::NoSpelling);
    }
    let content = Box::new(alloc, content)?;
    Ok(Nv {
        alloc,
        content: Some(content),
    })
}
