//! The spelling of a list, written.

ghost use Rattle.std.specs.Prelude.{◌≡◌, ◌++◌, ◌∷◌, [], ◌&&◌, ◌≤◌, OnOk, OnErr, IsTrue, length};
ghost use Rattle.std.specs.Prelude.{flat_map, nat_le, if◌then◌else◌};
ghost use Rattle.std.specs.List.{list_all};
ghost use Rattle.std.specs.Int.{w64, cast_unsigned};
ghost use Rattle.fm_nv.specs.Data.{lists_count, lists_of};
ghost use Rattle.fm_bytes.specs.Numbers.{u16_bytes, u64_bytes, long_text};
ghost use Rattle.fm_nv.specs.Spelled.{IsSpelledList, is_pair_name, is_text, value_fits, name_bytes};
ghost use Rattle.fm_nv.specs.Spelled.{value_bytes, body_bytes, lists_bytes, pairs_bytes};
ghost use Rattle.fm_nv.specs.View.{datum};

use crate::numbers::{NvNumbers, NvTexts};
use crate::nv::{Nv, NvLists, Value};
use fm_bytes::{NoMemory, put_long_text, put_u8, put_u16, put_u64};

/// How many bytes are taken at first for those of a list. Most take no more.
const USUAL_SIZE: usize = 64;

/// Writes the spelling of a list behind what `out` holds. Each list has one.
pub fn write_nv(nv: &Nv, out: &mut Vec<u8>) -> Result<(), NoMemory>
    ensures ok { OnOk result (out.new.items ≡ out.old.items ++ pairs_bytes nv.now) }
    ensures kept { OnErr result (out.new.items ≡ out.old.items) }
    ensures spelled { IsSpelledList nv.now }
{
    let _deep = nv.depth();
    let mut spelling = Vec::with_capacity(*out.allocator(), USUAL_SIZE)?;
    put_list(nv, &mut spelling)?;
    out.extend_from_slice(&spelling)?;
    Ok(())
}

/// Writes a list: the number of its pairs, and the pairs.
#[cycle(writing)]
fn put_list(nv: &Nv, out: &mut Vec<u8>) -> Result<(), NoMemory>
    ensures ok { OnOk result (out.new.items ≡ out.old.items ++ pairs_bytes nv.now) }
{
    put_u16(nv.len() as u16, out)?;
    put_pairs(nv, out)
}

/// Writes the pairs of a list.
#[cycle(writing)]
fn put_pairs(nv: &Nv, out: &mut Vec<u8>) -> Result<(), NoMemory>
    ensures ok { OnOk result (out.new.items ≡ out.old.items ++ body_bytes nv.now) }
{
    let _deep = nv.depth();
    let count = nv.len();
    'pairs: for at in 0..count {
        put_pair(nv.name_bytes(at), nv.value(at), out)?;
    }
    Ok(())
}

/// Writes a name behind its length, and the value.
#[cycle(writing)]
fn put_pair(name: &[u8], value: &Value, out: &mut Vec<u8>) -> Result<(), NoMemory>
    requires name { IsTrue (is_pair_name name.now) }
    requires value { IsTrue (value_fits (datum value.now)) }
    ensures ok { OnOk result
        (out.new.items ≡ out.old.items ++ (name_bytes name.now ++ value_bytes (datum value.now))) }
{
    put_name(name, out)?;
    put_value(value, out)
}

/// Writes a name behind its length in one byte.
fn put_name(name: &[u8], out: &mut Vec<u8>) -> Result<(), NoMemory>
    requires { IsTrue (is_pair_name name.now) }
    ensures ok { OnOk result (out.new.items ≡ out.old.items ++ name_bytes name.now) }
{
    put_u8(name.len() as u8, out)?;
    out.extend_from_slice(name)?;
    Ok(())
}

/// Writes a value: its tag, and its content.
#[cycle(writing)]
fn put_value(value: &Value, out: &mut Vec<u8>) -> Result<(), NoMemory>
    requires { IsTrue (value_fits (datum value.now)) }
    ensures ok { OnOk result (out.new.items ≡ out.old.items ++ value_bytes (datum value.now)) }
{
    match value {
        Value::Bool(flag) => put_flag(*flag, out),
        Value::Unsigned(number) => put_unsigned(*number, out),
        Value::Signed(number) => put_signed(*number, out),
        Value::Text(text) => put_text(text.get(), out),
        Value::List(list) => put_nested(list, out),
        Value::Unsigneds(numbers) => put_unsigneds(numbers, out),
        Value::Texts(texts) => put_texts(texts, out),
        Value::Lists(lists) => put_lists(lists, out),
    }
}

/// Writes a truth value with its tag.
fn put_flag(flag: bool, out: &mut Vec<u8>) -> Result<(), NoMemory>
    ensures ok { OnOk result (out.new.items ≡ out.old.items ++ 1 ∷ (if flag then 1 else 0) ∷ []) }
{
    put_u8(1, out)?;
    put_u8(u8::from(flag), out)
}

/// Writes a number from 0 with its tag.
fn put_unsigned(number: u64, out: &mut Vec<u8>) -> Result<(), NoMemory>
    ensures ok { OnOk result (out.new.items ≡ out.old.items ++ 2 ∷ u64_bytes number) }
{
    put_u8(2, out)?;
    put_u64(number, out)
}

/// Writes a number with a sign, with its tag.
fn put_signed(number: i64, out: &mut Vec<u8>) -> Result<(), NoMemory>
    ensures ok { OnOk result
        (out.new.items ≡ out.old.items ++ 3 ∷ u64_bytes (cast_unsigned w64 number)) }
{
    put_u8(3, out)?;
    put_u64(number.cast_unsigned(), out)
}

/// Writes a text with its tag.
fn put_text(text: &str, out: &mut Vec<u8>) -> Result<(), NoMemory>
    requires { IsTrue (is_text text.now) }
    ensures ok { OnOk result (out.new.items ≡ out.old.items ++ 4 ∷ long_text text.now) }
{
    put_u8(4, out)?;
    put_long_text(text, out)
}

/// Writes a list in a list with its tag.
#[cycle(writing)]
fn put_nested(list: &Nv, out: &mut Vec<u8>) -> Result<(), NoMemory>
    ensures ok { OnOk result (out.new.items ≡ out.old.items ++ 5 ∷ pairs_bytes list.now) }
{
    put_u8(5, out)?;
    put_list(list, out)
}

/// Writes an array of numbers with its tag.
fn put_unsigneds(numbers: &NvNumbers, out: &mut Vec<u8>) -> Result<(), NoMemory>
    requires { length numbers.now ≤ 65535 }
    ensures ok { OnOk result
        (out.new.items ≡ out.old.items
        ++ 6 ∷ (u16_bytes (length numbers.now) ++ flat_map u64_bytes numbers.now)) }
{
    let items = numbers.as_slice();
    put_u8(6, out)?;
    put_u16(items.len() as u16, out)?;
    'items: for number in items {
        put_u64(*number, out)?;
    }
    Ok(())
}

/// Writes an array of texts with its tag.
fn put_texts(texts: &NvTexts, out: &mut Vec<u8>) -> Result<(), NoMemory>
    requires count { length texts.now ≤ 65535 }
    requires texts { IsTrue (list_all is_text texts.now) }
    ensures ok { OnOk result
        (out.new.items ≡ out.old.items
        ++ 7 ∷ (u16_bytes (length texts.now) ++ flat_map long_text texts.now)) }
{
    let items = texts.as_slice();
    put_u8(7, out)?;
    put_u16(items.len() as u16, out)?;
    'items: for text in items {
        put_long_text(text.get(), out)?;
    }
    Ok(())
}

/// Writes an array of lists with its tag.
#[cycle(writing)]
fn put_lists(lists: &NvLists, out: &mut Vec<u8>) -> Result<(), NoMemory>
    requires { lists_count (lists_of lists.now) ≤ 65535 }
    ensures ok { OnOk result
        (out.new.items ≡ out.old.items
        ++ 8 ∷ (u16_bytes (lists_count (lists_of lists.now)) ++ lists_bytes (lists_of lists.now))) }
{
    put_u8(8, out)?;
    put_u16(lists.len() as u16, out)?;
    put_each(lists, out)
}

/// Writes the lists of an array.
#[cycle(writing)]
fn put_each(lists: &NvLists, out: &mut Vec<u8>) -> Result<(), NoMemory>
    ensures ok { OnOk result (out.new.items ≡ out.old.items ++ lists_bytes (lists_of lists.now)) }
{
    'items: for list in &lists.items {
        put_list(list, out)?;
    }
    Ok(())
}
