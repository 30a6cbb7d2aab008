//! The properties of a line: names, numbers and texts in quotes.

ghost use Rattle.std.specs.Prelude.{◌≡◌, ◌==◌, ◌&&◌, ◌||◌, ◌<◌, ◌^◌, ◌≤◌, IsTrue, IfOk, IfSome};
ghost use Rattle.std.specs.Prelude.{Some, nat_lt, length, slice_index, if◌then◌else◌};
ghost use Rattle.std.specs.Char.{is_ascii_digit};
ghost use Rattle.std.specs.List.{list_all};
ghost use Rattle.std.specs.Str.Parse.{digits_value};
ghost use Rattle.fm_topo.specs.Line.{is_clean_byte};
ghost use Rattle.fm_topo.specs.Property.{is_number, is_quoted, is_text_byte, inner_of, value_read};
ghost use Rattle.fm_topo.specs.Property.{pair_read, property_read};

use crate::bytes::{cut_at, text_of};
use crate::values::{TopoText, TopoValue};
use fm_bytes::{NoMemory, read_numeral};
use fm_name::is_name;
use std::alloc::Global;

/// Whether all bytes may stand between quotes.
fn are_inner(bytes: &[u8]) -> bool
    ensures { result ≡ list_all is_text_byte bytes.now }
{
    bytes
        .iter()
        .all(|b| (*b >= 32 && *b <= 126) && !(*b == 34 || *b == 92))
}

/// Whether the bytes are a text in quotes.
#[tactic(auto, unfolding(crate::specs::Property::is_quoted))]
fn spells_text(bytes: &[u8]) -> bool
    ensures same { result ≡ is_quoted bytes.now }
    ensures long { IsTrue result → 2 ≤ length bytes.now }
{
    if bytes.len() < 2 || bytes[0] != b'"' || bytes[bytes.len() - 1] != b'"' {
        return false;
    }
    are_inner(&bytes[1..bytes.len() - 1])
}

/// What stands between the quotes.
fn inner(bytes: &[u8]) -> &str
    requires clean { IsTrue (list_all is_clean_byte bytes.now) }
    requires long { 2 ≤ length bytes.now }
    ensures { result.now ≡ inner_of bytes.now }
{
    text_of(&bytes[1..bytes.len() - 1])
}

/// The value that the bytes behind `=` mean, where they are a value.
#[tactic(auto, using(crate::proofs::Meanings::values_read))]
fn read_value(alloc: Global, bytes: &[u8]) -> Result<Option<TopoValue>, NoMemory>
    requires { IsTrue (list_all is_clean_byte bytes.now) }
    ensures { IfOk result (λ found. found ≡ value_read bytes.now) }
{
    if let Some(number) = read_numeral(bytes, u64::MAX) {
        return Ok(Some(TopoValue::Number(number)));
    }
    if !spells_text(bytes) {
        return Ok(None);
    }
    let text = TopoText::new(alloc, inner(bytes))?;
    Ok(Some(TopoValue::Text(text)))
}

/// The name and the value of a property, where they are such.
#[tactic(auto, using(crate::proofs::Meanings::pairs_read))]
fn read_pair(
    alloc: Global,
    name: &[u8],
    value: &[u8],
) -> Result<Option<(TopoText, TopoValue)>, NoMemory>
    requires name { IsTrue (list_all is_clean_byte name.now) }
    requires value { IsTrue (list_all is_clean_byte value.now) }
    ensures { IfOk result (λ found. found ≡ pair_read name.now value.now) }
{
    let name = text_of(name);
    if !is_name(name) {
        return Ok(None);
    }
    match read_value(alloc, value)? {
        Some(value) => Ok(Some((TopoText::new(alloc, name)?, value))),
        None => Ok(None),
    }
}

/// The name and the value of a word, where it is a property.
#[tactic(auto, using(crate::proofs::Meanings::properties_read))]
pub fn read_property(alloc: Global, word: &[u8]) -> Result<Option<(TopoText, TopoValue)>, NoMemory>
    requires { IsTrue (list_all is_clean_byte word.now) }
    ensures { IfOk result (λ found. found ≡ property_read word.now) }
{
    match cut_at(word, b'=') {
        Some((name, value)) => read_pair(alloc, name, value),
        None => Ok(None),
    }
}
