// Name-value lists: how a script writes their values, and what it asks of a list.
use fm_bytes::{Copies, Input, put_u8, put_u16};
use fm_nv::{
    Nv, NvFault, NvLists, NvNumbers, NvText, NvTexts, Value, lists_are_read_back, read_nv, take_nv,
    write_nv,
};
use std::alloc::Global;
use test_words::{
    ScriptFault, first_word, number_in, show_count, show_difference, show_item, text_in, text_of,
};

/// A list whose only pair is another list, with the name `in`.
fn around(alloc: Global, list: Nv) -> Result<Nv, ScriptFault> {
    let mut outer = Nv::new(alloc);
    push(&mut outer, "in", Value::List(list))?;
    Ok(outer)
}

/// A list that is so deep.
fn nested(alloc: Global, depth: u64) -> Result<Nv, ScriptFault> {
    let mut list = Nv::new(alloc);
    for _ in 1..depth {
        list = around(alloc, list)?;
    }
    Ok(list)
}

/// An array of an empty list and one that is so deep.
fn lists_in(alloc: Global, depth: u64) -> Result<NvLists, ScriptFault> {
    let mut lists = Vec::new(alloc);
    lists.push(Nv::new(alloc))?;
    lists.push(nested(alloc, depth)?)?;
    Ok(NvLists::from_vec(lists))
}

/// An array of the numbers of the words.
fn numbers_in(alloc: Global, words: &str) -> Result<NvNumbers, ScriptFault> {
    let mut numbers = Vec::new(alloc);
    for word in words.split_whitespace() {
        numbers.push(number_in(word)?)?;
    }
    Ok(NvNumbers::new(numbers))
}

/// An array of so many zeros.
fn zeros(alloc: Global, count: u64) -> Result<NvNumbers, ScriptFault> {
    let mut numbers = Vec::new(alloc);
    for _ in 0..count {
        numbers.push(0)?;
    }
    Ok(NvNumbers::new(numbers))
}

/// A text as a script writes it.
fn value_text(alloc: Global, text: &str) -> Result<NvText, ScriptFault> {
    let bytes = text_in(alloc, text)?;
    Ok(NvText::new(alloc, text_of(&bytes)?)?)
}

/// An array of the texts between strokes.
fn texts_in(alloc: Global, text: &str) -> Result<NvTexts, ScriptFault> {
    let mut texts = Vec::new(alloc);
    for item in text.split('/') {
        texts.push(value_text(alloc, item)?)?;
    }
    Ok(NvTexts::new(texts))
}

/// The number with a sign that a word says.
fn signed_in(word: &str) -> Result<i64, ScriptFault> {
    match word.parse::<i64>() {
        Ok(number) => Ok(number),
        Err(_) => Err(ScriptFault::Words),
    }
}

/// An array of a kind.
fn array_in(alloc: Global, kind: &str, rest: &str) -> Result<Value, ScriptFault> {
    match kind {
        "unsigneds" => Ok(Value::Unsigneds(numbers_in(alloc, rest)?)),
        "zeros" => Ok(Value::Unsigneds(zeros(alloc, number_in(rest)?)?)),
        "texts" => Ok(Value::Texts(texts_in(alloc, rest)?)),
        "lists" => Ok(Value::Lists(lists_in(alloc, number_in(rest)?)?)),
        _ => Err(ScriptFault::Words),
    }
}

/// A value as a script writes it: its kind, and what it is.
fn value_in(alloc: Global, text: &str) -> Result<Value, ScriptFault> {
    let (kind, rest) = first_word(text);
    match kind {
        "bool" => Ok(Value::Bool(rest == "true")),
        "unsigned" => Ok(Value::Unsigned(number_in(rest)?)),
        "signed" => Ok(Value::Signed(signed_in(rest)?)),
        "text" => Ok(Value::Text(value_text(alloc, rest)?)),
        "nested" => Ok(Value::List(nested(alloc, number_in(rest)?)?)),
        _ => array_in(alloc, kind, rest),
    }
}

/// Pushes a pair, and says how that ended.
fn push(list: &mut Nv, name: &str, value: Value) -> Result<&'static str, ScriptFault> {
    match list.push(name, value) {
        Ok(()) => Ok("ok"),
        Err(NvFault::BadName) => Ok("bad name"),
        Err(NvFault::Twice) => Ok("twice"),
        Err(NvFault::TooDeep) => Ok("too deep"),
        Err(NvFault::TooMany) => Ok("too many"),
        Err(NvFault::NoMemory) => Err(ScriptFault::NoMemory),
    }
}

/// Pushes a pair as a script writes it, and says how that ended.
fn push_item(alloc: Global, list: &mut Nv, item: &str) -> Result<&'static str, ScriptFault> {
    let (name, value) = item.split_once('=').ok_or(ScriptFault::Words)?;
    let name = text_in(alloc, name)?;
    let value = value_in(alloc, value)?;
    push(list, text_of(&name)?, value)
}

/// Pushes pairs, says how each push ended, and how many pairs the list then has.
pub fn push_items(
    alloc: Global,
    list: &mut Nv,
    items: &str,
    out: &mut String,
) -> Result<(), ScriptFault> {
    for item in items.split(", ") {
        out.push_str(push_item(alloc, list, item)?)?;
        out.push_str(", ")?;
    }
    show_count("pairs", list.len(), out)
}

/// Whether the bytes of a list are these.
pub fn show_spelling(
    alloc: Global,
    list: &Nv,
    wanted: &[u8],
    out: &mut String,
) -> Result<(), ScriptFault> {
    let mut bytes = Vec::new(alloc);
    write_nv(list, &mut bytes)?;
    show_difference(&bytes, wanted, out)
}

/// Appends an array of numbers.
fn show_numbers(numbers: &[u64], out: &mut String) -> Result<(), ScriptFault> {
    out.push_str("unsigneds ")?;
    for number in numbers {
        show_item(*number, out)?;
    }
    Ok(())
}

/// Appends an array of texts.
fn show_texts(texts: &[NvText], out: &mut String) -> Result<(), ScriptFault> {
    out.push_str("texts ")?;
    for text in texts {
        out.push_str(text.get())?;
        out.push_str("/")?;
    }
    Ok(())
}

/// Appends how many lists an array has, and how deep they are.
fn show_lists(lists: &NvLists, out: &mut String) -> Result<(), ScriptFault> {
    show_count("lists", lists.len(), out)?;
    show_count(", depth", lists.depth() as usize, out)
}

/// Appends a copy of an array, and how many items the copy gives back.
fn show_array(alloc: Global, value: &Value, out: &mut String) -> Result<(), ScriptFault> {
    let count = match value {
        Value::Unsigneds(numbers) => {
            show_numbers(numbers.as_slice(), out)?;
            numbers.copy(alloc)?.into_vec().len()
        }
        Value::Texts(texts) => {
            show_texts(texts.as_slice(), out)?;
            texts.copy(alloc)?.into_vec().len()
        }
        Value::Lists(lists) => {
            show_lists(lists, out)?;
            lists.copy(alloc)?.into_vec().len()
        }
        _ => return Err(ScriptFault::Words),
    };
    show_count(", given back", count, out)
}

/// Appends a value.
fn show_value(alloc: Global, value: &Value, out: &mut String) -> Result<(), ScriptFault> {
    match value {
        Value::Bool(is_so) => write!(out, "bool {is_so}")?,
        Value::Unsigned(number) => write!(out, "unsigned {number}")?,
        Value::Signed(number) => write!(out, "signed {number}")?,
        Value::Text(text) => write!(out, "text {}", text.get())?,
        Value::List(list) => show_count("list, depth", list.depth() as usize, out)?,
        _ => show_array(alloc, value, out)?,
    }
    Ok(())
}

/// The value of a name in a copy of a list.
pub fn show_named(
    alloc: Global,
    list: &Nv,
    name: &str,
    out: &mut String,
) -> Result<(), ScriptFault> {
    match list.copy(alloc)?.get(name) {
        Some(value) => show_value(alloc, value, out),
        None => Ok(out.push_str("none")?),
    }
}

/// The name at a place, and a copy of the value there.
pub fn show_at(alloc: Global, list: &Nv, at: u64, out: &mut String) -> Result<(), ScriptFault> {
    let at = at as usize;
    if at >= list.len() {
        return Err(ScriptFault::Words);
    }
    out.push_str(list.name(at))?;
    out.push_str(" ")?;
    show_value(alloc, &list.value(at).copy(alloc)?, out)
}

/// The bytes of a list of so many pairs, each true and named by its number in eight digits.
fn numbered_bytes(alloc: Global, count: u16) -> Result<Vec<u8>, ScriptFault> {
    let mut bytes = Vec::new(alloc);
    put_u16(count, &mut bytes)?;
    for number in 0..count {
        put_u8(8, &mut bytes)?;
        let name = format!(in alloc; "{number:08}")?;
        bytes.extend_from_slice(name.as_bytes())?;
        bytes.extend_from_slice(b"\x01\x01")?;
    }
    Ok(bytes)
}

/// Reads the list of so many pairs, and says whether it is written so again.
pub fn read_numbered(
    alloc: Global,
    count: u16,
    list: &mut Nv,
    out: &mut String,
) -> Result<(), ScriptFault> {
    let bytes = numbered_bytes(alloc, count)?;
    match read_nv(alloc, &bytes)? {
        Some((read, _)) => *list = read,
        None => return Err(ScriptFault::NoSpelling),
    }
    show_count("pairs", list.len(), out)?;
    out.push_str(", written again ")?;
    show_spelling(alloc, list, &bytes, out)
}

/// How long a list is that bytes begin with, and what it is.
pub fn show_shape(alloc: Global, bytes: &[u8], out: &mut String) -> Result<(), ScriptFault> {
    match read_nv(alloc, bytes)? {
        Some((list, length)) => {
            show_count("length", length, out)?;
            show_count(", pairs", list.len(), out)?;
            show_count(", depth", list.depth() as usize, out)
        }
        None => Err(ScriptFault::NoSpelling),
    }
}

/// Takes a list off the front of bytes.
pub fn take_list(alloc: Global, bytes: &[u8], out: &mut String) -> Result<(), ScriptFault> {
    let mut input = Input::new(bytes);
    let list = take_nv(&mut input, alloc)?;
    out.push_str(if list.is_empty() { "empty" } else { "some" })?;
    show_count(", left", input.left(), out)
}

/// The laws of lists hold.
pub fn laws_of_lists() {
    lists_are_read_back();
}
