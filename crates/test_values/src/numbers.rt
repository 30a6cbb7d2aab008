// Numbers and texts as bytes and digits, and lists of them.
use fm_bytes::{
    Copies, Input, Items, Text, numbers_are_read_back, put_long_text, put_short_text, put_u8,
    put_u16, put_u32, put_u64, read_digits, read_numeral,
};
use fm_items::{NumberCodec, put_counted, put_items, take_counted, take_items};
use std::alloc::Global;
use test_words::{
    ScriptFault, first_word, number_in, show_bytes, show_count, show_found, show_item, small_in,
};

/// Appends a text behind its length, in 16 or in 32 bits.
fn put_text_of(kind: &str, text: &str, out: &mut Vec<u8>) -> Result<(), ScriptFault> {
    if text.len() >= 65536 {
        return Err(ScriptFault::Words);
    }
    match kind {
        "short" => put_short_text(text, out)?,
        "long" => put_long_text(text, out)?,
        _ => return Err(ScriptFault::Words),
    }
    Ok(())
}

/// Appends a number in so many bits, or a text.
fn put_value(kind: &str, word: &str, out: &mut Vec<u8>) -> Result<(), ScriptFault> {
    match kind {
        "u8" => match word.parse::<u8>() {
            Ok(number) => put_u8(number, out)?,
            Err(_) => return Err(ScriptFault::Words),
        },
        "u16" => match word.parse::<u16>() {
            Ok(number) => put_u16(number, out)?,
            Err(_) => return Err(ScriptFault::Words),
        },
        "u32" => put_u32(small_in(word)?, out)?,
        "u64" => put_u64(number_in(word)?, out)?,
        _ => return put_text_of(kind, word, out),
    }
    Ok(())
}

/// The bytes of values, each a kind and a word.
pub fn put_values(alloc: Global, text: &str, out: &mut String) -> Result<(), ScriptFault> {
    let mut bytes = Vec::new(alloc);
    for item in text.split(", ") {
        let (kind, word) = first_word(item);
        put_value(kind, word, &mut bytes)?;
    }
    show_bytes(&bytes, out)
}

/// Takes a value of this kind off the front.
fn take_value(input: &mut Input<'_>, kind: &str, out: &mut String) -> Result<(), ScriptFault> {
    match kind {
        "u8" => show_item(u64::from(input.take_u8()?), out)?,
        "u16" => show_item(u64::from(input.take_u16()?), out)?,
        "u32" => show_item(u64::from(input.take_u32()?), out)?,
        "u64" => show_item(input.take_u64()?, out)?,
        "short" => out.push_str(input.take_short_text()?)?,
        "long" => out.push_str(input.take_long_text(1)?)?,
        _ => return Err(ScriptFault::Words),
    }
    Ok(())
}

/// Takes values of these kinds off the front of bytes.
pub fn take_values(kinds: &str, bytes: &[u8], out: &mut String) -> Result<(), ScriptFault> {
    let mut input = Input::new(bytes);
    for kind in kinds.split(',') {
        take_value(&mut input, kind, out)?;
    }
    show_count(" left", input.left(), out)
}

/// What a text means as digits, and as a numeral.
pub fn show_meanings(text: &str, out: &mut String) -> Result<(), ScriptFault> {
    let (most, digits) = first_word(text);
    let most = number_in(most)?;
    show_found(read_digits(digits.as_bytes(), most), out)?;
    out.push_str(" ")?;
    show_found(read_numeral(digits.as_bytes(), most), out)
}

/// A list of the texts between strokes.
fn texts_in(alloc: Global, text: &str) -> Result<Items<Text>, ScriptFault> {
    let mut list = Items::new(Vec::new(alloc));
    for item in text.split('/') {
        list.push(Text::new(alloc, item)?)?;
    }
    Ok(list)
}

/// The texts of a copy of a list, and how many it gives back.
pub fn show_copied(alloc: Global, text: &str, out: &mut String) -> Result<(), ScriptFault> {
    let copied = texts_in(alloc, text)?.copy(alloc)?;
    for item in copied.as_slice() {
        out.push_str(item.get())?;
        out.push_str("/")?;
    }
    show_count(" of", copied.len(), out)?;
    show_count(", given back", copied.into_vec().len(), out)
}

/// The numbers of some words.
fn numbers_of(alloc: Global, words: &str) -> Result<Vec<u32>, ScriptFault> {
    let mut numbers = Vec::new(alloc);
    for word in words.split_whitespace() {
        numbers.push(small_in(word)?)?;
    }
    Ok(numbers)
}

/// The bytes of numbers behind their count.
pub fn put_behind_count(alloc: Global, words: &str, out: &mut String) -> Result<(), ScriptFault> {
    let numbers = numbers_of(alloc, words)?;
    let mut bytes = Vec::new(alloc);
    if numbers.len() < 1000 {
        put_counted::<u32, NumberCodec>(&numbers, &mut bytes)?;
    }
    show_bytes(&bytes, out)
}

/// The bytes of numbers, without their count.
pub fn put_uncounted(alloc: Global, words: &str, out: &mut String) -> Result<(), ScriptFault> {
    let mut bytes = Vec::new(alloc);
    put_items::<u32, NumberCodec>(&numbers_of(alloc, words)?, &mut bytes)?;
    show_bytes(&bytes, out)
}

/// Numbers that were read, and how many bytes are left.
fn show_numbers(numbers: &[u32], left: usize, out: &mut String) -> Result<(), ScriptFault> {
    for number in numbers {
        show_item(u64::from(*number), out)?;
    }
    show_count("left", left, out)
}

/// Takes numbers behind their count off the front of bytes.
pub fn take_behind_count(alloc: Global, bytes: &[u8], out: &mut String) -> Result<(), ScriptFault> {
    let mut input = Input::new(bytes);
    let numbers = take_counted::<u32, NumberCodec>(&mut input, alloc)?;
    show_numbers(numbers.as_slice(), input.left(), out)
}

/// Takes so many numbers off the front of bytes.
pub fn take_uncounted(
    alloc: Global,
    count: u32,
    bytes: &[u8],
    out: &mut String,
) -> Result<(), ScriptFault> {
    let mut input = Input::new(bytes);
    let numbers = take_items::<u32, NumberCodec>(&mut input, alloc, count)?;
    show_numbers(numbers.as_slice(), input.left(), out)
}

/// The laws of numbers hold.
pub fn laws_of_numbers() {
    numbers_are_read_back();
}
