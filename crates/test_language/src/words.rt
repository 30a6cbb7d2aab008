// The words of a line, and lists of numbers as text.
use std::alloc::Global;
use test_words::{ScriptFault, first_word, small_in};

/// The two numbers of a text.
pub fn two_in(text: &str) -> Result<(u32, u32), ScriptFault> {
    let (first, second) = first_word(text);
    Ok((small_in(first)?, small_in(second)?))
}

/// The numbers of a text.
pub fn numbers_in(alloc: Global, text: &str) -> Result<Vec<u32>, ScriptFault> {
    let mut numbers = Vec::new(alloc);
    for word in text.split_whitespace() {
        numbers.push(small_in(word)?)?;
    }
    Ok(numbers)
}

/// Some numbers with blanks between them, or `none`.
pub fn numbers_text(alloc: Global, numbers: &[u32]) -> Result<String, ScriptFault> {
    let mut text = String::new(alloc);
    for number in numbers {
        if !text.is_empty() {
            text.push(' ')?;
        }
        write!(&mut text, "{number}")?;
    }
    or_none(alloc, text)
}

/// The text, or `none` in place of an empty one.
pub fn or_none(alloc: Global, text: String) -> Result<String, ScriptFault> {
    if text.is_empty() {
        Ok(String::from_str(alloc, "none")?)
    } else {
        Ok(text)
    }
}
