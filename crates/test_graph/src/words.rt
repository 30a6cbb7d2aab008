// The words of a line, and lists of numbers and links as text.
use ev_graph::Link;
use std::alloc::{AllocError, Global};
use test_words::{ScriptFault, number_in, small_in};

/// The part of a text up to its first comma, and what is behind it, both without blanks around.
pub fn first_part(text: &str) -> (&str, &str) {
    match text.split_once(',') {
        Some((first, rest)) => (first.trim(), rest.trim()),
        None => (text.trim(), ""),
    }
}

/// The two numbers of a text with a `/` between them.
pub fn pair_in(text: &str) -> Result<(u32, u32), ScriptFault> {
    let (first, second) = text.split_once('/').ok_or(ScriptFault::Words)?;
    Ok((small_in(first)?, small_in(second)?))
}

/// The numbers of a text.
pub fn numbers_in(alloc: Global, text: &str) -> Result<Vec<u32>, ScriptFault> {
    let mut numbers = Vec::new(alloc);
    for word in text.split_whitespace() {
        numbers.push(small_in(word)?)?;
    }
    Ok(numbers)
}

/// The same of numbers of 64 bits.
pub fn longs_in(alloc: Global, text: &str) -> Result<Vec<u64>, ScriptFault> {
    let mut numbers = Vec::new(alloc);
    for word in text.split_whitespace() {
        numbers.push(number_in(word)?)?;
    }
    Ok(numbers)
}

/// The links of a text, `INSTANCE/EFFECT` each.
pub fn links_in(alloc: Global, text: &str) -> Result<Vec<Link>, ScriptFault> {
    let mut links = Vec::new(alloc);
    for word in text.split_whitespace() {
        let (instance, effect) = pair_in(word)?;
        links.push(Link { instance, effect })?;
    }
    Ok(links)
}

/// Puts a blank and a number for each.
pub fn put_numbers(numbers: &[u32], line: &mut String) -> Result<(), AllocError> {
    for number in numbers {
        write!(line, " {number}")?;
    }
    Ok(())
}

/// Some numbers with blanks between them, or `none`.
pub fn numbers_text(alloc: Global, numbers: &[u32]) -> Result<String, ScriptFault> {
    let mut text = String::new(alloc);
    put_numbers(numbers, &mut text)?;
    match text.as_str().strip_prefix(' ') {
        Some(words) => Ok(String::from_str(alloc, words)?),
        None => Ok(String::from_str(alloc, "none")?),
    }
}
