// Moments and numbers in text, both ways.
use fm_text::{read_number, read_time, write_time};
use std::alloc::Global;
use test_words::{ScriptFault, number_in, show_found, text_of};

/// What a text means as a number.
pub fn show_numeral(text: &str, out: &mut String) -> Result<(), ScriptFault> {
    show_found(read_number(text), out)
}

/// What a text means as a moment.
pub fn show_moment(text: &str, out: &mut String) -> Result<(), ScriptFault> {
    show_found(read_time(text), out)
}

/// A moment as text, behind what was there.
pub fn show_time(alloc: Global, word: &str, out: &mut String) -> Result<(), ScriptFault> {
    let mut bytes = b"at ".to_vec(alloc)?;
    write_time(number_in(word)?, &mut bytes)?;
    out.push_str(text_of(&bytes)?)?;
    Ok(())
}
