// Bytes as a script writes them: words of hexadecimal digits, or of text behind an apostrophe.
use crate::fault::ScriptFault;
use std::alloc::Global;

/// The bytes of the words, one behind the other.
pub fn bytes_in(alloc: Global, words: &str) -> Result<Vec<u8>, ScriptFault> {
    let mut bytes = Vec::new(alloc);
    for word in words.split_whitespace() {
        match word.strip_prefix('\'') {
            Some(text) => bytes.extend_from_slice(text.as_bytes())?,
            None => bytes.extend_from_slice(&hex::decode(alloc, word)?)?,
        }
    }
    Ok(bytes)
}

/// The first place at which two lists of bytes differ.
pub fn first_difference(found: &[u8], wanted: &[u8]) -> Option<usize> {
    for at in 0..found.len().max(wanted.len()) {
        if found.get(at) != wanted.get(at) {
            return Some(at);
        }
    }
    None
}
