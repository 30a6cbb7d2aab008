// Bytes as a script writes them, and those that have names.
use crate::fault::ScriptFault;
use crate::words::{first_word, number_in};
use std::alloc::Global;

#[derive(Drop)]
struct NamedBytes {
    name: String,
    bytes: Vec<u8>,
}

/// The bytes that have names.
#[derive(Drop)]
pub struct Named {
    all: Vec<NamedBytes>,
}

impl Named {
    /// No bytes have a name.
    pub fn new(alloc: Global) -> Named {
        Named {
            all: Vec::new(alloc),
        }
    }

    /// Gives bytes a name that none had: `NAME BYTES`.
    pub fn define(&mut self, alloc: Global, text: &str) -> Result<(), ScriptFault> {
        let (name, words) = first_word(text);
        let bytes = self.bytes_in(alloc, words)?;
        let name = String::from_str(alloc, name)?;
        self.all.push(NamedBytes { name, bytes })?;
        Ok(())
    }

    /// The bytes of a name.
    fn get(&self, name: &str) -> Result<&[u8], ScriptFault> {
        match self.all.iter().find(|named| named.name.as_str() == name) {
            Some(named) => Ok(&named.bytes),
            None => Err(ScriptFault::Words),
        }
    }

    /// The bytes of the words, one behind the other.
    pub fn bytes_in(&self, alloc: Global, words: &str) -> Result<Vec<u8>, ScriptFault> {
        let mut bytes = Vec::new(alloc);
        for word in words.split_whitespace() {
            self.put_word(alloc, word, &mut bytes)?;
        }
        Ok(bytes)
    }

    /// Does what a word says: `@` and `^` alter the bytes, every other word appends some.
    fn put_word(&self, alloc: Global, word: &str, bytes: &mut Vec<u8>) -> Result<(), ScriptFault> {
        let (sign, rest) = word.split_at_checked(1).ok_or(ScriptFault::Words)?;
        match sign {
            "'" => Ok(bytes.extend_from_slice(rest.as_bytes())?),
            "$" => Ok(bytes.extend_from_slice(self.get(rest)?)?),
            "@" => alter(alloc, rest, bytes),
            "^" => {
                bytes.truncate(number_in(rest)? as usize);
                Ok(())
            }
            _ => put_digits(alloc, word, bytes),
        }
    }
}

/// Has one of the bytes be another: `PLACE=HH`.
fn alter(alloc: Global, rest: &str, bytes: &mut [u8]) -> Result<(), ScriptFault> {
    let (place, digits) = rest.split_once('=').ok_or(ScriptFault::Words)?;
    let place = number_in(place)? as usize;
    let byte = *hex::decode(alloc, digits)?
        .first()
        .ok_or(ScriptFault::Words)?;
    *bytes.get_mut(place).ok_or(ScriptFault::Words)? = byte;
    Ok(())
}

/// Appends hexadecimal digits, or so many times these: `COUNT*DIGITS`.
fn put_digits(alloc: Global, word: &str, bytes: &mut Vec<u8>) -> Result<(), ScriptFault> {
    let (count, digits) = word.split_once('*').unwrap_or(("1", word));
    let piece = hex::decode(alloc, digits)?;
    for _ in 0..number_in(count)? {
        bytes.extend_from_slice(&piece)?;
    }
    Ok(())
}
