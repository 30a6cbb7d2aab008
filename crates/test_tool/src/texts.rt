// Texts of a script: how they are written in it, and those that have names.
use crate::blocks::number;
use crate::undone::Undone;
use std::alloc::Global;

#[derive(Drop)]
struct Named<'a> {
    name: &'a str,
    bytes: Vec<u8>,
}

/// The texts that have names.
#[derive(Drop)]
pub struct Texts<'a> {
    named: Vec<Named<'a>>,
}

impl<'a> Texts<'a> {
    /// No text has a name.
    pub fn new(alloc: Global) -> Texts<'a> {
        Texts {
            named: Vec::new(alloc),
        }
    }

    /// Gives the text this name, in place of one that has it.
    pub fn define(&mut self, name: &'a str, bytes: Vec<u8>) -> Result<(), Undone> {
        match self.named.iter_mut().find(|text| text.name == name) {
            Some(text) => text.bytes = bytes,
            None => self.named.push(Named { name, bytes })?,
        }
        Ok(())
    }

    /// The text of this name.
    pub fn get(&self, name: &str) -> Result<&[u8], Undone> {
        match self.named.iter().find(|text| text.name == name) {
            Some(text) => Ok(&text.bytes),
            None => Err(Undone::Unread),
        }
    }

    /// Appends the text that these lines write.
    pub fn write(&self, alloc: Global, lines: &[&str], bytes: &mut Vec<u8>) -> Result<(), Undone> {
        for line in lines {
            self.push(alloc, line, bytes)?;
        }
        Ok(())
    }

    /// Appends the text that a line writes.
    fn push(&self, alloc: Global, line: &str, bytes: &mut Vec<u8>) -> Result<(), Undone> {
        let (sign, rest) = line.split_at_checked(1).ok_or(Undone::Unread)?;
        let rest = rest.strip_prefix(' ').unwrap_or(rest);
        match sign {
            "|" => push_line(rest, bytes),
            "<" => Ok(bytes.extend_from_slice(self.get(rest)?)?),
            "*" => self.push_times(rest, bytes),
            "+" => push_numbered(alloc, rest, bytes),
            _ => Err(Undone::Unread),
        }
    }

    /// Appends a named text so many times: `COUNT NAME`.
    fn push_times(&self, rest: &str, bytes: &mut Vec<u8>) -> Result<(), Undone> {
        let (count, name) = rest.split_once(' ').ok_or(Undone::Unread)?;
        let text = self.get(name)?;
        for _ in 0..number(count)? {
            bytes.extend_from_slice(text)?;
        }
        Ok(())
    }
}

/// Appends so many lines, which end in the numbers from 0 on: `COUNT TEXT`.
fn push_numbered(alloc: Global, rest: &str, bytes: &mut Vec<u8>) -> Result<(), Undone> {
    let (count, text) = rest.split_once(' ').ok_or(Undone::Unread)?;
    for place in 0..number(count)? {
        let line = format!(in alloc; "{text}{place}\n")?;
        bytes.extend_from_slice(line.as_bytes())?;
    }
    Ok(())
}

/// Appends a byte in two hexadecimal digits, and what stands behind them.
fn push_byte(piece: &str, bytes: &mut Vec<u8>) -> Result<(), Undone> {
    let (digits, rest) = piece.split_at_checked(2).ok_or(Undone::Unread)?;
    let Ok(byte) = u8::from_str_radix(digits, 16) else {
        return Err(Undone::Unread);
    };
    bytes.push(byte)?;
    bytes.extend_from_slice(rest.as_bytes())?;
    Ok(())
}

/// Appends a line, in which `\xHH` is a byte; where it ends with `\`, without a newline.
fn push_line(line: &str, bytes: &mut Vec<u8>) -> Result<(), Undone> {
    let front = line.strip_suffix('\\');
    for (place, piece) in front.unwrap_or(line).split("\\x").enumerate() {
        if place == 0 {
            bytes.extend_from_slice(piece.as_bytes())?;
        } else {
            push_byte(piece, bytes)?;
        }
    }
    if front.is_none() {
        bytes.push(b'\n')?;
    }
    Ok(())
}
