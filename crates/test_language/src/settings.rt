// What the commands of a script have in common: texts that stay from line to line.
use crate::parts::machine;
use crate::texts::{bytes_in, push_text};
use crate::words::numbers_in;
use std::alloc::Global;
use test_words::ScriptFault;

/// What stands in front of each text of rules, a topology, two rule files, a compiled file, and the
/// numbers of a payload.
#[derive(Drop)]
pub struct Settings {
    pub front: Vec<u8>,
    pub parts: Vec<u8>,
    pub first: Vec<u8>,
    pub second: Vec<u8>,
    pub file: Vec<u8>,
    pub banks: Vec<u32>,
}

impl Settings {
    /// Empty ones.
    pub fn new(alloc: Global) -> Settings {
        Settings {
            front: Vec::new(alloc),
            parts: Vec::new(alloc),
            first: Vec::new(alloc),
            second: Vec::new(alloc),
            file: Vec::new(alloc),
            banks: Vec::new(alloc),
        }
    }

    /// A text of rules, behind what stands in front of it.
    pub fn rules(&self, alloc: Global, written: &str) -> Result<Vec<u8>, ScriptFault> {
        let mut text = self.front.as_slice().to_vec(alloc)?;
        push_text(written, &mut text)?;
        Ok(text)
    }

    /// Takes what a line says; whether it is such a line.
    pub fn take(&mut self, alloc: Global, word: &str, rest: &str) -> Result<bool, ScriptFault> {
        match word {
            "front" => self.front = bytes_in(alloc, rest)?,
            "parts" => self.parts = bytes_in(alloc, rest)?,
            "machine" => self.parts = machine(alloc, rest)?,
            "first" => self.first = bytes_in(alloc, rest)?,
            "second" => self.second = bytes_in(alloc, rest)?,
            "file" => self.file = bytes_in(alloc, rest)?,
            "payload" => self.banks = numbers_in(alloc, rest)?,
            _ => return Ok(false),
        }
        Ok(true)
    }
}
