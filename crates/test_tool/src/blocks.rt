// Blocks of a script: a line, and the lines that belong to it.
use crate::undone::Undone;
use std::alloc::{AllocError, Global};

/// A line, and the lines behind it that belong to it.
#[derive(Drop)]
pub struct Block<'a> {
    pub head: &'a str,
    pub lines: Vec<&'a str>,
}

impl<'a> Block<'a> {
    /// The first word of the line, and what stands behind the blank after it.
    pub fn words(&self) -> (&'a str, &'a str) {
        self.head.split_once(' ').unwrap_or((self.head, ""))
    }

    /// The blocks of its lines that begin with two blanks, each without these.
    pub fn inner(&self, alloc: Global) -> Result<Vec<Block<'a>>, AllocError> {
        let mut lines = Vec::new(alloc);
        for line in &self.lines {
            if let Some(line) = line.strip_prefix("  ") {
                lines.push(line)?;
            }
        }
        blocks_of(alloc, &lines)
    }
}

/// Whether a line belongs to the block before it.
fn goes_on(line: &str) -> bool {
    match line.as_bytes().first() {
        Some(sign) => b"|<*+ ".contains(sign),
        None => false,
    }
}

/// The blocks of these lines, of which empty ones and remarks are none.
pub fn blocks_of<'a>(alloc: Global, lines: &[&'a str]) -> Result<Vec<Block<'a>>, AllocError> {
    let mut blocks: Vec<Block<'a>> = Vec::new(alloc);
    for line in lines {
        if line.is_empty() || line.starts_with('#') {
            continue;
        }
        if goes_on(line) {
            if let Some(block) = blocks.last_mut() {
                block.lines.push(line)?;
            }
        } else {
            let head = *line;
            let lines = Vec::new(alloc);
            blocks.push(Block { head, lines })?;
        }
    }
    Ok(blocks)
}

/// A number in decimal digits.
pub fn number(text: &str) -> Result<u64, Undone> {
    match text.parse::<u64>() {
        Ok(number) => Ok(number),
        Err(_) => Err(Undone::Unread),
    }
}
