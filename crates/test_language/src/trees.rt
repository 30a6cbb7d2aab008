// Trees of texts.
use ev_lex::{LexFault, lex};
use ev_parse::{ParseFault, parse};
use ev_tree::Tree;
use std::alloc::Global;
use test_words::ScriptFault;

/// What a text reads as: a tree, or the place of the first fault.
#[derive(Drop)]
pub enum Parsed {
    Tree(Tree),
    Fault(u32),
}

/// What a text reads as.
pub fn parse_text(alloc: Global, text: &[u8]) -> Result<Parsed, ScriptFault> {
    if text.len() > 1048576 {
        return Err(ScriptFault::Words);
    }
    let tokens = match lex(alloc, text) {
        Ok(tokens) => tokens,
        Err(LexFault::At { place }) => return Ok(Parsed::Fault(place)),
        Err(LexFault::NoMemory) => return Err(ScriptFault::NoMemory),
    };
    match parse(alloc, text, tokens.as_slice()) {
        Ok(tree) => Ok(Parsed::Tree(tree)),
        Err(ParseFault::At { place }) => Ok(Parsed::Fault(place)),
        Err(ParseFault::NoMemory) => Err(ScriptFault::NoMemory),
    }
}

/// The tree of a text that has one.
pub fn tree_of(alloc: Global, text: &[u8]) -> Result<Tree, ScriptFault> {
    match parse_text(alloc, text)? {
        Parsed::Tree(tree) => Ok(tree),
        Parsed::Fault(_) => Err(ScriptFault::Words),
    }
}

/// Whether a text has a tree, or where its first fault is.
pub fn tree(alloc: Global, text: &[u8]) -> Result<String, ScriptFault> {
    match parse_text(alloc, text)? {
        Parsed::Tree(_) => Ok(String::from_str(alloc, "tree")?),
        Parsed::Fault(place) => Ok(format!(in alloc; "at {place}")?),
    }
}
