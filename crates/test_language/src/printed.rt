// What trees are printed as.
use crate::texts::shown_bytes;
use ev_lex::lex;
use ev_parse::parse;
use ev_print_laws::read_again;
use ev_tree::{Tree, print_tree};
use std::alloc::Global;
use test_words::ScriptFault;

/// The text that a tree is printed as.
fn print(alloc: Global, tree: &Tree) -> Result<Vec<u8>, ScriptFault> {
    let mut text = Vec::new(alloc);
    print_tree(tree, &mut text)?;
    Ok(text)
}

/// What the tree of a text is printed as, where the tree that is read of this text, and a copy of
/// the tree, are printed so too.
pub fn printed(alloc: Global, text: &[u8]) -> Result<String, ScriptFault> {
    if text.len() > 1048576 {
        return Err(ScriptFault::Words);
    }
    let Ok(tokens) = lex(alloc, text) else {
        return Err(ScriptFault::Words);
    };
    let Ok(tree) = parse(alloc, text, tokens.as_slice()) else {
        return Err(ScriptFault::Words);
    };
    let Ok(again) = read_again(alloc, &tree) else {
        return Err(ScriptFault::Words);
    };
    let first = print(alloc, &tree)?;
    if first != print(alloc, &again)? || first != print(alloc, &tree.copy(alloc)?)? {
        return Ok(String::from_str(alloc, "not printed so again")?);
    }
    shown_bytes(alloc, &first)
}
