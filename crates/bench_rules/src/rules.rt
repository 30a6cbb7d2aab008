//! Rule files that come in.

use ev_lex::lex;
use ev_parse::parse;
use std::alloc::Global;
use std::io;
use std::io::Read;

/// How many tokens and statements a rule file has.
struct Sizes {
    tokens: usize,
    statements: usize,
}

/// The sizes of a rule file; none where it has no tree, is too long or memory runs out.
fn sizes_of(alloc: Global, text: &[u8]) -> Option<Sizes> {
    if text.len() > 1_048_576 {
        return None;
    }
    let tokens = lex(alloc, text).ok()?;
    let tree = parse(alloc, text, tokens.as_slice()).ok()?;
    Some(Sizes {
        tokens: tokens.len(),
        statements: tree.statements.as_slice().len(),
    })
}

/// Lexes and parses the input, and prints its sizes: whether it has a tree.
pub fn parse_input(rt: &HostRuntime) -> io::Result<bool> {
    let mut text = Vec::new(rt.alloc());
    rt.stdin().read_to_end(&mut text)?;
    let Some(sizes) = sizes_of(rt.alloc(), text.as_slice()) else {
        return Ok(false);
    };
    let Sizes { tokens, statements } = sizes;
    println!(rt;
        "bytes {} tokens {tokens} statements {statements}",
        text.len()
    )?;
    Ok(true)
}
