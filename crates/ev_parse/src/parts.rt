//! Names and parts, joined by slashes.
ghost use Rattle.std.specs.Prelude.{◌≡◌, ◌∷◌, [], codes};
ghost use Rattle.ev_parse.specs.Gives.{Gives, onto};
ghost use Rattle.ev_parse.specs.Read.{after_at, more_at};
ghost use Rattle.ev_parse.specs.Reading.{name_at, names_at, declared_at, index_at, at_at, part_at};
ghost use Rattle.ev_parse.specs.Reading.{parts_at};
ghost use Rattle.ev_parse.specs.Toks.{toks};

use crate::stop::ParseStop;
use crate::tokens::{class, int, name, next_is, next_is_name, sign};
use ev_lex::Token;
use ev_tree::{At, Declared, Names, Part, Parts, TreeText};
use std::alloc::Global;

fn slash_name<'a>(
    alloc: Global,
    text: &[u8],
    tokens: &'a [Token],
) -> Result<(TreeText, &'a [Token]), ParseStop<'a>>
    ensures { Gives text.now (λ x. x) result
        (after_at (codes "/") name_at (toks text.now tokens.now)) }
{
    let rest = sign(text, tokens, b"/")?;
    name(alloc, text, rest)
}

fn more_names<'a>(
    alloc: Global,
    text: &[u8],
    first: TreeText,
    tokens: &'a [Token],
) -> Result<(Names, &'a [Token]), ParseStop<'a>>
    ensures { Gives text.now (λ x. x) result
        (onto (first ∷ []) (more_at (codes "/") name_at (toks text.now tokens.now))) }
{
    let mut items = vec![in alloc; first]?;
    let mut rest = tokens;
    'more: while next_is(text, rest, b"/") {
        let (next, after) = slash_name(alloc, text, rest)?;
        items.push(next)?;
        rest = after;
    }
    Ok((Names::new(items), rest))
}

#[tactic(auto, unfolding(crate::specs::Reading::names_at))]
fn names<'a>(
    alloc: Global,
    text: &[u8],
    tokens: &'a [Token],
) -> Result<(Names, &'a [Token]), ParseStop<'a>>
    ensures { Gives text.now (λ x. x) result (names_at (toks text.now tokens.now)) }
{
    let (first, rest) = name(alloc, text, tokens)?;
    more_names(alloc, text, first, rest)
}

/// A class at names.
#[tactic(auto, unfolding(crate::specs::Reading::declared_at))]
pub(crate) fn declared<'a>(
    alloc: Global,
    text: &[u8],
    tokens: &'a [Token],
) -> Result<(Declared, &'a [Token]), ParseStop<'a>>
    ensures { Gives text.now (λ x. x) result (declared_at (toks text.now tokens.now)) }
{
    let (class, rest) = class(alloc, text, tokens)?;
    let rest = sign(text, rest, b"@")?;
    let (names, rest) = names(alloc, text, rest)?;
    Ok((Declared { class, names }, rest))
}

#[tactic(auto, unfolding(crate::specs::Reading::index_at))]
fn index<'a>(
    alloc: Global,
    text: &[u8],
    tokens: &'a [Token],
) -> Result<(At, &'a [Token]), ParseStop<'a>>
    ensures { Gives text.now (λ x. x) result (index_at (toks text.now tokens.now)) }
{
    if next_is_name(text, tokens) {
        let (name, rest) = name(alloc, text, tokens)?;
        Ok((At::Down(name), rest))
    } else {
        let (number, rest) = int(text, tokens)?;
        Ok((At::Number(number), rest))
    }
}

#[tactic(auto, unfolding(crate::specs::Reading::at_at))]
fn at<'a>(
    alloc: Global,
    text: &[u8],
    tokens: &'a [Token],
) -> Result<(At, &'a [Token]), ParseStop<'a>>
    ensures { Gives text.now (λ x. x) result (at_at (toks text.now tokens.now)) }
{
    if next_is(text, tokens, b"[") {
        let rest = sign(text, tokens, b"[")?;
        let (at, rest) = index(alloc, text, rest)?;
        let rest = sign(text, rest, b"]")?;
        Ok((at, rest))
    } else if next_is(text, tokens, b"<") {
        let rest = sign(text, tokens, b"<")?;
        let (name, rest) = name(alloc, text, rest)?;
        let rest = sign(text, rest, b">")?;
        Ok((At::Across(name), rest))
    } else {
        Ok((At::Bare, tokens))
    }
}

#[tactic(auto, unfolding(crate::specs::Reading::part_at))]
fn part<'a>(
    alloc: Global,
    text: &[u8],
    tokens: &'a [Token],
) -> Result<(Part, &'a [Token]), ParseStop<'a>>
    ensures { Gives text.now (λ x. x) result (part_at (toks text.now tokens.now)) }
{
    let (name, rest) = name(alloc, text, tokens)?;
    let (at, rest) = at(alloc, text, rest)?;
    Ok((Part { name, at }, rest))
}

fn slash_part<'a>(
    alloc: Global,
    text: &[u8],
    tokens: &'a [Token],
) -> Result<(Part, &'a [Token]), ParseStop<'a>>
    ensures { Gives text.now (λ x. x) result
        (after_at (codes "/") part_at (toks text.now tokens.now)) }
{
    let rest = sign(text, tokens, b"/")?;
    part(alloc, text, rest)
}

fn more_parts<'a>(
    alloc: Global,
    text: &[u8],
    first: Part,
    tokens: &'a [Token],
) -> Result<(Parts, &'a [Token]), ParseStop<'a>>
    ensures { Gives text.now (λ x. x) result
        (onto (first ∷ []) (more_at (codes "/") part_at (toks text.now tokens.now))) }
{
    let mut items = vec![in alloc; first]?;
    let mut rest = tokens;
    'more: while next_is(text, rest, b"/") {
        let (next, after) = slash_part(alloc, text, rest)?;
        items.push(next)?;
        rest = after;
    }
    Ok((Parts::new(items), rest))
}

/// The parts of a pattern.
#[tactic(auto, unfolding(crate::specs::Reading::parts_at))]
pub(crate) fn parts<'a>(
    alloc: Global,
    text: &[u8],
    tokens: &'a [Token],
) -> Result<(Parts, &'a [Token]), ParseStop<'a>>
    ensures { Gives text.now (λ x. x) result (parts_at (toks text.now tokens.now)) }
{
    let (first, rest) = part(alloc, text, tokens)?;
    more_parts(alloc, text, first, rest)
}
