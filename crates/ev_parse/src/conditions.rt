//! Conditions.
ghost use Rattle.std.specs.Prelude.{◌≡◌, ◌∷◌, [], suc, map, codes};
ghost use Rattle.ev_tree.specs.Condition.{view_cond, any, all};
ghost use Rattle.ev_tree.specs.Grammar.{gather};
ghost use Rattle.ev_parse.specs.Gives.{Gives, onto};
ghost use Rattle.ev_parse.specs.Read.{after_at, more_at};
ghost use Rattle.ev_parse.specs.Reading.{unary_at, all_of_at, any_of_at, condition_at};
ghost use Rattle.ev_parse.specs.Toks.{toks};

use crate::stop::ParseStop;
use crate::sums::atom;
use crate::tokens::{next_is, sign};
use ev_lex::Token;
use ev_tree::Cond;
use std::alloc::Global;

/// How deep `!` and parentheses nest.
const DEPTH: u32 = 64;

/// All of these conditions; one for itself.
fn gather_all(members: Vec<Cond>) -> Cond
    ensures { view_cond result ≡ gather all (map view_cond members.items) }
{
    let mut members = members;
    if members.len() == 1 {
        match members.pop() {
            Some(member) => member,
            None => Cond::All(members),
        }
    } else {
        Cond::All(members)
    }
}

/// Any of these conditions; one for itself.
fn gather_any(members: Vec<Cond>) -> Cond
    ensures { view_cond result ≡ gather any (map view_cond members.items) }
{
    let mut members = members;
    if members.len() < 2 {
        match members.pop() {
            Some(member) => member,
            None => Cond::Any(members),
        }
    } else {
        Cond::Any(members)
    }
}

#[cycle(condition)]
fn and_unary<'a>(
    alloc: Global,
    text: &[u8],
    tokens: &'a [Token],
    depth: u32,
) -> Result<(Cond, &'a [Token]), ParseStop<'a>>
    ensures { Gives text.now view_cond result
        (after_at (codes "&&") (unary_at depth) (toks text.now tokens.now)) }
{
    let rest = sign(text, tokens, b"&&")?;
    unary(alloc, text, rest, depth)
}

#[cycle(condition)]
fn more_all<'a>(
    alloc: Global,
    text: &[u8],
    first: Cond,
    tokens: &'a [Token],
    depth: u32,
) -> Result<(Vec<Cond>, &'a [Token]), ParseStop<'a>>
    ensures { Gives text.now (λ x. map view_cond x.items) result
        (onto (view_cond first ∷ [])
        (more_at (codes "&&") (unary_at depth) (toks text.now tokens.now))) }
{
    let mut items = vec![in alloc; first]?;
    let mut rest = tokens;
    'more: while next_is(text, rest, b"&&") {
        let (next, after) = and_unary(alloc, text, rest, depth)?;
        items.push(next)?;
        rest = after;
    }
    Ok((items, rest))
}

#[cycle(condition)]
#[tactic(auto, unfolding(crate::specs::Reading::all_of_at))]
fn all_of<'a>(
    alloc: Global,
    text: &[u8],
    tokens: &'a [Token],
    depth: u32,
) -> Result<(Cond, &'a [Token]), ParseStop<'a>>
    ensures { Gives text.now view_cond result
        (all_of_at (unary_at depth) (toks text.now tokens.now)) }
{
    let (first, rest) = unary(alloc, text, tokens, depth)?;
    let (members, rest) = more_all(alloc, text, first, rest, depth)?;
    Ok((gather_all(members), rest))
}

#[cycle(condition)]
fn or_all<'a>(
    alloc: Global,
    text: &[u8],
    tokens: &'a [Token],
    depth: u32,
) -> Result<(Cond, &'a [Token]), ParseStop<'a>>
    ensures { Gives text.now view_cond result
        (after_at (codes "||") (all_of_at (unary_at depth)) (toks text.now tokens.now)) }
{
    let rest = sign(text, tokens, b"||")?;
    all_of(alloc, text, rest, depth)
}

#[cycle(condition)]
fn more_any<'a>(
    alloc: Global,
    text: &[u8],
    first: Cond,
    tokens: &'a [Token],
    depth: u32,
) -> Result<(Vec<Cond>, &'a [Token]), ParseStop<'a>>
    ensures { Gives text.now (λ x. map view_cond x.items) result
        (onto (view_cond first ∷ [])
        (more_at (codes "||") (all_of_at (unary_at depth)) (toks text.now tokens.now))) }
{
    let mut items = vec![in alloc; first]?;
    let mut rest = tokens;
    'more: while next_is(text, rest, b"||") {
        let (next, after) = or_all(alloc, text, rest, depth)?;
        items.push(next)?;
        rest = after;
    }
    Ok((items, rest))
}

#[cycle(condition)]
#[tactic(auto, unfolding(crate::specs::Reading::any_of_at))]
fn any_of<'a>(
    alloc: Global,
    text: &[u8],
    tokens: &'a [Token],
    depth: u32,
) -> Result<(Cond, &'a [Token]), ParseStop<'a>>
    ensures { Gives text.now view_cond result
        (any_of_at (unary_at depth) (toks text.now tokens.now)) }
{
    let (first, rest) = all_of(alloc, text, tokens, depth)?;
    let (members, rest) = more_any(alloc, text, first, rest, depth)?;
    Ok((gather_any(members), rest))
}

/// A negated condition or one in parentheses, in which `depth` more may nest, or a plain one.
#[cycle(condition)]
#[tactic(auto, unfolding(crate::specs::Reading::unary_at))]
fn nested<'a>(
    alloc: Global,
    text: &[u8],
    tokens: &'a [Token],
    depth: u32,
) -> Result<(Cond, &'a [Token]), ParseStop<'a>>
    ensures { Gives text.now view_cond result (unary_at (suc depth) (toks text.now tokens.now)) }
{
    if next_is(text, tokens, b"!") {
        let rest = sign(text, tokens, b"!")?;
        let (inner, rest) = unary(alloc, text, rest, depth)?;
        let inner = Box::new(alloc, inner)?;
        Ok((Cond::Not(inner), rest))
    } else if next_is(text, tokens, b"(") {
        let rest = sign(text, tokens, b"(")?;
        let (inner, rest) = any_of(alloc, text, rest, depth)?;
        let rest = sign(text, rest, b")")?;
        Ok((inner, rest))
    } else {
        atom(alloc, text, tokens)
    }
}

#[cycle(condition)]
#[tactic(auto, unfolding(crate::specs::Reading::unary_at))]
fn unary<'a>(
    alloc: Global,
    text: &[u8],
    tokens: &'a [Token],
    depth: u32,
) -> Result<(Cond, &'a [Token]), ParseStop<'a>>
    ensures { Gives text.now view_cond result (unary_at depth (toks text.now tokens.now)) }
{
    if depth == 0 {
        atom(alloc, text, tokens)
    } else {
        nested(alloc, text, tokens, depth - 1)
    }
}

/// A condition, in which `!` and parentheses nest at most 64 deep.
#[tactic(auto, unfolding(crate::specs::Reading::condition_at))]
pub(crate) fn condition<'a>(
    alloc: Global,
    text: &[u8],
    tokens: &'a [Token],
) -> Result<(Cond, &'a [Token]), ParseStop<'a>>
    ensures { Gives text.now view_cond result (condition_at (toks text.now tokens.now)) }
{
    any_of(alloc, text, tokens, DEPTH)
}
