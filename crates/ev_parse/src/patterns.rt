//! Patterns, and the sides of a propagation.
ghost use Rattle.std.specs.Prelude.{◌≡◌, ◌∷◌, [], map, codes};
ghost use Rattle.ev_tree.specs.Pattern.{view_option, view_pattern};
ghost use Rattle.ev_parse.specs.Gives.{Gives, onto};
ghost use Rattle.ev_parse.specs.Read.{after_at, more_at};
ghost use Rattle.ev_parse.specs.Reading.{guard_at, pattern_at, side_at};
ghost use Rattle.ev_parse.specs.Toks.{toks};

use crate::conditions::condition;
use crate::parts::parts;
use crate::stop::ParseStop;
use crate::tokens::{class, next_is, sign};
use ev_lex::Token;
use ev_tree::{Cond, Patterns, SidePattern};
use std::alloc::Global;

#[tactic(auto, unfolding(crate::specs::Reading::guard_at))]
fn guard<'a>(
    alloc: Global,
    text: &[u8],
    tokens: &'a [Token],
) -> Result<(Option<Cond>, &'a [Token]), ParseStop<'a>>
    ensures { Gives text.now view_option result (guard_at (toks text.now tokens.now)) }
{
    if next_is(text, tokens, b"{") {
        let rest = sign(text, tokens, b"{")?;
        let (cond, rest) = condition(alloc, text, rest)?;
        let rest = sign(text, rest, b"}")?;
        Ok((Some(cond), rest))
    } else {
        Ok((None, tokens))
    }
}

#[tactic(auto, unfolding(crate::specs::Reading::pattern_at))]
fn pattern<'a>(
    alloc: Global,
    text: &[u8],
    tokens: &'a [Token],
) -> Result<(SidePattern, &'a [Token]), ParseStop<'a>>
    ensures { Gives text.now view_pattern result (pattern_at (toks text.now tokens.now)) }
{
    let (class, rest) = class(alloc, text, tokens)?;
    let rest = sign(text, rest, b"@")?;
    let (parts, rest) = parts(alloc, text, rest)?;
    let (cond, rest) = guard(alloc, text, rest)?;
    Ok((SidePattern { class, parts, cond }, rest))
}

fn comma_pattern<'a>(
    alloc: Global,
    text: &[u8],
    tokens: &'a [Token],
) -> Result<(SidePattern, &'a [Token]), ParseStop<'a>>
    ensures { Gives text.now view_pattern result
        (after_at (codes ",") pattern_at (toks text.now tokens.now)) }
{
    let rest = sign(text, tokens, b",")?;
    pattern(alloc, text, rest)
}

fn more_patterns<'a>(
    alloc: Global,
    text: &[u8],
    first: SidePattern,
    tokens: &'a [Token],
) -> Result<(Patterns, &'a [Token]), ParseStop<'a>>
    ensures { Gives text.now (λ x. map view_pattern x) result
        (onto (view_pattern first ∷ [])
        (more_at (codes ",") pattern_at (toks text.now tokens.now))) }
{
    let mut items = vec![in alloc; first]?;
    let mut rest = tokens;
    'more: while next_is(text, rest, b",") {
        let (next, after) = comma_pattern(alloc, text, rest)?;
        items.push(next)?;
        rest = after;
    }
    Ok((Patterns::new(items), rest))
}

/// One side of a propagation.
#[tactic(auto, unfolding(crate::specs::Reading::side_at))]
pub(crate) fn side<'a>(
    alloc: Global,
    text: &[u8],
    tokens: &'a [Token],
) -> Result<(Patterns, &'a [Token]), ParseStop<'a>>
    ensures { Gives text.now (λ x. map view_pattern x) result (side_at (toks text.now tokens.now)) }
{
    let (first, rest) = pattern(alloc, text, tokens)?;
    more_patterns(alloc, text, first, rest)
}
