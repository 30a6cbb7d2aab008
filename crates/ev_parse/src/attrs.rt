//! The attributes of events and engines.
ghost use Rattle.std.specs.Prelude.{◌≡◌, codes};
ghost use Rattle.ev_parse.specs.Gives.{Gives};
ghost use Rattle.ev_parse.specs.Read.{after_at, more_at};
ghost use Rattle.ev_parse.specs.Reading.{event_attr_at, engine_attr_at};
ghost use Rattle.ev_parse.specs.Toks.{toks};

use crate::stop::ParseStop;
use crate::tokens::{class, int, next_is, next_is_word, sign, time, word};
use ev_lex::Token;
use ev_tree::{EngineAttr, EngineAttrs, EventAttr, EventAttrs};
use std::alloc::Global;

#[tactic(auto, unfolding(crate::specs::Reading::event_attr_at))]
fn event_attr<'a>(
    alloc: Global,
    text: &[u8],
    tokens: &'a [Token],
) -> Result<(EventAttr, &'a [Token]), ParseStop<'a>>
    ensures { Gives text.now (λ x. x) result (event_attr_at (toks text.now tokens.now)) }
{
    if next_is_word(text, tokens, b"FITrate") {
        let rest = word(text, tokens, b"FITrate")?;
        let rest = sign(text, rest, b"=")?;
        let (number, rest) = int(text, rest)?;
        Ok((EventAttr::Fit(number), rest))
    } else if next_is_word(text, tokens, b"retire") {
        let rest = word(text, tokens, b"retire")?;
        let rest = sign(text, rest, b"=")?;
        let (number, rest) = int(text, rest)?;
        Ok((EventAttr::Retire(number), rest))
    } else if next_is(text, tokens, b"engine") {
        let rest = sign(text, tokens, b"engine")?;
        let rest = sign(text, rest, b"=")?;
        let (class, rest) = class(alloc, text, rest)?;
        Ok((EventAttr::Engine(class), rest))
    } else {
        let rest = word(text, tokens, b"within")?;
        let rest = sign(text, rest, b"=")?;
        let (time, rest) = time(text, rest)?;
        Ok((EventAttr::Within(time), rest))
    }
}

#[tactic(auto, unfolding(crate::specs::Reading::engine_attr_at))]
fn engine_attr<'a>(
    alloc: Global,
    text: &[u8],
    tokens: &'a [Token],
) -> Result<(EngineAttr, &'a [Token]), ParseStop<'a>>
    ensures { Gives text.now (λ x. x) result (engine_attr_at (toks text.now tokens.now)) }
{
    if next_is_word(text, tokens, b"N") {
        let rest = word(text, tokens, b"N")?;
        let rest = sign(text, rest, b"=")?;
        let (number, rest) = int(text, rest)?;
        Ok((EngineAttr::N(number), rest))
    } else if next_is_word(text, tokens, b"T") {
        let rest = word(text, tokens, b"T")?;
        let rest = sign(text, rest, b"=")?;
        let (time, rest) = time(text, rest)?;
        Ok((EngineAttr::T(time), rest))
    } else {
        let rest = word(text, tokens, b"trip")?;
        let rest = sign(text, rest, b"=")?;
        let (class, rest) = class(alloc, text, rest)?;
        Ok((EngineAttr::Trip(class), rest))
    }
}

fn comma_event_attr<'a>(
    alloc: Global,
    text: &[u8],
    tokens: &'a [Token],
) -> Result<(EventAttr, &'a [Token]), ParseStop<'a>>
    ensures { Gives text.now (λ x. x) result
        (after_at (codes ",") event_attr_at (toks text.now tokens.now)) }
{
    let rest = sign(text, tokens, b",")?;
    event_attr(alloc, text, rest)
}

/// The attributes of an event, each behind a comma.
pub(crate) fn event_attrs<'a>(
    alloc: Global,
    text: &[u8],
    tokens: &'a [Token],
) -> Result<(EventAttrs, &'a [Token]), ParseStop<'a>>
    ensures { Gives text.now (λ x. x) result
        (more_at (codes ",") event_attr_at (toks text.now tokens.now)) }
{
    let mut items = Vec::new(alloc);
    let mut rest = tokens;
    'more: while next_is(text, rest, b",") {
        let (next, after) = comma_event_attr(alloc, text, rest)?;
        items.push(next)?;
        rest = after;
    }
    Ok((EventAttrs::new(items), rest))
}

fn comma_engine_attr<'a>(
    alloc: Global,
    text: &[u8],
    tokens: &'a [Token],
) -> Result<(EngineAttr, &'a [Token]), ParseStop<'a>>
    ensures { Gives text.now (λ x. x) result
        (after_at (codes ",") engine_attr_at (toks text.now tokens.now)) }
{
    let rest = sign(text, tokens, b",")?;
    engine_attr(alloc, text, rest)
}

/// The attributes of an engine, each behind a comma.
pub(crate) fn engine_attrs<'a>(
    alloc: Global,
    text: &[u8],
    tokens: &'a [Token],
) -> Result<(EngineAttrs, &'a [Token]), ParseStop<'a>>
    ensures { Gives text.now (λ x. x) result
        (more_at (codes ",") engine_attr_at (toks text.now tokens.now)) }
{
    let mut items = Vec::new(alloc);
    let mut rest = tokens;
    'more: while next_is(text, rest, b",") {
        let (next, after) = comma_engine_attr(alloc, text, rest)?;
        items.push(next)?;
        rest = after;
    }
    Ok((EngineAttrs::new(items), rest))
}
