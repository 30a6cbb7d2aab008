//! Statements.
ghost use Rattle.std.specs.Prelude.{◌≡◌, codes, length, IfOk};
ghost use Rattle.ev_tree.specs.Rule.{place_of, view_statement};
ghost use Rattle.ev_parse.specs.Gives.{Gives};
ghost use Rattle.ev_parse.specs.Reading.{count_at, arrow_count_at, event_at, engine_at, prop_at};
ghost use Rattle.ev_parse.specs.Reading.{statement_at};
ghost use Rattle.ev_parse.specs.Toks.{toks};

use crate::attrs::{engine_attrs, event_attrs};
use crate::parts::declared;
use crate::patterns::side;
use crate::stop::ParseStop;
use crate::tokens::{int, next_is, next_is_int, sign, word};
use ev_lex::Token;
use ev_tree::{Count, Statement};
use std::alloc::Global;

#[tactic(auto, unfolding(crate::specs::Reading::count_at))]
fn count<'a>(text: &[u8], tokens: &'a [Token]) -> Result<(Count, &'a [Token]), ParseStop<'a>>
    ensures { Gives text.now (λ x. x) result (count_at (toks text.now tokens.now)) }
{
    if next_is_int(text, tokens) {
        let (number, rest) = int(text, tokens)?;
        Ok((Count::Number(number), rest))
    } else {
        let rest = word(text, tokens, b"A")?;
        Ok((Count::All, rest))
    }
}

/// The number on one side of an arrow, where there is one.
#[tactic(auto, unfolding(crate::specs::Reading::arrow_count_at))]
fn arrow_count<'a>(
    text: &[u8],
    tokens: &'a [Token],
) -> Result<(Option<Count>, &'a [Token]), ParseStop<'a>>
    ensures { Gives text.now (λ x. x) result (arrow_count_at (toks text.now tokens.now)) }
{
    if next_is(text, tokens, b"(") {
        let rest = sign(text, tokens, b"(")?;
        let (count, rest) = count(text, rest)?;
        let rest = sign(text, rest, b")")?;
        Ok((Some(count), rest))
    } else {
        Ok((None, tokens))
    }
}

#[tactic(auto, unfolding(crate::specs::Reading::event_at))]
fn event<'a>(
    alloc: Global,
    text: &[u8],
    tokens: &'a [Token],
    place: u32,
) -> Result<(Statement, &'a [Token]), ParseStop<'a>>
    ensures gives { Gives text.now view_statement result (event_at (toks text.now tokens.now)) }
    ensures placed { IfOk result (λ x. place_of x.0 ≡ place) }
{
    let rest = sign(text, tokens, b"event")?;
    let (event, rest) = declared(alloc, text, rest)?;
    let (attrs, rest) = event_attrs(alloc, text, rest)?;
    let rest = sign(text, rest, b";")?;
    Ok((
        Statement::Event {
            place,
            event,
            attrs,
        },
        rest,
    ))
}

#[tactic(auto, unfolding(crate::specs::Reading::engine_at))]
fn engine<'a>(
    alloc: Global,
    text: &[u8],
    tokens: &'a [Token],
    place: u32,
) -> Result<(Statement, &'a [Token]), ParseStop<'a>>
    ensures gives { Gives text.now view_statement result (engine_at (toks text.now tokens.now)) }
    ensures placed { IfOk result (λ x. place_of x.0 ≡ place) }
{
    let rest = sign(text, tokens, b"engine")?;
    let (engine, rest) = declared(alloc, text, rest)?;
    let (attrs, rest) = engine_attrs(alloc, text, rest)?;
    let rest = sign(text, rest, b";")?;
    Ok((
        Statement::Engine {
            place,
            engine,
            attrs,
        },
        rest,
    ))
}

#[tactic(auto, unfolding(crate::specs::Reading::prop_at))]
fn prop<'a>(
    alloc: Global,
    text: &[u8],
    tokens: &'a [Token],
    place: u32,
) -> Result<(Statement, &'a [Token]), ParseStop<'a>>
    ensures gives { Gives text.now view_statement result (prop_at (toks text.now tokens.now)) }
    ensures placed { IfOk result (λ x. place_of x.0 ≡ place) }
{
    let rest = sign(text, tokens, b"prop")?;
    let (left, rest) = side(alloc, text, rest)?;
    let (n, rest) = arrow_count(text, rest)?;
    let rest = sign(text, rest, b"->")?;
    let (k, rest) = arrow_count(text, rest)?;
    let (right, rest) = side(alloc, text, rest)?;
    let rest = sign(text, rest, b";")?;
    Ok((
        Statement::Prop {
            place,
            left,
            n,
            k,
            right,
        },
        rest,
    ))
}

/// A statement, whose first byte is at `place`.
#[tactic(auto, unfolding(crate::specs::Reading::statement_at))]
pub(crate) fn statement<'a>(
    alloc: Global,
    text: &[u8],
    tokens: &'a [Token],
    place: u32,
) -> Result<(Statement, &'a [Token]), ParseStop<'a>>
    ensures gives { Gives text.now view_statement result (statement_at (toks text.now tokens.now)) }
    ensures placed { IfOk result (λ x. place_of x.0 ≡ place) }
{
    if next_is(text, tokens, b"event") {
        event(alloc, text, tokens, place)
    } else if next_is(text, tokens, b"engine") {
        engine(alloc, text, tokens, place)
    } else {
        prop(alloc, text, tokens, place)
    }
}
