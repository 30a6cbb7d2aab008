//! Sums of operands, and what compares them.
ghost use Rattle.std.specs.Prelude.{◌≡◌, ◌∷◌, [], codes};
ghost use Rattle.ev_tree.specs.Condition.{Defined, view_cond};
ghost use Rattle.ev_parse.specs.Gives.{Gives, onto};
ghost use Rattle.ev_parse.specs.Read.{after_at, map_at, more_at};
ghost use Rattle.ev_parse.specs.Reading.{call_at, operand_at, sum_at, compares_at, atom_at};
ghost use Rattle.ev_parse.specs.Toks.{toks};

use crate::stop::ParseStop;
use crate::tokens::{compare, int, name, next_is, next_is_int, next_is_name, quoted, sign};
use ev_lex::Token;
use ev_tree::{Cond, Operand, Operands, TreeText};
use std::alloc::Global;

/// A reserved word, and a quoted text in parentheses.
#[tactic(auto, unfolding(crate::specs::Reading::call_at))]
fn call<'a>(
    alloc: Global,
    text: &[u8],
    tokens: &'a [Token],
    word: &[u8],
) -> Result<(TreeText, &'a [Token]), ParseStop<'a>>
    ensures { Gives text.now (λ x. x) result (call_at word.now (toks text.now tokens.now)) }
{
    let rest = sign(text, tokens, word)?;
    let rest = sign(text, rest, b"(")?;
    let (content, rest) = quoted(alloc, text, rest)?;
    let rest = sign(text, rest, b")")?;
    Ok((content, rest))
}

#[tactic(auto, unfolding(crate::specs::Reading::operand_at))]
fn operand<'a>(
    alloc: Global,
    text: &[u8],
    tokens: &'a [Token],
) -> Result<(Operand, &'a [Token]), ParseStop<'a>>
    ensures { Gives text.now (λ x. x) result (operand_at (toks text.now tokens.now)) }
{
    if next_is_int(text, tokens) {
        let (number, rest) = int(text, tokens)?;
        Ok((Operand::Int(number), rest))
    } else if next_is_name(text, tokens) {
        let (name, rest) = name(alloc, text, tokens)?;
        Ok((Operand::Name(name), rest))
    } else if next_is(text, tokens, b"confprop") {
        let (name, rest) = call(alloc, text, tokens, b"confprop")?;
        Ok((Operand::Confprop(name), rest))
    } else if next_is(text, tokens, b"payloadprop") {
        let (name, rest) = call(alloc, text, tokens, b"payloadprop")?;
        Ok((Operand::Payloadprop(name), rest))
    } else {
        let (content, rest) = quoted(alloc, text, tokens)?;
        Ok((Operand::Text(content), rest))
    }
}

fn plus_operand<'a>(
    alloc: Global,
    text: &[u8],
    tokens: &'a [Token],
) -> Result<(Operand, &'a [Token]), ParseStop<'a>>
    ensures { Gives text.now (λ x. x) result
        (after_at (codes "+") operand_at (toks text.now tokens.now)) }
{
    let rest = sign(text, tokens, b"+")?;
    operand(alloc, text, rest)
}

fn more_operands<'a>(
    alloc: Global,
    text: &[u8],
    first: Operand,
    tokens: &'a [Token],
) -> Result<(Operands, &'a [Token]), ParseStop<'a>>
    ensures { Gives text.now (λ x. x) result
        (onto (first ∷ []) (more_at (codes "+") operand_at (toks text.now tokens.now))) }
{
    let mut items = vec![in alloc; first]?;
    let mut rest = tokens;
    'more: while next_is(text, rest, b"+") {
        let (next, after) = plus_operand(alloc, text, rest)?;
        items.push(next)?;
        rest = after;
    }
    Ok((Operands::new(items), rest))
}

#[tactic(auto, unfolding(crate::specs::Reading::sum_at))]
fn sum<'a>(
    alloc: Global,
    text: &[u8],
    tokens: &'a [Token],
) -> Result<(Operands, &'a [Token]), ParseStop<'a>>
    ensures { Gives text.now (λ x. x) result (sum_at (toks text.now tokens.now)) }
{
    let (first, rest) = operand(alloc, text, tokens)?;
    more_operands(alloc, text, first, rest)
}

#[tactic(auto, unfolding(crate::specs::Reading::compares_at))]
fn compares<'a>(
    alloc: Global,
    text: &[u8],
    tokens: &'a [Token],
) -> Result<(Cond, &'a [Token]), ParseStop<'a>>
    ensures { Gives text.now view_cond result (compares_at (toks text.now tokens.now)) }
{
    let (left, rest) = sum(alloc, text, tokens)?;
    let (how, rest) = compare(text, rest)?;
    let (right, rest) = sum(alloc, text, rest)?;
    Ok((Cond::Compares { left, how, right }, rest))
}

fn defined<'a>(
    alloc: Global,
    text: &[u8],
    tokens: &'a [Token],
) -> Result<(Cond, &'a [Token]), ParseStop<'a>>
    ensures { Gives text.now view_cond result
        (map_at Defined (call_at (codes "confprop_defined")) (toks text.now tokens.now)) }
{
    let (name, rest) = call(alloc, text, tokens, b"confprop_defined")?;
    Ok((Cond::Defined(name), rest))
}

/// A condition that is neither negated nor in parentheses.
#[tactic(auto, unfolding(crate::specs::Reading::atom_at))]
pub(crate) fn atom<'a>(
    alloc: Global,
    text: &[u8],
    tokens: &'a [Token],
) -> Result<(Cond, &'a [Token]), ParseStop<'a>>
    ensures { Gives text.now view_cond result (atom_at (toks text.now tokens.now)) }
{
    if next_is(text, tokens, b"confprop_defined") {
        defined(alloc, text, tokens)
    } else {
        compares(alloc, text, tokens)
    }
}
