//! What is wrong with a statement in itself: each word of the table, and the first that holds.
ghost use Rattle.std.specs.Prelude.{◌≡◌, ◌||◌, IfOk};
ghost use Rattle.std.specs.List.{list_any};
ghost use Rattle.ev_words.specs.Words.{is_payload, asks_oddly, is_odd_side, has_bad_kind};
ghost use Rattle.ev_words.specs.Words.{has_twice};
ghost use Rattle.ev_words.specs.Words.{is_missing, is_odd_count, is_odd_part, has_odd_part};
ghost use Rattle.ev_words.specs.Words.{has_bad_count, has_bad_time, has_free_iterator, word_of};

use crate::attributes::{
    any_misplaced, any_odd_number, any_odd_size, any_odd_time, any_odd_trip, any_odd_window, both,
    either, is_from, lacks_one, repeats_in_engine, repeats_in_event,
};
use crate::categories::{is_event, is_report, is_serd, is_side};
use crate::iterators::{any_long, any_odd_name, verticals};
use crate::kinds::CheckKind;
use crate::operands::operands_at;
use ev_tree::{At, Count, Operand, Part, SidePattern, Statement};
use fm_bytes::NoMemory;
use std::alloc::Global;

/// Whether the operand is a property of the payload.
fn is_payload(operand: &Operand) -> bool
    ensures { result ≡ is_payload operand.now }
{
    matches!(operand, Operand::Payloadprop(_))
}

/// Whether one of the operands is.
fn any_payload(operands: &[Operand]) -> bool
    ensures { result ≡ list_any is_payload operands.now }
{
    for operand in operands {
        if is_payload(operand) {
            return true;
        }
    }
    false
}

/// Whether the condition of the pattern asks the payload where it may not: on the left, or of no
/// report.
fn asks_oddly(alloc: Global, left: bool, pattern: &SidePattern) -> Result<bool, NoMemory>
    ensures { IfOk result (λ odd. odd ≡ asks_oddly left pattern.now) }
{
    let operands = operands_at(alloc, pattern)?;
    let asks = any_payload(operands.as_slice());
    let elsewhere = either(left, !is_report(&pattern.class));
    Ok(both(asks, elsewhere))
}

/// Whether the pattern may not stand on that side, or may not ask the payload there.
fn is_odd_side(alloc: Global, left: bool, pattern: &SidePattern) -> Result<bool, NoMemory>
    ensures { IfOk result (λ odd. odd ≡ is_odd_side left pattern.now) }
{
    let odd = asks_oddly(alloc, left, pattern)?;
    Ok(either(!is_side(left, &pattern.class), odd))
}

/// Whether one pattern of a side may not stand there, or may not ask the payload there.
fn any_odd_side(alloc: Global, left: bool, side: &[SidePattern]) -> Result<bool, NoMemory>
    ensures { IfOk result (λ odd. odd ≡ list_any (is_odd_side left) side.now) }
{
    for pattern in side {
        if is_odd_side(alloc, left, pattern)? {
            return Ok(true);
        }
    }
    Ok(false)
}

/// Whether a class, an attribute or a property of the payload may not stand where it does.
fn has_bad_kind(alloc: Global, statement: &Statement) -> Result<bool, NoMemory>
    ensures { IfOk result (λ bad. bad ≡ has_bad_kind statement.now) }
{
    match statement {
        Statement::Event { event, attrs, .. } => {
            let misplaced = any_misplaced(&event.class, attrs.as_slice());
            Ok(either(!is_event(&event.class), misplaced))
        }
        Statement::Engine { engine, attrs, .. } => {
            let odd = any_odd_trip(attrs.as_slice());
            Ok(either(!is_serd(&engine.class), odd))
        }
        Statement::Prop { left, right, .. } => {
            let one = any_odd_side(alloc, true, left.as_slice())?;
            let other = any_odd_side(alloc, false, right.as_slice())?;
            Ok(either(one, other))
        }
    }
}

/// Whether an attribute stands twice.
fn has_twice(statement: &Statement) -> bool
    ensures { result ≡ has_twice statement.now }
{
    match statement {
        Statement::Event { attrs, .. } => repeats_in_event(attrs.as_slice()),
        Statement::Engine { attrs, .. } => repeats_in_engine(attrs.as_slice()),
        Statement::Prop { .. } => false,
    }
}

/// Whether it is an engine that lacks `N`, `T` or `trip`.
fn is_missing(statement: &Statement) -> bool
    ensures { result ≡ is_missing statement.now }
{
    match statement {
        Statement::Engine { attrs, .. } => lacks_one(attrs.as_slice()),
        _ => false,
    }
}

/// Whether a number at an arrow is not from `least` to 65,536.
fn is_odd_count(least: u128, count: &Option<Count>) -> bool
    ensures { result ≡ is_odd_count least count.now }
{
    match count {
        Some(Count::Number(number)) => !is_from(least, 65536, u128::from(*number)),
        _ => false,
    }
}

/// Whether a constant instance takes more than 32 bits.
fn is_odd_part(part: &Part) -> bool
    ensures { result ≡ is_odd_part part.now }
{
    match &part.at {
        At::Number(number) => !is_from(0, 4_294_967_295, u128::from(*number)),
        _ => false,
    }
}

/// Whether one of the parts of the pattern has such a constant.
fn has_odd_part(pattern: &SidePattern) -> bool
    ensures { result ≡ has_odd_part pattern.now }
{
    let parts = pattern.parts.as_slice();
    for part in parts {
        if is_odd_part(part) {
            return true;
        }
    }
    false
}

/// Whether one of the patterns has.
fn any_odd_part(side: &[SidePattern]) -> bool
    ensures { result ≡ list_any has_odd_part side.now }
{
    for pattern in side {
        if has_odd_part(pattern) {
            return true;
        }
    }
    false
}

/// Whether a number of the statement is out of range.
fn has_bad_count(statement: &Statement) -> bool
    ensures { result ≡ has_bad_count statement.now }
{
    match statement {
        Statement::Event { attrs, .. } => any_odd_number(attrs.as_slice()),
        Statement::Engine { attrs, .. } => any_odd_size(attrs.as_slice()),
        Statement::Prop {
            left,
            n,
            k,
            right,
            ..
        } => {
            let counts = either(is_odd_count(0, n), is_odd_count(1, k));
            let parts = either(
                any_odd_part(left.as_slice()),
                any_odd_part(right.as_slice()),
            );
            either(counts, parts)
        }
    }
}

/// Whether a time of the statement is out of range.
fn has_bad_time(statement: &Statement) -> bool
    ensures { result ≡ has_bad_time statement.now }
{
    match statement {
        Statement::Event { attrs, .. } => any_odd_window(attrs.as_slice()),
        Statement::Engine { attrs, .. } => any_odd_time(attrs.as_slice()),
        Statement::Prop { .. } => false,
    }
}

/// Whether a name is too long, or no iterator where it stands, or one of both kinds.
fn has_free_iterator(alloc: Global, statement: &Statement) -> Result<bool, NoMemory>
    ensures { IfOk result (λ free. free ≡ has_free_iterator statement.now) }
{
    match statement {
        Statement::Event { event, .. } => Ok(any_long(event.names.as_slice())),
        Statement::Engine { engine, .. } => Ok(any_long(engine.names.as_slice())),
        Statement::Prop { left, right, .. } => {
            let down = verticals(alloc, left.as_slice(), right.as_slice())?;
            let one = any_odd_name(alloc, &down, left.as_slice())?;
            let other = any_odd_name(alloc, &down, right.as_slice())?;
            Ok(either(one, other))
        }
    }
}

/// The first word of the table that holds of the statement in itself.
pub fn word_of(alloc: Global, statement: &Statement) -> Result<Option<CheckKind>, NoMemory>
    ensures { IfOk result (λ word. word ≡ word_of statement.now) }
{
    if has_bad_kind(alloc, statement)? {
        return Ok(Some(CheckKind::BadKind));
    }
    if has_twice(statement) {
        return Ok(Some(CheckKind::Twice));
    }
    if is_missing(statement) {
        return Ok(Some(CheckKind::Missing));
    }
    if has_bad_count(statement) {
        return Ok(Some(CheckKind::BadCount));
    }
    if has_bad_time(statement) {
        return Ok(Some(CheckKind::BadTime));
    }
    if has_free_iterator(alloc, statement)? {
        return Ok(Some(CheckKind::FreeIterator));
    }
    Ok(None)
}
