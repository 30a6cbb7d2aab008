//! How a pattern is read: which part each part is to be like, and where its iterators stand.

ghost use Rattle.std.specs.Prelude.{◌≡◌, ◌++◌, position, IfOk, OnOk};
ghost use Rattle.ev_words.specs.Iterators.{same_name, goes_down, goes_across};
ghost use Rattle.ev_events.specs.Names.{iterator_of};
ghost use Rattle.ev_events.specs.Slots.{first_place, slot_of, slots_of, keeps, keep_all, column_of};
ghost use Rattle.ev_events.specs.Slots.{with_column, with_column_if, columns_of, values_at};

use crate::names::{Iterators, iterator_of};
use ev_tree::{At, Part};
use fm_bytes::{Items, NoMemory, Text};
use std::alloc::Global;

/// What a part asks of an instance: to be a constant, or like that at the first part with the same
/// iterator.
#[derive(Clone, Copy, Debug, Drop)]
pub(crate) enum Slot {
    Constant(u64),
    Like(usize),
}

/// A vertical iterator by its number, and the first part that has it.
#[derive(Clone, Copy, Debug, Drop)]
pub(crate) struct Column {
    pub(crate) number: usize,
    pub(crate) place: usize,
}

/// Whether two names are the same.
fn is_same(name: &Text, other: &Text) -> bool
    ensures { result ≡ same_name name.now other.now }
{
    name.get().as_bytes() == other.get().as_bytes()
}

/// Whether a part has the vertical iterator.
fn goes_down(name: &Text, part: &Part) -> bool
    ensures { result ≡ goes_down name.now part.now }
{
    match &part.at {
        At::Bare => is_same(name, &part.name),
        At::Down(other) => is_same(name, other),
        _ => false,
    }
}

/// Whether a part has the horizontal iterator.
fn goes_across(name: &Text, part: &Part) -> bool
    ensures { result ≡ goes_across name.now part.now }
{
    match &part.at {
        At::Across(other) => is_same(name, other),
        _ => false,
    }
}

/// The place of the first part that has the vertical iterator.
fn find_down(parts: &[Part], name: &Text) -> Option<usize>
    ensures { result ≡ position (goes_down name.now) parts.now }
{
    parts.iter().position(|part| goes_down(name, part))
}

/// The place of the first part that has the horizontal iterator.
fn find_across(parts: &[Part], name: &Text) -> Option<usize>
    ensures { result ≡ position (goes_across name.now) parts.now }
{
    parts.iter().position(|part| goes_across(name, part))
}

/// What a part asks of an instance.
fn slot_of(parts: &[Part], part: &Part) -> Slot
    ensures { result ≡ slot_of parts.now part.now }
{
    match &part.at {
        At::Bare => Slot::Like(find_down(parts, &part.name).unwrap_or(0)),
        At::Down(name) => Slot::Like(find_down(parts, name).unwrap_or(0)),
        At::Number(number) => Slot::Constant(*number),
        At::Across(name) => Slot::Like(find_across(parts, name).unwrap_or(0)),
    }
}

/// What each part asks.
pub(crate) fn slots_of(alloc: Global, parts: &[Part]) -> Result<Vec<Slot>, NoMemory>
    ensures { IfOk result (λ slots. slots.items ≡ slots_of parts.now) }
{
    let mut slots = Vec::new(alloc);
    for part in parts {
        slots.push(slot_of(parts, part))?;
    }
    Ok(slots)
}

/// Whether an instance among others is what the slot asks for.
fn keeps(instances: &[u32], slot: Slot, instance: u32) -> bool
    ensures { result ≡ keeps instances.now slot instance }
{
    match slot {
        Slot::Constant(number) => number == u64::from(instance),
        Slot::Like(place) => match instances.get(place) {
            Some(other) => *other == instance,
            None => false,
        },
    }
}

/// Whether each instance is what its slot asks for.
pub(crate) fn keep_all(slots: &[Slot], instances: &[u32]) -> bool
    ensures { result ≡ keep_all slots.now instances.now }
{
    slots
        .iter()
        .zip(instances)
        .all(|(slot, instance)| keeps(instances, *slot, *instance))
}

/// Puts columns behind others, with one more, where its number is none of theirs.
fn put_columns(columns: &[Column], column: Column, out: &mut Vec<Column>) -> Result<(), NoMemory>
    ensures { OnOk result (out.new.items ≡ out.old.items ++ with_column columns.now column) }
{
    let mut rest = columns;
    'columns: while let [first, more @ ..] = rest {
        if column.number < first.number {
            out.push(column)?;
            out.extend_from_slice(rest)?;
            return Ok(());
        }
        if column.number == first.number {
            out.extend_from_slice(rest)?;
            return Ok(());
        }
        out.push(*first)?;
        rest = more;
    }
    out.push(column)?;
    Ok(())
}

/// Columns with one more, where its number is none of theirs.
fn with_column(alloc: Global, columns: &[Column], column: Column) -> Result<Vec<Column>, NoMemory>
    ensures { IfOk result (λ found. found.items ≡ with_column columns.now column) }
{
    let mut found = Vec::new(alloc);
    put_columns(columns, column, &mut found)?;
    Ok(found)
}

/// The column of a vertical iterator.
fn column_of(
    alloc: Global,
    names: &Iterators,
    parts: &[Part],
    name: &Text,
) -> Result<Column, NoMemory>
    ensures { IfOk result (λ column. column ≡ column_of names.now parts.now name.now) }
{
    let number = names.number(alloc, name)?;
    let place = find_down(parts, name).unwrap_or(0);
    Ok(Column { number, place })
}

/// Columns with that of a part, where it has a vertical iterator.
fn with_part(
    alloc: Global,
    names: &Iterators,
    parts: &[Part],
    columns: Vec<Column>,
    part: &Part,
) -> Result<Vec<Column>, NoMemory>
    ensures { IfOk result (λ found. found.items
        ≡ with_column_if names.now parts.now columns.items (iterator_of part.now)) }
{
    match iterator_of(part) {
        Some(name) => {
            let column = column_of(alloc, names, parts, name)?;
            with_column(alloc, &columns, column)
        }
        None => Ok(columns),
    }
}

/// The columns of a pattern, in order of their numbers.
pub(crate) fn columns_of(
    alloc: Global,
    names: &Iterators,
    parts: &[Part],
) -> Result<Vec<Column>, NoMemory>
    ensures { IfOk result (λ columns. columns.items ≡ columns_of names.now parts.now) }
{
    let mut columns = Vec::new(alloc);
    'parts: for part in parts {
        columns = with_part(alloc, names, parts, columns, part)?;
    }
    Ok(columns)
}

/// The instances at the columns.
pub(crate) fn values_at(
    alloc: Global,
    columns: &[Column],
    instances: &[u32],
) -> Result<Items<u32>, NoMemory>
    ensures { IfOk result (λ values. values ≡ values_at columns.now instances.now) }
{
    let mut values = Vec::new(alloc);
    for column in columns {
        values.push(match instances.get(column.place) {
            Some(instance) => *instance,
            None => 0,
        })?;
    }
    Ok(Items::new(values))
}
