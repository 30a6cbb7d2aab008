//! The tables of patterns.

ghost use Rattle.std.specs.Prelude.{◌≡◌, map, zip, codes, IfOk};
ghost use Rattle.std.specs.List.{join_by, filter_map, list_all};
ghost use Rattle.ev_tree.specs.Pattern.{view_pattern};
ghost use Rattle.ev_check.specs.Declarations.{name_of};
ghost use Rattle.ev_words.specs.Iterators.{same_name};
ghost use Rattle.fm_topo.specs.Groups.{IsGrouped};
ghost use Rattle.ev_events.specs.Fits.{has_names};
ghost use Rattle.ev_events.specs.Slots.{slots_of, columns_of};
ghost use Rattle.ev_events.specs.Sheets.{row_of, path_row, IsTableOf};
ghost use Rattle.ev_events.specs.Names.{Knows};

use crate::names::Iterators;
use crate::slots::{Column, Slot, columns_of, keep_all, slots_of, values_at};
use ev_join::{Row, Table};
use ev_tree::{Part, SidePattern};
use fm_bytes::{NoMemory, Text};
use fm_name::Fmri;
use fm_topo::{Groups, Topo};
use std::alloc::Global;

/// How a pattern is read: what its parts ask, and where its iterators stand.
#[derive(Drop)]
struct Layout {
    slots: Vec<Slot>,
    columns: Vec<Column>,
}

/// Whether each pair of names is the same, as far as both lists go.
fn are_names(names: &[&str], parts: &[Part]) -> bool
    ensures { result ≡ list_all (λ p. same_name p.0.now p.1.name) (zip names.now parts.now) }
{
    names
        .iter()
        .zip(parts)
        .all(|(name, part)| *name == part.name.get())
}

/// Whether a path has the names of the parts.
fn has_names(parts: &[Part], path: &Fmri) -> bool
    ensures { result ≡ has_names parts.now path.now }
{
    let names = path.names();
    let paired = are_names(names.as_slice(), parts);
    if names.len() == parts.len() {
        paired
    } else {
        false
    }
}

/// The row of a path with a number, where it has the names and agrees with itself.
fn row_of(
    alloc: Global,
    parts: &[Part],
    layout: &Layout,
    at: u32,
    path: &Fmri,
) -> Result<Option<Row>, NoMemory>
    ensures { IfOk result (λ row. row
        ≡ row_of layout.now.slots.items layout.now.columns.items parts.now at path.now) }
{
    let named = has_names(parts, path);
    let instances = path.instances();
    let kept = keep_all(&layout.slots, instances.as_slice());
    if named && kept {
        let values = values_at(alloc, &layout.columns, instances.as_slice())?;
        Ok(Some(Row { values, path: at }))
    } else {
        Ok(None)
    }
}

/// The row of the path with a number in a topology.
fn row_at(
    alloc: Global,
    topo: &Topo,
    parts: &[Part],
    layout: &Layout,
    at: u32,
) -> Result<Option<Row>, NoMemory>
    ensures { IfOk result (λ row. row
        ≡ path_row topo.now layout.now.slots.items layout.now.columns.items parts.now at) }
{
    if (at as usize) < topo.len() {
        row_of(alloc, parts, layout, at, topo.path(at as usize))
    } else {
        Ok(None)
    }
}

/// The rows of the paths with these numbers.
fn rows_of(
    alloc: Global,
    topo: &Topo,
    parts: &[Part],
    layout: &Layout,
    numbers: &[u32],
) -> Result<Vec<Row>, NoMemory>
    ensures { IfOk result (λ rows. rows.items
        ≡ filter_map (path_row topo.now layout.now.slots.items layout.now.columns.items parts.now)
        numbers.now) }
{
    let mut rows = Vec::new(alloc);
    'numbers: for at in numbers {
        match row_at(alloc, topo, parts, layout, *at)? {
            Some(row) => rows.push(row)?,
            None => (),
        }
    }
    Ok(rows)
}

/// The names of parts.
fn names_of<'a>(alloc: Global, parts: &'a [Part]) -> Result<Vec<&'a str>, NoMemory>
    ensures { IfOk result (λ names. map (λ n. n.now) names.items ≡ map name_of parts.now) }
{
    let mut names = Vec::new(alloc);
    for part in parts {
        names.push(part.name.get())?;
    }
    Ok(names)
}

/// The names of parts, joined by slashes.
#[tactic(auto, using(fm_topo::proofs::Grouping::joined))]
fn names_text(alloc: Global, parts: &[Part]) -> Result<Text, NoMemory>
    ensures { IfOk result (λ text. text
        ≡ join_by (λ name. name) (codes "/") (map name_of parts.now)) }
{
    let names = names_of(alloc, parts)?;
    let text = names.as_slice().join(alloc, "/")?;
    Text::new(alloc, &text)
}

/// The numbers of columns. More than 2^32 - 1 are want of memory.
fn numbers_of(alloc: Global, columns: &[Column]) -> Result<Vec<u32>, NoMemory>
    ensures { IfOk result (λ numbers. numbers.items ≡ map (λ c. c.number) columns.now) }
{
    let mut numbers = Vec::new(alloc);
    for column in columns {
        if column.number > 4_294_967_295 {
            return Err(NoMemory);
        }
        numbers.push(column.number as u32)?;
    }
    Ok(numbers)
}

/// The table of a pattern.
pub(crate) fn table_of(
    alloc: Global,
    topo: &Topo,
    groups: &Groups,
    names: &Iterators,
    parts: &[Part],
) -> Result<Table, NoMemory>
    requires groups { IsGrouped topo.now groups.now }
    requires names { Knows names.now parts.now }
    ensures { IfOk result (λ table. IsTableOf topo.now names.now parts.now table) }
{
    let slots = slots_of(alloc, parts)?;
    let columns = columns_of(alloc, names, parts)?;
    let numbers = numbers_of(alloc, &columns)?;
    let layout = Layout { slots, columns };
    let text = names_text(alloc, parts)?;
    let rows = rows_of(alloc, topo, parts, &layout, groups.numbers(&text))?;
    let table = Table::new(numbers, rows)?;
    Ok(table)
}
