// In which order a search takes iterators, by tables without rows.
ghost use Rattle.std.specs.Prelude.{IfOk};
ghost use Rattle.ev_join.specs.Tables.{RisesFrom};

use ev_join::{Table, search_order};
use std::alloc::Global;
use test_words::{ScriptFault, first_word, small_in};

/// The columns of a text: one number, or two that ascend.
fn columns_in(alloc: Global, text: &str) -> Result<Vec<u32>, ScriptFault>
    ensures { IfOk result (λ columns. RisesFrom 0 columns.items) }
{
    let (first, second) = first_word(text);
    let first = small_in(first)?;
    if second.is_empty() {
        return Ok(Vec::from_array(alloc, [first])?);
    }
    let second = small_in(second)?;
    if second <= first {
        return Err(ScriptFault::Words);
    }
    Ok(Vec::from_array(alloc, [first, second])?)
}

/// A table with these columns, without rows.
fn table_in(alloc: Global, text: &str) -> Result<Table, ScriptFault> {
    let columns = columns_in(alloc, text)?;
    Ok(Table::new(columns, Vec::new(alloc))?)
}

/// The tables of a text, with commas between them.
fn tables_in(alloc: Global, text: &str) -> Result<Vec<Table>, ScriptFault> {
    let mut tables = Vec::new(alloc);
    for words in text.split(',') {
        tables.push(table_in(alloc, words.trim())?)?;
    }
    Ok(tables)
}

/// Some places, with blanks between them.
fn places_text(alloc: Global, places: &[usize]) -> Result<String, ScriptFault> {
    let mut text = String::new(alloc);
    for place in places {
        if !text.is_empty() {
            text.push(' ')?;
        }
        write!(&mut text, "{place}")?;
    }
    Ok(text)
}

/// The order of so many iterators, `COUNT, COLUMN .., ..`.
pub fn ordered_iterators(alloc: Global, words: &str) -> Result<String, ScriptFault> {
    let (count, columns) = words.split_once(',').ok_or(ScriptFault::Words)?;
    let tables = tables_in(alloc, columns)?;
    let order = search_order(alloc, &tables, small_in(count)? as usize)?;
    places_text(alloc, &order)
}
