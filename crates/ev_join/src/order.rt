//! The order in which a search best takes the iterators, and bindings put in order.

ghost use Rattle.std.specs.Prelude.{IfOk};
ghost use Rattle.ev_join.specs.Candidates.{AreInOrder};

use crate::table::Table;
use fm_bytes::{Items, NoMemory};
use std::alloc::Global;
use std::cmp::Reverse;
use std::collections::BinaryHeap;

/// Iterators that stand in a table with one that was taken: which were met, and those of them that
/// were not taken yet, the least of them first.
#[derive(Drop)]
struct Ties {
    met: Vec<bool>,
    waiting: BinaryHeap<Reverse<usize>>,
}

/// Meets an iterator, where it was not met before.
fn meet(ties: &mut Ties, iterator: usize) -> Result<(), NoMemory> {
    if iterator < ties.met.len() && !ties.met[iterator] {
        ties.met[iterator] = true;
        ties.waiting.push(Reverse(iterator))?;
    }
    Ok(())
}

/// Meets the iterators of a table.
fn meet_columns(ties: &mut Ties, columns: &[u32]) -> Result<(), NoMemory> {
    for column in columns {
        meet(ties, *column as usize)?;
    }
    Ok(())
}

/// Meets the iterators of the tables at these places.
fn meet_tables(ties: &mut Ties, tables: &[Table], places: &[usize]) -> Result<(), NoMemory> {
    for place in places {
        match tables.get(*place) {
            Some(table) => meet_columns(ties, table.columns())?,
            None => (),
        }
    }
    Ok(())
}

/// The first iterator, from one on, that was not met.
fn first_unmet(met: &[bool], from: usize) -> usize {
    for at in from..met.len() {
        if !met[at] {
            return at;
        }
    }
    met.len()
}

/// No place for each iterator.
fn no_places(alloc: Global, count: usize) -> Result<Vec<Vec<usize>>, NoMemory> {
    let mut places = Vec::new(alloc);
    for _ in 0..count {
        places.push(Vec::new(alloc))?;
    }
    Ok(places)
}

/// Adds the place of a table to those of each of its iterators.
fn add_place(places: &mut [Vec<usize>], columns: &[u32], place: usize) -> Result<(), NoMemory> {
    for column in columns {
        match places.get_mut(*column as usize) {
            Some(list) => list.push(place)?,
            None => (),
        }
    }
    Ok(())
}

/// For each iterator the places of the tables that have it.
fn places_of(alloc: Global, tables: &[Table], count: usize) -> Result<Vec<Vec<usize>>, NoMemory> {
    let mut places = no_places(alloc, count)?;
    for (place, table) in tables.iter().enumerate() {
        add_place(&mut places, table.columns(), place)?;
    }
    Ok(places)
}

/// No iterator met.
fn no_ties(alloc: Global, count: usize) -> Result<Ties, NoMemory> {
    let mut met = Vec::new(alloc);
    for _ in 0..count {
        met.push(false)?;
    }
    let waiting = BinaryHeap::new(alloc);
    Ok(Ties { met, waiting })
}

/// The iterators in an order in which each next one stands in a table with one before it, where
/// there is such: of these the least, else the least of all. So it is the order of their numbers
/// wherever that is one of these orders. Nothing but the time of a search rests on it.
pub fn search_order(alloc: Global, tables: &[Table], count: usize) -> Result<Vec<usize>, NoMemory> {
    let places = places_of(alloc, tables, count)?;
    let mut ties = no_ties(alloc, count)?;
    let mut order = Vec::new(alloc);
    let mut first = 0;
    for _ in 0..count {
        if ties.waiting.is_empty() {
            first = first_unmet(&ties.met, first);
            meet(&mut ties, first)?;
        }
        let Some(Reverse(iterator)) = ties.waiting.pop() else {
            return Ok(order);
        };
        order.push(iterator)?;
        match places.get(iterator) {
            Some(list) => meet_tables(&mut ties, tables, list)?,
            None => (),
        }
    }
    Ok(order)
}

/// The same bindings, in order.
pub fn in_order(bindings: Items<Items<u32>>) -> Result<Items<Items<u32>>, NoMemory>
    ensures { IfOk result (λ found. AreInOrder bindings found) }
{
    let mut bindings = bindings.into_vec();
    bindings.sort_by(|a, b| a.as_slice().cmp(b.as_slice()))?;
    Ok(Items::new(bindings))
}
