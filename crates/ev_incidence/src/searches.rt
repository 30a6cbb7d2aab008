//! What a few nodes reach along an incidence.

ghost use Rattle.std.specs.Prelude.{◌≡◌, ◌≤◌, ◌<◌, ◌∷◌, ◌++◌, [], ℕ, true, cond, length};
ghost use Rattle.std.specs.Prelude.{slice_index};
ghost use Rattle.std.specs.Prelude.{IfOk, OnOk};
ghost use Rattle.ev_incidence.specs.Sets.{is_member};
ghost use Rattle.ev_incidence.specs.Table.{row_at, AreRowsBelow};
ghost use Rattle.ev_incidence.specs.Reached.{AddsNodes, TakesRow, TakesRows, CanSearch, IsReach};
ghost use Rattle.ev_incidence.specs.Reached.{IsSortedFrom};

use crate::rows::Rows;
use fm_bytes::NoMemory;
use std::alloc::Global;
use std::marker::Model;

/// Numbers below a size, each noted once, in the order in which they were noted. It takes one byte
/// for each number below the size and four for each that is noted.
#[derive(Drop)]
pub struct Marked {
    marks: Vec<bool>,
    items: Vec<u32>,
}

impl Model for Marked {
    ghost use Rattle.std.specs.Prelude.{length};
    ghost use Rattle.ev_incidence.specs.Reached.{MarkedValue, AreMarked};

    ghost Value = { MarkedValue };

    ghost view = { λ m. record { size = length m.marks.items; items = m.items.items } };

    ghost invariant = { λ m. AreMarked m.marks.items m.items.items };
}

impl Marked {
    /// No number.
    pub fn new(alloc: Global, size: usize) -> Result<Marked, NoMemory>
        ensures { IfOk result (λ marked. marked ≡ record { size = size; items = [] }) }
    {
        let marks = vec![in alloc; false; size]?;
        Ok(Marked {
            marks,
            items: Vec::new(alloc),
        })
    }

    /// The size.
    pub fn size(&self) -> usize
        ensures { result ≡ self.now.size }
    {
        self.marks.len()
    }

    /// The numbers, in the order in which they were noted.
    pub fn as_slice(&self) -> &[u32]
        ensures items { result.now ≡ self.now.items }
        ensures below { (e : ℕ) → is_member self.now.items e ≡ true → e < self.now.size }
        ensures few { length self.now.items ≤ self.now.size }
    {
        let _ = &self.marks;
        self.items.as_slice()
    }

    /// Whether the number is noted.
    pub fn has(&self, number: u32) -> bool
        ensures { result ≡ is_member self.now.items number }
    {
        self.marks.get(number as usize).copied().unwrap_or(false)
    }

    /// Notes a number, and says whether it was not noted before.
    pub fn note(&mut self, number: u32) -> Result<bool, NoMemory>
        requires { number < self.old.size }
        ensures fresh { IfOk result (λ fresh. self.new.items
            ≡ cond fresh (self.old.items ++ number ∷ []) self.old.items) }
        ensures there { OnOk result (is_member self.new.items number ≡ true) }
        ensures size { self.new.size ≡ self.old.size }
    {
        if self.marks[number as usize] {
            return Ok(false);
        }
        self.items.push(number)?;
        self.marks[number as usize] = true;
        Ok(true)
    }

    /// Puts the numbers from a place on in ascending order.
    fn sort_from(&mut self, at: usize)
        requires { at ≤ length self.old.items }
        ensures sorted { IsSortedFrom at self.old.items self.new.items }
        ensures size { self.new.size ≡ self.old.size }
    {
        sort_tail(self.items.as_mut_slice(), at);
    }
}

fn sort_tail(numbers: &mut [u32], at: usize)
    requires { at ≤ length numbers.old }
    ensures { IsSortedFrom at numbers.old numbers.new }
{
    let (_, tail) = numbers.split_at_mut(at);
    tail.sort_unstable();
}

fn note_each(numbers: &[u32], marked: &mut Marked) -> Result<(), NoMemory>
    requires { (i : ℕ) → i < length numbers.now → slice_index numbers.now i < marked.old.size }
    ensures adds { OnOk result (AddsNodes numbers.now marked.old.items marked.new.items) }
    ensures size { marked.new.size ≡ marked.old.size }
{
    for number in numbers {
        marked.note(*number)?;
    }
    Ok(())
}

/// Takes one row of the node: notes it, and its members.
fn take_row(
    rows: &Rows,
    place: u32,
    nodes: &mut Marked,
    places: &mut Marked,
) -> Result<(), NoMemory>
    requires place { place < places.old.size }
    requires below { AreRowsBelow nodes.old.size rows.now }
    ensures there { OnOk result (is_member places.new.items place ≡ true) }
    ensures nodes { OnOk result (TakesRow rows.now place nodes.old.items places.old.items
        nodes.new.items places.new.items) }
    ensures size { nodes.new.size ≡ nodes.old.size }
    ensures places_size { places.new.size ≡ places.old.size }
{
    if places.note(place)? {
        note_each(rows.row(place), nodes)?;
    }
    Ok(())
}

fn take_rows(
    own: &[u32],
    rows: &Rows,
    nodes: &mut Marked,
    places: &mut Marked,
) -> Result<(), NoMemory>
    requires places { (i : ℕ) → i < length own.now → slice_index own.now i < places.old.size }
    requires below { AreRowsBelow nodes.old.size rows.now }
    ensures nodes { OnOk result (TakesRows rows.now own.now nodes.old.items places.old.items
        nodes.new.items places.new.items) }
    ensures size { nodes.new.size ≡ nodes.old.size }
    ensures places_size { places.new.size ≡ places.old.size }
{
    for place in own {
        take_row(rows, *place, nodes, places)?;
    }
    Ok(())
}

/// Puts the nodes from a place on in ascending order, unless those up to a later place stand so
/// already, and answers the place up to which they do.
fn sort_wave(nodes: &mut Marked, at: usize, sorted: usize) -> usize
    requires { at ≤ length nodes.old.items }
    ensures sorted { IsSortedFrom at nodes.old.items nodes.new.items }
    ensures size { nodes.new.size ≡ nodes.old.size }
{
    if at < sorted {
        return sorted;
    }
    nodes.sort_from(at);
    nodes.as_slice().len()
}

/// Notes the nodes that these starts come to along the lists, by no step or more, and the places of
/// their rows. What is as many steps off is taken in ascending order, so that rows are read as they
/// stand in memory: it takes the time of those rows, and that of sorting the nodes.
pub fn search(
    index: &Rows,
    rows: &Rows,
    starts: &[u32],
    nodes: &mut Marked,
    places: &mut Marked,
) -> Result<(), NoMemory>
    requires { CanSearch index.now rows.now starts.now nodes.old places.old }
    ensures reach { OnOk result (IsReach index.now rows.now starts.now
        nodes.new.items places.new.items) }
    ensures size { nodes.new.size ≡ nodes.old.size }
    ensures places_size { places.new.size ≡ places.old.size }
{
    note_each(starts, nodes)?;
    let mut at = 0;
    let mut sorted = 0;
    while at < nodes.as_slice().len() {
        sorted = sort_wave(nodes, at, sorted);
        let node = nodes.as_slice()[at];
        take_rows(index.row(node), rows, nodes, places)?;
        at += 1;
    }
    Ok(())
}
