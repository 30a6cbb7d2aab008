//! All candidates of some tables, up to a limit on their links.

ghost use Rattle.std.specs.Prelude.{◌≡◌, ◌<◌, ◌+◌, ◌++◌, ◌∷◌, [], List, ℕ, length, sum_by, IfOk};
ghost use Rattle.std.specs.Prelude.{IfErr, MatchBool, MatchOption};
ghost use Rattle.ev_join.specs.Candidates.{AreAllCandidates, AreJoined, HasRows, links_at};
ghost use Rattle.ev_join.specs.Search.{IsRaised};
ghost use Rattle.ev_join.specs.declared.join_fault.JoinFault.TheVariants.{Links};

use crate::join_fault::JoinFault;
use crate::search::next;
use crate::table::Table;
use fm_bytes::{Items, NoMemory};
use std::alloc::Global;

/// All candidates in order, each an instance for each iterator, and what they leave of the limit on
/// links.
#[derive(Debug, Drop)]
pub struct Joined {
    pub bindings: Items<Items<u32>>,
    pub left: u64,
}

/// What the links of a binding leave of a limit, where they are no more.
fn less_links(tables: &[Table], binding: &[u32], limit: u64) -> Option<u64>
    ensures { MatchOption result (limit < links_at tables.now binding.now)
        (λ left. left + links_at tables.now binding.now ≡ limit) }
{
    let mut left = limit;
    'tables: for table in tables {
        let links = table.rows_at(binding).len() as u64;
        if left < links {
            return None;
        }
        left -= links;
    }
    Some(left)
}

/// Whether each table has a row.
fn have_rows(tables: &[Table]) -> bool
    ensures { MatchBool result (HasRows tables.now []) (HasRows tables.now [] → ⊥) }
{
    'tables: for table in tables {
        if !table.has_row() {
            return false;
        }
    }
    true
}

/// The same numbers, with memory of `alloc`.
fn copy_of(alloc: Global, numbers: &[u32]) -> Result<Items<u32>, NoMemory>
    ensures { IfOk result (λ list. list ≡ numbers.now) }
{
    let copied = Vec::from_slice(alloc, numbers)?;
    Ok(Items::new(copied))
}

/// Takes the last number off, and says the next one.
fn raise(front: &mut Vec<u32>) -> u64
    requires { 0 < length front.old.items }
    ensures { IsRaised front.old.items front.new.items result }
{
    match front.pop() {
        Some(last) => u64::from(last) + 1,
        None => 0,
    }
}

/// All candidates, where each table has a row and there are iterators.
fn collect(alloc: Global, tables: &[Table], count: usize, limit: u64) -> Result<Joined, JoinFault>
    requires some { 0 < length tables.now }
    requires wide { 0 < count }
    requires rows { HasRows tables.now [] }
    ensures all { IfOk result (λ joined. AreAllCandidates tables.now count joined.bindings) }
    ensures left { IfOk result
        (λ joined. joined.left + sum_by (links_at tables.now) joined.bindings ≡ limit) }
    ensures many { IfErr result (λ fault. fault ≡ Links → (bs : List (List ℕ))
        × (AreJoined tables.now count bs × (limit < sum_by (links_at tables.now) bs))) }
{
    let mut bindings = Items::new(Vec::new(alloc));
    let mut front = Vec::new(alloc);
    let mut value = 0;
    let mut left = limit;
    'candidates: loop {
        if !next(tables, count, &mut front, value)? {
            return Ok(Joined { bindings, left });
        }
        match less_links(tables, front.as_slice(), left) {
            Some(rest) => left = rest,
            None => return Err(JoinFault::Links),
        }
        bindings.push(copy_of(alloc, front.as_slice())?)?;
        value = raise(&mut front);
    }
}

/// The one binding of no iterators, with which each table has all its rows.
fn join_whole(alloc: Global, tables: &[Table], limit: u64) -> Result<Joined, JoinFault>
    requires { HasRows tables.now [] }
    ensures all { IfOk result (λ joined. AreAllCandidates tables.now 0 joined.bindings) }
    ensures left { IfOk result
        (λ joined. joined.left + sum_by (links_at tables.now) joined.bindings ≡ limit) }
    ensures many { IfErr result (λ fault. fault ≡ Links → (bs : List (List ℕ))
        × (AreJoined tables.now 0 bs × (limit < sum_by (links_at tables.now) bs))) }
{
    let Some(left) = less_links(tables, &[], limit) else {
        return Err(JoinFault::Links);
    };
    let mut bindings = Items::new(Vec::new(alloc));
    bindings.push(Items::new(Vec::new(alloc)))?;
    Ok(Joined { bindings, left })
}

/// All candidates of some tables in order, and what their links leave of the limit. The columns of
/// the tables are numbers of iterators below `count`. `Links` exactly where the candidates have
/// more links than the limit.
pub fn join(alloc: Global, tables: &[Table], count: usize, limit: u64) -> Result<Joined, JoinFault>
    requires { 0 < length tables.now }
    ensures all { IfOk result (λ joined. AreAllCandidates tables.now count joined.bindings) }
    ensures left { IfOk result
        (λ joined. joined.left + sum_by (links_at tables.now) joined.bindings ≡ limit) }
    ensures many { IfErr result (λ fault. fault ≡ Links → (bs : List (List ℕ))
        × (AreJoined tables.now count bs × (limit < sum_by (links_at tables.now) bs))) }
{
    if !have_rows(tables) {
        let bindings = Items::new(Vec::new(alloc));
        return Ok(Joined {
            bindings,
            left: limit,
        });
    }
    if count == 0 {
        join_whole(alloc, tables, limit)
    } else {
        collect(alloc, tables, count, limit)
    }
}
