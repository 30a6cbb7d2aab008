//! The candidates of a propagation.

ghost use Rattle.std.specs.Prelude.{◌≡◌, ◌+◌, ◌++◌, ◌<◌, [], ◌∷◌, List, ℕ, map, sum_by, length};
ghost use Rattle.std.specs.Prelude.{slice_get, Some, IfOk, IfErr, OnOk};
ghost use Rattle.ev_tree.specs.Pattern.{Pattern, view_pattern};
ghost use Rattle.ev_check.specs.CheckedFile.{view_prop};
ghost use Rattle.fm_topo.specs.Groups.{IsGrouped};
ghost use Rattle.ev_join.specs.Candidates.{AreAllCandidates, AreJoined, links_at};
ghost use Rattle.ev_join.specs.declared.join_fault.JoinFault.TheVariants.{Links};
ghost use Rattle.ev_events.specs.Names.{iterators, Knows, KnowSides};
ghost use Rattle.ev_events.specs.Bindings.{AreAllBindings, AreBindings, candidate_links};
ghost use Rattle.ev_events.specs.Bindings.{patterns_of};
ghost use Rattle.ev_events.specs.Sheets.{AreTablesOf};

use crate::names::{Iterators, iterators_of, turned_names};
use crate::sheets::table_of;
use crate::turned::{places_among, turned_back};
use ev_check::PropSpec;
use ev_join::{JoinFault, Joined, Table, in_order, join, search_order};
use ev_tree::SidePattern;
use fm_bytes::{Items, NoMemory};
use fm_topo::{Groups, Topo};
use std::alloc::Global;

/// The candidates of a propagation: its vertical iterators, a table of each pattern, those on the
/// left first, all candidates in order, each an instance for each iterator, and what is left of a
/// limit on their links.
#[derive(Drop)]
pub struct Candidates {
    pub names: Iterators,
    pub tables: Vec<Table>,
    pub bindings: Items<Items<u32>>,
    pub left: u64,
}

/// Adds the tables of patterns.
fn add_tables(
    alloc: Global,
    topo: &Topo,
    groups: &Groups,
    names: &Iterators,
    patterns: &[SidePattern],
    tables: &mut Vec<Table>,
) -> Result<(), NoMemory>
    requires groups { IsGrouped topo.now groups.now }
    requires names { (j : ℕ) (q : Pattern) → slice_get (map view_pattern patterns.now) j ≡ Some q
        → Knows names.now q.parts }
    ensures { OnOk result ((qs : List Pattern) → AreTablesOf topo.now names.now qs tables.old.items
        → AreTablesOf topo.now names.now (qs ++ map view_pattern patterns.now) tables.new.items) }
{
    for pattern in patterns {
        let table = table_of(alloc, topo, groups, names, pattern.parts.as_slice())?;
        tables.push(table)?;
    }
    Ok(())
}

/// The tables of a propagation.
fn tables_of(
    alloc: Global,
    topo: &Topo,
    groups: &Groups,
    names: &Iterators,
    prop: &PropSpec,
) -> Result<Vec<Table>, NoMemory>
    requires groups { IsGrouped topo.now groups.now }
    requires names { KnowSides names.now (view_prop prop.now) }
    ensures { IfOk result (λ tables.
        AreTablesOf topo.now names.now (patterns_of (view_prop prop.now)) tables.items) }
{
    let mut tables = Vec::new(alloc);
    add_tables(
        alloc,
        topo,
        groups,
        names,
        prop.left.as_slice(),
        &mut tables,
    )?;
    add_tables(
        alloc,
        topo,
        groups,
        names,
        prop.right.as_slice(),
        &mut tables,
    )?;
    Ok(tables)
}

/// All candidates of some tables. Without a table the empty binding is the one candidate.
fn joined_of(alloc: Global, tables: &[Table], count: usize, limit: u64) -> Result<Joined, JoinFault>
    ensures none { tables.now ≡ [] → IfOk result (λ joined.
        (joined.bindings ≡ [] ∷ []) × (joined.left ≡ limit)) }
    ensures one { tables.now ≡ [] → IfErr result (λ fault. fault ≡ Links → ⊥) }
    ensures all { 0 < length tables.now → IfOk result (λ joined.
        AreAllCandidates tables.now count joined.bindings) }
    ensures left { 0 < length tables.now → IfOk result (λ joined.
        joined.left + sum_by (links_at tables.now) joined.bindings ≡ limit) }
    ensures many { 0 < length tables.now → IfErr result (λ fault. fault ≡ Links
        → (bs : List (List ℕ))
        × (AreJoined tables.now count bs × (limit < sum_by (links_at tables.now) bs))) }
{
    if tables.is_empty() {
        let mut bindings = Items::new(Vec::new(alloc));
        bindings.push(Items::new(Vec::new(alloc)))?;
        return Ok(Joined {
            bindings,
            left: limit,
        });
    }
    join(alloc, tables, count, limit)
}

/// All candidates of a propagation that has a pattern, where the search takes its iterators in the
/// order of these numbers.
fn turned_join(
    alloc: Global,
    topo: &Topo,
    groups: &Groups,
    prop: &PropSpec,
    numbers: &[usize],
    limit: u64,
) -> Result<Joined, JoinFault>
    requires groups { IsGrouped topo.now groups.now }
    requires some { 0 < length (patterns_of (view_prop prop.now)) }
    ensures all { IfOk result
        (λ joined. AreAllBindings topo.now (view_prop prop.now) joined.bindings) }
    ensures left { IfOk result (λ joined. joined.left
        + sum_by (candidate_links topo.now (view_prop prop.now)) joined.bindings ≡ limit) }
    ensures many { IfErr result (λ fault. fault ≡ Links → (bs : List (List ℕ))
        × (AreBindings topo.now (view_prop prop.now) bs
        × (limit < sum_by (candidate_links topo.now (view_prop prop.now)) bs))) }
{
    let names = iterators_of(alloc, prop)?;
    let turned = turned_names(alloc, &names, numbers)?;
    let tables = tables_of(alloc, topo, groups, &turned, prop)?;
    let places = places_among(alloc, &turned, &names)?;
    match join(alloc, &tables, turned.len(), limit) {
        Ok(Joined { bindings, left }) => {
            let found = turned_back(alloc, &places, bindings.as_slice())?;
            let bindings = in_order(found)?;
            Ok(Joined { bindings, left })
        }
        Err(fault) => Err(fault),
    }
}

/// All candidates of a propagation over a topology, whose paths are grouped by their names. `Links`
/// exactly where the candidates have more links than the limit.
pub fn candidates_of(
    alloc: Global,
    topo: &Topo,
    groups: &Groups,
    prop: &PropSpec,
    limit: u64,
) -> Result<Candidates, JoinFault>
    requires { IsGrouped topo.now groups.now }
    ensures names { IfOk result (λ found. found.names ≡ iterators (view_prop prop.now)) }
    ensures tables { IfOk result (λ found. AreTablesOf topo.now (iterators (view_prop prop.now))
        (patterns_of (view_prop prop.now)) found.tables.items) }
    ensures all { IfOk result
        (λ found. AreAllBindings topo.now (view_prop prop.now) found.bindings) }
    ensures left { IfOk result (λ found. found.left
        + sum_by (candidate_links topo.now (view_prop prop.now)) found.bindings ≡ limit) }
    ensures many { IfErr result (λ fault. fault ≡ Links → (bs : List (List ℕ))
        × (AreBindings topo.now (view_prop prop.now) bs
        × (limit < sum_by (candidate_links topo.now (view_prop prop.now)) bs))) }
{
    let names = iterators_of(alloc, prop)?;
    let tables = tables_of(alloc, topo, groups, &names, prop)?;
    let numbers = search_order(alloc, &tables, names.len())?;
    if !tables.is_empty() && !numbers.is_sorted() {
        let Joined { bindings, left } = turned_join(alloc, topo, groups, prop, &numbers, limit)?;
        return Ok(Candidates {
            names,
            tables,
            bindings,
            left,
        });
    }
    match joined_of(alloc, &tables, names.len(), limit) {
        Ok(Joined { bindings, left }) => Ok(Candidates {
            names,
            tables,
            bindings,
            left,
        }),
        Err(fault) => Err(fault),
    }
}
