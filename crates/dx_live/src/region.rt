//! The part of a graph that one root reaches, with numbers of its own.

ghost use Rattle.std.specs.Prelude.{◌≡◌, ◌<◌, ◌≤◌, ◌^◌, ℕ, true, map, length, slice_index, IfOk};
ghost use Rattle.std.specs.Prelude.{◌==◌, ◌&&◌, IfSome, None, OnOk, false, nat_lt};
ghost use Rattle.ev_incidence.specs.Sets.{is_member, ascends};
ghost use Rattle.ev_incidence.specs.Table.{IsIncidence, wiring_of};
ghost use Rattle.dx_live.specs.Region.{IsLocalRow, AreLocalRows, IsLocalTable, IsRegionOf};
ghost use Rattle.dx_live.specs.Region.{IsPartOf, AreNumbersBelow, IsWholeOf};
ghost use Rattle.dx_live.specs.Region.{table_over, region_over};

use ev_graph::NoMemory;
use ev_incidence::{Incidence, Marked, Rows, search};
use std::alloc::Global;
use std::marker::Model;
use std::sync::Arc;

/// What a root reaches: its nodes and instances, ascending, and what the instances say of places
/// among the nodes. It takes 12 bytes a node, 20 an instance and 8 a link, of what is reached.
/// Where that is more than half of the instances of a graph, the part is the whole graph, of which
/// the incidence serves: it takes 4 bytes a node and 4 an instance then.
#[derive(Drop)]
struct Part {
    nodes: Vec<u32>,
    places: Vec<u32>,
    /// What the instances say, none for the whole graph.
    own: Option<Incidence>,
}

impl Model for Part {
    ghost use Rattle.dx_live.specs.Region.{KeptRegion};

    ghost Value = { KeptRegion };

    ghost use Rattle.std.specs.Prelude.{◌≡◌, ◌<◌, ◌^◌, true, length};
    ghost use Rattle.ev_incidence.specs.Sets.{ascends};

    ghost view = { λ p. record {
      nodes = p.nodes.items;
      places = p.places.items;
      own = p.own;
    } };

    ghost invariant = { λ p.
        (ascends p.nodes.items ≡ true) × (length p.nodes.items < 2 ^ 32)
        × (ascends p.places.items ≡ true) × (length p.places.items < 2 ^ 32) };
}

/// The numbers, ascending, each once.
fn ascending_of(alloc: Global, numbers: &[u32]) -> Result<Vec<u32>, NoMemory>
    ensures ascend { IfOk result (λ list. ascends list.items ≡ true) }
    ensures same { IfOk result
        (λ list. (e : ℕ) → is_member list.items e ≡ is_member numbers.now e) }
    ensures few { IfOk result (λ list. length list.items ≤ length numbers.now) }
{
    let mut list = Vec::from_slice(alloc, numbers)?;
    list.sort_unstable();
    list.dedup();
    Ok(list)
}

/// The number at a place, 0 past the end.
pub(crate) fn number_at(numbers: &[u32], place: u32) -> u32
    ensures { result ≡ slice_index numbers.now place }
{
    numbers.get(place as usize).copied().unwrap_or(0)
}

/// The place of a number in ascending numbers.
pub(crate) fn place_among(nodes: &[u32], node: u32) -> Option<u32>
    requires up { ascends nodes.now ≡ true }
    requires few { length nodes.now < 2 ^ 32 }
    ensures found { IfSome result (λ at. (at < length nodes.now)
        × (slice_index nodes.now at ≡ node)) }
    ensures none { result ≡ None → is_member nodes.now node ≡ false }
{
    match nodes.binary_search(&node) {
        Ok(at) => Some(at as u32),
        Err(_) => None,
    }
}

fn note_places(nodes: &[u32], noted: &mut [u32])
    requires few { length nodes.now < 2 ^ 32 }
    requires below { (i : ℕ) → i < length nodes.now
        → slice_index nodes.now i < length noted.old }
{
    for place in 0..nodes.len() {
        noted[nodes[place] as usize] = place as u32;
    }
}

/// What is above each of ascending numbers.
fn past_last(nodes: &[u32]) -> usize
    requires { ascends nodes.now ≡ true }
    ensures { (i : ℕ) → i < length nodes.now → slice_index nodes.now i < result }
{
    if nodes.is_empty() {
        return 0;
    }
    nodes[nodes.len() - 1] as usize + 1
}

/// For each of ascending numbers its place among them; what stands for a number between them says
/// nothing. None is noted where they are few beside the greatest: to seek each takes less time
/// then.
fn places_of(alloc: Global, nodes: &[u32]) -> Result<Vec<u32>, NoMemory>
    requires up { ascends nodes.now ≡ true }
    requires few { length nodes.now < 2 ^ 32 }
{
    let size = past_last(nodes);
    if nodes.len() < size / 16 {
        return Ok(Vec::new(alloc));
    }
    let mut noted = vec![in alloc; 0; size]?;
    note_places(nodes, noted.as_mut_slice());
    Ok(noted)
}

fn stands_at(nodes: &[u32], at: u32, node: u32) -> bool
    ensures { result ≡ (nat_lt at (length nodes.now) && slice_index nodes.now at == node) }
{
    (at as usize) < nodes.len() && nodes[at as usize] == node
}

/// The place of a number: the one that is noted, or else by a search.
fn place_noted(noted: &[u32], nodes: &[u32], node: u32) -> Option<u32>
    requires up { ascends nodes.now ≡ true }
    requires few { length nodes.now < 2 ^ 32 }
    ensures found { IfSome result (λ at. (at < length nodes.now)
        × (slice_index nodes.now at ≡ node)) }
    ensures none { result ≡ None → is_member nodes.now node ≡ false }
{
    let at = number_at(noted, node);
    if stands_at(nodes, at, node) {
        Some(at)
    } else {
        place_among(nodes, node)
    }
}

/// Leaves in the row just the members that are among the nodes, by their places there.
fn local_row(
    noted: &[u32],
    nodes: &[u32],
    members: &[u32],
    row: &mut Vec<u32>,
) -> Result<(), NoMemory>
    requires up { ascends nodes.now ≡ true }
    requires few { length nodes.now < 2 ^ 32 }
    ensures { OnOk result (IsLocalRow nodes.now members.now row.new.items) }
{
    row.clear();
    for member in members {
        match place_noted(noted, nodes, *member) {
            Some(at) => row.push(at)?,
            None => {}
        }
    }
    Ok(())
}

fn local_causes(
    alloc: Global,
    table: &Incidence,
    noted: &[u32],
    nodes: &[u32],
    places: &[u32],
) -> Result<Rows, NoMemory>
    requires up { ascends nodes.now ≡ true }
    requires few { length nodes.now < 2 ^ 32 }
    ensures { IfOk result (λ rows.
        AreLocalRows (length places.now) table.now.causes nodes.now places.now rows) }
{
    let mut rows = Rows::new(alloc)?;
    let mut row = Vec::new(alloc);
    for place in places {
        local_row(noted, nodes, table.causes(*place), &mut row)?;
        rows.push(row.as_slice())?;
    }
    Ok(rows)
}

fn local_effects(
    alloc: Global,
    table: &Incidence,
    noted: &[u32],
    nodes: &[u32],
    places: &[u32],
) -> Result<Rows, NoMemory>
    requires up { ascends nodes.now ≡ true }
    requires few { length nodes.now < 2 ^ 32 }
    ensures { IfOk result (λ rows.
        AreLocalRows (length places.now) table.now.effects nodes.now places.now rows) }
{
    let mut rows = Rows::new(alloc)?;
    let mut row = Vec::new(alloc);
    for place in places {
        local_row(noted, nodes, table.effects(*place), &mut row)?;
        rows.push(row.as_slice())?;
    }
    Ok(rows)
}

fn shown_of(alloc: Global, table: &Incidence, places: &[u32]) -> Result<Vec<u32>, NoMemory>
    ensures { IfOk result
        (λ list. list.items ≡ map (λ j. slice_index table.now.n j) places.now) }
{
    let numbers = places.iter().map(|place| table.n(*place)).collect(alloc)?;
    Ok(numbers)
}

fn needed_of(alloc: Global, table: &Incidence, places: &[u32]) -> Result<Vec<u32>, NoMemory>
    ensures { IfOk result
        (λ list. list.items ≡ map (λ j. slice_index table.now.k j) places.now) }
{
    let numbers = places.iter().map(|place| table.k(*place)).collect(alloc)?;
    Ok(numbers)
}

/// The incidence of these instances among these nodes, by places.
fn local_table(
    alloc: Global,
    table: &Incidence,
    nodes: &[u32],
    places: &[u32],
) -> Result<Incidence, NoMemory>
    requires up { ascends nodes.now ≡ true }
    requires few { length nodes.now < 2 ^ 32 }
    ensures { IfOk result (λ made. IsLocalTable table.now nodes.now places.now made) }
{
    let noted = places_of(alloc, nodes)?;
    let causes = local_causes(alloc, table, noted.as_slice(), nodes, places)?;
    let effects = local_effects(alloc, table, noted.as_slice(), nodes, places)?;
    let n = shown_of(alloc, table, places)?;
    let k = needed_of(alloc, table, places)?;
    let made = Incidence::new(alloc, nodes.len() as u32, causes, effects, n, k)?;
    Ok(made)
}

/// Puts the numbers below a count.
fn put_numbers(count: usize, numbers: &mut [u32])
    requires size { length numbers.old ≡ count }
    requires few { count < 2 ^ 32 }
    ensures numbers { AreNumbersBelow count numbers.new }
    ensures ascend { ascends numbers.new ≡ true }
{
    for place in 0..count {
        numbers[place] = place as u32;
    }
}

/// The numbers below a count.
fn numbers_below(alloc: Global, count: usize) -> Result<Vec<u32>, NoMemory>
    requires few { count < 2 ^ 32 }
    ensures numbers { IfOk result (λ list. AreNumbersBelow count list.items) }
    ensures ascend { IfOk result (λ list. ascends list.items ≡ true) }
{
    let mut numbers = vec![in alloc; 0; count]?;
    put_numbers(count, numbers.as_mut_slice());
    Ok(numbers)
}

/// The whole graph of an incidence.
fn whole(alloc: Global, table: &Incidence) -> Result<Part, NoMemory>
    ensures { IfOk result (λ part. IsWholeOf table.now part) }
{
    let nodes = numbers_below(alloc, table.nodes())?;
    let places = numbers_below(alloc, table.count())?;
    Ok(Part {
        nodes,
        places,
        own: None,
    })
}

/// Whether there are more than half of the instances.
fn are_most(places: &[u32], table: &Incidence) -> bool {
    places.len() > table.count() / 2
}

impl Part {
    /// The part that a node reaches.
    fn new(alloc: Global, table: &Incidence, root: u32) -> Result<Part, NoMemory>
        requires { root < length table.now.uses }
        ensures region { IfOk result
            (λ part. IsRegionOf (wiring_of table.now) root (region_over table.now part)) }
        ensures part { IfOk result (λ part. IsPartOf table.now (region_over table.now part)) }
        ensures local { IfOk result (λ part.
            IsLocalTable table.now part.nodes part.places (table_over table.now part.own)) }
    {
        let mut reached = Marked::new(alloc, table.nodes())?;
        let mut taken = Marked::new(alloc, table.count())?;
        let (index, rows) = table.forwards();
        search(index, rows, &[root], &mut reached, &mut taken)?;
        if are_most(taken.as_slice(), table) {
            let part = whole(alloc, table)?;
            return Ok(part);
        }
        let nodes = ascending_of(alloc, reached.as_slice())?;
        let places = ascending_of(alloc, taken.as_slice())?;
        let table = local_table(alloc, table, nodes.as_slice(), places.as_slice())?;
        Ok(Part {
            nodes,
            places,
            own: Some(table),
        })
    }

    /// The nodes, ascending.
    fn nodes(&self) -> &[u32]
        ensures nodes { result.now ≡ self.now.nodes }
        ensures ascend { ascends self.now.nodes ≡ true }
        ensures few { length self.now.nodes < 2 ^ 32 }
    {
        self.nodes.as_slice()
    }

    /// The instances, ascending.
    fn places(&self) -> &[u32]
        ensures places { result.now ≡ self.now.places }
        ensures ascend { ascends self.now.places ≡ true }
        ensures few { length self.now.places < 2 ^ 32 }
    {
        self.places.as_slice()
    }

    /// The incidence by local numbers, where this is the one of the graph.
    fn table<'a>(&'a self, whole: &'a Incidence) -> &'a Incidence
        ensures { result.now ≡ table_over whole.now self.now.own }
    {
        match &self.own {
            Some(table) => table,
            None => whole,
        }
    }
}

/// A part that a root reaches. It never changes, and its copies share it.
#[derive(Drop)]
pub struct Region {
    part: Arc<Part>,
}

impl Model for Region {
    ghost use Rattle.dx_live.specs.Region.{KeptRegion};

    ghost Value = { KeptRegion };

    ghost view = { λ r. r.part.value };
}

impl Region {
    /// The part that a node reaches. It takes the time of what is reached and that of sorting it,
    /// or the time of the graph if that is reached for the most part; while it runs, it takes 5
    /// bytes for each node and one for each instance of the graph.
    pub fn new(alloc: Global, table: &Incidence, root: u32) -> Result<Region, NoMemory>
        requires { root < length table.now.uses }
        ensures region { IfOk result
            (λ part. IsRegionOf (wiring_of table.now) root (region_over table.now part)) }
        ensures part { IfOk result (λ part. IsPartOf table.now (region_over table.now part)) }
        ensures local { IfOk result (λ part.
            IsLocalTable table.now part.nodes part.places (table_over table.now part.own)) }
    {
        let part = Part::new(alloc, table, root)?;
        let part = Arc::new(alloc, part)?;
        Ok(Region { part })
    }

    /// An equal region. It takes no memory: it is want of memory alone where 2^63 share one part.
    pub fn copy(&self) -> Result<Region, NoMemory>
        ensures { IfOk result (λ part. part ≡ self.now) }
    {
        let part = self.part.clone()?;
        Ok(Region { part })
    }

    /// The nodes, ascending.
    pub fn nodes(&self) -> &[u32]
        ensures nodes { result.now ≡ self.now.nodes }
        ensures ascend { ascends self.now.nodes ≡ true }
        ensures few { length self.now.nodes < 2 ^ 32 }
    {
        self.part.nodes()
    }

    /// The instances, ascending.
    pub fn places(&self) -> &[u32]
        ensures places { result.now ≡ self.now.places }
        ensures ascend { ascends self.now.places ≡ true }
        ensures few { length self.now.places < 2 ^ 32 }
    {
        self.part.places()
    }

    /// The incidence of the part by local numbers, where this is the one of the graph.
    pub fn table<'a>(&'a self, whole: &'a Incidence) -> &'a Incidence
        ensures { result.now ≡ table_over whole.now self.now.own }
    {
        self.part.table(whole)
    }
}
