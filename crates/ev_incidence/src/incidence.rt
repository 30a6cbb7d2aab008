//! Instances and nodes by each other.

ghost use Rattle.std.specs.Prelude.{◌≡◌, ◌<◌, ◌^◌, ℕ, [], length, slice_index};
ghost use Rattle.std.specs.Prelude.{IfOk, OnOk};
ghost use Rattle.std.specs.List.{sum_by};
ghost use Rattle.ev_incidence.specs.Table.{row_at, AreRowsBelow, AreNoted, IsTranspose};
ghost use Rattle.ev_incidence.specs.Table.{IsTransposeOf};
ghost use Rattle.ev_incidence.specs.Table.{IncidenceValue, IsIncidence};

use crate::rows::Rows;
use fm_bytes::{Items, NoMemory};
use std::alloc::Global;
use std::marker::Model;

/// The instances as blocks, and for each node the instances that it is a cause of and those that it
/// is an effect of. It takes 8 bytes a link and a node and 16 an instance.
#[derive(Drop)]
pub struct Incidence {
    causes: Rows,
    effects: Rows,
    n: Vec<u32>,
    k: Vec<u32>,
    uses: Rows,
    gets: Rows,
}

impl Model for Incidence {
    ghost use Rattle.ev_incidence.specs.Table.{IncidenceValue, IsIncidence};

    ghost Value = { IncidenceValue };

    ghost view = { λ i. record {
      causes = i.causes;
      effects = i.effects;
      n = i.n.items;
      k = i.k.items;
      uses = i.uses;
      gets = i.gets;
    } };

    ghost invariant = { λ i. IsIncidence (record {
      causes = i.causes;
      effects = i.effects;
      n = i.n.items;
      k = i.k.items;
      uses = i.uses;
      gets = i.gets;
    }) };
}

impl Incidence {
    /// The incidence of instances with these causes, effects and numbers, among so many nodes.
    pub fn new(
        alloc: Global,
        nodes: u32,
        causes: Rows,
        effects: Rows,
        n: Vec<u32>,
        k: Vec<u32>,
    ) -> Result<Incidence, NoMemory>
        requires causes { AreRowsBelow nodes causes }
        requires effects { AreRowsBelow nodes effects }
        requires effects_count { length effects ≡ length causes }
        requires n_count { length n.items ≡ length causes }
        requires k_count { length k.items ≡ length causes }
        ensures causes { IfOk result (λ made. made.causes ≡ causes) }
        ensures effects { IfOk result (λ made. made.effects ≡ effects) }
        ensures n { IfOk result (λ made. made.n ≡ n.items) }
        ensures k { IfOk result (λ made. made.k ≡ k.items) }
        ensures nodes { IfOk result (λ made. length made.uses ≡ nodes) }
        ensures incidence { IfOk result (λ made. IsIncidence made) }
    {
        let uses = transposed(alloc, nodes, &causes)?;
        let gets = transposed(alloc, nodes, &effects)?;
        Ok(Incidence {
            causes,
            effects,
            n,
            k,
            uses,
            gets,
        })
    }

    /// An equal incidence.
    pub fn copy(&self, alloc: Global) -> Result<Incidence, NoMemory>
        ensures { IfOk result (λ made. made ≡ self.now) }
    {
        let causes = self.causes.copy(alloc)?;
        let effects = self.effects.copy(alloc)?;
        let n = Vec::from_slice(alloc, self.n.as_slice())?;
        let k = Vec::from_slice(alloc, self.k.as_slice())?;
        let uses = self.uses.copy(alloc)?;
        let gets = self.gets.copy(alloc)?;
        Ok(Incidence {
            causes,
            effects,
            n,
            k,
            uses,
            gets,
        })
    }

    /// How many instances there are.
    pub fn count(&self) -> usize
        ensures count { result ≡ length self.now.causes }
        ensures few { result < 2 ^ 32 }
        ensures incidence { IsIncidence self.now }
    {
        self.causes.len()
    }

    /// How many nodes there are.
    pub fn nodes(&self) -> usize
        ensures count { result ≡ length self.now.uses }
        ensures few { result < 2 ^ 32 }
        ensures incidence { IsIncidence self.now }
    {
        self.uses.len()
    }

    /// The causes of an instance; none past the end.
    pub fn causes(&self, place: u32) -> &[u32]
        ensures causes { result.now ≡ row_at self.now.causes place }
        ensures few { length result.now < 2 ^ 32 }
        ensures incidence { IsIncidence self.now }
    {
        self.causes.row(place)
    }

    /// The effects of an instance; none past the end.
    pub fn effects(&self, place: u32) -> &[u32]
        ensures effects { result.now ≡ row_at self.now.effects place }
        ensures few { length result.now < 2 ^ 32 }
        ensures incidence { IsIncidence self.now }
    {
        self.effects.row(place)
    }

    /// How many effects a cause of the instance must show; 0 past the end.
    pub fn n(&self, place: u32) -> u32
        ensures { result ≡ slice_index self.now.n place }
    {
        number_at(self.n.as_slice(), place)
    }

    /// How many causes an effect of the instance needs; 0 past the end.
    pub fn k(&self, place: u32) -> u32
        ensures { result ≡ slice_index self.now.k place }
    {
        number_at(self.k.as_slice(), place)
    }

    /// The instances that the node is a cause of; none past the end.
    pub fn uses(&self, node: u32) -> &[u32]
        ensures uses { result.now ≡ row_at self.now.uses node }
        ensures few { length result.now < 2 ^ 32 }
        ensures incidence { IsIncidence self.now }
    {
        self.uses.row(node)
    }

    /// The instances that the node is an effect of; none past the end.
    pub fn gets(&self, node: u32) -> &[u32]
        ensures gets { result.now ≡ row_at self.now.gets node }
        ensures few { length result.now < 2 ^ 32 }
        ensures incidence { IsIncidence self.now }
    {
        self.gets.row(node)
    }

    /// The lists that a search goes along from cause to effect: from nodes to instances, and on to
    /// nodes.
    pub fn forwards(&self) -> (&Rows, &Rows)
        ensures index { result.0.now ≡ self.now.uses }
        ensures rows { result.1.now ≡ self.now.effects }
        ensures incidence { IsIncidence self.now }
    {
        (&self.uses, &self.effects)
    }

    /// The lists that a search goes along from effect to cause.
    pub fn backwards(&self) -> (&Rows, &Rows)
        ensures index { result.0.now ≡ self.now.gets }
        ensures rows { result.1.now ≡ self.now.causes }
        ensures incidence { IsIncidence self.now }
    {
        (&self.gets, &self.causes)
    }
}

/// The number at a place, 0 past the end.
pub(crate) fn number_at(numbers: &[u32], place: u32) -> u32
    ensures { result ≡ slice_index numbers.now place }
{
    numbers.get(place as usize).copied().unwrap_or(0)
}

/// For each of so many numbers the rows in which it stands.
fn transposed(alloc: Global, count: u32, rows: &Rows) -> Result<Rows, NoMemory>
    requires { AreRowsBelow count rows.now }
    ensures count { IfOk result (λ index. length index ≡ count) }
    ensures index { IfOk result (λ index. IsTranspose rows.now index) }
{
    let mut lists = empty_lists(alloc, count)?;
    let index = gathered(alloc, rows, lists.as_mut_slice())?;
    Ok(index)
}

fn gathered(alloc: Global, rows: &Rows, lists: &mut [Items<u32>]) -> Result<Rows, NoMemory>
    requires below { AreRowsBelow (length lists.old) rows.now }
    requires empty { (e : ℕ) → row_at lists.old e ≡ [] }
    requires total { sum_by length lists.old ≡ 0 }
    ensures count { IfOk result (λ index. length index ≡ length lists.old) }
    ensures index { IfOk result (λ index. IsTranspose rows.now index) }
{
    note_all(rows, lists)?;
    let index = rows_of(alloc, lists)?;
    Ok(index)
}

fn empty_lists(alloc: Global, count: u32) -> Result<Vec<Items<u32>>, NoMemory>
    ensures count { IfOk result (λ lists. length lists.items ≡ count) }
    ensures empty { IfOk result (λ lists. (e : ℕ) → row_at lists.items e ≡ []) }
    ensures total { IfOk result (λ lists. sum_by length lists.items ≡ 0) }
{
    let mut lists = Vec::new(alloc);
    for _ in 0..count {
        lists.push(Items::new(Vec::new(alloc)))?;
    }
    Ok(lists)
}

/// Puts the place of each row into the lists of its members.
fn note_all(rows: &Rows, lists: &mut [Items<u32>]) -> Result<(), NoMemory>
    requires below { AreRowsBelow (length lists.old) rows.now }
    requires empty { (e : ℕ) → row_at lists.old e ≡ [] }
    requires total { sum_by length lists.old ≡ 0 }
    ensures { OnOk result (IsTransposeOf (length rows.now) rows.now lists.new) }
{
    let count = rows.len() as u32;
    for place in 0..count {
        note(rows.row(place), place, lists)?;
    }
    Ok(())
}

/// Puts a place into the lists of these members.
fn note(members: &[u32], place: u32, lists: &mut [Items<u32>]) -> Result<(), NoMemory>
    requires { (i : ℕ) → i < length members.now → slice_index members.now i < length lists.old }
    ensures { OnOk result (AreNoted members.now place lists.old lists.new) }
{
    for member in members {
        lists[*member as usize].push(place)?;
    }
    Ok(())
}

/// The lists in one block.
pub fn rows_of(alloc: Global, lists: &[Items<u32>]) -> Result<Rows, NoMemory>
    ensures { IfOk result (λ rows. rows ≡ lists.now) }
{
    let mut rows = Rows::new(alloc)?;
    for list in lists {
        rows.push(list.as_slice())?;
    }
    Ok(rows)
}
