//! Names in the order in which they came, each once.

ghost use Rattle.std.specs.Prelude.{◌≡◌, [], nat_eq, length, map, option_copied, slice_get};
ghost use Rattle.std.specs.Prelude.{IfOk, OnOk};
ghost use Rattle.std.specs.Cmp.{partial_equiv_from_equiv};
ghost use Rattle.std.specs.Cmp.Lexicographic.{pointwise, nat_list_eq_equiv, bytes_decides};
ghost use Rattle.std.specs.Hash as fed;
ghost use Rattle.std.specs.Hash.{same_Alike};
ghost use Rattle.ev_tree.specs.Pattern.{view_pattern};
ghost use Rattle.ev_check.specs.CheckedFile.{view_prop};
ghost use Rattle.ev_words.specs.Iterators.{same_name};
ghost use Rattle.ev_events.specs.Names.{iterator_of, with_name, with_any, with_parts};
ghost use Rattle.ev_events.specs.Names.{with_patterns, iterators};
ghost use Rattle.ev_events.specs.Slots.{first_place};
ghost use Rattle.ev_events.specs.Turned.{turned_names, with_names, with_numbered};

use ev_check::PropSpec;
use ev_tree::{At, Part, SidePattern};
use fm_bytes::{Copies, NoMemory, Text};
use indexmap::IndexSet;
use std::alloc::Global;
use std::hash::{Hash, Hasher};
use std::marker::Model;

/// A name that a set can look for. Contracts see its bytes.
#[derive(Drop)]
pub(crate) struct KnownName {
    name: Text,
}

impl Model for KnownName {
    ghost use Rattle.std.specs.Prelude.{ℕ, List};

    ghost Value = { List ℕ };

    ghost view = { λ k. k.name };
}

impl PartialEq for KnownName {
    ghost eq = { pointwise nat_eq };

    ghost laws = { partial_equiv_from_equiv nat_list_eq_equiv };

    fn eq(&self, other: &KnownName) -> bool {
        self.name == other.name
    }
}

impl Eq for KnownName {
    ghost laws = { nat_list_eq_equiv };
}

impl Hash for KnownName {
    ghost hash_input = { fed.str };

    ghost respects_eq = { (same_Alike fed.str bytes_decides).fed };

    fn hash<H: Hasher>(&self, state: &mut H) {
        self.name.get().hash(state);
    }
}

impl KnownName {
    /// The same name, to be looked for.
    fn new(alloc: Global, name: &Text) -> Result<KnownName, NoMemory>
        ensures { IfOk result (λ known. known ≡ name.now) }
    {
        let name = name.copy(alloc)?;
        Ok(KnownName { name })
    }
}

/// Names, each once, in the order in which they came: the place of a name is its number. Contracts
/// see the list.
#[derive(Drop)]
pub struct Iterators {
    names: IndexSet<KnownName>,
}

impl Model for Iterators {
    ghost use Rattle.std.specs.Prelude.{ℕ, List};

    ghost Value = { List (List ℕ) };

    ghost view = { λ i. i.names.keys };
}

impl Iterators {
    /// No name.
    fn new(alloc: Global) -> Iterators
        ensures { result ≡ [] }
    {
        Iterators {
            names: IndexSet::new(alloc),
        }
    }

    /// How many names there are.
    pub fn len(&self) -> usize
        ensures { result ≡ length self.now }
    {
        self.names.len()
    }

    /// The name of a number.
    pub fn name(&self, number: usize) -> Option<&Text>
        ensures { option_copied result ≡ slice_get self.now number }
    {
        match self.names.get_index(number) {
            Some(known) => Some(&known.name),
            None => None,
        }
    }

    /// The number of a name; 0 where it is none of them.
    pub(crate) fn number(&self, alloc: Global, name: &Text) -> Result<usize, NoMemory>
        ensures { IfOk result (λ number. number ≡ first_place (same_name name.now) self.now) }
    {
        let known = KnownName::new(alloc, name)?;
        Ok(self.number_of(&known))
    }

    /// The number of a name that is known; 0 where it is none of them.
    pub(crate) fn number_of(&self, known: &KnownName) -> usize
        ensures { result ≡ first_place (same_name known.now) self.now }
    {
        match self.names.get_index_of(known) {
            Some(number) => number,
            None => 0,
        }
    }

    /// The names, in order.
    pub(crate) fn known(&self) -> &[KnownName]
        ensures { result.now ≡ self.now }
    {
        self.names.as_slice()
    }

    /// Puts a name behind the others, where it is none of them.
    fn add(&mut self, alloc: Global, name: &Text) -> Result<(), NoMemory>
        ensures { OnOk result (self.new ≡ with_name self.old name.now) }
    {
        let known = KnownName::new(alloc, name)?;
        self.names.insert(known)?;
        Ok(())
    }
}

/// Adds a name, where there is one.
fn add_any(alloc: Global, name: Option<&Text>, names: &mut Iterators) -> Result<(), NoMemory>
    ensures { OnOk result (names.new ≡ with_any names.old (option_copied name.entry)) }
{
    match name {
        Some(name) => names.add(alloc, name),
        None => Ok(()),
    }
}

/// Adds the names that have these numbers among others.
fn add_numbered(
    alloc: Global,
    others: &Iterators,
    numbers: &[usize],
    names: &mut Iterators,
) -> Result<(), NoMemory>
    ensures { OnOk result (names.new ≡ with_numbered names.old others.now numbers.now) }
{
    for number in numbers {
        add_any(alloc, others.name(*number), names)?;
    }
    Ok(())
}

/// Adds names.
fn add_names(alloc: Global, others: &[KnownName], names: &mut Iterators) -> Result<(), NoMemory>
    ensures { OnOk result (names.new ≡ with_names names.old others.now) }
{
    for known in others {
        names.add(alloc, &known.name)?;
    }
    Ok(())
}

/// The same names, those of these numbers first.
pub(crate) fn turned_names(
    alloc: Global,
    names: &Iterators,
    numbers: &[usize],
) -> Result<Iterators, NoMemory>
    ensures { IfOk result (λ turned. turned ≡ turned_names names.now numbers.now) }
{
    let mut turned = Iterators::new(alloc);
    add_numbered(alloc, names, numbers, &mut turned)?;
    add_names(alloc, names.known(), &mut turned)?;
    Ok(turned)
}

/// The vertical iterator of a part, where it has one.
pub(crate) fn iterator_of(part: &Part) -> Option<&Text>
    ensures { option_copied result ≡ iterator_of part.now }
{
    match &part.at {
        At::Bare => Some(&part.name),
        At::Down(name) => Some(name),
        _ => None,
    }
}

/// Adds the vertical iterator of a part.
fn add_part(alloc: Global, part: &Part, names: &mut Iterators) -> Result<(), NoMemory>
    ensures { OnOk result (names.new ≡ with_any names.old (iterator_of part.now)) }
{
    add_any(alloc, iterator_of(part), names)
}

/// Adds the vertical iterators of parts.
fn add_parts(alloc: Global, parts: &[Part], names: &mut Iterators) -> Result<(), NoMemory>
    ensures { OnOk result (names.new ≡ with_parts names.old parts.now) }
{
    for part in parts {
        add_part(alloc, part, names)?;
    }
    Ok(())
}

/// Adds the vertical iterators of patterns.
fn add_patterns(
    alloc: Global,
    patterns: &[SidePattern],
    names: &mut Iterators,
) -> Result<(), NoMemory>
    ensures { OnOk result (names.new ≡ with_patterns names.old (map view_pattern patterns.now)) }
{
    for pattern in patterns {
        add_parts(alloc, pattern.parts.as_slice(), names)?;
    }
    Ok(())
}

/// The vertical iterators of a propagation, in order of first appearance.
pub fn iterators_of(alloc: Global, prop: &PropSpec) -> Result<Iterators, NoMemory>
    ensures { IfOk result (λ names. names ≡ iterators (view_prop prop.now)) }
{
    let mut names = Iterators::new(alloc);
    add_patterns(alloc, prop.left.as_slice(), &mut names)?;
    add_patterns(alloc, prop.right.as_slice(), &mut names)?;
    Ok(names)
}
