//! Events and engines as a set looks for them: by class and names.
ghost use Rattle.std.specs.Prelude.{◌≡◌, ◌&&◌, ◌++◌, nat_eq, fold, zip};
ghost use Rattle.std.specs.Cmp.{on_per, on_equiv, partial_equiv_from_equiv};
ghost use Rattle.std.specs.Cmp.Lexicographic.{pointwise, lists_equiv, nat_list_eq_equiv};
ghost use Rattle.std.specs.Cmp.Lexicographic.{bytes_decides};
ghost use Rattle.std.specs.Hash as fed;
ghost use Rattle.std.specs.Hash.{and-Alike, on_Alike, items_Alike, same_Alike};
ghost use Rattle.std.specs.List.{flat_map, list_all};
ghost use Rattle.ev_words.specs.Iterators.{same_name};
ghost use Rattle.ev_check.specs.Declarations.{is_alike, class_names};

use ev_tree::{Declared, TreeText};
use ev_words::{both, is_same};
use std::hash::{Hash, Hasher};
use std::marker::Model;

/// An event or an engine that is known by its class and its names, so that a set can look for it.
/// Contracts see what is declared.
#[derive(Drop)]
pub(crate) struct Known {
    item: Declared,
}

impl Model for Known {
    ghost use Rattle.ev_tree.specs.declared.tree.Declared.{Declared};

    ghost Value = { Declared };

    ghost view = { λ k. k.item };
}

impl Known {
    /// What is declared, to be looked for.
    pub(crate) fn new(item: Declared) -> Known
        ensures { result ≡ item }
    {
        Known { item }
    }

    /// What is declared.
    pub(crate) fn get(&self) -> &Declared
        ensures { result.now ≡ self.now }
    {
        &self.item
    }
}

/// Whether each pair of names is the same, as far as both lists go.
fn all_same(names: &[TreeText], others: &[TreeText]) -> bool
    ensures { result ≡ list_all (λ p. same_name p.0 p.1) (zip names.now others.now) }
{
    names
        .iter()
        .zip(others)
        .all(|(name, other)| is_same(name, other))
}

/// Whether the names are as many, and each pair is the same.
#[tactic(auto, using(crate::proofs::Pairing::pairs_same))]
fn same_names(names: &[TreeText], others: &[TreeText]) -> bool
    ensures { result ≡ pointwise same_name names.now others.now }
{
    let paired = all_same(names, others);
    both(names.len() == others.len(), paired)
}

/// Whether both have the same class and the same names.
fn is_alike(one: &Declared, other: &Declared) -> bool
    ensures { result ≡ is_alike one.now other.now }
{
    let class = one.class == other.class;
    let names = same_names(one.names.as_slice(), other.names.as_slice());
    both(class, names)
}

/// Feeds each name to the hasher.
fn hash_each<H: Hasher>(names: &[TreeText], state: &mut H)
    ensures { state.new ≡ fold H.write state.old (flat_map fed.str names.now) }
{
    for name in names {
        name.get().hash(state);
    }
}

/// Feeds the names to the hasher, after their number.
fn hash_names<H: Hasher>(names: &[TreeText], state: &mut H)
    ensures { state.new ≡ fold H.write state.old (fed.slice fed.str names.now) }
{
    state.write_usize(names.len());
    hash_each(names, state);
}

impl PartialEq for Known {
    ghost eq = { is_alike };

    ghost laws = { on_per class_names (partial_equiv_from_equiv (lists_equiv nat_list_eq_equiv)) };

    fn eq(&self, other: &Known) -> bool {
        is_alike(&self.item, &other.item)
    }
}

impl Eq for Known {
    ghost laws = { on_equiv class_names (lists_equiv nat_list_eq_equiv) };
}

impl Hash for Known {
    ghost hash_input = { λ d. fed.str d.class ++ fed.slice fed.str d.names };

    ghost respects_eq = { (and-Alike (on_Alike (λ d. d.class) (same_Alike fed.str bytes_decides))
        (on_Alike (λ d. d.names) (items_Alike (same_Alike fed.str bytes_decides)))).fed };

    fn hash<H: Hasher>(&self, state: &mut H) {
        self.item.class.hash(state);
        hash_names(self.item.names.as_slice(), state);
    }
}
