//! Declared events and engines at the paths of a topology with their names.

ghost use Rattle.std.specs.Prelude.{◌≡◌, ◌≤◌, List, ℕ, Some, codes, length, map, slice_get, zip};
ghost use Rattle.std.specs.Prelude.{IfOk, MatchOption, OnOk, if◌then◌else◌};
ghost use Rattle.std.specs.Cmp.Lexicographic.{pointwise};
ghost use Rattle.std.specs.List.{join_by, list_all};
ghost use Rattle.std.specs.Map.{keys_of, values_of};
ghost use Rattle.fm_name.specs.Path.{names_of};
ghost use Rattle.fm_name.specs.declared.events.EventName.{EventName as Name};
ghost use Rattle.fm_topo.specs.Groups.{IsGrouped, group_of};
ghost use Rattle.ev_words.specs.Iterators.{same_name};
ghost use Rattle.ev_events.specs.Placed as placing;
ghost use Rattle.ev_events.specs.Placed.{AreKept, AreMore, ArePlaced, is_name_at, is_that_name};
ghost use Rattle.ev_events.specs.Placed.{names_joined, number_of_name};

use ev_tree::{Declared, TreeText};
use fm_bytes::{NoMemory, Text};
use fm_name::{Class, EventName, Fmri};
use fm_topo::{Groups, Topo};
use std::alloc::Global;
use std::collections::BTreeMap;

/// The names of declared events, or of declared engines, at all paths with their names, in event
/// order, and for each the number of the declared one.
#[derive(Drop)]
pub(crate) struct Places {
    pub(crate) names: Vec<EventName>,
    pub(crate) numbers: Vec<u32>,
}

/// Whether each pair of names is the same, as far as both lists go.
fn are_names(own: &[&str], names: &[TreeText]) -> bool
    ensures { result ≡ list_all (λ p. same_name p.0.now p.1) (zip own.now names.now) }
{
    own.iter()
        .zip(names)
        .all(|(name, other)| *name == other.get())
}

/// Whether a path has the names.
fn has_names(names: &[TreeText], path: &Fmri) -> bool
    ensures { result ≡ pointwise same_name (names_of path.now) names.now }
{
    let own = path.names();
    let paired = are_names(own.as_slice(), names);
    if own.len() == names.len() {
        paired
    } else {
        false
    }
}

/// The event of a class at a path.
pub(crate) fn name_at(class: &Class, path: &Fmri) -> Result<EventName, NoMemory>
    ensures { IfOk result (λ name. name ≡ record { class = class.now; path = path.now }) }
{
    let class = class.copy()?;
    let path = path.copy()?;
    Ok(EventName { class, path })
}

/// The declared one at a path, where the path has its names.
fn event_on(declared: &Declared, path: &Fmri) -> Result<Option<EventName>, NoMemory>
    ensures { IfOk result (λ name. name ≡ placing.event_at declared.now (Some path.now)) }
{
    if has_names(declared.names.as_slice(), path) {
        let name = name_at(&declared.class, path)?;
        Ok(Some(name))
    } else {
        Ok(None)
    }
}

/// The declared one at the path of a number, where there is such a path with its names.
fn event_at(topo: &Topo, declared: &Declared, at: u32) -> Result<Option<EventName>, NoMemory>
    ensures { IfOk result (λ name. name
        ≡ placing.event_at declared.now (slice_get (keys_of topo.now) at)) }
{
    if (at as usize) < topo.len() {
        event_on(declared, topo.path(at as usize))
    } else {
        Ok(None)
    }
}

/// Keeps a number for a name, where there is one.
fn put(
    found: &mut BTreeMap<EventName, u32>,
    name: Option<EventName>,
    number: u32,
) -> Result<(), NoMemory>
    ensures { OnOk result ((q : Name) → number_of_name found.new.entries q
        ≡ (if is_that_name name q then Some number else number_of_name found.old.entries q)) }
{
    let Some(name) = name else {
        return Ok(());
    };
    match found.insert(name, number) {
        Ok(_) => Ok(()),
        Err(_) => Err(NoMemory),
    }
}

/// Keeps the number of a declared one for its names at the paths of these numbers.
fn put_all(
    topo: &Topo,
    declared: &Declared,
    number: u32,
    ats: &[u32],
    found: &mut BTreeMap<EventName, u32>,
) -> Result<(), NoMemory>
    ensures { OnOk result ((q : Name) → number_of_name found.new.entries q
        ≡ (if is_name_at topo.now declared.now ats.now q then Some number
        else number_of_name found.old.entries q)) }
{
    'ats: for at in ats {
        let name = event_at(topo, declared, *at)?;
        put(found, name, number)?;
    }
    Ok(())
}

/// The names as texts.
fn texts_of<'a>(alloc: Global, names: &'a [TreeText]) -> Result<Vec<&'a str>, NoMemory>
    ensures { IfOk result (λ texts. map (λ t. t.now) texts.items ≡ names.now) }
{
    let mut texts = Vec::new(alloc);
    for name in names {
        texts.push(name.get())?;
    }
    Ok(texts)
}

/// The names, joined by slashes.
#[tactic(auto, using(fm_topo::proofs::Grouping::joined))]
fn names_joined(alloc: Global, names: &[TreeText]) -> Result<Text, NoMemory>
    ensures { IfOk result (λ text. text ≡ names_joined names.now) }
{
    let texts = texts_of(alloc, names)?;
    let text = texts.as_slice().join(alloc, "/")?;
    Text::new(alloc, &text)
}

/// Keeps the number of a declared one for its names at all paths with them.
fn put_declared(
    alloc: Global,
    topo: &Topo,
    groups: &Groups,
    declared: &Declared,
    number: u32,
    found: &mut BTreeMap<EventName, u32>,
) -> Result<(), NoMemory>
    requires { IsGrouped topo.now groups.now }
    ensures { OnOk result ((q : Name) → number_of_name found.new.entries q
        ≡ (if is_name_at topo.now declared.now
        (group_of (names_joined declared.now.names) topo.now) q then Some number
        else number_of_name found.old.entries q)) }
{
    let text = names_joined(alloc, declared.names.as_slice())?;
    put_all(topo, declared, number, groups.numbers(&text), found)
}

/// What is kept, as two lists.
fn places_from(alloc: Global, found: BTreeMap<EventName, u32>) -> Result<Places, NoMemory>
    ensures names { IfOk result (λ places. places.names.items ≡ keys_of found.entries) }
    ensures numbers { IfOk result (λ places. places.numbers.items ≡ values_of found.entries) }
{
    let mut names = Vec::new(alloc);
    let mut numbers = Vec::new(alloc);
    for (name, number) in found {
        names.push(name)?;
        numbers.push(number)?;
    }
    Ok(Places { names, numbers })
}

/// The declared ones at all paths with their names, in event order; None exactly where there are
/// more than the limit. No more is kept than the limit and those of one of them.
pub(crate) fn placed_of(
    alloc: Global,
    topo: &Topo,
    groups: &Groups,
    declared: &[&Declared],
    limit: usize,
) -> Result<Option<Places>, NoMemory>
    requires { IsGrouped topo.now groups.now }
    ensures { IfOk result (λ found. MatchOption found
        (AreMore topo.now (map (λ d. d.now) declared.now) limit)
        (λ places. ArePlaced topo.now (map (λ d. d.now) declared.now) places.names.items
        places.numbers.items × (length places.names.items ≤ limit))) }
{
    let mut found = BTreeMap::new(alloc);
    'declared: for at in 0..declared.len() {
        if at > 4_294_967_295 {
            return Err(NoMemory);
        }
        put_declared(alloc, topo, groups, declared[at], at as u32, &mut found)?;
        if found.len() > limit {
            return Ok(None);
        }
    }
    let places = places_from(alloc, found)?;
    Ok(Some(places))
}
