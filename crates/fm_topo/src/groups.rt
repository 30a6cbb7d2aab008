//! Paths grouped by their names: the places at which each text stands in a list of texts.

ghost use Rattle.std.specs.Prelude.{◌≡◌, ◌≤◌, ◌++◌, ◌∷◌, [], ℕ, List, length, bytes_eq, IfOk, OnOk};
ghost use Rattle.std.specs.Prelude.{if◌then◌else◌};
ghost use Rattle.fm_topo.specs.Groups.{names_text, numbers_at, text_places};

use fm_bytes::{Copies, Items, NoMemory, Text};
use fm_name::Fmri;
use std::alloc::Global;
use std::collections::BTreeMap;
use std::marker::Model;

/// The numbers of paths, grouped by the names of the paths, which are joined by slashes. Contracts
/// see these texts, each with its numbers.
#[derive(Debug, Drop)]
pub struct Groups {
    map: BTreeMap<Text, Items<u32>>,
}

impl Model for Groups {
    ghost use Rattle.std.specs.Prelude.{ℕ, List};

    ghost Value = { List (List ℕ × List ℕ) };

    ghost view = { λ g. g.map.entries };
}

/// Takes the places of a text out.
fn take_places(alloc: Global, map: &mut BTreeMap<Text, Items<u32>>, text: &Text) -> Items<u32>
    ensures places { result ≡ numbers_at map.old.entries text.now }
    ensures others { (q : List ℕ) → numbers_at map.new.entries q
        ≡ (if bytes_eq text.now q then [] else numbers_at map.old.entries q) }
{
    match map.remove(text) {
        Some(places) => places,
        None => Items::new(Vec::new(alloc)),
    }
}

/// Puts a place behind those of its text.
fn add_place(
    alloc: Global,
    map: &mut BTreeMap<Text, Items<u32>>,
    text: Text,
    at: u32,
) -> Result<(), NoMemory>
    ensures { OnOk result ((q : List ℕ) → numbers_at map.new.entries q
        ≡ (if bytes_eq text q then numbers_at map.old.entries q
        ++ at ∷ [] else numbers_at map.old.entries q)) }
{
    let mut places = take_places(alloc, map, &text);
    places.push(at)?;
    match map.insert(text, places) {
        Ok(_) => Ok(()),
        Err(_) => Err(NoMemory),
    }
}

/// The names of a path, joined by slashes.
#[tactic(auto, using(crate::proofs::Grouping::joined), unfolding(crate::specs::Groups::names_text))]
pub fn names_text(alloc: Global, path: &Fmri) -> Result<Text, NoMemory>
    ensures { IfOk result (λ text. text ≡ names_text path.now) }
{
    let names = path.names();
    let text = names.as_slice().join(alloc, "/")?;
    Text::new(alloc, &text)
}

impl Groups {
    /// The places of these texts, counted from 0, grouped by the texts.
    pub(crate) fn new(alloc: Global, texts: &[Text]) -> Result<Groups, NoMemory>
        requires { length texts.now ≤ 65536 }
        ensures { IfOk result
            (λ groups. (q : List ℕ) → numbers_at groups q ≡ text_places q 0 texts.now) }
    {
        let mut map = BTreeMap::new(alloc);
        'texts: for at in 0..texts.len() {
            let text = texts[at].copy(alloc)?;
            add_place(alloc, &mut map, text, at as u32)?;
        }
        Ok(Groups { map })
    }

    /// The numbers that are kept for a text, in the order in which they were put in. It takes as
    /// many comparisons as a search in a sorted list.
    pub fn numbers(&self, text: &Text) -> &[u32]
        ensures { result.now ≡ numbers_at self.now text.now }
    {
        match self.map.get(text) {
            Some(places) => places.as_slice(),
            None => &[],
        }
    }
}
