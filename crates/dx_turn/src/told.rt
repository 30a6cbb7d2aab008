//! What a turn has said so far.

ghost use Rattle.std.specs.Prelude.{◌≡◌, ◌++◌, ◌∷◌, [], map, IfOk, OnOk};
ghost use Rattle.dx_explain.specs.Cases.{broken_of};
ghost use Rattle.dx_case.specs.Cases.{open_of};
ghost use Rattle.dx_step.specs.Said.{word_on};
ghost use Rattle.dx_step.specs.Reports.{unknown_word};
ghost use Rattle.dx_turn.specs.Grounds.{own_of, state_on};

use crate::ground::Ground;
use dx_case::Case;
use dx_said::names;
use dx_serd::Engine;
use ev_graph::{Link, NoMemory};
use fm_bytes::{Copies, Items};
use fm_entry::{Broken, CaseName, ListEvent, ListEvents, ListKind, Suspect};
use fm_name::EventName;
use std::alloc::Global;

/// What a turn has said and solved so far.
#[derive(Drop)]
pub struct Told {
    /// The last words of solved cases, as marks left them, once some suspect got one.
    pub marked: Option<ListEvents>,
    /// The words that solve cases, in the order in which they came, after the marks.
    pub solved: ListEvents,
    /// The engines, once one has noted the time.
    pub engines: Option<Items<Engine>>,
    /// The nodes that the engines which fired report, in the order in which they fired.
    pub fired: Items<u32>,
    /// The words that were said.
    pub words: ListEvents,
}

impl Told {
    /// Nothing was said.
    pub fn new(alloc: Global) -> Told
        ensures { result ≡ record {
          marked = None;
          solved = [];
          engines = None;
          fired = [];
          words = [];
        } }
    {
        Told {
            marked: None,
            solved: Items::new(Vec::new(alloc)),
            engines: None,
            fired: Items::new(Vec::new(alloc)),
            words: Items::new(Vec::new(alloc)),
        }
    }

    /// The word is said.
    pub(crate) fn say(&mut self, word: ListEvent) -> Result<(), NoMemory>
        ensures { OnOk result (self.new ≡ record self.old { words = self.old.words ++ word ∷ [] }) }
    {
        self.words.push(word)
    }

    /// The word, which solves a case, is said and kept.
    pub(crate) fn say_solved(&mut self, alloc: Global, word: ListEvent) -> Result<(), NoMemory>
        ensures { OnOk result (self.new ≡ record self.old {
          words = self.old.words ++ word ∷ [];
          solved = self.old.solved ++ word ∷ [];
        }) }
    {
        let kept = word.copy(alloc)?;
        self.solved.push(kept)?;
        self.words.push(word)
    }
}

/// The links as links that are broken.
fn broken_links(alloc: Global, links: &[Link]) -> Result<Vec<Broken>, NoMemory>
    ensures { IfOk result (λ v. v.items ≡ map broken_of links.now) }
{
    let broken = links.iter().map(broken_of).collect(alloc)?;
    Ok(broken)
}

/// A link as one that is broken.
fn broken_of(link: &Link) -> Broken
    ensures { result ≡ broken_of link.now }
{
    Broken {
        instance: link.instance,
        effect: link.effect,
    }
}

/// A word on a case, with these suspects.
pub(crate) fn word_on(
    ground: &Ground<'_>,
    kind: ListKind,
    case: &Case,
    suspects: Vec<Suspect>,
) -> Result<ListEvent, NoMemory>
    ensures { IfOk result (λ w. w ≡ word_on (own_of ground.now) ground.now.graph.now
        (state_on ground.now) kind (open_of case.now) suspects.items) }
{
    let observed = names(ground.alloc, ground.graph, case.observed())?;
    let broken = broken_links(ground.alloc, case.broken())?;
    Ok(ListEvent {
        kind,
        case: CaseName {
            module: ground.rules.own,
            case: case.number(),
        },
        moment: ground.time,
        conf: ground.conf,
        observed: Items::new(observed),
        suspects: Items::new(suspects),
        broken: Items::new(broken),
    })
}

/// The word on a case of this number, of an event that the graph does not have.
pub(crate) fn unknown_word(
    ground: &Ground<'_>,
    number: u64,
    name: EventName,
) -> Result<ListEvent, NoMemory>
    ensures { IfOk result (λ w. w ≡ unknown_word (own_of ground.now)
        (record (state_on ground.now) { next = number }) name) }
{
    let observed = Vec::from_array(ground.alloc, [name])?;
    Ok(ListEvent {
        kind: ListKind::Undiagnosable,
        case: CaseName {
            module: ground.rules.own,
            case: number,
        },
        moment: ground.time,
        conf: ground.conf,
        observed: Items::new(observed),
        suspects: Items::new(Vec::new(ground.alloc)),
        broken: Items::new(Vec::new(ground.alloc)),
    })
}
