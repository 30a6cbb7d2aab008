// Live sets, which shrink while reports go and links are cut.
ghost use Rattle.std.specs.Prelude.{◌≡◌, ◌<◌, true, IfOk};
ghost use Rattle.ev_graph.specs.Kinds.{is_root_node};
ghost use Rattle.dx_live.specs.Live.{IsLiveOf};

use crate::drawn::{bit_of, numbers_of};
use crate::words::{first_part, numbers_text, pair_in};
use dx_live::{Live, Steps};
use ev_graph::{Graph, Link, is_report_node, is_root_node};
use std::alloc::Global;
use std::marker::Brand;
use std::sync::ledger::{Blank, Ledger};
use test_words::{ScriptFault, first_word, small_in};

/// What happens to a live set.
#[derive(Clone, Copy, Drop)]
pub enum Change {
    Stay,
    Lose(u32),
    Cut(Link),
    LoseInCopy(u32),
}

/// The live set of a root.
fn live_of(alloc: Global, graph: &Graph, root: u32) -> Result<Live, ScriptFault>
    ensures { IfOk result (λ live. IsLiveOf graph.now live) }
{
    if !is_root_node(graph.nodes(), root) {
        return Err(ScriptFault::Words);
    }
    let live = Live::new(alloc, graph, root)?;
    Ok(live)
}

/// The nodes below 8 that are in the set, as bits; none where there is no story.
fn bits_in(live: &Live) -> u32 {
    let mut bits = 0u32;
    if live.alive() {
        for node in 0..8 {
            if live.has(node) {
                bits |= bit_of(node);
            }
        }
    }
    bits
}

/// A report goes.
fn lose<L: Ledger>(
    graph: &Graph,
    live: &mut Live,
    gone: u32,
    steps: &mut Steps<L>,
) -> Result<(), ScriptFault>
    requires { IsLiveOf graph.now live.old }
    ensures { IsLiveOf graph.now live.new }
{
    if !is_report_node(graph.nodes(), gone) {
        return Err(ScriptFault::Words);
    }
    live.shrink(graph, gone, steps);
    Ok(())
}

/// The nodes that are in a copy of the set from which a report went.
fn bits_of_copy<L: Ledger>(
    alloc: Global,
    graph: &Graph,
    live: &Live,
    gone: u32,
    steps: &mut Steps<L>,
) -> Result<u32, ScriptFault>
    requires { IsLiveOf graph.now live.now }
{
    let mut copy = live.copy(alloc)?;
    lose(graph, &mut copy, gone, steps)?;
    Ok(bits_in(&copy))
}

/// The nodes that are in the set behind a change, or in the copy that was changed.
fn turn<L: Ledger>(
    alloc: Global,
    graph: &Graph,
    live: &mut Live,
    change: Change,
    steps: &mut Steps<L>,
) -> Result<u32, ScriptFault>
    requires { IsLiveOf graph.now live.old }
    ensures { IsLiveOf graph.now live.new }
{
    match change {
        Change::Stay => {}
        Change::Lose(gone) => lose(graph, live, gone, steps)?,
        Change::Cut(link) => live.cut(graph, link, steps),
        Change::LoseInCopy(gone) => return bits_of_copy(alloc, graph, live, gone, steps),
    }
    Ok(bits_in(live))
}

/// The nodes behind each change, in turn.
fn turns<L: Ledger>(
    alloc: Global,
    graph: &Graph,
    root: u32,
    changes: &[Change],
    steps: &mut Steps<L>,
) -> Result<Vec<u32>, ScriptFault> {
    let mut live = live_of(alloc, graph, root)?;
    let mut sets = Vec::new(alloc);
    'changes: for change in changes {
        let bits = turn(alloc, graph, &mut live, *change, steps)?;
        sets.push(bits)?;
    }
    Ok(sets)
}

/// The same, where steps are counted.
fn turns_counted<L: Ledger>(
    alloc: Global,
    graph: &Graph,
    root: u32,
    changes: &[Change],
    blank: Blank,
) -> Result<Vec<u32>, ScriptFault>
    requires name { blank.name ≡ L.name }
    requires parts { blank.parts ≡ L.parts }
    requires some { 0 < blank.parts }
{
    let mut steps = Steps::<L>::open(blank);
    turns(alloc, graph, root, changes, &mut steps)
}

/// The nodes below 8 that are in the live set of a root behind each change, as bits.
pub fn live_sets(
    alloc: Global,
    graph: &Graph,
    root: u32,
    changes: &[Change],
) -> Result<Vec<u32>, ScriptFault> {
    turns_counted::<Brand>(alloc, graph, root, changes, Blank::new(1))
}

/// The link of a word, `INSTANCE/EFFECT`.
fn link_in(word: &str) -> Result<Link, ScriptFault> {
    let (instance, effect) = pair_in(word)?;
    Ok(Link { instance, effect })
}

/// The change that words say.
fn change_in(words: &str) -> Result<Change, ScriptFault> {
    let (word, rest) = first_word(words);
    match word {
        "stay" => Ok(Change::Stay),
        "lose" => Ok(Change::Lose(small_in(rest)?)),
        "cut" => Ok(Change::Cut(link_in(rest)?)),
        "lose_in_copy" => Ok(Change::LoseInCopy(small_in(rest)?)),
        _ => Err(ScriptFault::Words),
    }
}

/// The changes of a text, with commas between them.
fn changes_in(alloc: Global, text: &str) -> Result<Vec<Change>, ScriptFault> {
    let mut changes = Vec::new(alloc);
    for words in text.split(',') {
        changes.push(change_in(words.trim())?)?;
    }
    Ok(changes)
}

/// Some sets of nodes, with `; ` between them.
fn sets_text(alloc: Global, sets: &[u32]) -> Result<String, ScriptFault> {
    let mut line = String::new(alloc);
    for bits in sets {
        if !line.is_empty() {
            line.push_str("; ")?;
        }
        let nodes = numbers_text(alloc, &numbers_of(alloc, *bits)?)?;
        line.push_str(&nodes)?;
    }
    Ok(line)
}

/// The live set of a root behind each change, `ROOT, CHANGE, ..`.
pub fn live(alloc: Global, graph: &Graph, words: &str) -> Result<String, ScriptFault> {
    let (root, rest) = first_part(words);
    let changes = changes_in(alloc, rest)?;
    let sets = live_sets(alloc, graph, small_in(root)?, &changes)?;
    sets_text(alloc, &sets)
}
