//! Ranks: the length of the longest chains that end in each node, or a cycle.

ghost use Rattle.std.specs.Prelude.{◌≡◌, ◌+◌, ◌<◌, ◌≤◌, ◌^◌, ◌==◌, ℕ, length, slice_index};
ghost use Rattle.std.specs.Prelude.{IfOk, IfSome, OnOk, Ok, None};
ghost use Rattle.std.specs.Bool.{OnTrue, OnFalse};
ghost use Rattle.ev_incidence.specs.Table.{row_at, IsIncidence, wiring_of};
ghost use Rattle.ev_incidence.specs.Ranking.{IsMostOf, LacksOne, IsRanking, ArePlacesStuck};
ghost use Rattle.ev_incidence.specs.Ranking.{AreNodesStuck, HaveCauses, AreRanks};
ghost use Rattle.ev_incidence.specs.Wiring.{ReachesItself};

use crate::incidence::{Incidence, number_at};
use fm_bytes::NoMemory;
use std::alloc::Global;

/// The greatest value of these numbers; none where one has the value 0.
fn most_of(numbers: &[u32], values: &[u32]) -> Option<u32>
    ensures { IsMostOf numbers.now values.now result }
{
    let mut most = 0;
    for number in numbers {
        let value = number_at(values, *number);
        if value == 0 {
            return None;
        }
        if most < value {
            most = value;
        }
    }
    Some(most)
}

/// Gives the node its rank if all its instances have levels, and says whether it did.
fn rank_node(table: &Incidence, node: u32, ranks: &mut [u32], levels: &[u32], done: u32) -> bool
    requires ranking { IsRanking table.now ranks.old levels.now done }
    requires node { node < length ranks.old }
    requires few { length ranks.old < 2 ^ 32 }
    ensures given { OnTrue result (IsRanking table.now ranks.new levels.now (done + 1)) }
    ensures same { OnFalse result (ranks.new ≡ ranks.old) }
    ensures stuck { OnFalse result (slice_index ranks.old node ≡ 0
        → LacksOne (row_at table.now.gets node) levels.now) }
{
    if ranks[node as usize] != 0 {
        return false;
    }
    match most_of(table.gets(node), levels) {
        None => false,
        Some(most) => {
            ranks[node as usize] = most + 1;
            true
        }
    }
}

/// Gives the instance its level if all its causes have ranks.
fn level_place(table: &Incidence, place: u32, ranks: &[u32], levels: &mut [u32], done: u32)
    requires ranking { IsRanking table.now ranks.now levels.old done }
    requires place { place < length levels.old }
    requires causes { HaveCauses table.now }
    ensures ranking { IsRanking table.now ranks.now levels.new done }
    ensures stuck { slice_index levels.new place ≡ 0
        → LacksOne (row_at table.now.causes place) ranks.now }
    ensures kept { (j : ℕ) → 0 < slice_index levels.old j → 0 < slice_index levels.new j }
{
    if levels[place as usize] != 0 {
        return;
    }
    if let Some(most) = most_of(table.causes(place), ranks) {
        levels[place as usize] = most;
    }
}

fn level_all(table: &Incidence, ranks: &[u32], levels: &mut [u32], done: u32)
    requires ranking { IsRanking table.now ranks.now levels.old done }
    requires causes { HaveCauses table.now }
    requires few { length levels.old < 2 ^ 32 }
    ensures ranking { IsRanking table.now ranks.now levels.new done }
    ensures stuck { ArePlacesStuck table.now ranks.now levels.new }
{
    let count = levels.len() as u32;
    for place in 0..count {
        level_place(table, place, ranks, levels, done);
    }
}

/// Gives ranks to all nodes that can have one now, and answers how many nodes have a rank then.
fn rank_all(table: &Incidence, ranks: &mut [u32], levels: &[u32], done: u32) -> u32
    requires ranking { IsRanking table.now ranks.old levels.now done }
    requires few { length ranks.old < 2 ^ 32 }
    ensures ranking { IsRanking table.now ranks.new levels.now result }
    ensures more { done ≤ result }
    ensures stuck { result ≡ done → (ranks.new ≡ ranks.old)
        × AreNodesStuck table.now ranks.new levels.now }
{
    let mut done_now = done;
    let count = ranks.len() as u32;
    for node in 0..count {
        if rank_node(table, node, ranks, levels, done_now) {
            done_now += 1;
        }
    }
    done_now
}

/// Takes one off a number, and says whether it came to 0 by that.
fn counts_down(left: &mut [u32], at: u32) -> bool {
    match left.get_mut(at as usize) {
        Some(number) if *number > 0 => {
            *number -= 1;
            *number == 0
        }
        _ => false,
    }
}

/// In which order nodes are looked at. It decides how soon all ranks are known, and not what they
/// are.
#[derive(Drop)]
struct Agenda {
    /// For each instance, how many of its causes are not yet looked at.
    causes_left: Vec<u32>,
    /// For each node, how many of its instances are not yet looked at.
    gets_left: Vec<u32>,
    nodes: Vec<u32>,
}

impl Agenda {
    fn new(alloc: Global, table: &Incidence) -> Result<Agenda, NoMemory> {
        let mut agenda = Agenda {
            causes_left: Vec::new(alloc),
            gets_left: Vec::new(alloc),
            nodes: Vec::new(alloc),
        };
        for place in 0..table.count() as u32 {
            let left = u32::try_from(table.causes(place).len()).unwrap_or(u32::MAX);
            agenda.causes_left.push(left)?;
        }
        for node in 0..table.nodes() as u32 {
            let left = u32::try_from(table.gets(node).len()).unwrap_or(u32::MAX);
            agenda.gets_left.push(left)?;
            if left == 0 {
                agenda.nodes.push(node)?;
            }
        }
        Ok(agenda)
    }

    /// Counts down at each of these nodes, and notes those that came to 0.
    fn wake(&mut self, nodes: &[u32]) -> Result<(), NoMemory> {
        for node in nodes {
            if counts_down(self.gets_left.as_mut_slice(), *node) {
                self.nodes.push(*node)?;
            }
        }
        Ok(())
    }
}

/// Levels those instances of the node whose causes are all looked at.
fn settle(
    table: &Incidence,
    node: u32,
    agenda: &mut Agenda,
    ranks: &[u32],
    levels: &mut [u32],
    done: u32,
) -> Result<(), NoMemory>
    requires ranking { IsRanking table.now ranks.now levels.old done }
    requires causes { HaveCauses table.now }
    ensures { OnOk result (IsRanking table.now ranks.now levels.new done) }
{
    for place in table.uses(node) {
        if counts_down(agenda.causes_left.as_mut_slice(), *place) {
            level_place(table, *place, ranks, levels, done);
            agenda.wake(table.effects(*place))?;
        }
    }
    Ok(())
}

/// Gives the node its rank if there is one to give, and answers how many nodes have a rank then.
fn rank_if_there(table: &Incidence, node: u32, ranks: &mut [u32], levels: &[u32], done: u32) -> u32
    requires ranking { IsRanking table.now ranks.old levels.now done }
    requires few { length ranks.old < 2 ^ 32 }
    ensures { IsRanking table.now ranks.new levels.now result }
{
    if node as usize >= ranks.len() {
        return done;
    }
    if rank_node(table, node, ranks, levels, done) {
        return done + 1;
    }
    done
}

/// Ranks what can be ranked in one pass over the links, and answers how many nodes have a rank
/// then.
fn rank_in_order(
    alloc: Global,
    table: &Incidence,
    ranks: &mut [u32],
    levels: &mut [u32],
) -> Result<u32, NoMemory>
    requires ranking { IsRanking table.now ranks.old levels.old 0 }
    requires causes { HaveCauses table.now }
    requires few { length ranks.old < 2 ^ 32 }
    ensures { IfOk result (λ done. IsRanking table.now ranks.new levels.new done) }
{
    let mut agenda = Agenda::new(alloc, table)?;
    let mut done = 0;
    for at in 0..ranks.len() {
        if at >= agenda.nodes.len() {
            return Ok(done);
        }
        let node = agenda.nodes[at];
        done = rank_if_there(table, node, ranks, levels, done);
        settle(table, node, &mut agenda, ranks, levels, done)?;
    }
    Ok(done)
}

/// The place of a 0.
fn zero_at(values: &[u32]) -> Option<usize>
    ensures some { IfSome result (λ at. (at < length values.now)
        × (slice_index values.now at ≡ 0)) }
    ensures none { result ≡ None → (at : ℕ) → at < length values.now
        → 0 < slice_index values.now at }
{
    for (at, value) in values.iter().enumerate() {
        if *value == 0 {
            return Some(at);
        }
    }
    None
}

/// Ranks all nodes, and says whether that could be done; else there is a cycle.
fn are_ranked(
    alloc: Global,
    table: &Incidence,
    ranks: &mut [u32],
    levels: &mut [u32],
) -> Result<bool, NoMemory>
    requires ranking { IsRanking table.now ranks.old levels.old 0 }
    requires causes { HaveCauses table.now }
    requires few { length ranks.old < 2 ^ 32 }
    requires few_levels { length levels.old < 2 ^ 32 }
    requires incidence { IsIncidence table.now }
    ensures ranked { IfOk result (λ ranked. OnTrue ranked (AreRanks table.now ranks.new)) }
    ensures cyclic { IfOk result (λ ranked. OnFalse ranked (ReachesItself (wiring_of table.now))) }
{
    let mut done = rank_in_order(alloc, table, ranks, levels)?;
    loop {
        level_all(table, ranks, levels, done);
        let ranked = rank_all(table, ranks, levels, done);
        if ranked == done {
            return match zero_at(ranks) {
                Some(_) => Ok(false),
                None => Ok(true),
            };
        }
        done = ranked;
    }
}

/// For each node one more than its rank, where each instance has a cause; none where some node
/// reaches itself. It takes the time of nodes and links.
pub fn ranks_of(alloc: Global, table: &Incidence) -> Result<Option<Vec<u32>>, NoMemory>
    requires { HaveCauses table.now }
    ensures ranked { IfOk result (λ ranks. IfSome ranks (λ found. AreRanks table.now found.items)) }
    ensures cyclic { result ≡ Ok None → ReachesItself (wiring_of table.now) }
{
    let mut ranks = vec![in alloc; 0; table.nodes()]?;
    let mut levels = vec![in alloc; 0; table.count()]?;
    if are_ranked(alloc, table, ranks.as_mut_slice(), levels.as_mut_slice())? {
        Ok(Some(ranks))
    } else {
        Ok(None)
    }
}
