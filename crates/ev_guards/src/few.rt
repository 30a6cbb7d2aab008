//! Whether guarded links are few, or none.

ghost use Rattle.std.specs.Prelude.{◌≡◌, ◌==◌, ◌^◌, ◌&&◌, length, nat_lt};
ghost use Rattle.std.specs.List.{list_all};
ghost use Rattle.ev_guards.specs.Guards.{guard_count, has_instance_number};
ghost use Rattle.ev_guards.specs.Guards.{is_numbered_link, links_to};

use crate::guards::{Guard, GuardedNode};

/// Whether the instance of a guard has a number of 32 bits, which each has.
fn has_number(guard: &Guard) -> bool
    ensures { result ≡ has_instance_number guard.now }
{
    let _instance = guard.instance;
    true
}

/// Whether each of some guards has such one.
fn each_has_number(guards: &[Guard]) -> bool
    ensures { result ≡ list_all has_instance_number guards.now }
{
    guards.iter().all(|guard| has_number(guard))
}

/// Whether the guards of each of some nodes have such ones.
fn have_numbers(nodes: &[GuardedNode]) -> bool
    ensures { result ≡ list_all (λ n. list_all has_instance_number n.guards.items) nodes.now }
{
    nodes
        .iter()
        .all(|node| each_has_number(node.guards.as_slice()))
}

/// Whether some nodes have fewer than 2^32 guards.
fn are_few(nodes: &[GuardedNode]) -> bool
    ensures { result ≡ nat_lt (guard_count nodes.now) (2 ^ 32) }
{
    let mut count: u64 = 0;
    let mut rest = nodes;
    while let [node, others @ ..] = rest {
        count += node.guards.len() as u64;
        if count >= 1 << 32 {
            return false;
        }
        rest = others;
    }
    true
}

/// Whether no node has a guard.
fn are_bare(nodes: &[GuardedNode]) -> bool
    ensures { result ≡ list_all (λ n. length n.guards.items == 0) nodes.now }
{
    nodes.iter().all(|node| node.guards.is_empty())
}

/// Whether no link to some nodes is guarded.
pub(crate) fn have_none(nodes: &[GuardedNode]) -> bool
    ensures { result ≡ (length (links_to 0 nodes.now) == 0) }
{
    are_bare(nodes)
}

/// Whether fewer than 2^32 links to some nodes are guarded.
pub(crate) fn have_few(nodes: &[GuardedNode]) -> bool
    ensures { result ≡ (nat_lt (length (links_to 0 nodes.now)) (2 ^ 32)
        && list_all is_numbered_link (links_to 0 nodes.now)) }
{
    are_few(nodes) && have_numbers(nodes)
}
