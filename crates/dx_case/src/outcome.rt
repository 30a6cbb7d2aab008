//! What a case comes to.

ghost use Rattle.std.specs.Prelude.{◌≡◌, IfOk};
ghost use Rattle.std.specs.List.{filter};
ghost use Rattle.dx_case.specs.Candidates.{is_of_kind, roots_in};
ghost use Rattle.dx_case.specs.Kinds.{is_asked};

use crate::candidate::Candidate;
use crate::kinds::Asked;
use ev_graph::{NoMemory, Node};
use std::alloc::Global;

/// What a case comes to: the faults and defects that explain it, in event order; else the upsets;
/// else nothing explains it.
#[derive(Debug, Drop)]
pub enum Outcome {
    Solved(Vec<u32>),
    Upset(Vec<u32>),
    Undiagnosable,
}

/// The roots of the candidates that are of a kind.
pub(crate) fn roots_among(
    alloc: Global,
    nodes: &[Node],
    candidates: &[Candidate],
    kind: Asked,
) -> Result<Vec<u32>, NoMemory>
    ensures { IfOk result (λ list. list.items
        ≡ filter (is_of_kind (is_asked kind) nodes.now) (roots_in candidates.now)) }
{
    let mut list = Vec::new(alloc);
    for candidate in candidates {
        if kind.has_node(nodes, candidate.root) {
            list.push(candidate.root)?;
        }
    }
    Ok(list)
}
