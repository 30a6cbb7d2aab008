//! Candidates: the roots that may still account for what was observed.

ghost use Rattle.std.specs.Prelude.{◌≡◌, true, IfOk};
ghost use Rattle.std.specs.List.{list_all, list_any, filter};
ghost use Rattle.ev_incidence.specs.Sets.{ascends};
ghost use Rattle.dx_live.specs.Live.{live_set};
ghost use Rattle.dx_case.specs.Candidates.{covers, is_held, is_left};

use dx_live::Live;
use ev_graph::{NoMemory, contains};
use std::alloc::Global;

/// A root, and the greatest story of it that may still be.
#[derive(Drop)]
pub(crate) struct Candidate {
    pub(crate) root: u32,
    pub(crate) live: Live,
}

impl Candidate {
    /// An equal one.
    fn copy(&self, alloc: Global) -> Result<Candidate, NoMemory>
        ensures { IfOk result (λ made. made ≡ self.now) }
    {
        let live = self.live.copy(alloc)?;
        Ok(Candidate {
            root: self.root,
            live,
        })
    }
}

/// Equal candidates.
pub(crate) fn copies_of(alloc: Global, candidates: &[Candidate]) -> Result<Vec<Candidate>, NoMemory>
    ensures { IfOk result (λ made. made.items ≡ candidates.now) }
{
    let mut made = Vec::with_capacity(alloc, candidates.len())?;
    for candidate in candidates {
        made.push(candidate.copy(alloc)?)?;
    }
    Ok(made)
}

fn has_all(live: &Live, observed: &[u32]) -> bool
    ensures { result ≡ list_all (live_set live.now) observed.now }
{
    observed.iter().all(|node| live.has(*node))
}

/// Whether the set has its root and all that was observed.
fn keeps(candidate: &Candidate, observed: &[u32]) -> bool
    ensures { result ≡ covers observed.now candidate.now }
{
    candidate.live.alive() && has_all(&candidate.live, observed)
}

/// Drops the candidates whose sets lack their root or what was observed. They never come back,
/// since sets only shrink.
pub(crate) fn drop_lost(candidates: &mut Vec<Candidate>, observed: &[u32])
    ensures { candidates.new.items ≡ filter (covers observed.now) candidates.old.items }
{
    candidates.retain(|candidate| keeps(candidate, observed));
}

/// Whether some set has the node.
pub(crate) fn is_held(candidates: &[Candidate], node: u32) -> bool
    ensures { result ≡ is_held candidates.now node }
{
    candidates.iter().any(|candidate| candidate.live.has(node))
}

fn is_left(candidates: &[Candidate], observed: &[u32], report: u32) -> bool
    requires { ascends observed.now ≡ true }
    ensures { result ≡ is_left candidates.now observed.now report }
{
    !contains(observed, report) && is_held(candidates, report)
}

/// Whether some report that was not observed is in some set.
pub(crate) fn is_any_left(candidates: &[Candidate], observed: &[u32], reports: &[u32]) -> bool
    requires { ascends observed.now ≡ true }
    ensures { result ≡ list_any (is_left candidates.now observed.now) reports.now }
{
    reports
        .iter()
        .any(|report| is_left(candidates, observed, *report))
}
