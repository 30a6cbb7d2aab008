//! Open cases, made again.

ghost use Rattle.std.specs.Prelude.{◌≡◌, true, false, map, IfOk, MatchOption};
ghost use Rattle.std.specs.List.{list_all, All};
ghost use Rattle.dx_explain.specs.Cases.{waits};
ghost use Rattle.dx_case.specs.Cases.{open_of};
ghost use Rattle.dx_case.specs.Facts.{facts_fit};
ghost use Rattle.dx_case.specs.Starts.{AreStartsOf};
ghost use Rattle.dx_restore.specs.Parts.{IsCaseAt};
ghost use Rattle.dx_restore.specs.Restoring.{AreCasesAgain};

use dx_case::{Case, CaseFacts, Starts};
use dx_kept::KeptCase;
use ev_graph::{Graph, NoMemory};
use std::alloc::Global;

/// A case again, at a time.
fn restore_case(
    alloc: Global,
    graph: &Graph,
    starts: &mut Starts,
    time: u64,
    kept: &KeptCase,
) -> Result<Case, NoMemory>
    requires fit { facts_fit graph.now time kept.now ≡ true }
    requires starts { AreStartsOf graph.now starts.old }
    ensures at { IfOk result (IsCaseAt graph.now time) }
    ensures same { IfOk result (λ c. open_of c ≡ kept.now) }
    ensures starts { AreStartsOf graph.now starts.new }
{
    let facts = CaseFacts {
        number: kept.number(),
        opened: kept.opened(),
        entries: kept.entries(),
        observed: kept.observed(),
        broken: kept.broken(),
    };
    let case = Case::restore(alloc, graph, starts, &facts, time)?;
    Ok(case)
}

/// Each of some cases again, at a time; none, where some case waits for nothing then.
pub(crate) fn restore_cases(
    alloc: Global,
    graph: &Graph,
    time: u64,
    kept: &[KeptCase],
) -> Result<Option<Vec<Case>>, NoMemory>
    requires { list_all (facts_fit graph.now time) kept.now ≡ true }
    ensures { IfOk result (λ made. MatchOption made
        (list_all (waits graph.now time) kept.now ≡ false)
        (λ v. AreCasesAgain graph.now time kept.now v.items)) }
{
    let mut cases = Vec::with_capacity(alloc, kept.len())?;
    // Cases that one node opened are sought once.
    let mut starts = Starts::new(alloc);
    for item in kept {
        let case = restore_case(alloc, graph, &mut starts, time, item)?;
        if !case.is_pending() {
            return Ok(None);
        }
        cases.push(case)?;
    }
    Ok(Some(cases))
}
