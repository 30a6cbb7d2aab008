//! Whole states.

ghost use Rattle.std.specs.Prelude.{◌≡◌, ◌&&◌, ℕ, IsTrue, IfOk};
ghost use Rattle.ev_graph.specs.Cutting.{is_cut};
ghost use Rattle.dx_state.specs.Configured.{Configuration};
ghost use Rattle.dx_state.specs.Fitting.{diagnosis_fits};
ghost use Rattle.dx_state.specs.LawfulState.{is_state};
ghost use Rattle.dx_kept.specs.Kept.{diagnosis_of};
ghost use Rattle.dx_lawful.specs.Trials.{have_ranges};

use crate::cases::could_each_be_open;
use crate::engines::are_engines;
use crate::numbers::are_numbered;
use crate::words::could_each_be_last;
use dx_kept::KeptState;
use ev_graph::{CutTest, Graph, NoMemory};
use std::alloc::Global;

/// Whether the parts of a state are lawful, each in itself.
fn have_ranges<C: CutTest>(graph: &Graph, guarded: &C, kept: &KeptState) -> bool
    ensures { result ≡ have_ranges graph.now (C.is_cut guarded.now) (diagnosis_of kept.now) }
{
    let (time, next) = (kept.time, kept.next);
    time < 1 << 62
        && (next <= 1 << 63
            && (could_each_be_open(graph, guarded, time, next, kept.open_cases.as_slice())
                && (could_each_be_last(next, kept.solved.as_slice())
                    && are_engines(time, graph.engines(), kept.engines.as_slice()))))
}

/// Whether a state that has a spelling, as one of the module of this number, is lawful in a
/// configuration with this graph and these guarded links, in all but that each open case waits for
/// a report.
pub fn is_state<C: CutTest>(
    alloc: Global,
    own: u32,
    graph: &Graph,
    guarded: &C,
    kept: &KeptState,
) -> Result<bool, NoMemory>
    requires { IsTrue (diagnosis_fits own (diagnosis_of kept.now)) }
    ensures { IfOk result (λ lawful. (x : Configuration) → x.graph ≡ graph.now
        → ((i e : ℕ) → is_cut x.guarding.guarded i e ≡ C.is_cut guarded.now i e)
        → lawful ≡ is_state own x (diagnosis_of kept.now)) }
{
    let _own = own;
    if !have_ranges(graph, guarded, kept) {
        return Ok(false);
    }
    let numbered = are_numbered(alloc, kept.open_cases.as_slice(), kept.solved.as_slice())?;
    Ok(numbered)
}
