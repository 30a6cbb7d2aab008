//! Engines, made again.

ghost use Rattle.std.specs.Prelude.{◌≡◌, IsTrue, IfOk};
ghost use Rattle.std.specs.List.{list_all};
ghost use Rattle.ev_graph.specs.Lawful.{has_engine_limits};
ghost use Rattle.dx_serd.specs.Rates.{are_kept, rate_of};
ghost use Rattle.dx_state.specs.LawfulState.{are_engines};
ghost use Rattle.dx_restore.specs.Parts.{engines_with};

use dx_serd::Engine;
use ev_graph::{EngineSpec, NoMemory};
use fm_bytes::Items;
use std::alloc::Global;

/// An engine of this kind that keeps these moments.
fn restore_engine(alloc: Global, spec: &EngineSpec, moments: &[u64]) -> Result<Engine, NoMemory>
    requires limits { IsTrue (has_engine_limits spec.now) }
    requires kept { IsTrue (are_kept spec.now.n spec.now.t moments.now) }
    ensures { IfOk result (λ engine. engine ≡ rate_of spec.now.n spec.now.t moments.now) }
{
    let engine = Engine::with_moments(alloc, spec.n, spec.t, moments)?;
    Ok(engine)
}

/// Engines of these kinds that keep these moments, one list each.
pub(crate) fn restore_engines(
    alloc: Global,
    time: u64,
    specs: &[EngineSpec],
    kept: &[Items<u64>],
) -> Result<Vec<Engine>, NoMemory>
    requires limits { IsTrue (list_all has_engine_limits specs.now) }
    requires kept { IsTrue (are_engines time specs.now kept.now) }
    ensures { IfOk result (λ v. v.items ≡ engines_with specs.now kept.now) }
{
    let _time = time;
    let mut engines = Vec::with_capacity(alloc, specs.len())?;
    let mut rest = kept;
    for spec in specs {
        let [moments, others @ ..] = rest else {
            unreachable!()
        };
        engines.push(restore_engine(alloc, spec, moments.as_slice())?)?;
        rest = others;
    }
    Ok(engines)
}
