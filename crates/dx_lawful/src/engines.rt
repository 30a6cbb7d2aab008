//! What the engines of a graph keep.

ghost use Rattle.std.specs.Prelude.{◌≡◌, ◌&&◌};
ghost use Rattle.dx_serd.specs.Rates.{are_kept, none_past};
ghost use Rattle.dx_state.specs.LawfulState.{are_engines};

use dx_serd::are_lawful;
use ev_graph::EngineSpec;
use fm_bytes::Items;

/// Whether none of the moments is past a time.
fn none_past(time: u64, moments: &[u64]) -> bool
    ensures { result ≡ none_past time moments.now }
{
    moments.iter().all(|moment| *moment <= time)
}

/// Whether an engine of this kind can keep these moments at a time.
fn keeps_moments(time: u64, spec: &EngineSpec, moments: &[u64]) -> bool
    ensures { result
        ≡ (are_kept spec.now.n spec.now.t moments.now && none_past time moments.now) }
{
    are_lawful(spec.n, spec.t, moments) && none_past(time, moments)
}

/// Whether engines of these kinds can keep these moments at a time, one list each.
pub(crate) fn are_engines(time: u64, specs: &[EngineSpec], kept: &[Items<u64>]) -> bool
    ensures { result ≡ are_engines time specs.now kept.now }
{
    let mut rest = kept;
    for spec in specs {
        let [moments, others @ ..] = rest else {
            return false;
        };
        if !keeps_moments(time, spec, moments.as_slice()) {
            return false;
        }
        rest = others;
    }
    rest.is_empty()
}
