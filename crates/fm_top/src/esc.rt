// The command `esc`.
ghost use Rattle.std.specs.Prelude.{◌≤◌, length};
ghost use Rattle.fm_answers.specs.StreamsAt.{sink_at};
ghost use Rattle.fm_sources.specs.Sources.{given};
ghost use Rattle.fm_top.specs.Esc.{EscEnds, EscInputEnds};

use ev_listing::GraphForm;
use fm_answers::{Stop, put_bytes};
use fm_esc::{compile_sources, list_input};
use fm_outer::{Sink, Source};
use std::alloc::Global;

/// Puts what each rule file comes to over the topology, in this form.
pub(crate) fn esc<S: Source, K: Sink>(
    alloc: Global,
    form: GraphForm,
    rules: &mut [S],
    topo: &mut S,
    out: &mut K,
) -> Result<(), Stop>
    requires { length rules.old ≤ 8 }
    ensures { EscEnds S.Source form (given rules.old topo.old) (given rules.new topo.new)
        (sink_at K.Sink out.old) (sink_at K.Sink out.new) result }
{
    let text = compile_sources(alloc, rules, topo, form)?;
    put_bytes(out, text.as_slice())
}

/// Puts the listing of the compiled files of the input, up to the first bad one.
pub(crate) fn esc_input<S: Source, K: Sink>(
    alloc: Global,
    input: &mut S,
    out: &mut K,
) -> Result<(), Stop>
    ensures { EscInputEnds S.Source input.old input.new (sink_at K.Sink out.old)
        (sink_at K.Sink out.new) result }
{
    let listing = list_input(alloc, input)?;
    put_bytes(out, listing.text.as_slice())?;
    match listing.bad {
        None => Ok(()),
        Some(place) => Err(Stop::DamagedInput { place }),
    }
}
