// Rule files and a topology that come to graphs.
ghost use Rattle.std.specs.Prelude.{◌≤◌, List, Ok, length, IfOk, IfErr};
ghost use Rattle.ev_file.specs.declared.made.Made.{Made};
ghost use Rattle.fm_esc.specs.Compiling.{AreGraphs, CompileCause};
ghost use Rattle.fm_sources.specs.Sources.{ReadsSources, given};

use ev_listing::GraphForm;
use fm_esc::{CompileFault, put_graphs};
use fm_outer::Source;
use fm_sources::{Sources, read_sources};
use std::alloc::Global;

/// Reads the rule files and the topology, up to the first that is refused, and makes the graph of
/// each rule file, up to the first that is past a limit.
pub(crate) fn read_graphed<S: Source>(
    alloc: Global,
    rules: &mut [S],
    topo: &mut S,
) -> Result<Sources, CompileFault>
    requires { length rules.old ≤ 8 }
    ensures read { IfOk result (λ got. ReadsSources S.Source (given rules.old topo.old)
        (given rules.new topo.new) (Ok got)) }
    ensures graphs { IfOk result
        (λ got. (mades : List Made) × AreGraphs got.topo got.files.items mades) }
    ensures refused { IfErr result (CompileCause S.Source (given rules.old topo.old)
        (given rules.new topo.new)) }
{
    let got = read_sources(alloc, rules, topo)?;
    let mut listing = Vec::new(alloc);
    put_graphs(
        alloc,
        got.files.as_slice(),
        &got.topo,
        GraphForm::Listed,
        &mut listing,
    )?;
    Ok(got)
}
