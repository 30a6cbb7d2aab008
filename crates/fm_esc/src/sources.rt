//! Rule files and a topology from their sources to the text of what they come to.

ghost use Rattle.std.specs.Prelude.{◌≤◌, length, IfOk, IfErr};
ghost use Rattle.fm_sources.specs.Sources.{ReadsSources, given};
ghost use Rattle.fm_esc.specs.Compiling.{IsCompiled, CompileCause};

use crate::faults::CompileFault;
use crate::graphs::put_graphs;
use ev_listing::GraphForm;
use fm_outer::Source;
use fm_sources::read_sources;
use std::alloc::Global;

/// Reads the rule files and the topology, and gives the text of what each file comes to, in order.
/// Of what is refused the first is told: a rule file, the topology, and then a file that comes to
/// more than the limits allow. At most eight rule files are handed in.
pub fn compile_sources<S: Source>(
    alloc: Global,
    rules: &mut [S],
    topo: &mut S,
    form: GraphForm,
) -> Result<Vec<u8>, CompileFault>
    requires { length rules.old ≤ 8 }
    ensures compiled { IfOk result (λ text. IsCompiled S.Source form (given rules.old topo.old)
        (given rules.new topo.new) text.items) }
    ensures refused { IfErr result (CompileCause S.Source (given rules.old topo.old)
        (given rules.new topo.new)) }
{
    let got = read_sources(alloc, rules, topo)?;
    let mut text = Vec::new(alloc);
    put_graphs(alloc, got.files.as_slice(), &got.topo, form, &mut text)?;
    Ok(text)
}
