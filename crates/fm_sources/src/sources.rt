//! All sources of a command, in the order in which they are refused.

ghost use Rattle.std.specs.Prelude.{◌≤◌, length, IfOk, IfErr};
ghost use Rattle.fm_sources.specs.Sources.{FilesGave, FilesRefused, GaveTopology};
ghost use Rattle.fm_sources.specs.Sources.{TopologyRefused, ReadsSources, given};

use crate::faults::{SourceFault, TextFault};
use crate::files::{RuleFile, read_file};
use crate::text::read_text;
use fm_outer::Source;
use fm_topo::{Topo, TopoFault, read_topo};
use std::alloc::Global;

/// The most bytes that a topology has.
const TOPOLOGY_LIMIT: usize = 16_777_216;

/// The rule files in order, and the topology with its text.
#[derive(Drop)]
pub struct Sources {
    pub files: Vec<RuleFile>,
    pub topo_text: Vec<u8>,
    pub topo: Topo,
}

/// Reads and checks the rule files in turn, up to the first that is refused.
fn read_files<S: Source>(alloc: Global, rules: &mut [S]) -> Result<Vec<RuleFile>, SourceFault>
    requires { length rules.old ≤ 8 }
    ensures gave { IfOk result (λ files. FilesGave S.Source rules.old rules.new files.items) }
    ensures refused { IfErr result (FilesRefused S.Source rules.old rules.new) }
{
    let mut files = Vec::new(alloc);
    'files: for (number, source) in rules.iter_mut().enumerate() {
        files.push(read_file(alloc, number as u32, source)?)?;
    }
    Ok(files)
}

/// Reads the topology, and then its lines.
fn read_topology<S: Source>(alloc: Global, source: &mut S) -> Result<(Vec<u8>, Topo), SourceFault>
    ensures gave { IfOk result
        (λ got. GaveTopology S.Source source.old source.new got.0.items got.1) }
    ensures refused { IfErr result (TopologyRefused S.Source source.old source.new) }
{
    let text = match read_text(alloc, source, TOPOLOGY_LIMIT) {
        Ok(text) => text,
        Err(TextFault::Read) => return Err(SourceFault::Read),
        Err(TextFault::NoMemory) => return Err(SourceFault::NoMemory),
    };
    match read_topo(alloc, text.as_slice()) {
        Ok(topo) => Ok((text, topo)),
        Err(TopoFault::At { line, kind }) => Err(SourceFault::Topology { line, kind }),
        Err(TopoFault::NoMemory) => Err(SourceFault::NoMemory),
    }
}

/// Reads the rule files in turn, each read and then checked, and then the topology: all of them,
/// or the first that fails or is refused. At most eight rule files are handed in.
pub fn read_sources<S: Source>(
    alloc: Global,
    rules: &mut [S],
    topo: &mut S,
) -> Result<Sources, SourceFault>
    requires { length rules.old ≤ 8 }
    ensures { ReadsSources S.Source (given rules.old topo.old) (given rules.new topo.new) result }
{
    let files = read_files(alloc, rules)?;
    let (topo_text, topo) = read_topology(alloc, topo)?;
    Ok(Sources {
        files,
        topo_text,
        topo,
    })
}
