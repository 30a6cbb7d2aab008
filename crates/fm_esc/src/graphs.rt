//! What rule files come to over a topology, in turn.

ghost use Rattle.std.specs.Prelude.{◌≡◌, ◌++◌, ◌≤◌, List, length, IfOk, IfErr, OnOk};
ghost use Rattle.ev_file.specs.declared.made.Made.{Made as WasMade};
ghost use Rattle.ev_inst.specs.Instances.{IsMadeOf};
ghost use Rattle.fm_esc.specs.Compiling.{AreGraphs, GraphCause, GraphsCause, part_in, text_in};

use crate::faults::{CompileFault, GraphLimit};
use ev_check::Checked;
use ev_file::{Made, write_file};
use ev_inst::{InstFault, instantiate};
use ev_listing::{GraphForm, put_listing_of};
use fm_bytes::NoMemory;
use fm_sources::RuleFile;
use fm_topo::Topo;
use std::alloc::Global;

/// What the rule file with this number comes to.
fn graph_of(alloc: Global, file: u32, checked: &Checked, topo: &Topo) -> Result<Made, CompileFault>
    ensures made { IfOk result (IsMadeOf checked.now topo.now) }
    ensures refused { IfErr result (GraphCause file checked.now topo.now) }
{
    match instantiate(alloc, checked, topo) {
        Ok(made) => Ok(made),
        Err(InstFault::Nodes) => Err(CompileFault::Graph {
            file,
            limit: GraphLimit::Nodes,
        }),
        Err(InstFault::Links) => Err(CompileFault::Graph {
            file,
            limit: GraphLimit::Links,
        }),
        Err(InstFault::NoMemory) => Err(CompileFault::NoMemory),
    }
}

/// Appends what the rule file with this number comes to.
fn put_graph(number: u64, made: &Made, form: GraphForm, out: &mut Vec<u8>) -> Result<(), NoMemory>
    ensures { OnOk result (out.new.items ≡ out.old.items ++ part_in form number made.now) }
{
    match form {
        GraphForm::Listed => put_listing_of(number, made, out),
        GraphForm::Compiled => write_file(made, out),
    }
}

/// Appends what each rule file comes to over the topology, in order, up to the first that is past a
/// limit. After a fault the buffer holds what it held, and perhaps what some files come to and a
/// part of the next. At most eight rule files are handed in.
pub fn put_graphs(
    alloc: Global,
    files: &[RuleFile],
    topo: &Topo,
    form: GraphForm,
    out: &mut Vec<u8>,
) -> Result<(), CompileFault>
    requires { length files.now ≤ 8 }
    ensures put { OnOk result ((mades : List WasMade) × ((AreGraphs topo.now files.now mades)
        × (out.new.items ≡ out.old.items ++ text_in form mades))) }
    ensures refused { IfErr result (GraphsCause topo.now files.now) }
{
    'files: for (number, file) in files.iter().enumerate() {
        let made = graph_of(alloc, number as u32, &file.checked, topo)?;
        put_graph(number as u64, &made, form, out)?;
    }
    Ok(())
}
