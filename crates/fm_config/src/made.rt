//! What the texts of a configuration come to.

ghost use Rattle.std.specs.Prelude.{IfOk, IfErr};
ghost use Rattle.fm_modules.specs.KeptTexts.{IsNoTopology, IsRefusedText, IsTopologyText};
ghost use Rattle.fm_config.specs.Comes.{TextComesTo};
ghost use Rattle.fm_config.specs.Sizes.{ConfCause};

use crate::fault::ConfFault;
use ev_check::Checked;
use ev_file::Made;
use ev_inst::{InstFault, instantiate};
use fm_sources::{RulesFault, read_rules};
use fm_topo::{Topo, TopoFault, read_topo};
use std::alloc::Global;

/// What the text of a rule file comes to over a topology.
pub(crate) fn text_made(alloc: Global, text: &[u8], topo: &Topo) -> Result<Made, ConfFault>
    ensures made { IfOk result (TextComesTo topo.now text.now) }
    ensures refused { IfErr result (ConfCause (IsRefusedText topo.now text.now)) }
{
    let checked: Checked = match read_rules(alloc, text) {
        Ok(checked) => checked,
        Err(RulesFault::At { place: _, kind: _ }) => return Err(ConfFault::Refused),
        Err(RulesFault::NoMemory) => return Err(ConfFault::NoMemory),
    };
    match instantiate(alloc, &checked, topo) {
        Ok(made) => Ok(made),
        Err(InstFault::Nodes) => Err(ConfFault::Refused),
        Err(InstFault::Links) => Err(ConfFault::Refused),
        Err(InstFault::NoMemory) => Err(ConfFault::NoMemory),
    }
}

/// The topology that a text is.
pub(crate) fn text_topo(alloc: Global, text: &[u8]) -> Result<Topo, ConfFault>
    ensures topology { IfOk result (IsTopologyText text.now) }
    ensures refused { IfErr result (ConfCause (IsNoTopology text.now)) }
{
    match read_topo(alloc, text) {
        Ok(topo) => Ok(topo),
        Err(TopoFault::At { line: _, kind: _ }) => Err(ConfFault::Refused),
        Err(TopoFault::NoMemory) => Err(ConfFault::NoMemory),
    }
}
