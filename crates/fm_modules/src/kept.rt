//! What the texts of a configuration come to.

ghost use Rattle.std.specs.Prelude.{◌≡◌, ◌≤◌, length, IfOk, IfErr};
ghost use Rattle.dx_rules.specs.Rulebooks.{guarding_if_any, ruled_of};
ghost use Rattle.ev_graph.specs.Lawful.{IsGraph};
ghost use Rattle.ev_inst.specs.GuardsOf.{IsInstantiated};
ghost use Rattle.ev_inst.specs.Instances.{IsInstFault};
ghost use Rattle.fm_modules.specs.KeptTexts.{AreRefusedTexts, ConfMakes, EachHas, IsFirstRefused};
ghost use Rattle.fm_modules.specs.KeptTexts.{IsRefusedConf, IsRefusedText, KeptCause};
ghost use Rattle.fm_modules.specs.KeptTexts.{MakesConfiguration, MakesGuarding, TextMakes};
ghost use Rattle.fm_modules.specs.KeptTexts.{conf_row, conf_rows};
ghost use Rattle.fm_modules.specs.Modules.{ModulesCause, NumberedCause};

use crate::fault::{KeptFault, ModulesFault};
use dx_rules::Ruled;
use ev_check::Checked;
use ev_graph::Graph;
use ev_guards::Guards;
use ev_inst::{InstFault, instantiate, make_guards};
use fm_bytes::NoMemory;
use fm_saved::{Conf, ConfText};
use fm_sources::{RulesFault, read_rules};
use fm_topo::{Topo, TopoFault, read_topo};
use std::alloc::Global;

/// What each rule file of a configuration makes, in order.
#[derive(Drop)]
pub(crate) struct MadeConf {
    pub(crate) files: Vec<Ruled>,
}

/// The guards of the links that payloads can break, in the graph of a checked rule file over a
/// topology; none where they can break no link.
fn guards_of(
    alloc: Global,
    checked: &Checked,
    topo: &Topo,
    graph: &Graph,
) -> Result<Option<Guards>, NoMemory>
    requires { IsInstantiated checked.now topo.now graph.now }
    ensures { IfOk result
        (λ guards. MakesGuarding checked.now topo.now graph.now (guarding_if_any guards)) }
{
    let topo = topo.copy(alloc)?;
    let guards = make_guards(alloc, checked, topo, graph)?;
    if guards.is_empty() {
        return Ok(None);
    }
    Ok(Some(guards))
}

/// What the graph of a checked rule file over a topology makes.
fn guard_graph(
    alloc: Global,
    checked: &Checked,
    topo: &Topo,
    graph: Graph,
) -> Result<Ruled, NoMemory>
    requires { IsInstantiated checked.now topo.now graph }
    ensures graph { IfOk result (λ ruled. (ruled_of ruled).graph ≡ graph) }
    ensures is_graph { IfOk result (λ ruled. IsGraph (ruled_of ruled).graph) }
    ensures guarding { IfOk result
        (λ ruled. MakesGuarding checked.now topo.now graph (ruled_of ruled).guarding) }
{
    // for the proof alone: that it is a graph
    let _nodes = graph.nodes();
    let guards = guards_of(alloc, checked, topo, &graph)?;
    Ruled::new(alloc, graph, guards)
}

/// What a checked rule file makes over a topology.
fn make_ruled(alloc: Global, checked: &Checked, topo: &Topo) -> Result<Ruled, InstFault>
    ensures makes { IfOk result
        (λ ruled. MakesConfiguration checked.now topo.now (ruled_of ruled)) }
    ensures refused { IfErr result (IsInstFault checked.now topo.now) }
{
    let made = instantiate(alloc, checked, topo)?;
    let ruled = guard_graph(alloc, checked, topo, made.graph)?;
    Ok(ruled)
}

/// What the text of a rule file makes over a topology.
fn read_ruled(alloc: Global, text: &[u8], topo: &Topo) -> Result<Ruled, KeptFault>
    ensures makes { IfOk result (λ ruled. TextMakes topo.now text.now (ruled_of ruled)) }
    ensures refused { IfErr result (KeptCause (IsRefusedText topo.now text.now)) }
{
    let checked = match read_rules(alloc, text) {
        Ok(checked) => checked,
        Err(RulesFault::At { place: _, kind: _ }) => return Err(KeptFault::Refused),
        Err(RulesFault::NoMemory) => return Err(KeptFault::NoMemory),
    };
    match make_ruled(alloc, &checked, topo) {
        Ok(ruled) => Ok(ruled),
        Err(InstFault::Nodes) => Err(KeptFault::Refused),
        Err(InstFault::Links) => Err(KeptFault::Refused),
        Err(InstFault::NoMemory) => Err(KeptFault::NoMemory),
    }
}

/// What the texts of rule files make over a topology, up to the first that is refused.
fn read_files(alloc: Global, texts: &[ConfText], topo: &Topo) -> Result<MadeConf, KeptFault>
    ensures make { IfOk result
        (λ made. EachHas (TextMakes topo.now) texts.now (conf_row made)) }
    ensures refused { IfErr result (KeptCause (AreRefusedTexts topo.now texts.now)) }
{
    let mut files = Vec::new(alloc);
    'texts: for text in texts {
        files.push(read_ruled(alloc, text.get(), topo)?)?;
    }
    Ok(MadeConf { files })
}

/// What the rule files of a configuration make over its topology.
fn read_conf_texts(alloc: Global, conf: &Conf) -> Result<MadeConf, KeptFault>
    ensures makes { IfOk result (λ made. ConfMakes conf.now (conf_row made)) }
    ensures refused { IfErr result (KeptCause (IsRefusedConf conf.now)) }
{
    let topo = match read_topo(alloc, conf.topo.get()) {
        Ok(topo) => topo,
        Err(TopoFault::At { line: _, kind: _ }) => return Err(KeptFault::Refused),
        Err(TopoFault::NoMemory) => return Err(KeptFault::NoMemory),
    };
    read_files(alloc, conf.rules.as_slice(), &topo)
}

/// What the configuration with this number makes.
fn read_numbered(alloc: Global, number: u32, conf: &Conf) -> Result<MadeConf, ModulesFault>
    ensures makes { IfOk result (λ made. ConfMakes conf.now (conf_row made)) }
    ensures refused { IfErr result (NumberedCause number conf.now) }
{
    match read_conf_texts(alloc, conf) {
        Ok(made) => Ok(made),
        Err(KeptFault::Refused) => Err(ModulesFault::Refused { conf: number }),
        Err(KeptFault::NoMemory) => Err(ModulesFault::NoMemory),
    }
}

/// What configurations make, up to the first that is refused. A store has at most 16.
pub(crate) fn read_confs(alloc: Global, confs: &[Conf]) -> Result<Vec<MadeConf>, ModulesFault>
    requires { length confs.now ≤ 16 }
    ensures make { IfOk result (λ mades. EachHas ConfMakes confs.now (conf_rows mades.items)) }
    ensures refused { IfErr result (ModulesCause confs.now) }
{
    let mut mades = Vec::new(alloc);
    'confs: for (number, conf) in confs.iter().enumerate() {
        mades.push(read_numbered(alloc, number as u32, conf)?)?;
    }
    Ok(mades)
}
