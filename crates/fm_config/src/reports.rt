//! The events of reports that a configuration comes to.

ghost use Rattle.std.specs.Prelude.{◌≡◌, ◌++◌, IsTrue, OnOk, IfOk, IfErr};
ghost use Rattle.std.specs.List.{list_all};
ghost use Rattle.fm_modules.specs.KeptTexts.{AreRefusedTexts, IsRefusedConf, IsRefusedText};
ghost use Rattle.fm_name.specs.Category.{is_ereport};
ghost use Rattle.fm_config.specs.Reports.{AreAppended, AreGathered, AreOnce, AreReportsOf};
ghost use Rattle.fm_config.specs.Reports.{report_names};
ghost use Rattle.fm_config.specs.Sizes.{ConfCause};

use crate::fault::ConfFault;
use crate::made::{text_made, text_topo};
use ev_graph::Node;
use fm_bytes::NoMemory;
use fm_name::EventName;
use fm_saved::{Conf, ConfText};
use fm_topo::Topo;
use std::alloc::Global;

/// Appends the events of the nodes that are reports.
fn put_nodes(nodes: &[Node], events: &mut Vec<EventName>) -> Result<(), NoMemory>
    ensures { OnOk result (events.new.items ≡ events.old.items ++ report_names nodes.now) }
{
    'nodes: for node in nodes {
        if node.name.class.is_ereport() {
            events.push(node.name.copy()?)?;
        }
    }
    Ok(())
}

/// Appends the reports of what the text of a rule file comes to over a topology.
fn put_reports(
    alloc: Global,
    text: &[u8],
    topo: &Topo,
    events: &mut Vec<EventName>,
) -> Result<(), ConfFault>
    ensures put { OnOk result (AreAppended topo.now text.now events.old.items events.new.items) }
    ensures refused { IfErr result (ConfCause (IsRefusedText topo.now text.now)) }
{
    let made = text_made(alloc, text, topo)?;
    put_nodes(made.graph.nodes(), events)?;
    Ok(())
}

/// The reports of what texts come to over a topology, text by text.
fn gather_reports(
    alloc: Global,
    texts: &[ConfText],
    topo: &Topo,
) -> Result<Vec<EventName>, ConfFault>
    ensures gathered { IfOk result (λ events. AreGathered topo.now texts.now events.items) }
    ensures refused { IfErr result (ConfCause (AreRefusedTexts topo.now texts.now)) }
{
    let mut events = Vec::new(alloc);
    'texts: for text in texts {
        put_reports(alloc, text.get(), topo, &mut events)?;
    }
    Ok(events)
}

/// The events, each once and in event order.
fn keep_once(mut events: Vec<EventName>) -> Vec<EventName>
    ensures { AreOnce events.items result.items }
{
    events.sort_unstable();
    events.dedup();
    events
}

/// The events of reports that the rule files of a configuration come to over its topology, each
/// once and in event order.
pub fn conf_reports(alloc: Global, conf: &Conf) -> Result<Vec<EventName>, ConfFault>
    ensures reports { IfOk result (λ events. AreReportsOf conf.now events.items) }
    ensures category { IfOk result
        (λ events. IsTrue (list_all (λ event. is_ereport event.class) events.items)) }
    ensures refused { IfErr result (ConfCause (IsRefusedConf conf.now)) }
{
    let topo = text_topo(alloc, conf.topo.get())?;
    let events = gather_reports(alloc, conf.rules.as_slice(), &topo)?;
    Ok(keep_once(events))
}
