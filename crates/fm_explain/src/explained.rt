//! The text of a case's row.

ghost use Rattle.std.specs.Prelude.{◌≡◌, ◌⊎◌, ◌++◌, ◌<◌, ◌^◌, ℕ, List, flat_map, IfOk, OnOk};
ghost use Rattle.std.specs.Prelude.{OnErr, true};
ghost use Rattle.std.specs.Option.{option_map};
ghost use Rattle.ev_incidence.specs.Sets.{ascends};
ghost use Rattle.ev_graph.specs.Wired.{wiring};
ghost use Rattle.ev_graph.specs.Cutting.{AreLinks, is_cut};
ghost use Rattle.dx_explain.specs.Explaining.{AreMembers, FitsGraph, set_of};
ghost use Rattle.fm_explain.specs.Explained.{event_line, node_line, node_lines, suspect_head};
ghost use Rattle.fm_explain.specs.Explained.{IsStoryTold};
ghost use Rattle.fm_explain.specs.Explained.{IsSuspectTold, AreSuspectsTold};
ghost use Rattle.fm_explain.specs.Explained.{IsRowTold, IsRowForeign};
ghost use Rattle.fm_explain.specs.Explained.{IsExplained};

use crate::story::{links_of, reports_named, root_of};
use dx_explain::{Scratch, explain_in};
use dx_story::are_links;
use ev_graph::{Graph, Link, NoMemory, Node};
use fm_entry::{ListEvent, Suspect};
use fm_name::EventName;
use fm_status::{put_event, put_text};
use std::alloc::Global;

/// Appends the line of an event.
fn put_event_line(name: &EventName, out: &mut Vec<u8>) -> Result<(), NoMemory>
    ensures { OnOk result (out.new.items ≡ out.old.items ++ event_line name.now) }
{
    put_text("  ", out)?;
    put_event(&name.class, &name.path, out)?;
    put_text("\n", out)
}

/// Appends the line of an event of the graph.
fn put_node_line(nodes: &[Node], event: u32, out: &mut Vec<u8>) -> Result<(), NoMemory>
    ensures { OnOk result (out.new.items ≡ out.old.items ++ node_line nodes.now event) }
{
    match nodes.get(event as usize) {
        Some(node) => put_event_line(&node.name, out),
        None => Ok(()),
    }
}

/// Appends the lines of some events of the graph.
fn put_node_lines(nodes: &[Node], story: &[u32], out: &mut Vec<u8>) -> Result<(), NoMemory>
    ensures { OnOk result (out.new.items ≡ out.old.items ++ node_lines nodes.now story.now) }
{
    'events: for event in story {
        put_node_line(nodes, *event, out)?;
    }
    Ok(())
}

/// Appends the head line of a suspect.
fn put_head(suspect: &Suspect, out: &mut Vec<u8>) -> Result<(), NoMemory>
    ensures { OnOk result (out.new.items ≡ out.old.items ++ suspect_head suspect.now) }
{
    put_text("suspect ", out)?;
    put_event(&suspect.class, &suspect.path, out)?;
    put_text("\n", out)
}

/// Appends the head lines of suspects.
fn put_heads(suspects: &[Suspect], out: &mut Vec<u8>) -> Result<(), NoMemory>
    ensures { OnOk result (out.new.items ≡ out.old.items ++ flat_map suspect_head suspects.now) }
{
    'suspects: for suspect in suspects {
        put_head(suspect, out)?;
    }
    Ok(())
}

/// The events of the set that was found, ascending.
fn members_of(alloc: Global, count: usize, room: &Scratch) -> Result<Vec<u32>, NoMemory>
    requires { count < 2 ^ 32 }
    ensures { IfOk result (λ list. AreMembers (set_of room.now) count list.items) }
{
    let mut list = Vec::new(alloc);
    for node in 0..count as u32 {
        if room.has(node) {
            list.push(node)?;
        }
    }
    Ok(list)
}

/// What the stories of a row's suspects are told of: the graph, the links that are cut, and the
/// reports that were observed.
#[derive(Drop)]
struct Ground<'a> {
    graph: &'a Graph,
    less: Vec<Link>,
    reports: Vec<u32>,
}

/// Appends the lines of what a root accounts for.
fn put_story(
    alloc: Global,
    ground: &Ground<'_>,
    root: u32,
    out: &mut Vec<u8>,
) -> Result<(), NoMemory>
    requires links { AreLinks (wiring ground.now.graph.now.instances) ground.now.less.items }
    requires ascend { ascends ground.now.reports.items ≡ true }
    ensures { OnOk result ((text : List ℕ) × IsStoryTold ground.now.graph.now
        (is_cut ground.now.less.items) root ground.now.reports.items text
        × (out.new.items ≡ out.old.items ++ text)) }
{
    let mut room = Scratch::new(alloc, ground.graph)?;
    if !explain_in(
        ground.graph,
        &ground.less,
        root,
        &[],
        &ground.reports,
        &mut room,
    ) {
        return Ok(());
    }
    let story = members_of(alloc, ground.graph.node_count(), &room)?;
    put_node_lines(ground.graph.nodes(), &story, out)
}

/// Appends the text of a suspect.
fn put_suspect(
    alloc: Global,
    ground: &Ground<'_>,
    suspect: &Suspect,
    out: &mut Vec<u8>,
) -> Result<(), NoMemory>
    requires links { AreLinks (wiring ground.now.graph.now.instances) ground.now.less.items }
    requires ascend { ascends ground.now.reports.items ≡ true }
    ensures { OnOk result ((text : List ℕ) × IsSuspectTold ground.now.graph.now
        ground.now.less.items ground.now.reports.items suspect.now text
        × (out.new.items ≡ out.old.items ++ text)) }
{
    put_head(suspect, out)?;
    match root_of(ground.graph, suspect)? {
        Some(root) => put_story(alloc, ground, root, out),
        None => Ok(()),
    }
}

/// Appends the texts of suspects.
fn put_suspects(
    alloc: Global,
    ground: &Ground<'_>,
    suspects: &[Suspect],
    out: &mut Vec<u8>,
) -> Result<(), NoMemory>
    requires links { AreLinks (wiring ground.now.graph.now.instances) ground.now.less.items }
    requires ascend { ascends ground.now.reports.items ≡ true }
    ensures { OnOk result ((text : List ℕ) × AreSuspectsTold ground.now.graph.now
        ground.now.less.items ground.now.reports.items suspects.now text
        × (out.new.items ≡ out.old.items ++ text)) }
{
    'suspects: for suspect in suspects {
        put_suspect(alloc, ground, suspect, out)?;
    }
    Ok(())
}

/// Appends the texts of a row's suspects in the graph.
fn put_row(alloc: Global, graph: &Graph, row: &ListEvent, out: &mut Vec<u8>) -> Result<(), NoMemory>
    ensures { OnOk result ((text : List ℕ)
        × (IsRowTold graph.now row.now text ⊎ IsRowForeign graph.now row.now text)
        × (out.new.items ≡ out.old.items ++ text)) }
{
    let less = links_of(alloc, row.broken.as_slice())?;
    if !are_links(graph, &less) {
        return put_heads(row.suspects.as_slice(), out);
    }
    let reports = reports_named(alloc, graph, row.observed.as_slice())?;
    let ground = Ground {
        graph,
        less,
        reports,
    };
    put_suspects(alloc, &ground, row.suspects.as_slice(), out)
}

/// Appends the text of a row: for each suspect the line `suspect CLASS PATH`, and a line for each
/// event of its greatest story with no report but those observed, in the graph less the row's
/// broken links, in order. `graph` is that of the row's configuration; where none is kept, or the
/// row's broken links are not all of it, the suspects alone are put. Of a row without suspects the
/// text is `no root`. After `NoMemory` the buffer holds what it held.
pub fn put_explained(
    alloc: Global,
    graph: Option<&Graph>,
    row: &ListEvent,
    out: &mut Vec<u8>,
) -> Result<(), NoMemory>
    ensures ok { OnOk result ((text : List ℕ) × IsExplained (option_map (λ g. g.now) graph.entry)
        row.now text × (out.new.items ≡ out.old.items ++ text)) }
    ensures err { OnErr result (out.new.items ≡ out.old.items) }
{
    let suspects = row.suspects.as_slice();
    let mut text = Vec::new(alloc);
    match graph {
        _ if suspects.is_empty() => put_text("no root\n", &mut text)?,
        Some(graph) => put_row(alloc, graph, row, &mut text)?,
        None => put_heads(suspects, &mut text)?,
    }
    out.extend_from_slice(&text)?;
    Ok(())
}
