// The last line, and the status.
ghost use Rattle.std.specs.Prelude.{◌≡◌, ◌⊎◌, ◌≤◌, [], Ok, Err, OnOk, IfErr};
ghost use Rattle.std.specs.Io.KnownBytes.{Appends};
ghost use Rattle.fm_journal.specs.declared.fault.FullKind.TheVariants as full;
ghost use Rattle.fm_answers.specs.Accounts.{Accounts};
ghost use Rattle.fm_answers.specs.Stops.{last_text, kind_text, disk_text, limit_text};
ghost use Rattle.fm_answers.specs.StreamsAt.{sink_at};
ghost use Rattle.fm_answers.specs.Refusing.{PutCut};
ghost use Rattle.fm_answers.specs.Ending.{EndsAs};

use crate::answering::put_text;
use crate::status::ToolStatus;
use crate::stops::Stop;
use fm_esc::GraphLimit;
use fm_init::DiskName;
use fm_journal::FullKind;
use fm_outer::Sink;
use fm_refusals::{rules_line, topology_line};
use fm_sources::RulesKind;
use fm_topo::TopoKind;
use std::alloc::Global;

/// Tells which limit is reached.
fn put_full<K: Sink>(kind: FullKind, out: &mut K) -> Result<(), Stop>
    ensures ok { OnOk result
        (Appends (K.put_bytes out.old) (K.put_bytes out.new) (last_text (Stop.Full kind))) }
    ensures err { IfErr result
        (PutCut (sink_at K.Sink out.old) (sink_at K.Sink out.new) (last_text (Stop.Full kind))) }
    ensures counts { Accounts Stop.Write (K.failures out.old) (K.failures out.new) result }
{
    match kind {
        FullKind::Records => put_text(out, "full records\n"),
        FullKind::Numbers => put_text(out, "full numbers\n"),
        FullKind::Bytes => put_text(out, "full bytes\n"),
        FullKind::Payload => put_text(out, "full payload\n"),
        FullKind::Input => put_text(out, "full input\n"),
    }
}

/// The name of a disk.
fn disk_word(disk: DiskName) -> &'static str
    ensures { result.now ≡ disk_text disk }
{
    match disk {
        DiskName::Conf => "conf",
        DiskName::ErrA => "err_a",
        DiskName::ErrB => "err_b",
        DiskName::SlotA => "slot_a",
        DiskName::SlotB => "slot_b",
        DiskName::Flt => "flt",
    }
}

/// Tells where a disk is damaged.
#[tactic(auto, using(crate::proofs::Sinks::appends_none))]
fn put_damaged<K: Sink>(alloc: Global, disk: DiskName, place: u64, out: &mut K) -> Result<(), Stop>
    ensures ok { OnOk result
        (Appends (K.put_bytes out.old) (K.put_bytes out.new)
        (last_text (Stop.Damaged disk place))) }
    ensures err { IfErr result
        (PutCut (sink_at K.Sink out.old) (sink_at K.Sink out.new)
        (last_text (Stop.Damaged disk place))) }
    ensures counts { Accounts Stop.Write (K.failures out.old) (K.failures out.new) result }
{
    let name = disk_word(disk);
    let text = format!(in alloc; "damaged {name} {place}\n")?;
    put_text(out, text.as_str())
}

/// Tells which rule file is refused, where and why.
#[tactic(auto, using(crate::proofs::Sinks::appends_none))]
fn put_rules<K: Sink>(
    alloc: Global,
    file: u32,
    place: u32,
    kind: &RulesKind,
    out: &mut K,
) -> Result<(), Stop>
    ensures ok { OnOk result
        (Appends (K.put_bytes out.old) (K.put_bytes out.new)
        (last_text (Stop.Rules file place kind.now))) }
    ensures err { IfErr result
        (PutCut (sink_at K.Sink out.old) (sink_at K.Sink out.new)
        (last_text (Stop.Rules file place kind.now))) }
    ensures counts { Accounts Stop.Write (K.failures out.old) (K.failures out.new) result }
{
    let text = rules_line(alloc, file, place, kind)?;
    put_text(out, text.as_str())
}

/// Tells which line of the topology is refused, and why.
#[tactic(auto, using(crate::proofs::Sinks::appends_none))]
fn put_topology<K: Sink>(alloc: Global, line: u32, kind: TopoKind, out: &mut K) -> Result<(), Stop>
    ensures ok { OnOk result
        (Appends (K.put_bytes out.old) (K.put_bytes out.new)
        (last_text (Stop.Topology line kind))) }
    ensures err { IfErr result
        (PutCut (sink_at K.Sink out.old) (sink_at K.Sink out.new)
        (last_text (Stop.Topology line kind))) }
    ensures counts { Accounts Stop.Write (K.failures out.old) (K.failures out.new) result }
{
    let text = topology_line(alloc, line, kind)?;
    put_text(out, text.as_str())
}

/// The word for a limit of graphs.
fn limit_word(limit: GraphLimit) -> &'static str
    ensures { result.now ≡ limit_text limit }
{
    match limit {
        GraphLimit::Nodes => "nodes",
        GraphLimit::Links => "links",
    }
}

/// Tells which rule file comes to more than a limit.
#[tactic(auto, using(crate::proofs::Sinks::appends_none))]
fn put_graph<K: Sink>(alloc: Global, file: u32, limit: GraphLimit, out: &mut K) -> Result<(), Stop>
    ensures ok { OnOk result
        (Appends (K.put_bytes out.old) (K.put_bytes out.new)
        (last_text (Stop.Graph file limit))) }
    ensures err { IfErr result
        (PutCut (sink_at K.Sink out.old) (sink_at K.Sink out.new)
        (last_text (Stop.Graph file limit))) }
    ensures counts { Accounts Stop.Write (K.failures out.old) (K.failures out.new) result }
{
    let word = limit_word(limit);
    let text = format!(in alloc; "graph {file} {word}\n")?;
    put_text(out, text.as_str())
}

/// Tells where the input holds no compiled file.
#[tactic(auto, using(crate::proofs::Sinks::appends_none))]
fn put_damaged_input<K: Sink>(alloc: Global, place: u64, out: &mut K) -> Result<(), Stop>
    ensures ok { OnOk result
        (Appends (K.put_bytes out.old) (K.put_bytes out.new)
        (last_text (Stop.DamagedInput place))) }
    ensures err { IfErr result
        (PutCut (sink_at K.Sink out.old) (sink_at K.Sink out.new)
        (last_text (Stop.DamagedInput place))) }
    ensures counts { Accounts Stop.Write (K.failures out.old) (K.failures out.new) result }
{
    let text = format!(in alloc; "damaged input {place}\n")?;
    put_text(out, text.as_str())
}

/// Tells which actuator failed.
#[tactic(auto, using(crate::proofs::Sinks::appends_none))]
fn put_act<K: Sink>(alloc: Global, index: u32, out: &mut K) -> Result<(), Stop>
    ensures ok { OnOk result
        (Appends (K.put_bytes out.old) (K.put_bytes out.new) (last_text (Stop.Act index))) }
    ensures err { IfErr result
        (PutCut (sink_at K.Sink out.old) (sink_at K.Sink out.new) (last_text (Stop.Act index))) }
    ensures counts { Accounts Stop.Write (K.failures out.old) (K.failures out.new) result }
{
    let text = format!(in alloc; "actuator fault {index}\n")?;
    put_text(out, text.as_str())
}

/// Puts the last line, if there is one.
fn put_last<K: Sink>(alloc: Global, stop: &Stop, out: &mut K) -> Result<(), Stop>
    ensures ok { OnOk result
        (Appends (K.put_bytes out.old) (K.put_bytes out.new) (last_text stop.now)) }
    ensures err { IfErr result
        (PutCut (sink_at K.Sink out.old) (sink_at K.Sink out.new) (last_text stop.now)) }
    ensures counts { Accounts Stop.Write (K.failures out.old) (K.failures out.new) result }
{
    match stop {
        Stop::Usage => put_text(out, "usage\n"),
        Stop::Rules { file, place, kind } => put_rules(alloc, *file, *place, kind, out),
        Stop::Topology { line, kind } => put_topology(alloc, *line, *kind, out),
        Stop::Graph { file, limit } => put_graph(alloc, *file, *limit, out),
        Stop::DamagedInput { place } => put_damaged_input(alloc, *place, out),
        Stop::Damaged { disk, place } => put_damaged(alloc, *disk, *place, out),
        Stop::Read => put_text(out, "read fault\n"),
        Stop::Disk => put_text(out, "disk fault\n"),
        Stop::Full(kind) => put_full(*kind, out),
        Stop::Exists => put_text(out, "store exists\n"),
        Stop::Differs => put_text(out, "configuration differs\n"),
        Stop::NotFaulty => put_text(out, "not faulty\n"),
        Stop::NotFound => put_text(out, "not found\n"),
        Stop::Act { index } => put_act(alloc, *index, out),
        Stop::Write | Stop::Memory => Ok(()),
    }
}

/// Puts the last line of a command that stopped, and gives the status. Where that line can't be put
/// whole, the status tells why.
pub fn end<K: Sink>(alloc: Global, ran: Result<(), Stop>, out: &mut K) -> ToolStatus
    ensures { EndsAs (sink_at K.Sink out.old) (sink_at K.Sink out.new) ran result }
{
    match ran {
        Ok(()) => ToolStatus::Done,
        Err(stop) => match put_last(alloc, &stop, out) {
            Ok(()) => stop.status(),
            Err(cut) => cut.status(),
        },
    }
}
