//! The listing of what rule files come to.

ghost use Rattle.std.specs.Prelude.{◌≡◌, ◌++◌, List, count_by, IfOk, OnOk};
ghost use Rattle.ev_graph.specs.Kinds.{is_report_kind, is_root_kind};
ghost use Rattle.fm_adm.specs.Config.{listing_line};
ghost use Rattle.ev_listing.specs.Listing as lists;
ghost use Rattle.ev_file.specs.declared.made.Made.{Made as WasMade};

use ev_file::{Made, read_file};
use ev_graph::Node;
use fm_adm::{ModuleSizes, put_listing};
use fm_bytes::NoMemory;
use std::alloc::Global;

/// How many of the nodes are roots.
fn count_roots(nodes: &[Node]) -> u64
    ensures { result ≡ count_by (λ node. is_root_kind node.kind) nodes.now }
{
    nodes.iter().filter(|node| node.kind.is_root()).count() as u64
}

/// How many of the nodes are reports.
fn count_reports(nodes: &[Node]) -> u64
    ensures { result ≡ count_by (λ node. is_report_kind node.kind) nodes.now }
{
    nodes.iter().filter(|node| node.kind.is_report()).count() as u64
}

/// How large what a rule file comes to is.
pub fn sizes_of(made: &Made) -> ModuleSizes
    ensures { result ≡ lists.sizes_of made.now }
{
    let nodes = made.graph.nodes();
    ModuleSizes {
        events: nodes.len() as u64,
        roots: count_roots(nodes),
        reports: count_reports(nodes),
        instances: made.graph.instances().len() as u64,
        skipped: made.skipped,
    }
}

/// Appends the line of the rule file with this number. After `NoMemory` the buffer holds what it
/// held, and perhaps a part of the line.
pub fn put_listing_of(number: u64, made: &Made, out: &mut Vec<u8>) -> Result<(), NoMemory>
    ensures { OnOk result (out.new.items
        ≡ out.old.items ++ listing_line number (lists.sizes_of made.now)) }
{
    put_listing(number, &sizes_of(made), out)
}

/// Appends the lines of the compiled files in these bytes, in order, numbered from 0, up to the
/// first bad one; the place of its first byte, or None where all are good. After `NoMemory` the
/// buffer holds what it held, and perhaps a part of the lines.
pub fn put_files(alloc: Global, bytes: &[u8], out: &mut Vec<u8>) -> Result<Option<usize>, NoMemory>
    ensures { IfOk result (λ bad. (mades : List WasMade) × ((lists.AreFiles mades bytes.now bad)
        × (out.new.items ≡ out.old.items ++ lists.listing mades))) }
{
    let mut at = 0;
    let mut number: u64 = 0;
    'files: while at < bytes.len() {
        match read_file(alloc, &bytes[at..])? {
            Some((made, size)) => {
                put_listing_of(number, &made, out)?;
                at += size;
                number += 1;
            }
            None => return Ok(Some(at)),
        }
    }
    Ok(None)
}
