//! The text of a configuration.

ghost use Rattle.std.specs.Prelude.{◌≡◌, ◌++◌, OnOk, OnErr};
ghost use Rattle.fm_adm.specs.Config.{named_count, events_part, instances_part, listing_line};
ghost use Rattle.uuid.specs.Text.{hyphenated_text, lower};
ghost use Rattle.fm_adm.specs.Config.{listing_lines, namespace_line, config_text};

use fm_bytes::NoMemory;
use fm_status::{put_number, put_text};
use std::alloc::Global;
use uuid::Uuid;

/// How large the graph of a module is.
#[derive(Clone, Copy, Debug)]
pub struct ModuleSizes {
    /// Its events.
    pub events: u64,
    /// Those of them that are roots.
    pub roots: u64,
    /// Those of them that are reports.
    pub reports: u64,
    /// The instances of its statements.
    pub instances: u64,
    /// How many more weren't made, since they could never hold.
    pub skipped: u64,
}

/// Appends a name and a count behind it.
#[tactic(auto, unfolding(crate::specs::Config::named_count))]
pub(crate) fn put_named_count(name: &str, count: u64, out: &mut Vec<u8>) -> Result<(), NoMemory>
    ensures { OnOk result (out.new.items ≡ out.old.items ++ named_count name.now count) }
{
    put_text(name, out)?;
    put_number(count, out)
}

/// Appends the counts of events.
fn put_events_part(sizes: &ModuleSizes, out: &mut Vec<u8>) -> Result<(), NoMemory>
    ensures { OnOk result (out.new.items ≡ out.old.items ++ events_part sizes.now) }
{
    put_named_count(" events ", sizes.events, out)?;
    put_named_count(" roots ", sizes.roots, out)?;
    put_named_count(" reports ", sizes.reports, out)
}

/// Appends the counts of instances, which end the line.
fn put_instances_part(sizes: &ModuleSizes, out: &mut Vec<u8>) -> Result<(), NoMemory>
    ensures { OnOk result (out.new.items ≡ out.old.items ++ instances_part sizes.now) }
{
    put_named_count(" instances ", sizes.instances, out)?;
    put_named_count(" skipped ", sizes.skipped, out)?;
    put_text("\n", out)
}

/// Writes the line of the module with this number behind what `out` holds:
/// `dxM events E roots R reports P instances I skipped K`. After `NoMemory` the buffer holds what
/// it held, and perhaps a part of the line.
#[tactic(auto, unfolding(crate::specs::Config::listing_line))]
pub fn put_listing(number: u64, sizes: &ModuleSizes, out: &mut Vec<u8>) -> Result<(), NoMemory>
    ensures { OnOk result (out.new.items ≡ out.old.items ++ listing_line number sizes.now) }
{
    put_named_count("dx", number, out)?;
    put_events_part(sizes, out)?;
    put_instances_part(sizes, out)
}

/// Appends a UUID, with hyphens and in lower case.
pub(crate) fn put_uuid(uuid: &Uuid, out: &mut Vec<u8>) -> Result<(), NoMemory>
    ensures { OnOk result (out.new.items ≡ out.old.items ++ hyphenated_text lower uuid.now) }
{
    let mut buffer = Uuid::encode_buffer();
    put_text(uuid.hyphenated().encode_lower(&mut buffer), out)
}

/// Appends the line of the namespace.
fn put_namespace_line(namespace: &[u8; 16], out: &mut Vec<u8>) -> Result<(), NoMemory>
    ensures { OnOk result (out.new.items ≡ out.old.items ++ namespace_line namespace.now) }
{
    put_text("namespace ", out)?;
    put_uuid(&Uuid::from_bytes(*namespace), out)?;
    put_text("\n", out)
}

/// Writes a configuration behind what `out` holds: a line `namespace UUID`, and a line for each
/// module, which are numbered from 0. After `NoMemory` the buffer holds what it held.
pub fn write_config(
    alloc: Global,
    namespace: &[u8; 16],
    modules: &[ModuleSizes],
    out: &mut Vec<u8>,
) -> Result<(), NoMemory>
    ensures ok { OnOk result
        (out.new.items ≡ out.old.items ++ config_text namespace.now modules.now) }
    ensures err { OnErr result (out.new.items ≡ out.old.items) }
{
    let mut text = Vec::new(alloc);
    put_namespace_line(namespace, &mut text)?;
    'modules: for (number, sizes) in modules.iter().enumerate() {
        put_listing(number as u64, sizes, &mut text)?;
    }
    out.extend_from_slice(&text)?;
    Ok(())
}
