//! The bytes that spell an entry, written.

ghost use Rattle.std.specs.Prelude.{◌≡◌, ◌++◌, OnOk, OnErr};
ghost use Rattle.fm_entry.specs.Entries.{IsSpelled, entry_bytes};
ghost use Rattle.fm_entry.specs.declared.entry.Entry.TheVariants.{Report, Tick, Repaired, Replaced};
ghost use Rattle.fm_entry.specs.declared.entry.Entry.TheVariants.{Acquit, Reload};

use crate::case_name::CaseName;
use crate::entry::Entry;
use fm_bytes::{NoMemory, put_short_text, put_u8, put_u32, put_u64};
use fm_name::{Class, Fmri};
use fm_nv::{Nv, write_nv};

/// How many bytes are taken at first for those of an entry. Most take no more.
const USUAL_SIZE: usize = 128;

/// Appends the bytes that spell the entry.
pub fn write_entry(entry: &Entry, out: &mut Vec<u8>) -> Result<(), NoMemory>
    requires { IsSpelled entry.now }
    ensures ok { OnOk result (out.new.items ≡ out.old.items ++ entry_bytes entry.now) }
    ensures err { OnErr result (out.new.items ≡ out.old.items) }
{
    let mut spelling = Vec::with_capacity(*out.allocator(), USUAL_SIZE)?;
    put_entry(entry, &mut spelling)?;
    out.extend_from_slice(&spelling)?;
    Ok(())
}

/// Writes an entry: the byte of its kind, and its fields.
fn put_entry(entry: &Entry, out: &mut Vec<u8>) -> Result<(), NoMemory>
    ensures ok { OnOk result (out.new.items ≡ out.old.items ++ entry_bytes entry.now) }
{
    match entry {
        Entry::Report {
            class,
            path,
            moment,
            payload,
        } => put_report(class, path, *moment, payload, out),
        Entry::Tick { moment } => put_tick(*moment, out),
        Entry::Repaired { path, moment } => put_repaired(path, *moment, out),
        Entry::Replaced { path, moment } => put_replaced(path, *moment, out),
        Entry::Acquit { case, moment } => put_acquit(*case, *moment, out),
        Entry::Reload { conf, moment } => put_reload(*conf, *moment, out),
    }
}

/// Writes a report.
fn put_report(
    class: &Class,
    path: &Fmri,
    moment: u64,
    payload: &Nv,
    out: &mut Vec<u8>,
) -> Result<(), NoMemory>
    ensures ok { OnOk result
        (out.new.items ≡ out.old.items
        ++ entry_bytes (Report class.now path.now moment payload.now)) }
{
    put_u8(1, out)?;
    put_short_text(class.text(), out)?;
    put_short_text(path.text(), out)?;
    put_u64(moment, out)?;
    write_nv(payload, out)?;
    Ok(())
}

/// Writes a tick.
fn put_tick(moment: u64, out: &mut Vec<u8>) -> Result<(), NoMemory>
    ensures ok { OnOk result (out.new.items ≡ out.old.items ++ entry_bytes (Tick moment)) }
{
    put_u8(2, out)?;
    put_u64(moment, out)?;
    Ok(())
}

/// Writes a repair.
fn put_repaired(path: &Fmri, moment: u64, out: &mut Vec<u8>) -> Result<(), NoMemory>
    ensures ok { OnOk result
        (out.new.items ≡ out.old.items ++ entry_bytes (Repaired path.now moment)) }
{
    put_u8(3, out)?;
    put_short_text(path.text(), out)?;
    put_u64(moment, out)?;
    Ok(())
}

/// Writes a replacement.
fn put_replaced(path: &Fmri, moment: u64, out: &mut Vec<u8>) -> Result<(), NoMemory>
    ensures ok { OnOk result
        (out.new.items ≡ out.old.items ++ entry_bytes (Replaced path.now moment)) }
{
    put_u8(4, out)?;
    put_short_text(path.text(), out)?;
    put_u64(moment, out)?;
    Ok(())
}

/// Writes an acquittal.
fn put_acquit(case: CaseName, moment: u64, out: &mut Vec<u8>) -> Result<(), NoMemory>
    ensures ok { OnOk result (out.new.items ≡ out.old.items ++ entry_bytes (Acquit case moment)) }
{
    put_u8(5, out)?;
    put_u32(case.module, out)?;
    put_u64(case.case, out)?;
    put_u64(moment, out)?;
    Ok(())
}

/// Writes a reload.
fn put_reload(conf: u32, moment: u64, out: &mut Vec<u8>) -> Result<(), NoMemory>
    ensures ok { OnOk result (out.new.items ≡ out.old.items ++ entry_bytes (Reload conf moment)) }
{
    put_u8(6, out)?;
    put_u32(conf, out)?;
    put_u64(moment, out)?;
    Ok(())
}
