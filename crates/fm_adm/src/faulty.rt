//! The text of what is faulty.

ghost use Rattle.std.specs.Prelude.{◌≡◌, ◌++◌, OnOk, OnErr};
ghost use Rattle.fm_adm.specs.Faulty.{named_case, row_line, row_lines, faulty_text};

use crate::config::put_uuid;
use fm_bytes::NoMemory;
use fm_entry::{CaseName, ListEvent};
use fm_status::{Status, is_solved, put_case, put_suspects, put_text, uuid_of};
use fm_text::write_time;
use std::alloc::Global;

/// Appends the UUID and the name of a case, with a space behind each.
fn put_named_case(namespace: &[u8; 16], case: &CaseName, out: &mut Vec<u8>) -> Result<(), NoMemory>
    ensures { OnOk result (out.new.items ≡ out.old.items ++ named_case namespace.now case.now) }
{
    put_uuid(&uuid_of(namespace, case), out)?;
    put_text(" ", out)?;
    put_case(case, out)?;
    put_text(" ", out)
}

/// Appends the line of a row.
#[tactic(auto, unfolding(crate::specs::Faulty::row_line))]
fn put_row_line(namespace: &[u8; 16], row: &ListEvent, out: &mut Vec<u8>) -> Result<(), NoMemory>
    ensures { OnOk result (out.new.items ≡ out.old.items ++ row_line namespace.now row.now) }
{
    put_named_case(namespace, &row.case, out)?;
    write_time(row.moment, out)?;
    put_text("\n", out)
}

/// Appends the lines of a row, where its case is solved.
fn put_row_lines(namespace: &[u8; 16], row: &ListEvent, out: &mut Vec<u8>) -> Result<(), NoMemory>
    ensures { OnOk result (out.new.items ≡ out.old.items ++ row_lines namespace.now row.now) }
{
    if !is_solved(&row.kind) {
        return Ok(());
    }
    put_row_line(namespace, row, out)?;
    put_suspects(row.suspects.as_slice(), out)
}

/// Writes what is faulty behind what `out` holds. For each case that is solved and not yet
/// repaired, in case order, that is a line `UUID dxM/N MOMENT`, the UUID under the namespace, and a
/// line for each suspect. After `NoMemory` the buffer holds what it held.
pub fn write_faulty(
    alloc: Global,
    status: &Status,
    namespace: &[u8; 16],
    out: &mut Vec<u8>,
) -> Result<(), NoMemory>
    ensures ok { OnOk result
        (out.new.items ≡ out.old.items ++ faulty_text namespace.now status.now) }
    ensures err { OnErr result (out.new.items ≡ out.old.items) }
{
    let rows = status.rows(alloc)?;
    let mut text = Vec::new(alloc);
    'rows: for row in rows.as_slice() {
        put_row_lines(namespace, row, &mut text)?;
    }
    out.extend_from_slice(&text)?;
    Ok(())
}
