//! For each node, the lists in which it stands.
ghost use Rattle.std.specs.Prelude.{◌≡◌, ◌<◌, ◌^◌, ℕ, length, IfOk, OnOk, []};
ghost use Rattle.ev_ways.specs.Lists.{IsIndexOf, IsTurned, Notes, RowsBelow, AllBelow, row};

use fm_bytes::{Items, NoMemory};
use std::alloc::Global;

/// For each of `count` nodes, the lists of `rows` in which it stands, once for each time that it
/// stands there.
pub(crate) fn index(
    alloc: Global,
    count: u32,
    rows: &[Items<u32>],
) -> Result<Vec<Items<u32>>, NoMemory>
    requires inside { RowsBelow count rows.now }
    requires few { length rows.now < 2 ^ 32 }
    ensures nodes { IfOk result (λ uses. length uses.items ≡ count) }
    ensures index { IfOk result (λ uses. IsTurned rows.now uses.items) }
    ensures below { IfOk result (λ uses. RowsBelow (length rows.now) uses.items) }
{
    let mut uses = empty_rows(alloc, count)?;
    note_all(rows, uses.as_mut_slice())?;
    Ok(uses)
}

/// Notes each list in the rows of its members.
fn note_all(rows: &[Items<u32>], uses: &mut [Items<u32>]) -> Result<(), NoMemory>
    requires inside { RowsBelow (length uses.old) rows.now }
    requires few { length rows.now < 2 ^ 32 }
    requires empty { (x : ℕ) → row uses.old x ≡ [] }
    ensures index { OnOk result (IsIndexOf (length rows.now) rows.now uses.new) }
{
    let mut arrow: u32 = 0;
    for row in rows {
        note(row.as_slice(), arrow, uses)?;
        arrow += 1;
    }
    Ok(())
}

/// So many lists without a member.
fn empty_rows(alloc: Global, count: u32) -> Result<Vec<Items<u32>>, NoMemory>
    ensures nodes { IfOk result (λ uses. length uses.items ≡ count) }
    ensures empty { IfOk result (λ uses. (x : ℕ) → row uses.items x ≡ []) }
{
    let mut uses = Vec::new(alloc);
    for _ in 0..count {
        uses.push(Items::new(Vec::new(alloc)))?;
    }
    Ok(uses)
}

/// Puts `arrow` into the row of each of the members.
fn note(members: &[u32], arrow: u32, uses: &mut [Items<u32>]) -> Result<(), NoMemory>
    requires inside { AllBelow (length uses.old) members.now }
    ensures notes { OnOk result (Notes members.now arrow (length members.now) uses.old uses.new) }
{
    for node in members {
        uses[*node as usize].push(arrow)?;
    }
    Ok(())
}
