//! A look at one list of a list of lists.
ghost use Rattle.std.specs.Prelude.{◌≡◌};
ghost use Rattle.ev_ways.specs.Lists.{row};

use fm_bytes::Items;

/// The numbers of the list at a place, none past the end.
pub(crate) fn row_of(rows: &[Items<u32>], at: u32) -> &[u32]
    ensures { result.now ≡ row rows.now at }
{
    match rows.get(at as usize) {
        Some(row) => row.as_slice(),
        None => &[],
    }
}
