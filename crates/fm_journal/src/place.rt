// Records by their places.
ghost use Rattle.std.specs.Prelude.{◌≡◌, ℕ, ◌+◌, ◌<◌, ◌≤◌, ◌^◌, List, length, take, Some, IfOk};
ghost use Rattle.std.specs.Prelude.{IfSome};
ghost use Rattle.fm_outer.specs.Bytes.{range, InsideRange};
ghost use Rattle.fm_outer.specs.Failures.{HasCause};
ghost use Rattle.fm_outer.specs.Moments.{OnlyRead};
ghost use Rattle.fm_journal.specs.Look.{ShowsNext};
ghost use Rattle.fm_journal.specs.Pieces.{IsPiece};

use crate::look::{FRONT, Look, look_at, look_in};
use crate::piece::Piece;
use fm_outer::{Disk, Failed};

/// So many bytes from a place on, in front of an array.
fn front_at<D: Disk>(disk: &mut D, at: u64, count: usize) -> Result<[u8; 6], Failed>
    requires few { count ≤ 6 }
    requires inside { InsideRange at count (D.seen disk.old) }
    ensures front { IfOk result (λ front. (bytes : List ℕ) → D.seen disk.old ≡ Some bytes
        → range at count bytes ≡ take count front) }
    ensures still { OnlyRead D.Disk disk.old disk.new }
    ensures cause { HasCause (D.failures disk.old) (D.failures disk.new) result }
{
    let mut front = [0; 6];
    disk.read(at, &mut front[..count])?;
    Ok(front)
}

/// The place behind the record at a place, if one stands there that ends by the gate at `end`.
pub(crate) fn next_of<D: Disk>(disk: &mut D, at: u64, end: u64) -> Result<Option<u64>, Failed>
    requires small { end < 2 ^ 40 }
    requires inside { (bytes : List ℕ) → D.seen disk.old ≡ Some bytes → end < length bytes }
    ensures within { IfOk result (λ found. IfSome found
        (λ next. (at + 5 ≤ next) × (next ≤ end) × (next ≤ at + 5 + 2 ^ 28))) }
    ensures shows { IfOk result (λ found. (bytes : List ℕ) → D.seen disk.old ≡ Some bytes
        → ShowsNext (take (end + 1) bytes) at found) }
    ensures still { OnlyRead D.Disk disk.old disk.new }
    ensures cause { HasCause (D.failures disk.old) (D.failures disk.new) result }
{
    if at > end {
        return Ok(None);
    }
    let count = FRONT.min(end + 1 - at) as usize;
    let front = front_at(disk, at, count)?;
    match look_in(&front[..count], at, end + 1) {
        Look::Record(next) => Ok(Some(next)),
        Look::Shut => Ok(None),
        Look::Bad => Ok(None),
    }
}

/// The same by a piece, through which the records before it were read.
pub(crate) fn next_in<D: Disk>(
    disk: &mut D,
    piece: &mut Piece,
    at: u64,
    end: u64,
) -> Result<Option<u64>, Failed>
    requires small { end < 2 ^ 40 }
    requires inside { (bytes : List ℕ) → D.seen disk.old ≡ Some bytes → end < length bytes }
    requires read { IsPiece (D.seen disk.old) piece.old }
    ensures within { IfOk result (λ found. IfSome found
        (λ next. (at + 5 ≤ next) × (next ≤ end) × (next ≤ at + 5 + 2 ^ 28))) }
    ensures shows { IfOk result (λ found. (bytes : List ℕ) → D.seen disk.old ≡ Some bytes
        → ShowsNext (take (end + 1) bytes) at found) }
    ensures read { IsPiece (D.seen disk.old) piece.new }
    ensures still { OnlyRead D.Disk disk.old disk.new }
    ensures cause { HasCause (D.failures disk.old) (D.failures disk.new) result }
{
    if at > end {
        return Ok(None);
    }
    match look_at(disk, piece, at, end + 1)? {
        Look::Record(next) => Ok(Some(next)),
        Look::Shut => Ok(None),
        Look::Bad => Ok(None),
    }
}
