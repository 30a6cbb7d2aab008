// What is found at a gate.
ghost use Rattle.std.specs.Prelude.{◌≡◌, ℕ, ◌+◌, ◌-◌, ◌<◌, ◌≤◌, ◌^◌, List, [], ◌∷◌, length, min};
ghost use Rattle.std.specs.Prelude.{take, Some, IfOk};
ghost use Rattle.byteorder.specs.Endian.{big_bytes};
ghost use Rattle.fm_outer.specs.Bytes.{range};
ghost use Rattle.fm_outer.specs.Failures.{HasCause};
ghost use Rattle.fm_outer.specs.Moments.{OnlyRead};
ghost use Rattle.fm_journal.specs.Look.{LiesWithin, Shows};
ghost use Rattle.fm_journal.specs.Pieces.{IsPiece};

use crate::frame::MAX_LENGTH;
use crate::piece::Piece;
use crate::refuse::MAX_BYTES;
use byteorder::{BigEndian, ByteOrder};
use fm_outer::{Disk, Failed};

/// An open gate, behind which a record stands.
const OPEN: u8 = 1;

/// The bytes that tell whether a record stands at a gate: the gate, the length, and one more.
pub(crate) const FRONT: u64 = 6;

/// What is found at a gate.
#[derive(Clone, Copy, Drop)]
pub(crate) enum Look {
    /// The gate is closed.
    Shut,
    /// The gate is open, and a record stands behind it. The next gate is at this place.
    Record(u64),
    /// The gate is open, and no record stands behind it.
    Bad,
}

/// The number that four bytes spell.
fn word_of(bytes: &[u8; 4]) -> u32
    ensures { big_bytes 4 result ≡ bytes.now }
{
    BigEndian::read_u32(bytes)
}

/// What a length behind the open gate at `at` makes of it: the payload has to be short enough, and
/// the gate behind it lies inside the disk of `size` bytes and within the limit.
fn record_of(at: u64, size: u64, count: u32) -> Look
    requires { at < 2 ^ 40 }
    ensures within { LiesWithin at size result }
    ensures shows { (bytes : List ℕ) → size ≡ length bytes → range at 1 bytes ≡ 1 ∷ []
        → range (at + 1) 4 bytes ≡ big_bytes 4 count → Shows bytes at result }
{
    let next = at + 5 + count as u64;
    if count > MAX_LENGTH {
        return Look::Bad;
    }
    if next >= size {
        return Look::Bad;
    }
    if next >= MAX_BYTES {
        return Look::Bad;
    }
    Look::Record(next)
}

/// What the bytes from a gate on tell of it, where the disk has `size` bytes. They are six at
/// least, or all that there are.
pub(crate) fn look_in(front: &[u8], at: u64, size: u64) -> Look
    requires inside { at < size }
    requires small { at < 2 ^ 40 }
    requires enough { min 6 (size - at) ≤ length front.now }
    ensures within { LiesWithin at size result }
    ensures shows { (bytes : List ℕ) → size ≡ length bytes
        → range at (length front.now) bytes ≡ front.now → Shows bytes at result }
{
    if front[0] != OPEN {
        return Look::Shut;
    }
    if size - at < FRONT {
        return Look::Bad;
    }
    let mut count = [0; 4];
    count.copy_from_slice(&front[1..5]);
    record_of(at, size, word_of(&count))
}

/// What is found at the gate at a place of the first `size` bytes of a disk.
pub(crate) fn look_at<D: Disk>(
    disk: &mut D,
    piece: &mut Piece,
    at: u64,
    size: u64,
) -> Result<Look, Failed>
    requires inside { at < size }
    requires small { at < 2 ^ 40 }
    requires told { (bytes : List ℕ) → D.seen disk.old ≡ Some bytes → size ≤ length bytes }
    requires read { IsPiece (D.seen disk.old) piece.old }
    ensures within { IfOk result (LiesWithin at size) }
    ensures shows { IfOk result (λ look. (bytes : List ℕ) → D.seen disk.old ≡ Some bytes
        → Shows (take size bytes) at look) }
    ensures read { IsPiece (D.seen disk.old) piece.new }
    ensures still { OnlyRead D.Disk disk.old disk.new }
    ensures cause { HasCause (D.failures disk.old) (D.failures disk.new) result }
{
    let count = FRONT.min(size - at);
    piece.reach(disk, at, count, size)?;
    Ok(look_in(&piece.from(at)[..count as usize], at, size))
}
