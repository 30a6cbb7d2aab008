// What stands on one slot's disk.
ghost use Rattle.std.specs.Prelude.{◌≡◌, ℕ, ◌+◌, ◌≤◌, List, [], ◌∷◌, length, take, Some, IfOk};
ghost use Rattle.std.specs.Prelude.{OnOk};
ghost use Rattle.byteorder.specs.Endian.{big_bytes};
ghost use Rattle.fm_outer.specs.Bytes.{range};
ghost use Rattle.fm_outer.specs.Failures.{HasCause};
ghost use Rattle.fm_outer.specs.Moments.{IsSettled, OnlyRead};
ghost use Rattle.fm_slots.specs.Standing.{TellsSlot};

use crate::clearing::OPEN;
use crate::frame::MAX_LENGTH;
use byteorder::{BigEndian, ByteOrder};
use fm_outer::{Disk, Failed};

/// The end of the sequences.
const END_OF_SEQUENCES: u64 = 1 << 62;

/// What stands on one slot's disk.
#[derive(Clone, Copy, Drop)]
pub(crate) enum Standing {
    /// A closed slot.
    Closed,
    /// An open slot of this sequence, with a payload of so many bytes.
    Open { sequence: u64, count: u32 },
    /// An open gate, and no slot behind it.
    Bad,
}

/// The number that eight bytes spell.
fn sequence_spelled(bytes: &[u8; 8]) -> u64
    ensures { big_bytes 8 result ≡ bytes.now }
{
    BigEndian::read_u64(bytes)
}

/// The number that four bytes spell.
fn count_spelled(bytes: &[u8; 4]) -> u32
    ensures { big_bytes 4 result ≡ bytes.now }
{
    BigEndian::read_u32(bytes)
}

/// What an open gate with this sequence and length makes of a slot's disk of `size` bytes.
fn standing_at(sequence: u64, count: u32, size: u64) -> Standing
    requires { 13 ≤ size }
    ensures { (bytes : List ℕ) → size ≡ length bytes → range 0 1 bytes ≡ 1 ∷ []
        → range 1 8 bytes ≡ big_bytes 8 sequence → range 9 4 bytes ≡ big_bytes 4 count
        → TellsSlot bytes result }
{
    if sequence == 0 {
        return Standing::Bad;
    }
    if sequence >= END_OF_SEQUENCES {
        return Standing::Bad;
    }
    if count > MAX_LENGTH {
        return Standing::Bad;
    }
    if size - 13 < count as u64 {
        return Standing::Bad;
    }
    Standing::Open { sequence, count }
}

/// What the first 13 bytes tell of a slot's disk of `size` bytes.
fn standing_of(head: &[u8; 13], size: u64) -> Standing
    requires { 13 ≤ size }
    ensures { (bytes : List ℕ) → size ≡ length bytes → take 13 bytes ≡ head.now
        → TellsSlot bytes result }
{
    if head[0] != OPEN {
        return Standing::Closed;
    }
    let mut sequence = [0; 8];
    sequence.copy_from_slice(&head[1..9]);
    let mut count = [0; 4];
    count.copy_from_slice(&head[9..13]);
    standing_at(sequence_spelled(&sequence), count_spelled(&count), size)
}

/// Syncs the disk, and says what stands on it.
pub(crate) fn peek<D: Disk>(disk: &mut D) -> Result<Standing, Failed>
    ensures tells { IfOk result (λ standing. (bytes : List ℕ) → D.seen disk.old ≡ Some bytes
        → TellsSlot bytes standing) }
    ensures settled { OnOk result (IsSettled D.Disk disk.new) }
    ensures still { OnlyRead D.Disk disk.old disk.new }
    ensures cause { HasCause (D.failures disk.old) (D.failures disk.new) result }
{
    disk.sync()?;
    let size = disk.len()?;
    if size < 13 {
        return Ok(Standing::Closed);
    }
    let mut head = [0; 13];
    disk.read(0, &mut head)?;
    Ok(standing_of(&head, size))
}
