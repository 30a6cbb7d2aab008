// Reading a disk through from its header.
ghost use Rattle.std.specs.Prelude.{◌≡◌, ℕ, ◌+◌, ◌<◌, ◌≤◌, ◌^◌, List, length, take, Some, IfOk};
ghost use Rattle.std.specs.Prelude.{IfErr};
ghost use Rattle.std.specs.Prelude.{OnOk};
ghost use Rattle.fm_outer.specs.Moments.{IsSettled, OnlyRead};
ghost use Rattle.fm_journal.specs.Causes.{OpenCause};
ghost use Rattle.fm_journal.specs.Format.{header};
ghost use Rattle.fm_journal.specs.Look.{IsFound, IsBounded};
ghost use Rattle.fm_journal.specs.Pieces.{IsPiece};
ghost use Rattle.fm_journal.specs.declared.fault.JournalFault.TheVariants.{Damaged};

use crate::JournalFault;
use crate::header::first_of;
use crate::look::{Look, look_at};
use crate::piece::Piece;
use crate::refuse::{END_OF_NUMBERS, MAX_COUNT};
use fm_outer::Disk;

/// What a disk holds that is a journal: its first number, how many payloads, and the place of the
/// gate behind them.
#[derive(Clone, Copy, Drop)]
pub(crate) struct Scanned {
    pub(crate) first: u64,
    pub(crate) count: u64,
    pub(crate) end: u64,
}

/// Goes from record to record of a disk of so many bytes with a header in front.
fn walk<D: Disk>(
    disk: &mut D,
    piece: &mut Piece,
    first: u64,
    size: u64,
) -> Result<Scanned, JournalFault>
    requires fits { first < 2 ^ 46 }
    requires long { 16 < size }
    requires told { (bytes : List ℕ) → D.seen disk.old ≡ Some bytes → size ≡ length bytes }
    requires read { IsPiece (D.seen disk.old) piece.old }
    requires front { (bytes : List ℕ) → D.seen disk.old ≡ Some bytes
        → take 16 bytes ≡ header first }
    ensures found { IfOk result (λ scanned. (bytes : List ℕ) → D.seen disk.old ≡ Some bytes
        → IsFound bytes scanned.first scanned.count scanned.end) }
    ensures bounded { IfOk result
        (λ scanned. IsBounded scanned.first scanned.count scanned.end) }
    ensures cause { IfErr result
        (OpenCause (D.seen disk.old) (D.failures disk.old) (D.failures disk.new)) }
    ensures count_kept { OnOk result (D.failures disk.new ≡ D.failures disk.old) }
    ensures still { OnlyRead D.Disk disk.old disk.new }
{
    let mut at = 16;
    let mut count = 0;
    'records: loop {
        match look_at(disk, piece, at, size)? {
            Look::Shut => {
                return Ok(Scanned {
                    first,
                    count,
                    end: at,
                });
            }
            Look::Bad => return Err(JournalFault::Damaged { place: at }),
            Look::Record(next) => {
                if count == MAX_COUNT {
                    return Err(JournalFault::Damaged { place: at });
                }
                if first + count == END_OF_NUMBERS {
                    return Err(JournalFault::Damaged { place: at });
                }
                count += 1;
                at = next;
            }
        }
    }
}

/// Syncs the disk and reads it through, each part of it once.
pub(crate) fn scan<D: Disk>(disk: &mut D) -> Result<Scanned, JournalFault>
    ensures found { IfOk result (λ scanned. (bytes : List ℕ) → D.seen disk.old ≡ Some bytes
        → IsFound bytes scanned.first scanned.count scanned.end) }
    ensures bounded { IfOk result
        (λ scanned. IsBounded scanned.first scanned.count scanned.end) }
    ensures settled { OnOk result (IsSettled D.Disk disk.new) }
    ensures settled_damaged { IfErr result (λ fault. (place : ℕ) → fault ≡ Damaged place
        → IsSettled D.Disk disk.new) }
    ensures cause { IfErr result
        (OpenCause (D.seen disk.old) (D.failures disk.old) (D.failures disk.new)) }
    ensures count_kept { OnOk result (D.failures disk.new ≡ D.failures disk.old) }
    ensures still { OnlyRead D.Disk disk.old disk.new }
{
    disk.sync()?;
    let size = disk.len()?;
    if size < 17 {
        return Err(JournalFault::Damaged { place: 0 });
    }
    let mut piece = Piece::none();
    piece.reach(disk, 0, 16, size)?;
    let Some(first) = first_of(&piece.from(0)[..16]) else {
        return Err(JournalFault::Damaged { place: 0 });
    };
    walk(disk, &mut piece, first, size)
}
