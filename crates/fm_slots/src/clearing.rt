// The clearing of a slot.
ghost use Rattle.std.specs.Prelude.{◌≡◌, ◌⊎◌, ◌≤◌, ℕ, List, Some, IfOk, OnOk, IsTrue, IsFalse};
ghost use Rattle.fm_outer.specs.Failures.{HasCause};
ghost use Rattle.fm_outer.specs.Moments.{IsSettled, LeavesOnly, OnlyRead};
ghost use Rattle.fm_slots.specs.Format.{IsShut, cleared_slot};
ghost use Rattle.fm_slots.specs.Filling.{AllShut, IsOldOrClosed};

use fm_outer::{Disk, Failed, byte_at, write_through};

/// An open gate, behind which a slot stands.
pub(crate) const OPEN: u8 = 1;

/// Syncs, and says whether a closed gate is to be written: where the gate is open, or there is
/// none.
fn needs_gate<D: Disk>(disk: &mut D) -> Result<bool, Failed>
    ensures open { IfOk result (λ needs. IsTrue needs → (bytes : List ℕ)
        → D.seen disk.old ≡ Some bytes → IsShut bytes → ⊥) }
    ensures shut { IfOk result (λ needs. IsFalse needs → AllShut D.Disk disk.new) }
    ensures kept { IfOk result (λ needs. IsFalse needs → (bytes : List ℕ)
        → D.seen disk.old ≡ Some bytes → IsShut bytes × (cleared_slot bytes ≡ bytes)) }
    ensures settled { OnOk result (IsSettled D.Disk disk.new) }
    ensures still { OnlyRead D.Disk disk.old disk.new }
    ensures cause { HasCause (D.failures disk.old) (D.failures disk.new) result }
{
    disk.sync()?;
    let size = disk.len()?;
    if size == 0 {
        return Ok(true);
    }
    let gate = byte_at(disk, 0)?;
    if gate == OPEN {
        return Ok(true);
    }
    Ok(false)
}

/// Writes the closed gate, and syncs. A closed gate stands there before in no image.
fn close_gate<D: Disk>(disk: &mut D) -> Result<(), Failed>
    requires settled { IsSettled D.Disk disk.old }
    requires open { (bytes : List ℕ) → D.seen disk.old ≡ Some bytes → IsShut bytes → ⊥ }
    ensures shut { OnOk result (AllShut D.Disk disk.new) }
    ensures written { (bytes : List ℕ) → D.seen disk.old ≡ Some bytes
        → OnOk result (D.seen disk.new ≡ Some (cleared_slot bytes)) }
    ensures settled { OnOk result (IsSettled D.Disk disk.new) }
    ensures any_moment { LeavesOnly D.Disk disk.old disk.new
        (IsOldOrClosed (D.images disk.old)) }
    ensures same_disk { D.name disk.new ≡ D.name disk.old }
    ensures cause { HasCause (D.failures disk.old) (D.failures disk.new) result }
{
    write_through(disk, 0, &[0])
}

/// Makes the slot a closed one: writes the closed gate where the gate is open or the disk is empty,
/// and else writes nothing. A crash at any moment leaves what it might have left before, or a
/// closed slot.
pub fn clear<D: Disk>(disk: &mut D) -> Result<(), Failed>
    ensures shut { OnOk result (AllShut D.Disk disk.new) }
    ensures written { (bytes : List ℕ) → D.seen disk.old ≡ Some bytes
        → OnOk result (D.seen disk.new ≡ Some (cleared_slot bytes)) }
    ensures settled { OnOk result (IsSettled D.Disk disk.new) }
    ensures still { (bytes : List ℕ) → D.seen disk.old ≡ Some bytes → IsShut bytes
        → OnlyRead D.Disk disk.old disk.new }
    ensures any_moment { LeavesOnly D.Disk disk.old disk.new
        (IsOldOrClosed (D.images disk.old)) }
    ensures same_disk { D.name disk.new ≡ D.name disk.old }
    ensures cause { HasCause (D.failures disk.old) (D.failures disk.new) result }
{
    if needs_gate(disk)? {
        close_gate(disk)
    } else {
        Ok(())
    }
}
