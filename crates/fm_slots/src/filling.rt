// The filling of a slot.
ghost use Rattle.std.specs.Prelude.{◌≡◌, ◌⊎◌, ◌≤◌, ◌<◌, ℕ, ◌∷◌, [], List, Bool, Some, OnOk, IsOk};
ghost use Rattle.std.specs.Option.{option_map};
ghost use Rattle.std.specs.declared.option.Option.{Option};
ghost use Rattle.fm_outer.specs.Bytes.{written};
ghost use Rattle.fm_outer.specs.Failures.{HasCause};
ghost use Rattle.fm_outer.specs.Moments.{IsSettled, LeavesOnly};
ghost use Rattle.fm_slots.specs.Filling.{AllShut, IsShutOrFilled, IsOldOrReplaced};
ghost use Rattle.fm_slots.specs.Format.{SlotOf, slot_body, IsShut, IsOpenSlot};
ghost use Rattle.fm_slots.specs.InForce.{InForceBeside, KeepsInForce, IsReplaced};

use crate::SlotFrame;
use crate::clearing::{OPEN, clear};
use fm_outer::{Disk, Failed, write_through};

/// Writes the body behind the gate, and syncs.
fn write_body<D: Disk>(disk: &mut D, body: &[u8]) -> Result<(), Failed>
    requires shut { AllShut D.Disk disk.old }
    ensures written { OnOk result (D.seen disk.new
        ≡ option_map (written 1 body.now) (D.seen disk.old)) }
    ensures settled { OnOk result (IsSettled D.Disk disk.new) }
    ensures any_moment { LeavesOnly D.Disk disk.old disk.new IsShut }
    ensures same_disk { D.name disk.new ≡ D.name disk.old }
    ensures cause { HasCause (D.failures disk.old) (D.failures disk.new) result }
{
    disk.write_at(1, body)?;
    disk.sync()
}

/// Fills the slot, whose gate is open in no image: writes the body, syncs, opens the gate, and
/// syncs. A crash at any moment leaves a gate that isn't open, or the slot whole.
pub fn fill<D: Disk>(disk: &mut D, frame: &SlotFrame) -> Result<(), Failed>
    requires shut { AllShut D.Disk disk.old }
    ensures open { OnOk result ((c : List ℕ) → D.images disk.new c
        → IsOpenSlot c frame.now.sequence frame.now.payload) }
    ensures written { OnOk result (D.seen disk.new ≡ option_map (written 0 (1 ∷ []))
        (option_map (written 1 (slot_body frame.now.sequence frame.now.payload))
        (D.seen disk.old))) }
    ensures settled { OnOk result (IsSettled D.Disk disk.new) }
    ensures any_moment { LeavesOnly D.Disk disk.old disk.new (IsShutOrFilled frame.now) }
    ensures same_disk { D.name disk.new ≡ D.name disk.old }
    ensures cause { HasCause (D.failures disk.old) (D.failures disk.new) result }
{
    write_body(disk, frame.body())?;
    write_through(disk, 0, &[OPEN])
}

/// Clears the slot and fills it. A crash at any moment leaves what it might have left before, a
/// closed slot, or the new one whole. So while the other slot of the pair stays as it is, and has
/// the slot in force if there is one, that one is in force or, of a greater sequence, the new one;
/// after `Ok` the new one is.
pub fn replace<D: Disk>(disk: &mut D, frame: &SlotFrame) -> Result<(), Failed>
    ensures leaves { LeavesOnly D.Disk disk.old disk.new
        (IsOldOrReplaced (D.images disk.old) frame.now) }
    ensures any_moment { (kept : List ℕ) (second : Bool) (found : Option (Bool × SlotOf))
        → IsReplaced D.Disk disk.old kept second found frame.now
        → LeavesOnly D.Disk disk.old disk.new (λ c. InForceBeside second kept c found
        ⊎ InForceBeside second kept c (Some (second, frame.now))) }
    ensures done { OnOk result ((kept : List ℕ) (second : Bool) (found : Option (Bool × SlotOf))
        → IsReplaced D.Disk disk.old kept second found frame.now
        → (c : List ℕ) → D.images disk.new c
        → InForceBeside second kept c (Some (second, frame.now))) }
    ensures open { OnOk result ((c : List ℕ) → D.images disk.new c
        → IsOpenSlot c frame.now.sequence frame.now.payload) }
    ensures settled { OnOk result (IsSettled D.Disk disk.new) }
    ensures same_disk { D.name disk.new ≡ D.name disk.old }
    ensures cause { HasCause (D.failures disk.old) (D.failures disk.new) result }
{
    clear(disk)?;
    fill(disk, frame)
}
