// The making of a journal.
ghost use Rattle.std.specs.Prelude.{◌≡◌, ℕ, ◌≤◌, ◌++◌, [], ◌∷◌, List, take, Some, OnOk, OnErr};
ghost use Rattle.std.specs.Option.{option_map};
ghost use Rattle.fm_outer.specs.Failures.{HasCause};
ghost use Rattle.fm_outer.specs.Moments.{IsSettled, LeavesOnly};
ghost use Rattle.fm_journal.specs.Crash.{IsFrontOf, StartsOver, StartsOrStops};
ghost use Rattle.fm_journal.specs.Format.{header};

use crate::header::header_of;
use fm_outer::{Disk, Failed, write_through};

/// The header and the closed gate behind it.
fn empty_journal(first: u64) -> [u8; 17]
    ensures { result ≡ header first ++ 0 ∷ [] }
{
    let mut bytes = [0; 17];
    bytes[..16].copy_from_slice(&header_of(first));
    bytes
}

/// Cuts the disk to nothing, and syncs.
fn empty<D: Disk>(disk: &mut D) -> Result<(), Failed>
    ensures emptied { OnOk result (D.seen disk.new ≡ option_map (take 0) (D.seen disk.old)) }
    ensures settled { OnOk result (IsSettled D.Disk disk.new) }
    ensures any_moment { LeavesOnly D.Disk disk.old disk.new (IsFrontOf (D.images disk.old)) }
    ensures same_disk { D.name disk.new ≡ D.name disk.old }
    ensures cause { HasCause (D.failures disk.old) (D.failures disk.new) result }
{
    disk.cut(0)?;
    disk.sync()
}

/// Makes the disk a journal without payloads.
pub(crate) fn start<D: Disk>(disk: &mut D, first: u64) -> Result<(), Failed>
    ensures made { OnOk result (D.seen disk.new
        ≡ option_map (λ _. header first ++ 0 ∷ []) (D.seen disk.old)) }
    ensures settled { OnOk result (IsSettled D.Disk disk.new) }
    ensures two_phases { OnOk result (StartsOver D.Disk disk.old disk.new) }
    ensures phases { OnErr result (StartsOrStops D.Disk disk.old disk.new) }
    ensures same_disk { D.name disk.new ≡ D.name disk.old }
    ensures cause { HasCause (D.failures disk.old) (D.failures disk.new) result }
{
    empty(disk)?;
    write_through(disk, 0, &empty_journal(first))
}
