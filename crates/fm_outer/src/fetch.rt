// Single reads of a disk.
ghost use Rattle.std.specs.Prelude.{◌≡◌, [], ◌∷◌, List, ℕ, Some, IfOk};
ghost use Rattle.fm_outer.specs.Bytes.{range, InsideRange};
ghost use Rattle.fm_outer.specs.Failures.{HasCause};
ghost use Rattle.fm_outer.specs.Moments.{OnlyRead};

use crate::{Disk, Failed};

/// The byte at a place, which lies inside the disk.
pub fn byte_at<D: Disk>(disk: &mut D, at: u64) -> Result<u8, Failed>
    requires { InsideRange at 1 (D.seen disk.old) }
    ensures byte { IfOk result (λ byte. (bytes : List ℕ) → D.seen disk.old ≡ Some bytes
        → range at 1 bytes ≡ byte ∷ []) }
    ensures still { OnlyRead D.Disk disk.old disk.new }
    ensures cause { HasCause (D.failures disk.old) (D.failures disk.new) result }
{
    let mut byte = [0; 1];
    disk.read(at, &mut byte)?;
    Ok(byte[0])
}
