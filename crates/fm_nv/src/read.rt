//! Lists, read from their spelling.

ghost use Rattle.std.specs.Prelude.{◌≡◌, ◌≤◌, ◌++◌, List, ℕ, length, take, drop, option_map, IfOk};
ghost use Rattle.std.specs.Prelude.{IfSome, IfNone};
ghost use Rattle.fm_nv.specs.Data.{Pairs};
ghost use Rattle.fm_nv.specs.Reading.{list_from};
ghost use Rattle.fm_nv.specs.Spelled.{IsSpelledList, pairs_bytes};

use crate::nv::Nv;
use crate::reading::take_nv;
use fm_bytes::{Input, NoMemory, ReadFault};
use std::alloc::Global;

/// The list whose spelling the bytes begin with, and how many bytes that spelling has. `None`
/// exactly where the bytes begin with the spelling of no list. It takes no more memory than a few
/// times what the bytes hold, whatever counts they promise.
pub fn read_nv(alloc: Global, bytes: &[u8]) -> Result<Option<(Nv, usize)>, NoMemory>
    ensures found { IfOk result
        (λ o. IfSome o (λ t. IsSpelledList t.0 × (t.1 ≤ length bytes.now)
        × (take t.1 bytes.now ≡ pairs_bytes t.0))) }
    ensures none { IfOk result
        (λ o. IfNone o ((ps : Pairs) (rest : List ℕ) → IsSpelledList ps
        → bytes.now ≡ pairs_bytes ps ++ rest → ⊥)) }
    ensures reads { IfOk result
        (λ o. option_map (λ t. (t.0, drop t.1 bytes.now)) o ≡ list_from 8 bytes.now) }
{
    let mut input = Input::new(bytes);
    match take_nv(&mut input, alloc) {
        Ok(list) => Ok(Some((list, bytes.len() - input.left()))),
        Err(ReadFault::NoSpelling) => Ok(None),
        Err(ReadFault::NoMemory) => Err(NoMemory),
    }
}
