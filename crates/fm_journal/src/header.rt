// The header of a journal.
ghost use Rattle.std.specs.Prelude.{◌≡◌, ℕ, ◌<◌, ◌^◌, length, IfSome, IsNone};
ghost use Rattle.fm_journal.specs.Format.{header};

use crate::refuse::END_OF_NUMBERS;
use byteorder::{BigEndian, ByteOrder};

/// The header with the first number 0.
const BLANK: [u8; 16] = *b"FMAJRNL1\0\0\0\0\0\0\0\0";

/// The header with this first number.
#[tactic(auto, unfolding(crate::specs::Format::header))]
pub(crate) fn header_of(first: u64) -> [u8; 16]
    ensures { result ≡ header first }
{
    let mut bytes = BLANK;
    BigEndian::write_u64(&mut bytes[8..], first);
    bytes
}

/// The first number of these bytes, if they are a header.
pub(crate) fn first_of(bytes: &[u8]) -> Option<u64>
    requires { length bytes.now ≡ 16 }
    ensures found { IfSome result (λ first. (first < 2 ^ 46) × (bytes.now ≡ header first)) }
    ensures none { IsNone result → (first : ℕ) → first < 2 ^ 46 → bytes.now ≡ header first → ⊥ }
{
    let first = BigEndian::read_u64(&bytes[8..16]);
    if first >= END_OF_NUMBERS {
        return None;
    }
    if bytes == header_of(first).as_slice() {
        Some(first)
    } else {
        None
    }
}
