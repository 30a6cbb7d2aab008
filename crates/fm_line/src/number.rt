//! Moments.

ghost use Rattle.std.specs.Prelude.{◌≡◌};
ghost use Rattle.fm_line.specs.Numbers.{as_moment, moment_of_word};

use fm_bytes::read_numeral;

/// The last moment.
const LAST_MOMENT: u64 = (1 << 62) - 1;

/// The number, where it is a moment.
pub(crate) fn as_moment(number: u64) -> Option<u64>
    ensures { result ≡ as_moment number }
{
    if number <= LAST_MOMENT {
        Some(number)
    } else {
        None
    }
}

/// The moment that a word of the plain form spells.
pub(crate) fn read_moment(word: &[u8]) -> Option<u64>
    ensures { result ≡ moment_of_word word.now }
{
    read_numeral(word, LAST_MOMENT)
}
