ghost use Rattle.std.specs.Prelude.{◌≡◌, ◌-◌, ◌^◌};
ghost use Rattle.fm_bytes.specs.Decimals.{digits_within};

use fm_bytes::read_digits;

/// Reads one or more digits, zeros in front or not; None where the text is nothing of the kind, or
/// the number is not below 2^64. Takes no memory.
pub fn read_number(text: &str) -> Option<u64>
    ensures { result ≡ digits_within (2 ^ 64 - 1) text.now }
{
    read_digits(text.as_bytes(), u64::MAX)
}
