//! Decimal numbers up to a limit, read from texts.

ghost use Rattle.std.specs.Prelude.{◌≡◌, ◌<◌, ◌*◌, ◌+◌, ◌≤◌, IfSome, IsTrue, length};
ghost use Rattle.std.specs.List.{list_all};
ghost use Rattle.fm_bytes.specs.Decimals.{are_digits, digits_within, is_numeral, leads_plainly};
ghost use Rattle.fm_bytes.specs.Decimals.{number_of, numeral_within, within};
ghost use Rattle.std.specs.Char.{is_ascii_digit, digit_value};

/// Whether each byte is a digit.
fn has_only_digits(text: &[u8]) -> bool
    ensures { result ≡ list_all is_ascii_digit text.now }
{
    text.iter().all(|b| b.is_ascii_digit())
}

/// Whether the bytes are one or more digits.
fn are_digits(text: &[u8]) -> bool
    ensures { result ≡ are_digits text.now }
{
    text.len() > 0 && has_only_digits(text)
}

/// Whether the first of some digits is no 0, or stands alone.
fn leads_plainly(digits: &[u8]) -> bool
    requires { 0 < length digits.now }
    ensures { result ≡ leads_plainly digits.now }
{
    digits.len() == 1 || digits[0] != b'0'
}

/// Whether the bytes are one or more digits without a leading zero.
fn is_numeral(text: &[u8]) -> bool
    ensures { result ≡ is_numeral text.now }
{
    if !are_digits(text) {
        return false;
    }
    leads_plainly(text)
}

/// The number so far with one more digit, where that is at most so large.
fn with_digit(most: u64, number: u64, digit: u8) -> Option<u64>
    requires digit { IsTrue (is_ascii_digit digit) }
    ensures { result ≡ within most (number * 10 + digit_value digit) }
{
    let longer = number
        .checked_mul(10)?
        .checked_add(u64::from(digit - b'0'))?;
    if longer <= most { Some(longer) } else { None }
}

/// The number that decimal digits mean, where it is at most `most`.
fn value_within(digits: &[u8], most: u64) -> Option<u64>
    requires { IsTrue (are_digits digits.now) }
    ensures value { result ≡ within most (number_of digits.now) }
    ensures bound { IfSome result (λ n. n ≤ most) }
{
    let mut number = 0;
    for digit in digits {
        number = with_digit(most, number, *digit)?;
    }
    Some(number)
}

/// The number that decimal digits mean, zeros in front or not. `None` exactly where the text is
/// empty or has a byte that is no digit, or where the number is more than `most`.
#[tactic(auto, unfolding(crate::specs::Decimals::digits_within))]
pub fn read_digits(text: &[u8], most: u64) -> Option<u64>
    ensures value { result ≡ digits_within most text.now }
    ensures bound { IfSome result (λ n. n ≤ most) }
{
    if !are_digits(text) {
        return None;
    }
    value_within(text, most)
}

/// The number that decimal digits mean, without a zero in front of other digits. `None` exactly
/// where the text is no such numeral, or where the number is more than `most`.
#[tactic(auto, unfolding(crate::specs::Decimals::numeral_within))]
pub fn read_numeral(text: &[u8], most: u64) -> Option<u64>
    ensures value { result ≡ numeral_within most text.now }
    ensures bound { IfSome result (λ n. n ≤ most) }
{
    if !is_numeral(text) {
        return None;
    }
    value_within(text, most)
}
