ghost use Rattle.std.specs.Prelude.{◌≡◌, ◌+◌, ◌*◌, ◌^◌, ◌<◌, ◌++◌, OnOk, OnErr, IfOk, Some};
ghost use Rattle.fm_text.specs.Time.{value_of, time_text, fraction_of, moment_from, time_of};

use crate::numbers::read_number;
use fm_bytes::NoMemory;
use itoa::write_digits;

/// Nanoseconds in a second.
const SECOND: u64 = 1_000_000_000;

/// Writes a moment of nanoseconds as seconds, a dot and nine digits, behind what `out` holds. After
/// `NoMemory` it holds what it held.
#[tactic(auto, using(crate::proofs::Writing::read_back, crate::proofs::Writing::written))]
pub fn write_time(moment: u64, out: &mut Vec<u8>) -> Result<(), NoMemory>
    ensures ok { OnOk result (out.new.items ≡ out.old.items ++ time_text moment) }
    ensures err { OnErr result (out.new.items ≡ out.old.items) }
    ensures reads_back { moment < 2 ^ 62 → time_of (time_text moment) ≡ Some moment }
{
    let mut text = [b'0'; 30];
    write_digits(moment % SECOND, &mut text, 30);
    text[20] = b'.';
    let begin = write_digits(moment / SECOND, &mut text, 20);
    out.extend_from_slice(&text[begin..])?;
    Ok(())
}

/// The nanoseconds that the digits after the dot mean.
#[tactic(auto, using(crate::proofs::Reading::fractions))]
fn read_fraction(digits: &str) -> Option<u64>
    ensures { result ≡ fraction_of digits.now }
{
    if digits.len() > 9 {
        return None;
    }
    let scale = 10u64.pow(9 - digits.len() as u32);
    match read_number(digits) {
        Some(value) => Some(value * scale),
        None => None,
    }
}

/// The moment of seconds and nanoseconds.
fn moment_of(seconds: u64, nanoseconds: u64) -> Option<u64>
    ensures { result ≡ moment_from (Some seconds) (Some nanoseconds) }
{
    let moment = seconds.checked_mul(SECOND)?.checked_add(nanoseconds)?;
    if moment < 1 << 62 { Some(moment) } else { None }
}

/// The moment of a text of seconds and of nanoseconds, where there are any.
#[tactic(auto, using(crate::proofs::Reading::seconds_read))]
fn moment_at(seconds: &str, nanoseconds: Option<u64>) -> Option<u64>
    ensures { result ≡ moment_from (value_of seconds.now) nanoseconds }
{
    let seconds = read_number(seconds)?;
    let nanoseconds = nanoseconds?;
    moment_of(seconds, nanoseconds)
}

/// Reads digits, or digits, a dot and one to nine digits, as a moment of nanoseconds; None where
/// the text is nothing of the kind, or the moment is not below 2^62. Takes no memory.
pub fn read_time(text: &str) -> Option<u64>
    ensures { result ≡ time_of text.now }
{
    match text.split_once('.') {
        Some((seconds, fraction)) => moment_at(seconds, read_fraction(fraction)),
        None => moment_at(text, Some(0)),
    }
}
