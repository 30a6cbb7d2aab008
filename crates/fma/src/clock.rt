// The moment of a call.
ghost use Rattle.std.specs.Prelude.{◌≡◌, ◌-◌, ◌<◌, ◌^◌, min};

use std::time::{SystemTime, UNIX_EPOCH};

/// The greatest moment that a call takes.
const MAX_MOMENT: u64 = (1 << 62) - 1;

/// So many nanoseconds as a moment.
fn moment_of(nanoseconds: u128) -> u64
    ensures { result ≡ min nanoseconds (2 ^ 62 - 1) }
{
    nanoseconds.min(MAX_MOMENT as u128) as u64
}

/// The clock's nanoseconds since 1970, 2^62 - 1 at most; 0 where the clock stands before, or can't
/// be read.
pub fn moment_now(rt: &HostRuntime) -> u64
    ensures { result < 2 ^ 62 }
{
    match SystemTime::now(rt) {
        Ok(now) => match now.duration_since(UNIX_EPOCH) {
            Ok(elapsed) => moment_of(elapsed.as_nanos()),
            Err(_) => 0,
        },
        Err(_) => 0,
    }
}
