//! How certain suspects are.

ghost use Rattle.std.specs.Prelude.{◌≡◌, ◌<◌, ◌≤◌, ◌+◌, ◌^◌, IfOk, length, sum, map};
ghost use Rattle.dx_step.specs.Certainty.{share, shares, with_rest, certainties};

use fm_bytes::NoMemory;
use std::alloc::Global;

/// The certainties, in percent, of suspects with these rates, fewer than 2^32.
#[tactic(auto, unfolding(dx_step::specs::Certainty::certainties))]
pub fn certainties(alloc: Global, rates: &[u32]) -> Result<Vec<u64>, NoMemory>
    requires { length rates.now < 2 ^ 32 }
    ensures { IfOk result (λ v. v.items ≡ certainties rates.now) }
{
    let total = total_of(rates);
    let mut shares = shares_of(alloc, rates, total)?;
    let left = 100 - sum_of(&shares);
    add_to_first(&mut shares, left);
    Ok(shares)
}

/// The sum of the rates.
fn total_of(rates: &[u32]) -> u64
    requires { length rates.now < 2 ^ 32 }
    ensures { result ≡ sum rates.now }
{
    let mut total = 0;
    for rate in rates {
        total += u64::from(*rate);
    }
    total
}

/// The share of each rate.
fn shares_of(alloc: Global, rates: &[u32], total: u64) -> Result<Vec<u64>, NoMemory>
    ensures { IfOk result (λ v. v.items ≡ map (share total) rates.now) }
{
    let shares = rates
        .iter()
        .map(|rate| share_of(total, *rate))
        .collect(alloc)?;
    Ok(shares)
}

/// A rate's share of a total in percent, rounded down.
fn share_of(total: u64, rate: u32) -> u64
    ensures { result ≡ share total rate }
{
    if total == 0 {
        return 0;
    }
    100 * u64::from(rate) / total
}

/// The sum of shares, which are at most 100.
fn sum_of(shares: &[u64]) -> u64
    requires { sum shares.now ≤ 100 }
    ensures { result ≡ sum shares.now }
{
    let mut total = 0;
    for share in shares {
        total += *share;
    }
    total
}

/// The first share gets what is left of 100.
fn add_to_first(shares: &mut Vec<u64>, left: u64)
    requires { sum shares.old.items + left ≤ 100 }
    ensures { shares.new.items ≡ with_rest left shares.old.items }
{
    if shares.len() > 0 {
        shares[0] += left;
    }
}
