// What rules come to over drawn parts, compared with all pairs tried one by one.
use crate::instances::instances;
use crate::words::two_in;
use std::alloc::{AllocError, Global};
use test_words::ScriptFault;

const SIDE: u32 = 4;

const RULES: &[u8] = b"event fault.a.x@a; event fault.b.x@b; event ereport.c.y@c/d;\
prop fault.a.x@a[i], fault.b.x@b[j] -> ereport.c.y@c[i]/d[j];";

/// Whether the pair of two instances is drawn: a bit of the seed.
fn is_drawn(seed: u32, first: u32, second: u32) -> bool {
    if first >= SIDE || second >= SIDE {
        return false;
    }
    (seed >> (first * SIDE + second)) & 1 == 1
}

/// Puts the drawn pairs of the first instance.
fn put_row(seed: u32, first: u32, text: &mut String) -> Result<(), AllocError> {
    for second in 0..SIDE {
        if is_drawn(seed, first, second) {
            write!(text, "hc:///c={first}/d={second}\n")?;
        }
    }
    Ok(())
}

/// The topology with the parts a, b and c, and within c the drawn pairs.
fn parts(alloc: Global, seed: u32) -> Result<String, AllocError> {
    let mut text = String::new(alloc);
    for first in 0..SIDE {
        write!(
            &mut text,
            "hc:///a={first}\nhc:///b={first}\nhc:///c={first}\n"
        )?;
        put_row(seed, first, &mut text)?;
    }
    Ok(text)
}

/// How many pairs are drawn.
fn count_drawn(seed: u32) -> u32 {
    (seed & 65_535).count_ones()
}

/// Puts an instance for each drawn pair of the first instance; `from` and on are the numbers of
/// their effects.
fn put_pairs(seed: u32, first: u32, from: u32, line: &mut String) -> Result<u32, AllocError> {
    let mut number = from;
    for second in 0..SIDE {
        if is_drawn(seed, first, second) {
            let other = SIDE + second;
            write!(line, "{first} {other} > {number} 1/1; ")?;
            number = number.saturating_add(1);
        }
    }
    Ok(number)
}

/// An instance for each drawn pair, in order.
fn expected(alloc: Global, seed: u32) -> Result<String, AllocError> {
    let mut number = 2 * SIDE;
    let nodes = number.saturating_add(count_drawn(seed));
    let mut line = format!(in alloc; "{nodes} nodes; ")?;
    for first in 0..SIDE {
        number = put_pairs(seed, first, number, &mut line)?;
    }
    line.push_str("0 skipped")?;
    Ok(line)
}

/// Whether the rules come to an instance for each drawn pair.
fn agrees(alloc: Global, seed: u32) -> Result<bool, ScriptFault> {
    let text = parts(alloc, seed)?;
    let found = instances(alloc, RULES, text.as_bytes())?;
    Ok(found == expected(alloc, seed)?)
}

/// Tries so many topologies, which follow from a seed: `SEED COUNT`.
pub fn pairs(alloc: Global, words: &str) -> Result<String, ScriptFault> {
    let (mut seed, count) = two_in(words)?;
    let mut wrong = 0u32;
    for _ in 0..count {
        seed = seed.wrapping_mul(1_664_525).wrapping_add(1_013_904_223) >> 8;
        if !agrees(alloc, seed)? {
            wrong = wrong.saturating_add(1);
        }
    }
    Ok(format!(in alloc; "{count} topologies, {wrong} wrong")?)
}
