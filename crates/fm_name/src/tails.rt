//! The reading of what stands behind the root of a path, in one pass over its bytes.

ghost use Rattle.std.specs.Prelude.{◌≡◌, ◌==◌, length, true, false, option_map};
ghost use Rattle.fm_name.specs.Path.{slash_texts, are_parts};
ghost use Rattle.fm_name.specs.Tail.{starts_piece, name_rest, instance_rest, part_rest};

use crate::grammar::is_in_piece;

/// Whether the first byte may stand in a piece.
fn begins_piece(bytes: &[u8]) -> bool
    ensures { result ≡ starts_piece bytes.now }
{
    match bytes {
        [] => false,
        [first, ..] => is_in_piece(*first),
    }
}

/// What is left after a name and its `=`, where the bytes follow the first byte of the name. Most
/// bytes of a name are letters, so these are tried first.
#[tactic(auto, using(crate::proofs::PartScans::begun_first, crate::proofs::PartScans::none_first))]
fn after_name(bytes: &[u8]) -> Option<&[u8]>
    ensures { option_map (λ s. s.now) result ≡ name_rest (length bytes.now) true bytes.now }
{
    let mut rest = bytes;
    while let [byte, tail @ ..] = rest {
        if !byte.is_ascii_alphabetic() {
            if *byte == b'=' {
                return (bytes.len() - tail.len() <= 32).then_some(tail);
            }
            if !is_in_piece(*byte) && (*byte != b'-' || !begins_piece(tail)) {
                return None;
            }
        }
        rest = tail;
    }
    None
}

/// What is left after an instance: a number below `2 ^ 32` without a leading zero.
fn after_instance(bytes: &[u8]) -> Option<&[u8]>
    ensures { option_map (λ s. s.now) result ≡ instance_rest false 0 bytes.now }
{
    let mut begun = false;
    let mut number: u64 = 0;
    let mut rest = bytes;
    while let [byte, tail @ ..] = rest {
        if !byte.is_ascii_digit() {
            break;
        }
        if begun && number == 0 {
            return None;
        }
        number = number * 10 + u64::from(*byte - b'0');
        if number > u64::from(u32::MAX) {
            return None;
        }
        begun = true;
        rest = tail;
    }
    begun.then_some(rest)
}

/// What is left after a part.
fn after_part(bytes: &[u8]) -> Option<&[u8]>
    ensures { option_map (λ s. s.now) result ≡ part_rest bytes.now }
{
    match bytes {
        [first, rest @ ..] if first.is_ascii_alphabetic() => after_instance(after_name(rest)?),
        _ => None,
    }
}

/// Whether the bytes are one or more parts joined by slashes, and not more than there is room for.
#[tactic(auto, using(crate::proofs::PartScans::no_room, crate::proofs::PartScans::parts_start))]
pub fn joins_parts(bytes: &[u8], room: usize) -> bool
    ensures { result ≡ are_parts room (slash_texts bytes.now) }
{
    if room == 0 {
        return false;
    }
    let Some(rest) = after_part(bytes) else {
        return false;
    };
    match rest {
        [] => true,
        [byte, tail @ ..] => *byte == b'/' && joins_parts(tail, room - 1),
    }
}
