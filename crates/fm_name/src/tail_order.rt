//! The order of what stands behind the roots of paths, from its bytes: the parts with which both
//! begin are passed over, and the next ones are read.

ghost use Rattle.std.specs.Prelude.{◌≡◌, ◌≤◌, ◌<◌, ◌∷◌, ◌==◌, length, map, option_map, drop};
ghost use Rattle.std.specs.Prelude.{IfSome, IsTrue, if◌then◌else◌};
ghost use Rattle.std.specs.List.{list_all, position};
ghost use Rattle.fm_name.specs.Cut.{texts_left};
ghost use Rattle.fm_name.specs.Order.{part_cmp, parts_cmp};
ghost use Rattle.fm_name.specs.Path.{slash_texts, is_part, part_of};
ghost use Rattle.fm_name.specs.Shared.{AreAlike};

use crate::parts::instance_value;
use std::cmp::Ordering;

/// The place of the first slash.
fn first_slash(text: &[u8]) -> Option<usize>
    ensures { result ≡ position (λ b. b == 47) text.now }
{
    text.iter().position(|b| *b == b'/')
}

/// The place of the first `=`.
fn first_equals(text: &[u8]) -> Option<usize>
    ensures { result ≡ position (λ b. b == 61) text.now }
{
    text.iter().position(|b| *b == b'=')
}

/// The bytes before the first slash, and what is left after it.
fn cut_bytes(text: &[u8]) -> (&[u8], Option<&[u8]>)
    ensures texts { slash_texts text.now ≡ result.0.now ∷ texts_left
        (option_map (λ s. s.now) result.1) }
    ensures shorter { IfSome result.1 (λ rest. length rest.now < length text.now) }
{
    match first_slash(text) {
        Some(at) => {
            let (_, rest) = text.split_at(at + 1);
            (&text[..at], Some(rest))
        }
        None => (text, None),
    }
}

/// The bytes of the first part of a text of parts, and what is left after it.
#[tactic(auto, using(crate::proofs::Cutting::all_left))]
fn cut_first(text: &[u8]) -> (&[u8], Option<&[u8]>)
    requires { IsTrue (list_all is_part (slash_texts text.now)) }
    ensures texts { slash_texts text.now ≡ result.0.now ∷ texts_left
        (option_map (λ s. s.now) result.1) }
    ensures shorter { IfSome result.1 (λ rest. length rest.now < length text.now) }
    ensures first { IsTrue (is_part result.0.now) }
    ensures rest { IfSome result.1 (λ rest. IsTrue (list_all is_part (slash_texts rest.now))) }
{
    cut_bytes(text)
}

/// The name and the instance of a part.
#[tactic(auto, unfolding(crate::specs::Path::is_part))]
fn read_bytes(text: &[u8]) -> (&[u8], u32)
    requires { IsTrue (is_part text.now) }
    ensures name { result.0.now ≡ (part_of text.now).name }
    ensures instance { result.1 ≡ (part_of text.now).instance }
{
    match first_equals(text) {
        Some(at) => {
            let (_, digits) = text.split_at(at + 1);
            (&text[..at], instance_value(digits))
        }
        None => unreachable!(),
    }
}

/// The order of two parts.
#[tactic(auto, unfolding(crate::specs::Order::part_cmp))]
fn compare_parts(ours: &[u8], theirs: &[u8]) -> Ordering
    requires ours { IsTrue (is_part ours.now) }
    requires theirs { IsTrue (is_part theirs.now) }
    ensures { result ≡ part_cmp (part_of ours.now) (part_of theirs.now) }
{
    let (name, instance) = read_bytes(ours);
    let (other_name, other_instance) = read_bytes(theirs);
    name.cmp(other_name).then(instance.cmp(&other_instance))
}

/// The order of two texts of parts joined by slashes, part by part.
#[tactic(auto, using(crate::proofs::Cutting::shorter), unfolding(crate::specs::Order::parts_cmp))]
fn compare_from(ours: &[u8], theirs: &[u8]) -> Ordering
    requires ours { IsTrue (list_all is_part (slash_texts ours.now)) }
    requires theirs { IsTrue (list_all is_part (slash_texts theirs.now)) }
    ensures { result ≡ parts_cmp (map part_of (slash_texts ours.now))
        (map part_of (slash_texts theirs.now)) }
{
    let (first, rest) = cut_first(ours);
    let (other_first, other_rest) = cut_first(theirs);
    match compare_parts(first, other_first) {
        Ordering::Less => Ordering::Less,
        Ordering::Greater => Ordering::Greater,
        Ordering::Equal => match (rest, other_rest) {
            (None, None) => Ordering::Equal,
            (None, Some(_)) => Ordering::Less,
            (Some(_), None) => Ordering::Greater,
            (Some(ours), Some(theirs)) => compare_from(ours, theirs),
        },
    }
}

/// How many bytes are alike up to a slash, where one more byte is the same: all up to it where it
/// is a slash, and else as many as before.
fn alike_with(byte: u8, next: usize, alike: usize) -> usize
    ensures { result ≡ (if byte == 47 then next else alike) }
{
    if byte == b'/' { next } else { alike }
}

/// How many bytes two texts have in common up to the last slash that both have there.
fn alike_len(ours: &[u8], theirs: &[u8]) -> usize
    requires ours { IsTrue (list_all is_part (slash_texts ours.now)) }
    requires theirs { IsTrue (list_all is_part (slash_texts theirs.now)) }
    ensures { AreAlike ours.now theirs.now result }
{
    let mut alike = 0;
    'bytes: for at in 0..ours.len() {
        if at >= theirs.len() {
            return alike;
        }
        let byte = ours[at];
        if byte != theirs[at] {
            return alike;
        }
        alike = alike_with(byte, at + 1, alike);
    }
    alike
}

/// The order of two texts of parts joined by slashes.
pub(crate) fn compare_tails(ours: &[u8], theirs: &[u8]) -> Ordering
    requires ours { IsTrue (list_all is_part (slash_texts ours.now)) }
    requires theirs { IsTrue (list_all is_part (slash_texts theirs.now)) }
    ensures { result ≡ parts_cmp (map part_of (slash_texts ours.now))
        (map part_of (slash_texts theirs.now)) }
{
    let alike = alike_len(ours, theirs);
    let (_, ours_left) = ours.split_at(alike);
    let (_, theirs_left) = theirs.split_at(alike);
    compare_from(ours_left, theirs_left)
}
