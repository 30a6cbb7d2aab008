ghost use Rattle.std.specs.Prelude.{◌≡◌, ◌<◌, ◌==◌, ◌&&◌, ◌∷◌, IsTrue, IfSome, Some, ◌≤◌};
ghost use Rattle.std.specs.Prelude.{slice_get, length, map, option_map};
ghost use Rattle.std.specs.List.{list_all};
ghost use Rattle.fm_bytes.specs.Decimals.{number_of};
ghost use Rattle.fm_name.specs.Path.{slash_texts, is_name, is_instance, is_part, part_of};
ghost use Rattle.fm_name.specs.Order.{part_cmp, part_eq, parts_cmp, begins_with_parts};
ghost use Rattle.fm_name.specs.Cut.{texts_left};

use crate::grammar::{begins_with_letter, spells_component};
use fm_bytes::read_numeral;

/// The text before the first slash, and what is left after it.
pub fn cut(text: &str) -> (&str, Option<&str>)
    ensures texts { slash_texts text.now ≡ result.0.now ∷ texts_left
        (option_map (λ s. s.now) result.1) }
    ensures shorter { IfSome result.1 (λ rest. length rest.now < length text.now) }
{
    match text.split_once('/') {
        Some((first, rest)) => (first, Some(rest)),
        None => (text, None),
    }
}

/// The first part of a text of parts, and what is left after it.
#[tactic(auto, using(crate::proofs::Cutting::all_left))]
pub fn cut_part(text: &str) -> (&str, Option<&str>)
    requires { IsTrue (list_all is_part (slash_texts text.now)) }
    ensures texts { slash_texts text.now ≡ result.0.now ∷ texts_left
        (option_map (λ s. s.now) result.1) }
    ensures shorter { IfSome result.1 (λ rest. length rest.now < length text.now) }
    ensures first { IsTrue (is_part result.0.now) }
    ensures rest { IfSome result.1 (λ rest. IsTrue (list_all is_part (slash_texts rest.now))) }
{
    cut(text)
}

/// How many texts stand between the slashes.
#[tactic(auto, using(crate::proofs::Cutting::one_more))]
pub fn count_texts(text: &str) -> usize
    requires { length (slash_texts text.now) ≤ 16 }
    ensures { result ≡ length (slash_texts text.now) }
{
    let (_, rest) = cut(text);
    match rest {
        Some(rest) => count_texts(rest) + 1,
        None => 1,
    }
}

/// Whether the text is a name, as the parts of paths have: a component that begins with a letter.
#[tactic(auto, unfolding(crate::specs::Path::is_name))]
pub fn is_name(text: &str) -> bool
    ensures { result ≡ is_name text.now }
{
    let bytes = text.as_bytes();
    begins_with_letter(bytes) && spells_component(bytes)
}

/// The number that the digits of an instance mean.
#[tactic(auto, using(crate::proofs::Digits::instance_read))]
pub(crate) fn instance_value(digits: &[u8]) -> u32
    requires { IsTrue (is_instance digits.now) }
    ensures { result ≡ number_of digits.now }
{
    match read_numeral(digits, u64::from(u32::MAX)) {
        Some(value) => value as u32,
        None => unreachable!(),
    }
}

/// The name and the instance of a part.
#[tactic(auto, unfolding(crate::specs::Path::is_part))]
pub fn read_part(text: &str) -> (&str, u32)
    requires { IsTrue (is_part text.now) }
    ensures name { result.0.now ≡ (part_of text.now).name }
    ensures instance { result.1 ≡ (part_of text.now).instance }
{
    match text.split_once('=') {
        Some((name, digits)) => (name, instance_value(digits.as_bytes())),
        None => unreachable!(),
    }
}

/// Whether two parts are the same.
fn same_part(ours: &str, theirs: &str) -> bool
    requires ours { IsTrue (is_part ours.now) }
    requires theirs { IsTrue (is_part theirs.now) }
    ensures { result ≡ part_eq (part_of ours.now) (part_of theirs.now) }
{
    let (name, instance) = read_part(ours);
    let (other_name, other_instance) = read_part(theirs);
    name == other_name && instance == other_instance
}

/// Whether the parts of one text begin with those of another.
#[tactic(auto, using(crate::proofs::Cutting::not_begun))]
pub fn begins_with_parts(text: &str, above: &str) -> bool
    requires text { IsTrue (list_all is_part (slash_texts text.now)) }
    requires above { IsTrue (list_all is_part (slash_texts above.now)) }
    ensures { result ≡ begins_with_parts (map part_of (slash_texts text.now))
        (map part_of (slash_texts above.now)) }
{
    let (first, rest) = cut_part(text);
    let (other_first, other_rest) = cut_part(above);
    if !same_part(first, other_first) {
        return false;
    }
    match (rest, other_rest) {
        (_, None) => true,
        (None, Some(_)) => false,
        (Some(text), Some(above)) => begins_with_parts(text, above),
    }
}

/// The text of the part at a place.
#[tactic(auto, using(crate::proofs::Cutting::one_text))]
pub fn part_text(tail: &str, at: usize) -> &str
    requires within { at < length (slash_texts tail.now) }
    requires parts { IsTrue (list_all is_part (slash_texts tail.now)) }
    ensures same { slice_get (slash_texts tail.now) at ≡ Some result.now }
    ensures part { IsTrue (is_part result.now) }
{
    let (first, rest) = cut_part(tail);
    if at == 0 {
        return first;
    }
    match rest {
        Some(rest) => part_text(rest, at - 1),
        None => unreachable!(),
    }
}
