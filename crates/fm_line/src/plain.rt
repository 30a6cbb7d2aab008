//! The plain form: words with one space between them.

ghost use Rattle.std.specs.Prelude.{◌≡◌, ◌∷◌, IfOk, IfErr, Ok, Err, option_map, position};
ghost use Rattle.fm_line.specs.Faults.{IsOfLine};
ghost use Rattle.fm_line.specs.Forms.{is_space, words, words_after, words_entry, two_words};
ghost use Rattle.fm_line.specs.Forms.{three_words, four_words};

use crate::fault::LineFault;
use crate::number::read_moment;
use crate::parts::{acquit, case_in, class_in, path_in, repaired, replaced, report, text_of, tick};
use fm_entry::Entry;
use fm_nv::Nv;
use memchr::memchr;
use std::alloc::Global;

/// The place of the first space.
#[tactic(auto, using(crate::proofs::First::first_place))]
fn space_place(line: &[u8]) -> Option<usize>
    ensures { result ≡ position is_space line.now }
{
    memchr(b' ', line)
}

/// The first word of a line, and what stands after the space that ends it.
fn cut_word(line: &[u8]) -> (&[u8], Option<&[u8]>)
    ensures { words line.now ≡ result.0.now ∷ words_after (option_map (λ w. w.now) result.1) }
{
    match space_place(line) {
        None => (line, None),
        Some(at) => (&line[..at], Some(&line[at + 1..])),
    }
}

/// The entry of two words: a tick.
#[tactic(auto, unfolding(crate::specs::Forms::two_words))]
fn two_words(first: &[u8], moment: &[u8]) -> Result<Entry, LineFault>
    ensures { result ≡ two_words first.now moment.now }
{
    if first == "tick".as_bytes() {
        return tick(read_moment(moment));
    }
    Err(LineFault::Shape)
}

/// The entry of three words: a repair, a replacement or an acquittal.
#[tactic(auto, unfolding(crate::specs::Forms::three_words))]
fn three_words(alloc: Global, first: &[u8], what: &[u8], moment: &[u8]) -> Result<Entry, LineFault>
    ensures ok { IfOk result (λ e. three_words first.now what.now moment.now ≡ Ok e) }
    ensures err { IfErr result
        (λ f. IsOfLine f → three_words first.now what.now moment.now ≡ Err f) }
{
    if first == "repaired".as_bytes() {
        return repaired(path_in(alloc, text_of(what))?, read_moment(moment));
    }
    if first == "replaced".as_bytes() {
        return replaced(path_in(alloc, text_of(what))?, read_moment(moment));
    }
    if first == "acquit".as_bytes() {
        return acquit(case_in(text_of(what)), read_moment(moment));
    }
    Err(LineFault::Shape)
}

/// The entry of four words: a report.
#[tactic(auto, unfolding(crate::specs::Forms::four_words))]
fn four_words(
    alloc: Global,
    first: &[u8],
    class: &[u8],
    path: &[u8],
    moment: &[u8],
) -> Result<Entry, LineFault>
    ensures ok { IfOk result (λ e. four_words first.now class.now path.now moment.now ≡ Ok e) }
    ensures err { IfErr result
        (λ f. IsOfLine f → four_words first.now class.now path.now moment.now ≡ Err f) }
{
    if first != "report".as_bytes() {
        return Err(LineFault::Shape);
    }
    let class = class_in(alloc, text_of(class))?;
    let path = path_in(alloc, text_of(path))?;
    report(class, path, read_moment(moment), Some(Nv::new(alloc)))
}

/// The entry of three words and those of `rest`.
fn with_three(
    alloc: Global,
    first: &[u8],
    second: &[u8],
    third: &[u8],
    rest: &[u8],
) -> Result<Entry, LineFault>
    ensures ok { IfOk result
        (λ e. words_entry (first.now ∷ second.now ∷ third.now ∷ words rest.now) ≡ Ok e) }
    ensures err { IfErr result
        (λ f. IsOfLine f → words_entry (first.now ∷ second.now ∷ third.now ∷ words rest.now)
        ≡ Err f) }
{
    match cut_word(rest) {
        (fourth, None) => four_words(alloc, first, second, third, fourth),
        (_, Some(_)) => Err(LineFault::Shape),
    }
}

/// The entry of two words and those of `rest`.
fn with_two(alloc: Global, first: &[u8], second: &[u8], rest: &[u8]) -> Result<Entry, LineFault>
    ensures ok { IfOk result (λ e. words_entry (first.now ∷ second.now ∷ words rest.now) ≡ Ok e) }
    ensures err { IfErr result
        (λ f. IsOfLine f → words_entry (first.now ∷ second.now ∷ words rest.now) ≡ Err f) }
{
    match cut_word(rest) {
        (third, None) => three_words(alloc, first, second, third),
        (third, Some(rest)) => with_three(alloc, first, second, third, rest),
    }
}

/// The entry of one word and those of `rest`.
fn with_one(alloc: Global, first: &[u8], rest: &[u8]) -> Result<Entry, LineFault>
    ensures ok { IfOk result (λ e. words_entry (first.now ∷ words rest.now) ≡ Ok e) }
    ensures err { IfErr result
        (λ f. IsOfLine f → words_entry (first.now ∷ words rest.now) ≡ Err f) }
{
    match cut_word(rest) {
        (second, None) => two_words(first, second),
        (second, Some(rest)) => with_two(alloc, first, second, rest),
    }
}

/// The entry of a line in the plain form.
pub(crate) fn plain_entry(alloc: Global, line: &[u8]) -> Result<Entry, LineFault>
    ensures ok { IfOk result (λ e. words_entry (words line.now) ≡ Ok e) }
    ensures err { IfErr result (λ f. IsOfLine f → words_entry (words line.now) ≡ Err f) }
{
    match cut_word(line) {
        (_, None) => Err(LineFault::Shape),
        (first, Some(rest)) => with_one(alloc, first, rest),
    }
}
