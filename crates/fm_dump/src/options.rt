//! The options, and what their values mean.

ghost use Rattle.std.specs.Prelude.{◌≡◌, IfOk, IfErr, None, Some, map, option_map};
ghost use Rattle.uuid.specs.Text.{parsed};
ghost use Rattle.clap.specs.Matches.{found_of};
ghost use Rattle.clap.specs.Walk.{first_of, rows_of};
ghost use Rattle.fm_text.specs.Time.{time_of};
ghost use Rattle.fm_dump.specs.Options.{dump_options, options_in, value_by, pattern_text, is_true};
ghost use Rattle.fm_dump.specs.Options.{allowed};

use crate::command::find_options;
use clap::ArgMatches;
use fm_bytes::NoMemory;
use fm_name::{Pattern, read_pattern};
use fm_text::{ArgText, read_time};
use std::alloc::{AllocError, AllocFailed, Global};
use uuid::Uuid;

/// What is asked for.
#[derive(Drop)]
pub struct DumpOptions {
    /// Entries, and not words about cases (`-e`).
    pub errors: bool,
    /// With what belongs to each line (`-V`).
    pub full: bool,
    /// Only reports, or words, whose class the pattern matches (`-c`).
    pub class: Option<Pattern>,
    /// Only words about the case with this UUID (`-u`).
    pub case: Option<Uuid>,
    /// Nothing before this moment (`-t`).
    pub from: Option<u64>,
    /// Nothing after this moment (`-T`).
    pub to: Option<u64>,
}

/// Why there are no options.
#[derive(Clone, Copy, Debug, PartialEq, Eq)]
pub enum DumpFault {
    /// The command does not take the words, a value can't be read, or a case is asked for among
    /// entries.
    Usage,
    /// Memory was wanted and could not be had.
    NoMemory,
}

impl From<NoMemory> for DumpFault {
    ghost use Rattle.std.specs.Prelude.{◌≡◌};
    ghost use Rattle.fm_dump.specs.declared.options.DumpFault.TheVariants.{NoMemory as Wanted};

    ghost from_gives = { λ _ fault. fault ≡ Wanted };

    fn from(_fault: NoMemory) -> DumpFault {
        DumpFault::NoMemory
    }
}

/// The words as texts.
fn texts_of<'a>(alloc: Global, words: &'a [ArgText]) -> Result<Vec<&'a str>, NoMemory>
    ensures { IfOk result (λ texts. map (λ w. w.now) texts.items ≡ words.entry.now) }
{
    let mut texts = Vec::new(alloc);
    for word in words {
        texts.push(word.get())?;
    }
    Ok(texts)
}

/// Whether the value of a flag says that it is there.
fn is_true(text: Option<&str>) -> bool
    ensures { result ≡ is_true (option_map (λ s. s.now) text.entry) }
{
    match text {
        Some(text) => text == "true",
        None => false,
    }
}

/// The pattern that the value of an option is.
fn pattern_in(alloc: Global, text: Option<&str>) -> Result<Option<Pattern>, DumpFault>
    ensures ok { IfOk result
        (λ v. value_by pattern_text (option_map (λ s. s.now) text.entry) ≡ Some v) }
    ensures usage { IfErr result (λ f. f ≡ DumpFault.Usage
        → value_by pattern_text (option_map (λ s. s.now) text.entry) ≡ None) }
{
    let Some(text) = text else {
        return Ok(None);
    };
    match read_pattern(alloc, text)? {
        Some(pattern) => Ok(Some(pattern)),
        None => Err(DumpFault::Usage),
    }
}

/// The UUID that a text is.
fn parse_uuid(text: &str) -> Option<Uuid>
    ensures { result ≡ parsed text.now }
{
    match Uuid::parse_str(text) {
        Ok(uuid) => Some(uuid),
        Err(_error) => None,
    }
}

/// The UUID that the value of an option is.
fn uuid_in(text: Option<&str>) -> Result<Option<Uuid>, DumpFault>
    ensures ok { IfOk result
        (λ v. value_by parsed (option_map (λ s. s.now) text.entry) ≡ Some v) }
    ensures usage { IfErr result
        (λ _. value_by parsed (option_map (λ s. s.now) text.entry) ≡ None) }
{
    let Some(text) = text else {
        return Ok(None);
    };
    match parse_uuid(text) {
        Some(uuid) => Ok(Some(uuid)),
        None => Err(DumpFault::Usage),
    }
}

/// The moment that the value of an option is.
fn moment_in(text: Option<&str>) -> Result<Option<u64>, DumpFault>
    ensures ok { IfOk result
        (λ v. value_by time_of (option_map (λ s. s.now) text.entry) ≡ Some v) }
    ensures usage { IfErr result
        (λ _. value_by time_of (option_map (λ s. s.now) text.entry) ≡ None) }
{
    let Some(text) = text else {
        return Ok(None);
    };
    match read_time(text) {
        Some(moment) => Ok(Some(moment)),
        None => Err(DumpFault::Usage),
    }
}

/// The options, where they are allowed.
fn allow(options: DumpOptions) -> Result<DumpOptions, DumpFault>
    ensures ok { IfOk result (λ o. allowed options ≡ Some o) }
    ensures usage { IfErr result (λ _. allowed options ≡ None) }
{
    if options.errors && options.case.is_some() {
        return Err(DumpFault::Usage);
    }
    Ok(options)
}

/// The value of an option, where it is there.
#[tactic(auto, using(crate::proofs::Values::found_text))]
fn text_of<'a>(matches: &ArgMatches<'a>, id: &str) -> Option<&'a str>
    ensures { option_map (λ s. s.now) result
        ≡ first_of id.now (rows_of (found_of matches.now)) }
{
    matches.get_str(id)
}

/// The options that were found.
#[tactic(auto, using(crate::proofs::Values::unread))]
fn options_in(alloc: Global, matches: &ArgMatches) -> Result<DumpOptions, DumpFault>
    ensures ok { IfOk result (λ o. options_in (rows_of (found_of matches.now)) ≡ Some o) }
    ensures usage { IfErr result
        (λ f. f ≡ DumpFault.Usage → options_in (rows_of (found_of matches.now)) ≡ None) }
{
    let errors = is_true(text_of(matches, "e"));
    let full = is_true(text_of(matches, "V"));
    let class = pattern_in(alloc, text_of(matches, "c"))?;
    let case = uuid_in(text_of(matches, "u"))?;
    let from = moment_in(text_of(matches, "t"))?;
    let to = moment_in(text_of(matches, "T"))?;
    allow(DumpOptions {
        errors,
        full,
        class,
        case,
        from,
        to,
    })
}

/// Reads the words behind `fmdump`: `-e`, `-V`, `-c PATTERN`, `-u UUID`, `-t TIME` and `-T TIME`,
/// each at most once, as a simple command of `clap` takes them. `Usage` where it does not, where a
/// value can't be read, and where `-u` stands with `-e`.
#[tactic(auto, using(crate::proofs::Values::none_taken))]
pub fn read_options(alloc: Global, words: &[ArgText]) -> Result<DumpOptions, DumpFault>
    ensures ok { IfOk result (λ options. dump_options words.now ≡ Some options) }
    ensures usage { IfErr result
        (λ fault. fault ≡ DumpFault.Usage → dump_options words.now ≡ None) }
{
    let texts = texts_of(alloc, words)?;
    let matches = find_options(alloc, &texts)?;
    options_in(alloc, &matches)
}
