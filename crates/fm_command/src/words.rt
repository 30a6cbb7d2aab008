// The words of a command.
ghost use Rattle.std.specs.Prelude.{◌≡◌, ◌<◌, ◌^◌, IfOk, IfErr};
ghost use Rattle.std.specs.Str.{bytes_eq};
ghost use Rattle.uuid.specs.Text.{parsed};
ghost use Rattle.fm_command.specs.Words.{TakesMemory, command_about, command_in, command_of};
ghost use Rattle.fm_command.specs.Words.{command_with, dump_with, esc_with, explain_with};
ghost use Rattle.fm_command.specs.Words.{fmadm_with};
ghost use Rattle.fm_command.specs.Words.{fmd_with, generate_with, lines_with, path_of, repair_with};
ghost use Rattle.fm_command.specs.Words.{short_command};

use crate::request::{Repair, RepairRequest};
use ev_listing::GraphForm;
use fm_bytes::NoMemory;
use fm_dump::{DumpFault, DumpOptions, read_options};
use fm_name::{Fmri, read_fmri};
use fm_text::{ArgText, read_number};
use std::alloc::Global;
use uuid::Uuid;

/// A command of an operator that puts one text.
#[derive(Drop)]
pub enum AdminCommand {
    /// The cases that are solved and not yet repaired, with their suspects.
    Faulty,
    /// Of the words about cases, or of the entries since the last rotation, those that the options
    /// keep.
    Dump(DumpOptions),
    /// The configuration in force: its namespace, and how large what its rule files come to is.
    Config,
    /// Entries to come go into the other error journal, and the base is moved to the end.
    Rotate,
}

/// What is to be done.
#[derive(Drop)]
pub enum Command {
    /// The input's entries are appended to the journal of reports.
    Accept,
    /// The input's entries are appended to the journal of reports, the store is drained and its
    /// base moved, what is faulty is taken out of use, and the summary is put.
    Fmd,
    /// The input's entries go through two counters, whose counts are put.
    Replay,
    /// A store is made of this namespace, the rule files and the topology.
    Init([u8; 16]),
    /// What each rule file comes to over the topology is put, in this form.
    Esc(GraphForm),
    /// The compiled files of the input are listed.
    EscInput,
    /// The store is drained, and what this command tells of it is put.
    Admin(AdminCommand),
    /// The store is drained, and takes what an operator says of repairs, where that marks a
    /// suspect.
    Repair(RepairRequest),
    /// The store is drained, and what the suspects of the case with this UUID account for is put.
    Explain([u8; 16]),
    /// The store takes the entries that this number generates, is drained and its base moved, what
    /// is faulty is taken out of use, and the summary is put.
    Generate(u64),
    /// The lines of the entries that this number generates are put.
    GeneratedLines(u64),
}

/// Whether the word is this text.
fn is_word(word: &ArgText, text: &str) -> bool
    ensures { result ≡ bytes_eq word.now text.now }
{
    word.get() == text
}

/// The command of one word.
fn command_in(word: &ArgText) -> Option<Command>
    ensures { result ≡ command_in word.now }
{
    if is_word(word, "accept") {
        Some(Command::Accept)
    } else if is_word(word, "replay") {
        Some(Command::Replay)
    } else if is_word(word, "esc") {
        Some(Command::Esc(GraphForm::Listed))
    } else {
        None
    }
}

/// The UUID that a word is, as its bytes.
fn parse_uuid(word: &ArgText) -> Option<[u8; 16]>
    ensures { result ≡ parsed word.now }
{
    match Uuid::parse_str(word.get()) {
        Ok(uuid) => Some(uuid.into_bytes()),
        Err(_error) => None,
    }
}

/// The command `esc` with an option.
fn esc_with(option: &ArgText) -> Option<Command>
    ensures { result ≡ esc_with option.now }
{
    if is_word(option, "-b") {
        Some(Command::Esc(GraphForm::Compiled))
    } else if is_word(option, "-l") {
        Some(Command::EscInput)
    } else {
        None
    }
}

/// The command `fmd` with an option.
fn fmd_with(option: &ArgText) -> Option<Command>
    ensures { result ≡ fmd_with option.now }
{
    if is_word(option, "-1") {
        Some(Command::Fmd)
    } else {
        None
    }
}

/// The command `fmadm` with a word.
fn fmadm_with(second: &ArgText) -> Option<Command>
    ensures { result ≡ fmadm_with second.now }
{
    if is_word(second, "faulty") {
        Some(Command::Admin(AdminCommand::Faulty))
    } else if is_word(second, "config") {
        Some(Command::Admin(AdminCommand::Config))
    } else if is_word(second, "rotate") {
        Some(Command::Admin(AdminCommand::Rotate))
    } else {
        None
    }
}

/// The command `explain` with a word.
fn explain_with(second: &ArgText) -> Option<Command>
    ensures { result ≡ explain_with second.now }
{
    match parse_uuid(second) {
        Some(uuid) => Some(Command::Explain(uuid)),
        None => None,
    }
}

/// The command `gen` with a number.
fn generate_with(second: &ArgText) -> Option<Command>
    ensures { result ≡ generate_with second.now }
{
    match read_number(second.get()) {
        Some(number) => Some(Command::Generate(number)),
        None => None,
    }
}

/// The command of two words.
#[tactic(auto, unfolding(crate::specs::Words::command_with))]
fn command_with(word: &ArgText, second: &ArgText) -> Option<Command>
    ensures { result ≡ command_with word.now second.now }
{
    if is_word(word, "init") {
        match parse_uuid(second) {
            Some(namespace) => Some(Command::Init(namespace)),
            None => None,
        }
    } else if is_word(word, "esc") {
        esc_with(second)
    } else if is_word(word, "fmd") {
        fmd_with(second)
    } else if is_word(word, "fmadm") {
        fmadm_with(second)
    } else if is_word(word, "explain") {
        explain_with(second)
    } else if is_word(word, "gen") {
        generate_with(second)
    } else {
        None
    }
}

/// The path that a word is.
fn read_path(alloc: Global, word: &ArgText) -> Result<Option<Fmri>, NoMemory>
    ensures { IfOk result (λ path. path ≡ path_of word.now) }
{
    read_fmri(alloc, word.get())
}

/// What an operator says of repairs, by a word and what it is said of.
#[tactic(auto, unfolding(crate::specs::Words::repair_with))]
fn repair_with(alloc: Global, word: &ArgText, third: &ArgText) -> Result<Option<Repair>, NoMemory>
    ensures { IfOk result (λ repair. repair ≡ repair_with word.now third.now) }
{
    if is_word(word, "repaired") {
        match read_path(alloc, third)? {
            Some(path) => Ok(Some(Repair::Repaired(path))),
            None => Ok(None),
        }
    } else if is_word(word, "replaced") {
        match read_path(alloc, third)? {
            Some(path) => Ok(Some(Repair::Replaced(path))),
            None => Ok(None),
        }
    } else if is_word(word, "acquit") {
        match parse_uuid(third) {
            Some(bytes) => Ok(Some(Repair::Acquit(Uuid::from_bytes(bytes)))),
            None => Ok(None),
        }
    } else {
        Ok(None)
    }
}

/// The command `gen` with an option and a number.
fn lines_with(option: &ArgText, third: &ArgText) -> Option<Command>
    ensures { result ≡ lines_with option.now third.now }
{
    if !is_word(option, "-l") {
        return None;
    }
    match read_number(third.get()) {
        Some(number) => Some(Command::GeneratedLines(number)),
        None => None,
    }
}

/// The command of three words at a moment.
#[tactic(auto, using(crate::proofs::Repairs::takes), unfolding(crate::specs::Words::command_about))]
fn command_about(
    alloc: Global,
    word: &ArgText,
    second: &ArgText,
    third: &ArgText,
    now: u64,
) -> Result<Option<Command>, NoMemory>
    requires { now < 2 ^ 62 }
    ensures command { IfOk result
        (λ command. command ≡ command_about word.now second.now third.now now) }
    ensures wanted { IfErr result
        (λ _. TakesMemory (command_about word.now second.now third.now now)) }
{
    if is_word(word, "gen") {
        return Ok(lines_with(second, third));
    }
    if !is_word(word, "fmadm") {
        return Ok(None);
    }
    match repair_with(alloc, second, third)? {
        Some(repair) => Ok(Some(Command::Repair(RepairRequest::new(now, repair)))),
        None => Ok(None),
    }
}

/// The command of one word, two or three, at a moment.
fn short_command(alloc: Global, words: &[ArgText], now: u64) -> Result<Option<Command>, NoMemory>
    requires { now < 2 ^ 62 }
    ensures command { IfOk result (λ command. command ≡ short_command words.now now) }
    ensures wanted { IfErr result (λ _. TakesMemory (short_command words.now now)) }
{
    match words {
        [word] => Ok(command_in(word)),
        [word, second] => Ok(command_with(word, second)),
        [word, second, third] => command_about(alloc, word, second, third, now),
        _ => Ok(None),
    }
}

/// The command `fmdump` with the words behind it.
fn dump_with(alloc: Global, words: &[ArgText]) -> Result<Option<Command>, NoMemory>
    ensures { IfOk result (λ command. command ≡ dump_with words.now) }
{
    match read_options(alloc, words) {
        Ok(options) => Ok(Some(Command::Admin(AdminCommand::Dump(options)))),
        Err(DumpFault::Usage) => Ok(None),
        Err(DumpFault::NoMemory) => Err(NoMemory),
    }
}

/// The command of the words at a moment, if they are one. Words are compared as they stand, but for
/// the options of `fmdump`; these and a path take memory to be read.
pub fn command_of(alloc: Global, words: &[ArgText], now: u64) -> Result<Option<Command>, NoMemory>
    requires { now < 2 ^ 62 }
    ensures command { IfOk result (λ command. command ≡ command_of words.now now) }
    ensures wanted { IfErr result (λ _. TakesMemory (command_of words.now now)) }
{
    let Some((word, options)) = words.split_first() else {
        return Ok(None);
    };
    if is_word(word, "fmdump") {
        return dump_with(alloc, options);
    }
    short_command(alloc, words, now)
}
