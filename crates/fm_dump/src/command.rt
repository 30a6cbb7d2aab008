//! The command that takes the words.

ghost use Rattle.std.specs.Prelude.{◌≡◌, IfOk, IfErr, false, true, map};
ghost use Rattle.clap.specs.Matches.{found_of};
ghost use Rattle.clap.specs.Simple.{app_of};
ghost use Rattle.clap.specs.Walk.{rows_of, rule_of};
ghost use Rattle.fm_dump.specs.Command.{dump_app, flag_rule, value_rule, are_taken, found_rows};

use crate::options::DumpFault;
use clap::error::ErrorKind;
use clap::{Arg, ArgAction, ArgMatches, Command};
use fm_bytes::NoMemory;
use std::alloc::Global;

/// An option that is there or not.
fn flag<'a>(alloc: Global, id: &'a str, letter: char) -> Arg<'a>
    ensures rule { rule_of result ≡ flag_rule id.entry.now letter }
    ensures own { result.global ≡ false }
{
    Arg::new(alloc, id).short(letter).action(ArgAction::SetTrue)
}

/// An option with a value.
fn valued<'a>(alloc: Global, id: &'a str, letter: char) -> Arg<'a>
    ensures rule { rule_of result ≡ value_rule id.entry.now letter }
    ensures own { result.global ≡ false }
{
    Arg::new(alloc, id).short(letter).action(ArgAction::Set)
}

/// The command with its options.
fn dump_command<'a>(alloc: Global) -> Result<Command<'a>, NoMemory>
    ensures { IfOk result (λ c. app_of c ≡ dump_app) }
{
    let command = Command::new(alloc, "fmdump")
        .no_binary_name(true)
        .disable_help_flag(true)
        .disable_version_flag(true);
    let command = command
        .arg(flag(alloc, "e", 'e'))?
        .arg(flag(alloc, "V", 'V'))?
        .arg(valued(alloc, "c", 'c'))?
        .arg(valued(alloc, "u", 'u'))?
        .arg(valued(alloc, "t", 't'))?
        .arg(valued(alloc, "T", 'T'))?;
    Ok(command)
}

/// What the command finds in the words; `Usage` where it does not take them.
pub fn find_options<'a>(alloc: Global, words: &'a [&'a str]) -> Result<ArgMatches<'a>, DumpFault>
    ensures found { IfOk result
        (λ m. rows_of (found_of m) ≡ found_rows (map (λ w. w.now) words.entry.now)) }
    ensures taken { IfOk result (λ _. are_taken (map (λ w. w.now) words.entry.now) ≡ true) }
    ensures usage { IfErr result (λ f. f ≡ DumpFault.Usage
        → are_taken (map (λ w. w.now) words.entry.now) ≡ false) }
{
    let command = dump_command(alloc)?;
    match command.try_get_matches_from(words) {
        Ok(matches) => Ok(matches),
        Err(error) => Err(fault_by(error.kind())),
    }
}

/// The fault that stands for an error of the command.
fn fault_by(kind: ErrorKind) -> DumpFault
    ensures { kind ≡ ErrorKind.OutOfMemory → result ≡ DumpFault.NoMemory }
{
    match kind {
        ErrorKind::OutOfMemory => DumpFault::NoMemory,
        _ => DumpFault::Usage,
    }
}
