// Modules of drawn rules, which say what the second opinion says.
use crate::happenings::Happening;
use crate::plain::{Counts, Plain};
use crate::rules::{DrawnRules, PARTS, drawn_rules, text_of};
use std::alloc::Global;
use test_text_modules::{Setup, put_cases, run};
use test_words::{Draws, Script, ScriptFault, first_word, number_in, small_in};

/// What each place of the counts is of.
const NAMES: [&str; 7] = [
    "suspect",
    "undiagnosable",
    "upset",
    "updated",
    "repaired",
    "trips",
    "cuts",
];

/// A module of drawn rules with its entries, and the second opinion that took them.
#[derive(Drop)]
struct Drawn {
    setup: Setup,
    plain: Plain,
}

/// A module of the rules, to which nothing has happened.
fn setup_of(alloc: Global, rules: &DrawnRules) -> Result<Setup, ScriptFault> {
    let mut setup = Setup::new(alloc);
    setup.topology = String::from_str(alloc, PARTS)?;
    setup.rules.push(text_of(alloc, rules)?)?;
    setup.number = Some(0);
    Ok(setup)
}

impl Drawn {
    fn new(alloc: Global, rules: &DrawnRules) -> Result<Drawn, ScriptFault> {
        let setup = setup_of(alloc, rules)?;
        Ok(Drawn {
            setup,
            plain: Plain::new(alloc),
        })
    }

    /// Draws what happens next, not before the clock's moment less one.
    fn take_next(
        &mut self,
        alloc: Global,
        draws: &mut Draws,
        rules: &DrawnRules,
        clock: u64,
    ) -> Result<(), ScriptFault> {
        let moment = clock.saturating_sub(u64::from(draws.up_to(1)));
        let happening = Happening::drawn(draws);
        let line = happening.line(alloc, rules, moment)?;
        self.setup.entries.push(line)?;
        self.plain.take(rules, moment, happening)
    }
}

/// Draws rules, and so many entries.
fn draw_all(alloc: Global, seed: u64, entries: u64) -> Result<Drawn, ScriptFault> {
    let mut draws = Draws::new(seed);
    let rules = drawn_rules(alloc, &mut draws)?;
    let mut drawn = Drawn::new(alloc, &rules)?;
    let mut clock = 0u64;
    for _entry in 0..entries {
        clock = clock.saturating_add(u64::from(draws.up_to(2)));
        drawn.take_next(alloc, &mut draws, &rules, clock)?;
    }
    drawn.plain.put_open()?;
    Ok(drawn)
}

/// What a module of the rules says, and which cases are open then.
fn module_text(alloc: Global, setup: &Setup) -> Result<String, ScriptFault> {
    let ended = run(alloc, setup, 0)?;
    let mut text = String::new(alloc);
    text.push_str(ended.heard.text.as_str())?;
    put_cases(ended.again.open.as_slice(), "open", &mut text)?;
    Ok(text)
}

/// Tries the rules and entries of one number: where the module says something else, both.
fn trial(
    alloc: Global,
    seed: u64,
    entries: u64,
    counts: &mut Counts,
) -> Result<Option<String>, ScriptFault> {
    let drawn = draw_all(alloc, seed, entries)?;
    counts.add(&drawn.plain.counts);
    let found = module_text(alloc, &drawn.setup)?;
    let found = found.as_str();
    let wanted = drawn.plain.text.as_str();
    if found == wanted {
        return Ok(None);
    }
    Ok(Some(format!(in alloc; "{seed} says {found} and not {wanted}")?))
}

/// Appends that no module differs, and of what there were fewer than a number.
fn show_few(counts: &Counts, least: u32, out: &mut String) -> Result<(), ScriptFault> {
    out.push_str("alike")?;
    for (name, count) in NAMES.iter().zip(counts.counts.iter()) {
        if *count < least {
            write!(out, ", {count} {name}")?;
        }
    }
    Ok(())
}

/// Tries the rules and entries of so many numbers from one on, `FIRST COUNT ENTRIES LEAST`: which
/// differ first, or that none do, and of what there were fewer than the last number.
fn show_drawn(alloc: Global, words: &str, out: &mut String) -> Result<(), ScriptFault> {
    let (first, rest) = first_word(words);
    let (count, rest) = first_word(rest);
    let (entries, least) = first_word(rest);
    let entries = number_in(entries)?;
    let least = small_in(least)?;
    let mut seed = number_in(first)?;
    let mut counts = Counts::new();
    for _trial in 0..number_in(count)? {
        if let Some(difference) = trial(alloc, seed, entries, &mut counts)? {
            return Ok(out.push_str(difference.as_str())?);
        }
        seed = seed.wrapping_add(1);
    }
    show_few(&counts, least, out)
}

/// A script of which nothing stays from line to line.
#[derive(Drop)]
pub struct DrawnScript;

impl Script for DrawnScript {
    fn answer(
        &mut self,
        rt: &HostRuntime,
        line: &str,
        out: &mut String,
    ) -> Result<(), ScriptFault> {
        let (word, rest) = first_word(line);
        match word {
            "drawn" => show_drawn(rt.alloc(), rest, out),
            _ => Err(ScriptFault::Words),
        }
    }
}
