//! The program `bench_diagnosis`: diagnosis modules that take generated entries, for the script
//! bench/diagnosis.
//!
//! Its words are an operation and numbers (README.md lists them). It prints how many entries there
//! were, how many words were said, and how many cases are open and solved. It ends with status 0,
//! with 1 where memory ran out or a state did not load, and with 2 where the words are others.
#![tactic(auto)]

mod cores;
mod day;
mod files;
mod many;
mod steps;
mod tally;

use crate::many::{Further, with_many};
use crate::tally::Tally;
use std::alloc::{AllocError, Global};
use std::process::ExitCode;
use std::{env, io};
use test_words::ScriptFault;

/// Where the words are none of the program's.
const USAGE: u8 = 2;

/// What the words ask for: an operation, and up to three numbers.
#[derive(Drop)]
struct Order {
    operation: String,
    numbers: [u32; 3],
}

/// The number that a word says; 0 where there is none.
fn number_of(word: Option<String>) -> u32 {
    match word {
        Some(word) => word.as_str().parse::<u32>().unwrap_or(0),
        None => 0,
    }
}

/// What the words ask for, none where they say nothing.
fn order_of(rt: &HostRuntime) -> Result<Option<Order>, AllocError> {
    let mut words = env::args(rt).map_err(|_| AllocError)?.skip(1);
    let Some(operation) = words.next() else {
        return Ok(None);
    };
    let first = number_of(words.next());
    let second = number_of(words.next());
    let third = number_of(words.next());
    Ok(Some(Order {
        operation,
        numbers: [first, second, third],
    }))
}

/// Does what is asked for; none where it is no operation.
fn run(alloc: Global, order: &Order) -> Result<Option<Tally>, ScriptFault> {
    let [first, second, third] = order.numbers;
    match order.operation.as_str() {
        "diagnose" => Ok(Some(day::diagnose(alloc, first)?)),
        "count" => Ok(Some(day::count(alloc, first)?)),
        "step" => Ok(Some(day::step(alloc, first, 0)?)),
        "save" => Ok(Some(day::step(alloc, first, second)?)),
        "open" => Ok(Some(with_many(alloc, first, second, Further::Reports, third)?)),
        "tick" => Ok(Some(with_many(alloc, first, second, Further::Ticks, third)?)),
        _ => Ok(None),
    }
}

fn out_of_memory() -> io::Error {
    io::Error::from(io::ErrorKind::OutOfMemory)
}

/// Prints generated lines.
fn print_lines(rt: &HostRuntime, count: u32) -> io::Result<()> {
    let mut draws = day::Draws::new();
    for _line in 0..count {
        let line = draws.line(rt.alloc()).map_err(|_| out_of_memory())?;
        let line = line.as_str();
        println!(rt; "{line}")?;
    }
    Ok(())
}

/// Prints what an operation came to.
fn print_tally(rt: &HostRuntime, tally: Tally) -> io::Result<()> {
    let entries = tally.entries;
    let words = tally.words;
    let open = tally.open;
    let solved = tally.solved;
    println!(rt; "entries {entries} words {words} open {open} solved {solved}")
}

/// The status once something was printed.
fn status_of(printed: io::Result<()>) -> ExitCode {
    match printed {
        Ok(()) => ExitCode::SUCCESS,
        Err(_) => ExitCode::FAILURE,
    }
}

fn main(rt: HostRuntime) -> ExitCode {
    let Ok(Some(order)) = order_of(&rt) else {
        return ExitCode::from(USAGE);
    };
    if order.operation.as_str() == "lines" {
        return status_of(print_lines(&rt, order.numbers[0]));
    }
    match run(rt.alloc(), &order) {
        Ok(Some(tally)) => status_of(print_tally(&rt, tally)),
        Ok(None) => ExitCode::from(USAGE),
        Err(_) => ExitCode::FAILURE,
    }
}
