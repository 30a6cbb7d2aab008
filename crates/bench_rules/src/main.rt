//! The program `bench_rules`, for the scripts bench/rules, bench/checks and bench/topo.
//!
//! Its words are one of these. `parse`: a rule file comes in, is lexed and parsed, and the numbers
//! of its bytes, tokens and statements are printed. `topology`: a topology text comes in, and the
//! topology is printed. `ring COUNT`, `chain COUNT` and `sides COUNT`: a tree of that shape and
//! size is made and checked; a ring has to be refused with all its members, the others have to be
//! taken.
//!
//! It ends with status 0 where it went well, with 1 where the text has a fault or the checks answer
//! otherwise, and with 2 where the words are others, or reading, writing or memory fails.
#![tactic(auto)]

mod checks;
mod rules;
mod shapes;
mod topology;

use std::process::ExitCode;
use std::{env, io};

/// Where the words are none of the program's.
fn unknown<T>() -> io::Result<T> {
    Err(io::Error::from(io::ErrorKind::InvalidInput))
}

/// Does what the words say: whether it went well.
fn run(rt: &HostRuntime) -> io::Result<bool> {
    let Ok(words) = env::args(rt) else {
        return unknown();
    };
    let mut words = words.skip(1);
    let Some(word) = words.next() else {
        return unknown();
    };
    match word.as_str() {
        "parse" => rules::parse_input(rt),
        "topology" => topology::print_input(rt),
        shape => {
            let Some(size) = words.next() else {
                return unknown();
            };
            let Ok(count) = size.as_str().parse::<u32>() else {
                return unknown();
            };
            checks::check_shape(rt.alloc(), shape, count)
        }
    }
}

fn main(rt: HostRuntime) -> ExitCode {
    match run(&rt) {
        Ok(true) => ExitCode::SUCCESS,
        Ok(false) => ExitCode::from(1),
        Err(_) => ExitCode::from(2),
    }
}
