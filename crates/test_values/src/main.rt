//! The program `test_values`: a script about values and their spellings, from standard input, and
//! what each of its lines comes to, to standard output.
#![tactic(auto)]

mod again;
mod lines;
mod names;
mod numbers;
mod pairs;
mod script;
mod times;

use crate::numbers::laws_of_numbers;
use crate::pairs::laws_of_lists;
use crate::script::Held;
use std::process::ExitCode;
use test_words::run_script;

fn main(rt: HostRuntime) -> ExitCode {
    laws_of_numbers();
    laws_of_lists();
    run_script(&rt, &mut Held::new(rt.alloc()))
}
