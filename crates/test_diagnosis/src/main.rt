//! The program `test_diagnosis`: a script about diagnosis modules that take entries, from standard
//! input, and what each of its lines comes to, to standard output.
#![tactic(auto)]

mod fields;
mod rows;
mod script;
mod steps;

use crate::script::Held;
use std::process::ExitCode;
use test_words::run_script;

fn main(rt: HostRuntime) -> ExitCode {
    run_script(&rt, &mut Held::new(rt.alloc()))
}
