//! The program `test_drawn`: a script about diagnosis modules of rules that are drawn, from
//! standard input, and what each of its lines comes to, to standard output.
//!
//! What a module says of drawn entries is compared with a second opinion, `plain`, which was
//! written from the definitions alone and tries all sets of events for stories.
#![tactic(auto)]

mod drawn;
mod happenings;
mod plain;
mod rules;
mod spoken_of;
mod stories;

use crate::drawn::DrawnScript;
use std::process::ExitCode;
use test_words::run_script;

fn main(rt: HostRuntime) -> ExitCode {
    run_script(&rt, &mut DrawnScript)
}
