//! The program `test_status`: a script about what an operator sees and about actuators, from
//! standard input, and what each of its lines comes to, to standard output.
#![tactic(auto)]

mod acts;
mod dumps;
mod records;
mod script;
mod statuses;

use crate::script::Held;
use std::process::ExitCode;
use test_words::run_script;

fn main(rt: HostRuntime) -> ExitCode {
    run_script(&rt, &mut Held::new(rt.alloc()))
}
