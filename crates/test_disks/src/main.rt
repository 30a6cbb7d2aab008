//! The program `test_disks`: a script about disks, streams, journals and slots, from standard
//! input, and what each of its lines comes to, to standard output.
#![tactic(auto)]

mod calls;
mod journals;
mod lent;
mod payloads;
mod script;
mod setting;
mod slots;
mod streams;
mod sweeps;

use crate::script::Held;
use std::process::ExitCode;
use test_words::run_script;

fn main(rt: HostRuntime) -> ExitCode {
    run_script(&rt, &mut Held::new(rt.alloc()))
}
