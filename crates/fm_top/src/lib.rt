//! The top call: what one run of the fault manager does with its words, its input, its sink, its
//! disks and its actuators.
//!
//! `tool` finds the command in the words (fm_command) and runs it, and fm_answers' `end` puts its
//! last line. `init` reads the rule files and the topology, and makes a store of them where each
//! file comes to a graph (`graphed`). `esc` puts what they come to, or lists what `esc -b` put;
//! fm_esc makes its text. `accept` and `replay` read
//! the input by one loop, fm_answers' `run`: it answers each line once, after its entry was taken.
//! What takes the entries is for `accept` the store on the six disks, which is opened first with
//! the modules of what it keeps. Why a command stops before all is done is a `Stop`; it gives the
//! last line and the status.
//!
//! `fmd -1` reads the sources as `esc` does, opens the store and has it keep entries as `accept`
//! does, where it keeps just what was read (`as_read`). It then has fm_conclude drain the store and
//! move its base to its end, brings the actuators to hold what the drained book wants out of use,
//! and puts the summary (`settle`).
//!
//! What is done with a store is a `tasks::StoreTask`. One chain of calls (`opened`) opens the store
//! on six lent disks, does the task with it and gives the disks back, and says what came of it by
//! the task (`specs/Tasks`). `fmadm` has fm_admin drain the store and tell a text of it, which is
//! put when the disks are back (`admin`, `specs/Admin`); so does `fmdump`, of one of the logs
//! (`dumping`, `specs/Dump`), and `explain`, of one case (`explaining`, `specs/Explain`). `gen`
//! makes entries of a number, of the reports that fm_config has of the configuration in force,
//! which the store takes, or of which the lines are put (`generating`, `specs/Generate`).
//!
//! The model of a call is two records of what stands outside, before and after it
//! (`specs/Outside`). `specs/Calls` says by the command what lies between them; `specs/Order` in
//! which order a command refuses, and what stands where it goes on; fm_answers' `specs/Ending` what
//! is put last.
//!
//! How a run over the input ends is said by fm_answers (`specs/Running`), of any taker, by what
//! became of the entries; `specs/Accepting` says what that is for `accept`, and fm_answers'
//! `specs/Replaying` for `replay`; `specs/Init` says what `init` does, `specs/Esc` what `esc` does,
//! `specs/Fmd` what `fmd -1` does, and `specs/Admin` what an operator's command does that puts one
//! text.
//!
//! **The headline.** `specs/Headline` says of every command, whatever its status, what a crash at
//! the return leaves of the six disks: contents from before, or contents that read as a book which
//! drains to what the book from before comes to with the entries of the first lines, of all that
//! were answered and of one more at most. Whatever the rule files, the topology and the entries are,
//! the book from before has exact suspects with these entries, by a law of fm_modules_laws
//! (`specs/Exact`). The headline follows from what the store says of each entry
//! (fm_answers' `specs/Recording`), which goes on over a run as lines are answered. It says so of
//! each book that the contents from before read as; they read as one (`proofs/BookHeld`).
//!
//! Counts of faults: each step says by `Accounts` that an Ok leaves the count of the source, the
//! sink or the disk, and that its fault is answered only where it rose. So `tool` is done only
//! where no count rose.
//!
//! `tool` carries all of it in one clause, `does`; `works_on` says what a command leaves alone.
#![tactic(auto)]

mod accept;
mod admin;
mod as_read;
mod call;
mod configuring;
mod dumping;
mod esc;
mod explaining;
mod fmd;
mod generating;
mod graphed;
mod init;
mod no_input;
mod opened;
mod repairing;
mod settle;
mod tasks;

pub use call::tool;
pub use fm_act::{ActFault, Actuator};
pub use fm_answers::{Stop, ToolStatus};
pub use fm_command::{AdminCommand, Command, Repair, RepairRequest};
pub use fm_init::{DiskName, Disks};
