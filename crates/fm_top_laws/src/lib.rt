//! The laws of the top call: what follows from its contract for a run that is valid.
//!
//! **Model.** The contract of `tool` (fm_top, `specs/Calls.antt`) says of a call by its command
//! what lies between what stands outside before it and behind it, and of each status its cause. It
//! doesn't say that a call is done where nothing is wrong. `specs/Valid.antt` says when nothing is,
//! and `specs/Limits.antt` which limits a command may reach, by what stands before it.
//!
//! **Laws.** A valid run ends with all done, and its input read to its end where the command reads
//! it, or for want of memory ([`valid_runs_are_done`]). It is of every kind of sources, sinks,
//! disks and actuators, and of the very words of `tool`'s clause. That no look finds anything can
//! be had from positive words on what stands before the call ([`suited_looks_find_nothing`], with
//! `specs/Suiting.antt`): sources that tell rule files which come to graphs over a topology, and
//! disks that tell contents which read as a book. For contents that read as a book are nowhere
//! damaged ([`contents_of_a_book_are_undamaged`]), and a rule file with a graph is not past a limit
//! ([`rule_files_with_graphs_are_within_limits`]).
//!
//! **Proof.** By the cause of each status: a fault of the outside raises a count, what a look finds
//! ends the command, and a limit that is reached is one that the command may reach. An entry that
//! was refused stands among those of all lines of the input, since the lines that end in a front of
//! some bytes are the first of their lines. A graph has each declared event at each path, and each
//! candidate, so none of them can be more than it has. Each law is the contract of a function
//! without a body.
#![tactic(auto)]

mod laws;

pub use laws::{
    contents_of_a_book_are_undamaged, rule_files_with_graphs_are_within_limits,
    suited_looks_find_nothing, valid_runs_are_done,
};
