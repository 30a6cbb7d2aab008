//! The checks of a rule file.
//!
//! A tree of statements becomes a checked file, or its first fault. The model of both is the list
//! of statements itself: `ev_words` says by tests what is wrong with a statement alone,
//! `Declarations` what is declared twice or not at all, `Drawn` which arrows the propagations draw
//! between the declared events, and `Faults` puts them together: five phases, each over the
//! statements in order, and the first fault is that of the first phase that finds one, at its first
//! statement. An event or an engine is known by its class and its names, and its number is its
//! place among the statements of its kind.
//!
//! Each test is a function whose result is the definition. A phase is one loop, which keeps that
//! nothing was found before (`IsClean`). What is declared stands in a set in order of statements,
//! whose test of equality is that class and names are the same; so a file takes the time of its
//! statements, patterns and conditions.
//! The arrows go to `ev_ways`: what an upset reaches comes from its distances, and the cycle that
//! is named from its first cycle. `check` carries the promise: it answers a file exactly where no
//! phase finds a fault, and then no declared event reaches itself and the defaults are filled in
//! (`IsFileOf`); else it answers exactly the first fault. Only want of memory may stand in for
//! either. The invariant of `Checked` is that there are such statements (`IsSound`), and each look
//! at its lists says so, so that who holds one needs no tree to know that it is acyclic.
#![tactic(auto)]

mod arrows;
mod build;
mod checked;
mod checking;
mod cycles;
mod declared_set;
mod defaults;
mod kinds;
mod known;
mod phases;
mod trips;
mod undeclared;

pub use checked::{Checked, DeclKind, EventSpec, PropSpec, SerdSpec};
pub use checking::check;
pub use ev_words::{CheckKind, Members};
pub use fm_bytes::NoMemory;
pub use kinds::CheckFault;
