//! The lines of the input, answered one after another as their entries are taken; the command
//! `replay`; and how any command ends: why it stops, its last line, its status.
//!
//! `run` reads the input in pieces, cuts them into lines, and answers each line once, by one put at
//! most, after its entry was taken. What takes the entries is a `Taker`, which numbers them: a
//! store on six disks (`recording`), or a `tally::Tally`, a core of two counters in memory, after
//! which the next one goes on. `replay` runs over the input with a tally, and then puts what its
//! counters come to. Why a command stops before all is done is a `Stop`; `end` puts its last line,
//! and gives the status.
//!
//! **Model.** A run over the input is the list of bytes that were read. The answers
//! (`specs/Answers`) and the entries are functions of its lines, and the lines are those of the
//! whole stream, however it came in pieces. `specs/Running` says how a run ends: at the end of the
//! input with each line answered; between two lines, with each line answered that ended in the
//! bytes read before; or at a line, with each line before it answered. It says so of any taker, by
//! what became of the entries (`went`); of a store that is `Recorded` (`specs/Recording`): what it
//! stands for then, how its logs are left, and what each crash leaves. What a source and a sink
//! tell at one moment is a plain record (`specs/StreamsAt`).
//!
//! The loops carry one relation, `Moved` (`specs/Halting`): from one moment to a later one a piece
//! was read, the lines that ended in it were answered, and whatever follows goes on from what is
//! kept of the line in progress. It is transitive, and each loop's invariant is that it holds from
//! the loop's start.
//!
//! Counts of faults: each step says by `Accounts` that an Ok leaves the count of the source or the
//! sink, and that its fault is answered only where it rose.
#![tactic(auto)]

mod answering;
mod counts;
mod last;
mod reading;
mod recording;
mod replaying;
mod status;
mod stops;
mod takers;
mod tally;

pub use answering::put_bytes;
pub use last::end;
pub use reading::run;
pub use replaying::replay;
pub use status::ToolStatus;
pub use stops::Stop;
pub use takers::Taker;
