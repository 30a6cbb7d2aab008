//! The turns of a diagnosis module, part by part.
//!
//! **Model.** What a turn has come to is seen as the `Turn` of dx_step (`turn_at`), over a `Ground`
//! that stays as it is: the rulebook, the configuration in force and its graph, the time, and the
//! engines and last words from before. Each call does what a part of the step is defined to do.
//!
//! **Promises.** [`settle_all`] decides each open case that waits for nothing any more at the time
//! of the turn; [`join`] takes a report into the case that has it or waits for it, or into one that
//! it opens; [`act`] does what an entry says, a report or a mark of suspects; [`trips`] takes in
//! what engines report that fired; [`reload`] brings another configuration into force; [`turn`] is
//! all of this. None of them changes a case as it was before the turn: what a turn makes of it
//! stands beside it, and so want of memory in the midst of a turn leaves all that is needed to undo
//! it ([`undo_turn`]); [`end_turn`] takes over what a turn has made of its cases. A case of which
//! no window has ended and that no report joins costs one comparison.
#![tactic(auto)]

mod acting;
mod deciding;
mod ending;
mod finding;
mod ground;
mod joining;
mod marking;
mod noting;
mod reloading;
mod settling;
mod told;
mod tracked;
mod turning;
mod work;

pub use acting::act;
pub use ending::{end_turn, undo_turn};
pub use ev_graph::NoMemory;
pub use ground::Ground;
pub use joining::{Incoming, join, trips};
pub use reloading::{Reloaded, fresh_engines, reload};
pub use settling::settle_all;
pub use told::Told;
pub use tracked::Tracked;
pub use turning::turn;
pub use work::Work;
