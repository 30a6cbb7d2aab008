//! Rate engines: a moment is noted, and where enough moments lie close enough together, the engine
//! fires.
//!
//! An engine has a count n and a time t. Noting a moment fires exactly where, of the moments noted
//! since the last reset and this one, at least n lie between that moment less t and that moment,
//! both included (`fires`). Firing is a reset. Contracts see an engine as its n, its t and the
//! moments that it keeps (`RateOf`), which are the last n since the last reset, in a ring of n
//! places (`circular_buffer`).
//!
//! Moments do not fall, so the last n of them decide as all of them do: that is the contract of
//! `last_decide`, over every run of moments. The code looks at one place of the ring, the oldest
//! moment kept. What an engine can keep is a test (`are_kept`), which each engine passes and a
//! loaded one has to pass; noting keeps it (`notes_are_kept`).
#![tactic(auto)]

mod engine;
mod laws;

pub use engine::{Engine, are_lawful};
pub use fm_bytes::NoMemory;
pub use laws::{last_decide, notes_are_kept};
