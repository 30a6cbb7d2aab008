//! Stories: which sets of events one root accounts for, and a checker of them.
//!
//! **Model.** A story is a set of nodes (`specs/Story`): it has one root, each other member is an
//! effect of some instance with `k` of its causes in the set, and of each instance of which a
//! member is a cause, `n` of the effects are in the set, whether or not `k` of its causes are. Both
//! rules only gain from a larger set, so the union of two stories of a root is one
//! ([`union_is_story`]), and there is a greatest story wherever there is any.
//!
//! **Promises.** [`check_story`] is true exactly for a story whose reports are those that were
//! seen, both lists ascending; [`check_story_less`] says the same of the graph less some links.
//! They take no memory, and the time of the links of the instances of each member, each with one
//! search in the story.
#![tactic(auto)]

mod check;
mod laws;
mod links;

pub use check::{check_story, check_story_less};
pub use laws::union_is_story;
pub use links::are_links;
