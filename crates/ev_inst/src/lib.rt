//! What a checked rule file comes to over a topology.
//!
//! **Model.** The graph of a rule file over a topology is one definition, `IsGraphOf`
//! (`specs/Instances.antt`): every declared event and engine at every path with its names, and all
//! instances of all propagations, in order of statements and bindings, no other. A candidate is
//! dropped, skipped or an instance (`specs/Outcomes.antt`), told by sets and counts over the nodes
//! and the topology, never by the way in which they are found.
//!
//! **Work.** `ev_events` places what is declared, and answers the candidates of each propagation
//! with a table of each pattern; and the candidates become outcomes one by one
//! (`specs/Gathering.antt`). The limit on links goes from statement to statement: each one's
//! candidates may have what those before it leave.
//!
//! **Promises.** [`instantiate`] answers just this graph and the number of skipped candidates, or
//! `Nodes` or `Links` exactly where these limits are passed. That `Graph::build` refuses nothing
//! that is made so is proved: a checked file keeps what each refusal is of
//! (`proofs/Buildable.antt`). [`make_guards`] answers the guards of just the links of that graph
//! which a payload can break. Want of memory is the one other answer.
#![tactic(auto)]

mod asked;
mod fault;
mod gathered;
mod guarding;
mod index;
mod making;
mod numbers;
mod outcomes;

pub use ev_file::Made;
pub use fault::InstFault;
pub use fm_bytes::NoMemory;
pub use guarding::make_guards;
pub use making::instantiate;
