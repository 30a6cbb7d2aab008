//! The law of instances: what a rule file comes to over a topology is one.
//!
//! **Model.** `IsGraphOf` of ev_inst is a relation between a checked file, a topology, a graph and
//! a number of skipped candidates. It says which nodes, engines and instances a graph has, and in
//! what order they stand; it does not say that there is one such graph.
//!
//! **Law.** There is one ([`a_rule_file_has_one_graph`]): two graphs of one file over one topology
//! are equal, and so are their numbers of skipped candidates. It holds as well of two files that
//! differ only in where their conditions lie in memory, as two that one text comes to do. It rests
//! on what the check of a file looks for: no event is declared twice, and no engine
//! ([`a_checked_file_declares_once`]). Else an event at a path could have the kind of the one or of
//! the other.
//!
//! **Proof.** The names of nodes and of engines ascend and are just those that are declared at the
//! paths, so both lists of names are determined (`proofs/Rising.antt`); each name is of one
//! declaration, which has one kind, and the numbers of engines and trips are places in these lists
//! (`proofs/OneGraph.antt`). The candidates are determined too, and the instances are a function of
//! them. Each law is the contract of a function without a body.
#![tactic(auto)]

mod laws;

pub use laws::{a_checked_file_declares_once, a_rule_file_has_one_graph};
