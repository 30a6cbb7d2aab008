//! The laws of `esc`: what it puts is a function of what its sources tell, and what it compiles has
//! a spelling.
//!
//! **Model.** `IsCompiled` of fm_esc says of sources before and after and of a text that the
//! sources gave rule files and a topology, and that the text is that of the graphs which the rule
//! files come to over it. It is a relation, as `AreGraphs` is between rule files and what they come
//! to.
//!
//! **Laws.** Rule files with the same texts come to one list over a topology
//! ([`rule_files_come_to_one_list`]). Of sources that tell their bytes one text is put
//! ([`told_sources_compile_to_one_text`]), by whatever reads they are read and wherever in memory
//! what is read of them lies. What rule files are compiled to always has a spelling
//! ([`compiled_files_are_spelled`]), and what was compiled of such sources lists as they do
//! ([`compiled_text_lists_as_its_rules`]).
//!
//! **Proof.** A source that tells its bytes gives all of them, since a rule file and a topology are
//! read to their end. A text is one rule file but for memory (fm_sources_laws), and a rule file has
//! one graph over a topology (ev_inst_laws). The grammar gives the classes of a graph's events, the
//! topology their paths, and what a file is checked for their categories and the limit of a FIT.
//! Each law is the contract of a function without a body.
#![tactic(auto)]

mod laws;

pub use laws::{
    compiled_files_are_spelled, compiled_text_lists_as_its_rules, rule_files_come_to_one_list,
    told_sources_compile_to_one_text,
};
