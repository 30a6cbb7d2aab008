//! The laws of rule files as texts: a text comes to one checked file, or has a fault, never both.
//!
//! **Model.** `IsRuleFile` of fm_sources says of a text and a checked file that the text is cut
//! into tokens, that these spell statements at which no check finds a fault, and that the file has
//! what the statements give. It is a relation.
//!
//! **Laws.** Two checked files of one text are copies of each other ([`a_text_is_one_rule_file`]):
//! they have the same events, engines and propagations. Where the conditions of the propagations
//! lie in memory is all in which they may differ. And a text that is a rule file has none of the
//! faults for which a text is refused ([`a_rule_file_has_no_fault`]).
//!
//! **Proof.** At each place of a text one piece begins, so its tokens are determined. What is
//! spelled by tokens is what the reading function of ev_parse reads, which answers once. What
//! statements give is a function of their rules, whatever their places and their memory
//! (`proofs/OneFile.antt`), and so is what is wrong with them (`proofs/NoFault.antt`). Each law is
//! the contract of a function without a body.
#![tactic(auto)]

mod laws;

pub use laws::{a_rule_file_has_no_fault, a_text_is_one_rule_file};
