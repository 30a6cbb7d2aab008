//! The tree of a rule file: one public type for each rule of the grammar, each statement with its
//! place.
//!
//! **Model.** Texts and lists are small types that contracts see as their bytes and their items, so
//! most trees are compared as they are. A condition lies in memory with its members, and contracts
//! see it through `view_cond` as the `Condition` of `specs/Condition.antt`; a pattern through
//! `view_pattern`, a statement through `view_statement`, which leaves out its place (`place_of`),
//! and a tree through `view_tree`, the list of its rules.
//!
//! **Grammar.** `specs/Grammar.antt` says, rule by rule, which tokens spell which tree, by the
//! combinators of `specs/Language.antt` over the tokens of `specs/Tok.antt`.
//!
//! **Printed text.** `specs/Printing.antt` says which tokens a tree is printed as: one list for
//! each rule of the grammar, with parentheses round an `Any` that is a member of an `Any` or `All`
//! or is negated, and round an `All` that is a member of an `All` or is negated, and nowhere else.
//! `specs/Text.antt` says the bytes of a token, and that a newline follows each `;` and a space
//! each other token.
//!
//! **Promises.** Each `copy` answers an equal value, or, where a condition is in it, one with the
//! same view; a statement's copy has its place too. [`print_tree`] adds exactly the printed text of
//! the tree's rules, or nothing. Want of memory is the one error.
#![tactic(auto)]

mod copies;
mod lists;
mod print;
mod print_conditions;
mod print_parts;
mod print_sums;
mod print_words;
mod tree;

pub use copies::{copy_patterns, copy_statements};
pub use fm_bytes::NoMemory;
pub use lists::{EngineAttrs, EventAttrs, Names, Operands, Parts, Patterns, Statements, TreeText};
pub use print::print_tree;
pub use tree::{
    At, Compare, Cond, Count, Declared, EngineAttr, EventAttr, Operand, Part, SidePattern,
    Statement, TimeWord, Tree, Unit,
};
