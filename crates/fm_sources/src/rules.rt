//! A rule file, from its bytes to what it comes to.

ghost use Rattle.std.specs.Prelude.{IfOk, IfErr};
ghost use Rattle.fm_sources.specs.Rules.{IsRuleFile, RulesCause};

use crate::faults::{RulesFault, RulesKind};
use ev_check::{Checked, check};
use ev_lex::lex;
use ev_parse::parse;
use std::alloc::Global;

/// The most bytes that a rule file has.
pub const RULES_LIMIT: usize = 1_048_576;

/// Reads the text of a rule file: the checked file, or the first of its faults. The source of the
/// grammar and of the checks is docs/RULES.md.
pub fn read_rules(alloc: Global, text: &[u8]) -> Result<Checked, RulesFault>
    ensures found { IfOk result (IsRuleFile text.now) }
    ensures cause { IfErr result (RulesCause text.now) }
{
    if text.len() > RULES_LIMIT {
        return Err(RulesFault::At {
            place: RULES_LIMIT as u32,
            kind: RulesKind::Length,
        });
    }
    let tokens = lex(alloc, text)?;
    let tree = parse(alloc, text, tokens.as_slice())?;
    let checked = check(alloc, &tree)?;
    Ok(checked)
}
