//! The laws, each as the contract of a call that does nothing.

ghost use Rattle.std.specs.Prelude.{ℕ, List};
ghost use Rattle.ev_check.specs.CheckedFile.{CheckedFile, IsCopyOf};
ghost use Rattle.fm_sources.specs.Rules.{IsRuleFile, IsRulesFault};
ghost use Rattle.fm_sources.specs.declared.faults.RulesKind.{RulesKind};

/// The checked files that a text comes to are copies of one.
pub fn a_text_is_one_rule_file()
    ensures { (text : List ℕ) (f g : CheckedFile) → IsRuleFile text f → IsRuleFile text g
        → IsCopyOf f g }
{}

/// A text that is a rule file is refused for nothing: none of the faults is in it.
pub fn a_rule_file_has_no_fault()
    ensures { (text : List ℕ) (f : CheckedFile) (place : ℕ) (kind : RulesKind) → IsRuleFile text f
        → IsRulesFault text place kind → ⊥ }
{}
