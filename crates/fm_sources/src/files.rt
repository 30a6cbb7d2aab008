//! The rule files among the sources.

ghost use Rattle.std.specs.Prelude.{◌≤◌, length, IfOk, IfErr};
ghost use Rattle.fm_sources.specs.Sources.{GaveRules, RulesRefused};

use crate::faults::{RulesFault, SourceFault, TextFault};
use crate::rules::{RULES_LIMIT, read_rules};
use crate::text::read_text;
use ev_check::Checked;
use fm_outer::Source;
use std::alloc::Global;

/// A rule file: its text, and what it comes to.
#[derive(Drop)]
pub struct RuleFile {
    pub text: Vec<u8>,
    pub checked: Checked,
}

/// Reads a rule file, and then checks it.
pub(crate) fn read_file<S: Source>(
    alloc: Global,
    number: u32,
    source: &mut S,
) -> Result<RuleFile, SourceFault>
    ensures gave { IfOk result (GaveRules S.Source source.old source.new) }
    ensures refused { IfErr result (RulesRefused S.Source number source.old source.new) }
{
    let text = match read_text(alloc, source, RULES_LIMIT) {
        Ok(text) => text,
        Err(TextFault::Read) => return Err(SourceFault::Read),
        Err(TextFault::NoMemory) => return Err(SourceFault::NoMemory),
    };
    match read_rules(alloc, text.as_slice()) {
        Ok(checked) => Ok(RuleFile { text, checked }),
        Err(RulesFault::At { place, kind }) => Err(SourceFault::Rules {
            file: number,
            place,
            kind,
        }),
        Err(RulesFault::NoMemory) => Err(SourceFault::NoMemory),
    }
}
