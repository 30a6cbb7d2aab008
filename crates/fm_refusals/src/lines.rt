//! The lines of what is refused.

ghost use Rattle.std.specs.Prelude.{◌≡◌, ◌++◌, OnOk, IfOk, string_bytes};
ghost use Rattle.fm_refusals.specs.Refusals.{rules_kind_text, topo_kind_text, rules_text};
ghost use Rattle.fm_refusals.specs.Refusals.{topology_text};

use crate::checks::push_check;
use fm_bytes::NoMemory;
use fm_sources::RulesKind;
use fm_topo::TopoKind;
use std::alloc::Global;

/// Adds what is wrong with a rule file.
fn push_kind(kind: &RulesKind, line: &mut String) -> Result<(), NoMemory>
    ensures { OnOk result
        (string_bytes line.new ≡ string_bytes line.old ++ rules_kind_text kind.now) }
{
    let word = match kind {
        RulesKind::Length => "length",
        RulesKind::Token => "token",
        RulesKind::Grammar => "grammar",
        RulesKind::Check(kind) => return push_check(kind, line),
    };
    line.push_str(word)?;
    Ok(())
}

/// The word for what is wrong with a topology.
fn topo_word(kind: TopoKind) -> &'static str
    ensures { result.now ≡ topo_kind_text kind }
{
    match kind {
        TopoKind::Path => "path",
        TopoKind::Property => "property",
        TopoKind::Twice => "twice",
        TopoKind::Parent => "parent",
        TopoKind::Length => "length",
        TopoKind::Count => "count",
        TopoKind::Bytes => "bytes",
    }
}

/// The line of a rule file that is refused: `rules F P KIND`.
pub fn rules_line(
    alloc: Global,
    file: u32,
    place: u32,
    kind: &RulesKind,
) -> Result<String, NoMemory>
    ensures { IfOk result (λ line. string_bytes line ≡ rules_text file place kind.now) }
{
    let mut line = format!(in alloc; "rules {file} {place} ")?;
    push_kind(kind, &mut line)?;
    line.push_str("\n")?;
    Ok(line)
}

/// The line of a topology that is refused: `topology L KIND`.
pub fn topology_line(alloc: Global, number: u32, kind: TopoKind) -> Result<String, NoMemory>
    ensures { IfOk result (λ line. string_bytes line ≡ topology_text number kind) }
{
    let word = topo_word(kind);
    Ok(format!(in alloc; "topology {number} {word}\n")?)
}
