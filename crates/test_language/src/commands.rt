// The commands of a script, each with its answer.
use crate::arrows::{cycle, distances};
use crate::checked_files::checked_file;
use crate::checks::{checks, name, ring};
use crate::compiled::{alter, beginnings, read, write};
use crate::conditions::{compare, cond_holds};
use crate::explained::{explain, explain_alone};
use crate::guards::{breaks, guarded};
use crate::instances::instances;
use crate::listed::list;
use crate::orders::ordered_iterators;
use crate::pairs::pairs;
use crate::printed::printed;
use crate::settings::Settings;
use crate::sources::{rule_file, sources};
use crate::texts::bytes_in;
use crate::tokens::tokens;
use crate::topologies::{ask_topo, names, topo};
use crate::trees::tree;
use std::alloc::Global;
use test_words::{ScriptFault, first_word, small_in};

/// A command on what rules come to over some parts.
fn answer_of_rules(
    alloc: Global,
    settings: &Settings,
    word: &str,
    rest: &str,
) -> Result<String, ScriptFault> {
    let rules = settings.first.as_slice();
    let parts = settings.parts.as_slice();
    match word {
        "guarded" => guarded(alloc, rules, parts, rest),
        "breaks" => breaks(alloc, rules, parts, rest),
        "explain" => explain(alloc, rules, parts, rest),
        "explain_alone" => explain_alone(alloc, rest),
        "pairs" => pairs(alloc, rest),
        "order" => ordered_iterators(alloc, rest),
        _ => ask_topo(alloc, parts, word, rest),
    }
}

/// A command on a compiled file, a condition or a drawing.
fn answer_of_file(
    alloc: Global,
    settings: &Settings,
    word: &str,
    rest: &str,
) -> Result<String, ScriptFault> {
    let file = settings.file.as_slice();
    match word {
        "read" => read(alloc, file),
        "write" => write(alloc, file, rest),
        "beginnings" => beginnings(alloc, file),
        "alter" => alter(alloc, file, rest),
        "list" => list(alloc, file, rest),
        "holds" => cond_holds(alloc, settings, rest),
        "compare" => compare(alloc, settings, rest),
        "cycle" => cycle(alloc, rest),
        "distances" => distances(alloc, rest),
        _ => answer_of_rules(alloc, settings, word, rest),
    }
}

/// A command on a text.
fn answer_of_text(
    alloc: Global,
    settings: &Settings,
    word: &str,
    rest: &str,
) -> Result<String, ScriptFault> {
    match word {
        "tokens" => tokens(alloc, &bytes_in(alloc, rest)?),
        "tree" => tree(alloc, &settings.rules(alloc, rest)?),
        "printed" => printed(alloc, &settings.rules(alloc, rest)?),
        "check" => checks(alloc, &settings.rules(alloc, rest)?),
        "checked" => checked_file(alloc, &settings.rules(alloc, rest)?),
        "rules" => rule_file(alloc, &settings.rules(alloc, rest)?),
        "instances" => instances(alloc, &settings.rules(alloc, rest)?, &settings.parts),
        "topology" => topo(alloc, &bytes_in(alloc, rest)?),
        "sources" => sources(alloc, settings, rest),
        "ring" => ring(alloc, small_in(rest)?),
        "name" => name(alloc, rest),
        "names" => names(alloc, rest),
        _ => answer_of_file(alloc, settings, word, rest),
    }
}

/// Does what a line says, and tells what came of it, if it is no setting.
pub fn answer(
    alloc: Global,
    settings: &mut Settings,
    line: &str,
) -> Result<Option<String>, ScriptFault> {
    let (word, rest) = first_word(line);
    if settings.take(alloc, word, rest)? {
        return Ok(None);
    }
    Ok(Some(answer_of_text(alloc, settings, word, rest)?))
}
