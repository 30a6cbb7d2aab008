// Classes, patterns, paths and events: which texts are some, and their orders.
use fm_name::{Category, Class, EventName, Fmri, Pattern, read_pattern};
use std::alloc::Global;
use std::cmp::Ordering;
use test_words::{ScriptFault, class_in, event_in, first_word, path_in, show_count, show_whether};

/// The pattern that a text spells.
fn pattern_in(alloc: Global, text: &str) -> Result<Pattern, ScriptFault> {
    read_pattern(alloc, text)?.ok_or(ScriptFault::NoSpelling)
}

/// The name of a category.
fn category_name(category: Category) -> &'static str {
    match category {
        Category::Ereport => "ereport",
        Category::Error => "error",
        Category::Fault => "fault",
        Category::Defect => "defect",
        Category::Upset => "upset",
        Category::List => "list",
        Category::Serd => "serd",
    }
}

/// Says whether what was read of a text has it again, as a copy of it must.
fn show_kept(text: &str, found: &str, copied: &str, out: &mut String) -> Result<(), ScriptFault> {
    let is_kept = found == text && copied == text;
    out.push_str(if is_kept { "read" } else { "another text" })?;
    Ok(())
}

/// Whether a text is a class, and of which category.
pub fn show_class(alloc: Global, text: &str, out: &mut String) -> Result<(), ScriptFault> {
    let class = class_in(alloc, text)?;
    let copied = class.copy()?.to_string(alloc)?;
    show_kept(text, class.text(), copied.as_str(), out)?;
    if class.is_ereport() {
        out.push_str(", a report")?;
    }
    match class.category() {
        Some(category) => write!(out, ", {}", category_name(category))?,
        None => out.push_str(", no category")?,
    }
    Ok(())
}

/// Whether a text is a pattern.
pub fn show_pattern(alloc: Global, text: &str, out: &mut String) -> Result<(), ScriptFault> {
    let pattern = pattern_in(alloc, text)?;
    let copied = pattern.copy()?.to_string(alloc)?;
    show_kept(text, pattern.text(), copied.as_str(), out)
}

/// Whether a pattern matches a class.
pub fn show_match(alloc: Global, text: &str, out: &mut String) -> Result<(), ScriptFault> {
    let (pattern, class) = first_word(text);
    let pattern = pattern_in(alloc, pattern)?;
    show_whether(pattern.matches(&class_in(alloc, class)?), out)
}

/// Appends the parts of a path.
fn show_parts(path: &Fmri, out: &mut String) -> Result<(), ScriptFault> {
    for at in 0..path.depth() {
        let name = path.name(at);
        let instance = path.instance(at);
        write!(out, " {name} {instance}")?;
    }
    Ok(())
}

/// Whether the lists of names and instances of a path are those of its parts.
fn has_lists(path: &Fmri) -> bool {
    let names = path.names();
    let instances = path.instances();
    for at in 0..path.depth() {
        let has_name = names.get(at).is_some_and(|name| *name == path.name(at));
        let has_instance = instances.get(at).is_some_and(|i| *i == path.instance(at));
        if !has_name || !has_instance {
            return false;
        }
    }
    names.len() == path.depth() && instances.len() == path.depth()
}

/// Whether a text is a path, and which parts it has.
pub fn show_path(alloc: Global, text: &str, out: &mut String) -> Result<(), ScriptFault> {
    let path = path_in(alloc, text)?;
    let copied = path.copy()?.to_string(alloc)?;
    show_kept(text, path.text(), copied.as_str(), out)?;
    if !has_lists(&path) {
        out.push_str(", other lists")?;
    }
    show_parts(&path, out)
}

/// Whether a path is another one, or within it.
pub fn show_under(alloc: Global, text: &str, out: &mut String) -> Result<(), ScriptFault> {
    let (path, above) = first_word(text);
    let path = path_in(alloc, path)?;
    show_whether(path.is_under(&path_in(alloc, above)?), out)
}

/// The order of two texts as classes, paths or events; of the first a copy is taken.
fn order_of(
    alloc: Global,
    kind: &str,
    ours: &str,
    theirs: &str,
) -> Result<(Ordering, bool), ScriptFault> {
    match kind {
        "classes" => class_order(class_in(alloc, ours)?.copy()?, &class_in(alloc, theirs)?),
        "paths" => path_order(path_in(alloc, ours)?.copy()?, &path_in(alloc, theirs)?),
        _ => event_order(event_in(alloc, ours)?.copy()?, &event_in(alloc, theirs)?),
    }
}

fn class_order(ours: Class, theirs: &Class) -> Result<(Ordering, bool), ScriptFault> {
    Ok((ours.cmp(theirs), ours == *theirs))
}

fn path_order(ours: Fmri, theirs: &Fmri) -> Result<(Ordering, bool), ScriptFault> {
    Ok((ours.cmp(theirs), ours == *theirs))
}

fn event_order(ours: EventName, theirs: &EventName) -> Result<(Ordering, bool), ScriptFault> {
    Ok((ours.cmp(theirs), ours == *theirs))
}

/// How many of some texts have the order of their places to the text at a place.
fn count_in_order(
    alloc: Global,
    kind: &str,
    texts: &[&str],
    at: usize,
    text: &str,
) -> Result<usize, ScriptFault> {
    let mut count: usize = 0;
    for (other_at, other) in texts.iter().enumerate() {
        let (order, equal) = order_of(alloc, kind, text, other)?;
        if order == at.cmp(&other_at) && equal == (at == other_at) {
            count = count.saturating_add(1);
        }
    }
    Ok(count)
}

/// How many pairs of some texts have the order of their places, and how many there are.
pub fn show_order(
    alloc: Global,
    kind: &str,
    words: &str,
    out: &mut String,
) -> Result<(), ScriptFault> {
    let texts: Vec<&str> = words.split_whitespace().collect(alloc)?;
    let mut count: usize = 0;
    for (at, text) in texts.iter().enumerate() {
        count = count.saturating_add(count_in_order(alloc, kind, &texts, at, text)?);
    }
    show_count("in order", count, out)?;
    show_count(" of", texts.len().saturating_mul(texts.len()), out)
}
