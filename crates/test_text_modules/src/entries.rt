// Entries of lines: those of the input, and reloads, which no line of the input says.
ghost use Rattle.std.specs.Prelude.{IfSome};
ghost use Rattle.fm_core.specs.Book.{IsAdmitted};
ghost use Rattle.fm_entry.specs.Entries.{IsSpelled};

use fm_entry::Entry;
use fm_line::read_line;
use fm_text::read_number;
use std::alloc::Global;

/// What is behind the first word of a reload.
pub(crate) fn reload_words(line: &str) -> Option<&str> {
    line.strip_prefix("reload ")
}

/// A reload to a configuration at a moment, as two numbers.
fn reload_of(words: &str) -> Option<Entry>
    ensures { IfSome result IsSpelled }
{
    let (conf, moment) = words.split_once(' ')?;
    let conf = u32::try_from(read_number(conf)?).ok()?;
    let moment = read_number(moment)?;
    if moment >= 1 << 62 {
        return None;
    }
    Some(Entry::Reload { conf, moment })
}

/// The entry of a line of the input.
pub(crate) fn entry_of(alloc: Global, line: &str) -> Option<Entry>
    ensures { IfSome result IsAdmitted }
{
    read_line(alloc, line.as_bytes()).ok()
}

/// The same, or a reload.
pub(crate) fn any_entry_of(alloc: Global, line: &str) -> Option<Entry>
    ensures { IfSome result IsSpelled }
{
    match reload_words(line) {
        Some(words) => reload_of(words),
        None => read_line(alloc, line.as_bytes()).ok(),
    }
}
