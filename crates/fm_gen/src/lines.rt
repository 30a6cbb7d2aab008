//! The lines of generated entries.

ghost use Rattle.std.specs.Prelude.{◌≡◌, ◌++◌, codes, false, IfOk, OnOk};
ghost use Rattle.fm_entry.specs.Entries.{is_reload};
ghost use Rattle.fm_gen.specs.Generated.{lines_text};
ghost use Rattle.fm_line.specs.Printed.{line_text};

use crate::generator::Gen;
use fm_bytes::NoMemory;
use fm_entry::Entry;
use fm_line::print_line;
use std::alloc::Global;

/// Appends the line of the entry, with its newline.
fn put_line(alloc: Global, entry: Entry, out: &mut Vec<u8>) -> Result<(), NoMemory>
    requires { is_reload entry ≡ false }
    ensures { OnOk result (out.new.items ≡ out.old.items ++ (line_text entry ++ codes "\n")) }
{
    print_line(alloc, &entry, out)?;
    out.push(b'\n')?;
    Ok(())
}

/// The lines of the entries that are still to be given, each with its newline.
pub fn generated_lines(alloc: Global, mut entries: Gen) -> Result<Vec<u8>, NoMemory>
    ensures { IfOk result (λ text. text.items ≡ lines_text entries) }
{
    let mut text = Vec::new(alloc);
    'entries: loop {
        match entries.next()? {
            Some(entry) => put_line(alloc, entry, &mut text)?,
            None => return Ok(text),
        }
    }
}
