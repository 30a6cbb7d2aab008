//! The law of printing.

ghost use Rattle.std.specs.Prelude.{◌≡◌, ◌≤◌, ◌++◌, false, OnOk, OnErr};
ghost use Rattle.fm_entry.specs.Entries.{is_reload};
ghost use Rattle.fm_line.specs.Printed.{line_text};
ghost use Rattle.fm_line.specs.Sound.{HasSpelledPayload};
ghost use Rattle.fm_line_laws.specs.Printing.{IsShortest, LineReadsBack};

use fm_bytes::NoMemory;
use fm_entry::Entry;
use fm_line::print_line;
use std::alloc::Global;

/// Proves that a payload has a spelling, which each list keeps by itself. Does nothing.
fn prove_payload(entry: &Entry)
    ensures { HasSpelledPayload entry.now }
{
    if let Entry::Report { payload, .. } = entry {
        let depth = payload.depth();
        prove!(depth <= 8);
    }
}

/// Appends the entry's line, as `print_line` does. The line of an entry that some line gives reads
/// as that entry, and is no longer than any line that gives it.
pub fn print_back(alloc: Global, entry: &Entry, out: &mut Vec<u8>) -> Result<(), NoMemory>
    requires { is_reload entry.now ≡ false }
    ensures ok { OnOk result (out.new.items ≡ out.old.items ++ line_text entry.now) }
    ensures err { OnErr result (out.new.items ≡ out.old.items) }
    ensures back { OnOk result (LineReadsBack entry.now) }
    ensures shortest { IsShortest entry.now }
{
    prove_payload(entry);
    print_line(alloc, entry, out)
}
