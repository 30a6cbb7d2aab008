//! Pieces of lines that printed texts share.

ghost use Rattle.std.specs.Prelude.{◌≡◌, ◌-◌, ◌++◌, OnOk, decimal, flat_map, length};
ghost use Rattle.std.specs.Prelude.{replicate};
ghost use Rattle.fm_entry.specs.CaseText.{case_text};
ghost use Rattle.fm_status.specs.Lines.{event_text, in_three_places, mark_text, retire_text};
ghost use Rattle.fm_status.specs.Lines.{certainty_part, mark_part, suspect_line};

use fm_bytes::NoMemory;
use fm_entry::{CaseName, Mark, Suspect};
use fm_name::{Class, Fmri};
use itoa::Buffer;

/// Appends a text.
pub fn put_text(text: &str, out: &mut Vec<u8>) -> Result<(), NoMemory>
    ensures { OnOk result (out.new.items ≡ out.old.items ++ text.now) }
{
    out.extend_from_slice(text.as_bytes())?;
    Ok(())
}

/// Appends a number in decimal digits.
pub fn put_number(number: u64, out: &mut Vec<u8>) -> Result<(), NoMemory>
    ensures { OnOk result (out.new.items ≡ out.old.items ++ decimal number) }
{
    put_text(Buffer::new().format(number), out)
}

/// Appends the name of a case.
pub fn put_case(case: &CaseName, out: &mut Vec<u8>) -> Result<(), NoMemory>
    ensures { OnOk result (out.new.items ≡ out.old.items ++ case_text case.now) }
{
    put_text("dx", out)?;
    put_number(case.module as u64, out)?;
    put_text("/", out)?;
    put_number(case.case, out)
}

/// Appends an event.
pub fn put_event(class: &Class, path: &Fmri, out: &mut Vec<u8>) -> Result<(), NoMemory>
    ensures { OnOk result (out.new.items ≡ out.old.items ++ event_text class.now path.now) }
{
    put_text(class.text(), out)?;
    put_text(" ", out)?;
    put_text(path.text(), out)
}

/// The spaces that bring digits to the right of three places.
fn spaces_before(digits: &str) -> &'static str
    ensures { result.now ≡ replicate (3 - length digits.now) 32 }
{
    match digits.len() {
        0 => "   ",
        1 => "  ",
        2 => " ",
        _ => "",
    }
}

/// Appends a number at the right of three places.
fn put_in_three_places(number: u8, out: &mut Vec<u8>) -> Result<(), NoMemory>
    ensures { OnOk result (out.new.items ≡ out.old.items ++ in_three_places (decimal number)) }
{
    let mut buffer = Buffer::new();
    let digits = buffer.format(number);
    put_text(spaces_before(digits), out)?;
    put_text(digits, out)
}

/// What became of a suspect.
fn mark_text(mark: Mark) -> &'static str
    ensures { result.now ≡ mark_text mark }
{
    match mark {
        Mark::Present => "present",
        Mark::Repaired => "repaired",
        Mark::Replaced => "replaced",
        Mark::Acquitted => "acquitted",
    }
}

/// What stands where the resource is to be retired.
fn retire_text(retire: bool) -> &'static str
    ensures { result.now ≡ retire_text retire }
{
    if retire { " retire" } else { "" }
}

/// Appends a certainty at the head of a line.
fn put_certainty_part(certainty: u8, out: &mut Vec<u8>) -> Result<(), NoMemory>
    ensures { OnOk result (out.new.items ≡ out.old.items ++ certainty_part certainty) }
{
    put_text("  ", out)?;
    put_in_three_places(certainty, out)?;
    put_text("% ", out)
}

/// Appends a mark at the end of a line, and whether the resource is to be retired.
fn put_mark_part(mark: Mark, retire: bool, out: &mut Vec<u8>) -> Result<(), NoMemory>
    ensures { OnOk result (out.new.items ≡ out.old.items ++ mark_part mark retire) }
{
    put_text(" ", out)?;
    put_text(mark_text(mark), out)?;
    put_text(retire_text(retire), out)?;
    put_text("\n", out)
}

/// Appends the line of a suspect.
#[tactic(auto, unfolding(crate::specs::Lines::suspect_line))]
fn put_suspect(suspect: &Suspect, out: &mut Vec<u8>) -> Result<(), NoMemory>
    ensures { OnOk result (out.new.items ≡ out.old.items ++ suspect_line suspect.now) }
{
    put_certainty_part(suspect.certainty, out)?;
    put_event(&suspect.class, &suspect.path, out)?;
    put_mark_part(suspect.mark, suspect.retire, out)
}

/// Appends the lines of suspects. After `NoMemory` the buffer holds what it held, and perhaps some
/// of the text.
pub fn put_suspects(suspects: &[Suspect], out: &mut Vec<u8>) -> Result<(), NoMemory>
    ensures { OnOk result (out.new.items ≡ out.old.items ++ flat_map suspect_line suspects.now) }
{
    'suspects: for suspect in suspects {
        put_suspect(suspect, out)?;
    }
    Ok(())
}
