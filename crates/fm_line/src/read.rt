//! Reading a line.

ghost use Rattle.std.specs.Prelude.{◌≡◌, false, IfOk, IfErr, Ok, Err, find};
ghost use Rattle.fm_entry.specs.Entries.{IsSpelled, is_reload};
ghost use Rattle.fm_line.specs.Sound.{HasSpelledPayload};
ghost use Rattle.fm_line.specs.Faults.{IsOfLine};
ghost use Rattle.fm_line.specs.Forms.{without_return, is_inked, is_json, content_entry, line_entry};

use crate::fault::LineFault;
use crate::json_form::json_entry;
use crate::plain::plain_entry;
use crate::split::LINE_LIMIT;
use fm_entry::Entry;
use std::alloc::Global;

/// The line without its final carriage return.
#[tactic(auto, unfolding(crate::specs::Forms::without_return))]
fn without_return(line: &[u8]) -> &[u8]
    ensures { result.now ≡ without_return line.now }
{
    if line.len() > 0 && line[line.len() - 1] == b'\r' {
        return &line[..line.len() - 1];
    }
    line
}

/// The first byte that is no blank.
fn first_inked(line: &[u8]) -> Option<u8>
    ensures { result ≡ find is_inked line.now }
{
    line.iter()
        .copied()
        .find(|b| !(*b == b' ' || *b == b'\t' || *b == b'\r'))
}

/// Whether the line is in the JSON form.
#[tactic(auto, unfolding(crate::specs::Forms::is_json))]
fn is_json(line: &[u8]) -> bool
    ensures { result ≡ is_json line.now }
{
    match first_inked(line) {
        Some(byte) => byte == b'{',
        None => false,
    }
}

/// The entry of a line that has lost its carriage return.
#[tactic(auto, unfolding(crate::specs::Forms::content_entry))]
fn content_entry(alloc: Global, line: &[u8]) -> Result<Entry, LineFault>
    ensures ok { IfOk result (λ e. content_entry line.now ≡ Ok e) }
    ensures err { IfErr result (λ f. IsOfLine f → content_entry line.now ≡ Err f) }
{
    if is_json(line) {
        return json_entry(alloc, line);
    }
    plain_entry(alloc, line)
}

/// The entry of a line.
#[tactic(auto, unfolding(crate::specs::Forms::line_entry))]
fn any_line(alloc: Global, line: &[u8]) -> Result<Entry, LineFault>
    ensures ok { IfOk result (λ e. line_entry line.now ≡ Ok e) }
    ensures err { IfErr result (λ f. IsOfLine f → line_entry line.now ≡ Err f) }
{
    if line.len() > LINE_LIMIT {
        return Err(LineFault::TooLong);
    }
    content_entry(alloc, without_return(line))
}

/// Proves that a payload has a spelling, which each list keeps by itself. Does nothing.
pub(crate) fn prove_payload(entry: &Entry)
    ensures { HasSpelledPayload entry.now }
{
    if let Entry::Report { payload, .. } = entry {
        let depth = payload.depth();
        prove!(depth <= 8);
    }
}

/// Reads one line, without its newline, in the plain or the JSON form. A final carriage return is
/// dropped.
pub fn read_line(alloc: Global, line: &[u8]) -> Result<Entry, LineFault>
    ensures ok { IfOk result (λ entry. line_entry line.now ≡ Ok entry) }
    ensures err { IfErr result (λ fault. IsOfLine fault → line_entry line.now ≡ Err fault) }
    ensures spelled { IfOk result IsSpelled }
    ensures no_reload { IfOk result (λ entry. is_reload entry ≡ false) }
{
    let entry = any_line(alloc, line)?;
    prove_payload(&entry);
    Ok(entry)
}
