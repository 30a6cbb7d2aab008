//! Printing an entry as a line.

ghost use Rattle.std.specs.Prelude.{◌≡◌, ◌++◌, false, OnOk, OnErr, IfOk, string_bytes, Some};
ghost use Rattle.serde_json.specs.View.{view};
ghost use Rattle.fm_entry.specs.Entries.{is_reload};
ghost use Rattle.fm_entry.specs.declared.entry.Entry.TheVariants as Entry;
ghost use Rattle.fm_line.specs.Forms.{json_of};
ghost use Rattle.fm_line.specs.Sound.{ReadsAsJson};
ghost use Rattle.fm_line.specs.Printed.{line_text, payload_text, plain_report, report_data};
ghost use Rattle.fm_line.specs.Printed.{json_report, report_line};

use crate::data::list_json;
use fm_bytes::NoMemory;
use fm_entry::{CaseName, Entry};
use fm_name::{Class, Fmri};
use fm_nv::Nv;
use serde_json::{Value as Json, json};
use std::alloc::Global;

/// Appends the list as compact JSON: an object with the names in byte order.
pub fn print_payload(alloc: Global, payload: &Nv, out: &mut Vec<u8>) -> Result<(), NoMemory>
    ensures ok { OnOk result (out.new.items ≡ out.old.items ++ payload_text payload.now) }
    ensures err { OnErr result (out.new.items ≡ out.old.items) }
{
    let text = payload_line(alloc, payload)?;
    out.extend_from_slice(text.as_bytes())?;
    Ok(())
}

/// The list as compact JSON.
fn payload_line(alloc: Global, payload: &Nv) -> Result<String, NoMemory>
    ensures { IfOk result (λ s. string_bytes s ≡ payload_text payload.now) }
{
    let object = list_json(alloc, payload)?;
    Ok(object.to_string(alloc)?)
}

/// A report without a payload.
fn plain_report(alloc: Global, class: &Class, path: &Fmri, moment: u64) -> Result<String, NoMemory>
    ensures { IfOk result (λ s. string_bytes s ≡ plain_report class.now path.now moment) }
{
    Ok(format!(in alloc; "report {class} {path} {moment}")?)
}

/// The object of a report with a payload.
fn report_object(
    alloc: Global,
    class: &Class,
    path: &Fmri,
    moment: u64,
    payload: &Nv,
) -> Result<Json, NoMemory>
    ensures { IfOk result (λ v. view v ≡ report_data class.now path.now moment payload.now) }
{
    let payload = list_json(alloc, payload)?;
    Ok(
        json!(in alloc; {"class": class.text(), "path": path.text(), "payload": payload,
            "time": moment})?,
    )
}

/// A report with a payload. Its text reads as its object.
fn json_report(
    alloc: Global,
    class: &Class,
    path: &Fmri,
    moment: u64,
    payload: &Nv,
) -> Result<Vec<u8>, NoMemory>
    ensures text { IfOk result
        (λ text. text.items ≡ json_report class.now path.now moment payload.now) }
    ensures reads { IfOk result
        (λ _. json_of (json_report class.now path.now moment payload.now)
        ≡ Some (report_data class.now path.now moment payload.now)) }
{
    let depth = payload.depth();
    prove!(depth <= 8);
    let report = report_object(alloc, class, path, moment, payload)?;
    Ok(report.to_vec(alloc)?)
}

/// Appends a text.
fn put_text(text: &str, out: &mut Vec<u8>) -> Result<(), NoMemory>
    ensures ok { OnOk result (out.new.items ≡ out.old.items ++ text.now) }
    ensures err { OnErr result (out.new.items ≡ out.old.items) }
{
    out.extend_from_slice(text.as_bytes())?;
    Ok(())
}

/// Appends the line of a report.
fn print_report(
    alloc: Global,
    class: &Class,
    path: &Fmri,
    moment: u64,
    payload: &Nv,
    out: &mut Vec<u8>,
) -> Result<(), NoMemory>
    ensures ok { OnOk result
        (out.new.items ≡ out.old.items ++ report_line class.now path.now moment payload.now) }
    ensures err { OnErr result (out.new.items ≡ out.old.items) }
    ensures reads { OnOk result (ReadsAsJson (Entry.Report class.now path.now moment payload.now)) }
{
    if payload.is_empty() {
        return put_text(plain_report(alloc, class, path, moment)?.as_str(), out);
    }
    let text = json_report(alloc, class, path, moment, payload)?;
    out.extend_from_slice(text.as_slice())?;
    Ok(())
}

/// Appends the line of an acquittal.
fn print_acquit(
    alloc: Global,
    case: &CaseName,
    moment: u64,
    out: &mut Vec<u8>,
) -> Result<(), NoMemory>
    ensures ok { OnOk result
        (out.new.items ≡ out.old.items ++ line_text (Entry.Acquit case.now moment)) }
    ensures err { OnErr result (out.new.items ≡ out.old.items) }
{
    let module = case.module;
    let number = case.case;
    put_text(
        format!(in alloc; "acquit dx{module}/{number} {moment}")?.as_str(),
        out,
    )
}

/// Appends the entry's line, without a newline: the plain form, or the JSON form where it is a
/// report with a payload, whose text reads as its object. A reload has no line.
pub fn print_line(alloc: Global, entry: &Entry, out: &mut Vec<u8>) -> Result<(), NoMemory>
    requires { is_reload entry.now ≡ false }
    ensures ok { OnOk result (out.new.items ≡ out.old.items ++ line_text entry.now) }
    ensures err { OnErr result (out.new.items ≡ out.old.items) }
    ensures reads { OnOk result (ReadsAsJson entry.now) }
{
    match entry {
        Entry::Report {
            class,
            path,
            moment,
            payload,
        } => print_report(alloc, class, path, *moment, payload, out),
        Entry::Tick { moment } => put_text(format!(in alloc; "tick {moment}")?.as_str(), out),
        Entry::Repaired { path, moment } => put_text(
            format!(in alloc; "repaired {path} {moment}")?.as_str(),
            out,
        ),
        Entry::Replaced { path, moment } => put_text(
            format!(in alloc; "replaced {path} {moment}")?.as_str(),
            out,
        ),
        Entry::Acquit { case, moment } => print_acquit(alloc, case, *moment, out),
        Entry::Reload { .. } => unreachable!(),
    }
}
