//! The parts of an entry, each read or missing, and the entry of its parts.

ghost use Rattle.std.specs.Prelude.{◌≡◌, IfOk, option_map};
ghost use Rattle.serde_json.specs.View.{view};
ghost use Rattle.fm_line.specs.Forms.{text_of, class_in, path_in, case_in, moment_in, report, tick};
ghost use Rattle.fm_line.specs.Forms.{repaired, replaced, acquit};

use crate::fault::LineFault;
use crate::number::as_moment;
use fm_bytes::NoMemory;
use fm_entry::{CaseName, Entry, read_case_name};
use fm_name::{Class, Fmri, read_class, read_fmri};
use fm_nv::Nv;
use serde_json::Value as Json;
use std::alloc::Global;

/// The text that some bytes are, if they are UTF-8.
#[tactic(auto, unfolding(crate::specs::Forms::text_of))]
pub(crate) fn text_of(bytes: &[u8]) -> Option<&str>
    ensures { option_map (λ s. s.now) result ≡ text_of bytes.now }
{
    match std::str::from_utf8(bytes) {
        Ok(text) => Some(text),
        Err(_) => None,
    }
}

/// The class of a report.
#[tactic(auto, unfolding(crate::specs::Forms::class_in))]
pub(crate) fn class_in(alloc: Global, text: Option<&str>) -> Result<Option<Class>, NoMemory>
    ensures { IfOk result (λ found. found ≡ class_in (option_map (λ s. s.now) text.entry)) }
{
    let Some(text) = text else {
        return Ok(None);
    };
    let Some(class) = read_class(alloc, text)? else {
        return Ok(None);
    };
    if class.is_ereport() {
        return Ok(Some(class));
    }
    Ok(None)
}

/// A path.
#[tactic(auto, unfolding(crate::specs::Forms::path_in))]
pub(crate) fn path_in(alloc: Global, text: Option<&str>) -> Result<Option<Fmri>, NoMemory>
    ensures { IfOk result (λ found. found ≡ path_in (option_map (λ s. s.now) text.entry)) }
{
    let Some(text) = text else {
        return Ok(None);
    };
    Ok(read_fmri(alloc, text)?)
}

/// A case name.
#[tactic(auto, unfolding(crate::specs::Forms::case_in))]
pub(crate) fn case_in(text: Option<&str>) -> Option<CaseName>
    ensures { result ≡ case_in (option_map (λ s. s.now) text.entry) }
{
    read_case_name(text?)
}

/// A moment, as a JSON value.
#[tactic(auto, unfolding(crate::specs::Forms::moment_in))]
pub(crate) fn moment_in(json: &Json) -> Option<u64>
    ensures { result ≡ moment_in (view json.now) }
{
    as_moment(json.as_u64()?)
}

/// The report of these parts.
#[tactic(auto, unfolding(crate::specs::Forms::report))]
pub(crate) fn report(
    class: Option<Class>,
    path: Option<Fmri>,
    moment: Option<u64>,
    payload: Option<Nv>,
) -> Result<Entry, LineFault>
    ensures { result ≡ report class path moment payload }
{
    let class = class.ok_or(LineFault::Class)?;
    let path = path.ok_or(LineFault::Path)?;
    let time = moment.ok_or(LineFault::Time)?;
    let payload = payload.ok_or(LineFault::Value)?;
    Ok(Entry::Report {
        class,
        path,
        moment: time,
        payload,
    })
}

/// The tick of this part.
#[tactic(auto, unfolding(crate::specs::Forms::tick))]
pub(crate) fn tick(moment: Option<u64>) -> Result<Entry, LineFault>
    ensures { result ≡ tick moment }
{
    let moment = moment.ok_or(LineFault::Time)?;
    Ok(Entry::Tick { moment })
}

/// The repair of these parts.
#[tactic(auto, unfolding(crate::specs::Forms::repaired))]
pub(crate) fn repaired(path: Option<Fmri>, moment: Option<u64>) -> Result<Entry, LineFault>
    ensures { result ≡ repaired path moment }
{
    let path = path.ok_or(LineFault::Path)?;
    let moment = moment.ok_or(LineFault::Time)?;
    Ok(Entry::Repaired { path, moment })
}

/// The replacement of these parts.
#[tactic(auto, unfolding(crate::specs::Forms::replaced))]
pub(crate) fn replaced(path: Option<Fmri>, moment: Option<u64>) -> Result<Entry, LineFault>
    ensures { result ≡ replaced path moment }
{
    let path = path.ok_or(LineFault::Path)?;
    let moment = moment.ok_or(LineFault::Time)?;
    Ok(Entry::Replaced { path, moment })
}

/// The acquittal of these parts.
#[tactic(auto, unfolding(crate::specs::Forms::acquit))]
pub(crate) fn acquit(case: Option<CaseName>, moment: Option<u64>) -> Result<Entry, LineFault>
    ensures { result ≡ acquit case moment }
{
    let moment = moment.ok_or(LineFault::Time)?;
    let case = case.ok_or(LineFault::Value)?;
    Ok(Entry::Acquit { case, moment })
}
