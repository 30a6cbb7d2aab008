//! The JSON form: an object with exactly the keys of one entry.

ghost use Rattle.std.specs.Prelude.{◌≡◌, IfOk, IfErr, Ok, Err, Some, option_map, codes};
ghost use Rattle.serde_json.specs.View.{view};
ghost use Rattle.serde_json.specs.Find.{get};
ghost use Rattle.fm_nv.specs.Data.{no_pairs};
ghost use Rattle.fm_line.specs.Faults.{IsOfLine};
ghost use Rattle.fm_line.specs.Forms.{key_count, one_key, acquit_keys, replaced_keys};
ghost use Rattle.fm_line.specs.Forms.{repaired_keys, two_keys, report_keys, four_keys};
ghost use Rattle.fm_line.specs.Forms.{object_entry, json_entry};

use crate::fault::LineFault;
use crate::parts::{
    acquit, case_in, class_in, moment_in, path_in, repaired, replaced, report, text_of, tick,
};
use crate::payload::list_from;
use fm_entry::Entry;
use fm_nv::Nv;
use serde_json::Value as Json;
use std::alloc::Global;

/// How many keys an object has; what is no object has none.
fn key_count(json: &Json) -> usize
    ensures { result ≡ key_count (view json.now) }
{
    match json.as_object() {
        Some(members) => members.len(),
        None => 0,
    }
}

/// The entry of an object with one key: a tick.
#[tactic(auto, unfolding(crate::specs::Forms::one_key))]
fn one_key(json: &Json) -> Result<Entry, LineFault>
    ensures { result ≡ one_key (view json.now) }
{
    let moment = json.get("tick").ok_or(LineFault::Shape)?;
    tick(moment_in(moment))
}

/// The acquittal of an object with two keys.
#[tactic(auto, unfolding(crate::specs::Forms::acquit_keys))]
fn acquit_keys(json: &Json, moment: &Json) -> Result<Entry, LineFault>
    ensures ok { IfOk result (λ e. acquit_keys (view json.now) (view moment.now) ≡ Ok e) }
    ensures err { IfErr result
        (λ f. IsOfLine f → acquit_keys (view json.now) (view moment.now) ≡ Err f) }
{
    let case = json.get("acquit").ok_or(LineFault::Shape)?;
    acquit(case_in(case.as_str()), moment_in(moment))
}

/// The replacement of an object with two keys, or its acquittal.
#[tactic(auto, unfolding(crate::specs::Forms::replaced_keys))]
fn replaced_keys(alloc: Global, json: &Json, moment: &Json) -> Result<Entry, LineFault>
    ensures ok { IfOk result
        (λ e. replaced_keys (get (codes "replaced") (view json.now)) (view json.now)
        (view moment.now) ≡ Ok e) }
    ensures err { IfErr result
        (λ f. IsOfLine f → replaced_keys (get (codes "replaced") (view json.now)) (view json.now)
        (view moment.now) ≡ Err f) }
{
    match json.get("replaced") {
        Some(path) => replaced(path_in(alloc, path.as_str())?, moment_in(moment)),
        None => acquit_keys(json, moment),
    }
}

/// The repair of an object with two keys, or another of its entries.
#[tactic(auto, unfolding(crate::specs::Forms::repaired_keys))]
fn repaired_keys(alloc: Global, json: &Json, moment: &Json) -> Result<Entry, LineFault>
    ensures ok { IfOk result
        (λ e. repaired_keys (get (codes "repaired") (view json.now)) (view json.now)
        (view moment.now) ≡ Ok e) }
    ensures err { IfErr result
        (λ f. IsOfLine f → repaired_keys (get (codes "repaired") (view json.now)) (view json.now)
        (view moment.now) ≡ Err f) }
{
    match json.get("repaired") {
        Some(path) => repaired(path_in(alloc, path.as_str())?, moment_in(moment)),
        None => replaced_keys(alloc, json, moment),
    }
}

/// The entry of an object with two keys.
#[tactic(auto, unfolding(crate::specs::Forms::two_keys))]
fn two_keys(alloc: Global, json: &Json) -> Result<Entry, LineFault>
    ensures ok { IfOk result (λ e. two_keys (view json.now) ≡ Ok e) }
    ensures err { IfErr result (λ f. IsOfLine f → two_keys (view json.now) ≡ Err f) }
{
    let moment = json.get("time").ok_or(LineFault::Shape)?;
    repaired_keys(alloc, json, moment)
}

/// The report of an object, with the payload that stands in it or not.
#[tactic(auto, unfolding(crate::specs::Forms::report_keys))]
fn report_keys(alloc: Global, json: &Json, payload: Option<Nv>) -> Result<Entry, LineFault>
    ensures ok { IfOk result (λ e. report_keys (view json.now) payload ≡ Ok e) }
    ensures err { IfErr result (λ f. IsOfLine f → report_keys (view json.now) payload ≡ Err f) }
{
    let class = json.get("class").ok_or(LineFault::Shape)?;
    let path = json.get("path").ok_or(LineFault::Shape)?;
    let moment = json.get("time").ok_or(LineFault::Shape)?;
    let class = class_in(alloc, class.as_str())?;
    let path = path_in(alloc, path.as_str())?;
    report(class, path, moment_in(moment), payload)
}

/// The report of an object with four keys.
#[tactic(auto, unfolding(crate::specs::Forms::four_keys))]
fn four_keys(alloc: Global, json: &Json) -> Result<Entry, LineFault>
    ensures ok { IfOk result (λ e. four_keys (view json.now) ≡ Ok e) }
    ensures err { IfErr result (λ f. IsOfLine f → four_keys (view json.now) ≡ Err f) }
{
    let payload = json.get("payload").ok_or(LineFault::Shape)?;
    let payload = list_from(alloc, payload)?;
    report_keys(alloc, json, payload)
}

/// The entry of an object.
#[tactic(auto, unfolding(crate::specs::Forms::object_entry))]
fn object_entry(alloc: Global, json: &Json) -> Result<Entry, LineFault>
    ensures ok { IfOk result (λ e. object_entry (view json.now) ≡ Ok e) }
    ensures err { IfErr result (λ f. IsOfLine f → object_entry (view json.now) ≡ Err f) }
{
    match key_count(json) {
        1 => one_key(json),
        2 => two_keys(alloc, json),
        3 => report_keys(alloc, json, Some(Nv::new(alloc))),
        4 => four_keys(alloc, json),
        _ => Err(LineFault::Shape),
    }
}

/// The entry of a line in the JSON form.
#[tactic(auto, unfolding(crate::specs::Forms::json_entry, crate::specs::Forms::json_of))]
pub(crate) fn json_entry(alloc: Global, line: &[u8]) -> Result<Entry, LineFault>
    ensures ok { IfOk result (λ e. json_entry line.now ≡ Ok e) }
    ensures err { IfErr result (λ f. IsOfLine f → json_entry line.now ≡ Err f) }
{
    let Some(text) = text_of(line) else {
        return Err(LineFault::Json);
    };
    match Json::from_str(alloc, text) {
        Ok(json) => object_entry(alloc, &json),
        Err(error) if error.is_memory() => Err(LineFault::NoMemory),
        Err(_) => Err(LineFault::Json),
    }
}
