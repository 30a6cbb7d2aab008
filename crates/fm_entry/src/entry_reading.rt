//! Entries, read from their spelling.

ghost use Rattle.std.specs.Prelude.{◌≡◌, ◌==◌, Some, None, IfOk, IfErr, IfSome, length};
ghost use Rattle.fm_bytes.specs.Reading.{IsMisspelled, made, number_from, both_from, whole};
ghost use Rattle.fm_entry.specs.Entries.{IsSpelled, entry_bytes};
ghost use Rattle.fm_entry.specs.Reading.{path_from, moment_from, report_from, acquit_from};
ghost use Rattle.fm_entry.specs.Reading.{tagged_from, entry_from};
ghost use Rattle.fm_entry.specs.declared.entry.Entry.{Entry};
ghost use Rattle.fm_entry.specs.declared.entry.Entry.TheVariants.{Report, Tick, Repaired, Replaced};
ghost use Rattle.fm_entry.specs.declared.entry.Entry.TheVariants.{Acquit, Reload};

use crate::case_name::CaseName;
use crate::entry::Entry;
use crate::parts::{case, moment, own_module, path, report_class};
use fm_bytes::{Input, NoMemory, ReadFault};
use fm_nv::take_nv;
use std::alloc::Global;

/// The entry that the bytes spell, which is one at most. `None` exactly where they spell none.
pub fn read_entry(alloc: Global, bytes: &[u8]) -> Result<Option<Entry>, NoMemory>
    ensures found { IfOk result
        (λ o. IfSome o (λ entry. IsSpelled entry × (bytes.now ≡ entry_bytes entry))) }
    ensures read { (entry : Entry) → IsSpelled entry → bytes.now ≡ entry_bytes entry
        → IfOk result (λ o. o ≡ Some entry) }
{
    let mut input = Input::new(bytes);
    match whole_entry(&mut input, alloc) {
        Ok(entry) => Ok(Some(entry)),
        Err(ReadFault::NoSpelling) => Ok(None),
        Err(ReadFault::NoMemory) => Err(NoMemory),
    }
}

/// The entry that all bytes are.
fn whole_entry(input: &mut Input, alloc: Global) -> Result<Entry, ReadFault>
    ensures ok { IfOk result (λ e. whole (entry_from input.old) ≡ Some e) }
    ensures err { IfErr result (λ f. IsMisspelled f → whole (entry_from input.old) ≡ None) }
{
    let entry = entry(input, alloc)?;
    if input.left() == 0 {
        Ok(entry)
    } else {
        Err(ReadFault::NoSpelling)
    }
}

/// An entry: the byte of its kind, and its fields.
#[tactic(auto, unfolding(crate::specs::Reading::entry_from))]
fn entry(input: &mut Input, alloc: Global) -> Result<Entry, ReadFault>
    ensures ok { IfOk result (λ e. entry_from input.old ≡ Some (e, input.new)) }
    ensures err { IfErr result (λ f. IsMisspelled f → entry_from input.old ≡ None) }
{
    let tag = input.take_u8()?;
    tagged(input, alloc, tag)
}

/// The fields of an entry of a kind.
#[tactic(auto, unfolding(crate::specs::Reading::tagged_from))]
fn tagged(input: &mut Input, alloc: Global, tag: u8) -> Result<Entry, ReadFault>
    ensures ok { IfOk result (λ e. tagged_from tag input.old ≡ Some (e, input.new)) }
    ensures err { IfErr result (λ f. IsMisspelled f → tagged_from tag input.old ≡ None) }
{
    match tag {
        1 => report(input, alloc),
        2 => tick(input),
        3 => repaired(input, alloc),
        4 => replaced(input, alloc),
        5 => acquit(input),
        6 => reload(input),
        _ => Err(ReadFault::NoSpelling),
    }
}

/// A report.
#[tactic(auto, unfolding(crate::specs::Reading::report_from))]
fn report(input: &mut Input, alloc: Global) -> Result<Entry, ReadFault>
    ensures ok { IfOk result
        (λ e. made (λ f. Report f.0 f.1.0 f.1.1.0 f.1.1.1) (report_from input.old)
        ≡ Some (e, input.new)) }
    ensures err { IfErr result
        (λ f. IsMisspelled f → made (λ f. Report f.0 f.1.0 f.1.1.0 f.1.1.1) (report_from input.old)
        ≡ None) }
{
    let class = report_class(input, alloc)?;
    let path = path(input, alloc)?;
    let moment = moment(input)?;
    let payload = take_nv(input, alloc)?;
    Ok(Entry::Report {
        class,
        path,
        moment,
        payload,
    })
}

/// A tick.
fn tick(input: &mut Input) -> Result<Entry, ReadFault>
    ensures ok { IfOk result (λ e. made Tick (moment_from input.old) ≡ Some (e, input.new)) }
    ensures err { IfErr result (λ f. IsMisspelled f → made Tick (moment_from input.old) ≡ None) }
{
    let moment = moment(input)?;
    Ok(Entry::Tick { moment })
}

/// A repair.
fn repaired(input: &mut Input, alloc: Global) -> Result<Entry, ReadFault>
    ensures ok { IfOk result
        (λ e. made (λ f. Repaired f.0 f.1) (both_from path_from moment_from input.old)
        ≡ Some (e, input.new)) }
    ensures err { IfErr result
        (λ f. IsMisspelled f → made (λ f. Repaired f.0 f.1)
        (both_from path_from moment_from input.old) ≡ None) }
{
    let path = path(input, alloc)?;
    let moment = moment(input)?;
    Ok(Entry::Repaired { path, moment })
}

/// A replacement.
fn replaced(input: &mut Input, alloc: Global) -> Result<Entry, ReadFault>
    ensures ok { IfOk result
        (λ e. made (λ f. Replaced f.0 f.1) (both_from path_from moment_from input.old)
        ≡ Some (e, input.new)) }
    ensures err { IfErr result
        (λ f. IsMisspelled f → made (λ f. Replaced f.0 f.1)
        (both_from path_from moment_from input.old) ≡ None) }
{
    let path = path(input, alloc)?;
    let moment = moment(input)?;
    Ok(Entry::Replaced { path, moment })
}

/// An acquittal.
#[tactic(auto, unfolding(crate::specs::Reading::acquit_from))]
fn acquit(input: &mut Input) -> Result<Entry, ReadFault>
    ensures ok { IfOk result
        (λ e. made (λ f. Acquit (record { «module» = f.0; case = f.1.0 }) f.1.1)
        (acquit_from input.old) ≡ Some (e, input.new)) }
    ensures err { IfErr result
        (λ f. IsMisspelled f → made (λ f. Acquit (record { «module» = f.0; case = f.1.0 }) f.1.1)
        (acquit_from input.old) ≡ None) }
{
    let module = own_module(input)?;
    let case = case(input)?;
    let moment = moment(input)?;
    Ok(Entry::Acquit {
        case: CaseName { module, case },
        moment,
    })
}

/// A reload.
fn reload(input: &mut Input) -> Result<Entry, ReadFault>
    ensures ok { IfOk result
        (λ e. made (λ f. Reload f.0 f.1) (both_from (number_from 4) moment_from input.old)
        ≡ Some (e, input.new)) }
    ensures err { IfErr result
        (λ f. IsMisspelled f → made (λ f. Reload f.0 f.1)
        (both_from (number_from 4) moment_from input.old) ≡ None) }
{
    let conf = input.take_u32()?;
    let moment = moment(input)?;
    Ok(Entry::Reload { conf, moment })
}
