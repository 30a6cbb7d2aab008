//! Classes, paths, moments and names of cases, read from the front of some bytes.

ghost use Rattle.std.specs.Prelude.{◌≡◌, ◌<◌, ◌^◌, ◌==◌, Some, None, IfOk, IfErr, nat_lt};
ghost use Rattle.fm_bytes.specs.Reading.{IsMisspelled, number_from, where_from};
ghost use Rattle.fm_entry.specs.Reading.{class_from, path_from, report_class_from, moment_from};
ghost use Rattle.fm_entry.specs.Reading.{module_from, case_from};

use fm_bytes::{Input, ReadFault};
use fm_name::{Class, Fmri, read_class, read_fmri};
use std::alloc::Global;

/// A class behind its length.
#[tactic(auto, unfolding(crate::specs::Reading::class_from))]
pub(crate) fn class(input: &mut Input, alloc: Global) -> Result<Class, ReadFault>
    ensures ok { IfOk result (λ c. class_from input.old ≡ Some (c, input.new)) }
    ensures err { IfErr result (λ f. IsMisspelled f → class_from input.old ≡ None) }
{
    let text = input.take_short_text()?;
    match read_class(alloc, text) {
        Ok(Some(class)) => Ok(class),
        Ok(None) => Err(ReadFault::NoSpelling),
        Err(_) => Err(ReadFault::NoMemory),
    }
}

/// A path behind its length.
#[tactic(auto, unfolding(crate::specs::Reading::path_from))]
pub(crate) fn path(input: &mut Input, alloc: Global) -> Result<Fmri, ReadFault>
    ensures ok { IfOk result (λ p. path_from input.old ≡ Some (p, input.new)) }
    ensures err { IfErr result (λ f. IsMisspelled f → path_from input.old ≡ None) }
{
    let text = input.take_short_text()?;
    match read_fmri(alloc, text) {
        Ok(Some(path)) => Ok(path),
        Ok(None) => Err(ReadFault::NoSpelling),
        Err(_) => Err(ReadFault::NoMemory),
    }
}

/// A class of the category of reports.
#[tactic(auto, unfolding(crate::specs::Reading::report_class_from))]
pub(crate) fn report_class(input: &mut Input, alloc: Global) -> Result<Class, ReadFault>
    ensures ok { IfOk result (λ c. report_class_from input.old ≡ Some (c, input.new)) }
    ensures err { IfErr result (λ f. IsMisspelled f → report_class_from input.old ≡ None) }
{
    let class = class(input, alloc)?;
    if class.is_ereport() {
        Ok(class)
    } else {
        Err(ReadFault::NoSpelling)
    }
}

/// A moment.
#[tactic(auto, unfolding(crate::specs::Reading::moment_from))]
pub(crate) fn moment(input: &mut Input) -> Result<u64, ReadFault>
    ensures ok { IfOk result (λ n. moment_from input.old ≡ Some (n, input.new)) }
    ensures err { IfErr result (λ f. IsMisspelled f → moment_from input.old ≡ None) }
{
    let number = input.take_u64()?;
    if number < 1 << 62 {
        Ok(number)
    } else {
        Err(ReadFault::NoSpelling)
    }
}

/// The number of a module.
#[tactic(auto, unfolding(crate::specs::Reading::module_from))]
pub(crate) fn own_module(input: &mut Input) -> Result<u32, ReadFault>
    ensures ok { IfOk result (λ n. module_from input.old ≡ Some (n, input.new)) }
    ensures err { IfErr result (λ f. IsMisspelled f → module_from input.old ≡ None) }
{
    let number = input.take_u32()?;
    if number < 8 {
        Ok(number)
    } else {
        Err(ReadFault::NoSpelling)
    }
}

/// The number of a case.
#[tactic(auto, unfolding(crate::specs::Reading::case_from))]
pub(crate) fn case(input: &mut Input) -> Result<u64, ReadFault>
    ensures ok { IfOk result (λ n. case_from input.old ≡ Some (n, input.new)) }
    ensures err { IfErr result (λ f. IsMisspelled f → case_from input.old ≡ None) }
{
    let number = input.take_u64()?;
    if number < 1 << 63 {
        Ok(number)
    } else {
        Err(ReadFault::NoSpelling)
    }
}
