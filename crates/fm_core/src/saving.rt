ghost use Rattle.std.specs.Prelude.{◌≡◌, ◌≤◌, ◌^◌, ◌&&◌, ◌++◌, false, length, flat_map, nat_le};
ghost use Rattle.std.specs.Prelude.{IsTrue, IfOk, IfErr, OnOk, Some, None, if◌then◌else◌};
ghost use Rattle.std.specs.List.{AllByRecursion};
ghost use Rattle.fm_bytes.specs.Numbers.{AllBytes};
ghost use Rattle.fm_name.specs.Category.{is_ereport};
ghost use Rattle.fm_core.specs.Counts.{is_past, is_ordered, total_of, cases_of};
ghost use Rattle.fm_core.specs.Counts.{are_counts, count_bytes, counts_bytes};
ghost use Rattle.fm_core.specs.Loading.{IsBad, IsKept, NoCount, NoneRead, NoCounts};

use crate::class_count::ClassCount;
use crate::module::LoadFault;
use fm_bytes::{Input, NoMemory, put_short_text, put_u64};
use fm_name::{Class, read_class};
use std::alloc::Global;

/// No more reports than this are counted.
pub(crate) const MOST: u64 = 70_368_744_177_664;

// writes the counts as they are kept
pub(crate) fn put_counts(counts: &[ClassCount], out: &mut Vec<u8>) -> Result<(), NoMemory>
    ensures { OnOk result (out.new.items ≡ out.old.items ++ counts_bytes counts.now) }
{
    put_u64(counts.len() as u64, out)?;
    put_each(counts, out)
}

// writes each count in turn
fn put_each(counts: &[ClassCount], out: &mut Vec<u8>) -> Result<(), NoMemory>
    ensures { OnOk result (out.new.items ≡ out.old.items ++ flat_map count_bytes counts.now) }
{
    for x in counts {
        put_one(x, out)?;
    }
    Ok(())
}

// writes one count: its class and its number
fn put_one(x: &ClassCount, out: &mut Vec<u8>) -> Result<(), NoMemory>
    ensures { OnOk result (out.new.items ≡ out.old.items ++ count_bytes x.now) }
{
    put_short_text(x.class.text(), out)?;
    put_u64(x.count, out)?;
    Ok(())
}

// whether the classes ascend strictly
fn are_ascending(counts: &[ClassCount]) -> bool
    ensures { result ≡ is_ordered counts.now }
{
    match counts {
        [] => true,
        [first, rest @ ..] => ascend_from(&first.class, rest),
    }
}

// whether the classes ascend strictly from one that is before them all
fn ascend_from(class: &Class, counts: &[ClassCount]) -> bool
    ensures { result ≡ is_past class.now counts.now }
{
    let mut last = class;
    for x in counts {
        if *last < x.class {
            last = &x.class;
        } else {
            return false;
        }
    }
    true
}

// how many reports were counted, unless they are more than may be
fn total(counts: &[ClassCount]) -> Option<u64>
    ensures { result ≡ (if nat_le (total_of counts.now) (2 ^ 46) then Some (total_of counts.now)
        else None) }
{
    let mut total = 0;
    for x in counts {
        if x.count > MOST - total {
            return None;
        }
        total += x.count;
    }
    Some(total)
}

// how many reports were counted, of counts that are lawful
pub(crate) fn counted_total(counts: &[ClassCount]) -> u64
    requires { IsTrue (are_counts counts.now) }
    ensures { result ≡ total_of counts.now }
{
    total(counts).unwrap_or(0)
}

// the number of the next case
pub(crate) fn cases(counts: &[ClassCount]) -> u64
    requires { IsTrue (are_counts counts.now) }
    ensures { result ≡ cases_of counts.now }
{
    let mut cases = 0;
    for x in counts {
        cases += x.count / 3;
    }
    cases
}

// reads the counts that some bytes are the save of
pub(crate) fn read_counts(alloc: Global, bytes: &[u8]) -> Result<Vec<ClassCount>, LoadFault>
    ensures lawful { IfOk result (λ counts. IsTrue (are_counts counts.items)) }
    ensures same { IfOk result (λ counts. counts_bytes counts.items ≡ bytes.now) }
    ensures bad { IfErr result (λ fault. IsBad fault → NoCounts bytes.now) }
{
    let mut input = Input::new(bytes);
    let _whole = input.left();
    let many = input.take_u64()?;
    let _rest = input.left();
    let counts = read_each(alloc, many, &mut input)?;
    if input.left() > 0 {
        return Err(LoadFault::Bad);
    }
    if are_lawful(&counts) {
        Ok(counts)
    } else {
        Err(LoadFault::Bad)
    }
}

// whether the classes ascend, and no more than may be were counted
fn are_lawful(counts: &[ClassCount]) -> bool
    ensures { result ≡ (is_ordered counts.now && nat_le (total_of counts.now) (2 ^ 46)) }
{
    are_ascending(counts) && total(counts).is_some()
}

// reads so many counts
fn read_each(alloc: Global, many: u64, input: &mut Input<'_>) -> Result<Vec<ClassCount>, LoadFault>
    requires { AllBytes input.old }
    ensures many { IfOk result (λ counts. length counts.items ≡ many) }
    ensures read { IfOk result
        (λ counts. input.old ≡ flat_map count_bytes counts.items ++ input.new) }
    ensures each { IfOk result (λ counts. AllByRecursion IsKept counts.items) }
    ensures bad { IfErr result (λ fault. IsBad fault → NoneRead many input.old) }
{
    let mut counts = Vec::new(alloc);
    for _i in 0..many {
        counts.push(read_one(alloc, input)?)?;
    }
    Ok(counts)
}

// reads one count
fn read_one(alloc: Global, input: &mut Input<'_>) -> Result<ClassCount, LoadFault>
    requires { AllBytes input.old }
    ensures read { IfOk result (λ x. input.old ≡ count_bytes x ++ input.new) }
    ensures kept { IfOk result (λ x. IsKept x) }
    ensures bad { IfErr result (λ fault. IsBad fault → NoCount input.old) }
{
    let text = input.take_short_text()?;
    let class = read_report_class(alloc, text)?;
    let _left = input.left();
    let count = input.take_u64()?;
    if count == 0 {
        return Err(LoadFault::Bad);
    }
    Ok(ClassCount { class, count })
}

// reads a class of category `ereport`
fn read_report_class(alloc: Global, text: &str) -> Result<Class, LoadFault>
    ensures same { IfOk result (λ class. class ≡ text.now) }
    ensures ereport { IfOk result (λ class. IsTrue (is_ereport text.now)) }
    ensures bad { IfErr result (λ fault. IsBad fault → is_ereport text.now ≡ false) }
{
    match read_class(alloc, text)? {
        Some(class) if class.is_ereport() => Ok(class),
        _ => Err(LoadFault::Bad),
    }
}
