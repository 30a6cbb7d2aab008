// What the mixed reports of a store come to, in the bytes of the formats, worked out from the
// reports alone.
use std::alloc::{AllocError, Global};
use test_small_store::{letter_at, moment_at};

/// The bytes of a class, behind its length, but for its letter.
const CLASS: &[u8] = b"\0\x0eereport.cpu.u";

/// The bytes of the path.
const PATH: &[u8] = b"\0\x15hc:///chassis=0/cpu=1";

/// How many bytes a record of the fault log has, with its gate.
pub const RECORD: usize = 93;

/// Appends the event of the report with this number.
fn put_event(number: u64, out: &mut Vec<u8>) -> Result<(), AllocError> {
    out.extend_from_slice(CLASS)?;
    out.push(letter_at(number))?;
    out.extend_from_slice(PATH)?;
    Ok(())
}

/// Appends the moment of the report with this number.
fn put_moment(number: u64, out: &mut Vec<u8>) -> Result<(), AllocError> {
    out.extend_from_slice(&u64::from(moment_at(number)).to_be_bytes())?;
    Ok(())
}

/// The records of an error journal, of the reports with these numbers.
pub fn entry_records(alloc: Global, from: u64, to: u64) -> Result<Vec<u8>, AllocError> {
    let mut records = Vec::new(alloc);
    for number in from..to {
        records.extend_from_slice(b"\x01\0\0\0\x32\x01")?;
        put_event(number, &mut records)?;
        put_moment(number, &mut records)?;
        records.extend_from_slice(b"\0\0")?;
    }
    Ok(records)
}

/// How many of the first reports are of the class with this letter.
fn reports_of(letter: u8, count: u64) -> u64 {
    let mut reports = 0u64;
    for number in 0..count {
        if letter_at(number) == letter {
            reports = reports.saturating_add(1);
        }
    }
    reports
}

/// Whether a module says a word at the report with this number: at each third of its class.
fn is_third(number: u64) -> bool {
    reports_of(letter_at(number), number.saturating_add(1)) % 3 == 0
}

/// Appends the record of the fault log that a module says at a report: the upset of this case.
fn put_record(own: u32, number: u64, case: u64, out: &mut Vec<u8>) -> Result<(), AllocError> {
    out.extend_from_slice(b"\x01\0\0\0\x58")?;
    out.extend_from_slice(&own.to_be_bytes())?;
    out.extend_from_slice(&number.to_be_bytes())?;
    out.extend_from_slice(b"\0\0\0\x01\x03")?;
    out.extend_from_slice(&own.to_be_bytes())?;
    out.extend_from_slice(&case.to_be_bytes())?;
    put_moment(number, out)?;
    out.extend_from_slice(b"\0\0\0\0\0\0\0\x01")?;
    put_event(number, out)?;
    out.extend_from_slice(b"\0\0\0\0")?;
    Ok(())
}

/// The records of the fault log that both modules say along so many reports.
pub fn fault_records(alloc: Global, count: u64) -> Result<Vec<u8>, AllocError> {
    let mut records = Vec::new(alloc);
    let mut case = 0u64;
    for number in 0..count {
        if is_third(number) {
            put_record(0, number, case, &mut records)?;
            put_record(1, number, case, &mut records)?;
            case = case.saturating_add(1);
        }
    }
    Ok(records)
}

/// Appends the count of a class, where there is one.
fn put_count(letter: u8, reports: u64, out: &mut Vec<u8>) -> Result<(), AllocError> {
    if reports > 0 {
        out.extend_from_slice(CLASS)?;
        out.push(letter)?;
        out.extend_from_slice(&reports.to_be_bytes())?;
    }
    Ok(())
}

/// The state of a module that has counted so many reports.
fn state(alloc: Global, count: u64) -> Result<Vec<u8>, AllocError> {
    let (first, second) = (reports_of(b'a', count), reports_of(b'b', count));
    let classes = u64::from(first > 0).saturating_add(u64::from(second > 0));
    let mut state = classes.to_be_bytes().to_vec(alloc)?;
    put_count(b'a', first, &mut state)?;
    put_count(b'b', second, &mut state)?;
    Ok(state)
}

/// Appends a text behind its length.
fn put_long(text: &[u8], out: &mut Vec<u8>) -> Result<(), AllocError> {
    let length = u32::try_from(text.len()).unwrap_or(0);
    out.extend_from_slice(&length.to_be_bytes())?;
    out.extend_from_slice(text)?;
    Ok(())
}

/// What a slot says, behind the journal that it names, of a store whose base is behind so many
/// reports: the base, the greatest moment, the number in force, and two states.
pub fn base(alloc: Global, count: u64) -> Result<Vec<u8>, AllocError> {
    let greatest = if count == 0 {
        0
    } else {
        u64::from(moment_at(0))
    };
    let mut base = count.to_be_bytes().to_vec(alloc)?;
    base.extend_from_slice(&greatest.to_be_bytes())?;
    base.extend_from_slice(b"\0\0\0\0\0\0\0\x02")?;
    let state = state(alloc, count)?;
    put_long(&state, &mut base)?;
    put_long(&state, &mut base)?;
    Ok(base)
}
