//! What a small store is made with: its configuration, its modules, and what it takes.

ghost use Rattle.std.specs.Prelude.{◌≡◌, [], ◌∷◌, IfOk, IfSome};
ghost use Rattle.fm_entry.specs.Entries.{IsSpelled};
ghost use Rattle.fm_saved.specs.Confs.{IsSpelledConf};
ghost use Rattle.test_small_store.specs.Small.{fresh_counter};

use fm_bytes::NoMemory;
use fm_core::Counter;
use fm_entry::{Entry, read_entry};
use fm_saved::{Conf, read_conf};
use std::alloc::Global;

/// A configuration of so many rule files of one byte each; `None` where there are too many.
pub fn small_conf(alloc: Global, files: u8) -> Result<Option<Conf>, NoMemory>
    ensures { IfOk result (λ conf. IfSome conf IsSpelledConf) }
{
    let mut bytes = [7; 16].to_vec(alloc)?;
    bytes.push(files)?;
    'files: for _file in 0..files {
        bytes.extend_from_slice(b"\0\0\0\x01r")?;
    }
    bytes.extend_from_slice(b"\0\0\0\x01t")?;
    read_conf(alloc, &bytes)
}

/// A report of the class `ereport.cpu.u` and this letter, at a path, without a payload.
fn report_of(alloc: Global, letter: u8, moment: u32) -> Result<Option<Entry>, NoMemory>
    ensures { IfOk result (λ entry. IfSome entry IsSpelled) }
{
    let mut bytes = b"\x01\0\x0eereport.cpu.u".to_vec(alloc)?;
    bytes.push(letter)?;
    bytes.extend_from_slice(b"\0\x15hc:///chassis=0/cpu=1\0\0\0\0")?;
    bytes.extend_from_slice(&moment.to_be_bytes())?;
    bytes.extend_from_slice(b"\0\0")?;
    read_entry(alloc, &bytes)
}

/// A report of one class.
pub fn report(alloc: Global, moment: u32) -> Result<Option<Entry>, NoMemory>
    ensures { IfOk result (λ entry. IfSome entry IsSpelled) }
{
    report_of(alloc, b'e', moment)
}

/// The letter of the class of the report with this number, where the reports are mixed.
pub fn letter_at(number: u64) -> u8 {
    match number % 10 {
        3 | 4 | 6 | 9 => b'b',
        _ => b'a',
    }
}

/// The moment of the report with this number, where the reports are mixed: each is before the last.
pub fn moment_at(number: u64) -> u32 {
    100 - (number % 100) as u32
}

/// The report with this number, where the reports are mixed.
pub(crate) fn mixed_report(alloc: Global, number: u64) -> Result<Option<Entry>, NoMemory>
    ensures { IfOk result (λ entry. IfSome entry IsSpelled) }
{
    report_of(alloc, letter_at(number), moment_at(number))
}

/// The two modules as they are made.
pub fn counters(alloc: Global) -> Result<Vec<Counter>, NoMemory>
    ensures { IfOk result
        (λ made. made.items ≡ fresh_counter 0 ∷ fresh_counter 1 ∷ []) }
{
    let mut made = Vec::new(alloc);
    made.push(Counter::new(alloc, 0))?;
    made.push(Counter::new(alloc, 1))?;
    Ok(made)
}
