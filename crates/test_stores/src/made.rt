// Commands on a store as a whole: it is made, opened, and called.
ghost use Rattle.fm_saved.specs.Confs.{IsSpelledConf};

use crate::calls::make_calls;
use crate::fault::ScriptFault;
use crate::runs::calls_of_opening;
use crate::store_bytes::{FailingCalls, StoreBytes, bytes_left, disks_with};
use crate::told::{fault_text, name_text, wrote_text};
use fm_init::init;
use fm_journal::Journal;
use fm_logs::{DiskName, Disks, StoreFault};
use fm_outer::{Disk, MemDisk, NoMemory};
use fm_saved::Conf;
use fm_store::Opened;
use std::alloc::Global;
use test_small_store::{SmallStore, disk_of, opened, small_conf};

/// What a making leaves: the disks, and why it was refused.
fn made<D: Disk>(alloc: Global, disks: Disks<D>, conf: &Conf) -> (Disks<D>, Option<StoreFault>)
    requires { IsSpelledConf conf.now }
{
    match init(alloc, disks, conf) {
        Ok(disks) => (disks, None),
        Err(refused) => (refused.disks, Some(refused.fault)),
    }
}

/// The bytes that a making leaves, and why it was refused.
fn bytes_made(
    alloc: Global,
    store: &StoreBytes,
    conf: &Conf,
) -> Result<(StoreBytes, Option<StoreFault>), NoMemory>
    requires { IsSpelledConf conf.now }
{
    let disks = disks_with(alloc, store, FailingCalls::None)?;
    let (disks, fault) = made(alloc, disks, conf);
    let left = bytes_left(alloc, disks, None)?;
    Ok((left, fault))
}

/// What a making came to, and which disks it wrote.
fn made_text(
    alloc: Global,
    before: &StoreBytes,
    left: &StoreBytes,
    fault: Option<StoreFault>,
) -> Result<String, ScriptFault> {
    let wrote = wrote_text(alloc, before, left)?;
    match fault {
        None => Ok(format!(in alloc; "made, {wrote}")?),
        Some(fault) => {
            let fault = fault_text(alloc, fault)?;
            Ok(format!(in alloc; "{fault}, {wrote}")?)
        }
    }
}

/// Makes a store of so many rule files.
pub fn make(alloc: Global, store: &mut StoreBytes, files: u32) -> Result<String, ScriptFault> {
    let files = u8::try_from(files).map_err(|_| ScriptFault::Words)?;
    let Some(conf) = small_conf(alloc, files)? else {
        return Ok(String::from_str(alloc, "no configuration, wrote nothing")?);
    };
    let (left, fault) = bytes_made(alloc, store, &conf)?;
    let answer = made_text(alloc, store, &left, fault)?;
    *store = left;
    Ok(answer)
}

/// Makes a store of two rule files on empty disks.
pub fn new_store(alloc: Global, store: &mut StoreBytes) -> Result<String, ScriptFault> {
    *store = StoreBytes::empty(alloc)?;
    make(alloc, store, 2)
}

/// How many rule files the configuration has of the store on the disks.
fn files_on<D: Disk + Drop>(alloc: Global, disks: Disks<D>) -> Result<usize, StoreFault> {
    match Opened::open(alloc, disks) {
        Ok(open) => Ok(open.conf().rules.len()),
        Err(refused) => Err(refused.fault),
    }
}

/// How many rule files the store's configuration has.
pub fn files(alloc: Global, store: &StoreBytes) -> Result<String, ScriptFault> {
    let disks = disks_with(alloc, store, FailingCalls::None)?;
    match files_on(alloc, disks) {
        Ok(count) => Ok(format!(in alloc; "{count}")?),
        Err(fault) => Ok(fault_text(alloc, fault)?),
    }
}

/// The first number and the count of the journal on a disk, where there is one.
fn numbers_on<D: Disk + Drop>(disk: D) -> Option<(u64, u64)> {
    match Journal::open(disk) {
        Ok(journal) => Some((journal.first(), journal.count())),
        Err(_) => None,
    }
}

/// The same, as text.
fn numbers_text(alloc: Global, store: &StoreBytes, name: DiskName) -> Result<String, NoMemory> {
    let numbers = numbers_on(disk_of(alloc, store.of(name), &[])?);
    let name = name_text(name);
    match numbers {
        Some((first, count)) => Ok(format!(in alloc; "{name} from {first} {count}")?),
        None => Ok(format!(in alloc; "{name} none")?),
    }
}

/// The numbers of both error journals and of the fault log.
pub fn journals(alloc: Global, store: &StoreBytes) -> Result<String, ScriptFault> {
    let first = numbers_text(alloc, store, DiskName::ErrA)?;
    let second = numbers_text(alloc, store, DiskName::ErrB)?;
    let flt = numbers_text(alloc, store, DiskName::Flt)?;
    Ok(format!(in alloc; "{first}, {second}, {flt}")?)
}

/// The disks of an open store behind the calls, and their answers.
fn called(
    alloc: Global,
    small: SmallStore,
    text: &str,
) -> (Disks<MemDisk>, Result<String, ScriptFault>) {
    let mut small = small;
    let answers = make_calls(alloc, &mut small.store, text);
    let (disks, _) = small.close();
    (disks, answers)
}

/// Why a store was not opened, as text.
fn refused_text(alloc: Global, fault: StoreFault) -> Result<String, ScriptFault> {
    Ok(fault_text(alloc, fault)?)
}

/// The disks behind the calls of the store that is on them, and the answers.
fn called_on(
    alloc: Global,
    disks: Disks<MemDisk>,
    text: &str,
) -> (Disks<MemDisk>, Result<String, ScriptFault>) {
    match opened(alloc, disks) {
        Ok(small) => called(alloc, small, text),
        Err(stopped) => (stopped.disks, refused_text(alloc, stopped.fault)),
    }
}

/// Opens the store on disks of which these calls fail, makes the calls, and closes it.
pub fn calls(
    alloc: Global,
    bytes: &mut StoreBytes,
    failing: FailingCalls,
    text: &str,
) -> Result<String, ScriptFault> {
    let disks = disks_with(alloc, bytes, failing)?;
    let (disks, answers) = called_on(alloc, disks, text);
    *bytes = bytes_left(alloc, disks, None)?;
    answers
}

/// The same, where one call of a disk fails, counted behind those of the opening.
pub fn failing_calls(
    alloc: Global,
    bytes: &mut StoreBytes,
    disk: DiskName,
    call: u64,
    text: &str,
) -> Result<String, ScriptFault> {
    let opening = calls_of_opening(alloc, bytes, disk)?;
    let call = opening.saturating_add(call);
    calls(alloc, bytes, FailingCalls::One { disk, call }, text)
}
