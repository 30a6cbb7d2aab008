//! The objects over a real folder.

use fm_act::{ActFault, Actuator};
use fm_bytes::Text;
use fm_files::{Input, Output, Retired, RetiredNote, StoreFile, StoreFolder, Streams, Trouble};
use fm_name::{Fmri, read_fmri};
use fm_outer::{Disk, Failed, Sink, Source};
use std::alloc::Global;
use std::fs::File;
use std::io::ErrorKind;
use std::os::unix::fs::MetadataExt;
use std::test::Fail;
use std::{fs, io};

fn path(alloc: Global, text: &str) -> Result<Fmri, Fail> {
    Ok(read_fmri(alloc, text)?.ok_or("no path")?)
}

const CPU_2: &str = "hc:///chassis=0/cpu=2";

const CPU_10: &str = "hc:///chassis=0/cpu=10";

/// The actuator for a kind.
fn actuator(rt: &HostRuntime, kind: &str, note: &RetiredNote) -> Result<Retired, Fail> {
    let kind = Text::new(rt.alloc(), kind)?;
    Ok(Retired::new(rt.clone()?, kind, note.share()?))
}

/// Whether the file of the list has just this text.
fn has_text(rt: &HostRuntime, wanted: &str) -> Result<bool, Fail> {
    let text = fs::read_to_string(rt, "retired.cpu")?;
    Ok(text.as_str() == wanted)
}

/// The path at a place of the list, which is read anew.
fn listed(rt: &HostRuntime, at: u32) -> Result<Option<Fmri>, Fail> {
    let note = RetiredNote::new(rt.alloc())?;
    let mut act = actuator(rt, "cpu", &note)?;
    Ok(act.listed(at).ok().ok_or("refused")?)
}

/// Whether a list of this text is a fault, and the fault is noted.
fn is_damaged(rt: &HostRuntime, text: &str) -> Result<bool, Fail> {
    fs::write(rt, "retired.cpu", text)?;
    let note = RetiredNote::new(rt.alloc())?;
    let mut act = actuator(rt, "cpu", &note)?;
    let failed = act.listed(0) == Err(ActFault::Failed);
    Ok(failed && note.fault().is_some())
}

#[test]
fn keeps_its_list_in_a_file(rt: HostRuntime) -> Result<(), Fail> {
    let alloc = rt.alloc();
    let note = RetiredNote::new(alloc)?;
    let mut act = actuator(&rt, "cpu", &note)?;
    assert!(rt; act.listed(0).is_ok_and(|path| path.is_none()));
    assert_eq!(rt; act.retire(&path(alloc, CPU_10)?), Ok(()));
    assert_eq!(rt; act.retire(&path(alloc, CPU_2)?), Ok(()));
    assert_eq!(rt; act.retire(&path(alloc, CPU_10)?), Ok(()));
    assert!(rt; has_text(&rt, "hc:///chassis=0/cpu=2\nhc:///chassis=0/cpu=10\n")?);
    assert!(rt; listed(&rt, 1)?.is_some_and(|path| path.text() == CPU_10));
    assert!(rt; listed(&rt, 2)?.is_none());
    assert_eq!(rt; act.unretire(&path(alloc, CPU_2)?), Ok(()));
    assert!(rt; has_text(&rt, "hc:///chassis=0/cpu=10\n")?);
    assert_eq!(rt; act.unretire(&path(alloc, CPU_10)?), Ok(()));
    assert!(rt; has_text(&rt, "")?);
    assert!(rt; note.fault().is_none());
    Ok(())
}

#[test]
fn refuses_a_damaged_list(rt: HostRuntime) -> Result<(), Fail> {
    assert!(rt; is_damaged(&rt, "hc:///chassis=0")?);
    assert!(rt; is_damaged(&rt, "hc:///chassis=0\n\n")?);
    assert!(rt; is_damaged(&rt, "chassis\n")?);
    assert!(rt; is_damaged(&rt, "hc:///chassis=0\nhc:///chassis=0\n")?);
    assert!(rt; is_damaged(&rt, "hc:///chassis=10\nhc:///chassis=2\n")?);
    assert!(rt; !is_damaged(&rt, "hc:///chassis=2\nhc:///chassis=10\n")?);
    Ok(())
}

/// Whether the trouble is told by this line.
fn is_told(alloc: Global, trouble: Option<Trouble>, wanted: &str) -> bool {
    match trouble {
        Some(trouble) => trouble
            .line(alloc)
            .is_ok_and(|line| line.as_str() == wanted),
        None => false,
    }
}

/// The first call of an actuator whose list is a folder, and what is noted of it.
fn try_folder(rt: &HostRuntime) -> Result<Option<Trouble>, Fail> {
    let note = RetiredNote::new(rt.alloc())?;
    let mut act = actuator(rt, "fan", &note)?;
    let _ = act.listed(0);
    let name = "retired.fan";
    Ok(note.fault().map(|fault| Trouble { name, fault }))
}

#[test]
fn notes_why_a_list_cannot_be_read(rt: HostRuntime) -> Result<(), Fail> {
    fs::create_dir(&rt, "retired.fan")?;
    let trouble = try_folder(&rt)?;
    assert!(rt; is_told(rt.alloc(), trouble, "fma: retired.fan: Is a directory\n"));
    Ok(())
}

/// The disk of a file of the folder.
fn disk(folder: &StoreFolder, name: &'static str) -> Result<StoreFile, Fail> {
    Ok(StoreFile::new(folder.share()?, name))
}

/// The rights of a file or folder.
fn rights(rt: &HostRuntime, name: &str) -> u32 {
    match fs::metadata(rt, name) {
        Ok(metadata) => metadata.mode() & 0o777,
        Err(_) => 0,
    }
}

/// Whether the disk takes four bytes, one of them written over, and a cut.
fn takes(disk: &mut StoreFile) -> bool {
    disk.write_at(0, b"abcd").is_ok()
        && disk.write_at(1, b"X").is_ok()
        && disk.write_at(2, b"Y").is_ok()
        && disk.sync().is_ok()
        && disk.cut(3).is_ok()
}

/// Whether the disk has the bytes `aXY`, and nothing behind them.
fn gives(disk: &mut StoreFile) -> bool {
    let mut all = [0u8; 3];
    let mut past = [0u8; 2];
    disk.len() == Ok(3)
        && disk.read(0, &mut all).is_ok()
        && all == *b"aXY"
        && disk.read(2, &mut past).is_err()
        && disk.faults() == 1
}

#[test]
fn a_disk_keeps_its_bytes(rt: HostRuntime) -> Result<(), Fail> {
    let folder = StoreFolder::new(rt.clone()?, rt.alloc())?;
    let mut flt = disk(&folder, "store/flt")?;
    assert!(rt; takes(&mut flt));
    assert!(rt; gives(&mut flt));
    assert!(rt;
        is_told(
            rt.alloc(),
            flt.trouble(),
            "fma: store/flt: failed to fill whole buffer\n"
        )
    );
    Ok(())
}

#[test]
fn a_disk_is_opened_at_its_first_call(rt: HostRuntime) -> Result<(), Fail> {
    let folder = StoreFolder::new(rt.clone()?, rt.alloc())?;
    let mut slot = disk(&folder, "store/slot_a")?;
    assert_eq!(rt; rights(&rt, "store/slot_a"), 0);
    assert!(rt; slot.len() == Ok(0));
    assert_eq!(rt; rights(&rt, "store"), 0o700);
    assert_eq!(rt; rights(&rt, "store/lock"), 0o600);
    assert_eq!(rt; rights(&rt, "store/slot_a"), 0o600);
    Ok(())
}

/// Whether a second handle of the folder is refused, and stays so once the first is gone.
fn is_refused(mut held: StoreFile, refused: &mut StoreFile, behind: &mut StoreFile) -> bool {
    let first = held.len().is_ok() && refused.len().is_err();
    drop(held);
    first && refused.sync().is_err() && behind.len().is_err()
}

#[test]
fn a_folder_is_had_by_one(rt: HostRuntime) -> Result<(), Fail> {
    let mine = StoreFolder::new(rt.clone()?, rt.alloc())?;
    let held = disk(&mine, "store/err_a")?;
    let other = StoreFolder::new(rt.clone()?, rt.alloc())?;
    let mut refused = disk(&other, "store/err_a")?;
    let mut behind = disk(&other, "store/flt")?;
    assert!(rt; is_refused(held, &mut refused, &mut behind));
    assert!(rt;
        is_told(
            rt.alloc(),
            refused.trouble(),
            "fma: store: in use by another process\n"
        )
    );
    Ok(())
}

/// What the first call of a source gives.
fn first_count(source: &mut Input) -> Result<usize, Failed> {
    let mut buf = [0u8; 4];
    source.next(&mut buf)
}

#[test]
fn a_source_may_be_missing(rt: HostRuntime) -> Result<(), Fail> {
    let mut empty = Input::file(rt.clone()?, "missing", true);
    assert_eq!(rt; first_count(&mut empty), Ok(0));
    let mut rules = Input::file(rt.clone()?, "missing", false);
    assert_eq!(rt; first_count(&mut rules), Err(Failed));
    assert!(rt;
        is_told(
            rt.alloc(),
            rules.trouble(),
            "fma: missing: No such file or directory\n"
        )
    );
    Ok(())
}

#[test]
fn a_source_is_opened_at_its_first_call(rt: HostRuntime) -> Result<(), Fail> {
    let mut late = Input::file(rt.clone()?, "rules", false);
    fs::write(&rt, "rules", "abc")?;
    assert_eq!(rt; first_count(&mut late), Ok(3));
    assert_eq!(rt; first_count(&mut late), Ok(0));
    Ok(())
}

/// What becomes of a piece, and why it was not taken.
fn put_in(file: File, piece: &[u8]) -> Option<Trouble> {
    let mut output = Output::new("output", file);
    let _ = output.put(piece);
    output.trouble()
}

#[test]
fn a_sink_tells_why_it_failed(rt: HostRuntime) -> Result<(), Fail> {
    assert!(rt; put_in(File::create(&rt, "output")?, b"abc").is_none());
    let text = fs::read_to_string(&rt, "output")?;
    assert_eq!(rt; text.as_str(), "abc");
    let trouble = put_in(File::open(&rt, "output")?, b"d");
    assert!(rt; is_told(rt.alloc(), trouble, "fma: output: Bad file descriptor\n"));
    Ok(())
}

/// Whether each call of the disk fails, and is counted.
fn fails_always(disk: &mut StoreFile) -> bool {
    let mut buf = [0u8; 1];
    disk.len().is_err()
        && disk.read(0, &mut buf).is_err()
        && disk.write_at(0, b"a").is_err()
        && disk.cut(0).is_err()
        && disk.sync().is_err()
        && disk.faults() == 5
}

#[test]
fn what_is_broken_fails_each_call(rt: HostRuntime) {
    let name = "/dev/null";
    let fault = io::Error::from(ErrorKind::NotFound);
    let trouble = Trouble { name, fault };
    assert_eq!(rt; first_count(&mut Input::broken(trouble)), Err(Failed));
    assert!(rt; fails_always(&mut StoreFile::closed(trouble)));
    assert!(rt; Streams::hold(&rt).is_ok());
}
