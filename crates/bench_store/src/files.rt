// A journal in a real file, opened.
use fm_journal::Journal;
use fm_outer::FileDisk;
use std::fs::OpenOptions;

/// Whether the file `journal` is opened as a journal of so many payloads.
pub fn is_opened(rt: &HostRuntime, count: u32) -> bool {
    let mut options = OpenOptions::new();
    options.read(true).write(true);
    let Ok(file) = options.open(rt, "journal") else {
        return false;
    };
    match Journal::open(FileDisk::new(Some(file))) {
        Ok(journal) => journal.count() == u64::from(count),
        Err(_) => false,
    }
}
