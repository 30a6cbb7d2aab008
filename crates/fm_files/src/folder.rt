// The folder of the disks.

use crate::trouble::{Trouble, of};
use std::alloc::{AllocError, Global};
use std::fs::{DirBuilder, File, OpenOptions, TryLockError};
use std::io::ErrorKind;
use std::os::unix::fs::{DirBuilderExt, OpenOptionsExt};
use std::sync::Arc;
use std::sync::atomic::{AtomicU64, Ordering};
use std::{fs, io};

/// The folder's name.
const STORE: &str = "store";

/// The file in the folder that is locked.
const LOCK: &str = "store/lock";

/// The rights of the folder: all for its owner.
const FOLDER_RIGHTS: u32 = 0o700;

/// The rights of a file in the folder: reading and writing for its owner.
const FILE_RIGHTS: u32 = 0o600;

/// Nobody asked for the folder yet; this process has it; or it could not be had.
const UNASKED: u64 = 0;

const HELD: u64 = 1;

const REFUSED: u64 = 2;

/// Syncs a folder.
fn sync_folder(rt: &HostRuntime, name: &'static str) -> Result<(), Trouble> {
    let folder = of(name, fs::open(rt, name))?;
    of(name, folder.sync_all())
}

/// Makes the folder where it is missing.
fn make_folder(rt: &HostRuntime) -> io::Result<()> {
    let mut builder = DirBuilder::new();
    match builder.mode(FOLDER_RIGHTS).create(rt, STORE) {
        Err(fault) if fault.kind() == ErrorKind::AlreadyExists => Ok(()),
        answer => answer,
    }
}

/// Opens the file of a name in the folder for reading and writing. Where it is missing it is made
/// and synced, and then the folder too.
fn open_file(rt: &HostRuntime, name: &'static str) -> Result<File, Trouble> {
    let mut options = OpenOptions::new();
    options.read(true).write(true).mode(FILE_RIGHTS);
    match options.open(rt, name) {
        Err(fault) if fault.kind() == ErrorKind::NotFound => {
            let file = of(name, options.create(true).open(rt, name))?;
            of(name, file.sync_all())?;
            sync_folder(rt, STORE)?;
            Ok(file)
        }
        answer => of(name, answer),
    }
}

/// Locks the file, or says that another process holds it.
fn lock(file: &File) -> Result<(), Trouble> {
    match file.try_lock() {
        Ok(()) => Ok(()),
        Err(TryLockError::WouldBlock) => Err(Trouble {
            name: STORE,
            fault: io::Error::new(ErrorKind::WouldBlock, "in use by another process"),
        }),
        Err(TryLockError::Error(fault)) => Err(Trouble { name: LOCK, fault }),
    }
}

/// Takes the folder for this process: makes it where it is missing, locks it, and syncs it and the
/// folder that it is in, so that what an earlier run made is there to stay too. The folder is free
/// again once the file is closed, which the end of a process does, however it ends.
fn take(rt: &HostRuntime) -> Result<File, Trouble> {
    of(STORE, make_folder(rt))?;
    let file = open_file(rt, LOCK)?;
    lock(&file)?;
    sync_folder(rt, STORE)?;
    sync_folder(rt, ".")?;
    Ok(file)
}

/// The folder `store`. All handles of it share whether this process has it to itself.
#[derive(Drop)]
pub struct StoreFolder {
    rt: HostRuntime,
    state: Arc<AtomicU64>,
}

impl StoreFolder {
    /// The folder, which is neither made nor locked yet.
    pub fn new(rt: HostRuntime, alloc: Global) -> Result<StoreFolder, AllocError> {
        let state = Arc::new(alloc, AtomicU64::new(UNASKED))?;
        Ok(StoreFolder { rt, state })
    }

    /// Another handle of it.
    pub fn share(&self) -> Result<StoreFolder, AllocError> {
        let rt = self.rt.clone()?;
        let state = Arc::try_clone(&self.state)?;
        Ok(StoreFolder { rt, state })
    }

    /// Takes the folder where that was not tried yet, and gives the locked file then.
    fn enter(&self) -> Result<Option<File>, Trouble> {
        match self.state.load(Ordering::SeqCst) {
            HELD => Ok(None),
            UNASKED => {
                let taken = take(&self.rt);
                let state = if taken.is_ok() { HELD } else { REFUSED };
                self.state.store(state, Ordering::SeqCst);
                Ok(Some(taken?))
            }
            _ => Err(Trouble {
                name: STORE,
                fault: io::Error::new(ErrorKind::Other, "could not be opened"),
            }),
        }
    }

    /// Opens the file of a name, which begins with that of the folder. Where nobody asked for the
    /// folder before, it is taken first, and the locked file put where the caller keeps it.
    pub(crate) fn open(
        &self,
        name: &'static str,
        kept: &mut Option<File>,
    ) -> Result<File, Trouble> {
        if let Some(file) = self.enter()? {
            *kept = Some(file);
        }
        open_file(&self.rt, name)
    }
}
