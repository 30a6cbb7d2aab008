// Why an actuator failed, told from within a box.

use std::alloc::{AllocError, Global};
use std::io;
use std::io::ErrorKind;
use std::sync::Arc;
use std::sync::atomic::{AtomicU64, Ordering};

/// A fault that has no number of the system's.
const NO_LIST: u64 = 1 << 32;

/// A place for the reason why an actuator first failed. Whoever boxes the actuator keeps another
/// handle of it, since of a box nobody can ask more than its trait says.
#[derive(Drop)]
pub struct RetiredNote {
    code: Arc<AtomicU64>,
}

impl RetiredNote {
    /// An empty place.
    pub fn new(alloc: Global) -> Result<RetiredNote, AllocError> {
        let code = Arc::new(alloc, AtomicU64::new(0))?;
        Ok(RetiredNote { code })
    }

    /// Another handle of the same place.
    pub fn share(&self) -> Result<RetiredNote, AllocError> {
        let code = Arc::try_clone(&self.code)?;
        Ok(RetiredNote { code })
    }

    /// Keeps the reason, if there is none yet.
    pub(crate) fn keep(&self, fault: io::Error) {
        if self.code.load(Ordering::SeqCst) == 0 {
            let code = match fault.raw_os_error() {
                Some(number) => u64::from(number.unsigned_abs()),
                None => NO_LIST,
            };
            self.code.store(code, Ordering::SeqCst);
        }
    }

    /// The reason, if there is one.
    pub fn fault(&self) -> Option<io::Error> {
        match self.code.load(Ordering::SeqCst) {
            0 => None,
            code => match i32::try_from(code) {
                Ok(number) => Some(io::Error::from_raw_os_error(number)),
                Err(_) => Some(io::Error::new(ErrorKind::InvalidData, "no list of paths")),
            },
        }
    }
}
