//! Looks at one disk of a store that is opened.

ghost use Rattle.std.specs.Prelude.{◌≡◌, ℕ, List, Some, None, IfOk, IfErr};
ghost use Rattle.fm_outer.specs.Moments.{OnlyRead};
ghost use Rattle.fm_journal.specs.Crash.{disk_back};
ghost use Rattle.fm_journal.specs.Damage.{IsDamagedAt};
ghost use Rattle.fm_journal.specs.Keeps.{Keeps};
ghost use Rattle.fm_looks.specs.Looks.{LookCause, log_disk, fault_seen};

use fm_journal::{Journal, JournalFault};
use fm_outer::Disk;
use fm_payloads::ReadingFault;

/// Why a look at a disk did not pass.
#[derive(Clone, Copy, Debug, Drop, PartialEq, Eq)]
pub enum LookFault {
    /// The disk failed.
    Disk,
    /// What stands at this place is damaged.
    Damaged { place: u64 },
    /// Memory was wanted.
    NoMemory,
}

/// A look that did not pass, with the disk.
#[derive(Drop)]
pub struct LookRefused<D> {
    pub disk: D,
    pub fault: LookFault,
}

/// What a fault of a reading is to a look.
pub(crate) fn look_fault(fault: ReadingFault) -> LookFault
    ensures { result ≡ fault_seen fault }
{
    match fault {
        ReadingFault::Disk => LookFault::Disk,
        ReadingFault::Changed { place } => LookFault::Damaged { place },
        ReadingFault::NoMemory => LookFault::NoMemory,
    }
}

/// Opens a log.
pub(crate) fn open_log<D: Disk>(disk: D) -> Result<Journal<D>, LookRefused<D>>
    ensures found { IfOk result (λ journal. (c : List ℕ) → D.seen disk ≡ Some c
        → (payloads : List (List ℕ)) × Keeps D.Disk journal payloads) }
    ensures is_open { IfOk result (λ journal. journal.closed ≡ None) }
    ensures count_kept { IfOk result (λ journal. D.failures journal.disk ≡ D.failures disk) }
    ensures still { OnlyRead D.Disk disk (log_disk result) }
    ensures cause { IfErr result (λ refused. LookCause D.Disk IsDamagedAt disk refused.disk
        refused.fault) }
{
    match Journal::open(disk) {
        Ok(journal) => Ok(journal),
        Err(refused) => {
            let fault = match refused.fault {
                JournalFault::Damaged { place } => LookFault::Damaged { place },
                _ => LookFault::Disk,
            };
            let disk = refused.into_disk();
            Err(LookRefused { disk, fault })
        }
    }
}

/// A look at a log that did not pass.
pub(crate) fn refuse<D: Disk>(journal: Journal<D>, fault: LookFault) -> LookRefused<D>
    ensures { result ≡ record { disk = journal.disk; fault = fault } }
{
    let disk = journal.into_disk();
    LookRefused { disk, fault }
}
