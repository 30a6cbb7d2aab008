//! The configurations of a store, read from their disk.

ghost use Rattle.std.specs.Prelude.{◌≡◌, true, false, ℕ, List, [], ◌∷◌, ◌++◌, ◌≤◌, length};
ghost use Rattle.std.specs.Prelude.{Some, None};
ghost use Rattle.std.specs.Prelude.{IfOk, IfErr};
ghost use Rattle.fm_outer.specs.Moments.{OnlyRead};
ghost use Rattle.fm_payloads.specs.Spelling.{EachSpells};
ghost use Rattle.fm_logs.specs.ReadsAsBook.{SpellsConf};
ghost use Rattle.fm_logs.specs.StoreBook.{AreOfOneStore};
ghost use Rattle.fm_saved.specs.declared.conf.Conf.{Conf};
ghost use Rattle.fm_looks.specs.Looks.{LookCause, ConfsKept, confs_disk};
ghost use Rattle.fm_looks.specs.Looks.{AreKeptConfs, KeepsConfs, TookConfs, RefusesConf};
ghost use Rattle.fm_looks.specs.Opening.{FitConfs, Good, LogDamage, ConfsDamage};

use crate::look::{LookFault, LookRefused, look_fault, open_log, refuse};
use fm_bytes::NoMemory;
use fm_journal::Journal;
use fm_outer::Disk;
use fm_payloads::{PayloadReader, read_payloads};
use fm_saved::{Conf, read_conf};
use std::alloc::Global;

/// The most configurations that a store has.
const MAX_CONFS: usize = 16;

/// Configurations of one store, as they are read.
#[derive(Drop)]
pub(crate) struct ConfReader {
    confs: Vec<Conf>,
}

/// Whether two configurations are of one store.
fn are_of_one_store(one: &Conf, other: &Conf) -> bool
    ensures yes { result ≡ true → AreOfOneStore one.now other.now }
    ensures no { result ≡ false → AreOfOneStore one.now other.now → ⊥ }
{
    one.namespace == other.namespace && one.rules.len() == other.rules.len()
}

/// Whether a configuration may follow these: they are not too many, and are of one store with it.
fn may_follow(confs: &[Conf], conf: &Conf) -> bool
    ensures yes { result ≡ true → FitConfs confs.now → FitConfs (confs.now ++ conf.now ∷ []) }
    ensures no { result ≡ false → FitConfs (confs.now ++ conf.now ∷ []) → ⊥ }
{
    if confs.len() >= MAX_CONFS {
        return false;
    }
    if confs.len() == 0 {
        return true;
    }
    are_of_one_store(&confs[0], conf)
}

impl PayloadReader for ConfReader {
    ghost took = { TookConfs };

    ghost refuses = { RefusesConf };

    ghost same_rule = { KeepsConfs };

    ghost same_rule_self = { λ _ kept. kept };

    ghost same_rule_then = { λ _ _ _ one two kept. two (one kept) };

    fn take(&mut self, alloc: Global, payload: &[u8]) -> Result<bool, NoMemory> {
        let Some(conf) = read_conf(alloc, payload)? else {
            return Ok(false);
        };
        if !may_follow(&self.confs, &conf) {
            return Ok(false);
        }
        self.confs.push(conf)?;
        Ok(true)
    }
}

/// The journal of the configurations, and the configurations.
#[derive(Drop)]
pub struct ConfsRead<D: Disk> {
    pub journal: Journal<D>,
    pub confs: Vec<Conf>,
}

/// Reads the configurations of a store.
pub fn open_confs<D: Disk>(alloc: Global, disk: D) -> Result<ConfsRead<D>, LookRefused<D>>
    ensures passes { IfOk result (λ read. (c : List ℕ) → D.seen disk ≡ Some c
        → ConfsKept D.Disk c read.journal read.confs.items) }
    ensures is_open { IfOk result (λ read. read.journal.closed ≡ None) }
    ensures count_kept { IfOk result
        (λ read. D.failures read.journal.disk ≡ D.failures disk) }
    ensures some { IfOk result (λ read. 1 ≤ length read.confs.items) }
    ensures fit { IfOk result (λ read. AreKeptConfs read.confs.items) }
    ensures still { OnlyRead D.Disk disk (confs_disk result) }
    ensures cause { IfErr result (λ refused. LookCause D.Disk (LogDamage ConfsDamage) disk
        refused.disk refused.fault) }
{
    let mut journal = open_log(disk)?;
    let mut reader = ConfReader {
        confs: Vec::new(alloc),
    };
    match read_payloads(alloc, &mut journal, &mut reader) {
        Ok(None) => {
            let confs = reader.confs;
            if confs.len() > 0 {
                Ok(ConfsRead { journal, confs })
            } else {
                Err(refuse(journal, LookFault::Damaged { place: 16 }))
            }
        }
        Ok(Some(place)) => Err(refuse(journal, LookFault::Damaged { place })),
        Err(fault) => Err(refuse(journal, look_fault(fault))),
    }
}
