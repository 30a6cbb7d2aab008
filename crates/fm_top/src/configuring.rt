// The configuration of a store as an operator is shown it.
ghost use Rattle.std.specs.Prelude.{◌≡◌, ◌≤◌, None, length, IfOk, IfErr};
ghost use Rattle.fm_config.specs.Sizes.{IsConfText};
ghost use Rattle.fm_store.specs.Cursors.{AreAtCursors};
ghost use Rattle.fm_store.specs.StoreLeft.{AreSameStore};
ghost use Rattle.dx_engine.specs.Diagnosers.{diagnosers};
ghost use Rattle.fm_top.specs.Admin.{AdminDone};

use dx_engine::Diagnoser;
use fm_command::AdminCommand;
use fm_config::tell_conf;
use fm_core::Hand;
use fm_drain::drain;
use fm_outer::Disk;
use fm_saved::Conf;
use fm_store::{Store, StoreFault};
use std::alloc::Global;

/// The text of a configuration that a store was opened with, so that none of its texts is refused.
fn conf_text(alloc: Global, conf: &Conf) -> Result<Vec<u8>, StoreFault>
    ensures told { IfOk result (λ text. IsConfText conf.now text.items) }
    ensures wanted { IfErr result (λ fault. fault ≡ StoreFault.NoMemory) }
{
    match tell_conf(alloc, conf) {
        Ok(text) => Ok(text),
        Err(_) => Err(StoreFault::NoMemory),
    }
}

/// Drains an open store, and tells the configuration that it has in force.
pub(crate) fn drained_conf<D: Disk>(
    alloc: Global,
    store: &mut Store<D, Diagnoser>,
    hands: Vec<Hand<Diagnoser>>,
    conf: &Conf,
) -> Result<Vec<u8>, StoreFault>
    requires ready { store.old.logs.closed ≡ None }
    requires few { length hands.items ≤ 8 }
    requires at_cursors { AreAtCursors diagnosers store.old.logs hands.items }
    ensures did { AdminDone D.Disk AdminCommand.Config store.old store.new hands.items conf.now
        result }
    ensures same_disks { AreSameStore D.Disk store.old store.new }
{
    let (_hands, drained) = drain(store, alloc, hands);
    match drained {
        Ok(()) => conf_text(alloc, conf),
        Err(fault) => Err(fault),
    }
}
