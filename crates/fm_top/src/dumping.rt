// The logs of a store as an operator reads them.
ghost use Rattle.std.specs.Prelude.{◌≡◌, ◌≤◌, None, length};
ghost use Rattle.fm_command.specs.declared.words.AdminCommand.TheVariants.{Dump};
ghost use Rattle.fm_store.specs.Cursors.{AreAtCursors};
ghost use Rattle.fm_store.specs.StoreLeft.{AreSameStore};
ghost use Rattle.dx_engine.specs.Diagnosers.{diagnosers};
ghost use Rattle.fm_top.specs.Admin.{AdminDone};

use dx_engine::Diagnoser;
use fm_admin::{dump_errors, dump_faults};
use fm_core::Hand;
use fm_dump::DumpOptions;
use fm_outer::Disk;
use fm_saved::Conf;
use fm_store::{Store, StoreFault};
use std::alloc::Global;

/// Drains an open store that has this configuration in force, and tells of the log that the options
/// ask for what they keep.
pub(crate) fn dump_text<D: Disk>(
    alloc: Global,
    options: &DumpOptions,
    store: &mut Store<D, Diagnoser>,
    hands: Vec<Hand<Diagnoser>>,
    conf: &Conf,
) -> Result<Vec<u8>, StoreFault>
    requires ready { store.old.logs.closed ≡ None }
    requires few { length hands.items ≤ 8 }
    requires at_cursors { AreAtCursors diagnosers store.old.logs hands.items }
    ensures did { AdminDone D.Disk (Dump options.now) store.old store.new hands.items conf.now
        result }
    ensures same_disks { AreSameStore D.Disk store.old store.new }
{
    if options.errors {
        dump_errors(store, alloc, hands, options)
    } else {
        dump_faults(store, alloc, hands, &conf.namespace, options)
    }
}
