// The operator's commands that put one text.
ghost use Rattle.std.specs.Prelude.{◌≡◌, ◌≤◌, Err, None, length, IfOk};
ghost use Rattle.fm_answers.specs.StreamsAt.{SinkAt, SourceAt, sink_at};
ghost use Rattle.fm_saved.specs.declared.conf.Conf.{Conf};
ghost use Rattle.fm_store.specs.Cursors.{AreAtCursors};
ghost use Rattle.fm_store.specs.StoreLeft.{AreSameStore};
ghost use Rattle.dx_engine.specs.Diagnosers.{diagnosers};
ghost use Rattle.fm_top.specs.Admin.{AdminDone, AdminRan, rotated_text};
ghost use Rattle.fm_top.specs.Calls.{names_of};
ghost use Rattle.fm_top.specs.Outside.{disks_at};
ghost use Rattle.fm_top.specs.Tasks.{TaskDoes};

use crate::configuring::drained_conf;
use crate::dumping::dump_text;
use crate::no_input::NoInput;
use crate::opened::work_store;
use crate::tasks::{StoreTask, TaskDone};
use dx_engine::Diagnoser;
use fm_admin::{rotate_drained, tell_faulty};
use fm_answers::{Stop, put_bytes};
use fm_bytes::NoMemory;
use fm_command::AdminCommand;
use fm_core::Hand;
use fm_init::Disks;
use fm_outer::{Disk, Sink};
use fm_saved::Conf;
use fm_store::{Store, StoreFault};
use std::alloc::Global;

/// The text of a rotation to this base.
fn rotated_text(alloc: Global, base: u64) -> Result<Vec<u8>, NoMemory>
    ensures { IfOk result (λ text. text.items ≡ rotated_text base) }
{
    let text = format!(in alloc; "rotated {base}\n")?;
    Ok(text.into_bytes())
}

/// Drains the store and rotates it, and tells the new base.
fn rotate<D: Disk>(
    alloc: Global,
    store: &mut Store<D, Diagnoser>,
    hands: Vec<Hand<Diagnoser>>,
) -> Result<Vec<u8>, StoreFault>
    requires ready { store.old.logs.closed ≡ None }
    requires few { length hands.items ≤ 8 }
    requires at_cursors { AreAtCursors diagnosers store.old.logs hands.items }
    ensures did { (conf : Conf)
        → AdminDone D.Disk AdminCommand.Rotate store.old store.new hands.items conf result }
    ensures same_disks { AreSameStore D.Disk store.old store.new }
{
    match rotate_drained(store, alloc, hands) {
        Ok(base) => Ok(rotated_text(alloc, base)?),
        Err(fault) => Err(fault),
    }
}

/// Does a command with an open store that has this configuration in force, and tells its text.
fn text_of<D: Disk>(
    alloc: Global,
    asked: &AdminCommand,
    store: &mut Store<D, Diagnoser>,
    hands: Vec<Hand<Diagnoser>>,
    conf: &Conf,
) -> Result<Vec<u8>, StoreFault>
    requires ready { store.old.logs.closed ≡ None }
    requires few { length hands.items ≤ 8 }
    requires at_cursors { AreAtCursors diagnosers store.old.logs hands.items }
    ensures did { AdminDone D.Disk asked.now store.old store.new hands.items conf.now result }
    ensures same_disks { AreSameStore D.Disk store.old store.new }
{
    match asked {
        AdminCommand::Faulty => tell_faulty(store, alloc, hands, &conf.namespace),
        AdminCommand::Config => drained_conf(alloc, store, hands, conf),
        AdminCommand::Dump(options) => dump_text(alloc, options, store, hands, conf),
        AdminCommand::Rotate => rotate(alloc, store, hands),
    }
}

/// Does it, and tells what is left to do.
pub(crate) fn tell_text<D: Disk>(
    alloc: Global,
    asked: &AdminCommand,
    store: &mut Store<D, Diagnoser>,
    hands: Vec<Hand<Diagnoser>>,
    conf: &Conf,
) -> Result<TaskDone, Stop>
    requires ready { store.old.logs.closed ≡ None }
    requires few { length hands.items ≤ 8 }
    requires at_cursors { AreAtCursors diagnosers store.old.logs hands.items }
    ensures does { (input : SourceAt) (out : SinkAt)
        → TaskDoes D.Disk (StoreTask.Admin asked.now) store.old store.new hands.items conf.now
        input input out out result }
    ensures no_read { result ≡ Err Stop.Read → ⊥ }
    ensures no_write { result ≡ Err Stop.Write → ⊥ }
    ensures same_disks { AreSameStore D.Disk store.old store.new }
{
    match text_of(alloc, asked, store, hands, conf) {
        Ok(text) => Ok(TaskDone::Text(text)),
        Err(fault) => Err(Stop::from(fault)),
    }
}

/// Does a command with the store on the disks, and puts its text.
pub(crate) fn tell<K: Sink, D: Disk>(
    alloc: Global,
    asked: AdminCommand,
    out: &mut K,
    disks: &mut Disks<D>,
) -> Result<(), Stop>
    ensures ran { AdminRan asked (sink_at K.Sink out.old) (sink_at K.Sink out.new)
        (disks_at D.Disk disks.old) (disks_at D.Disk disks.new) result }
    ensures same_disks { names_of D.name disks.new ≡ names_of D.name disks.old }
{
    let task = StoreTask::Admin(asked);
    let mut none = NoInput;
    let done = work_store(alloc, &task, &mut none, out, disks)?;
    match done {
        TaskDone::Text(text) => put_bytes(out, text.as_slice()),
        _ => unreachable!(),
    }
}
