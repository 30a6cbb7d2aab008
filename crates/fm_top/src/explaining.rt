// The operator's command `explain`.
ghost use Rattle.std.specs.Prelude.{◌≡◌, ◌≤◌, Err, None, length};
ghost use Rattle.fm_answers.specs.StreamsAt.{SinkAt, SourceAt, sink_at};
ghost use Rattle.fm_store.specs.Cursors.{AreAtCursors};
ghost use Rattle.fm_store.specs.StoreLeft.{AreSameStore};
ghost use Rattle.dx_engine.specs.Diagnosers.{diagnosers};
ghost use Rattle.fm_top.specs.Calls.{names_of};
ghost use Rattle.fm_top.specs.Explain.{ExplainRan};
ghost use Rattle.fm_top.specs.Outside.{disks_at};
ghost use Rattle.fm_top.specs.Tasks.{TaskDoes};

use crate::no_input::NoInput;
use crate::opened::work_store;
use crate::tasks::{StoreTask, TaskDone};
use dx_engine::Diagnoser;
use fm_answers::{Stop, put_bytes};
use fm_core::Hand;
use fm_init::Disks;
use fm_outer::{Disk, Sink};
use fm_saved::Conf;
use fm_store::Store;
use std::alloc::Global;
use uuid::Uuid;

/// Drains an open store that has this configuration in force, and tells what the suspects of the
/// case with the UUID account for.
pub(crate) fn explain_store<D: Disk>(
    alloc: Global,
    uuid: &Uuid,
    store: &mut Store<D, Diagnoser>,
    hands: Vec<Hand<Diagnoser>>,
    conf: &Conf,
) -> Result<TaskDone, Stop>
    requires ready { store.old.logs.closed ≡ None }
    requires few { length hands.items ≤ 8 }
    requires at_cursors { AreAtCursors diagnosers store.old.logs hands.items }
    ensures does { (input : SourceAt) (out : SinkAt)
        → TaskDoes D.Disk (StoreTask.Explain uuid.now) store.old store.new hands.items conf.now
        input input out out result }
    ensures no_read { result ≡ Err Stop.Read → ⊥ }
    ensures no_write { result ≡ Err Stop.Write → ⊥ }
    ensures same_disks { AreSameStore D.Disk store.old store.new }
{
    match fm_admin::explain(store, alloc, hands, conf, uuid) {
        Ok(Some(text)) => Ok(TaskDone::Text(text)),
        Ok(None) => Err(Stop::NotFound),
        Err(fault) => Err(Stop::from(fault)),
    }
}

/// Drains the store on the disks, and puts what the suspects of the case with the UUID account for.
pub(crate) fn explain<K: Sink, D: Disk>(
    alloc: Global,
    uuid: [u8; 16],
    out: &mut K,
    disks: &mut Disks<D>,
) -> Result<(), Stop>
    ensures ran { ExplainRan uuid (sink_at K.Sink out.old) (sink_at K.Sink out.new)
        (disks_at D.Disk disks.old) (disks_at D.Disk disks.new) result }
    ensures same_disks { names_of D.name disks.new ≡ names_of D.name disks.old }
{
    let task = StoreTask::Explain(Uuid::from_bytes(uuid));
    let mut none = NoInput;
    let done = work_store(alloc, &task, &mut none, out, disks)?;
    match done {
        TaskDone::Text(text) => put_bytes(out, text.as_slice()),
        _ => unreachable!(),
    }
}
