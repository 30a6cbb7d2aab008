// The operator's commands that accept what is said of repairs.
ghost use Rattle.std.specs.Prelude.{◌≡◌, ◌≤◌, Err, None, length, map, IfOk};
ghost use Rattle.fm_act.specs.Reconciled.{actuator_state};
ghost use Rattle.fm_answers.specs.Answers.{ok_text};
ghost use Rattle.fm_answers.specs.StreamsAt.{SinkAt, SourceAt, sink_at};
ghost use Rattle.fm_store.specs.Cursors.{AreAtCursors};
ghost use Rattle.fm_store.specs.StoreLeft.{AreSameStore};
ghost use Rattle.dx_engine.specs.Diagnosers.{diagnosers};
ghost use Rattle.fm_top.specs.Calls.{names_of};
ghost use Rattle.fm_top.specs.Fmd.{SettlingEnds};
ghost use Rattle.fm_top.specs.Outside.{disks_at};
ghost use Rattle.fm_top.specs.Repair.{RepairRan};
ghost use Rattle.fm_top.specs.Tasks.{TaskDoes};

use crate::no_input::NoInput;
use crate::opened::work_store;
use crate::settle::{Settlement, settle};
use crate::tasks::{StoreTask, TaskDone};
use dx_engine::Diagnoser;
use fm_act::ActCalls;
use fm_admin::Repaired;
use fm_answers::Stop;
use fm_bytes::NoMemory;
use fm_command::RepairRequest;
use fm_core::Hand;
use fm_init::Disks;
use fm_outer::{Disk, Sink};
use fm_saved::Conf;
use fm_store::Store;
use std::alloc::Global;

/// Drains an open store that has this configuration in force, and has it accept what the operator
/// said, where that marks a suspect; then it is drained again.
pub(crate) fn repair_store<D: Disk>(
    alloc: Global,
    request: &RepairRequest,
    store: &mut Store<D, Diagnoser>,
    hands: Vec<Hand<Diagnoser>>,
    conf: &Conf,
) -> Result<TaskDone, Stop>
    requires ready { store.old.logs.closed ≡ None }
    requires few { length hands.items ≤ 8 }
    requires at_cursors { AreAtCursors diagnosers store.old.logs hands.items }
    ensures does { (input : SourceAt) (out : SinkAt)
        → TaskDoes D.Disk (StoreTask.Repair request.now) store.old store.new hands.items conf.now
        input input out out result }
    ensures no_read { result ≡ Err Stop.Read → ⊥ }
    ensures no_write { result ≡ Err Stop.Write → ⊥ }
    ensures same_disks { AreSameStore D.Disk store.old store.new }
{
    let order = request.order(conf.namespace)?;
    match fm_admin::repair(store, alloc, hands, &order) {
        Ok(Some(repaired)) => Ok(TaskDone::Repaired(repaired)),
        Ok(None) => Err(Stop::NotFaulty),
        Err(fault) => Err(Stop::from(fault)),
    }
}

/// The line that tells that the entry of this number was accepted.
fn ok_line(alloc: Global, number: u64) -> Result<Vec<u8>, NoMemory>
    ensures { IfOk result (λ text. text.items ≡ ok_text number) }
{
    let text = format!(in alloc; "ok {number}\n")?;
    Ok(text.into_bytes())
}

/// Brings each actuator to hold what is wanted of its kind, and tells the number of the entry.
#[tactic(auto, using(fm_answers::proofs::Sinks::appends_none))]
fn settle_repair<K: Sink, A: ActCalls>(
    alloc: Global,
    repaired: Repaired,
    acts: &mut [A],
    out: &mut K,
) -> Result<(), Stop>
    ensures { SettlingEnds repaired.wanted (ok_text repaired.number)
        (map (λ a. actuator_state (A.kind_text a) (A.held a) (A.act_failures a)) acts.old)
        (map (λ a. actuator_state (A.kind_text a) (A.held a) (A.act_failures a)) acts.new)
        (sink_at K.Sink out.old) (sink_at K.Sink out.new) result }
{
    let text = ok_line(alloc, repaired.number)?;
    let settlement = Settlement {
        wanted: repaired.wanted,
        text,
    };
    settle(alloc, &settlement, acts, out)
}

/// Has the store on the disks accept what the operator said, where that marks a suspect, brings the
/// actuators to what is wanted then, and tells the number of the entry.
pub(crate) fn repair<K: Sink, D: Disk, A: ActCalls>(
    alloc: Global,
    request: RepairRequest,
    out: &mut K,
    disks: &mut Disks<D>,
    acts: &mut [A],
) -> Result<(), Stop>
    ensures ran { RepairRan request
        (map (λ a. actuator_state (A.kind_text a) (A.held a) (A.act_failures a)) acts.old)
        (map (λ a. actuator_state (A.kind_text a) (A.held a) (A.act_failures a)) acts.new)
        (sink_at K.Sink out.old) (sink_at K.Sink out.new)
        (disks_at D.Disk disks.old) (disks_at D.Disk disks.new) result }
    ensures same_disks { names_of D.name disks.new ≡ names_of D.name disks.old }
{
    let task = StoreTask::Repair(request);
    let mut none = NoInput;
    let done = work_store(alloc, &task, &mut none, out, disks)?;
    match done {
        TaskDone::Repaired(repaired) => settle_repair(alloc, repaired, acts, out),
        _ => unreachable!(),
    }
}
