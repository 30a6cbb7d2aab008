// The commands that generate entries of a number.
ghost use Rattle.std.specs.Prelude.{◌≡◌, ◌≤◌, ◌<◌, ◌^◌, IsTrue, List, None, Err, length, map};
ghost use Rattle.std.specs.Prelude.{OnOk, IfOk, IfErr};
ghost use Rattle.std.specs.List.{list_all};
ghost use Rattle.dx_engine.specs.Diagnosers.{DiagnoserOf, diagnosers};
ghost use Rattle.fm_act.specs.Reconciled.{actuator_state};
ghost use Rattle.fm_answers.specs.StreamsAt.{SinkAt, SourceAt, sink_at};
ghost use Rattle.fm_config.specs.Reports.{AreReportsOf};
ghost use Rattle.fm_core.specs.Hands.{HandOf};
ghost use Rattle.fm_name.specs.Category.{is_ereport};
ghost use Rattle.fm_store.specs.Cursors.{AreAtCursors};
ghost use Rattle.fm_store.specs.StoreLeft.{AreSameStore};
ghost use Rattle.fm_store.specs.StoreOf.{greatest_at};
ghost use Rattle.fm_top.specs.Calls.{names_of};
ghost use Rattle.fm_top.specs.Generate.{GenerateRan, LinesRan, StartStops, StoreGenerates};
ghost use Rattle.fm_top.specs.Generate.{TookUntil};
ghost use Rattle.fm_top.specs.Outside.{disks_at};
ghost use Rattle.fm_top.specs.Tasks.{TaskDoes};

use crate::no_input::NoInput;
use crate::opened::work_store;
use crate::settle::{Settlement, settle};
use crate::tasks::{StoreTask, TaskDone};
use dx_engine::Diagnoser;
use fm_act::ActCalls;
use fm_answers::{Stop, Taker, put_bytes};
use fm_conclude::conclude;
use fm_config::conf_reports;
use fm_core::Hand;
use fm_gen::{Gen, generated_lines};
use fm_init::Disks;
use fm_journal::FullKind;
use fm_name::EventName;
use fm_outer::{Disk, Sink};
use fm_saved::Conf;
use fm_store::Store;
use std::alloc::Global;

/// Entries are generated from moments below this one on.
const START_LIMIT: u64 = 1 << 61;

/// The reports of a configuration that a store was opened with, so that none of its texts is
/// refused.
fn reports_of(alloc: Global, conf: &Conf) -> Result<Vec<EventName>, Stop>
    ensures reports { IfOk result (λ reports. AreReportsOf conf.now reports.items) }
    ensures category { IfOk result
        (λ reports. IsTrue (list_all (λ event. is_ereport event.class) reports.items)) }
    ensures wanted { IfErr result (λ stop. stop ≡ Stop.Memory) }
{
    match conf_reports(alloc, conf) {
        Ok(reports) => Ok(reports),
        Err(_) => Err(Stop::Memory),
    }
}

/// What the number generates of the reports of the configuration, from the store's greatest moment
/// on.
fn begin<D: Disk, M>(
    alloc: Global,
    number: u64,
    store: &Store<D, M>,
    conf: &Conf,
) -> Result<Gen, Stop>
    ensures generates { IfOk result (StoreGenerates number store.now conf.now) }
    ensures stops { IfErr result (StartStops (greatest_at store.now)) }
{
    let start = store.greatest();
    if start >= START_LIMIT {
        return Err(Stop::Full(FullKind::Numbers));
    }
    let reports = reports_of(alloc, conf)?;
    Ok(Gen::new(alloc, number, start, reports))
}

/// Has each entry that is still to be generated taken, in order, up to the first that is refused.
fn take_all<T: Taker>(alloc: Global, mut entries: Gen, taker: &mut T) -> Result<(), Stop>
    requires ready { T.ready taker.old }
    ensures all { OnOk result (T.went taker.old taker.new entries None) }
    ensures until { IfErr result (TookUntil (T.went taker.old taker.new) entries) }
    ensures ready { OnOk result (T.ready taker.new) }
    ensures same_taker { T.name taker.new ≡ T.name taker.old }
{
    'entries: loop {
        match entries.next()? {
            Some(entry) => taker.take(alloc, entry)?,
            None => return Ok(()),
        };
    }
}

/// Has an open store that has this configuration in force take what the number generates, and
/// concludes it.
pub(crate) fn generate_entries<D: Disk>(
    alloc: Global,
    number: u64,
    store: &mut Store<D, Diagnoser>,
    hands: Vec<Hand<Diagnoser>>,
    conf: &Conf,
) -> Result<TaskDone, Stop>
    requires ready { store.old.logs.closed ≡ None }
    requires few { length hands.items ≤ 8 }
    requires at_cursors { AreAtCursors diagnosers store.old.logs hands.items }
    ensures does { (input : SourceAt) (out : SinkAt)
        → TaskDoes D.Disk (StoreTask.Generate number) store.old store.new hands.items conf.now
        input input out out result }
    ensures no_read { result ≡ Err Stop.Read → ⊥ }
    ensures no_write { result ≡ Err Stop.Write → ⊥ }
    ensures same_disks { AreSameStore D.Disk store.old store.new }
{
    let entries = begin(alloc, number, store, conf)?;
    match take_all(alloc, entries, store) {
        Ok(()) => match conclude(store, alloc, hands) {
            Ok(conclusion) => Ok(TaskDone::Concluded(conclusion)),
            Err(fault) => Err(Stop::from(fault)),
        },
        Err(stop) => Err(stop),
    }
}

/// Tells the lines of what the number generates, of an open store that has this configuration in
/// force.
pub(crate) fn list_entries<D: Disk>(
    alloc: Global,
    number: u64,
    store: &Store<D, Diagnoser>,
    conf: &Conf,
) -> Result<TaskDone, Stop>
    ensures does { (hands : List (HandOf DiagnoserOf)) (input : SourceAt) (out : SinkAt)
        → TaskDoes D.Disk (StoreTask.GeneratedLines number) store.now store.now hands conf.now
        input input out out result }
    ensures no_read { result ≡ Err Stop.Read → ⊥ }
    ensures no_write { result ≡ Err Stop.Write → ⊥ }
{
    let entries = begin(alloc, number, store, conf)?;
    let text = generated_lines(alloc, entries)?;
    Ok(TaskDone::Text(text))
}

/// Has the store on the disks take what the number generates and concludes it, brings the actuators
/// to what is wanted then, and puts the summary.
pub(crate) fn generate<K: Sink, D: Disk, A: ActCalls>(
    alloc: Global,
    number: u64,
    out: &mut K,
    disks: &mut Disks<D>,
    acts: &mut [A],
) -> Result<(), Stop>
    ensures ran { GenerateRan number
        (map (λ a. actuator_state (A.kind_text a) (A.held a) (A.act_failures a)) acts.old)
        (map (λ a. actuator_state (A.kind_text a) (A.held a) (A.act_failures a)) acts.new)
        (sink_at K.Sink out.old) (sink_at K.Sink out.new)
        (disks_at D.Disk disks.old) (disks_at D.Disk disks.new) result }
    ensures same_disks { names_of D.name disks.new ≡ names_of D.name disks.old }
{
    let task = StoreTask::Generate(number);
    let mut none = NoInput;
    let done = work_store(alloc, &task, &mut none, out, disks)?;
    match done {
        TaskDone::Concluded(conclusion) => {
            let settlement = Settlement {
                wanted: conclusion.wanted,
                text: conclusion.summary,
            };
            settle(alloc, &settlement, acts, out)
        }
        _ => unreachable!(),
    }
}

/// Puts the lines of what the number generates, of the store on the disks.
pub(crate) fn put_generated<K: Sink, D: Disk>(
    alloc: Global,
    number: u64,
    out: &mut K,
    disks: &mut Disks<D>,
) -> Result<(), Stop>
    ensures ran { LinesRan number (sink_at K.Sink out.old) (sink_at K.Sink out.new)
        (disks_at D.Disk disks.old) (disks_at D.Disk disks.new) result }
    ensures same_disks { names_of D.name disks.new ≡ names_of D.name disks.old }
{
    let task = StoreTask::GeneratedLines(number);
    let mut none = NoInput;
    let done = work_store(alloc, &task, &mut none, out, disks)?;
    match done {
        TaskDone::Text(text) => put_bytes(out, text.as_slice()),
        _ => unreachable!(),
    }
}
