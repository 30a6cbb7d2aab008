// A store that is opened on six disks that are lent, what is done with it, and the disks back.
ghost use Rattle.std.specs.Prelude.{◌≡◌, ◌≤◌, None, length};
ghost use Rattle.fm_answers.specs.Accounts.{Accounts};
ghost use Rattle.fm_answers.specs.StreamsAt.{source_at, sink_at};
ghost use Rattle.fm_logs.specs.Contents.{AreSameDisks};
ghost use Rattle.fm_store.specs.Cursors.{AreAtCursors};
ghost use Rattle.fm_store.specs.StoreLeft.{AreSameStore};
ghost use Rattle.dx_engine.specs.Diagnosers.{diagnosers};
ghost use Rattle.fm_top.specs.Calls.{names_of, six};
ghost use Rattle.fm_top.specs.Outside.{disks_at};
ghost use Rattle.fm_top.specs.Tasks.{TaskDoes, TaskRan};

use crate::accept::accept_lines;
use crate::admin::tell_text;
use crate::explaining::explain_store;
use crate::fmd::diagnose_lines;
use crate::generating::{generate_entries, list_entries};
use crate::repairing::repair_store;
use crate::tasks::{StoreTask, Streams, TaskDone};
use dx_engine::Diagnoser;
use fm_answers::Stop;
use fm_core::Hand;
use fm_init::Disks;
use fm_lent::Lent;
use fm_modules::open_store;
use fm_outer::{Disk, Sink, Source};
use fm_saved::Conf;
use fm_store::Store;
use std::alloc::Global;

/// Does the task with an open store.
fn do_task<S: Source, K: Sink, D: Disk>(
    streams: &mut Streams<'_, '_, '_, S, K>,
    store: &mut Store<D, Diagnoser>,
    hands: Vec<Hand<Diagnoser>>,
    conf: &Conf,
) -> Result<TaskDone, Stop>
    requires ready { store.old.logs.closed ≡ None }
    requires few { length hands.items ≤ 8 }
    requires at_cursors { AreAtCursors diagnosers store.old.logs hands.items }
    ensures does { TaskDoes D.Disk streams.old.task.now store.old store.new hands.items conf.now
        (source_at S.Source streams.old.input.now) (source_at S.Source streams.new.input.now)
        (sink_at K.Sink streams.old.out.now) (sink_at K.Sink streams.new.out.now) result }
    ensures counts_input { Accounts Stop.Read (S.failures streams.old.input.now)
        (S.failures streams.new.input.now) result }
    ensures counts_out { Accounts Stop.Write (K.failures streams.old.out.now)
        (K.failures streams.new.out.now) result }
    ensures same_disks { AreSameStore D.Disk store.old store.new }
    ensures same_input { streams.new.input.ghost_name ≡ streams.old.input.ghost_name }
    ensures same_out { streams.new.out.ghost_name ≡ streams.old.out.ghost_name }
{
    match streams.task {
        StoreTask::Accept => accept_lines(streams, store),
        StoreTask::Fmd(got) => diagnose_lines(streams, got, store, hands, conf),
        StoreTask::Admin(asked) => tell_text(streams.alloc, asked, store, hands, conf),
        StoreTask::Repair(request) => repair_store(streams.alloc, request, store, hands, conf),
        StoreTask::Explain(uuid) => explain_store(streams.alloc, uuid, store, hands, conf),
        StoreTask::Generate(number) => {
            generate_entries(streams.alloc, *number, store, hands, conf)
        }
        StoreTask::GeneratedLines(number) => list_entries(streams.alloc, *number, store, conf),
    }
}

/// Opens the store on the disks, does the task with it, and gives the disks back. How it ran stands
/// in `ran` afterwards.
fn task_on<S: Source, K: Sink, D: Disk>(
    streams: &mut Streams<'_, '_, '_, S, K>,
    ran: &mut Result<TaskDone, Stop>,
    disks: Disks<D>,
) -> Disks<D>
    ensures ran { TaskRan streams.old.task.now (source_at S.Source streams.old.input.now)
        (source_at S.Source streams.new.input.now) (sink_at K.Sink streams.old.out.now)
        (sink_at K.Sink streams.new.out.now) (disks_at D.Disk disks) (disks_at D.Disk result)
        ran.new }
    ensures same_disks { AreSameDisks D.Disk disks result }
    ensures same_input { streams.new.input.ghost_name ≡ streams.old.input.ghost_name }
    ensures same_out { streams.new.out.ghost_name ≡ streams.old.out.ghost_name }
{
    match open_store(streams.alloc, disks) {
        Ok(opened) => {
            let mut store = opened.store;
            *ran = do_task(streams, &mut store, opened.hands, &opened.conf);
            store.into_disks()
        }
        Err(refused) => {
            *ran = Err(Stop::from(refused.fault));
            refused.disks
        }
    }
}

/// Opens the store on six disks that are lent, does the task with it, and gives the disks back. How
/// it ran stands in `ran` afterwards.
fn task_lent<'a, S: Source, K: Sink, D: Disk>(
    streams: &mut Streams<'_, '_, '_, S, K>,
    ran: &mut Result<TaskDone, Stop>,
    disks: Disks<Lent<'a, D>>,
) -> Disks<Lent<'a, D>>
    ensures ran { TaskRan streams.old.task.now (source_at S.Source streams.old.input.now)
        (source_at S.Source streams.new.input.now) (sink_at K.Sink streams.old.out.now)
        (sink_at K.Sink streams.new.out.now)
        (disks_at D.Disk (six disks.entry.conf.disk.now disks.entry.err_a.disk.now
        disks.entry.err_b.disk.now disks.entry.slot_a.disk.now disks.entry.slot_b.disk.now
        disks.entry.flt.disk.now))
        (disks_at D.Disk (six result.conf.disk.now result.err_a.disk.now
        result.err_b.disk.now result.slot_a.disk.now result.slot_b.disk.now
        result.flt.disk.now)) ran.new }
    ensures same_conf { result.conf.disk.ghost_name ≡ disks.entry.conf.disk.ghost_name }
    ensures same_err_a { result.err_a.disk.ghost_name ≡ disks.entry.err_a.disk.ghost_name }
    ensures same_err_b { result.err_b.disk.ghost_name ≡ disks.entry.err_b.disk.ghost_name }
    ensures same_slot_a { result.slot_a.disk.ghost_name ≡ disks.entry.slot_a.disk.ghost_name }
    ensures same_slot_b { result.slot_b.disk.ghost_name ≡ disks.entry.slot_b.disk.ghost_name }
    ensures same_flt { result.flt.disk.ghost_name ≡ disks.entry.flt.disk.ghost_name }
    ensures same_disks { names_of D.name
        (six result.conf.disk.now result.err_a.disk.now result.err_b.disk.now
        result.slot_a.disk.now result.slot_b.disk.now result.flt.disk.now)
        ≡ names_of D.name (six disks.entry.conf.disk.now disks.entry.err_a.disk.now
        disks.entry.err_b.disk.now disks.entry.slot_a.disk.now disks.entry.slot_b.disk.now
        disks.entry.flt.disk.now) }
    ensures same_input { streams.new.input.ghost_name ≡ streams.old.input.ghost_name }
    ensures same_out { streams.new.out.ghost_name ≡ streams.old.out.ghost_name }
{
    task_on(streams, ran, disks)
}

/// Does the task with the store on six disks.
fn task_each<'a, S: Source, K: Sink, D: Disk>(
    streams: &mut Streams<'_, '_, '_, S, K>,
    conf: &'a mut D,
    err_a: &'a mut D,
    err_b: &'a mut D,
    slot_a: &'a mut D,
    slot_b: &'a mut D,
    flt: &'a mut D,
) -> Result<TaskDone, Stop>
    ensures ran { TaskRan streams.old.task.now (source_at S.Source streams.old.input.now)
        (source_at S.Source streams.new.input.now) (sink_at K.Sink streams.old.out.now)
        (sink_at K.Sink streams.new.out.now) (disks_at D.Disk
        (six conf.old err_a.old err_b.old slot_a.old slot_b.old flt.old))
        (disks_at D.Disk (six conf.new err_a.new err_b.new slot_a.new slot_b.new flt.new)) result }
    ensures same_disks { names_of D.name
        (six conf.new err_a.new err_b.new slot_a.new slot_b.new flt.new)
        ≡ names_of D.name (six conf.old err_a.old err_b.old slot_a.old slot_b.old flt.old) }
    ensures same_input { streams.new.input.ghost_name ≡ streams.old.input.ghost_name }
    ensures same_out { streams.new.out.ghost_name ≡ streams.old.out.ghost_name }
{
    let lent = Disks {
        conf: Lent { disk: conf },
        err_a: Lent { disk: err_a },
        err_b: Lent { disk: err_b },
        slot_a: Lent { disk: slot_a },
        slot_b: Lent { disk: slot_b },
        flt: Lent { disk: flt },
    };
    let mut ran = Err(Stop::Memory);
    let _back = task_lent(streams, &mut ran, lent);
    ran
}

/// Opens the store on the disks, and does the task with it.
pub(crate) fn work_store<S: Source, K: Sink, D: Disk>(
    alloc: Global,
    task: &StoreTask,
    input: &mut S,
    out: &mut K,
    disks: &mut Disks<D>,
) -> Result<TaskDone, Stop>
    ensures ran { TaskRan task.now (source_at S.Source input.old) (source_at S.Source input.new)
        (sink_at K.Sink out.old) (sink_at K.Sink out.new) (disks_at D.Disk disks.old)
        (disks_at D.Disk disks.new) result }
    ensures same_disks { names_of D.name disks.new ≡ names_of D.name disks.old }
{
    let mut streams = Streams {
        alloc,
        task,
        input,
        out,
    };
    task_each(
        &mut streams,
        &mut disks.conf,
        &mut disks.err_a,
        &mut disks.err_b,
        &mut disks.slot_a,
        &mut disks.slot_b,
        &mut disks.flt,
    )
}
