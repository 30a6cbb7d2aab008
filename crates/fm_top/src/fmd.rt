// The command `fmd -1`.
ghost use Rattle.std.specs.Prelude.{◌≡◌, ◌≤◌, None, length, map};
ghost use Rattle.fm_act.specs.Reconciled.{actuator_state};
ghost use Rattle.fm_answers.specs.Accounts.{Accounts};
ghost use Rattle.fm_answers.specs.StreamsAt.{source_at, sink_at};
ghost use Rattle.fm_store.specs.Cursors.{AreAtCursors};
ghost use Rattle.fm_store.specs.StoreLeft.{AreSameStore};
ghost use Rattle.dx_engine.specs.Diagnosers.{diagnosers};
ghost use Rattle.fm_top.specs.Calls.{names_of};
ghost use Rattle.fm_top.specs.Fmd.{FmdRan};
ghost use Rattle.fm_top.specs.Outside.{Outside, disks_at};
ghost use Rattle.fm_top.specs.Tasks.{TaskDoes};

use crate::as_read::is_as_read;
use crate::graphed::read_graphed;
use crate::opened::work_store;
use crate::settle::{Settlement, settle};
use crate::tasks::{StoreTask, Streams, TaskDone};
use dx_engine::Diagnoser;
use fm_act::ActCalls;
use fm_answers::{Stop, run};
use fm_conclude::conclude;
use fm_core::Hand;
use fm_init::Disks;
use fm_outer::{Disk, Sink, Source};
use fm_saved::Conf;
use fm_sources::Sources;
use fm_store::Store;
use std::alloc::Global;

/// Has an open store take the entry of each line of the input, where its configuration in force is
/// what was read, answers each line, and concludes the store.
pub(crate) fn diagnose_lines<S: Source, K: Sink, D: Disk>(
    streams: &mut Streams<'_, '_, '_, S, K>,
    got: &Sources,
    store: &mut Store<D, Diagnoser>,
    hands: Vec<Hand<Diagnoser>>,
    conf: &Conf,
) -> Result<TaskDone, Stop>
    requires ready { store.old.logs.closed ≡ None }
    requires few { length hands.items ≤ 8 }
    requires at_cursors { AreAtCursors diagnosers store.old.logs hands.items }
    ensures does { TaskDoes D.Disk (StoreTask.Fmd got.now) store.old store.new hands.items conf.now
        (source_at S.Source streams.old.input.now) (source_at S.Source streams.new.input.now)
        (sink_at K.Sink streams.old.out.now) (sink_at K.Sink streams.new.out.now) result }
    ensures counts_input { Accounts Stop.Read (S.failures streams.old.input.now)
        (S.failures streams.new.input.now) result }
    ensures counts_out { Accounts Stop.Write (K.failures streams.old.out.now)
        (K.failures streams.new.out.now) result }
    ensures same_disks { AreSameStore D.Disk store.old store.new }
    ensures same_input { streams.new.input.ghost_name ≡ streams.old.input.ghost_name }
    ensures same_out { streams.new.out.ghost_name ≡ streams.old.out.ghost_name }
{
    if !is_as_read(conf, got) {
        return Err(Stop::Differs);
    }
    match run(streams.alloc, streams.input, streams.out, store) {
        Ok(()) => match conclude(store, streams.alloc, hands) {
            Ok(conclusion) => Ok(TaskDone::Concluded(conclusion)),
            Err(fault) => Err(Stop::from(fault)),
        },
        Err(stop) => Err(stop),
    }
}

/// Reads the rule files and the topology, has the store on the disks take the entry of each line of
/// the input, answers each line, concludes the store, and settles what comes of that.
pub(crate) fn fmd<S: Source, K: Sink, D: Disk, A: ActCalls>(
    alloc: Global,
    input: &mut S,
    rules: &mut [S],
    topo: &mut S,
    out: &mut K,
    disks: &mut Disks<D>,
    acts: &mut [A],
) -> Result<(), Stop>
    requires { length rules.old ≤ 8 }
    ensures ran { let before : Outside = record {
      input = source_at S.Source input.old;
      rules = map (source_at S.Source) rules.old;
      topo = source_at S.Source topo.old;
      out = sink_at K.Sink out.old;
      disks = disks_at D.Disk disks.old;
      acts = map (λ a. actuator_state (A.kind_text a) (A.held a) (A.act_failures a)) acts.old;
    } in
        let after : Outside = record {
          input = source_at S.Source input.new;
          rules = map (source_at S.Source) rules.new;
          topo = source_at S.Source topo.new;
          out = sink_at K.Sink out.new;
          disks = disks_at D.Disk disks.new;
          acts = map (λ a. actuator_state (A.kind_text a) (A.held a) (A.act_failures a)) acts.new;
        } in
        FmdRan before after result }
    ensures same_disks { names_of D.name disks.new ≡ names_of D.name disks.old }
{
    let got = read_graphed(alloc, rules, topo)?;
    let task = StoreTask::Fmd(got);
    let done = work_store(alloc, &task, input, out, disks)?;
    match done {
        TaskDone::Concluded(conclusion) => {
            let settlement = Settlement {
                wanted: conclusion.wanted,
                text: conclusion.summary,
            };
            settle(alloc, &settlement, acts, out)
        }
        _ => unreachable!(),
    }
}
