// The command `accept`.
ghost use Rattle.std.specs.Prelude.{◌≡◌, List, None};
ghost use Rattle.fm_answers.specs.Accounts.{Accounts};
ghost use Rattle.fm_answers.specs.StreamsAt.{source_at, sink_at};
ghost use Rattle.fm_core.specs.Hands.{HandOf};
ghost use Rattle.fm_saved.specs.declared.conf.Conf.{Conf};
ghost use Rattle.dx_engine.specs.Diagnosers.{DiagnoserOf};
ghost use Rattle.fm_store.specs.StoreLeft.{AreSameStore};
ghost use Rattle.fm_top.specs.Accepting.{AcceptRan};
ghost use Rattle.fm_top.specs.Calls.{names_of};
ghost use Rattle.fm_top.specs.Outside.{disks_at};
ghost use Rattle.fm_top.specs.Tasks.{TaskDoes};

use crate::opened::work_store;
use crate::tasks::{StoreTask, Streams, TaskDone};
use dx_engine::Diagnoser;
use fm_answers::{Stop, run};
use fm_init::Disks;
use fm_outer::{Disk, Sink, Source};
use fm_store::Store;
use std::alloc::Global;

/// Has an open store take the entry of each line of the input, and answers each line.
pub(crate) fn accept_lines<S: Source, K: Sink, D: Disk>(
    streams: &mut Streams<'_, '_, '_, S, K>,
    store: &mut Store<D, Diagnoser>,
) -> Result<TaskDone, Stop>
    requires ready { store.old.logs.closed ≡ None }
    ensures does { (hands : List (HandOf DiagnoserOf)) (conf : Conf)
        → TaskDoes D.Disk StoreTask.Accept store.old store.new hands conf
        (source_at S.Source streams.old.input.now) (source_at S.Source streams.new.input.now)
        (sink_at K.Sink streams.old.out.now) (sink_at K.Sink streams.new.out.now) result }
    ensures counts_input { Accounts Stop.Read (S.failures streams.old.input.now)
        (S.failures streams.new.input.now) result }
    ensures counts_out { Accounts Stop.Write (K.failures streams.old.out.now)
        (K.failures streams.new.out.now) result }
    ensures same_disks { AreSameStore D.Disk store.old store.new }
    ensures same_input { streams.new.input.ghost_name ≡ streams.old.input.ghost_name }
    ensures same_out { streams.new.out.ghost_name ≡ streams.old.out.ghost_name }
{
    match run(streams.alloc, streams.input, streams.out, store) {
        Ok(()) => Ok(TaskDone::Nothing),
        Err(stop) => Err(stop),
    }
}

/// Has the store on the disks take the entry of each line of the input, and answers each line.
pub(crate) fn accept<S: Source, K: Sink, D: Disk>(
    alloc: Global,
    input: &mut S,
    out: &mut K,
    disks: &mut Disks<D>,
) -> Result<(), Stop>
    ensures ran { AcceptRan (source_at S.Source input.old) (source_at S.Source input.new)
        (sink_at K.Sink out.old) (sink_at K.Sink out.new) (disks_at D.Disk disks.old)
        (disks_at D.Disk disks.new) result }
    ensures same_disks { names_of D.name disks.new ≡ names_of D.name disks.old }
{
    match work_store(alloc, &StoreTask::Accept, input, out, disks) {
        Ok(_) => Ok(()),
        Err(stop) => Err(stop),
    }
}
