// Runs of a store: it is opened, makes steps, and is closed.
ghost use Rattle.std.specs.Prelude.{IfOk};
ghost use Rattle.fm_store.specs.StoreCalls.{AreAtEnd};
ghost use Rattle.test_small_store.specs.Small.{HasHandsAtCursors};

use crate::steps::Step;
use crate::store_bytes::{CallCounts, FailingCalls, StoreBytes, bytes_left, disks_with};
use fm_drain::{drain, drain_to_base};
use fm_logs::{DiskName, Disks, StoreFault};
use fm_outer::{Image, MemDisk, NoMemory};
use std::alloc::Global;
use test_small_store::{SmallStore, Stopped, Told, opened};

/// What a run came to: how many reports it took, and what the store told at its end; or what it
/// met, and what later calls answered then.
#[derive(Clone, Copy, Drop)]
pub struct RunAnswer {
    pub taken: u64,
    pub told: Told,
    pub fault: Option<StoreFault>,
    pub closed: Option<(DiskName, u64)>,
}

/// What a run left: the bytes of the disks, how many calls of each were made, and what it came to.
#[derive(Drop)]
pub struct Ran {
    pub left: StoreBytes,
    pub calls: CallCounts,
    pub answer: RunAnswer,
}

/// Lets both modules take all entries, and commits what they say.
fn drained(alloc: Global, small: SmallStore) -> Result<SmallStore, Stopped>
    requires ready { HasHandsAtCursors small }
    ensures ready { IfOk result HasHandsAtCursors }
    ensures at_end { IfOk result (λ small. AreAtEnd small.store.logs) }
{
    let SmallStore {
        mut store,
        hands,
        taken,
    } = small;
    let (hands, done) = drain(&mut store, alloc, hands);
    let small = SmallStore {
        store,
        hands,
        taken,
    };
    match done {
        Ok(()) => Ok(small),
        Err(fault) => Err(small.stop(alloc, fault)),
    }
}

/// Drains the store with its base at its end.
fn to_base(alloc: Global, small: SmallStore) -> Result<SmallStore, Stopped>
    requires { HasHandsAtCursors small }
    ensures { IfOk result HasHandsAtCursors }
{
    let SmallStore {
        mut store,
        hands,
        taken,
    } = small;
    let (hands, done) = drain_to_base(&mut store, alloc, hands);
    let small = SmallStore {
        store,
        hands,
        taken,
    };
    match done {
        Ok(()) => Ok(small),
        Err(fault) => Err(small.stop(alloc, fault)),
    }
}

/// Drains the store, and writes a checkpoint.
fn to_checkpoint(alloc: Global, small: SmallStore) -> Result<SmallStore, Stopped>
    requires { HasHandsAtCursors small }
    ensures { IfOk result HasHandsAtCursors }
{
    match drained(alloc, small) {
        Ok(small) => small.checkpoint(alloc),
        Err(stopped) => Err(stopped),
    }
}

/// Drains the store, and rotates the error journals.
fn to_rotation(alloc: Global, small: SmallStore) -> Result<SmallStore, Stopped>
    requires { HasHandsAtCursors small }
    ensures { IfOk result HasHandsAtCursors }
{
    match drained(alloc, small) {
        Ok(small) => small.rotate(alloc),
        Err(stopped) => Err(stopped),
    }
}

/// Makes a step.
fn make(alloc: Global, small: SmallStore, step: Step) -> Result<SmallStore, Stopped>
    requires { HasHandsAtCursors small }
    ensures { IfOk result HasHandsAtCursors }
{
    match step {
        Step::Take(count) => small.take(alloc, count),
        Step::Mixed(count) => small.take_mixed(alloc, count),
        Step::Drain => drained(alloc, small),
        Step::Checkpoint => to_checkpoint(alloc, small),
        Step::Rotate => to_rotation(alloc, small),
        Step::End => to_base(alloc, small),
    }
}

/// Opens the store on the disks, and makes the steps.
fn make_all(alloc: Global, disks: Disks<MemDisk>, steps: &[Step]) -> Result<SmallStore, Stopped> {
    let mut small = opened(alloc, disks)?;
    'steps: for step in steps {
        small = make(alloc, small, *step)?;
    }
    Ok(small)
}

/// What the steps left.
fn ended(steps: Result<SmallStore, Stopped>) -> (Disks<MemDisk>, RunAnswer) {
    match steps {
        Ok(small) => {
            let told = small.told();
            let (disks, taken) = small.close();
            let answer = RunAnswer {
                taken,
                told,
                fault: None,
                closed: None,
            };
            (disks, answer)
        }
        Err(stopped) => {
            let answer = RunAnswer {
                taken: stopped.taken,
                told: (0, 0, 0, 0),
                fault: Some(stopped.fault),
                closed: stopped.closed,
            };
            (stopped.disks, answer)
        }
    }
}

/// What the disks have behind a run, or what a crash with this image leaves of them.
fn left_behind(
    alloc: Global,
    ended: (Disks<MemDisk>, RunAnswer),
    image: Option<Image>,
) -> Result<Ran, NoMemory> {
    let (disks, answer) = ended;
    let calls = CallCounts::on(&disks);
    let left = bytes_left(alloc, disks, image)?;
    Ok(Ran {
        left,
        calls,
        answer,
    })
}

/// The run of these steps over disks with these bytes, and a crash at its end where there is an
/// image of it.
pub fn run(
    alloc: Global,
    bytes: &StoreBytes,
    failing: FailingCalls,
    steps: &[Step],
    image: Option<Image>,
) -> Result<Ran, NoMemory> {
    let disks = disks_with(alloc, bytes, failing)?;
    left_behind(alloc, ended(make_all(alloc, disks, steps)), image)
}

/// How many calls of the disk an opening makes.
pub fn calls_of_opening(
    alloc: Global,
    bytes: &StoreBytes,
    name: DiskName,
) -> Result<u64, NoMemory> {
    let ran = run(alloc, bytes, FailingCalls::None, &[], None)?;
    Ok(ran.calls.of(name))
}
