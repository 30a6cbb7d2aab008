//! The drain of a store, module by module.

ghost use Rattle.std.specs.Prelude.{◌<◌, ◌≤◌, List, length, OnOk};
ghost use Rattle.fm_core.specs.Book.{ModuleState};
ghost use Rattle.fm_logs.specs.StoreBook.{StoreBook};
ghost use Rattle.fm_store.specs.Cursors.{IsAtCursor, AreAtCursors};
ghost use Rattle.fm_store.specs.StoreLeft.{AreSameStore};
ghost use Rattle.fm_store.specs.StoreOf.{StoreStandsFor};
ghost use Rattle.fm_drain.specs.DrainCalls.{AllFollow, DrainDoes, DrainsOnBook};
ghost use Rattle.fm_drain.specs.DrainSteps.{NextDoes};

use crate::steps::drain_hand;
use fm_core::{Hand, Module};
use fm_outer::Disk;
use fm_store::{Store, StoreFault};
use std::alloc::Global;

/// Drains the hand, unless one before it stopped.
fn drain_next<D: Disk, M: Module>(
    store: &mut Store<D, M>,
    alloc: Global,
    hand: Hand<M>,
    so_far: Result<(), StoreFault>,
) -> (Hand<M>, Result<(), StoreFault>)
    requires few { OnOk so_far (hand.number < 8) }
    requires at_cursor { OnOk so_far (IsAtCursor M.Module store.old.logs hand.number hand) }
    ensures { NextDoes D.Disk M.Module store.old store.new hand result.0 so_far result.1 }
{
    match so_far {
        Ok(()) => drain_hand(store, alloc, hand),
        Err(fault) => (hand, Err(fault)),
    }
}

/// Lets the modules take, in order, all entries that they have not taken, and commits each step.
/// There is a hand of each module, at the module's cursor, and it comes back. After `Ok` all have
/// come to the end. After a refusal that of one module may be a step past the module's cursor; what
/// was committed before it stays so.
pub fn drain<D: Disk, M: Module>(
    store: &mut Store<D, M>,
    alloc: Global,
    hands: Vec<Hand<M>>,
) -> (Vec<Hand<M>>, Result<(), StoreFault>)
    requires few { length hands.items ≤ 8 }
    requires at_cursors { AreAtCursors M.Module store.old.logs hands.items }
    ensures does { DrainDoes D.Disk M.Module store.old store.new hands.items result.0.items
        result.1 }
    ensures book { (fresh : List ModuleState) (k : StoreBook)
        → StoreStandsFor D.Disk fresh store.old k → AllFollow M.Module k.book hands.items
        → DrainsOnBook D.Disk M.Module fresh store.old store.new k result.0.items result.1 }
    ensures same_disks { AreSameStore D.Disk store.old store.new }
{
    let Ok(mut back) = Vec::with_capacity(alloc, hands.len()) else {
        return (hands, Err(StoreFault::NoMemory));
    };
    let mut done = Ok(());
    'hands: for hand in hands {
        let (hand, answer) = drain_next(store, alloc, hand, done);
        done = answer;
        back.push_reserved(hand);
    }
    (back, done)
}
