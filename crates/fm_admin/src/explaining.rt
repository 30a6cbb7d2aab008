//! A store that is drained, and what the suspects of one of its cases account for.

ghost use Rattle.std.specs.Option.{option_map};
ghost use Rattle.std.specs.Prelude.{◌≡◌, ◌≤◌, List, length, IfOk, IfErr, OnOk};
ghost use Rattle.fm_admin.specs.Explaining.{IsExplanationOf, IsGraphOfRow, IsTextOfFound};
ghost use Rattle.fm_admin.specs.Explaining.{IsTextOfRow, TextHasGraph};
ghost use Rattle.fm_admin.specs.Rows.{row_with};
ghost use Rattle.fm_admin.specs.Telling.{TellRefused, TellsBook, WasDrained};
ghost use Rattle.fm_core.specs.Book.{ModuleState};
ghost use Rattle.fm_core.specs.Drained.{drained};
ghost use Rattle.fm_drain.specs.DrainCalls.{AllFollow};
ghost use Rattle.fm_logs.specs.StoreBook.{StoreBook, force_now};
ghost use Rattle.fm_logs.specs.declared.disks.DiskName.TheVariants.{Flt};
ghost use Rattle.fm_store.specs.Cursors.{AreAtCursors};
ghost use Rattle.fm_store.specs.StoreLeft.{AreSameStore};
ghost use Rattle.fm_store.specs.StoreOf.{StoreStandsFor};

use crate::named_rows::find_row;
use crate::telling::drain_status;
use ev_graph::Graph;
use ev_inst::instantiate;
use fm_bytes::NoMemory;
use fm_core::{Hand, Module};
use fm_entry::ListEvent;
use fm_explain::put_explained;
use fm_outer::Disk;
use fm_saved::{Conf, ConfText};
use fm_sources::read_rules;
use fm_status::Status;
use fm_store::{Store, StoreFault};
use fm_topo::read_topo;
use std::alloc::Global;
use uuid::Uuid;

/// The graph of a rule file over a topology. A store that was opened keeps no text that is refused,
/// so that a refusal is not told apart from want of memory.
fn file_graph(alloc: Global, topo: &ConfText, text: &ConfText) -> Result<Graph, NoMemory>
    ensures { IfOk result (TextHasGraph topo.now text.now) }
{
    let topo = match read_topo(alloc, topo.get()) {
        Ok(topo) => topo,
        Err(_) => return Err(NoMemory),
    };
    let checked = match read_rules(alloc, text.get()) {
        Ok(checked) => checked,
        Err(_) => return Err(NoMemory),
    };
    match instantiate(alloc, &checked, &topo) {
        Ok(made) => Ok(made.graph),
        Err(_) => Err(NoMemory),
    }
}

/// The graph of a row's configuration, where that is the one in force.
fn row_graph(
    alloc: Global,
    conf: &Conf,
    in_force: u32,
    row: &ListEvent,
) -> Result<Option<Graph>, NoMemory>
    ensures { IfOk result (IsGraphOfRow conf.now in_force row.now) }
{
    if row.conf != in_force {
        return Ok(None);
    }
    match conf.rules.as_slice().get(row.case.module as usize) {
        Some(text) => Ok(Some(file_graph(alloc, &conf.topo, text)?)),
        None => Ok(None),
    }
}

/// The text of a row.
fn row_text(alloc: Global, conf: &Conf, in_force: u32, row: &ListEvent) -> Result<Vec<u8>, NoMemory>
    ensures { IfOk result (λ text. IsTextOfRow conf.now in_force row.now text.items) }
{
    let graph = row_graph(alloc, conf, in_force, row)?;
    let mut text = Vec::new(alloc);
    put_explained(alloc, graph.as_ref(), row, &mut text)?;
    Ok(text)
}

/// The text of the first row that has the UUID, if one has it.
fn explained_of(
    alloc: Global,
    conf: &Conf,
    in_force: u32,
    uuid: &Uuid,
    status: &Status,
) -> Result<Option<Vec<u8>>, NoMemory>
    ensures { IfOk result (λ text. IsTextOfFound conf.now in_force
        (row_with conf.now.namespace uuid.now status.now) (option_map (λ t. t.items) text)) }
{
    let rows = status.rows(alloc)?;
    match find_row(&conf.namespace, uuid, &rows) {
        Some(row) => Ok(Some(row_text(alloc, conf, in_force, row)?)),
        None => Ok(None),
    }
}

/// Drains a store that has this configuration in force, and tells what each suspect of the case
/// with the UUID accounts for, in the graph of the case's configuration. `None` where no case has
/// it. No checkpoint is written.
pub fn explain<D: Disk, M: Module>(
    store: &mut Store<D, M>,
    alloc: Global,
    hands: Vec<Hand<M>>,
    conf: &Conf,
    uuid: &Uuid,
) -> Result<Option<Vec<u8>>, StoreFault>
    requires few { length hands.items ≤ 8 }
    requires at_cursors { AreAtCursors M.Module store.old.logs hands.items }
    ensures drained { OnOk result (WasDrained D.Disk store.old store.new) }
    ensures refused { IfErr result
        (TellRefused D.Disk M.Module Flt store.old store.new hands.items) }
    ensures book { (fresh : List ModuleState) (k : StoreBook)
        → StoreStandsFor D.Disk fresh store.old k → AllFollow M.Module k.book hands.items
        → TellsBook D.Disk fresh Flt store.old store.new k result
        (λ now text. IsExplanationOf conf.now (force_now k) uuid.now (drained k.book)
        (option_map (λ t. t.items) text)) }
    ensures same_disks { AreSameStore D.Disk store.old store.new }
{
    let in_force = store.conf_now();
    let (_hands, status) = drain_status(store, alloc, hands)?;
    Ok(explained_of(alloc, conf, in_force, uuid, &status)?)
}
