//! The modules of a store at its base.

ghost use Rattle.std.specs.Prelude.{◌≡◌, ◌≢◌, ℕ, List, length, IfOk, IfErr, OnOk, IsTrue, Some};
ghost use Rattle.std.specs.Prelude.{None, true, false};
ghost use Rattle.std.specs.Option.{ForSome};
ghost use Rattle.fm_core.specs.Book.{ModuleState};
ghost use Rattle.fm_core.specs.Meaning.{IsNoSave, holds_of, saved_of};
ghost use Rattle.fm_core.specs.declared.module.LoadFault.TheVariants.{Bad};
ghost use Rattle.fm_logs.specs.ReadsAsBook.{AreLoaded};
ghost use Rattle.fm_logs.specs.StoreBook.{HaveConf};
ghost use Rattle.fm_store.specs.Loading.{states_of, AreSilent, AreAtBase, BaseRefused};
ghost use Rattle.fm_store.specs.StoreOf.{made_modules};

use fm_bytes::{Items, NoMemory};
use fm_core::{LoadFault, Module};
use fm_logs::StoreFault;
use fm_looks::slot_disk;
use fm_retrace::Retraced;
use fm_saved::{SavedBytes, SavedStates};
use std::alloc::Global;

/// The modules at the base, which have spoken nothing yet, and the saves of their states.
#[derive(Drop)]
pub(crate) struct AtBase<M> {
    pub(crate) modules: Vec<Retraced<M>>,
    pub(crate) saves: SavedStates,
}

/// The module in the state of which these bytes are the save.
fn load_one<M: Module>(
    alloc: Global,
    object: M,
    save: &SavedBytes,
) -> Result<Retraced<M>, LoadFault>
    ensures made { IfOk result (λ own. M.meaning own.object ≡ M.meaning object) }
    ensures holds { IfOk result (λ own. IsTrue (holds_of (M.meaning object) (M.state own.object))) }
    ensures saved { IfOk result (λ own.
        saved_of (M.meaning object) (M.state own.object) ≡ save.now) }
    ensures silent { IfOk result (λ own. own.past ≡ 0) }
    ensures bad { result ≡ Err Bad → IsNoSave (M.meaning object) save.now }
{
    let mut object = object;
    match object.load(alloc, save.get()) {
        Ok(()) => Ok(Retraced { object, past: 0 }),
        Err(fault) => Err(fault),
    }
}

/// The modules in the states of which these are the saves.
fn load_all<M: Module>(
    alloc: Global,
    fresh: Vec<M>,
    saves: &[SavedBytes],
) -> Result<Vec<Retraced<M>>, LoadFault>
    requires as_many { length saves.now ≡ length fresh.items }
    ensures loaded { IfOk result (λ modules. AreLoaded (made_modules M.Module fresh.items) saves.now
        (states_of M.Module modules.items)) }
    ensures silent { IfOk result (λ modules. AreSilent modules.items) }
    ensures bad { result ≡ Err Bad → (modules : List ModuleState)
        → AreLoaded (made_modules M.Module fresh.items) saves.now modules → ⊥ }
{
    let mut rest = fresh;
    let mut modules = Vec::new(alloc);
    'saves: for save in saves {
        let object = rest.remove(0);
        modules.push(load_one(alloc, object, save)?)?;
    }
    Ok(modules)
}

/// The modules in the states that they were made in.
fn begin_all<M: Module>(alloc: Global, fresh: Vec<M>) -> Result<Vec<Retraced<M>>, NoMemory>
    ensures same { IfOk result (λ modules.
        states_of M.Module modules.items ≡ made_modules M.Module fresh.items) }
    ensures silent { IfOk result (λ modules. AreSilent modules.items) }
{
    let mut rest = fresh;
    let mut modules = Vec::new(alloc);
    'rest: while !rest.is_empty() {
        let object = rest.remove(0);
        modules.push(Retraced { object, past: 0 })?;
    }
    Ok(modules)
}

/// The saves of the states that modules were made in.
fn save_all<M: Module>(alloc: Global, modules: &[M]) -> Result<SavedStates, NoMemory>
    ensures { IfOk result (λ saves. AreLoaded (made_modules M.Module modules.now) saves
        (made_modules M.Module modules.now)) }
{
    let mut saves = Vec::new(alloc);
    'modules: for object in modules {
        let mut bytes = Vec::new(alloc);
        object.save(&mut bytes)?;
        saves.push(SavedBytes::new(alloc, &bytes)?)?;
    }
    Ok(Items::new(saves))
}

/// Whether a configuration, if there is one, is the one in force.
fn is_in_force(conf: Option<u32>, in_force: u32) -> bool
    ensures yes { result ≡ true → ForSome conf (λ n. n ≡ in_force) }
    ensures no { result ≡ false → ForSome conf (λ n. n ≡ in_force) → ⊥ }
{
    match conf {
        Some(number) => number == in_force,
        None => true,
    }
}

/// Whether all modules that have a configuration have the one in force.
fn are_in_force<M: Module>(modules: &[Retraced<M>], in_force: u32) -> bool
    ensures yes { result ≡ true → HaveConf in_force (states_of M.Module modules.now) }
    ensures no { result ≡ false → HaveConf in_force (states_of M.Module modules.now) → ⊥ }
{
    'modules: for own in modules {
        if !is_in_force(own.object.conf(), in_force) {
            return false;
        }
    }
    true
}

/// The modules of the states that are saved in the slot in force. `Damaged` where there are none.
fn load_base<M: Module>(
    alloc: Global,
    second: bool,
    in_force: u32,
    states: SavedStates,
    fresh: Vec<M>,
) -> Result<AtBase<M>, StoreFault>
    ensures loaded { IfOk result (λ base. AreLoaded (made_modules M.Module fresh.items) base.saves
        (states_of M.Module base.modules.items)) }
    ensures silent { IfOk result (λ base. AreSilent base.modules.items) }
    ensures saves { IfOk result (λ base. base.saves ≡ states) }
    ensures conf { IfOk result (λ base. HaveConf in_force (states_of M.Module base.modules.items)) }
    ensures cause { (sequence : ℕ) → IfErr result (BaseRefused (made_modules M.Module fresh.items)
        (Some (second, sequence)) in_force states) }
{
    let damaged = StoreFault::Damaged {
        disk: slot_disk(second),
        place: 13,
    };
    if states.len() != fresh.len() {
        return Err(damaged);
    }
    match load_all(alloc, fresh, states.as_slice()) {
        Ok(modules) => {
            if are_in_force(modules.as_slice(), in_force) {
                let saves = states;
                Ok(AtBase { modules, saves })
            } else {
                Err(damaged)
            }
        }
        Err(LoadFault::Bad) => Err(damaged),
        Err(LoadFault::NoMemory) => Err(StoreFault::NoMemory),
    }
}

/// The modules at the base: of the states in the slot in force, or as they were made where no slot
/// is open.
pub(crate) fn modules_at_base<M: Module>(
    alloc: Global,
    newest: Option<(bool, u64)>,
    in_force: u32,
    states: SavedStates,
    fresh: Vec<M>,
    kept: &[M],
) -> Result<AtBase<M>, StoreFault>
    requires alike { made_modules M.Module fresh.items ≡ made_modules M.Module kept.now }
    ensures loaded { IfOk result (λ base. AreLoaded (made_modules M.Module kept.now) base.saves
        (states_of M.Module base.modules.items)) }
    ensures silent { IfOk result (λ base. AreSilent base.modules.items) }
    ensures at_base { IfOk result (λ base. AreAtBase (made_modules M.Module kept.now) newest
        in_force states base.saves (states_of M.Module base.modules.items)) }
    ensures cause { IfErr result
        (BaseRefused (made_modules M.Module kept.now) newest in_force states) }
{
    match newest {
        Some((second, _)) => load_base(alloc, second, in_force, states, fresh),
        None => {
            let saves = save_all(alloc, kept)?;
            let modules = begin_all(alloc, fresh)?;
            Ok(AtBase { modules, saves })
        }
    }
}
