//! The modules of configurations.

ghost use Rattle.std.specs.Prelude.{◌≡◌, ◌<◌, ◌≤◌, ℕ, [], ◌∷◌, All, IfOk, IfErr, length, map};
ghost use Rattle.dx_rules.specs.Rulebooks.{ruled_of};
ghost use Rattle.fm_init.specs.Making.{AreFirstModules};
ghost use Rattle.fm_looks.specs.Looks.{AreKeptConfs};
ghost use Rattle.fm_store.specs.Adopting.{KnowAll};
ghost use Rattle.fm_store.specs.StoreOf.{made_modules};
ghost use Rattle.fm_modules.specs.KeptTexts.{conf_rows, conf_row};
ghost use Rattle.fm_modules.specs.Modules.{AreModulesOf, ModulesCause, configurations_at};
ghost use Rattle.fm_modules.specs.Modules.{file_count, first_module, first_modules};
ghost use Rattle.dx_engine.specs.Diagnosers.{diagnosers};

use crate::fault::ModulesFault;
use crate::kept::{MadeConf, read_confs};
use dx_engine::{Diagnoser, can_begin};
use dx_rules::{Configs, Rulebook, Ruled};
use fm_bytes::NoMemory;
use fm_saved::Conf;
use std::alloc::Global;

/// Copies of what the rule file of a number makes in each configuration.
fn copy_file(alloc: Global, mades: &[MadeConf], file: usize) -> Result<Vec<Ruled>, NoMemory>
    requires { All (λ made. file < length made.files.items) mades.now }
    ensures { IfOk result
        (λ list. map ruled_of list.items ≡ configurations_at file (conf_rows mades.now)) }
{
    let mut list = Vec::with_capacity(alloc, mades.len())?;
    'mades: for made in mades {
        list.push(made.files[file].copy(alloc)?)?;
    }
    Ok(list)
}

/// The module of a rule file's number. One that can't begin would want more engines than memory
/// holds.
fn module_of(alloc: Global, mades: &[MadeConf], file: usize) -> Result<Diagnoser, NoMemory>
    requires file { file < 8 }
    requires there { All (λ made. file < length made.files.items) mades.now }
    ensures { IfOk result (λ made. made_modules diagnosers (made ∷ [])
        ≡ first_module file (configurations_at file (conf_rows mades.now)) ∷ []) }
{
    let rules = Rulebook {
        own: file as u32,
        configs: Configs::Listed(copy_file(alloc, mades, file)?),
    };
    if !can_begin(&rules) {
        return Err(NoMemory);
    }
    let made = Diagnoser::with_rules(alloc, rules)?;
    Ok(made)
}

/// So many modules.
fn modules_of(alloc: Global, mades: &[MadeConf], count: usize) -> Result<Vec<Diagnoser>, NoMemory>
    requires count { count ≤ 8 }
    requires there { All (λ made. length made.files.items ≡ count) mades.now }
    ensures { IfOk result (λ modules. made_modules diagnosers modules.items
        ≡ first_modules count (conf_rows mades.now)) }
{
    let mut modules = Vec::with_capacity(alloc, count)?;
    'files: for file in 0..count {
        modules.push(module_of(alloc, mades, file)?)?;
    }
    Ok(modules)
}

/// How many rule files each configuration of one store has.
fn file_count(confs: &[Conf]) -> usize
    ensures { result ≡ file_count confs.now }
{
    match confs.first() {
        Some(conf) => conf.rules.len(),
        None => 0,
    }
}

/// The modules of configurations of one store, twice: for each rule file one, with the file's
/// number as its own and with its graph in each configuration, to which nothing has happened.
/// `Refused` exactly where a rule file or a topology is refused, with the number of the first
/// configuration that has one.
pub fn make_modules(
    alloc: Global,
    confs: &[Conf],
) -> Result<(Vec<Diagnoser>, Vec<Diagnoser>), ModulesFault>
    requires { AreKeptConfs confs.now }
    ensures are { IfOk result
        (λ (_, kept). AreModulesOf confs.now (made_modules diagnosers kept.items)) }
    ensures alike { IfOk result
        (λ (fresh, kept). made_modules diagnosers fresh.items
        ≡ made_modules diagnosers kept.items) }
    ensures first { IfOk result
        (λ (_, kept). AreFirstModules (made_modules diagnosers kept.items)) }
    ensures know { IfOk result (λ (_, kept). KnowAll (length confs.now)
        (made_modules diagnosers kept.items)) }
    ensures refused { IfErr result (ModulesCause confs.now) }
{
    let mades = read_confs(alloc, confs)?;
    let count = file_count(confs);
    let rows = mades.as_slice();
    let fresh = modules_of(alloc, rows, count)?;
    let kept = modules_of(alloc, rows, count)?;
    Ok((fresh, kept))
}
