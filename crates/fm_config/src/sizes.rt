//! How large what the rule files of a configuration come to is.

ghost use Rattle.std.specs.Prelude.{◌≡◌, IfOk, IfErr};
ghost use Rattle.fm_adm.specs.Config.{config_text};
ghost use Rattle.fm_modules.specs.KeptTexts.{AreRefusedTexts, EachHas, IsRefusedConf};
ghost use Rattle.fm_modules.specs.KeptTexts.{IsRefusedText};
ghost use Rattle.fm_config.specs.Sizes.{ConfCause, HaveSizes, IsConfText, TextHasSizes};

use crate::fault::ConfFault;
use crate::made::{text_made, text_topo};
use ev_listing::sizes_of;
use fm_adm::{ModuleSizes, write_config};
use fm_bytes::NoMemory;
use fm_saved::{Conf, ConfText};
use fm_topo::Topo;
use std::alloc::Global;

/// How large what the text of a rule file comes to over a topology is.
fn text_sizes(alloc: Global, text: &[u8], topo: &Topo) -> Result<ModuleSizes, ConfFault>
    ensures sizes { IfOk result (TextHasSizes topo.now text.now) }
    ensures refused { IfErr result (ConfCause (IsRefusedText topo.now text.now)) }
{
    let made = text_made(alloc, text, topo)?;
    Ok(sizes_of(&made))
}

/// How large what each of some texts comes to is, up to the first that is refused.
fn all_sizes(alloc: Global, texts: &[ConfText], topo: &Topo) -> Result<Vec<ModuleSizes>, ConfFault>
    ensures sizes { IfOk result
        (λ sizes. EachHas (TextHasSizes topo.now) texts.now sizes.items) }
    ensures refused { IfErr result (ConfCause (AreRefusedTexts topo.now texts.now)) }
{
    let mut sizes = Vec::new(alloc);
    'texts: for text in texts {
        sizes.push(text_sizes(alloc, text.get(), topo)?)?;
    }
    Ok(sizes)
}

/// How large what the rule files of a configuration come to over its topology is.
fn conf_sizes(alloc: Global, conf: &Conf) -> Result<Vec<ModuleSizes>, ConfFault>
    ensures sizes { IfOk result (λ sizes. HaveSizes conf.now sizes.items) }
    ensures refused { IfErr result (ConfCause (IsRefusedConf conf.now)) }
{
    let topo = text_topo(alloc, conf.topo.get())?;
    all_sizes(alloc, conf.rules.as_slice(), &topo)
}

/// The text of a namespace and of what rule files come to.
fn text_with(
    alloc: Global,
    namespace: &[u8; 16],
    sizes: &[ModuleSizes],
) -> Result<Vec<u8>, NoMemory>
    ensures { IfOk result (λ text. text.items ≡ config_text namespace.now sizes.now) }
{
    let mut text = Vec::new(alloc);
    write_config(alloc, namespace, sizes, &mut text)?;
    Ok(text)
}

/// The text of a configuration: a line `namespace UUID`, and a line for each rule file.
pub fn tell_conf(alloc: Global, conf: &Conf) -> Result<Vec<u8>, ConfFault>
    ensures told { IfOk result (λ text. IsConfText conf.now text.items) }
    ensures refused { IfErr result (ConfCause (IsRefusedConf conf.now)) }
{
    let sizes = conf_sizes(alloc, conf)?;
    let text = text_with(alloc, &conf.namespace, &sizes)?;
    Ok(text)
}
