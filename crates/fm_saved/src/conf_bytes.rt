//! Configurations, written and read.
//!
//! The namespace, the number of rule files in one byte, each rule file and the topology, each of
//! these behind its length in four bytes.

ghost use Rattle.std.specs.Prelude.{◌≡◌, ◌++◌, Some, None, length, IfOk, IfErr, IfSome, OnOk};
ghost use Rattle.std.specs.Prelude.{OnErr};
ghost use Rattle.fm_bytes.specs.Reading.{IsMisspelled, piece_from, counted_from, whole};
ghost use Rattle.fm_saved.specs.Confs.{IsSpelledConf, conf_bytes, rules_from, conf_from};
ghost use Rattle.fm_saved.specs.declared.conf.Conf.{Conf};

use crate::conf::{Conf, RuleFiles};
use crate::saved_bytes::{SavedBytes, SavedCodec};
use fm_bytes::{Input, Items, NoMemory, ReadFault, put_u8};
use fm_items::{Codec, put_items, take_items};
use std::alloc::Global;

/// Appends the bytes that spell the configuration.
pub fn write_conf(conf: &Conf, out: &mut Vec<u8>) -> Result<(), NoMemory>
    requires { IsSpelledConf conf.now }
    ensures ok { OnOk result (out.new.items ≡ out.old.items ++ conf_bytes conf.now) }
    ensures err { OnErr result (out.new.items ≡ out.old.items) }
{
    let mut spelling = Vec::new(*out.allocator());
    put_conf(conf, &mut spelling)?;
    out.extend_from_slice(&spelling)?;
    Ok(())
}

/// Writes the namespace, the rule files and the topology.
fn put_conf(conf: &Conf, out: &mut Vec<u8>) -> Result<(), NoMemory>
    requires { IsSpelledConf conf.now }
    ensures ok { OnOk result (out.new.items ≡ out.old.items ++ conf_bytes conf.now) }
{
    out.extend_from_slice(&conf.namespace)?;
    put_u8(conf.rules.len() as u8, out)?;
    put_items::<SavedBytes, SavedCodec>(conf.rules.as_slice(), out)?;
    SavedCodec::put(&conf.topo, out)
}

/// The configuration that the bytes spell, which is one at most. `None` exactly where they spell
/// none.
pub fn read_conf(alloc: Global, bytes: &[u8]) -> Result<Option<Conf>, NoMemory>
    ensures found { IfOk result
        (λ o. IfSome o (λ conf. IsSpelledConf conf × (bytes.now ≡ conf_bytes conf))) }
    ensures read { (conf : Conf) → IsSpelledConf conf → bytes.now ≡ conf_bytes conf
        → IfOk result (λ o. o ≡ Some conf) }
{
    let mut input = Input::new(bytes);
    match whole_conf(&mut input, alloc) {
        Ok(conf) => Ok(Some(conf)),
        Err(ReadFault::NoSpelling) => Ok(None),
        Err(ReadFault::NoMemory) => Err(NoMemory),
    }
}

/// The configuration that all bytes are.
fn whole_conf(input: &mut Input, alloc: Global) -> Result<Conf, ReadFault>
    ensures ok { IfOk result (λ conf. whole (conf_from input.old) ≡ Some conf) }
    ensures err { IfErr result (λ f. IsMisspelled f → whole (conf_from input.old) ≡ None) }
{
    let conf = take_conf(input, alloc)?;
    if input.left() == 0 {
        Ok(conf)
    } else {
        Err(ReadFault::NoSpelling)
    }
}

/// A configuration.
#[tactic(auto, unfolding(crate::specs::Confs::conf_from))]
fn take_conf(input: &mut Input, alloc: Global) -> Result<Conf, ReadFault>
    ensures ok { IfOk result (λ conf. conf_from input.old ≡ Some (conf, input.new)) }
    ensures err { IfErr result (λ f. IsMisspelled f → conf_from input.old ≡ None) }
{
    let namespace = take_namespace(input)?;
    let rules = take_rules(input, alloc)?;
    let topo = SavedCodec::take(input, alloc)?;
    Ok(Conf {
        namespace,
        rules,
        topo,
    })
}

/// A namespace.
fn take_namespace(input: &mut Input) -> Result<[u8; 16], ReadFault>
    ensures ok { IfOk result (λ n. piece_from 16 input.old ≡ Some (n, input.new)) }
    ensures err { IfErr result (λ f. IsMisspelled f → piece_from 16 input.old ≡ None) }
{
    let piece = input.take_piece(16)?;
    let mut namespace = [0; 16];
    namespace.copy_from_slice(piece);
    Ok(namespace)
}

/// Rule files, behind their number in one byte.
#[tactic(auto, unfolding(crate::specs::Confs::rules_from, fm_bytes::specs::Reading::counted_from))]
fn take_rules(input: &mut Input, alloc: Global) -> Result<RuleFiles, ReadFault>
    ensures ok { IfOk result (λ files. rules_from input.old ≡ Some (files, input.new)) }
    ensures err { IfErr result (λ f. IsMisspelled f → rules_from input.old ≡ None) }
{
    let count = input.take_u8()?;
    let files = take_items::<SavedBytes, SavedCodec>(input, alloc, u32::from(count))?;
    if files.len() <= 8 {
        Ok(Items::new(files))
    } else {
        Err(ReadFault::NoSpelling)
    }
}
