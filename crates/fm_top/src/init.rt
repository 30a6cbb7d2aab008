// The command `init`.
ghost use Rattle.std.specs.Prelude.{◌≡◌, ◌≤◌, length, map, IfOk};
ghost use Rattle.fm_answers.specs.Stops.{ran_store};
ghost use Rattle.fm_logs.specs.Contents.{AreSameDisks};
ghost use Rattle.fm_saved.specs.Confs.{IsSpelledConf};
ghost use Rattle.fm_sources.specs.Sources.{given};
ghost use Rattle.fm_top.specs.Calls.{names_of, six};
ghost use Rattle.fm_top.specs.Init.{conf_with, MakingEnds, InitEnds};
ghost use Rattle.fm_top.specs.Outside.{disk_at, disks_at};

use crate::graphed::read_graphed;
use fm_answers::Stop;
use fm_bytes::{Items, NoMemory};
use fm_init::{Disks, StoreFault};
use fm_lent::Lent;
use fm_outer::{Disk, Source};
use fm_saved::{Conf, ConfText, RuleFiles};
use fm_sources::{RuleFile, Sources};
use std::alloc::Global;

/// The texts of rule files, copied.
fn texts_of(alloc: Global, files: &[RuleFile]) -> Result<RuleFiles, NoMemory>
    ensures { IfOk result (λ texts. texts ≡ map (λ f. f.text.items) files.now) }
{
    let mut texts = Items::new(Vec::new(alloc));
    'files: for file in files {
        texts.push(ConfText::new(alloc, file.text.as_slice())?)?;
    }
    Ok(texts)
}

/// The configuration of a namespace and of what was read.
fn conf_with(alloc: Global, namespace: [u8; 16], got: &Sources) -> Result<Conf, NoMemory>
    ensures { IfOk result (λ conf. conf ≡ conf_with namespace got.now) }
{
    let rules = texts_of(alloc, got.files.as_slice())?;
    let topo = ConfText::new(alloc, got.topo_text.as_slice())?;
    Ok(Conf {
        namespace,
        rules,
        topo,
    })
}

/// Six disks of which a store was to be made, and whether it was.
#[derive(Drop)]
struct Tried<D> {
    disks: Disks<D>,
    done: Result<(), StoreFault>,
}

impl<D> Tried<D> {
    /// Whether the store was made.
    fn answer(&self) -> Result<(), StoreFault>
        ensures { result ≡ self.now.done }
    {
        self.done
    }
}

/// Makes a store of the disks and the configuration, and gives the disks back.
fn make_on<D: Disk>(alloc: Global, disks: Disks<D>, conf: &Conf) -> Tried<D>
    requires { IsSpelledConf conf.now }
    ensures made { MakingEnds (disks_at D.Disk disks) (disks_at D.Disk result.disks) conf.now
        (ran_store result.done) }
    ensures same_disks { AreSameDisks D.Disk disks result.disks }
    ensures second_same { result.disks.err_b ≡ disks.err_b }
{
    match fm_init::init(alloc, disks, conf) {
        Ok(disks) => Tried {
            disks,
            done: Ok(()),
        },
        Err(refused) => Tried {
            disks: refused.disks,
            done: Err(refused.fault),
        },
    }
}

/// Makes a store of six disks that are lent and the configuration, and gives the disks back.
fn make_lent<'a, D: Disk>(
    alloc: Global,
    disks: Disks<Lent<'a, D>>,
    conf: &Conf,
) -> Tried<Lent<'a, D>>
    requires { IsSpelledConf conf.now }
    ensures made { MakingEnds
        (disks_at D.Disk (six disks.entry.conf.disk.now disks.entry.err_a.disk.now
        disks.entry.err_b.disk.now disks.entry.slot_a.disk.now disks.entry.slot_b.disk.now
        disks.entry.flt.disk.now))
        (disks_at D.Disk (six result.disks.conf.disk.now result.disks.err_a.disk.now
        result.disks.err_b.disk.now result.disks.slot_a.disk.now result.disks.slot_b.disk.now
        result.disks.flt.disk.now)) conf.now (ran_store result.done) }
    ensures same_conf { result.disks.conf.disk.ghost_name ≡ disks.entry.conf.disk.ghost_name }
    ensures same_err_a { result.disks.err_a.disk.ghost_name ≡ disks.entry.err_a.disk.ghost_name }
    ensures same_err_b { result.disks.err_b.disk.ghost_name ≡ disks.entry.err_b.disk.ghost_name }
    ensures same_slot_a { result.disks.slot_a.disk.ghost_name
        ≡ disks.entry.slot_a.disk.ghost_name }
    ensures same_slot_b { result.disks.slot_b.disk.ghost_name
        ≡ disks.entry.slot_b.disk.ghost_name }
    ensures same_flt { result.disks.flt.disk.ghost_name ≡ disks.entry.flt.disk.ghost_name }
    ensures same_disks { names_of D.name
        (six result.disks.conf.disk.now result.disks.err_a.disk.now
        result.disks.err_b.disk.now result.disks.slot_a.disk.now result.disks.slot_b.disk.now
        result.disks.flt.disk.now)
        ≡ names_of D.name (six disks.entry.conf.disk.now disks.entry.err_a.disk.now
        disks.entry.err_b.disk.now disks.entry.slot_a.disk.now disks.entry.slot_b.disk.now
        disks.entry.flt.disk.now) }
    ensures second_same { result.disks.err_b.disk.now ≡ disks.entry.err_b.disk.now }
{
    make_on(alloc, disks, conf)
}

/// What a store is made of, and where memory for it comes from.
#[derive(Clone, Copy)]
struct StorePlan<'a> {
    alloc: Global,
    conf: &'a Conf,
}

/// Makes a store of the six disks by the plan.
fn make<'a, D: Disk>(
    plan: StorePlan<'_>,
    conf: &'a mut D,
    err_a: &'a mut D,
    err_b: &'a mut D,
    slot_a: &'a mut D,
    slot_b: &'a mut D,
    flt: &'a mut D,
) -> Result<(), StoreFault>
    requires { IsSpelledConf plan.conf.now }
    ensures made { MakingEnds (disks_at D.Disk
        (six conf.old err_a.old err_b.old slot_a.old slot_b.old flt.old))
        (disks_at D.Disk (six conf.new err_a.new err_b.new slot_a.new slot_b.new flt.new))
        plan.entry.conf.now (ran_store result) }
    ensures same_disks { names_of D.name
        (six conf.new err_a.new err_b.new slot_a.new slot_b.new flt.new)
        ≡ names_of D.name (six conf.old err_a.old err_b.old slot_a.old slot_b.old flt.old) }
    ensures second_same { err_b.new ≡ err_b.old }
{
    let lent = Disks {
        conf: Lent { disk: conf },
        err_a: Lent { disk: err_a },
        err_b: Lent { disk: err_b },
        slot_a: Lent { disk: slot_a },
        slot_b: Lent { disk: slot_b },
        flt: Lent { disk: flt },
    };
    let back = make_lent(plan.alloc, lent, plan.conf);
    back.answer()
}

/// Reads the rule files and the topology, looks at what each file comes to, and makes a store of
/// them and of the namespace.
pub(crate) fn init<S: Source, D: Disk>(
    alloc: Global,
    namespace: [u8; 16],
    rules: &mut [S],
    topo: &mut S,
    disks: &mut Disks<D>,
) -> Result<(), Stop>
    requires { length rules.old ≤ 8 }
    ensures ends { InitEnds S.Source (given rules.old topo.old) (given rules.new topo.new)
        (disks_at D.Disk disks.old) (disks_at D.Disk disks.new) namespace result }
    ensures same_disks { names_of D.name disks.new ≡ names_of D.name disks.old }
    ensures second_same { disks.new.err_b ≡ disks.old.err_b }
{
    let got = read_graphed(alloc, rules, topo)?;
    let conf = conf_with(alloc, namespace, &got)?;
    let plan = StorePlan { alloc, conf: &conf };
    make(
        plan,
        &mut disks.conf,
        &mut disks.err_a,
        &mut disks.err_b,
        &mut disks.slot_a,
        &mut disks.slot_b,
        &mut disks.flt,
    )?;
    Ok(())
}
