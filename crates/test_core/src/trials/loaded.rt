// A module behind a box is a module too, and hands and cores work over such objects with all that
// they promise.
ghost use Rattle.std.specs.Prelude.{◌≡◌, ◌+◌, ◌<◌, ◌^◌, length, IfSome, OnOk};
ghost use Rattle.fm_entry.specs.Entries.{IsSpelled};
ghost use Rattle.fm_core.specs.Hands.{shown, stepped};
ghost use Rattle.fm_core.specs.Book.{worked};
ghost use Rattle.fm_core.specs.Seen.{seen, stands_for, IsCore};

use fm_core::{Core, Hand, LoadFault, Module, NoMemory, Worked};
use fm_entry::{Entry, ListEvent};
use fm_name::Class;
use std::alloc::Global;

/// An object of a kind that is not known here.
#[derive(Drop)]
pub struct Loaded {
    object: Box<dyn Module>,
}

impl Module for Loaded {
    ghost meaning = { λ l. (Module-box l.object).meaning l.object.value };

    ghost state = { λ l. (Module-box l.object).state l.object.value };

    fn subscribes(&self, class: &Class) -> bool {
        self.object.subscribes(class)
    }

    fn conf(&self) -> Option<u32> {
        self.object.conf()
    }

    fn step(
        &mut self,
        alloc: Global,
        number: u64,
        entry: &Entry,
    ) -> Result<Vec<ListEvent>, NoMemory> {
        self.object.step(alloc, number, entry)
    }

    fn save(&self, out: &mut Vec<u8>) -> Result<(), NoMemory> {
        self.object.save(out)
    }

    fn load(&mut self, alloc: Global, bytes: &[u8]) -> Result<(), LoadFault> {
        self.object.load(alloc, bytes)
    }
}

impl Loaded {
    /// The module that the object is.
    pub fn new(object: Box<dyn Module>) -> Loaded
        ensures meaning { ⟦<Loaded as Module>⟧.meaning result ≡ meaning object }
        ensures state { ⟦<Loaded as Module>⟧.state result ≡ state object }
    {
        Loaded { object }
    }
}

/// A step of a hand over a boxed object.
pub fn step_loaded(alloc: Global, hand: Hand<Loaded>, entry: &Entry) -> Option<Hand<Loaded>>
    requires number { hand.cursor < 2 ^ 46 }
    requires spelled { IsSpelled entry.now }
    ensures { IfSome result
        (λ new. shown ⟦<Loaded as Module>⟧ new
        ≡ stepped (shown ⟦<Loaded as Module>⟧ hand) entry.now) }
{
    match hand.step(alloc, entry) {
        Ok((hand, _spoken)) => Some(hand),
        Err(_) => None,
    }
}

/// A move of a core over boxed objects.
pub fn work_loaded(alloc: Global, core: &mut Core<Loaded>, module: u32) -> Result<Worked, NoMemory>
    requires known { «module» < length core.old.hands }
    requires lawful { IsCore (seen ⟦<Loaded as Module>⟧ core.old) }
    ensures worked { OnOk result
        (stands_for ⟦<Loaded as Module>⟧ core.new
        ≡ worked (stands_for ⟦<Loaded as Module>⟧ core.old) «module») }
    ensures lawful { IsCore (seen ⟦<Loaded as Module>⟧ core.new) }
    ensures modules { length core.new.hands ≡ length core.old.hands }
{
    core.work(alloc, module)
}

/// A core of one boxed object that has taken nothing.
pub fn core_of_one(alloc: Global, own: Loaded, kept: Loaded) -> Option<Core<Loaded>>
    requires own { (⟦<Loaded as Module>⟧.meaning own).own ≡ 0 }
    requires meanings { ⟦<Loaded as Module>⟧.meaning own ≡ ⟦<Loaded as Module>⟧.meaning kept }
    requires states { ⟦<Loaded as Module>⟧.state own ≡ ⟦<Loaded as Module>⟧.state kept }
    ensures lawful { IfSome result (λ core. IsCore (seen ⟦<Loaded as Module>⟧ core)) }
    ensures one { IfSome result (λ core. length core.hands ≡ 1) }
    ensures empty { IfSome result (λ core. core.base + length core.entries ≡ 0) }
{
    let mut hands = Vec::new(alloc);
    hands.push(Hand::new(0, 0, own)).ok()?;
    let mut before = Vec::new(alloc);
    before.push(Hand::new(0, 0, kept)).ok()?;
    match Core::new(alloc, 0, hands, before) {
        Ok(core) => Some(core),
        Err(_) => None,
    }
}
