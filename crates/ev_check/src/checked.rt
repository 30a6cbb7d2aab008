//! The checked file, and what its lists hold.
ghost use Rattle.std.specs.Prelude.{◌≡◌, IfOk, map};
ghost use Rattle.ev_check.specs.CheckedFile.{IsCopyOf, view_prop};
ghost use Rattle.ev_check.specs.Lawful.{IsLawfulFile};
ghost use Rattle.ev_check.specs.Sound.{IsSound};

use ev_tree::{Count, Declared, Patterns, copy_patterns};
use fm_bytes::{Copies, NoMemory};
use std::alloc::Global;
use std::marker::Model;

/// What a declared event is, with its defaults: the FIT rate and whether to retire, the number of
/// its engine, or the nanoseconds within which its reports come.
#[derive(Clone, Copy, Debug, PartialEq, Eq)]
pub enum DeclKind {
    Fault { fit: u32, retire: bool },
    Defect { fit: u32, retire: bool },
    Upset { engine: Option<u32> },
    Inner,
    Report { within: u64 },
}

/// A declared event.
#[derive(Drop)]
pub struct EventSpec {
    pub event: Declared,
    pub kind: DeclKind,
}

/// A declared engine: it fires at `n` events within `t` nanoseconds, and the event number `trip`
/// comes of it.
#[derive(Drop)]
pub struct SerdSpec {
    pub engine: Declared,
    pub n: u32,
    pub t: u64,
    pub trip: u32,
}

/// A propagation, with its numbers N and K.
#[derive(Drop)]
pub struct PropSpec {
    pub left: Patterns,
    pub right: Patterns,
    pub n: Count,
    pub k: Count,
}

/// A checked rule file, in order of statements: the place of an event or an engine in its list is
/// its number. Each one is that of statements at which no phase finds a fault, so its events are
/// declared once and none reaches itself.
#[derive(Drop)]
pub struct Checked {
    events: Vec<EventSpec>,
    engines: Vec<SerdSpec>,
    props: Vec<PropSpec>,
}

impl Model for Checked {
    ghost use Rattle.ev_check.specs.CheckedFile.{CheckedFile};
    ghost use Rattle.ev_tree.specs.contracts.tree.Cond as cond;
    ghost use Rattle.std.specs.Coded.{codes};

    ghost Value = { CheckedFile };

    ghost coded = { Prim.hlevel (codes, cond.the_row.coded) };

    ghost view = { λ c. record {
      events = c.events.items;
      engines = c.engines.items;
      props =
          c.props.items;
    } };

    ghost use Rattle.ev_check.specs.Sound.{IsSound};

    ghost invariant = { λ c.
        IsSound (record {
          events = c.events.items;
          engines = c.engines.items;
          props =
              c.props.items;
        }) };
}

impl EventSpec {
    /// An equal event.
    pub fn copy(&self, alloc: Global) -> Result<EventSpec, NoMemory>
        ensures { IfOk result (λ e. e ≡ self.now) }
    {
        let event = self.event.copy(alloc)?;
        Ok(EventSpec {
            event,
            kind: self.kind,
        })
    }
}

impl SerdSpec {
    /// An equal engine.
    pub fn copy(&self, alloc: Global) -> Result<SerdSpec, NoMemory>
        ensures { IfOk result (λ e. e ≡ self.now) }
    {
        let engine = self.engine.copy(alloc)?;
        Ok(SerdSpec {
            engine,
            n: self.n,
            t: self.t,
            trip: self.trip,
        })
    }
}

impl PropSpec {
    /// A propagation that is equal but for where its conditions lie in memory.
    pub fn copy(&self, alloc: Global) -> Result<PropSpec, NoMemory>
        ensures { IfOk result (λ p. view_prop p ≡ view_prop self.now) }
    {
        let left = copy_patterns(alloc, &self.left)?;
        let right = copy_patterns(alloc, &self.right)?;
        Ok(PropSpec {
            left,
            right,
            n: self.n,
            k: self.k,
        })
    }
}

/// Equal events.
fn copy_events(alloc: Global, events: &[EventSpec]) -> Result<Vec<EventSpec>, NoMemory>
    ensures { IfOk result (λ copies. copies.items ≡ events.now) }
{
    let mut copies = Vec::new(alloc);
    for event in events {
        copies.push(event.copy(alloc)?)?;
    }
    Ok(copies)
}

/// Equal engines.
fn copy_engines(alloc: Global, engines: &[SerdSpec]) -> Result<Vec<SerdSpec>, NoMemory>
    ensures { IfOk result (λ copies. copies.items ≡ engines.now) }
{
    let mut copies = Vec::new(alloc);
    for engine in engines {
        copies.push(engine.copy(alloc)?)?;
    }
    Ok(copies)
}

/// Propagations that are equal but for where their conditions lie in memory.
fn copy_props(alloc: Global, props: &[PropSpec]) -> Result<Vec<PropSpec>, NoMemory>
    ensures { IfOk result (λ copies. map view_prop copies.items ≡ map view_prop props.now) }
{
    let mut copies = Vec::new(alloc);
    for prop in props {
        copies.push(prop.copy(alloc)?)?;
    }
    Ok(copies)
}

impl Checked {
    /// The file of these lists.
    pub(crate) fn new(
        events: Vec<EventSpec>,
        engines: Vec<SerdSpec>,
        props: Vec<PropSpec>,
    ) -> Checked
        requires { IsSound (record {
          events = events.items;
          engines = engines.items;
          props =
              props.items;
        }) }
        ensures { result ≡ record {
          events = events.items;
          engines = engines.items;
          props =
              props.items;
        } }
    {
        Checked {
            events,
            engines,
            props,
        }
    }

    /// The events, in order of statements.
    pub fn events(&self) -> &[EventSpec]
        ensures items { result.now ≡ self.now.events }
        ensures sound { IsSound self.now }
    {
        self.events.as_slice()
    }

    /// The engines, in order of statements.
    pub fn engines(&self) -> &[SerdSpec]
        ensures items { result.now ≡ self.now.engines }
        ensures sound { IsSound self.now }
    {
        self.engines.as_slice()
    }

    /// The propagations, in order of statements. Each one's patterns are of declared events and
    /// stand on their side, its constants are below 2^32, no name is vertical and horizontal in it,
    /// and no event reaches itself along them.
    pub fn props(&self) -> &[PropSpec]
        ensures items { result.now ≡ self.now.props }
        ensures sound { IsSound self.now }
        ensures lawful { IsLawfulFile self.now }
    {
        self.props.as_slice()
    }

    /// A file that is equal but for where its conditions lie in memory.
    pub fn copy(&self, alloc: Global) -> Result<Checked, NoMemory>
        ensures { IfOk result (IsCopyOf self.now) }
    {
        let events = copy_events(alloc, self.events.as_slice())?;
        let engines = copy_engines(alloc, self.engines.as_slice())?;
        let props = copy_props(alloc, self.props.as_slice())?;
        Ok(Checked {
            events,
            engines,
            props,
        })
    }
}
