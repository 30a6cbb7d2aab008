//! Open cases as they are kept.

ghost use Rattle.std.specs.Prelude.{◌≡◌, ◌<◌, ◌^◌, length};

use fm_entry::Broken;
use std::marker::Model;

/// An open case as it is kept: fewer than 2^32 reports and broken links.
#[derive(Drop)]
pub struct KeptCase {
    number: u64,
    opened: u64,
    entries: Vec<u64>,
    observed: Vec<u32>,
    broken: Vec<Broken>,
}

impl Model for KeptCase {
    ghost use Rattle.std.specs.Prelude.{◌<◌, ◌^◌, length};
    ghost use Rattle.fm_core.specs.Meaning.{OpenCase};

    ghost Value = { OpenCase };

    ghost view = { λ c. record {
      number = c.number;
      opened = c.opened;
      entries = c.entries.items;
      observed = c.observed.items;
      broken = c.broken.items;
    } };

    ghost invariant = { λ c. (length c.observed.items < 2 ^ 32)
        × (length c.broken.items < 2 ^ 32) };
}

impl KeptCase {
    /// The case of these parts: its number, the module's time when it was opened, the numbers of
    /// the entries of its reports, their nodes, and the links that they break.
    pub fn new(
        number: u64,
        opened: u64,
        entries: Vec<u64>,
        observed: Vec<u32>,
        broken: Vec<Broken>,
    ) -> KeptCase
        requires observed { length observed.items < 2 ^ 32 }
        requires broken { length broken.items < 2 ^ 32 }
        ensures { result ≡ record {
          number = number;
          opened = opened;
          entries = entries.items;
          observed = observed.items;
          broken = broken.items;
        } }
    {
        KeptCase {
            number,
            opened,
            entries,
            observed,
            broken,
        }
    }

    /// Its number.
    pub fn number(&self) -> u64
        ensures { result ≡ self.now.number }
    {
        self.number
    }

    /// The module's time when it was opened.
    pub fn opened(&self) -> u64
        ensures { result ≡ self.now.opened }
    {
        self.opened
    }

    /// The numbers of the entries of its reports.
    pub fn entries(&self) -> &[u64]
        ensures { result.now ≡ self.now.entries }
    {
        self.entries.as_slice()
    }

    /// The nodes of its reports.
    pub fn observed(&self) -> &[u32]
        ensures nodes { result.now ≡ self.now.observed }
        ensures few { length result.now < 2 ^ 32 }
    {
        self.observed.as_slice()
    }

    /// The links that its reports break.
    pub fn broken(&self) -> &[Broken]
        ensures links { result.now ≡ self.now.broken }
        ensures few { length result.now < 2 ^ 32 }
    {
        self.broken.as_slice()
    }
}
