//! Entries as they are read.

use fm_entry::Entry;
use std::marker::Model;

/// Entries as they are read, of which those from the base on are kept.
#[derive(Drop)]
pub(crate) struct EntryReader {
    /// How many configurations there are.
    pub(crate) known: u64,
    /// The number of the configuration in force at the base.
    pub(crate) at_base: u32,
    /// How many entries stand before the base.
    pub(crate) older: u64,
    /// How many of these are still to come.
    pub(crate) left: u64,
    /// The number of the configuration in force after the entries.
    pub(crate) force: u32,
    pub(crate) entries: Vec<Entry>,
}

impl Model for EntryReader {
    ghost use Rattle.fm_looks.specs.Entries.{EntryReaderOf, IsEntryReader, reader_of};
    ghost use Rattle.std.specs.Coded.{codes};
    ghost use Rattle.fm_entry.specs.contracts.entry.Entry as entry_row;

    ghost Value = { EntryReaderOf };

    ghost coded = { Prim.hlevel (codes, entry_row.the_row.coded) };

    ghost view = { λ r. reader_of r.known r.at_base r.older r.left r.force r.entries.items };

    ghost invariant = { λ r.
        IsEntryReader (reader_of r.known r.at_base r.older r.left r.force r.entries.items) };
}
