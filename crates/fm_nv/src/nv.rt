//! Lists of names and values.

use crate::numbers::{NvNumbers, NvTexts};
use crate::text::NvText;
use std::alloc::Global;
use std::marker::Model;

/// A value of a list.
#[derive(Drop)]
#[cycle(nv)]
pub enum Value {
    /// True or false.
    Bool(bool),
    /// A number from 0.
    Unsigned(u64),
    /// A number with a sign.
    Signed(i64),
    /// A text.
    Text(NvText),
    /// A list in the list.
    List(Nv),
    /// An array of numbers from 0.
    Unsigneds(NvNumbers),
    /// An array of texts.
    Texts(NvTexts),
    /// An array of lists.
    Lists(NvLists),
}

/// A value, and where its name ends among the names of the list.
#[derive(Drop)]
#[cycle(nv)]
pub(crate) struct Cell {
    pub(crate) end: u32,
    pub(crate) value: Value,
}

/// Pairs whose names need not be distinct.
#[derive(Drop)]
#[cycle(nv)]
pub(crate) struct Content {
    /// How deep the list of the pairs is.
    pub(crate) deep: u64,
    /// Whether the last name was found to be greater than all before it, in the order of bytes: a
    /// name that is greater still is then no name of the list, and need not be looked for.
    pub(crate) ascending: bool,
    /// The names, one behind the other: each begins where the name before it ends. They are bytes
    /// and no `String`, since each name is a text by itself, and is cut out and compared without a
    /// look at where characters begin.
    pub(crate) names: Vec<u8>,
    /// A cell for each pair.
    pub(crate) cells: Vec<Cell>,
}

impl Model for Content {
    ghost use Rattle.std.specs.Prelude.{◌≡◌, ◌≤◌, ◌*◌, IsTrue, length};
    ghost use Rattle.fm_nv.specs.Data.{Pairs, depth, content_reach};
    ghost use Rattle.fm_nv.specs.Stored.{stored_pairs};

    ghost Value = { Pairs };

    ghost coded = { stored_pairs };

    ghost use Rattle.fm_nv.specs.View.{pairs_in, IsContent};

    ghost view = { λ a. pairs_in a.names.items 0 a.cells.items };

    ghost invariant = { λ a. IsContent a.deep a.ascending a.names.items a.cells.items };

    ghost size = { content_reach };

    ghost use Rattle.std.proofs.Common.{arith};
    ghost use Rattle.fm_nv.specs.Falls.{cells_fall};

    ghost size_decreases = { λ a h. omega (arith, cells_fall a.names.items 0 a.cells.items) };
}

/// A list of names and values. The list without pairs takes no memory.
#[derive(Drop)]
#[cycle(nv)]
pub struct Nv {
    pub(crate) alloc: Global,
    pub(crate) content: Option<Box<Content>>,
}

impl Model for Nv {
    ghost use Rattle.std.specs.Prelude.{◌≡◌};
    ghost use Rattle.fm_nv.specs.Data.{Pairs, reach};
    ghost use Rattle.fm_nv.specs.Stored.{stored_pairs};

    ghost Value = { Pairs };

    ghost coded = { stored_pairs };

    ghost use Rattle.fm_nv.specs.Spelled.{IsSpelledList};
    ghost use Rattle.fm_nv.specs.Kept.{pairs_kept};

    ghost view = { λ a. pairs_kept a.content };

    ghost invariant = { λ a. IsSpelledList (pairs_kept a.content) };

    ghost size = { reach };

    ghost use Rattle.std.proofs.Common.{arith};
    ghost use Rattle.fm_nv.specs.Falls.{content_falls};

    ghost size_decreases = { λ a h. omega (arith, content_falls a.alloc a.content) };
}

/// An array of lists, which contracts see as a list of lists.
#[derive(Drop)]
#[cycle(nv)]
pub struct NvLists {
    pub(crate) items: Vec<Nv>,
}

impl Model for NvLists {
    ghost use Rattle.std.specs.Prelude.{List};
    ghost use Rattle.std.specs.Coded.{coded_list};
    ghost use Rattle.fm_nv.specs.Data.{Pairs, lists_reach};
    ghost use Rattle.fm_nv.specs.Stored.{stored_pairs};

    ghost Value = { List Pairs };

    ghost coded = { coded_list stored_pairs };

    ghost view = { λ a. a.items.items };

    ghost size = { lists_reach };

    ghost use Rattle.std.proofs.Common.{arith};
    ghost use Rattle.fm_nv.specs.Falls.{lists_fall};

    ghost size_decreases = { λ a h. omega (arith, lists_fall a.items.items) };
}
