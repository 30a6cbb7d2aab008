//! Tables of numbers.

ghost use Rattle.std.specs.Prelude.{◌≡◌, ◌∷◌, [], ◌++◌, IfOk, IsPermutation, length};
ghost use Rattle.std.specs.Prelude.{nat_lt};
ghost use Rattle.ev_join.specs.Search.{IsLeastFrom};
ghost use Rattle.ev_join.specs.Tables.{IsTable, HasRow, RisesFrom, bound_values, rows_at};

use crate::rows::{least_value, rows_at};
use fm_bytes::{Items, NoMemory};
use std::cell::Cell;
use std::marker::Model;

/// A row of a table: a number for each column, and the number of what it stands for.
#[derive(Debug, Drop)]
pub struct Row {
    pub values: Items<u32>,
    pub path: u32,
}

/// A table: columns, which are the ascending numbers of iterators, and rows in the order of their
/// numbers. It keeps where a search last came to, since the next one mostly comes to the same row
/// or the next; nothing but time rests on that place.
#[derive(Debug, Drop)]
pub struct Table {
    columns: Vec<u32>,
    rows: Vec<Row>,
    near: Cell<usize>,
}

impl Model for Table {
    ghost use Rattle.ev_join.specs.Tables.{TableValue, IsTable};

    ghost Value = { TableValue };

    ghost view = { λ t. record { columns = t.columns.items; rows = t.rows.items } };

    ghost invariant = { λ t. IsTable (record { columns = t.columns.items; rows = t.rows.items }) };
}

impl Table {
    /// The table of these columns and rows, which may stand in any order.
    pub fn new(columns: Vec<u32>, rows: Vec<Row>) -> Result<Table, NoMemory>
        requires { RisesFrom 0 columns.items }
        ensures columns { IfOk result (λ table. table.columns ≡ columns.items) }
        ensures rows { IfOk result (λ table. IsPermutation rows.items table.rows) }
    {
        let mut rows = rows;
        rows.sort_by(|a, b| a.values.as_slice().cmp(b.values.as_slice()))?;
        let near = Cell::new(0);
        let table = Table {
            columns,
            rows,
            near,
        };
        Ok(table)
    }

    /// The numbers of its iterators, ascending.
    pub(crate) fn columns(&self) -> &[u32]
        ensures { result.now ≡ self.now.columns }
    {
        self.columns.as_slice()
    }

    /// Whether there is a row.
    pub fn has_row(&self) -> bool
        ensures { result ≡ nat_lt 0 (length self.now.rows) }
    {
        self.rows.len() > 0
    }

    /// The rows that agree with a binding, in order.
    pub fn rows_at(&self, binding: &[u32]) -> &[Row]
        ensures rows { result.now ≡ rows_at self.now binding.now }
        ensures lawful { IsTable self.now }
    {
        rows_at(&self.columns, &self.rows, &self.near, binding)
    }

    /// The least number, from a value on, with which a beginning of a binding has a row.
    pub(crate) fn seek(&self, front: &[u32], value: u64) -> Option<u64>
        requires { HasRow self.now.rows (bound_values self.now.columns front.now) }
        ensures { IsLeastFrom
            (λ z. HasRow self.now.rows (bound_values self.now.columns (front.now ++ z ∷ [])))
            value result }
    {
        least_value(&self.columns, &self.rows, &self.near, front, value)
    }
}
