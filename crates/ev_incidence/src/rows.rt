//! Lists of numbers, one behind the other in one block.

ghost use Rattle.std.specs.Prelude.{◌≡◌, ◌+◌, ◌<◌, ◌^◌, ◌++◌, ◌∷◌, [], List, ℕ, length};
ghost use Rattle.std.specs.Prelude.{IfOk, OnOk, OnErr};
ghost use Rattle.ev_incidence.specs.Table.{row_at, pieces, AreBounds};

use fm_bytes::NoMemory;
use std::alloc::Global;
use std::marker::Model;

/// A list of lists of numbers. It takes 4 bytes a number and 4 a list. Contracts see the lists.
#[derive(Debug, Drop)]
pub struct Rows {
    items: Vec<u32>,
    /// Where each list begins, and where the last one ends.
    bounds: Vec<u32>,
}

impl Model for Rows {
    ghost Value = { List (List ℕ) };

    ghost view = { λ r. pieces r.items.items r.bounds.items };

    ghost invariant = { λ r. AreBounds r.items.items r.bounds.items };
}

impl Rows {
    /// No list.
    pub fn new(alloc: Global) -> Result<Rows, NoMemory>
        ensures { IfOk result (λ rows. rows ≡ []) }
    {
        let bounds = vec![in alloc; 0]?;
        Ok(Rows {
            items: Vec::new(alloc),
            bounds,
        })
    }

    /// Equal lists.
    pub fn copy(&self, alloc: Global) -> Result<Rows, NoMemory>
        ensures { IfOk result (λ rows. rows ≡ self.now) }
    {
        let items = Vec::from_slice(alloc, self.items.as_slice())?;
        let bounds = Vec::from_slice(alloc, self.bounds.as_slice())?;
        Ok(Rows { items, bounds })
    }

    /// How many lists there are.
    pub fn len(&self) -> usize
        ensures count { result ≡ length self.now }
        ensures few { result < 2 ^ 32 }
    {
        self.bounds.len() - 1
    }

    /// The list at a place, the empty one past the end.
    pub fn row(&self, at: u32) -> &[u32]
        ensures row { result.now ≡ row_at self.now at }
        ensures few { length result.now < 2 ^ 32 }
    {
        row_in(self.items.as_slice(), self.bounds.as_slice(), at as usize)
    }

    /// Puts a list at the end. Without memory the lists stay as they were; more than 2^32 - 1
    /// numbers or lists are want of memory as well.
    pub fn push(&mut self, row: &[u32]) -> Result<(), NoMemory>
        ensures ok { OnOk result (self.new ≡ self.old ++ row.now ∷ []) }
        ensures err { OnErr result (self.new ≡ self.old) }
    {
        let count = self.items.len();
        if row.len() > MOST_NUMBERS || count > MOST_NUMBERS - row.len() {
            return Err(NoMemory);
        }
        if self.bounds.len() > MOST_NUMBERS {
            return Err(NoMemory);
        }
        let end = (count + row.len()) as u32;
        self.items.extend_from_slice(row)?;
        match self.bounds.push(end) {
            Ok(()) => Ok(()),
            Err(refused) => {
                self.items.truncate(count);
                Err(NoMemory::from(refused))
            }
        }
    }
}

const MOST_NUMBERS: usize = 4_294_967_295;

/// The numbers between a bound and the next.
fn row_in<'a>(items: &'a [u32], bounds: &[u32], at: usize) -> &'a [u32]
    requires { AreBounds items.now bounds.now }
    ensures row { result.now ≡ row_at (pieces items.now bounds.now) at }
    ensures few { length result.now < 2 ^ 32 }
{
    if at >= bounds.len() - 1 {
        return &[];
    }
    let from = bounds[at] as usize;
    let to = bounds[at + 1] as usize;
    let (_, rest) = items.split_at(from);
    let (row, _) = rest.split_at(to - from);
    row
}
