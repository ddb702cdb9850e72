//! The table of an object graph.
ghost use Rattle.std.specs.Prelude.{◌≡◌, ◌+◌, ◌<◌, ◌≤◌, true, length, IfSome};
ghost use Rattle.std.specs.List.{AllWithin};
ghost use Rattle.std.proofs.Common.{rules};
ghost use Rattle.store.specs.Cells.{CellsApart};
ghost use Rattle.store.specs.Meaning.{inside, set_in};
ghost use Rattle.table.specs.Usable.{usable, holds};

use lexer::refusal::Reason;
use store::cell::Cell;
use store::checks::{check_get, check_put};
use store::search::last_of;
use store::store::Store;
use store::value::Value;

/// The most objects of a table.
pub const MAX_OBJECTS: u16 = 1024;

/// The most cells that a table uses.
pub const MAX_CELLS: usize = 4096;

/// A store with one cell for each property that holds something, in the first cells lent. While writes are left there
/// is a free cell.
#[derive(Drop)]
pub struct NodeTable<'a> {
    // The cells lent and a count, and not a `Bounded`: that would need a search, a removal and a cap of 4,096 entries, which
    // nothing else uses.
    cells: &'a mut [Cell],
    used: usize,
    left: usize,
    objects: u16,
    ghost room: { used + left ≤ usable cells.now },
    ghost some: { 1 ≤ objects },
    ghost few: { objects ≤ 1024 },
    ghost apart: { CellsApart cells.now used },
    ghost holding: { AllWithin (λ c. holds c.value ≡ true) cells.now 0 used },
    ghost closed: { AllWithin (λ c. inside objects c.value ≡ true) cells.now 0 used },
}

impl<'a> NodeTable<'a> {
    ghost use Rattle.table.specs.Tables.{means_of, empty, clamped, place_in, Spares};

    /// An empty table of `n` objects, 1 where `n` is 0 and 1,024 where it is more, whatever the cells held.
    pub fn new(cells: &'a mut [Cell], n: u16) -> NodeTable<'a>
        ensures means { means_of result ≡ empty (clamped n) (usable cells.old) }
        ensures cells { result.cells.now ≡ cells.old }
        ensures lender { result.cells.ghost_name ≡ cells.entry.ghost_name }
    {
        let left = cells.len().min(MAX_CELLS);
        NodeTable {
            cells,
            used: 0,
            left,
            objects: n.clamp(1, MAX_OBJECTS),
        }
    }

    /// The cell of a property.
    fn find(&self, object: u16, name: &[u8]) -> Option<usize>
        ensures within { IfSome result (λ i. i < self.now.used) }
        ensures place { result ≡ place_in self.now object name.now }
    {
        last_of(&self.cells[..self.used], object, name)
    }

    /// Sets a property, where a write is left. The last cell moves to the place of one that is freed.
    fn set(&mut self, object: u16, name: &[u8], value: Value)
        requires left { 0 < self.old.left }
        requires short { length name.now ≤ 24 }
        requires target { inside self.old.objects value ≡ true }
        ensures means { means_of self.new ≡ set_in (means_of self.old) object name.now value }
        ensures spares { Spares self.old self.new }
    {
        let place = self.find(object, name);
        self.left -= 1;
        match value {
            Value::Nothing => {
                if let Some(i) = place {
                    self.used -= 1;
                    self.cells[i] = self.cells[self.used];
                }
            }
            _ => match place {
                Some(i) => self.cells[i] = Cell::new(object, name, value),
                None => {
                    self.cells[self.used] = Cell::new(object, name, value);
                    self.used += 1;
                }
            },
        }
    }
}

impl<'a> Store for NodeTable<'a> {
    ghost use Rattle.table.specs.Kept.{table_lawful};
    ghost use Rattle.table.specs.Tables.{means_of, Spares};

    ghost means = { means_of };

    ghost stays = { Spares };

    fn count(&self) -> u16 {
        self.objects
    }

    fn left(&self) -> usize {
        self.left
    }

    fn get(&self, object: u16, name: &[u8]) -> Result<Value, Reason> {
        check_get(self.objects, object, name)?;
        match self.find(object, name) {
            Some(i) => Ok(self.cells[i].value),
            None => Ok(Value::Nothing),
        }
    }

    fn put(&mut self, object: u16, name: &[u8], value: Value) -> Result<(), Reason> {
        check_put(self.objects, self.left, object, name, value)?;
        self.set(object, name, value);
        Ok(())
    }

    ghost lawful = { table_lawful };

    ghost still = { Prim.search rules };

    ghost chains = { Prim.search rules };
}
