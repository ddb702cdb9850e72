//! Cells: the values of properties.
ghost use Rattle.std.specs.Prelude.{◌≡◌, take};

use crate::search::Record;
use crate::value::Value;
use lexer::name::MAX_NAME;

/// The value of one property, with the property's object and name.
#[derive(Clone, Copy)]
pub struct Cell {
    object: u16,
    // An array and a count of one byte, and not a `Row`, whose count takes eight: the host lends a cell for each property.
    bytes: [u8; MAX_NAME],
    len: u8,
    pub value: Value,
}

impl Cell {
    ghost use Rattle.store.specs.Cells.{owner as owner_of, called as called_by, value_of, blank_cell};

    /// A cell of no property, to make an array of cells from.
    pub fn blank() -> Cell
        ensures { result ≡ blank_cell }
    {
        Cell {
            object: 0,
            bytes: [0; MAX_NAME],
            len: 0,
            value: Value::Nothing,
        }
    }

    /// The cell of a property, with its value. Of a name the first 24 bytes are kept.
    pub fn new(object: u16, name: &[u8], value: Value) -> Cell
        ensures owner { owner_of result ≡ object }
        ensures called { called_by result ≡ take 24 name.now }
        ensures value { value_of result ≡ value }
    {
        let len = name.len().min(MAX_NAME);
        let mut bytes = [0; MAX_NAME];
        bytes[..len].copy_from_slice(&name[..len]);
        Cell {
            object,
            bytes,
            len: len as u8,
            value,
        }
    }
}

impl Record for Cell {
    ghost use Rattle.store.specs.Cells.{owner as owner_of, called as called_by};

    ghost owner = { owner_of };

    ghost called = { called_by };

    fn object(&self) -> u16 {
        self.object
    }

    fn name(&self) -> &[u8] {
        let len = usize::from(self.len).min(MAX_NAME);
        &self.bytes[..len]
    }
}
