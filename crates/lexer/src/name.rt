//! Names, and which bytes are a lawful one.
ghost use Rattle.std.specs.Prelude.{◌≡◌, true, if◌then◌else◌, Some, None};
ghost use Rattle.std.specs.Option.{option_map};
ghost use Rattle.bounded.specs.Rows.{entries_of};
ghost use Rattle.lexer.specs.Names.{plain, lawful};

use crate::class::{Class, is_classed, is_letter_or_digit};
use bounded::row::Row;

/// The most bytes that a name has.
pub const MAX_NAME: usize = 24;

/// Whether all bytes are letters or digits.
fn is_plain(bytes: &[u8]) -> bool
    ensures { result ≡ plain bytes.now }
{
    bytes.iter().all(|b| is_letter_or_digit(*b))
}

/// Whether the bytes are a lawful name: 1 to 24, first a letter, then letters or digits.
pub fn is_lawful(bytes: &[u8]) -> bool
    ensures { result ≡ lawful bytes.now }
{
    match bytes {
        [] => false,
        [first, others @ ..] => {
            bytes.len() <= MAX_NAME && is_classed(*first, &[Class::Letter]) && is_plain(others)
        }
    }
}

/// A lawful name.
#[derive(Clone, Copy)]
pub struct Name {
    bytes: Row<u8, MAX_NAME>,
    ghost ok: { lawful (entries_of bytes) ≡ true },
}

impl Name {
    ghost use Rattle.lexer.specs.Spelled.{spelled};

    // `new` and an `Option`, and not `TryFrom`: there is one way to fail, of which nothing more is to be told.

    /// The name with these bytes, if they are a lawful name.
    pub fn new(bytes: &[u8]) -> Option<Name>
        ensures { option_map spelled result ≡ (if lawful bytes.now then Some bytes.now else None) }
    {
        if !is_lawful(bytes) {
            return None;
        }
        let bytes = Row::from_slice(0, bytes)?;
        Some(Name { bytes })
    }

    /// The bytes of the name.
    pub fn as_bytes(&self) -> &[u8]
        ensures { result.now ≡ spelled self.now }
    {
        self.bytes.as_slice()
    }
}
