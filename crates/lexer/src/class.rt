//! The class of each byte.
ghost use Rattle.std.specs.Prelude.{◌≡◌};
ghost use Rattle.lexer.specs.Classes.{class_of, classed, letters_or_digits};

use crate::class::Class::{Blank as B, Digit as D, Letter as L, Other as O, Sign as S};

/// What a byte starts or goes on.
#[derive(Clone, Copy, PartialEq, Eq, Debug)]
pub enum Class {
    /// Starts no token.
    Other,
    /// Tab, line feed, carriage return, space.
    Blank,
    Letter,
    Digit,
    Sign,
}

// A static, and not a constant: each use of a constant array of an enum would build it anew.
#[rattlefmt::skip]
static CLASSES: [Class; 256] = [
    O, O, O, O, O, O, O, O, O, B, B, O, O, B, O, O,
    O, O, O, O, O, O, O, O, O, O, O, O, O, O, O, O,
    B, O, O, O, O, O, O, O, S, S, S, S, O, S, S, O,
    D, D, D, D, D, D, D, D, D, D, O, S, S, S, O, S,
    O, L, L, L, L, L, L, L, L, L, L, L, L, L, L, L,
    L, L, L, L, L, L, L, L, L, L, L, O, O, O, O, L,
    O, L, L, L, L, L, L, L, L, L, L, L, L, L, L, L,
    L, L, L, L, L, L, L, L, L, L, L, S, S, S, O, O,
    O, O, O, O, O, O, O, O, O, O, O, O, O, O, O, O,
    O, O, O, O, O, O, O, O, O, O, O, O, O, O, O, O,
    O, O, O, O, O, O, O, O, O, O, O, O, O, O, O, O,
    O, O, O, O, O, O, O, O, O, O, O, O, O, O, O, O,
    O, O, O, O, O, O, O, O, O, O, O, O, O, O, O, O,
    O, O, O, O, O, O, O, O, O, O, O, O, O, O, O, O,
    O, O, O, O, O, O, O, O, O, O, O, O, O, O, O, O,
    O, O, O, O, O, O, O, O, O, O, O, O, O, O, O, O,
];

/// The class of a byte, from the table.
impl From<u8> for Class {
    ghost from_gives = { λ b class. class ≡ class_of b };

    fn from(b: u8) -> Class {
        CLASSES[b as usize]
    }
}

/// Whether the class of a byte is one of these.
pub fn is_classed(b: u8, classes: &[Class]) -> bool
    ensures { result ≡ classed classes.now b }
{
    let own = Class::from(b);
    classes.iter().any(|class| *class == own)
}

/// Whether a byte is a letter or a digit.
pub fn is_letter_or_digit(b: u8) -> bool
    ensures { result ≡ classed letters_or_digits b }
{
    // By a pattern and not `is_classed`: this is asked of each byte of a name, and so takes one comparison.
    matches!(Class::from(b), Class::Letter | Class::Digit)
}
