//! What a contract permits of a path that is given as a text.
ghost use Rattle.contract.specs.PathTexts.{read_path, permitted};
ghost use Rattle.contract.specs.NoPaths.{told};
ghost use Rattle.std.specs.Prelude.{◌≡◌, Some};

use crate::contract::Contract;
pub use crate::permits::Permission;
use crate::permits::permission_at;
use lexer::class::{Class, is_classed, is_letter_or_digit};
use lexer::name::MAX_NAME;
use std::error::Error;
use std::fmt;

/// A text that is no path: the place of the first byte that makes it none.
#[derive(Clone, Copy, PartialEq, Eq, Debug)]
pub struct NoPath {
    pub place: usize,
}

impl fmt::Display for NoPath {
    ghost output = { λ no_path. Some (told no_path) };

    fn fmt<W: fmt::Write>(&self, f: &mut fmt::Formatter<W>) -> fmt::Result {
        write!(f, "no path at {}", self.place)
    }
}

impl Error for NoPath {}

/// What the contract permits of the path that the text spells.
pub fn permits_text<C: Contract>(contract: &C, text: &[u8]) -> Result<Permission, NoPath>
    ensures { result ≡ permitted (C.terms contract.now (C.starts contract.now)) (read_path text.now) }
{
    let mut at = contract.start();
    if text.is_empty() {
        return Ok(permission_at(contract, at));
    }
    let mut from = 0;
    for (place, b) in text.iter().enumerate() {
        if place == from {
            if !is_classed(*b, &[Class::Letter]) {
                return Err(NoPath { place });
            }
        } else if *b == b'.' {
            at = contract.step(at, &text[from..place]);
            from = place + 1;
        } else if !is_letter_or_digit(*b) || place - from >= MAX_NAME {
            return Err(NoPath { place });
        }
    }
    if from >= text.len() {
        return Err(NoPath { place: text.len() });
    }
    Ok(permission_at(contract, contract.step(at, &text[from..])))
}
