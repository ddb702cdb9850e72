//! The letters of path expressions.
ghost use Rattle.std.specs.Prelude.{◌≡◌};
ghost use Rattle.expression.specs.Expressions.{fits};
ghost use Rattle.expression.specs.Tables.{letter_of};

use lexer::name::{Name, is_lawful};

/// A letter stands for paths of one name.
#[derive(Clone, Copy)]
pub enum Letter {
    /// `?`: every name.
    Any,
    Named(Name),
}

impl Letter {
    /// Whether the letter stands for the name.
    pub fn fits(&self, name: &[u8]) -> bool
        ensures { result ≡ fits (letter_of self.now) name.now }
    {
        match self {
            Letter::Any => is_lawful(name),
            Letter::Named(own) => own.as_bytes() == name,
        }
    }
}
