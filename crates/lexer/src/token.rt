//! Tokens: parts of the host's text, each with its place.
ghost use Rattle.std.specs.Prelude.{◌≡◌};

use crate::refusal::{Reason, Refusal};

/// What a text is written in; it decides which bytes start a token.
#[derive(Clone, Copy, PartialEq, Eq, Debug)]
pub enum Language {
    Script,
    PathExpression,
}

/// A token; a name and a number hold the part of the text that they are.
#[derive(Clone, Copy, PartialEq, Eq, Debug)]
pub enum Token<'a> {
    Name(&'a [u8]),
    Number { digits: &'a [u8], value: u32 },
    Sign(u8),
    /// Two equality signs, with nothing between them.
    Equals,
    /// The end of the text.
    End,
    /// No token starts here, a name is too long, or a number is too large.
    Bad,
}

/// A token with the place of its first byte, and that of the first byte after it.
#[derive(Clone, Copy, PartialEq, Eq, Debug)]
pub struct Placed<'a> {
    pub token: Token<'a>,
    pub start: usize,
    pub stop: usize,
}

impl<'a> Placed<'a> {
    ghost use Rattle.lexer.specs.Tokens.{lexeme_of, reason_at};

    /// The refusal of a text for this reason at this token.
    pub fn refused(self, reason: Reason) -> Refusal
        ensures { result ≡ record { reason = reason; place = self.entry.start } }
    {
        Refusal {
            reason,
            place: self.start,
        }
    }

    /// The refusal of a token that cannot come where it stands.
    pub fn misplaced(self) -> Refusal
        ensures reason { result.reason ≡ reason_at (lexeme_of self.entry.token) }
        ensures place { result.place ≡ self.entry.start }
    {
        match self.token {
            Token::Bad => self.refused(Reason::Token),
            _ => self.refused(Reason::Grammar),
        }
    }
}
