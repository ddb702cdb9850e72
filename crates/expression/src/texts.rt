//! The two texts of a contract, and the refusal of one.
ghost use Rattle.std.specs.Prelude.{◌≡◌, Some};
ghost use Rattle.expression.specs.Texts.{text_number, told};

use lexer::refusal::Reason;
use std::error::Error;
use std::fmt;

/// Which of the two texts, each with its fixed number.
#[derive(Clone, Copy, PartialEq, Eq, Debug)]
pub enum Text {
    Read = 1,
    Write = 2,
}

impl From<Text> for u8 {
    ghost from_gives = { λ text number. number ≡ text_number text };

    fn from(text: Text) -> u8 {
        text as u8
    }
}

/// The refusal of a contract's text: why, in which text, and at which byte, counted from 0.
#[derive(Clone, Copy, PartialEq, Eq, Debug)]
pub struct TextRefusal {
    pub reason: Reason,
    pub text: Text,
    pub place: usize,
}

impl fmt::Display for TextRefusal {
    ghost output = { λ refusal. Some (told refusal) };

    fn fmt<W: fmt::Write>(&self, f: &mut fmt::Formatter<W>) -> fmt::Result {
        let number = u8::from(self.reason);
        let text = u8::from(self.text);
        write!(f, "contract {number} text {text} at {}", self.place)
    }
}

impl Error for TextRefusal {}
