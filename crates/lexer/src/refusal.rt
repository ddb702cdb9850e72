//! Why a call refuses, and where.
ghost use Rattle.std.specs.Prelude.{◌≡◌};
ghost use Rattle.lexer.specs.Refusals.{number_of};

/// The reasons for which a call refuses, each with its fixed number.
#[derive(Clone, Copy, PartialEq, Eq, Debug)]
pub enum Reason {
    /// Fewer working places, or bytes for a report, than the call needs.
    Space = 1,
    /// Three narrowings stand already.
    Narrowed = 2,
    /// A text has too many bytes.
    Long = 3,
    /// No token starts here, a name is too long, or a number is too large.
    Token = 4,
    /// The token, or the end of the text, cannot come here.
    Grammar = 5,
    /// One open bracket or brace too many.
    Deep = 6,
    /// One variable or letter too many.
    Many = 7,
    /// An object or a reference that is not below the number of objects.
    Object = 8,
    /// An unlawful name in a call of a store.
    Name = 9,
    /// The steps counted already equal the allowance.
    Steps = 10,
    /// A value of the wrong kind.
    Kind = 11,
    /// A refused access finds its list full.
    Log = 12,
    /// A said number finds its list full.
    Said = 13,
    /// The store has no writes left.
    Full = 14,
}

impl From<Reason> for u8 {
    ghost from_gives = { λ reason number. number ≡ number_of reason };

    fn from(reason: Reason) -> u8 {
        reason as u8
    }
}

/// A refusal of a text: why, and at which byte, counted from 0.
#[derive(Clone, Copy, PartialEq, Eq, Debug)]
pub struct Refusal {
    pub reason: Reason,
    pub place: usize,
}
