//! What sets of positions tell of a tree.
ghost use Rattle.std.specs.Prelude.{◌≡◌, ◌<◌};
ghost use Rattle.automaton.specs.Passes.{of_letter, of_alternative, of_sequence, of_star};

use crate::positions::Positions;

/// Whether a tree may be empty, and the positions that may come first and last.
#[derive(Clone, Copy, PartialEq, Eq, Debug)]
pub struct Facts {
    pub(crate) nullable: bool,
    pub(crate) first: Positions,
    pub(crate) last: Positions,
}

impl Facts {
    ghost use Rattle.automaton.specs.Tells.{summary_of};

    /// The facts of the empty tree.
    pub(crate) const EMPTY: Facts = Facts {
        nullable: true,
        first: Positions::NONE,
        last: Positions::NONE,
    };

    /// The facts of one letter.
    pub(crate) fn letter(position: usize) -> Facts
        requires { position < 62 }
        ensures { summary_of result ≡ of_letter position }
    {
        let one = Positions::only(position);
        Facts {
            nullable: false,
            first: one,
            last: one,
        }
    }

    /// The facts of `a|b`.
    pub(crate) fn alternative(self, right: Facts) -> Facts
        ensures { summary_of result ≡ of_alternative (summary_of self) (summary_of right) }
    {
        Facts {
            nullable: self.nullable | right.nullable,
            first: self.first | right.first,
            last: self.last | right.last,
        }
    }

    /// The facts of `a.b`.
    pub(crate) fn sequence(self, right: Facts) -> Facts
        ensures { summary_of result ≡ of_sequence (summary_of self) (summary_of right) }
    {
        Facts {
            nullable: self.nullable & right.nullable,
            first: self.first | right.first.when(self.nullable),
            last: right.last | self.last.when(right.nullable),
        }
    }

    /// The facts of `a*`.
    pub(crate) fn star(self) -> Facts
        ensures { summary_of result ≡ of_star (summary_of self) }
    {
        Facts {
            nullable: true,
            first: self.first,
            last: self.last,
        }
    }
}
