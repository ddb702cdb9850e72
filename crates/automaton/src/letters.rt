//! The letters at the positions.
ghost use Rattle.std.specs.Prelude.{◌≤◌, ◌&&◌, length, nat_lt};
ghost use Rattle.expression.specs.Expressions.{fits};
ghost use Rattle.automaton.specs.Bits.{Marks};
ghost use Rattle.automaton.specs.Tells.{letter_at};

use crate::positions::Positions;
use expression::letter::Letter;

/// The positions whose letters stand for the name.
#[tactic(auto, using(crate::proofs::Masks::bit_of_zero, std::proofs::lemmas::Bool::Decides::nat_tests))]
pub(crate) fn matching(letters: &[Letter], name: &[u8]) -> Positions
    requires { length letters.now ≤ 62 }
    ensures { Marks result.mask (λ x. nat_lt x (length letters.now) && fits (letter_at letters.now x) name.now) }
{
    let mut found = Positions::NONE;
    for (i, letter) in letters.iter().enumerate() {
        if letter.fits(name) {
            found |= Positions::only(i);
        }
    }
    found
}
