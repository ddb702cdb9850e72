//! The table of the positions that may follow each position.
ghost use Rattle.std.specs.Prelude.{◌≡◌, ◌&&◌};
ghost use Rattle.automaton.specs.Bits.{bit, Marks};
ghost use Rattle.automaton.specs.Passes.{linked};
ghost use Rattle.automaton.specs.Positions.{some};
ghost use Rattle.automaton.specs.Tells.{link_of};

use crate::positions::Positions;
use expression::trees::MAX_LETTERS;

/// The positions that may follow one of the marked positions.
#[tactic(auto, using(crate::proofs::Masks::bit_of_zero, crate::proofs::Sums::some_zero, crate::proofs::Sums::some_more))]
pub(crate) fn followers(follow: &[u64; MAX_LETTERS], marked: Positions) -> Positions
    ensures { Marks result.mask (λ y. some 62 (λ x. bit marked.mask x && link_of follow.now x y)) }
{
    let mut all = Positions::NONE;
    for (i, next) in follow.iter().enumerate() {
        if marked.has(i) {
            all |= Positions::from(*next);
        }
    }
    all
}

/// Lets each position of `to` follow each position of `from`.
#[tactic(auto, using(std::proofs::lemmas::Bool::Decides::nat_tests))]
pub(crate) fn link(follow: &mut [u64; MAX_LETTERS], from: Positions, to: Positions)
    ensures { link_of follow.new ≡ linked (bit from.mask) (bit to.mask) (link_of follow.old) }
{
    for (i, next) in follow.iter_mut().enumerate() {
        if from.has(i) {
            *next = (Positions::from(*next) | to).into();
        }
    }
}
