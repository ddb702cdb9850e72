//! Sets of positions, as the bits of a number.
ghost use Rattle.std.specs.Prelude.{◌≡◌, ◌<◌, ◌&&◌, ◌||◌, nat_eq, nat_lt};
ghost use Rattle.automaton.specs.Bits.{bit, Marks};
ghost use Rattle.automaton.specs.Positions.{some};

use std::ops::{BitAnd, BitOr, BitOrAssign};

/// The number that stands for the start of the read tree.
pub const READ_START: usize = 62;

/// The number that stands for the start of the write tree.
pub const WRITE_START: usize = 63;

/// A set of positions, which are below 62, and of starts: the bits of the mask tell what is in it.
// It has no `Model`: of a value that holds a struct with one, no proof is made where it is passed or stored twice.
#[derive(Clone, Copy, PartialEq, Eq, Debug)]
pub struct Positions {
    mask: u64,
}

impl Positions {
    ghost use Rattle.automaton.specs.Residues.{starts, read_start};

    /// The empty set.
    pub(crate) const NONE: Positions = Positions { mask: 0 };

    /// The starts of both trees.
    pub fn starts() -> Positions
        ensures { result.mask ≡ starts }
    {
        Positions {
            mask: 1 << READ_START | 1 << WRITE_START,
        }
    }

    /// The start of the read tree.
    pub fn read_start() -> Positions
        ensures { result.mask ≡ read_start }
    {
        Positions {
            mask: 1 << READ_START,
        }
    }

    // Each call that shifts by a number asks for one below 64: a type of such numbers would only move the test to where they
    // are counted.

    /// The set of one number.
    #[tactic(auto, using(crate::proofs::Masks::bit_of_shift))]
    pub(crate) fn only(number: usize) -> Positions
        requires { number < 64 }
        ensures { Marks result.mask (λ x. nat_eq x number) }
    {
        Positions { mask: 1 << number }
    }

    /// The set of the numbers below the end.
    #[tactic(auto, using(crate::proofs::Masks::bit_below_shift))]
    pub(crate) fn below(end: usize) -> Positions
        requires { end < 64 }
        ensures { Marks result.mask (λ x. nat_lt x end) }
    {
        Positions {
            mask: (1 << end) - 1,
        }
    }

    /// Whether the number is in the set.
    #[tactic(auto, using(crate::proofs::Masks::bit_test))]
    pub(crate) fn has(self, number: usize) -> bool
        requires { number < 64 }
        ensures { result ≡ bit self.mask number }
    {
        self.mask >> number & 1 == 1
    }

    /// Whether a number is in both sets.
    #[tactic(auto, using(crate::proofs::Masks::meets_some))]
    pub(crate) fn meets(self, other: Positions) -> bool
        ensures { result ≡ some 64 (λ x. bit self.mask x && bit other.mask x) }
    {
        self.mask & other.mask != 0
    }

    /// The set itself where the test holds, and else the empty set.
    #[tactic(auto, using(crate::proofs::Masks::bit_of_zero))]
    pub(crate) fn when(self, test: bool) -> Positions
        ensures { Marks result.mask (λ x. test && bit self.mask x) }
    {
        if test { self } else { Positions::NONE }
    }
}

/// The set of the bits of a number.
impl From<u64> for Positions {
    ghost from_gives = { λ mask set. set.mask ≡ mask };

    fn from(mask: u64) -> Positions {
        Positions { mask }
    }
}

/// The number whose bits are the set.
impl From<Positions> for u64 {
    ghost from_gives = { λ set mask. mask ≡ set.mask };

    fn from(set: Positions) -> u64 {
        set.mask
    }
}

/// The numbers of either set.
impl BitOr for Positions {
    type Output = Positions;

    ghost bitor_gives = { λ a b both. Marks both.mask (λ x. bit a.mask x || bit b.mask x) };

    #[tactic(auto, using(crate::proofs::Masks::bit_of_or))]
    fn bitor(self, other: Positions) -> Positions {
        Positions {
            mask: self.mask | other.mask,
        }
    }
}

impl BitOrAssign for Positions {
    ghost bitor_assign_gives = { λ old other new. Marks new.mask (λ x. bit old.mask x || bit other.mask x) };

    fn bitor_assign(&mut self, other: Positions) {
        *self = *self | other;
    }
}

/// The numbers of both sets.
impl BitAnd for Positions {
    type Output = Positions;

    ghost bitand_gives = { λ a b common. Marks common.mask (λ x. bit a.mask x && bit b.mask x) };

    #[tactic(auto, using(crate::proofs::Masks::bit_of_and))]
    fn bitand(self, other: Positions) -> Positions {
        Positions {
            mask: self.mask & other.mask,
        }
    }
}
