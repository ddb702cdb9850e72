//! Contracts that permit what each of two permits.
ghost use Rattle.contract.specs.Terms.{meet};
ghost use Rattle.contract.specs.Quotients.{meet_orderly};
ghost use Rattle.std.proofs.Common.{rules};

use crate::contract::Contract;

/// A path is readable, or writable, when it is so in each.
#[derive(Clone, Copy)]
pub struct Both<L, R> {
    pub left: L,
    pub right: R,
}

impl<L: Contract, R: Contract> Contract for Both<L, R> {
    type Residue = (L::Residue, R::Residue);

    ghost terms = { λ c r. meet (L.Contract.terms c.left r.0) (R.Contract.terms c.right r.1) };

    ghost starts = { λ c. (L.Contract.starts c.left, R.Contract.starts c.right) };

    ghost orderly = { λ c r. meet_orderly (L.Contract.terms c.left r.0) (R.Contract.terms c.right r.1) (L.Contract.orderly c.left r.0) (R.Contract.orderly c.right r.1) };

    ghost opened = { Prim.search rules };

    fn start(&self) -> (L::Residue, R::Residue) {
        (self.left.start(), self.right.start())
    }

    fn step(&self, at: (L::Residue, R::Residue), name: &[u8]) -> (L::Residue, R::Residue) {
        (self.left.step(at.0, name), self.right.step(at.1, name))
    }

    fn readable(&self, at: (L::Residue, R::Residue)) -> bool {
        self.left.readable(at.0) & self.right.readable(at.1)
    }

    fn writable(&self, at: (L::Residue, R::Residue)) -> bool {
        self.left.writable(at.0) & self.right.writable(at.1)
    }
}
