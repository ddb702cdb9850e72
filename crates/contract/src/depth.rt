//! Contracts by the number of names alone.
ghost use Rattle.contract.specs.Depths.{depth_terms};
ghost use Rattle.contract.specs.DepthsLemmas.{depth_orderly};
ghost use Rattle.std.specs.Prelude.{Some};
ghost use Rattle.std.proofs.Common.{rules};

use crate::contract::Contract;
use lexer::name::is_lawful;

/// Paths of at most `read` names are readable, paths of 1 to `write` names writable.
#[derive(Clone, Copy, PartialEq, Eq, Debug)]
pub struct Depth {
    pub read: u8,
    pub write: u8,
}

impl Contract for Depth {
    /// How many names were passed; none where nothing is permitted any more.
    type Residue = Option<u8>;

    ghost terms = { depth_terms };

    ghost starts = { λ _. Some 0 };

    ghost orderly = { depth_orderly };

    ghost opened = { Prim.search rules };

    fn start(&self) -> Option<u8> {
        Some(0)
    }

    fn step(&self, at: Option<u8>, name: &[u8]) -> Option<u8> {
        let passed = at?;
        if is_lawful(name) && passed < self.read.max(self.write) {
            Some(passed + 1)
        } else {
            None
        }
    }

    fn readable(&self, at: Option<u8>) -> bool {
        at.is_some_and(|passed| passed <= self.read)
    }

    fn writable(&self, at: Option<u8>) -> bool {
        at.is_some_and(|passed| 1 <= passed && passed <= self.write)
    }
}
