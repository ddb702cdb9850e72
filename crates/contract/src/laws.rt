//! The laws that every contract shows.
ghost use Rattle.contract.specs.Terms.{Laws};
ghost use Rattle.std.specs.Prelude.{◌≡◌};

use crate::contract::Contract;

/// The residue itself; its contract states the laws, for any contract at any residue.
pub fn lawful_residue<C: Contract>(contract: &C, at: C::Residue) -> C::Residue
    ensures same { result ≡ at }
    ensures laws { Laws (C.terms contract.now (C.starts contract.now)) (C.terms contract.now at) }
{
    at
}
