//! What a contract permits of a whole path.
ghost use Rattle.contract.specs.Paths.{path_of};
ghost use Rattle.contract.specs.Permissions.{permission};
ghost use Rattle.contract.specs.Terms.{along};
ghost use Rattle.std.specs.Prelude.{◌≡◌, []};

use crate::contract::Contract;
use lexer::name::Name;

/// Whether a path may be read, and whether it may be written.
#[derive(Clone, Copy, PartialEq, Eq, Debug)]
pub struct Permission {
    pub read: bool,
    pub write: bool,
}

/// What is permitted of the empty path at a residue.
pub(crate) fn permission_at<C: Contract>(contract: &C, at: C::Residue) -> Permission
    ensures { result ≡ permission (C.terms contract.now at) [] }
{
    Permission {
        read: contract.readable(at),
        write: contract.writable(at),
    }
}

/// The residue after a path, from the start.
pub fn residue_after<C: Contract>(contract: &C, path: &[Name]) -> C::Residue
    ensures { C.terms contract.now result ≡ along (path_of path.now) (C.terms contract.now (C.starts contract.now)) }
{
    let mut at = contract.start();
    for name in path {
        at = contract.step(at, name.as_bytes());
    }
    at
}

/// What the contract permits of a path.
pub fn permits<C: Contract>(contract: &C, path: &[Name]) -> Permission
    ensures { result ≡ permission (C.terms contract.now (C.starts contract.now)) (path_of path.now) }
{
    permission_at(contract, residue_after(contract, path))
}
