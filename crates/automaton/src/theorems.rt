//! The laws of the position automaton: the contract of each function is one.
ghost use Rattle.automaton.specs.Positions.{StepsAreQuotients, PositionsTellTheEmptyPath};
ghost use Rattle.automaton.specs.Residues.{BeginningsAreLeft, ResiduesAreLawful, StartsLeaveAll};

/// One step of the position automaton is the left quotient.
pub fn steps_are_quotients()
    ensures { StepsAreQuotients }
{}

/// The marked positions tell whether the empty path is left.
pub fn positions_tell_the_empty_path()
    ensures { PositionsTellTheEmptyPath }
{}

/// The beginning of a path that may be read may be read.
pub fn beginnings_are_left()
    ensures { BeginningsAreLeft }
{}

/// A residue leaves paths of lawful names only.
pub fn residues_are_lawful()
    ensures { ResiduesAreLawful }
{}

/// The starts leave all paths of the trees.
pub fn starts_leave_all()
    ensures { StartsLeaveAll }
{}
