//! The laws of scripts: the contract of each function is one.
ghost use Rattle.script.specs.Derivations.{ReadingIsDerivation, OneTree, RefusalsAreExact};

/// A text is read as a tree exactly if the grammar derives its tokens with that tree, within the limits.
pub fn reading_is_derivation()
    ensures { ReadingIsDerivation }
{}

/// The grammar derives no list of tokens with two trees.
pub fn one_tree()
    ensures { OneTree }
{}

/// A refusal is told at the first token to which a reason applies.
pub fn refusals_are_exact()
    ensures { RefusalsAreExact }
{}
