//! The laws of path expressions: the contract of each function is one.
ghost use Rattle.expression.specs.Derivations.{ReadingIsDerivation, OneTree, RefusalsAreExact};
ghost use Rattle.expression.specs.Languages.{DerivativesDecide, DerivativesDecideBeginnings};

/// The language of an expression, by derivatives, is the one by union, joining and repetition.
pub fn derivatives_decide()
    ensures { DerivativesDecide }
{}

/// Likewise the beginnings of the paths of the language.
pub fn derivatives_decide_beginnings()
    ensures { DerivativesDecideBeginnings }
{}

/// A text is read as a tree exactly if the grammar derives its tokens with that tree, within the limits.
pub fn reading_is_derivation()
    ensures { ReadingIsDerivation }
{}

/// The grammar derives no list of tokens with two trees.
pub fn one_tree()
    ensures { OneTree }
{}

/// A refusal is told at the first token to which a reason applies.
pub fn refusals_are_exact()
    ensures { RefusalsAreExact }
{}
