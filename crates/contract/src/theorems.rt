//! The laws of contracts and of paths as texts: the contract of each function is one.
ghost use Rattle.contract.specs.ExpressionTerms.{TreesPermitTheirLanguages};
ghost use Rattle.contract.specs.Dotted.{TextsAreDottedPaths, WrongTextsAreFirstWrong};

/// A text is read as a path exactly if it is the path's lawful names with dots between them.
pub fn texts_are_dotted_paths()
    ensures { TextsAreDottedPaths }
{}

/// The place of a wrong text is that of the first byte that no text of a path has there.
pub fn wrong_texts_are_first_wrong()
    ensures { WrongTextsAreFirstWrong }
{}

/// What two trees permit is told by their languages: union, joining and repetition.
pub fn trees_permit_their_languages()
    ensures { TreesPermitTheirLanguages }
{}
