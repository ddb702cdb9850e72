//! The law of tokens: the contract of the function is the law.
ghost use Rattle.lexer.specs.Tokens.{TokensGoOn};

/// The tokens of a text from a place on are the next one and those after it.
pub fn tokens_go_on()
    ensures { TokensGoOn }
{}
