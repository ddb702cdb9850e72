//! The words of scripts that are no names.
ghost use Rattle.std.specs.Prelude.{◌≡◌};
ghost use Rattle.script.specs.Words.{word_of};
ghost use Rattle.parser.specs.Words.{as_word};

/// What a word is.
#[derive(Clone, Copy, PartialEq, Eq, Debug)]
pub enum Word {
    If,
    Else,
    While,
    Say,
    Cut,
    Has,
    /// Any other word is a name.
    Name,
}

/// What the word with these bytes is.
#[tactic(auto, using(crate::proofs::Words::word_by_length, std::proofs::lemmas::Grind::common_steps))]
pub fn classify(bytes: &[u8]) -> Word
    ensures { as_word result ≡ word_of bytes.now }
{
    match bytes {
        b"if" => Word::If,
        b"else" => Word::Else,
        b"while" => Word::While,
        b"say" => Word::Say,
        b"cut" => Word::Cut,
        b"has" => Word::Has,
        _ => Word::Name,
    }
}
