//! Reading the text of a path expression into operations and letters.
ghost use Rattle.std.specs.Prelude.{◌≡◌, ◌<◌, ◌≤◌, [], length, Some};
ghost use Rattle.lexer.specs.Readers.{place_of, next_of};
ghost use Rattle.lexer.specs.Tokens.{sign};
ghost use Rattle.bounded.specs.Rows.{entries_of};
ghost use Rattle.expression.specs.Parsing.{Fits, letter_at, base_part, item_part, sequence_part, alternative_part};
ghost use Rattle.expression.specs.Tables.{letter_of};

use crate::letter::Letter;
use crate::operation::Operation;
use crate::trees::{Letters, MAX_OPEN, Operations};
use lexer::name::Name;
use lexer::reader::Reader;
use lexer::refusal::{Reason, Refusal};
use lexer::token::{Language, Token};

/// Goes through a text and writes down the operations of its tree, and its letters after those of the texts before; `depth`
/// brackets are open.
#[derive(Drop)]
pub(crate) struct Parser<'a> {
    reader: Reader<'a>,
    pub(crate) operations: Operations,
    pub(crate) letters: Letters,
    depth: usize,
    ghost fits: { Fits reader (entries_of operations) },
    ghost shallow: { depth ≤ 16 },
}

impl<'a> Parser<'a> {
    ghost use Rattle.expression.specs.Steps.{Reads, Emits, TextRead};
    ghost use Rattle.expression.specs.Tables.{letters_of};

    /// A parser that has read nothing.
    pub(crate) fn new() -> Parser<'a>
        ensures { letters_of result.letters ≡ [] }
    {
        Parser {
            reader: Reader::new(b"", Language::PathExpression),
            operations: Operations::new(Operation::Empty),
            letters: Letters::new(Letter::Any),
            depth: 0,
        }
    }

    /// Writes down an operation, for which a byte was read.
    fn emit(&mut self, operation: Operation)
        requires { length (entries_of self.old.operations) < place_of self.old.reader }
        ensures { Emits operation self.old self.new }
    {
        let _ = self.operations.push(operation);
    }

    /// Passes the next token, which is this letter, and writes it down, unless there are too many.
    fn letter(&mut self, letter: Letter) -> Result<(), Refusal>
        requires next { letter_at (next_of self.old.reader) ≡ Some (letter_of letter) }
        ensures { Reads base_part self.old self.new result }
    {
        let next = self.reader.take();
        if self.letters.push(letter).is_err() {
            return Err(next.refused(Reason::Many));
        }
        self.emit(Operation::Letter);
        Ok(())
    }

    /// Reads a bracket, whose opening sign is the next token.
    #[cycle(grammar)]
    fn bracket(&mut self) -> Result<(), Refusal>
        requires next { next_of self.old.reader ≡ sign 40 }
        ensures { Reads base_part self.old self.new result }
    {
        let opening = self.reader.take();
        if self.depth >= MAX_OPEN {
            return Err(opening.refused(Reason::Deep));
        }
        if self.reader.accept(b')') {
            self.emit(Operation::Empty);
            return Ok(());
        }
        self.depth += 1;
        let inner = self.alternative();
        self.depth -= 1;
        inner?;
        if self.reader.accept(b')') {
            Ok(())
        } else {
            Err(self.reader.peek().misplaced())
        }
    }

    /// base = name | "?" | "(" [ alternative ] ")"
    #[cycle(grammar)]
    fn base(&mut self) -> Result<(), Refusal>
        ensures { Reads base_part self.old self.new result }
    {
        let next = self.reader.peek();
        match next.token {
            Token::Name(bytes) => {
                let name = Name::new(bytes).unwrap();
                self.letter(Letter::Named(name))
            }
            Token::Sign(b) if b == b'?' => self.letter(Letter::Any),
            Token::Sign(b) if b == b'(' => self.bracket(),
            _ => Err(next.misplaced()),
        }
    }

    /// item = base [ "*" ]
    #[cycle(grammar)]
    fn item(&mut self) -> Result<(), Refusal>
        ensures { Reads item_part self.old self.new result }
    {
        self.base()?;
        if self.reader.accept(b'*') {
            self.emit(Operation::Star);
        }
        Ok(())
    }

    // The next two differ in a sign, an operation and the part below. One function of both would take that part as a parameter,
    // and the grammar would no longer stand in the code line by line.

    /// sequence = item { "." item }
    #[cycle(grammar)]
    fn sequence(&mut self) -> Result<(), Refusal>
        ensures { Reads sequence_part self.old self.new result }
    {
        self.item()?;
        while self.reader.accept(b'.') {
            self.item()?;
            self.emit(Operation::Sequence);
        }
        Ok(())
    }

    /// alternative = sequence { "|" sequence }
    #[cycle(grammar)]
    fn alternative(&mut self) -> Result<(), Refusal>
        ensures { Reads alternative_part self.old self.new result }
    {
        self.sequence()?;
        while self.reader.accept(b'|') {
            self.sequence()?;
            self.emit(Operation::Alternative);
        }
        Ok(())
    }

    /// Reads a whole text, which has at most 400 bytes, and adds its letters to those before.
    pub(crate) fn read_text(&mut self, text: &'a [u8]) -> Result<(), Refusal>
        requires { length text.now ≤ 400 }
        ensures { TextRead text.now self.old self.new result }
    {
        self.operations.clear();
        self.reader = Reader::new(text, Language::PathExpression);
        self.depth = 0;
        self.alternative()?;
        let next = self.reader.peek();
        match next.token {
            Token::End => Ok(()),
            _ => Err(next.misplaced()),
        }
    }
}
