//! The trees of a contract's two texts.
ghost use Rattle.std.specs.Prelude.{◌≡◌, ◌+◌, ◌≤◌, ◌++◌, true, map, length};
ghost use Rattle.bounded.specs.Rows.{entries_of};
ghost use Rattle.expression.specs.Expressions.{empty};
ghost use Rattle.expression.specs.Reading.{read_contract};
ghost use Rattle.expression.specs.Tables.{formed, postfix, leaves, letter_of};
ghost use Rattle.expression.specs.Steps.{OneRead};
ghost use Rattle.expression.specs.Texts.{long_in};

use crate::letter::Letter;
use crate::operation::Operation;
use crate::parser::Parser;
use crate::texts::{Text, TextRefusal};
use bounded::row::Row;
use lexer::refusal::Reason;

/// The most bytes that a text of a contract has.
pub const MAX_TEXT: usize = 400;

/// The most brackets that are open together.
pub const MAX_OPEN: usize = 16;

/// The most letters that the two texts of a contract have.
pub const MAX_LETTERS: usize = 62;

/// The operations of one text.
pub type Operations = Row<Operation, MAX_TEXT>;

/// The letters of both texts, those of the read text first.
pub type Letters = Row<Letter, MAX_LETTERS>;

/// Refuses a text that is too long.
fn check_length(bytes: &[u8], text: Text) -> Result<(), TextRefusal>
    ensures { result ≡ long_in text bytes.now }
{
    if bytes.len() > MAX_TEXT {
        return Err(TextRefusal {
            reason: Reason::Long,
            text,
            place: 0,
        });
    }
    Ok(())
}

/// Reads one of the texts, which has at most 400 bytes, and adds its letters to those before.
fn read_one<'a>(parser: &mut Parser<'a>, bytes: &'a [u8], text: Text) -> Result<(), TextRefusal>
    requires { length bytes.now ≤ 400 }
    ensures { OneRead text bytes.now parser.old parser.new result }
{
    parser.read_text(bytes).map_err(|refusal| -> TextRefusal {
        TextRefusal {
            reason: refusal.reason,
            text,
            place: refusal.place,
        }
    })
}

/// The tree of one text: its operations, and how many letters it has.
#[derive(Clone, Copy)]
struct Tree {
    operations: Operations,
    letters: usize,
    ghost formed: { formed (entries_of operations) letters 0 ≡ true },
}

/// The trees of a read text and a write text, and their letters in one row.
#[derive(Clone, Copy)]
pub struct Trees {
    read: Tree,
    write: Tree,
    letters: Letters,
    ghost all: { length (entries_of letters) ≡ read.letters + write.letters },
    ghost few: { length (entries_of letters) ≤ 62 },
}

impl Trees {
    ghost use Rattle.expression.specs.Held.{read_tree, write_tree, tree_of, held_tree, reading_of};

    /// The trees of two texts `()`.
    pub fn empty() -> Trees
        ensures reads { read_tree result ≡ empty }
        ensures writes { write_tree result ≡ empty }
    {
        let mut operations = Operations::new(Operation::Empty);
        let _ = operations.push(Operation::Empty);
        let tree = Tree {
            operations,
            letters: 0,
        };
        Trees {
            read: tree,
            write: tree,
            letters: Letters::new(Letter::Any),
        }
    }

    /// Reads a contract's two texts.
    pub fn parse(read: &[u8], write: &[u8]) -> Result<Trees, TextRefusal>
        ensures { reading_of result ≡ read_contract read.now write.now }
    {
        check_length(read, Text::Read)?;
        check_length(write, Text::Write)?;
        let mut parser = Parser::new();
        read_one(&mut parser, read, Text::Read)?;
        let first = Tree {
            operations: parser.operations,
            letters: parser.letters.len(),
        };
        read_one(&mut parser, write, Text::Write)?;
        let second = Tree {
            operations: parser.operations,
            letters: parser.letters.len() - first.letters,
        };
        Ok(Trees {
            read: first,
            write: second,
            letters: parser.letters,
        })
    }

    /// The tree of a text.
    fn tree(&self, text: Text) -> &Tree
        ensures { result.now ≡ held_tree text self.now }
    {
        match text {
            Text::Read => &self.read,
            Text::Write => &self.write,
        }
    }

    /// How many letters a text has.
    pub fn letter_count(&self, text: Text) -> usize
        ensures { result ≡ length (leaves (tree_of text self.now)) }
    {
        self.tree(text).letters
    }

    /// The operations of a text's tree, in postfix order.
    pub fn operations(&self, text: Text) -> &[Operation]
        ensures operations { result.now ≡ postfix (tree_of text self.now) }
        ensures short { length result.now ≤ 400 }
    {
        self.tree(text).operations.as_slice()
    }

    /// The letters of the read text and then those of the write text, from left to right.
    pub fn letters(&self) -> &[Letter]
        ensures letters { map letter_of result.now ≡ leaves (read_tree self.now) ++ leaves (write_tree self.now) }
        ensures few { length result.now ≤ 62 }
    {
        self.letters.as_slice()
    }
}
