//! A parser: the reader of a script, the nodes written so far, and the variables.
ghost use Rattle.std.specs.Prelude.{◌≡◌, ◌+◌, ◌<◌, ◌≤◌, [], ◌∷◌, ◌++◌, length, slice_set};
ghost use Rattle.bounded.specs.Filled.{filled, places_of};
ghost use Rattle.lexer.specs.Readers.{text_of, place_of, language_of};
ghost use Rattle.script.specs.Reading.{plan};

use crate::node::{Node, Span};
use crate::operators::{Found, Rank, operator_in};
use crate::variables::Variables;
use crate::word::{Word, classify};
use bounded::Bounded;
use lexer::reader::Reader;
use lexer::refusal::{Reason, Refusal};
use lexer::token::{Language, Token};

/// A name that is no keyword, with its place in the text.
#[derive(Clone, Copy, PartialEq, Eq, Debug)]
pub(crate) struct Called<'t> {
    pub(crate) bytes: &'t [u8],
    pub(crate) place: usize,
}

/// Reads a script, writes the nodes of its tree, and numbers its variables. There are hardly more nodes than bytes read, and
/// so there is room for them.
#[derive(Drop)]
pub(crate) struct Parser<'t, 'o> {
    reader: Reader<'t>,
    out: Bounded<'o, Node>,
    variables: Variables,
    ghost short: { length (text_of reader) ≤ 2048 },
    ghost room: { 4096 ≤ length (places_of out) },
    ghost few: { length (filled out) ≤ place_of reader + 2 },
}

impl<'t, 'o> Parser<'t, 'o> {
    ghost use Rattle.parser.specs.Operators.{Operated};
    ghost use Rattle.parser.specs.Parsing.{nodes_of, names_of, OnlyReads, OnlyWrites, CalledNext, VariableRead, StepsRead, PathRead};

    /// A parser at the start of a script, with no nodes, and with `plan` alone.
    pub(crate) fn new(text: &'t [u8], places: &'o mut [Node]) -> Parser<'t, 'o>
        requires short { length text.now ≤ 2048 }
        requires room { 4096 ≤ length places.old }
        ensures text { text_of result.reader ≡ text.now }
        ensures place { place_of result.reader ≡ 0 }
        ensures language { language_of result.reader ≡ Language.Script }
        ensures nodes { nodes_of result ≡ [] }
        ensures lender { result.out.places.ghost_name ≡ places.entry.ghost_name }
        ensures variables { names_of result ≡ plan ∷ [] }
    {
        Parser {
            reader: Reader::new(text, Language::Script),
            out: Bounded::new(places),
            variables: Variables::new(),
        }
    }

    /// Writes one node more.
    fn emit(&mut self, node: Node)
        requires { length (nodes_of self.old) < place_of self.old.reader + 2 }
        ensures nodes { nodes_of self.new ≡ nodes_of self.old ++ (node ∷ []) }
        ensures rest { OnlyWrites self.old self.new }
    {
        self.out.push(node).unwrap();
    }

    /// Writes a node in the place of another.
    pub(crate) fn amend(&mut self, at: usize, node: Node)
        ensures nodes { nodes_of self.new ≡ slice_set (nodes_of self.old) at node }
        ensures rest { OnlyWrites self.old self.new }
    {
        let _ = self.out.replace(at, node);
    }

    /// Passes the next token if it is an operator of the rank.
    pub(crate) fn accept_operator(&mut self, rank: Rank) -> Option<Found>
        ensures operator { Operated rank self.old.reader self.new.reader result }
        ensures rest { OnlyReads self.old self.new }
    {
        // Lent first: no proof is made of `self.reader.peek()`, whose result holds a reference.
        let reader = &mut self.reader;
        let next = reader.peek();
        let operator = operator_in(next.token, rank)?;
        reader.take();
        Some(Found {
            operator,
            place: next.start,
        })
    }

    /// Passes a name that is no keyword.
    fn name(&mut self) -> Result<Called<'t>, Refusal>
        ensures name { CalledNext self.old.reader self.new.reader result }
        ensures rest { OnlyReads self.old self.new }
    {
        // Lent first: no proof is made of `self.reader.peek()`, whose result holds a reference.
        let reader = &mut self.reader;
        let next = reader.peek();
        match next.token {
            Token::Name(bytes) if classify(bytes) == Word::Name => {
                reader.take();
                Ok(Called {
                    bytes,
                    place: next.start,
                })
            }
            _ => Err(next.misplaced()),
        }
    }

    /// Passes a variable and tells its number.
    fn variable(&mut self) -> Result<usize, Refusal>
        ensures variable { VariableRead self.old self.new result }
        ensures out { self.new.out ≡ self.old.out }
    {
        let called = self.name()?;
        self.variables.number(called.bytes).ok_or(Refusal {
            reason: Reason::Many,
            place: called.place,
        })
    }

    /// { "." name }: passes names after dots, and tells how many.
    #[tactic(auto, using(crate::proofs::Trails::stepping_on), unfolding(crate::specs::Code::steps_code))]
    fn steps(&mut self) -> Result<usize, Refusal>
        ensures { StepsRead self.old self.new result }
    {
        let mut count = 0;
        while self.reader.accept(b'.') {
            let called = self.name()?;
            self.emit(Node::Step(Span {
                place: called.place,
                length: called.bytes.len(),
            }));
            count += 1;
        }
        Ok(count)
    }

    /// A variable with names after dots; tells how many names.
    #[tactic(auto, using(crate::proofs::Trails::path_breaks, crate::proofs::Trails::path_goes))]
    pub(crate) fn path(&mut self) -> Result<usize, Refusal>
        ensures { PathRead self.old self.new result }
    {
        let number = self.variable()?;
        self.emit(Node::Variable(number));
        self.steps()
    }
}
