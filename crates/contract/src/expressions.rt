//! Contracts by path expressions.
ghost use Rattle.automaton.specs.Residues.{reads_left};
ghost use Rattle.expression.specs.Reading.{read_contract};
ghost use Rattle.std.specs.Prelude.{◌≡◌, true, [], is_err};

use crate::contract::Contract;
use automaton::automaton::Automaton;
use automaton::positions::Positions;
use expression::texts::TextRefusal;
use expression::trees::Trees;

/// The beginnings of the read text's paths are readable, the write text's paths writable. Before texts are read the starting
/// residue marks the read start alone, so that nothing is writable.
#[derive(Clone, Copy)]
pub struct Expression {
    automaton: Automaton,
    start: Positions,
    ghost opens: { reads_left automaton start.mask [] ≡ true },
}

impl Expression {
    ghost use Rattle.contract.specs.ExpressionTerms.{start_terms, only_empty, renewed, refusal_in, refusal_told};

    /// The contract that permits only the empty path, for reading.
    pub fn new() -> Expression
        ensures { start_terms result ≡ only_empty }
    {
        Expression {
            automaton: Automaton::new(Trees::empty()),
            start: Positions::read_start(),
        }
    }

    /// Replaces the contract by that of two texts, or refuses and leaves it as it was.
    pub fn read(&mut self, read: &[u8], write: &[u8]) -> Result<(), TextRefusal>
        ensures told { refusal_told result ≡ refusal_in (read_contract read.now write.now) }
        ensures after { start_terms self.new ≡ renewed (start_terms self.old) (read_contract read.now write.now) }
        ensures kept { is_err result ≡ true → self.new ≡ self.old }
    {
        let trees = Trees::parse(read, write)?;
        *self = Expression {
            automaton: Automaton::new(trees),
            start: Positions::starts(),
        };
        Ok(())
    }
}

impl Contract for Expression {
    ghost use Rattle.contract.specs.ExpressionTerms.{expression_terms};
    ghost use Rattle.contract.specs.Opened;

    type Residue = Positions;

    ghost terms = { expression_terms };

    ghost starts = { λ c. c.start };

    ghost orderly = { Opened.orderly };

    ghost opened = { λ c. c.opens };

    fn start(&self) -> Positions {
        self.start
    }

    fn step(&self, at: Positions, name: &[u8]) -> Positions {
        self.automaton.step(at, name)
    }

    fn readable(&self, at: Positions) -> bool {
        self.automaton.readable(at)
    }

    fn writable(&self, at: Positions) -> bool {
        self.automaton.writable(at)
    }
}
