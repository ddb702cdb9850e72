//! The position automaton of a contract's two trees.
ghost use Rattle.std.specs.Prelude.{◌≡◌, ℕ, ◌<◌, ◌||◌, [], ◌∷◌};
ghost use Rattle.lexer.specs.Names.{Path};
ghost use Rattle.expression.specs.Held.{read_tree, write_tree};
ghost use Rattle.automaton.specs.Positions.{size, follow as may_follow};
ghost use Rattle.automaton.specs.Tells.{Tells, link_of};

use crate::facts::Facts;
use crate::letters::matching;
use crate::links::followers;
use crate::pass::{Operands, pass};
use crate::positions::{Positions, READ_START, WRITE_START};
use expression::texts::Text;
use expression::trees::{MAX_LETTERS, Trees};

/// The trees of a read text and a write text, and what is known of them. The positions of the read tree are numbered
/// from 0 on, and those of the write tree after them.
#[derive(Clone, Copy)]
pub struct Automaton {
    trees: Trees,
    reads: Facts,
    writes: Facts,
    // Numbers, and not `Positions`: an array of these was tried when they had a `Model`, and of such an array no proof is made
    // where another crate takes an `Expression` out of a `Result`. It has not been tried since.
    follow: [u64; MAX_LETTERS],
    ghost read: { Tells reads (read_tree trees) 0 },
    ghost write: { Tells writes (write_tree trees) (size (read_tree trees)) },
    ghost links: { (x y : ℕ) → x < 62 → link_of follow x y ≡ (may_follow (read_tree trees) 0 x y || may_follow (write_tree trees) (size (read_tree trees)) x y) },
}

impl Automaton {
    ghost use Rattle.automaton.specs.Residues.{trees_of, reads_left, writes_left};

    /// The automaton of the trees.
    #[tactic(auto, using(crate::proofs::Runs::tree_run, crate::proofs::Labels::few_letters, crate::proofs::Labels::size_is))]
    pub fn new(trees: Trees) -> Automaton
        ensures { trees_of result ≡ trees }
    {
        let mut operands = Operands::new(Facts::EMPTY);
        let unlinked = [0; MAX_LETTERS];
        let reads = pass(trees.operations(Text::Read), 0, unlinked, &mut operands);
        let from = trees.letter_count(Text::Read);
        let writes = pass(
            trees.operations(Text::Write),
            from,
            reads.follow,
            &mut operands,
        );
        // Taken out first: no proof is made of an array that moves from one struct into another.
        let follow = writes.follow;
        Automaton {
            trees,
            reads: reads.facts,
            writes: writes.facts,
            follow,
        }
    }

    /// The residue after the name: what it leaves is what was left with the name before it.
    pub fn step(&self, at: Positions, name: &[u8]) -> Positions
        ensures reads { (q : Path) → reads_left self.now result.mask q ≡ reads_left self.now at.mask (name.now ∷ q) }
        ensures writes { (q : Path) → writes_left self.now result.mask q ≡ writes_left self.now at.mask (name.now ∷ q) }
    {
        let reads = self.reads.first.when(at.has(READ_START));
        let writes = self.writes.first.when(at.has(WRITE_START));
        let next = followers(&self.follow, at) | reads | writes;
        next & matching(self.trees.letters(), name)
    }

    // Two calls, and not one that is told which: they go by different rules.

    /// Whether the residue leaves the empty path to be read.
    #[tactic(auto, using(crate::proofs::Labels::few_reads))]
    pub fn readable(&self, at: Positions) -> bool
        ensures { result ≡ reads_left self.now at.mask [] }
    {
        at.meets(Positions::below(self.trees.letter_count(Text::Read))) || at.has(READ_START)
    }

    /// Whether the residue leaves the empty path to be written.
    #[tactic(auto, using(crate::proofs::Residues::writes_empty))]
    pub fn writable(&self, at: Positions) -> bool
        ensures { result ≡ writes_left self.now at.mask [] }
    {
        at.meets(self.writes.last) || at.has(WRITE_START) && self.writes.nullable
    }
}
