//! One pass over the operations of a tree.
ghost use Rattle.std.specs.Prelude.{◌≡◌, ◌+◌, ◌<◌, ◌≤◌, [], ◌∷◌, ◌++◌, length, MatchOption};
ghost use Rattle.bounded.specs.Rows.{entries_of};
ghost use Rattle.automaton.specs.Passes.{step, run, top};
ghost use Rattle.automaton.specs.Tells.{summary_of, link_of, begun};

use crate::facts::Facts;
use crate::links::link;
use bounded::row::Row;
use expression::operation::Operation;
use expression::trees::{MAX_LETTERS, MAX_TEXT};

/// The facts of the operands.
pub(crate) type Operands = Row<Facts, MAX_TEXT>;

/// The letters counted, and the positions that may follow each position: these as the numbers that an `Automaton` holds. The
/// operands, a large row, lie beside the state: one row serves both trees.
#[derive(Clone, Copy)]
struct State {
    count: usize,
    follow: [u64; MAX_LETTERS],
}

/// Takes the last two operands away, if there are two.
fn pop_two(operands: &mut Operands) -> Option<(Facts, Facts)>
    ensures { MatchOption result ((length (entries_of operands.old) < 2) × (operands.new ≡ operands.old)) (λ two. entries_of operands.old ≡ entries_of operands.new ++ two.0 ∷ two.1 ∷ []) }
{
    if operands.len() < 2 {
        return None;
    }
    let right = operands.pop()?;
    let left = operands.pop()?;
    Some((left, right))
}

impl State {
    ghost use Rattle.automaton.specs.States.{pass_of};

    /// Applies one operation, if it finds its operands.
    #[tactic(auto, unfolding(crate::specs::Passes::step))]
    fn apply(&mut self, operands: &mut Operands, operation: Operation)
        requires room { length (entries_of operands.old) < 400 }
        requires few { (step operation (pass_of operands.old self.old)).count ≤ 62 }
        ensures made { pass_of operands.new self.new ≡ step operation (pass_of operands.old self.old) }
        ensures height { length (entries_of operands.new) ≤ length (entries_of operands.old) + 1 }
    {
        let made = match operation {
            Operation::Empty => Facts::EMPTY,
            Operation::Letter => {
                let letter = Facts::letter(self.count);
                self.count += 1;
                letter
            }
            Operation::Alternative => {
                let Some((left, right)) = pop_two(operands) else {
                    return;
                };
                left.alternative(right)
            }
            Operation::Sequence => {
                let Some((left, right)) = pop_two(operands) else {
                    return;
                };
                link(&mut self.follow, left.last, right.first);
                left.sequence(right)
            }
            Operation::Star => {
                let Some(inner) = operands.pop() else {
                    return;
                };
                link(&mut self.follow, inner.last, inner.first);
                inner.star()
            }
        };
        operands.push(made).unwrap();
    }
}

/// What a pass finds.
#[derive(Clone, Copy, PartialEq, Eq, Debug)]
pub(crate) struct Found {
    pub(crate) facts: Facts,
    pub(crate) follow: [u64; MAX_LETTERS],
}

/// Passes over the operations of a tree, its positions numbered from `from` on, and adds to the links made so far. What the
/// row of operands held is lost.
#[tactic(auto, using(crate::proofs::Piles::top_piled, crate::proofs::Runs::run_next, crate::proofs::Runs::run_end, crate::proofs::Runs::run_count))]
pub(crate) fn pass(
    operations: &[Operation],
    from: usize,
    follow: [u64; MAX_LETTERS],
    operands: &mut Operands,
) -> Found
    requires short { length operations.now ≤ 400 }
    requires few { (run operations.now (begun from follow)).count ≤ 62 }
    ensures facts { summary_of result.facts ≡ top (run operations.now (begun from follow)).pile }
    ensures follow { link_of result.follow ≡ (run operations.now (begun from follow)).link }
{
    operands.clear();
    let mut state = State {
        count: from,
        follow,
    };
    for operation in operations {
        state.apply(operands, *operation);
    }
    Found {
        facts: operands.pop().unwrap_or(Facts::EMPTY),
        follow: state.follow,
    }
}
