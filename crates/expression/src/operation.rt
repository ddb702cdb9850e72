//! Path expressions in postfix order.

/// An operation adds an operand to a stack, or replaces the last one or two by what it makes of them.
#[derive(Clone, Copy, PartialEq, Eq, Debug)]
pub enum Operation {
    /// `()`.
    Empty,
    /// The next letter.
    Letter,
    Alternative,
    Sequence,
    Star,
}
