//! The nodes of a script: expressions in postfix order, and statements each before its parts.

/// A name after a dot, by where it stands in the text.
#[derive(Clone, Copy, PartialEq, Eq, Debug)]
pub struct Span {
    pub place: usize,
    pub length: usize,
}

/// `+`, `-`, `*`, `<` and `==`.
#[derive(Clone, Copy, PartialEq, Eq, Debug)]
pub enum Operator {
    Plus,
    Minus,
    Times,
    Less,
    Same,
}

/// A part of a script. A variable is known by its number among the script's variables. A statement tells how many nodes
/// each of its parts has; they stand right after it, one part after the other.
#[derive(Clone, Copy, PartialEq, Eq, Debug)]
pub enum Node {
    Number(i32),
    Variable(usize),
    /// A name after a dot, of what stands before.
    Step(Span),
    /// Whether what stands before is anything.
    Has,
    /// Of the two expressions before.
    Binary {
        operator: Operator,
        place: usize,
    },
    /// A variable, and the value that it is assigned.
    Assign {
        value: usize,
    },
    /// A path of a variable and so many names, and the value to write.
    Write {
        names: usize,
        value: usize,
    },
    /// A path of a variable and so many names.
    Cut {
        names: usize,
    },
    Say {
        place: usize,
        value: usize,
    },
    If {
        place: usize,
        test: usize,
        then: usize,
        otherwise: usize,
    },
    While {
        place: usize,
        test: usize,
        body: usize,
    },
}
