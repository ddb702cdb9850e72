//! The first parts of a reader of scripts: words, operators, variables and paths, read from a text into nodes that the host
//! lends. Statements and whole expressions are not read yet.
#![tactic(auto)]

pub mod node;
pub mod operators;
mod parser;
pub mod variables;
pub mod word;
