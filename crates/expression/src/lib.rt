//! Path expressions: how they are read, and what they stand for.
#![tactic(auto)]

pub mod letter;
pub mod operation;
pub mod parser;
pub mod texts;
pub mod theorems;
pub mod trees;
