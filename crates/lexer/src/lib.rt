//! The lexical layer: byte classes, lawful names, the reasons of refusals, tokens, and the reader that goes through a
//! text from front to back.
#![tactic(auto)]

pub mod class;
pub mod name;
pub mod reader;
pub mod refusal;
pub mod theorems;
pub mod token;
