//! The position automaton of a contract's two trees.
#![tactic(auto)]

pub mod automaton;
mod facts;
mod letters;
mod links;
mod pass;
pub mod positions;
pub mod theorems;
