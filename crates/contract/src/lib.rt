//! Contracts: which paths may be read, and which may be written.
#![tactic(auto)]

pub mod both;
pub mod contract;
pub mod depth;
pub mod expressions;
pub mod laws;
pub mod path_text;
pub mod permits;
pub mod theorems;
