//! Scripts: their tree, and how they are read.
#![tactic(auto)]

pub mod theorems;
