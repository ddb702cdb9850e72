//! A store over another, which it reads and never changes.
#![tactic(auto)]

mod changes;
pub mod overlay;
