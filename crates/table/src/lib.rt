//! A store in cells that the host lends: one cell for each property that holds something.
#![tactic(auto)]

pub use store::cell;

pub mod node_table;
