//! Stores of an object graph: the values of properties, the cells that hold them, the calls of a store, and the search that
//! stores share.
#![tactic(auto)]

pub mod cell;
pub mod checks;
pub mod search;
pub mod store;
pub mod value;
