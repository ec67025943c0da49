//! Linked lists of numbered nodes, through fixed arrays.
//!
//! A caller may rely on this: each list is a list of numbers, front first; a call changes the lists that it
//! names and no other; a number stands in at most one list, and a node in at most one list of each lane.
//! Only `Lists::new` and `Nodes::reserve` take memory, and each other call takes a fixed number of steps.
#![tactic(auto)]

mod lists;
mod nodes;
#[cfg(test)]
mod tests;

pub use lists::Lists;
pub use nodes::{Lane, Nodes};
