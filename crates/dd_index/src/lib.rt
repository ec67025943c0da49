//! An index from keys to numbered nodes, chained through fixed arrays.
//!
//! A caller may rely on this: for each key the index has a list of nodes, the one that was inserted
//! last first, and each call changes the lists that it names and no other. Only `Index::new` takes memory.
#![tactic(auto)]

mod index;
#[cfg(test)]
mod tests;

pub use index::Index;
