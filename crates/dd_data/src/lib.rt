//! The data cache: the listed distinct blocks, the most recently referenced first.
//!
//! A caller may rely on this: each call is a plain step on the list of rows, and a row is found by its
//! slot or by its fingerprint. Only `DataCache::new` takes memory.
#![tactic(auto)]

mod cache;
#[cfg(test)]
mod tests;
mod walks;

pub use cache::DataCache;
