//! The metadata cache: the listed addresses, the most recently referenced first, and which of them are dirty.
//!
//! A caller may rely on this: each call is a plain step on the list of rows, on the list of dirty addresses,
//! oldest first, and on the dirty addresses that are linked to each slot. Only `MetaCache::new` takes memory.
#![tactic(auto)]

mod lanes;
mod meta;
#[cfg(test)]
mod tests;

pub use meta::MetaCache;
