//! Both recency lists in linked nodes: the metadata cache and the data cache, coupled.
//!
//! A caller may rely on this: it is what plain vectors are, call for call. Each call takes a fixed number
//! of steps, expected, but for those that say what they cost. Only `Policy::new` takes memory.
#![tactic(auto)]

mod blocks;
mod counting;
mod policy;
mod references;
mod renewing;
mod restoring;
mod searching;
#[cfg(test)]
mod tests;

pub use policy::Policy;
