//! A large run: the commands that a number generates, served by a store.
//!
//! A caller may rely on this: from one seed and one geometry the commands are the same in each run,
//! and they are those of the definition. `generate` opens the cache, serves so many of them, commits,
//! and says what their references came to. Wherever it stops, the devices stand for the array and both
//! lists behind some first part of the commands, and behind all of them where the line `bye` was said.
#![tactic(auto)]

mod generator;
mod lcg;
mod opening;
mod running;
mod saying;
mod stepping;
mod sums;
#[cfg(test)]
mod tests;

pub use generator::{Gen, Made};
pub use lcg::Lcg;
pub use opening::generate;
