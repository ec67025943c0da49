//! What the store answers to the lines of a script.
//!
//! `StoreCache` is a store as what answers a line: it is a `Cache` of dd_loop. A read and a write are
//! references of the store; a flush and a quit commit; `c` and `t` write dirty addresses back. A read of
//! a device that failed is a line that says so, a write or a sync that failed ends the run.
#![tactic(auto)]

mod cache;
mod lines;
mod listing;
mod opening;
mod serving;

pub use cache::StoreCache;
pub use listing::say_rows;
pub use opening::{ending_of, serve};
