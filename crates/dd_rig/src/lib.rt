//! The outside of the cache: two devices, an output and a source of input, as traits.
//!
//! A caller may rely on what each call means, whether it succeeds or fails, and on what a crash at
//! any moment of it may leave. The lemmas by which such facts carry from call to call, and through
//! loops, stand in `proofs/`.
#![tactic(auto)]

mod counts;
mod device;
mod rig;
mod source;
mod tallies;

pub use device::{Dev, Failed};
pub use rig::Rig;
pub use source::Source;
pub use tallies::{Calls, Counts};
