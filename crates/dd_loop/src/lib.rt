//! The loop over the lines of a script: one reply for each command, whatever cache answers it.
//!
//! `Cache` is the contract of what answers a line: it holds one state, it has committed another, and a
//! crash within an answer leaves devices that stand for one of the two. `serve_lines` reads the lines
//! and says the answers. A caller may rely on this: at each moment of each call of a device or of the
//! output, a crash leaves devices that stand for the state after one prefix of the references that the
//! output answers, no shorter than any flush that it acknowledges; every line is its command's reply, or
//! tells of a read that failed; and a run ends early only where a call failed, or the script is too long.
#![tactic(auto)]

mod cache;
mod ending;
mod halt;
mod saying;
mod serving;

pub use cache::{Cache, Written};
pub use ending::{Ending, finish};
pub use halt::Halt;
pub use saying::{say, say_reply};
pub use serving::serve_lines;
