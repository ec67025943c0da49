//! The script language: what a line says, and the text of each reply.
//!
//! A caller may rely on this: `parse` reads any line, and tells which check it breaks first; what a
//! line may say is its `Dialect`, and a write leaves its block in the caller's buffer; each reply is
//! one line, written as its definition spells it; `Reader` cuts a source into the lines of the
//! script, and takes little behind the line that ends it. Memory is taken by `Reader::new` alone.
#![tactic(auto)]

mod dialect;
mod line;
mod number;
mod pieces;
mod reader;
mod refusing;
mod reply;
mod text;

pub use dialect::Dialect;
pub use line::{BadKind, Line, parse};
pub use number::{number_below, number_of};
pub use pieces::ScriptFault;
pub use reader::Reader;
pub use reply::{Refusal, Reply, Stop, Sums};
pub use text::{REPLY_ROOM, list_a, list_b, reply_read, write_reply};
