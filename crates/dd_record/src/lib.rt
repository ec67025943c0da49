//! What the regions of a flash are spelled of: the header of a snapshot, the rows of both recency
//! lists, and the records of the log.
//!
//! Each has one spelling, of a fixed length; numbers have the lower byte first. Version 1 has no
//! zero block; whatever it has is spelled alike in version 2. A caller may rely on this: `put_x`
//! writes the spelling; `get_x` is Ok exactly on the spellings of values that keep their rules in
//! the geometry and the version, with that value, and else tells the first field, in the order of
//! the format, that breaks its rule. Nothing here takes memory.
#![tactic(auto)]

mod fault;
mod head;
mod rec;
mod rec_bytes;
mod row;
mod row_bytes;
mod rows;

pub use fault::{RowFault, What};
pub use head::{Head, get_head, put_head};
pub use rec::Rec;
pub use rec_bytes::{get_group_count, get_rec, put_rec};
pub use row::{ARow, BRow, Link};
pub use row_bytes::{get_a, get_b, put_a, put_b};
pub use rows::Rows;
