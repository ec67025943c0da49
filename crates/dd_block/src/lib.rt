//! Blocks and what a cache is made of: its geometry, the text and the fingerprint of a block,
//! numbers at a place of a format, and the numbers that all crates draw alike.
//!
//! A caller may rely on this: a `Geometry` that exists keeps its ranges; a text is read exactly
//! where it is one, with the first fault in a fixed order else; each fingerprint is the one that
//! its type defines. Nothing here takes memory.
#![tactic(auto)]

mod field;
mod geometry;
mod lcg;
mod print;
mod text;

pub use field::{first_nonzero, put_bytes, put_u32, put_u64, u32_at, u64_at};
pub use geometry::{Geometry, GeometryFault};
pub use lcg::Lcg;
pub use print::{Fingerprint, FirstByte, Fp, Sha256Print};
pub use text::{TextFault, read_block_text, write_block_text};
