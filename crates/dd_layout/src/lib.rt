//! The layout of a flash: its superblock, and where its regions and its slots stand.
//!
//! A flash begins with a superblock of 64 bytes, which says the geometry. Two regions follow, and
//! then the slots, a block each. A caller may rely on this: a superblock is read exactly where the
//! 64 bytes are the one spelling of a geometry, and the first check that they break is told else;
//! each place is a formula of the geometry alone. Nothing here takes memory.
#![tactic(auto)]

mod offsets;
mod superblock;

pub use offsets::{disk_need, flash_need, region_at, slot_at};
pub use superblock::{SuperFault, read_super, write_super};
