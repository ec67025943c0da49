// What a line of output says, but for the answer to a read.

use crate::BadKind;
use dd_layout::SuperFault;
use dd_model::{Done, Orphans};
use dd_rig::Dev;

/// Why a run stopped before the end of its script.
#[derive(Clone, Copy, Debug, PartialEq, Eq)]
pub enum Stop {
    /// A write or a sync of the flash failed.
    Flash,
    /// A write or a sync of the disk failed.
    Disk,
    /// A take of the script's source failed.
    Script,
    /// The script has too many bytes.
    Length,
    /// There was no memory to begin with.
    Memory,
}

/// Why a run was refused before it began.
#[derive(Clone, Copy, Debug, PartialEq, Eq)]
pub enum Refusal {
    /// The words are no known form, or a number is out of its range.
    Words,
    /// The flash has fewer bytes than the run needs.
    FlashSmall { need: u64, have: u64 },
    /// The disk has fewer bytes than the run needs.
    DiskSmall { need: u64, have: u64 },
    /// The flash is in use: its byte 0 is 1.
    InUse,
    /// The flash has no superblock.
    Super(SuperFault),
    /// Neither region of the flash is open.
    NoRegion,
    /// The snapshot of a region is damaged at that place of the flash.
    Snapshot { region: u32, at: u64 },
    /// The log of a region is damaged at that place of the flash.
    Group { region: u32, at: u64 },
    /// The epoch or the count is 2^62 or greater.
    Worn { value: u64 },
    /// The flash is of version 1.
    Version1,
}

/// What the references of a large run came to: how many there were of each kind, and how many addresses
/// and blocks fell off the lists.
#[derive(Clone, Copy, Debug, PartialEq, Eq)]
pub struct Sums {
    pub hits: u32,
    pub joins: u32,
    pub misses: u32,
    pub dups: u32,
    pub news: u32,
    pub outs: u32,
    pub drops: u32,
}

/// A line of output.
#[derive(Clone, Copy, Debug, PartialEq, Eq)]
pub enum Reply {
    /// A write was done.
    Write(Done),
    /// So many references are committed.
    Flushed(u64),
    /// No address is dirty.
    Cleaned,
    /// The address that had become dirty longest ago isn't dirty, where one was.
    Ticked,
    /// There were so many references; and so many listed addresses and blocks are orphaned.
    Stat { count: u64, orphans: Orphans },
    /// The line is no command.
    Bad(BadKind),
    /// A read of that device failed, and nothing has changed.
    Fault(Dev),
    /// The end, after that many references.
    Bye(u64),
    Stopped(Stop),
    Refused(Refusal),
    /// The flash was formatted.
    Formatted,
    /// What a large run came to.
    Sum(Sums),
}
