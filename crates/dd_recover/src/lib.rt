//! Formatting a flash, and opening what both devices stand for.
//!
//! A caller may rely on this. A crash at any moment of a format leaves devices as a crash before it
//! might have, or a flash that isn't in use, or devices that stand for the disk's array with empty
//! lists. Nothing is written where a format is refused, and the disk is never written. A format takes
//! no memory. An opening writes nothing at all, and what a crash might leave stays what it was. Devices
//! that stand for a state are opened with that state; else the answer is the first condition under which
//! they aren't, in the order of `specs/Opening`.
#![tactic(auto)]

mod fault;
mod format;
mod lists;
mod open;
mod opening_fault;

pub use fault::FormatFault;
pub use format::format_flash;
pub use open::open_store;
pub use opening_fault::OpenFault;
