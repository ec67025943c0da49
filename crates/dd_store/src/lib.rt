//! The store: what it is that two devices stand for a state of the cache, and how calls carry it on.
//!
//! `specs/Meaning` has the relation that every crash clause above ends in: the bytes of a flash and
//! of a disk stand for an array, both recency lists and a count. It reads two whole images; it knows
//! nothing of pending records, free slots or indexes. Two devices stand for one state at most
//! (`proofs/Sole`). `specs/Keeping` says what holds between a store and a rig from one device call
//! to the next. `Store` has the calls: `read` and `write` reference an address, `flush` commits,
//! `clean` and `tick` write dirty addresses back, `lay` and `mark` are the two halves of that. A
//! crash within any of them leaves devices that stand for the state committed or for the one held
//! (`specs/Serving`); what a reference leaves of the rows and what it costs is in `specs/Bringing`,
//! what a round of write-back does in `specs/Rounds`.
#![tactic(auto)]

mod along;
mod commit;
mod fault;
mod kinds;
mod lay;
mod lay_all;
mod mark;
mod place;
mod refer;
mod store;
mod used;

pub use commit::commit_rows;
pub use fault::StoreFault;
pub use lay::{lay_block, lay_row, sync_laid};
pub use place::place_block;
pub use store::Store;
