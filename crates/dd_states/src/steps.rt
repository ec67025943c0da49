// Calls of a store, and what each answers.

use crate::blocks::Block;
use dd_model::{Done, Kind};
use dd_store::StoreFault;

/// A call of the store.
#[derive(Clone, Copy, Debug)]
pub enum Call {
    Read(u32),
    Write(u32, Block),
    Tick,
    Clean,
    Flush,
}

/// What a call answers.
#[derive(Clone, Copy, Debug, PartialEq, Eq)]
pub enum Told {
    Read(Block, Answer),
    Written(Answer),
    /// The address that was written back.
    Ticked(Option<u32>),
    Cleaned,
    /// How many references are committed.
    Flushed(u64),
    Fault(StoreFault),
}

/// What a reference answers: its kind, the address that fell off, and the first bytes of the fingerprint of the
/// block that did.
#[derive(Clone, Copy, Debug, PartialEq, Eq)]
pub struct Answer {
    pub kind: Kind,
    pub out: Option<u32>,
    pub drop: Option<[u8; 4]>,
}

/// The answer of a reference for which nothing fell off.
pub const HIT: Answer = Answer {
    kind: Kind::Hit,
    out: None,
    drop: None,
};

pub const JOIN: Answer = Answer {
    kind: Kind::Join,
    out: None,
    drop: None,
};

pub const MISS: Answer = Answer {
    kind: Kind::Miss,
    out: None,
    drop: None,
};

pub const DUP: Answer = Answer {
    kind: Kind::Dup,
    out: None,
    drop: None,
};

pub const NEW: Answer = Answer {
    kind: Kind::New,
    out: None,
    drop: None,
};

/// The answer of a reference that was made.
pub fn answer_of(done: Done) -> Answer {
    Answer {
        kind: done.kind,
        out: done.cut.out,
        drop: done.cut.drop.map(|row| first_of(row.fp.0)),
    }
}

fn first_of(print: [u8; 32]) -> [u8; 4] {
    [print[0], print[1], print[2], print[3]]
}
