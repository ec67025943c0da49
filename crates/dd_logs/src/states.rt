// What a flash of the small cache has before and behind each commit.

use crate::tables::{
    ALL_LOG, BOTH_LOG, EIGHT_LOG, FIRST_LOG, Five, SECOND_TABLE, ZERO_LOG, ZERO_TABLE,
};
use dd_journal::Found;
use dd_record::{Head, Rec};

/// What `find` should give, here on a flash of version 1. The count is that of the snapshot, and `committed` that behind the log.
#[derive(Clone, Copy)]
pub struct State {
    pub region: u32,
    pub head: Head,
    pub table: Option<Five>,
    /// The place and the record.
    pub log: &'static [(u64, Rec)],
    pub room: u32,
    pub committed: u64,
}

impl State {
    /// The same on a flash of that version.
    pub fn in_version(self, version: u8) -> State {
        let head = Head {
            version: u32::from(version),
            ..self.head
        };
        State { head, ..self }
    }

    pub fn is_in(&self, found: &Found) -> bool {
        found.region == self.region
            && found.head == self.head
            && self.has_rows(found)
            && self.has_log(found)
            && found.journal.room() == self.room
            && found.journal.committed() == self.committed
    }

    fn has_rows(&self, found: &Found) -> bool {
        match self.table {
            None => found.a.is_empty() && found.b.is_empty(),
            Some(table) => {
                found.a.as_slice() == table.a().as_slice()
                    && found.b.as_slice() == table.b().as_slice()
            }
        }
    }

    fn has_log(&self, found: &Found) -> bool {
        let same = |i: usize| match (found.recs.get(i), self.log.get(i)) {
            (Some(placed), Some((at, rec))) => placed.at == *at && placed.rec == *rec,
            _ => false,
        };
        found.recs.len() == self.log.len() && (0..self.log.len()).all(same)
    }
}

pub const FORMATTED: State = State {
    region: 0,
    head: Head {
        version: 1,
        epoch: 1,
        count: 0,
        len_a: 0,
        len_b: 0,
    },
    table: None,
    log: &[],
    room: 392,
    committed: 0,
};

/// Behind a group of three records.
pub const AFTER_FIRST: State = State {
    log: &FIRST_LOG,
    room: 243,
    committed: 3,
    ..FORMATTED
};

/// And one of two.
pub const AFTER_SECOND: State = State {
    log: &BOTH_LOG,
    room: 142,
    committed: 5,
    ..FORMATTED
};

/// Three records more have no room.
pub const AFTER_THIRD: State = State {
    region: 1,
    head: Head {
        version: 1,
        epoch: 2,
        count: 8,
        len_a: 3,
        len_b: 2,
    },
    table: Some(SECOND_TABLE),
    log: &[],
    room: 392,
    committed: 8,
};

/// Eight records fill the log of that region.
pub const AFTER_EIGHT: State = State {
    log: &EIGHT_LOG,
    room: 3,
    committed: 16,
    ..AFTER_THIRD
};

/// Three records more are a snapshot in the region that was the first.
pub const AFTER_LAST: State = State {
    region: 0,
    head: Head {
        version: 1,
        epoch: 3,
        count: 19,
        len_a: 3,
        len_b: 2,
    },
    log: &[],
    room: 392,
    committed: 19,
    ..AFTER_THIRD
};

/// A group of eight records fills the log of a formatted flash.
pub const AFTER_ALL: State = State {
    log: &ALL_LOG,
    room: 3,
    committed: 8,
    ..FORMATTED
};

/// One record more is a snapshot.
pub const AFTER_ONE_MORE: State = State {
    head: Head {
        version: 1,
        epoch: 2,
        count: 9,
        len_a: 3,
        len_b: 2,
    },
    committed: 9,
    ..AFTER_THIRD
};

/// A write of zeros behind the first two groups, in version 2.
pub const AFTER_ZERO: State = State {
    log: &ZERO_LOG,
    room: 89,
    committed: 6,
    ..FORMATTED
};

/// And behind the full log: a snapshot with a row of zeros.
pub const AFTER_ZERO_ROW: State = State {
    table: Some(ZERO_TABLE),
    ..AFTER_ONE_MORE
};
