// Two tables of the small cache, and the records that lead to them from no rows.

use dd_block::Fp;
use dd_record::{ARow, BRow, Link, Rec, Rows};

const X: Fp = Fp([0xab; 32]);

const Y: Fp = Fp([0xcd; 32]);

const Z: Fp = Fp([0xef; 32]);

/// Three addresses and two blocks, front first.
#[derive(Clone, Copy)]
pub struct Five {
    pub a_front: ARow,
    pub a_middle: ARow,
    pub a_last: ARow,
    pub b_front: BRow,
    pub b_last: BRow,
}

impl Five {
    pub fn a(&self) -> [ARow; 3] {
        [self.a_front, self.a_middle, self.a_last]
    }

    pub fn b(&self) -> [BRow; 2] {
        [self.b_front, self.b_last]
    }
}

impl Rows for Five {
    ghost use Rattle.std.specs.Prelude.{[], ◌∷◌};

    ghost a_rows = { λ t. t.a_front ∷ t.a_middle ∷ t.a_last ∷ [] };

    ghost b_rows = { λ t. t.b_front ∷ t.b_last ∷ [] };

    fn len_a(&self) -> u32 {
        3
    }

    fn len_b(&self) -> u32 {
        2
    }

    fn walk_a(&self, after: Option<u32>) -> Option<ARow> {
        match after {
            None => Some(self.a_front),
            Some(address) => {
                if address == self.a_front.address {
                    Some(self.a_middle)
                } else if address == self.a_middle.address {
                    Some(self.a_last)
                } else {
                    None
                }
            }
        }
    }

    fn walk_b(&self, after: Option<u32>) -> Option<BRow> {
        match after {
            None => Some(self.b_front),
            Some(slot) => {
                if slot == self.b_front.slot {
                    Some(self.b_last)
                } else {
                    None
                }
            }
        }
    }
}

const STORE_Z: Rec = Rec::Store {
    address: 7,
    slot: 2,
    fp: Z,
    dirty: false,
};

const STORE_Y: Rec = Rec::Store {
    address: 2,
    slot: 1,
    fp: Y,
    dirty: false,
};

const STORE_X: Rec = Rec::Store {
    address: 5,
    slot: 0,
    fp: X,
    dirty: true,
};

const HIT_TWO: Rec = Rec::Hit { address: 2 };

const LINK_SEVEN: Rec = Rec::Link {
    address: 7,
    slot: 1,
    dirty: false,
};

const HIT_SEVEN: Rec = Rec::Hit { address: 7 };

/// Reads of blocks `Z` and `Y`, and a write of `X` for which `Z` fell off.
pub const FIRST_RECORDS: [Rec; 3] = [STORE_Z, STORE_Y, STORE_X];

/// The rows behind them.
pub const FIRST_TABLE: Five = Five {
    a_front: ARow {
        address: 5,
        link: Link::Slot(0),
        dirty: true,
        fp: X,
    },
    a_middle: ARow {
        address: 2,
        link: Link::Slot(1),
        dirty: false,
        fp: Y,
    },
    a_last: ARow {
        address: 7,
        link: Link::Lost,
        dirty: false,
        fp: Z,
    },
    b_front: BRow { slot: 0, fp: X },
    b_last: BRow { slot: 1, fp: Y },
};

/// A read of address 2, and one of address 7, which now has the block `Y`.
pub const SECOND_RECORDS: [Rec; 2] = [HIT_TWO, LINK_SEVEN];

/// The rows behind those.
pub const SECOND_TABLE: Five = Five {
    a_front: ARow {
        address: 7,
        link: Link::Slot(1),
        dirty: false,
        fp: Y,
    },
    a_middle: ARow {
        address: 2,
        link: Link::Slot(1),
        dirty: false,
        fp: Y,
    },
    a_last: ARow {
        address: 5,
        link: Link::Slot(0),
        dirty: true,
        fp: X,
    },
    b_front: BRow { slot: 1, fp: Y },
    b_last: BRow { slot: 0, fp: X },
};

// A write of zeros to address 2, which version 1 can't say.
const ZERO_TWO: Rec = Rec::Zero {
    address: 2,
    dirty: true,
};

pub const ONE_ZERO: [Rec; 1] = [ZERO_TWO];

/// The rows behind it, from those of `SECOND_TABLE`.
pub const ZERO_TABLE: Five = Five {
    a_front: ARow {
        address: 2,
        link: Link::Zero,
        dirty: true,
        fp: Fp([0; 32]),
    },
    a_middle: ARow {
        address: 7,
        link: Link::Slot(1),
        dirty: false,
        fp: Y,
    },
    a_last: ARow {
        address: 5,
        link: Link::Slot(0),
        dirty: true,
        fp: X,
    },
    b_front: BRow { slot: 1, fp: Y },
    b_last: BRow { slot: 0, fp: X },
};

/// A read of address 7, which leaves those rows as they are.
pub const ONE_HIT: [Rec; 1] = [HIT_SEVEN];

/// Three of them.
pub const THREE_HITS: [Rec; 3] = [HIT_SEVEN; 3];

/// Eight, as many as a group may have.
pub const EIGHT_HITS: [Rec; 8] = [HIT_SEVEN; 8];

/// The records of both commits and three hits.
pub const ALL_RECORDS: [Rec; 8] = [
    STORE_Z, STORE_Y, STORE_X, HIT_TWO, LINK_SEVEN, HIT_SEVEN, HIT_SEVEN, HIT_SEVEN,
];

/// The log of region 0 behind the first commit: the place of each record, and the record.
pub const FIRST_LOG: [(u64, Rec); 3] = [(102, STORE_Z), (150, STORE_Y), (198, STORE_X)];

/// And behind the second.
pub const BOTH_LOG: [(u64, Rec); 5] = [
    (102, STORE_Z),
    (150, STORE_Y),
    (198, STORE_X),
    (251, HIT_TWO),
    (299, LINK_SEVEN),
];

/// And behind a write of zeros.
pub const ZERO_LOG: [(u64, Rec); 6] = [
    (102, STORE_Z),
    (150, STORE_Y),
    (198, STORE_X),
    (251, HIT_TWO),
    (299, LINK_SEVEN),
    (352, ZERO_TWO),
];

/// All eight records in one group.
pub const ALL_LOG: [(u64, Rec); 8] = [
    (102, STORE_Z),
    (150, STORE_Y),
    (198, STORE_X),
    (246, HIT_TWO),
    (294, LINK_SEVEN),
    (342, HIT_SEVEN),
    (390, HIT_SEVEN),
    (438, HIT_SEVEN),
];

/// The log of region 1 behind a snapshot of five rows and eight hits.
pub const EIGHT_LOG: [(u64, Rec); 8] = [
    (935, HIT_SEVEN),
    (983, HIT_SEVEN),
    (1031, HIT_SEVEN),
    (1079, HIT_SEVEN),
    (1127, HIT_SEVEN),
    (1175, HIT_SEVEN),
    (1223, HIT_SEVEN),
    (1271, HIT_SEVEN),
];
