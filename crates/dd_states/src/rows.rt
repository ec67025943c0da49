// Lists of calls on small caches. What is answered was computed by a program that knows the definitions alone; what
// the disk has was worked out by hand.

use crate::blocks::{AA, AB_ONE, AB_TWO, BB, CC, COUNTED, ONE, TWO, ZEROS};
use crate::lists::{List, Print, WORKED, holds};
use crate::steps::{Answer, Call, DUP, HIT, JOIN, MISS, NEW, Told};
use dd_model::Kind;
use dd_rig::Dev;
use dd_rigmem::{Call as RigCall, Fail};
use dd_store::StoreFault;
use std::test::Fail as Stop;

// The first bytes of the SHA-256 of two blocks, by an independent program.
const SHA_AA: Option<[u8; 4]> = Some([0x96, 0x74, 0xf6, 0x7a]);

const SHA_BB: Option<[u8; 4]> = Some([0x60, 0xf9, 0x81, 0x4f]);

// And the first byte of a block alone.
const FIRST_AB: Option<[u8; 4]> = Some([0xab, 0, 0, 0]);

// What falls off with a reference.
const DUP_OUT_4: Answer = Answer {
    kind: Kind::Dup,
    out: Some(4),
    drop: None,
};

const NEW_DROP_AA: Answer = Answer {
    kind: Kind::New,
    out: None,
    drop: SHA_AA,
};

const MISS_DROP_BB: Answer = Answer {
    kind: Kind::Miss,
    out: None,
    drop: SHA_BB,
};

const MISS_OUT_4_DROP_AA: Answer = Answer {
    kind: Kind::Miss,
    out: Some(4),
    drop: SHA_AA,
};

const NEW_DROP_AB: Answer = Answer {
    kind: Kind::New,
    out: None,
    drop: FIRST_AB,
};

const MISS_DROP_AB: Answer = Answer {
    kind: Kind::Miss,
    out: None,
    drop: FIRST_AB,
};

const JOIN_OUT_4: Answer = Answer {
    kind: Kind::Join,
    out: Some(4),
    drop: None,
};

const FALLS_OFF: List = List {
    calls: &[
        (Call::Write(4, AA), Told::Written(NEW)),
        (Call::Write(5, AA), Told::Written(DUP)),
        (Call::Write(6, AA), Told::Written(DUP)),
        (Call::Write(7, AA), Told::Written(DUP_OUT_4)),
    ],
    disk: &[(4, AA)],
    ..WORKED
};

#[test]
fn an_address_that_falls_off_is_on_the_disk(rt: HostRuntime) -> Result<(), Stop> {
    holds(&rt, rt.alloc(), FALLS_OFF)
}

// The block of addresses 4 and 5 falls off, and then that which address 6 had before.
const DROPPED: List = List {
    calls: &[
        (Call::Write(4, AA), Told::Written(NEW)),
        (Call::Write(5, AA), Told::Written(DUP)),
        (Call::Write(6, BB), Told::Written(NEW)),
        (Call::Write(6, CC), Told::Written(NEW_DROP_AA)),
        (Call::Read(4), Told::Read(AA, MISS_DROP_BB)),
    ],
    disk: &[(4, AA), (5, AA)],
    ..WORKED
};

#[test]
fn all_that_have_a_block_are_on_the_disk_before_it_falls_off(rt: HostRuntime) -> Result<(), Stop> {
    holds(&rt, rt.alloc(), DROPPED)
}

// Both blocks have one fingerprint.
const ONE_LISTED: List = List {
    print: Print::FirstByte,
    bcap: 1,
    flash: 1282,
    calls: &[
        (Call::Write(1, AB_ONE), Told::Written(NEW)),
        (Call::Write(2, AB_TWO), Told::Written(NEW_DROP_AB)),
        (Call::Read(1), Told::Read(AB_ONE, MISS_DROP_AB)),
    ],
    disk: &[(1, AB_ONE), (2, AB_TWO)],
    ..WORKED
};

#[test]
fn one_block_is_listed_at_most(rt: HostRuntime) -> Result<(), Stop> {
    holds(&rt, rt.alloc(), ONE_LISTED)
}

// Both are listed, and each is told from the other by its bytes.
const ONE_PRINT: List = List {
    print: Print::FirstByte,
    calls: &[
        (Call::Write(1, AB_ONE), Told::Written(NEW)),
        (Call::Write(2, AB_TWO), Told::Written(NEW)),
        (Call::Write(3, AB_ONE), Told::Written(DUP)),
        (Call::Read(2), Told::Read(AB_TWO, HIT)),
        (Call::Read(3), Told::Read(AB_ONE, HIT)),
    ],
    ..WORKED
};

#[test]
fn blocks_of_one_fingerprint_are_two(rt: HostRuntime) -> Result<(), Stop> {
    holds(&rt, rt.alloc(), ONE_PRINT)
}

const REWRITTEN: List = List {
    calls: &[
        (Call::Write(5, AA), Told::Written(NEW)),
        (Call::Write(5, AA), Told::Written(DUP)),
        (Call::Write(5, CC), Told::Written(NEW)),
    ],
    ..WORKED
};

#[test]
fn a_write_that_nothing_falls_off_for_is_not_on_the_disk(rt: HostRuntime) -> Result<(), Stop> {
    holds(&rt, rt.alloc(), REWRITTEN)
}

// The fingerprint of the second block is that of zeros.
const ZEROED: List = List {
    print: Print::FirstByte,
    calls: &[
        (Call::Write(6, ZEROS), Told::Written(DUP)),
        (Call::Read(6), Told::Read(ZEROS, HIT)),
        (Call::Write(6, COUNTED), Told::Written(NEW)),
        (Call::Read(6), Told::Read(COUNTED, HIT)),
    ],
    ..WORKED
};

#[test]
fn zeros_are_a_dup_and_then_a_hit(rt: HostRuntime) -> Result<(), Stop> {
    holds(&rt, rt.alloc(), ZEROED)
}

// They take no slot, and push out addresses alone.
const ALL_ZERO: List = List {
    calls: &[
        (Call::Read(4), Told::Read(ZEROS, JOIN)),
        (Call::Read(5), Told::Read(ZEROS, JOIN)),
        (Call::Read(6), Told::Read(ZEROS, JOIN)),
        (Call::Read(7), Told::Read(ZEROS, JOIN_OUT_4)),
    ],
    ..WORKED
};

#[test]
fn zeros_that_are_read_are_a_join(rt: HostRuntime) -> Result<(), Stop> {
    holds(&rt, rt.alloc(), ALL_ZERO)
}

const TICKED: List = List {
    calls: &[
        (Call::Write(4, AA), Told::Written(NEW)),
        (Call::Tick, Told::Ticked(Some(4))),
        (Call::Tick, Told::Ticked(None)),
        (Call::Clean, Told::Cleaned),
    ],
    disk: &[(4, AA)],
    ..WORKED
};

#[test]
fn one_tick_cleans_one_dirty_address(rt: HostRuntime) -> Result<(), Stop> {
    holds(&rt, rt.alloc(), TICKED)
}

const CLEANED: List = List {
    calls: &[
        (Call::Write(4, AA), Told::Written(NEW)),
        (Call::Write(0, ZEROS), Told::Written(DUP)),
        (Call::Clean, Told::Cleaned),
        (Call::Tick, Told::Ticked(None)),
    ],
    disk: &[(4, AA), (0, ZEROS)],
    ..WORKED
};

#[test]
fn a_clean_puts_all_on_the_disk(rt: HostRuntime) -> Result<(), Stop> {
    holds(&rt, rt.alloc(), CLEANED)
}

// Address 4 is the only dirty one, and the last of the list.
const LAST_DIRTY: List = List {
    calls: &[
        (Call::Write(4, AA), Told::Written(NEW)),
        (Call::Read(0), Told::Read(ONE, MISS)),
        (Call::Read(2), Told::Read(ONE, JOIN)),
        (Call::Read(1), Told::Read(TWO, MISS_OUT_4_DROP_AA)),
    ],
    disk: &[(4, AA)],
    ..WORKED
};

#[test]
fn the_last_address_falls_off_though_it_is_dirty(rt: HostRuntime) -> Result<(), Stop> {
    holds(&rt, rt.alloc(), LAST_DIRTY)
}

const FLUSHED: List = List {
    calls: &[
        (Call::Write(5, AA), Told::Written(NEW)),
        (Call::Flush, Told::Flushed(1)),
        (Call::Write(5, AA), Told::Written(DUP)),
        (Call::Flush, Told::Flushed(2)),
        (Call::Flush, Told::Flushed(2)),
    ],
    ..WORKED
};

#[test]
fn a_flush_tells_how_many_references_are_committed(rt: HostRuntime) -> Result<(), Stop> {
    holds(&rt, rt.alloc(), FLUSHED)
}

// The first read of the disk fails: the read counts for nothing, and the next one is as if it hadn't been.
const UNREAD: List = List {
    fails: &[Fail {
        call: RigCall::Read(Dev::Disk),
        number: 1,
    }],
    calls: &[
        (Call::Read(0), Told::Fault(StoreFault::DiskRead)),
        (Call::Flush, Told::Flushed(0)),
        (Call::Read(0), Told::Read(ONE, MISS)),
        (Call::Flush, Told::Flushed(1)),
    ],
    ..WORKED
};

#[test]
fn a_failed_read_leaves_the_store(rt: HostRuntime) -> Result<(), Stop> {
    holds(&rt, rt.alloc(), UNREAD)
}
