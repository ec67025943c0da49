// Commands that are stopped at each of their calls: what is committed then, and whose blocks the slots have.

use crate::blocks::{DD, worked_disk};
use crate::cache::{Cache, formatted, found_on};
use crate::steps::{Call, Told};
use dd_block::{FirstByte, Geometry};
use dd_record::Rec;
use dd_rigmem::RigMem;
use std::alloc::Global;
use std::process::Abort;
use std::test::Fail as Stop;

// Where the slots begin.
const SLOTS: usize = 1322;

// Commands that are made one behind the other, and stopped at a call.
struct Stopped {
    // As many as are made.
    calls: &'static [Call],
    // The last call of a device that they make. The first three are those of `find`.
    last: u32,
    // The counts that may be committed behind so many of them.
    committed: &'static [&'static [u64]],
}

impl Stopped {
    fn may_commit(&self, done: usize, count: u64) -> bool {
        match self.committed.get(done) {
            None => false,
            Some(counts) => counts.iter().any(|committed| *committed == count),
        }
    }
}

// A read makes one call of the disk and writes a slot; each commit makes four; the write makes one, as the only
// free slot has the first block until then, and writes it.
const WAITING: Stopped = Stopped {
    calls: &[
        Call::Read(0),
        Call::Read(1),
        Call::Flush,
        Call::Read(3),
        Call::Write(5, DD),
    ],
    last: 18,
    committed: &[&[0], &[0], &[0, 2], &[2], &[2, 3], &[3]],
};

// The commit makes four calls, and there is nothing to write back.
const CLEANED: Stopped = Stopped {
    calls: &[Call::Read(0), Call::Clean],
    last: 9,
    committed: &[&[0], &[0, 1], &[1]],
};

// How many of them are answered.
fn answered(cache: &mut Cache<FirstByte>, calls: &[Call]) -> Result<usize, Stop> {
    for (made, call) in calls.iter().enumerate() {
        if let Told::Fault(_) = cache.call(*call)? {
            return Ok(made);
        }
    }
    Ok(calls.len())
}

// Whether the slot of a record has the block of its address. It is that of a read whose block was new.
fn has_its_block(rec: Rec, flash: &[u8], disk: &[u8]) -> bool {
    match rec {
        Rec::Store {
            address,
            slot,
            fp: _,
            dirty: false,
        } => match (block_at(flash, SLOTS, slot), block_at(disk, 0, address)) {
            (Some(saved), Some(block)) => saved == block,
            _ => false,
        },
        _ => false,
    }
}

// The block with a number, of those that begin at a place.
fn block_at(bytes: &[u8], begin: usize, number: u32) -> Option<&[u8]> {
    if number >= 8 || begin > SLOTS {
        return None;
    }
    let at = begin + 16 * number as usize;
    bytes.get(at..at + 16)
}

// How many references a flash has, if each has a record and the blocks are there that it lists: those of the
// last two.
fn count_on(alloc: Global, geo: Geometry, flash: &[u8], disk: &[u8]) -> Result<Option<u64>, Stop> {
    let mut rig = RigMem::new(alloc, flash, disk, &[])?;
    let found = found_on(alloc, geo, &mut rig)?;
    let count = found.journal.committed();
    let mut behind = found.recs.len();
    if behind as u64 != count {
        return Ok(None);
    }
    for placed in &found.recs {
        if behind <= 2 && !has_its_block(placed.rec, flash, disk) {
            return Ok(None);
        }
        behind = behind.saturating_sub(1);
    }
    Ok(Some(count))
}

// A cache that stops at a call: what each crash leaves.
fn stops(
    rt: &impl Abort,
    alloc: Global,
    geo: Geometry,
    flash: &[u8],
    stopped: &Stopped,
    call: u64,
) -> Result<(), Stop> {
    let disk = worked_disk();
    let mut cache = Cache::over(alloc, geo, flash, &disk, &[], FirstByte)?;
    cache.stop_at(call)?;
    let done = answered(&mut cache, stopped.calls)?;
    assert_eq!(rt;
        done == stopped.calls.len(),
        call > u64::from(stopped.last),
        "stopped at {call}"
    );
    for pick in 0..4 {
        let left = cache.crash(alloc, pick)?;
        assert!(rt;
            left.disk.as_slice() == disk.as_slice(),
            "at {call}, pick {pick}"
        );
        match count_on(alloc, geo, &left.flash, &disk)? {
            None => assert!(rt; false, "at {call}, pick {pick}: another block"),
            Some(count) => {
                assert!(rt;
                    stopped.may_commit(done, count),
                    "at {call}, pick {pick}: {count}"
                );
            }
        }
    }
    Ok(())
}

// At each of their calls, and not at all.
fn stops_at_each(rt: &impl Abort, alloc: Global, stopped: &Stopped) -> Result<(), Stop> {
    let geo = Geometry::new(16, 8, 3, 2, 1, 8, 392)?;
    let flash = formatted(alloc, geo, 1370, &worked_disk())?;
    for call in 4..=u64::from(stopped.last) + 1 {
        stops(rt, alloc, geo, &flash, stopped, call)?;
    }
    Ok(())
}

#[test]
fn the_slot_of_a_block_that_fell_off_waits_for_a_commit(rt: HostRuntime) -> Result<(), Stop> {
    stops_at_each(&rt, rt.alloc(), &WAITING)
}

#[test]
fn a_clean_commits_a_read_where_nothing_is_dirty(rt: HostRuntime) -> Result<(), Stop> {
    stops_at_each(&rt, rt.alloc(), &CLEANED)
}
