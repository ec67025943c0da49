// A run of `serve` that the machine stops at each of its calls.

use crate::bench::{Setting, run, worked_disk};
use crate::small::formatted;
use dd_block::FirstByte;
use dd_rigmem::{Outcome, RigMem, SourceMem};
use std::alloc::Global;
use std::process::Abort;
use std::test::Fail as Stop;

// Three references: a write, one more, and a read.
const SCRIPT: &[u8; 22] = b"w 5 ab\nf\nw 6 cd\nr 5\nf\n";

// What a run that reads both addresses says behind the first k of them.
const NONE: &[u8; 22] = b"join 00\njoin 00\nbye 2\n";

const ONE: &[u8; 21] = b"hit ab\njoin 00\nbye 3\n";

const TWO: &[u8; 20] = b"hit ab\nhit cd\nbye 4\n";

const THREE: &[u8; 20] = b"hit ab\nhit cd\nbye 5\n";

// How many references a run behind this crash has, or 9 where that is no prefix.
fn kept(alloc: Global, left: &Outcome) -> Result<u8, Stop> {
    let again = run(
        alloc,
        &Setting {
            words: &["serve"],
            flash: &left.flash,
            disk: &left.disk,
            script: b"r 5\nr 6\n",
            piece: 7,
            fails: &[],
            failed_takes: &[],
        },
    )?;
    let out = again.left.out.as_slice();
    Ok(if out == NONE.as_slice() {
        0
    } else if out == ONE.as_slice() {
        1
    } else if out == TWO.as_slice() {
        2
    } else if out == THREE.as_slice() {
        3
    } else {
        9
    })
}

// How many an output acknowledges.
fn acknowledged(out: &[u8]) -> u8 {
    if out.starts_with(b"new\nflushed 1\nnew\nhit ab\nflushed 3\n") {
        3
    } else if out.starts_with(b"new\nflushed 1\n") {
        1
    } else {
        0
    }
}

// How many it answers.
fn answered(out: &[u8]) -> u8 {
    if out.starts_with(b"new\nflushed 1\nnew\nhit ab\n") {
        3
    } else if out.starts_with(b"new\nflushed 1\nnew\n") {
        2
    } else if out.starts_with(b"new\n") {
        1
    } else {
        0
    }
}

// Six calls of the opening, two of each reference with its emit, five of each flush, and the last emit.
#[test]
fn a_run_that_stops_at_any_call_leaves_a_prefix(rt: HostRuntime) -> Result<(), Stop> {
    let alloc = rt.alloc();
    let disk = worked_disk();
    let flash = formatted(alloc)?;
    let mut words = Vec::new(alloc);
    words.push(String::from_str(alloc, "serve")?)?;
    for call in 1..=24 {
        let mut rig = RigMem::new(alloc, &flash, &disk, &[])?;
        assert!(rt; rig.may_stop_at(call));
        rig.stop_at(call);
        let mut source = SourceMem::new(alloc, SCRIPT, 7, &[])?;
        let status = dd_serve::run_with(alloc, &words, &mut source, &mut rig, FirstByte);
        assert_eq!(rt; status == 0, call == 24, "stopped at call {call}");
        for pick in 0..10 {
            let left = rig.crash(alloc, pick)?;
            let k = kept(alloc, &left)?;
            assert!(rt; acknowledged(&left.out) <= k, "at {call}, pick {pick}");
            assert!(rt; k <= answered(&left.out), "at {call}, pick {pick}");
        }
    }
    Ok(())
}

// The count that a run tells which only asks for it, behind a crash.
fn told(alloc: Global, left: &Outcome) -> Result<Option<u8>, Stop> {
    let again = run(
        alloc,
        &Setting {
            words: &["serve"],
            flash: &left.flash,
            disk: &left.disk,
            script: b"s\n",
            piece: 7,
            fails: &[],
            failed_takes: &[],
        },
    )?;
    let out = again.left.out.as_slice();
    Ok(if out.len() > 7 && out.starts_with(b"stat n ") && again.status == 0 {
        Some(out[7])
    } else {
        None
    })
}

// Stopped at each call behind the opening, whatever the crash: the next run tells one of these counts, the
// same or the next one as before, and in the end the last one.
fn tells_counts(
    rt: &impl Abort,
    alloc: Global,
    script: &[u8],
    counts: [u8; 3],
) -> Result<(), Stop> {
    let disk = worked_disk();
    let flash = formatted(alloc)?;
    let mut words = Vec::new(alloc);
    words.push(String::from_str(alloc, "serve")?)?;
    let mut least = counts[0];
    let mut most = counts[1];
    let mut last = 0;
    for call in 7..=60 {
        let mut rig = RigMem::new(alloc, &flash, &disk, &[])?;
        assert!(rt; rig.may_stop_at(call));
        rig.stop_at(call);
        let mut source = SourceMem::new(alloc, script, 7, &[])?;
        let status = dd_serve::run_with(alloc, &words, &mut source, &mut rig, FirstByte);
        if status == 0 {
            break;
        }
        last = 0;
        for pick in 0..10 {
            let left = rig.crash(alloc, pick)?;
            let count = told(alloc, &left)?;
            assert!(rt; count.is_some(), "at {call}, pick {pick}");
            let count = count.unwrap_or(0);
            if count == counts[2] && most != counts[2] {
                least = counts[1];
                most = counts[2];
            }
            assert!(rt; count == least || count == most, "at {call}, pick {pick}");
            last = count;
        }
    }
    assert_eq!(rt; last, counts[2]);
    Ok(())
}

// The fourth write makes the first one's address fall off, which is dirty: three references are committed
// before that, and all four with the end.
#[test]
fn a_dirty_address_falls_off_behind_a_commit(rt: HostRuntime) -> Result<(), Stop> {
    tells_counts(
        &rt,
        rt.alloc(),
        b"w 4 aa\nw 5 aa\nw 6 aa\nw 7 aa\n",
        *b"034",
    )
}

// The first commit fills the log, and the second is a snapshot into the other region.
#[test]
fn a_snapshot_counts_from_its_gate_on(rt: HostRuntime) -> Result<(), Stop> {
    tells_counts(
        &rt,
        rt.alloc(),
        b"r 0\nr 0\nr 0\nr 0\nr 0\nr 0\nr 0\nr 0\nf\nr 0\nf\n",
        *b"089",
    )
}
