// Each read, write and sync of each device and each emit fails once.

use crate::cases::WRITE_BACK;
use crate::told::{acknowledged, answered, bytes_of_lines, count_behind};
use crate::world::{MOST, PICKS, call_once, failing_rig, name_of, run, serve};
use dd_rig::Dev;
use dd_rigmem::{Call, Fail, RigMem};
use std::alloc::Global;
use std::process::Abort;
use std::test::Fail as Stop;

// The output of the script without its first line, without its second one, and so on, as a program computes it
// that knows the definitions alone.
const WITHOUT: [&[u8]; 8] = [
    b"new\ndup\ndup\nticked\ncleaned\nmiss 01 out 5\nflushed 4\nbye 4\n",
    b"new\ndup\ndup\nticked\ncleaned\nmiss 01 out 4\nflushed 4\nbye 4\n",
    b"new\ndup\ndup\nticked\ncleaned\nmiss 01 out 4\nflushed 4\nbye 4\n",
    b"new\ndup\ndup\nticked\ncleaned\nmiss 01 out 4\nflushed 4\nbye 4\n",
    b"new\ndup\ndup\ndup out 4\ncleaned\nmiss 01 out 5\nflushed 5\nbye 5\n",
    b"new\ndup\ndup\ndup out 4\nticked\nmiss 01 out 5\nflushed 5\nbye 5\n",
    b"new\ndup\ndup\ndup out 4\nticked\ncleaned\nflushed 4\nbye 4\n",
    b"new\ndup\ndup\ndup out 4\nticked\ncleaned\nmiss 01 out 5\nbye 5\n",
];

// Twenty generated commands, 17 of which are references, and what a program says of them that knows the definitions
// alone.
const GEN: [&str; 3] = ["gen", "4294967302", "20"];

const SUMMED: &[u8] = b"sum hit 0 join 8 miss 3 dup 5 new 1 out 9 drop 2\nbye 17\n";

const CALLS: [Call; 7] = [
    Call::Read(Dev::Flash),
    Call::Read(Dev::Disk),
    Call::Write(Dev::Flash),
    Call::Write(Dev::Disk),
    Call::Sync(Dev::Flash),
    Call::Sync(Dev::Disk),
    Call::Emit,
];

#[test]
fn each_call_fails_once(rt: HostRuntime) -> Result<(), Stop> {
    for call in CALLS {
        assert!(rt; each_fails_once(&rt, rt.alloc(), call)?, "{call:?}");
    }
    Ok(())
}

#[test]
fn each_call_of_a_gen_fails_once(rt: HostRuntime) -> Result<(), Stop> {
    for call in CALLS {
        assert!(rt; each_fails_in_gen(&rt, rt.alloc(), call)?, "{call:?}");
    }
    Ok(())
}

// Counts upwards, and answers whether that came to a run that meets no failure.
fn each_fails_once(rt: &impl Abort, alloc: Global, call: Call) -> Result<bool, Stop> {
    let opening = calls_of_opening(alloc, call)?;
    for number in 1..=MOST {
        if !fails_once(rt, alloc, Fail { call, number }, opening)? {
            return Ok(true);
        }
    }
    Ok(false)
}

// How many calls of that kind a run makes that has no line to answer.
fn calls_of_opening(alloc: Global, call: Call) -> Result<u64, Stop> {
    let mut made = 0;
    for number in 1..=MOST {
        let mut rig = failing_rig(alloc, &[Fail { call, number }])?;
        let _ = serve(alloc, &mut rig, b"")?;
        if call_once(&mut rig, call).is_err() {
            break;
        }
        made = number;
    }
    Ok(made)
}

// Serves the script where one call fails, and answers whether the run met that. Whether it did is asked of the
// rig, whose next call of that kind fails where it didn't.
fn fails_once(rt: &impl Abort, alloc: Global, fail: Fail, opening: u64) -> Result<bool, Stop> {
    let mut rig = failing_rig(alloc, &[fail])?;
    let ran = serve(alloc, &mut rig, WRITE_BACK.script)?;
    if ran.status == 0 {
        assert!(rt; call_once(&mut rig, fail.call).is_err(), "{fail:?}");
        assert_eq!(rt; ran.said.as_slice(), WRITE_BACK.quiet, "{fail:?}");
        return Ok(false);
    }
    assert_eq!(rt; ran.status, status_of(fail, opening), "{fail:?}");
    assert!(rt; is_said(&ran.said, fail, ran.status), "{fail:?}");
    let count = count_reopened(rt, alloc, &mut rig, fail)?;
    assert!(rt;
        count.is_some_and(|n| acknowledged(&ran.said) <= n),
        "{fail:?}"
    );
    assert!(rt; count.is_some_and(|n| n <= answered(&ran.said)), "{fail:?}");
    if ran.status != 1 {
        let next = serve(alloc, &mut rig, WRITE_BACK.reads)?;
        assert!(rt;
            count.is_some_and(|n| WRITE_BACK.finds(n, &next.said)),
            "{fail:?}"
        );
    }
    Ok(true)
}

fn status_of(fail: Fail, opening: u64) -> u8 {
    match fail.call {
        Call::Read(_) if fail.number > opening => 1,
        Call::Read(_) | Call::Write(_) | Call::Sync(_) => 7,
        Call::Emit => 6,
    }
}

// Whether this is what a run with that failure says.
fn is_said(said: &[u8], fail: Fail, status: u8) -> bool {
    match fail.call {
        Call::Read(dev) if status == 1 => is_faulted(said, name_of(dev)),
        Call::Read(dev) | Call::Write(dev) | Call::Sync(dev) => is_stopped(said, name_of(dev)),
        Call::Emit => is_cut(said, fail.number as usize),
    }
}

// One line of the script is answered by `fault`, and the others as if that one weren't there.
fn is_faulted(said: &[u8], device: &[u8]) -> bool {
    WITHOUT
        .iter()
        .enumerate()
        .any(|(line, others)| has_fault(said, others, line, device))
}

fn has_fault(said: &[u8], others: &[u8], line: usize, device: &[u8]) -> bool {
    let Some((before, behind)) = others.split_at_checked(bytes_of_lines(others, line)) else {
        return false;
    };
    said.strip_prefix(before)
        .and_then(|rest| rest.strip_prefix(b"fault "))
        .and_then(|rest| rest.strip_prefix(device))
        == Some(behind)
}

// Some first lines are answered, and then the run stops.
fn is_stopped(said: &[u8], device: &[u8]) -> bool {
    let lines = said
        .strip_suffix(device)
        .and_then(|rest| rest.strip_suffix(b"stopped "));
    lines.is_some_and(|lines| {
        WRITE_BACK.quiet.starts_with(lines) && (lines.is_empty() || lines.ends_with(b"\n"))
    })
}

// The lines before this one, from 1, and the first half of it.
fn is_cut(said: &[u8], line: usize) -> bool {
    let begin = bytes_of_lines(WRITE_BACK.quiet, line.saturating_sub(1));
    let end = bytes_of_lines(WRITE_BACK.quiet, line);
    WRITE_BACK.quiet.get(..begin.saturating_add(end) / 2) == Some(said)
}

// Counts upwards, and answers whether that came to a large run that meets no failure.
fn each_fails_in_gen(rt: &impl Abort, alloc: Global, call: Call) -> Result<bool, Stop> {
    for number in 1..=MOST {
        if !fails_in_gen(rt, alloc, Fail { call, number })? {
            return Ok(true);
        }
    }
    Ok(false)
}

// A large run where one call fails, and whether it met that: it says why it stopped and nothing else, or a part of
// its two lines where an emit failed.
fn fails_in_gen(rt: &impl Abort, alloc: Global, fail: Fail) -> Result<bool, Stop> {
    let mut rig = failing_rig(alloc, &[fail])?;
    let ran = run(alloc, &mut rig, &GEN, b"", 7)?;
    if ran.status == 0 {
        assert!(rt; call_once(&mut rig, fail.call).is_err(), "{fail:?}");
        assert_eq!(rt; ran.said.as_slice(), SUMMED, "{fail:?}");
        return Ok(false);
    }
    let (status, is_told) = match fail.call {
        Call::Read(dev) | Call::Write(dev) | Call::Sync(dev) => {
            (7, ran.said.strip_prefix(b"stopped ") == Some(name_of(dev)))
        }
        Call::Emit => (
            6,
            ran.said.len() < SUMMED.len() && SUMMED.starts_with(&ran.said),
        ),
    };
    assert_eq!(rt; ran.status, status, "{fail:?}");
    assert!(rt; is_told, "{fail:?}");
    let count = count_reopened(rt, alloc, &mut rig, fail)?;
    assert!(rt;
        count.is_some_and(|n| acknowledged(&ran.said) <= n && n <= 17),
        "{fail:?}"
    );
    Ok(true)
}

// The count of the next run on the same rig, without a crash. It opens, and syncs both devices: all that is shown
// behind it is stable.
fn count_reopened(
    rt: &impl Abort,
    alloc: Global,
    rig: &mut RigMem,
    fail: Fail,
) -> Result<Option<u64>, Stop> {
    let next = serve(alloc, rig, b"")?;
    assert_eq!(rt; next.status, 0, "{fail:?}");
    let shown = rig.crash(alloc, 1)?;
    for pick in 0..PICKS {
        let left = rig.crash(alloc, pick)?;
        assert!(rt;
            left.flash == shown.flash && left.disk == shown.disk,
            "{fail:?}, pick {pick}"
        );
    }
    Ok(count_behind(&next.said, b"bye "))
}
