// The machine stops at each call of a run, and again at each call of the run that recovers.

use crate::cases::{Case, DROP, EVICTION, SNAPSHOT};
use crate::told::{acknowledged, answered, count_behind};
use crate::world::{MOST, PICKS, Ran, formatted, serve, stopping_rig, worked_disk};
use dd_rigmem::{Outcome, RigMem};
use std::alloc::Global;
use std::process::Abort;
use std::test::Fail as Stop;

#[test]
fn each_call_of_an_eviction_stops_and_each_of_its_recovery(rt: HostRuntime) -> Result<(), Stop> {
    assert!(rt; each_call_stops(&rt, rt.alloc(), &EVICTION)?);
    Ok(())
}

#[test]
fn each_call_of_a_snapshot_stops_and_each_of_its_recovery(rt: HostRuntime) -> Result<(), Stop> {
    assert!(rt; each_call_stops(&rt, rt.alloc(), &SNAPSHOT)?);
    Ok(())
}

#[test]
fn each_call_of_a_drop_stops_and_each_of_its_recovery(rt: HostRuntime) -> Result<(), Stop> {
    assert!(rt; each_call_stops(&rt, rt.alloc(), &DROP)?);
    Ok(())
}

// Counts upwards, and answers whether that came to a run that says all: it meets no stop.
fn each_call_stops(rt: &impl Abort, alloc: Global, case: &Case) -> Result<bool, Stop> {
    let flash = formatted(alloc)?;
    let disk = worked_disk();
    for call in 1..=MOST {
        let mut rig = stopping_rig(rt, alloc, &flash, &disk, call)?;
        let ran = serve(alloc, &mut rig, case.script)?;
        for pick in 0..PICKS {
            recovers(
                rt,
                alloc,
                case,
                &rig.crash(alloc, pick)?,
                Crash { call, pick },
            )?;
        }
        if ran.said.as_slice() == case.quiet {
            assert_eq!(rt; ran.status, 0, "at {call}");
            return Ok(true);
        }
        assert!(rt; ran.status == 6 || ran.status == 7, "at {call}");
    }
    Ok(false)
}

// The call at which the machine stopped, and the number of the crash.
#[derive(Clone, Copy, Debug)]
struct Crash {
    call: u64,
    pick: u64,
}

// The next run finds a count between what was acknowledged and what was answered, and the array and the lists
// behind so many references; and so it does where it stops before.
fn recovers(
    rt: &impl Abort,
    alloc: Global,
    case: &Case,
    left: &Outcome,
    at: Crash,
) -> Result<(), Stop> {
    let count = count_found(alloc, left)?;
    assert!(rt;
        count.is_some_and(|n| acknowledged(&left.out) <= n),
        "{at:?}"
    );
    assert!(rt; count.is_some_and(|n| n <= answered(&left.out)), "{at:?}");
    let Some(count) = count else {
        return Ok(());
    };
    assert!(rt; goes_on(alloc, case, left, count)?, "{at:?}");
    assert!(rt;
        each_recovery_stops(rt, alloc, case, left, count, at)?,
        "{at:?}"
    );
    Ok(())
}

// Counts upwards in the run that recovers, and takes each of the six crashes there: the run behind it has the same
// count, and goes on from there.
fn each_recovery_stops(
    rt: &impl Abort,
    alloc: Global,
    case: &Case,
    left: &Outcome,
    count: u64,
    at: Crash,
) -> Result<bool, Stop> {
    for call in 1..=MOST {
        let mut rig = stopping_rig(rt, alloc, &left.flash, &left.disk, call)?;
        let ran = serve(alloc, &mut rig, b"")?;
        let first = rig.crash(alloc, 0)?;
        assert!(rt;
            goes_on(alloc, case, &first, count)?,
            "{at:?}, again at {call}"
        );
        for pick in 1..PICKS {
            let again = rig.crash(alloc, pick)?;
            let is_first = again.flash == first.flash && again.disk == first.disk;
            assert!(rt;
                is_first || goes_on(alloc, case, &again, count)?,
                "{at:?}, again at {call}, pick {pick}"
            );
        }
        if count_behind(&ran.said, b"bye ") == Some(count) {
            return Ok(true);
        }
    }
    Ok(false)
}

// Whether a run over these devices finds what stands behind so many references.
fn goes_on(alloc: Global, case: &Case, left: &Outcome, count: u64) -> Result<bool, Stop> {
    Ok(case.finds(count, &serve_left(alloc, left, case.reads)?.said))
}

// The count that a run tells which has no line to answer.
fn count_found(alloc: Global, left: &Outcome) -> Result<Option<u64>, Stop> {
    let ran = serve_left(alloc, left, b"")?;
    Ok(count_behind(&ran.said, b"bye "))
}

fn serve_left(alloc: Global, left: &Outcome, script: &[u8]) -> Result<Ran, Stop> {
    let mut rig = RigMem::new(alloc, &left.flash, &left.disk, &[])?;
    serve(alloc, &mut rig, script)
}
