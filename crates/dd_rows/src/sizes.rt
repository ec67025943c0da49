// Runs of `serve` over other capacities and block sizes than those of the small cache, the sync of a commit's gate,
// and both first syncs.
ghost use Rattle.std.specs.Prelude.{◌≡◌};

use crate::bench::{Setting, run, worked_disk};
use crate::small::formatted;
use dd_rig::Dev;
use dd_rigmem::{Call, Fail};
use std::alloc::Global;
use std::test::Fail as Stop;

const SERVE: [&str; 1] = ["serve"];

fn setting<'a>(
    words: &'a [&'a str],
    flash: &'a [u8],
    disk: &'a [u8],
    script: &'a [u8],
) -> Setting<'a>
    ensures { result.piece ≡ 4096 }
{
    Setting {
        words,
        flash,
        disk,
        script,
        piece: 4096,
        fails: &[],
        failed_takes: &[],
    }
}

// Two blocks with one fingerprint, and one place.
#[test]
fn one_listed_block_is_told_from_another(rt: HostRuntime) -> Result<(), Stop> {
    let alloc = rt.alloc();
    let disk = worked_disk();
    let words = ["format", "16", "8", "3", "1", "1", "8", "392"];
    let made = run(alloc, &setting(&words, &[0; 1282], &disk, b""))?;
    assert_eq!(rt; made.left.out.as_slice(), b"formatted\n".as_slice());
    let ran = run(
        alloc,
        &setting(
            &SERVE,
            &made.left.flash,
            &made.left.disk,
            b"w 1 ab01\nw 2 ab02\nr 1\nl\ns\n",
        ),
    )?;
    let want =
        b"new\nnew drop ab00000000000000\nmiss ab01 drop ab00000000000000\nA 1 2- B ab00000000000000\nstat n 3 addresses 1 blocks 0\nbye 3\n";
    assert_eq!(rt; ran.left.out.as_slice(), want.as_slice());
    assert_eq!(rt; ran.status, 0);
    Ok(())
}

// The largest block.
#[test]
fn blocks_of_4096_bytes_are_served(rt: HostRuntime) -> Result<(), Stop> {
    let alloc = rt.alloc();
    let flash = vec![in alloc; 0; 720_002]?;
    let disk = vec![in alloc; 0; 4_194_304]?;
    let words = ["format", "4096", "1024", "256", "128", "8", "64", "65536"];
    let made = run(alloc, &setting(&words, &flash, &disk, b""))?;
    assert_eq!(rt; made.left.out.as_slice(), b"formatted\n".as_slice());
    let block = vec![in alloc; b'Z'; 4096]?;
    let text = digits(alloc, &block)?;
    let mut script = Vec::new(alloc);
    script.extend_from_slice(b"w 0 ")?;
    script.extend_from_slice(&text)?;
    script.extend_from_slice(b"\nw 1 ")?;
    script.extend_from_slice(&text)?;
    script.extend_from_slice(b"\nr 1\n")?;
    let mut want = Vec::new(alloc);
    want.extend_from_slice(b"new\ndup\nhit ")?;
    want.extend_from_slice(&text)?;
    want.extend_from_slice(b"\nbye 3\n")?;
    let ran = run(
        alloc,
        &setting(&SERVE, &made.left.flash, &made.left.disk, &script),
    )?;
    assert_eq!(rt; ran.left.out.as_slice(), want.as_slice());
    assert_eq!(rt; ran.status, 0);
    Ok(())
}

// The text of bytes of which each is Z.
fn digits(alloc: Global, block: &[u8]) -> Result<Vec<u8>, Stop> {
    let mut text = Vec::new(alloc);
    for _ in block {
        text.extend_from_slice(b"5a")?;
    }
    Ok(text)
}

// The first sync is the opening's, the second the body's. What the gate shows counts for the next opening.
#[test]
fn a_failed_sync_of_the_gate_stops_the_run(rt: HostRuntime) -> Result<(), Stop> {
    let alloc = rt.alloc();
    let flash = formatted(alloc)?;
    let disk = worked_disk();
    let fails = [Fail {
        call: Call::Sync(Dev::Flash),
        number: 3,
    }];
    let failing = Setting {
        fails: &fails,
        ..setting(&SERVE, &flash, &disk, b"w 5 ab\nf\n")
    };
    let ran = run(alloc, &failing)?;
    assert_eq!(rt; ran.left.out.as_slice(), b"new\nstopped flash\n".as_slice());
    assert_eq!(rt; ran.status, 7);
    let again = run(
        alloc,
        &setting(&SERVE, &ran.left.flash, &ran.left.disk, b"s\n"),
    )?;
    let want = b"stat n 1 addresses 0 blocks 0\nbye 1\n";
    assert_eq!(rt; again.left.out.as_slice(), want.as_slice());
    Ok(())
}

// The opening syncs the flash first, and stops there.
#[test]
fn both_first_syncs_fail(rt: HostRuntime) -> Result<(), Stop> {
    let alloc = rt.alloc();
    let flash = formatted(alloc)?;
    let disk = worked_disk();
    let fails = [
        Fail {
            call: Call::Sync(Dev::Flash),
            number: 1,
        },
        Fail {
            call: Call::Sync(Dev::Disk),
            number: 1,
        },
    ];
    let failing = Setting {
        fails: &fails,
        ..setting(&SERVE, &flash, &disk, b"r 0\n")
    };
    let ran = run(alloc, &failing)?;
    assert_eq!(rt; ran.left.out.as_slice(), b"stopped flash\n".as_slice());
    assert_eq!(rt; ran.status, 7);
    Ok(())
}
