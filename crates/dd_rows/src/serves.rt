// Rows of `serve` on a formatted flash. The outputs are those of a program that computes them from the
// definitions alone.
ghost use Rattle.std.specs.Prelude.{◌≡◌};

use crate::bench::{Setting, run, run_sha256, worked_disk};
use crate::small::formatted;
use dd_rig::Dev;
use dd_rigmem::{Call, Fail};
use std::test::Fail as Stop;

const SERVE: [&str; 1] = ["serve"];

fn setting<'a>(flash: &'a [u8], disk: &'a [u8], script: &'a [u8]) -> Setting<'a>
    ensures { result.piece ≡ 7 }
{
    Setting {
        words: &SERVE,
        flash,
        disk,
        script,
        piece: 7,
        fails: &[],
        failed_takes: &[],
    }
}

#[test]
fn references_and_flushes_are_answered(rt: HostRuntime) -> Result<(), Stop> {
    let rows: [(&[u8], &[u8]); 11] = [
        (b"", b"bye 0\n"),
        (
            b"# trace\r\n\r\n r\t0 \r\nr 00",
            b"miss 01\nhit 01\nbye 2\n",
        ),
        (
            b"w 8 ab\nw 1 abc\nx\nf 1\nr\n",
            b"bad address\nbad data\nbad word\nbad rest\nbad address\nbye 0\n",
        ),
        (
            b"w 6 00\nr 6\nw 6 00112233445566778899aabbccddeeff\nr 6\nw 6 1111111111111111111111111111111111\n",
            b"dup\nhit 00\nnew\nhit 00112233445566778899aabbccddeeff\nbad data\nbye 4\n",
        ),
        (
            b"r 0\nr 0\nr 0\nr 0\nr 0\nr 0\nr 0\nr 0\nf\nr 0\nf\n",
            b"miss 01\nhit 01\nhit 01\nhit 01\nhit 01\nhit 01\nhit 01\nhit 01\nflushed 8\nhit 01\nflushed 9\nbye 9\n",
        ),
        (b"w 1 ab01\nw 2 ab02\nr 1\n", b"new\nnew\nhit ab01\nbye 3\n"),
        (
            b"r 0\nr 0\nr 2\nw 5 ab\nf\nr 5\nr 7\nq\n",
            b"miss 01\nhit 01\njoin 01\nnew\nflushed 4\nhit ab\njoin 00 out 0\nbye 6\n",
        ),
        (
            b"r 0\nr 0\nr 2\nr 1\nr 3\nr 2\n",
            b"miss 01\nhit 01\njoin 01\nmiss 02\nmiss 03 out 0 drop 0100000000000000\nmiss 01 drop 0200000000000000\nbye 6\n",
        ),
        (
            b"w 4 aa\nw 5 bb\nw 6 cc\nw 7 dd\nr 4\nr 5\n",
            b"new\nnew\nnew drop aa00000000000000\nnew out 4 drop bb00000000000000\nmiss aa out 5 drop cc00000000000000\nmiss bb out 6 drop dd00000000000000\nbye 6\n",
        ),
        (
            b"w 4 aa\nw 4 bb\nw 5 bb\nr 4\nd 4\nr 4\nc\nt\nr 5\n",
            b"new\nnew\ndup\nhit bb\ndup\nhit 00\ncleaned\nticked\nhit bb\nbye 7\n",
        ),
        (
            b"w 3 aB01\nw 4 AB01\nw 3\nw 3 abc\nw 8 abc\nw 3 abc 1\nd 3\nd 3 00\nf 1\nf\nc\nt\nq\nr 0\n",
            b"new\ndup\nbad data\nbad data\nbad address\nbad data\ndup\nbad rest\nbad rest\nflushed 3\ncleaned\nticked\nbye 3\n",
        ),
    ];
    let alloc = rt.alloc();
    let flash = formatted(alloc)?;
    let disk = worked_disk();
    for (script, want) in rows {
        let ran = run(alloc, &setting(&flash, &disk, script))?;
        assert_eq!(rt; ran.left.out.as_slice(), want, "{script:?}");
        assert_eq!(rt; ran.status, 0, "{script:?}");
    }
    Ok(())
}

// The second script goes on where the first one ended, whether or not it flushed.
#[test]
fn a_second_run_goes_on_from_the_first(rt: HostRuntime) -> Result<(), Stop> {
    let rows: [(&[u8], &[u8], &[u8]); 3] = [
        (b"w 5 ab\nf\nr 5\nq\n", b"", b"bye 2\n"),
        (
            b"w 5 ab\nw 6 cd\n",
            b"r 5\nr 6\n",
            b"hit ab\nhit cd\nbye 4\n",
        ),
        (
            b"w 4 aa\nw 5 aa\nw 6 aa\nw 7 aa\n",
            b"r 5\nr 6\nr 7\nr 4\n",
            b"hit aa\nhit aa\nhit aa\njoin aa out 5\nbye 8\n",
        ),
    ];
    let alloc = rt.alloc();
    let flash = formatted(alloc)?;
    let disk = worked_disk();
    for (first, second, want) in rows {
        let ran = run(alloc, &setting(&flash, &disk, first))?;
        assert_eq!(rt; ran.status, 0, "{first:?}");
        let again = run(alloc, &setting(&ran.left.flash, &ran.left.disk, second))?;
        assert_eq!(rt; again.left.out.as_slice(), want, "{first:?}");
        assert_eq!(rt; again.status, 0, "{first:?}");
    }
    Ok(())
}

// With SHA-256: the next run has both lists and the count, and what fell off dirty is on the disk.
#[test]
fn a_block_of_a_former_run_is_told_by_its_sha256(rt: HostRuntime) -> Result<(), Stop> {
    let alloc = rt.alloc();
    let zeros = [0u8; 128];
    let flash = formatted(alloc)?;
    let first = run_sha256(
        alloc,
        &setting(&flash, &zeros, b"w 0 01\nw 1 01\nr 1\nf\nw 2 02\nw 3 03\n"),
    )?;
    let want = b"new\ndup\nhit 01\nflushed 3\nnew\nnew out 0 drop 4cbbd8ca5215b8d1\nbye 5\n";
    assert_eq!(rt; first.left.out.as_slice(), want.as_slice());
    assert_eq!(rt; first.status, 0);
    let mut array = [0u8; 128];
    array[0] = 1;
    array[16] = 1;
    assert_eq!(rt; first.left.disk.as_slice(), array.as_slice());
    let then = run_sha256(
        alloc,
        &setting(&first.left.flash, &first.left.disk, b"r 2\nr 0\n"),
    )?;
    let want = b"hit 02\nmiss 01 out 1 drop 59d5966c96af7eca\nbye 7\n";
    assert_eq!(rt; then.left.out.as_slice(), want.as_slice());
    assert_eq!(rt; then.status, 0);
    Ok(())
}

// An address that falls off the list, or that `c` or `t` writes back, has its block on the disk. No other
// block of the disk changes.
#[test]
fn a_dirty_address_that_is_evicted_or_cleaned_is_on_the_disk(rt: HostRuntime) -> Result<(), Stop> {
    let rows: [(&[u8], &[u8]); 4] = [
        (
            b"w 4 aa\nw 5 aa\nw 6 aa\nw 7 aa\n",
            b"new\ndup\ndup\ndup out 4\nbye 4\n",
        ),
        (
            b"w 4 aa\nr 0\nr 2\nr 1\n",
            b"new\nmiss 01\njoin 01\nmiss 02 out 4 drop aa00000000000000\nbye 4\n",
        ),
        (
            b"w 4 aa\nt\nt\nc\n",
            b"new\nticked\nticked\ncleaned\nbye 1\n",
        ),
        (
            b"w 4 aa\nt\nt\nt\n",
            b"new\nticked\nticked\nticked\nbye 1\n",
        ),
    ];
    let alloc = rt.alloc();
    let flash = formatted(alloc)?;
    let disk = worked_disk();
    let mut left = worked_disk();
    left[64] = 0xaa;
    for (script, want) in rows {
        let ran = run(alloc, &setting(&flash, &disk, script))?;
        assert_eq!(rt; ran.left.out.as_slice(), want, "{script:?}");
        assert_eq!(rt; ran.status, 0, "{script:?}");
        assert_eq!(rt; ran.left.disk.as_slice(), left.as_slice(), "{script:?}");
    }
    Ok(())
}

// The opening reads no disk, and syncs both devices.
#[test]
fn failed_calls_are_answered_or_stop(rt: HostRuntime) -> Result<(), Stop> {
    let rows: [(Call, &[u8], &[u8], u8); 9] = [
        (
            Call::Read(Dev::Disk),
            b"r 0\nr 0\n",
            b"fault disk\nmiss 01\nbye 1\n",
            1,
        ),
        (Call::Emit, b"r 0\n", b"miss", 6),
        (Call::Emit, b"", b"bye", 6),
        (Call::Read(Dev::Flash), b"r 0\n", b"stopped flash\n", 7),
        (Call::Write(Dev::Flash), b"r 0\n", b"stopped flash\n", 7),
        (Call::Sync(Dev::Flash), b"r 0\n", b"stopped flash\n", 7),
        (Call::Sync(Dev::Disk), b"r 0\n", b"stopped disk\n", 7),
        (
            Call::Write(Dev::Disk),
            b"w 4 aa\nc\n",
            b"new\nstopped disk\n",
            7,
        ),
        (
            Call::Write(Dev::Disk),
            b"w 4 aa\nf\n",
            b"new\nflushed 1\nbye 1\n",
            0,
        ),
    ];
    let alloc = rt.alloc();
    let flash = formatted(alloc)?;
    let disk = worked_disk();
    for (row, (call, script, want, status)) in rows.into_iter().enumerate() {
        let fails = [Fail { call, number: 1 }];
        let failing = Setting {
            fails: &fails,
            ..setting(&flash, &disk, script)
        };
        let ran = run(alloc, &failing)?;
        assert_eq!(rt; ran.left.out.as_slice(), want, "row {row}");
        assert_eq!(rt; ran.status, status, "row {row}");
    }
    let failing = Setting {
        failed_takes: &[1],
        ..setting(&flash, &disk, b"r 0\n")
    };
    let ran = run(alloc, &failing)?;
    assert_eq!(rt; ran.left.out.as_slice(), b"stopped script\n".as_slice());
    assert_eq!(rt; ran.status, 5);
    Ok(())
}

// The opening reads the flash four times. The command did nothing, and its next one is a hit.
#[test]
fn a_failed_read_of_a_hit_is_answered(rt: HostRuntime) -> Result<(), Stop> {
    let alloc = rt.alloc();
    let flash = formatted(alloc)?;
    let disk = worked_disk();
    let fails = [Fail {
        call: Call::Read(Dev::Flash),
        number: 5,
    }];
    let failing = Setting {
        fails: &fails,
        ..setting(&flash, &disk, b"w 5 04\nr 5\nr 5\n")
    };
    let ran = run(alloc, &failing)?;
    let want = b"new\nfault flash\nhit 04\nbye 2\n";
    assert_eq!(rt; ran.left.out.as_slice(), want.as_slice());
    assert_eq!(rt; ran.status, 1);
    Ok(())
}

// After a failed write of the flash the devices stand for none, one or both of two writes, and for each
// one that a line acknowledged.
#[test]
fn a_failed_flash_write_loses_nothing_that_was_flushed(rt: HostRuntime) -> Result<(), Stop> {
    let none = b"join 00\njoin 00\nbye 2\n".as_slice();
    let one = b"hit ab\njoin 00\nbye 3\n".as_slice();
    let both = b"hit ab\nhit cd\nbye 4\n".as_slice();
    let alloc = rt.alloc();
    let flash = formatted(alloc)?;
    let disk = worked_disk();
    for number in 1..=6u64 {
        let fails = [Fail {
            call: Call::Write(Dev::Flash),
            number,
        }];
        let failing = Setting {
            fails: &fails,
            ..setting(&flash, &disk, b"w 5 ab\nf\nw 6 cd\nf\n")
        };
        let ran = run(alloc, &failing)?;
        assert_eq!(rt; ran.status, 7, "write {number}");
        assert!(rt;
            ran.left.out.ends_with(b"stopped flash\n"),
            "write {number}"
        );
        let again = run(
            alloc,
            &setting(&ran.left.flash, &ran.left.disk, b"r 5\nr 6\n"),
        )?;
        assert_eq!(rt; again.status, 0, "write {number}");
        let out = again.left.out.as_slice();
        let kept = out == one || out == both;
        if ran.left.out.starts_with(b"new\nflushed 1\n") {
            assert!(rt; kept, "write {number}");
        } else {
            assert!(rt; kept || out == none, "write {number}");
        }
    }
    Ok(())
}

#[test]
fn a_word_behind_serve_is_refused(rt: HostRuntime) -> Result<(), Stop> {
    let alloc = rt.alloc();
    let flash = formatted(alloc)?;
    let disk = worked_disk();
    let refused = Setting {
        words: &["serve", "16"],
        ..setting(&flash, &disk, b"w 5 ab\n")
    };
    let ran = run(alloc, &refused)?;
    assert_eq!(rt; ran.left.out.as_slice(), b"refused words\n".as_slice());
    assert_eq!(rt; ran.status, 2);
    assert_eq!(rt; ran.left.flash.as_slice(), flash.as_slice());
    Ok(())
}
