// Rows of `replay` on blocks of zeros, which are always at hand and take no slot.
use crate::bench::{Setting, WORKED_FLASH, run, worked_disk};
use dd_rig::Dev;
use dd_rigmem::{Call, Fail};
use std::test::Fail as Stop;

const REPLAY: [&str; 4] = ["replay", "16", "3", "2"];

// Blocks 4 to 7 of the disk are zeros. The fifth row fills both lists around address 4.
#[test]
fn zeros_are_joined_and_then_hit(rt: HostRuntime) -> Result<(), Stop> {
    let rows: [(&[u8], &[u8]); 5] = [
        (b"r 4\n", b"join 00\nbye 1\n"),
        (b"r 4\nr 4\n", b"join 00\nhit 00\nbye 2\n"),
        (
            b"r 4\nr 5\nr 6\nr 7\nr 4\n",
            b"join 00\njoin 00\njoin 00\njoin 00 out 4\njoin 00 out 5\nbye 5\n",
        ),
        (
            b"r 0\nr 1\nr 4\nr 3\nr 4\nr 1\nr 0\n",
            b"miss 01\nmiss 02\njoin 00\nmiss 03 out 0 drop 0100000000000000\nhit 00\nhit 02\nmiss 01 out 3 drop 0300000000000000\nbye 7\n",
        ),
        (
            b"r 0\nr 4\nr 1\nr 4\nr 3\nr 0\nr 4\n",
            b"miss 01\njoin 00\nmiss 02\nhit 00\nmiss 03 out 0 drop 0100000000000000\nmiss 01 out 1 drop 0200000000000000\nhit 00\nbye 7\n",
        ),
    ];
    let disk = worked_disk();
    for (script, want) in rows {
        let setting = Setting {
            words: &REPLAY,
            flash: &WORKED_FLASH,
            disk: &disk,
            script,
            piece: 7,
            fails: &[],
            failed_takes: &[],
        };
        let ran = run(rt.alloc(), &setting)?;
        assert_eq!(rt; ran.left.out.as_slice(), want, "{script:?}");
        assert_eq!(rt; ran.status, 0, "{script:?}");
    }
    Ok(())
}

// A read of zeros writes no slot, and the hit makes no call: the calls that would fail are never made.
// The first read of the flash is that of its byte 0, and the first of the disk is the join's.
#[test]
fn zeros_take_no_slot_and_their_hit_no_call(rt: HostRuntime) -> Result<(), Stop> {
    let disk = worked_disk();
    let flash = [7; 112];
    let fails = [
        Fail {
            call: Call::Read(Dev::Flash),
            number: 2,
        },
        Fail {
            call: Call::Read(Dev::Disk),
            number: 2,
        },
        Fail {
            call: Call::Write(Dev::Flash),
            number: 1,
        },
    ];
    let setting = Setting {
        words: &REPLAY,
        flash: &flash,
        disk: &disk,
        script: b"r 4\nr 4\nr 4\n",
        piece: 7,
        fails: &fails,
        failed_takes: &[],
    };
    let ran = run(rt.alloc(), &setting)?;
    assert_eq!(rt;
        ran.left.out.as_slice(),
        b"join 00\nhit 00\nhit 00\nbye 3\n".as_slice()
    );
    assert_eq!(rt; ran.status, 0);
    assert_eq!(rt; ran.left.flash.as_slice(), flash.as_slice());
    Ok(())
}
