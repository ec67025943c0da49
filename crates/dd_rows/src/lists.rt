// What `l` and `s` tell of both lists, of a cache and of a replay. The outputs are those of a program that
// computes them from the definitions alone.
ghost use Rattle.std.specs.Prelude.{◌≡◌};

use crate::bench::{Setting, WORKED_FLASH, run, run_sha256, worked_disk};
use crate::small::formatted;
use dd_block::FirstByte;
use dd_rig::Dev;
use dd_rigmem::{Call, Fail, RigMem, SourceMem};
use std::test::Fail as Stop;

const SERVE: [&str; 1] = ["serve"];

const REPLAY: [&str; 4] = ["replay", "16", "3", "1"];

fn setting<'a>(words: &'a [&'a str], flash: &'a [u8], script: &'a [u8]) -> Setting<'a>
    ensures { result.piece ≡ 5 }
{
    Setting {
        words,
        flash,
        disk: &[],
        script,
        piece: 5,
        fails: &[],
        failed_takes: &[],
    }
}

#[test]
fn a_cache_tells_what_it_holds(rt: HostRuntime) -> Result<(), Stop> {
    let rows: [(&[u8], &[u8]); 9] = [
        (b"l\ns\n", b"A B\nstat n 0 addresses 0 blocks 0\nbye 0\n"),
        (
            b"w 1 ab01\nw 2 ab02\nl\n",
            b"new\nnew\nA 2 1 B ab00000000000000 ab00000000000000\nbye 2\n",
        ),
        (
            b"w 4 aa\nw 5 aa\nw 6 bb\nw 6 cc\ns\nr 4\n",
            b"new\ndup\nnew\nnew drop aa00000000000000\nstat n 4 addresses 2 blocks 1\nmiss aa drop bb00000000000000\nbye 5\n",
        ),
        (
            b"w 5 ab\nw 5 ab\nw 5 cd\ns\n",
            b"new\ndup\nnew\nstat n 3 addresses 0 blocks 1\nbye 3\n",
        ),
        (
            b"w 4 aa\nd 4\nr 4\ns\n",
            b"new\ndup\nhit 00\nstat n 3 addresses 0 blocks 1\nbye 3\n",
        ),
        (
            b"r 4\nr 5\nr 6\nr 7\nl\n",
            b"join 00\njoin 00\njoin 00\njoin 00 out 4\nA 7 6 5 B\nbye 4\n",
        ),
        (
            b"w 4 aa\nw 5 bb\nw 6 cc\nl\ns\n",
            b"new\nnew\nnew drop aa00000000000000\nA 6 5 4- B cc00000000000000 bb00000000000000\nstat n 3 addresses 1 blocks 0\nbye 3\n",
        ),
        (
            b"l 1\ns x\ns\n l\t\n",
            b"bad rest\nbad rest\nstat n 0 addresses 0 blocks 0\nA B\nbye 0\n",
        ),
        (
            b"w 7 aa\nr 0\nr 1\nl\ns\nc\nl\ns\nq\nl\n",
            b"new\nmiss 01\nmiss 02 drop aa00000000000000\nA 1 0 7- B 0200000000000000 0100000000000000\nstat n 3 addresses 1 blocks 0\ncleaned\nA 1 0 7- B 0200000000000000 0100000000000000\nstat n 3 addresses 1 blocks 0\nbye 3\n",
        ),
    ];
    let alloc = rt.alloc();
    let flash = formatted(alloc)?;
    let disk = worked_disk();
    for (script, want) in rows {
        let serves = Setting {
            disk: &disk,
            ..setting(&SERVE, &flash, script)
        };
        let ran = run(alloc, &serves)?;
        assert_eq!(rt; ran.left.out.as_slice(), want, "{script:?}");
        assert_eq!(rt; ran.status, 0, "{script:?}");
    }
    Ok(())
}

#[test]
fn a_replay_tells_what_it_holds(rt: HostRuntime) -> Result<(), Stop> {
    let rows: [(&[u8], &[u8]); 2] = [
        (
            b"r 0\nr 1\nr 2\nr 0\nl\ns\n",
            b"miss 01\nmiss 02 drop 0100000000000000\nmiss 01 drop 0200000000000000\njoin 01\nA 0 2 1- B 0100000000000000\nstat n 4 addresses 1 blocks 0\nbye 4\n",
        ),
        (
            b"s\nr 4\nl\ns\nw 1 ab\nf\n",
            b"stat n 0 addresses 0 blocks 0\njoin 00\nA 4 B\nstat n 1 addresses 0 blocks 0\nbad word\nbad word\nbye 1\n",
        ),
    ];
    let disk = worked_disk();
    for (script, want) in rows {
        let replays = Setting {
            disk: &disk,
            ..setting(&REPLAY, &WORKED_FLASH, script)
        };
        let ran = run(rt.alloc(), &replays)?;
        assert_eq!(rt; ran.left.out.as_slice(), want, "{script:?}");
        assert_eq!(rt; ran.status, 0, "{script:?}");
    }
    Ok(())
}

// With SHA-256, over what a former run left.
#[test]
fn a_second_run_tells_both_lists_of_the_first(rt: HostRuntime) -> Result<(), Stop> {
    let alloc = rt.alloc();
    let flash = formatted(alloc)?;
    let disk = worked_disk();
    let first = Setting {
        disk: &disk,
        ..setting(&SERVE, &flash, b"w 5 ab\nf\nr 5\nq\n")
    };
    let ran = run_sha256(alloc, &first)?;
    assert_eq!(rt;
        ran.left.out.as_slice(),
        b"new\nflushed 1\nhit ab\nbye 2\n".as_slice()
    );
    let then = Setting {
        disk: &ran.left.disk,
        ..setting(&SERVE, &ran.left.flash, b"l\ns\n")
    };
    let again = run_sha256(alloc, &then)?;
    let want = b"A 5 B facbf474be3e6f7a\nstat n 2 addresses 0 blocks 0\nbye 2\n";
    assert_eq!(rt; again.left.out.as_slice(), want.as_slice());
    assert_eq!(rt; again.status, 0);
    Ok(())
}

// The pieces of the line are A, each address, B, each block and its end; half of the one that failed is said.
#[test]
fn both_lists_are_said_up_to_a_failed_emit(rt: HostRuntime) -> Result<(), Stop> {
    let rows: [(u64, &[u8]); 5] = [
        (2, b"new\n"),
        (3, b"new\nA "),
        (4, b"new\nA 1 "),
        (5, b"new\nA 1 B ab00000"),
        (6, b"new\nA 1 B ab00000000000000"),
    ];
    let alloc = rt.alloc();
    let flash = formatted(alloc)?;
    let disk = worked_disk();
    for (number, want) in rows {
        let fails = [Fail {
            call: Call::Emit,
            number,
        }];
        let failing = Setting {
            disk: &disk,
            fails: &fails,
            ..setting(&SERVE, &flash, b"w 1 ab\nl\nr 1\n")
        };
        let ran = run(alloc, &failing)?;
        assert_eq!(rt; ran.left.out.as_slice(), want, "emit {number}");
        assert_eq!(rt; ran.status, 6, "emit {number}");
    }
    Ok(())
}

#[test]
fn a_failed_read_lists_nothing(rt: HostRuntime) -> Result<(), Stop> {
    let alloc = rt.alloc();
    let flash = formatted(alloc)?;
    let disk = worked_disk();
    let fails = [Fail {
        call: Call::Read(Dev::Disk),
        number: 1,
    }];
    let failing = Setting {
        disk: &disk,
        fails: &fails,
        ..setting(&SERVE, &flash, b"r 0\nl\nr 0\n")
    };
    let ran = run(alloc, &failing)?;
    assert_eq!(rt;
        ran.left.out.as_slice(),
        b"fault disk\nA B\nmiss 01\nbye 1\n".as_slice()
    );
    assert_eq!(rt; ran.status, 1);
    Ok(())
}

// The eleventh call opens the gate of the commit: six are of the opening, two of the write and its emit,
// and two of the body. Before it is begun the write isn't there, and within it either may be.
#[test]
fn a_commit_is_told_whole_or_not_at_all(rt: HostRuntime) -> Result<(), Stop> {
    let none = b"stat n 0 addresses 0 blocks 0\nbye 0\n".as_slice();
    let one = b"stat n 1 addresses 0 blocks 0\nbye 1\n".as_slice();
    let alloc = rt.alloc();
    let flash = formatted(alloc)?;
    let disk = worked_disk();
    let mut words = Vec::new(alloc);
    words.push(String::from_str(alloc, "serve")?)?;
    for call in 9..=11 {
        let mut rig = RigMem::new(alloc, &flash, &disk, &[])?;
        assert!(rt; rig.may_stop_at(call));
        rig.stop_at(call);
        let mut source = SourceMem::new(alloc, b"w 5 ab\nf\n", 7, &[])?;
        let status = dd_serve::run_with(alloc, &words, &mut source, &mut rig, FirstByte);
        assert_eq!(rt; status, 7, "stopped at call {call}");
        for pick in 0..100 {
            let left = rig.crash(alloc, pick)?;
            let then = Setting {
                disk: &left.disk,
                ..setting(&SERVE, &left.flash, b"s\n")
            };
            let ran = run(alloc, &then)?;
            let out = ran.left.out.as_slice();
            let within = call == 11 && pick != 0;
            assert!(rt;
                out == none || within && out == one,
                "at {call}, pick {pick}"
            );
            assert!(rt;
                pick != 1 || call != 11 || out == one,
                "at {call}, pick {pick}"
            );
        }
    }
    Ok(())
}
