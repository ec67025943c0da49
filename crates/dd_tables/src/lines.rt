// Lines that are no commands, in pieces of the source of several sizes.

use crate::world::{Ran, SERVE, failing_rig, run};
use std::alloc::Global;
use std::test::Fail as Stop;

// A script: what it begins with, a byte so many times, and its end.
type Script<'a> = (&'a [u8], (u8, usize), &'a [u8]);

const NO_BYTE: (u8, usize) = (0, 0);

// The run goes on behind each of them. The outputs are those of a program that computes them from the definitions
// alone.
#[test]
fn lines_of_no_command_change_nothing(rt: HostRuntime) -> Result<(), Stop> {
    let rows: [(Script, &[u8]); 9] = [
        (
            (b"\0\xff\nr 0\n", NO_BYTE, b""),
            b"bad word\nmiss 01\nbye 1\n",
        ),
        ((b"R 0\nr 0\n", NO_BYTE, b""), b"bad word\nmiss 01\nbye 1\n"),
        (
            (b"r 18446744073709551616\nr 0\n", NO_BYTE, b""),
            b"bad address\nmiss 01\nbye 1\n",
        ),
        ((b"w 1\nr 0\n", NO_BYTE, b""), b"bad data\nmiss 01\nbye 1\n"),
        ((b"#", (b'z', 9000), b"\nr 0\n"), b"miss 01\nbye 1\n"),
        (
            (b"", (b' ', 9000), b"\nr 0\n"),
            b"bad long\nmiss 01\nbye 1\n",
        ),
        ((b"q x\nr 0\n", NO_BYTE, b""), b"bad rest\nmiss 01\nbye 1\n"),
        (
            (b"w 8 ab\nw 1 abc\nx\nf 1\nr\n", (b'z', 8449), b""),
            b"bad address\nbad data\nbad word\nbad rest\nbad address\nbad long\nbye 0\n",
        ),
        (
            (b"# trace\r\n\r\n r\t0 \r\nr 00", NO_BYTE, b""),
            b"miss 01\nhit 01\nbye 2\n",
        ),
    ];
    for (row, (script, want)) in rows.into_iter().enumerate() {
        let whole = script_of(rt.alloc(), script)?;
        for piece in [1, 7, 4096] {
            let ran = served_in_pieces(rt.alloc(), &whole, piece)?;
            assert_eq!(rt; ran.said.as_slice(), want, "row {row} by {piece}");
            assert_eq!(rt; ran.status, 0, "row {row} by {piece}");
        }
    }
    Ok(())
}

fn script_of(alloc: Global, (before, (byte, times), behind): Script) -> Result<Vec<u8>, Stop> {
    let mut script = Vec::from_slice(alloc, before)?;
    script.extend_from_slice(&vec![in alloc; byte; times]?)?;
    script.extend_from_slice(behind)?;
    Ok(script)
}

fn served_in_pieces(alloc: Global, script: &[u8], piece: usize) -> Result<Ran, Stop> {
    let mut rig = failing_rig(alloc, &[])?;
    run(alloc, &mut rig, &SERVE, script, piece)
}
