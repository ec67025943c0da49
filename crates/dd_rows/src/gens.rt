// Rows of `gen` on a formatted flash. The sums are those of a program that computes them from the
// definitions alone.
ghost use Rattle.std.specs.Prelude.{◌≡◌};

use crate::bench::{Setting, run, worked_disk};
use crate::small::formatted;
use std::test::Fail as Stop;

fn setting<'a>(words: &'a [&'a str], flash: &'a [u8], disk: &'a [u8]) -> Setting<'a>
    ensures { result.piece ≡ 7 }
{
    Setting {
        words,
        flash,
        disk,
        script: b"r 0\n",
        piece: 7,
        fails: &[],
        failed_takes: &[],
    }
}

// The seed comes first. It may have 64 bits, and leading zeros.
#[test]
fn generated_commands_are_summed_up(rt: HostRuntime) -> Result<(), Stop> {
    let rows: [([&str; 3], &[u8]); 8] = [
        (
            ["gen", "0", "0"],
            b"sum hit 0 join 0 miss 0 dup 0 new 0 out 0 drop 0\nbye 0\n",
        ),
        (
            ["gen", "1", "1"],
            b"sum hit 0 join 0 miss 0 dup 0 new 1 out 0 drop 0\nbye 1\n",
        ),
        (
            ["gen", "1", "2000"],
            b"sum hit 416 join 527 miss 209 dup 446 new 154 out 1070 drop 361\nbye 1752\n",
        ),
        (
            ["gen", "6", "6"],
            b"sum hit 0 join 1 miss 0 dup 0 new 2 out 0 drop 0\nbye 3\n",
        ),
        (
            ["gen", "1", "100"],
            b"sum hit 24 join 29 miss 7 dup 19 new 11 out 52 drop 16\nbye 90\n",
        ),
        (
            ["gen", "4294967302", "020"],
            b"sum hit 0 join 8 miss 3 dup 5 new 1 out 9 drop 2\nbye 17\n",
        ),
        (
            ["gen", "0018446744073709551615", "50"],
            b"sum hit 13 join 12 miss 4 dup 11 new 3 out 20 drop 5\nbye 43\n",
        ),
        (
            ["gen", "6", "1000"],
            b"sum hit 204 join 288 miss 67 dup 241 new 73 out 548 drop 138\nbye 873\n",
        ),
    ];
    let alloc = rt.alloc();
    let flash = formatted(alloc)?;
    let disk = worked_disk();
    for (row, (words, want)) in rows.into_iter().enumerate() {
        let ran = run(alloc, &setting(&words, &flash, &disk))?;
        assert_eq!(rt; ran.left.out.as_slice(), want, "row {row}");
        assert_eq!(rt; ran.status, 0, "row {row}");
    }
    Ok(())
}

// Words that ask for no such run, and a flash that isn't formatted.
#[test]
fn other_words_are_refused(rt: HostRuntime) -> Result<(), Stop> {
    let rows: [[&str; 3]; 6] = [
        ["gen", "18446744073709551616", "1"],
        ["gen", "1", "4294967296"],
        ["gen", "-1", "1"],
        ["gen", "", "1"],
        ["gen", "1", "1x"],
        ["Gen", "1", "1"],
    ];
    let alloc = rt.alloc();
    let flash = formatted(alloc)?;
    let disk = worked_disk();
    for (row, words) in rows.into_iter().enumerate() {
        let ran = run(alloc, &setting(&words, &flash, &disk))?;
        assert_eq!(rt;
            ran.left.out.as_slice(),
            b"refused words\n".as_slice(),
            "row {row}"
        );
        assert_eq!(rt; ran.status, 2, "row {row}");
    }
    let words = ["gen", "1", "1"];
    let ran = run(alloc, &setting(&words, &[0; 64], &disk))?;
    assert_eq!(rt;
        ran.left.out.as_slice(),
        b"refused super gate 0\n".as_slice()
    );
    assert_eq!(rt; ran.status, 3);
    Ok(())
}
