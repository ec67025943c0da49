// Failing calls of `replay` and of `serve`, one a row.

use crate::world::{SERVE, formatted, run, worked_disk};
use dd_rig::Dev;
use dd_rigmem::{Call, Fail, RigMem};
use std::alloc::Global;
use std::test::Fail as Stop;

const REPLAY: [&str; 4] = ["replay", "16", "3", "2"];

#[derive(Clone, Copy, Debug)]
enum Command {
    Replay,
    Serve,
}

impl Command {
    fn words(self) -> &'static [&'static str] {
        match self {
            Command::Replay => &REPLAY,
            Command::Serve => &SERVE,
        }
    }

    // A flash that it begins with: scratch, or a formatted one.
    fn flash(self, alloc: Global) -> Result<Vec<u8>, Stop> {
        match self {
            Command::Replay => Ok(vec![in alloc; 0; 112]?),
            Command::Serve => formatted(alloc),
        }
    }
}

#[test]
fn a_failing_call_is_answered_or_stops(rt: HostRuntime) -> Result<(), Stop> {
    let flash_read = Call::Read(Dev::Flash);
    let flash_write = Call::Write(Dev::Flash);
    let rows: [(Command, Call, u64, &[u8], &[u8], u8); 3] = [
        (
            Command::Replay,
            flash_read,
            2,
            b"r 0\nr 0\n",
            b"miss 01\nfault flash\nbye 1\n",
            1,
        ),
        (
            Command::Replay,
            Call::Emit,
            2,
            b"r 0\nr 0\n",
            b"miss 01\nhit",
            6,
        ),
        (
            Command::Serve,
            flash_write,
            1,
            b"w 5 ab\n",
            b"stopped flash\n",
            7,
        ),
    ];
    let alloc = rt.alloc();
    for (command, call, number, script, want, status) in rows {
        let fails = [Fail { call, number }];
        let mut rig = RigMem::new(alloc, &command.flash(alloc)?, &worked_disk(), &fails)?;
        let ran = run(alloc, &mut rig, command.words(), script, 7)?;
        assert_eq!(rt; ran.said.as_slice(), want, "{command:?}, {call:?}");
        assert_eq!(rt; ran.status, status, "{command:?}, {call:?}");
    }
    Ok(())
}
