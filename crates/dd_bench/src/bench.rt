// Runs over devices in memory, and how long they take.
ghost use Rattle.std.specs.Prelude.{◌<◌, ◌≤◌};

use crate::fault::Fault;
use crate::kind::Kind;
use crate::load::Load;
use crate::rig_plain::{RigPlain, Told};
use crate::script::{NONE, filling, timed};
use dd_rigmem::SureSource;
use std::alloc::{AllocError, Global};
use std::time::Instant;

const BLOCK: usize = 16;

const SPARE: usize = 1024;

const GROUP: usize = 1024;

const LOG: usize = 8_388_608;

/// How often each run is made. The shortest counts: other work on the machine makes a run longer and
/// never shorter.
const TIMES: u32 = 15;

/// Nanoseconds of the shortest runs.
#[derive(Clone, Copy, Debug, PartialEq, Eq)]
pub struct Times {
    /// Of a run of no command: the opening.
    pub none: u64,
    /// Of a run of all commands.
    pub all: u64,
}

/// What the commands of a kind came to, each of which is answered as one.
pub fn check_kind(alloc: Global, kind: Kind, load: Load) -> Result<Told, Fault> {
    let mut rig = filled(alloc, kind, load)?;
    let script = timed(alloc, kind, load)?;
    checked(alloc, &script, kind, load, &mut rig)
}

/// The times of a kind, behind a run whose replies are looked at.
pub fn time_kind(rt: &HostRuntime, kind: Kind, load: Load) -> Result<Times, Fault> {
    let alloc = rt.alloc();
    let kept = filled(alloc, kind, load)?;
    let script = timed(alloc, kind, load)?;
    let mut rig = empty(alloc, load)?;
    rig.set(&kept);
    checked(alloc, &script, kind, load, &mut rig)?;
    rig.watch(None);
    let words = words_of(alloc, &["serve"])?;
    let mut times = Times {
        none: u64::MAX,
        all: u64::MAX,
    };
    for _ in 0..TIMES {
        rig.set(&kept);
        times.none = times.none.min(time_run(rt, &words, NONE, &mut rig)?);
        rig.set(&kept);
        times.all = times.all.min(time_run(rt, &words, &script, &mut rig)?);
    }
    Ok(times)
}

// Nanoseconds of one run. The clock runs while `run` does.
fn time_run(
    rt: &HostRuntime,
    words: &[String],
    script: &[u8],
    rig: &mut RigPlain,
) -> Result<u64, Fault> {
    let mut source = SureSource::new(rt.alloc(), script)?;
    let start = Instant::now(rt).map_err(|_| Fault::Clock)?;
    let status = dd_serve::run(rt.alloc(), words, &mut source, rig);
    let took = start.elapsed(rt).map_err(|_| Fault::Clock)?;
    if status != 0 {
        return Err(Fault::Status(status));
    }
    Ok(u64::try_from(took.as_nanos()).unwrap_or(u64::MAX))
}

// Runs the commands, and looks at each reply.
fn checked(
    alloc: Global,
    script: &[u8],
    kind: Kind,
    load: Load,
    rig: &mut RigPlain,
) -> Result<Told, Fault> {
    rig.watch(Some(kind));
    run(alloc, &["serve"], script, rig)?;
    let told = rig.told();
    let wanted = u64::from(load.count);
    if told.replies == wanted {
        Ok(told)
    } else {
        Err(Fault::Other {
            name: kind.name(),
            others: wanted.saturating_sub(told.replies),
        })
    }
}

// Devices whose lists are filled for a kind.
fn filled(alloc: Global, kind: Kind, load: Load) -> Result<RigPlain, Fault> {
    let mut rig = empty(alloc, load)?;
    let block = format!(in alloc; "{BLOCK}")?;
    let blocks = format!(in alloc; "{}", 2 * load.rows)?;
    let rows = format!(in alloc; "{}", load.rows)?;
    let spare = format!(in alloc; "{SPARE}")?;
    let group = format!(in alloc; "{GROUP}")?;
    let log = format!(in alloc; "{LOG}")?;
    let format = [
        "format",
        block.as_str(),
        blocks.as_str(),
        rows.as_str(),
        rows.as_str(),
        spare.as_str(),
        group.as_str(),
        log.as_str(),
    ];
    run(alloc, &format, &[], &mut rig)?;
    let script = filling(alloc, kind, load)?;
    run(alloc, &["serve"], &script, &mut rig)?;
    Ok(rig)
}

// Zeros, as many as the lists want.
fn empty(alloc: Global, load: Load) -> Result<RigPlain, AllocError> {
    let rows = load.rows as usize;
    let flash = 64 + 2 * (33 + (36 + 44) * rows + LOG) + (rows + SPARE) * BLOCK;
    RigPlain::new(alloc, flash, 2 * rows * BLOCK)
}

fn run(alloc: Global, words: &[&str], script: &[u8], rig: &mut RigPlain) -> Result<(), Fault> {
    let words = words_of(alloc, words)?;
    let mut source = SureSource::new(alloc, script)?;
    match dd_serve::run(alloc, &words, &mut source, rig) {
        0 => Ok(()),
        status => Err(Fault::Status(status)),
    }
}

fn words_of(alloc: Global, words: &[&str]) -> Result<Vec<String>, AllocError> {
    let mut all = Vec::new(alloc);
    for word in words {
        all.push(String::from_str(alloc, word)?)?;
    }
    Ok(all)
}
