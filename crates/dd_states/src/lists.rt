// A list of calls on a cache that was just formatted, and what comes of it.

use crate::blocks::{Block, disk_with, worked_disk};
use crate::cache::{Cache, formatted};
use crate::steps::{Call, Told};
use dd_block::{Fingerprint, FirstByte, Geometry, Sha256Print};
use dd_rigmem::Fail;
use std::alloc::Global;
use std::process::Abort;
use std::test::Fail as Stop;

/// Which fingerprints the cache has.
#[derive(Clone, Copy)]
pub enum Print {
    Sha256,
    FirstByte,
}

/// Calls one behind the other, over eight blocks of 16 bytes and three addresses.
#[derive(Clone, Copy)]
pub struct List {
    pub print: Print,
    /// How many blocks are listed at most, and the bytes of such a flash.
    pub bcap: u32,
    pub flash: usize,
    /// The calls of the rig that fail. Those of the format don't count, and those of the search for the journal do.
    pub fails: &'static [Fail],
    pub calls: &'static [(Call, Told)],
    /// The blocks of the disk that are others behind the last call than before the first one.
    pub disk: &'static [(usize, Block)],
}

/// The cache of the worked examples.
pub const WORKED: List = List {
    print: Print::Sha256,
    bcap: 2,
    flash: 1370,
    fails: &[],
    calls: &[],
    disk: &[],
};

/// Makes the calls, and looks at each answer and at the disk.
pub fn holds(rt: &impl Abort, alloc: Global, list: List) -> Result<(), Stop> {
    match list.print {
        Print::Sha256 => answers(rt, alloc, list, Sha256Print),
        Print::FirstByte => answers(rt, alloc, list, FirstByte),
    }
}

fn answers<F: Fingerprint>(
    rt: &impl Abort,
    alloc: Global,
    list: List,
    print: F,
) -> Result<(), Stop> {
    let geo = Geometry::new(16, 8, 3, list.bcap, 1, 8, 392)?;
    let disk = worked_disk();
    let flash = formatted(alloc, geo, list.flash, &disk)?;
    let mut cache = Cache::over(alloc, geo, &flash, &disk, list.fails, print)?;
    for (call, want) in list.calls {
        assert_eq!(rt; cache.call(*call)?, *want, "{call:?}");
    }
    let want = disk_with(list.disk);
    assert_eq!(rt; cache.crash(alloc, 1)?.disk.as_slice(), want.as_slice());
    Ok(())
}
