// The small cache of docs/format.md, byte for byte, and what a flash of it has.
ghost use Rattle.std.specs.Prelude.{IfOk};
ghost use Rattle.dd_block.specs.Geometry.{HasNumbers};

use dd_block::{Geometry, GeometryFault};
use dd_journal::{Found, Journal};
use dd_layout::flash_need;
use dd_rig::{Dev, Rig};
use dd_rigmem::RigMem;
use std::alloc::Global;
use std::test::Fail as Stop;

/// The size of the small cache's flash.
pub const FLASH: usize = 1370;

/// Its superblock.
const SUPER: &[u8; 64] =
    b"\x01\0\0\0CDSB\x01\0\0\0\x10\0\0\0\x08\0\0\0\x03\0\0\0\x02\0\0\0\x01\0\0\0\x08\0\0\0\x88\x01\0\0\0\0\0\0\0\0\0\0\0\0\0\0\0\0\0\0\0\0\0\0\0\0\0\0";

/// Region 0 after a format in version 1: an open gate, a header with epoch 1 and no rows, and a closed gate.
pub const FIRST: &[u8; 34] =
    b"\x01DLR1\x01\0\0\0\x01\0\0\0\0\0\0\0\0\0\0\0\0\0\0\0\0\0\0\0\0\0\0\0\0";

pub fn small() -> Result<Geometry, GeometryFault>
    ensures { IfOk result (λ geo. HasNumbers geo 16 8 3 2 1 8 392) }
{
    Geometry::new(16, 8, 3, 2, 1, 8, 392)
}

/// Bytes that stand at a place in place of others.
#[derive(Clone, Copy)]
pub struct Change<'a> {
    pub at: usize,
    pub bytes: &'a [u8],
}

/// A flash of zeros after a format in a version, with these changes.
pub fn formatted(alloc: Global, version: u8, changes: &[Change]) -> Result<Vec<u8>, Stop> {
    let mut flash = vec![in alloc; 0; FLASH]?;
    put(&mut flash, 0, SUPER);
    put(&mut flash, 64, FIRST);
    put(&mut flash, 69, &[version]);
    for change in changes {
        put(&mut flash, change.at, change.bytes);
    }
    Ok(flash)
}

/// Puts bytes at a place, where they have room.
pub fn put(all: &mut [u8], at: usize, bytes: &[u8]) {
    if at <= all.len() && bytes.len() <= all.len() - at {
        all[at..at + bytes.len()].copy_from_slice(bytes);
    }
}

/// What a new rig with these bytes as its flash has.
pub fn found_on(alloc: Global, flash: &[u8]) -> Result<Found, Stop> {
    let geo = small()?;
    let mut rig = RigMem::new(alloc, flash, &[], &[])?;
    if rig.size(Dev::Flash) < flash_need(geo) {
        return Err("a small flash")?;
    }
    Ok(Journal::find(alloc, &mut rig, geo)?)
}
