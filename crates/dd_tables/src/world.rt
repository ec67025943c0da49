// A freshly formatted flash, a disk, and runs over them.

use dd_block::FirstByte;
use dd_rig::{Dev, Failed, Rig};
use dd_rigmem::{Call, Fail, RigMem, SourceMem};
use std::alloc::Global;
use std::process::Abort;
use std::test::Fail as Stop;

pub const SERVE: [&str; 1] = ["serve"];

/// The bytes of the flash of eight blocks of 16 bytes, three addresses and two listed blocks.
pub const FLASH: usize = 1370;

/// How often a table counts upwards at most. A run makes fewer calls.
pub const MOST: u64 = 200;

/// How many crashes a table looks at, by the numbers below.
pub const PICKS: u64 = 6;

// The superblock of docs/format.md.
const SUPER: &[u8; 64] =
    b"\x01\0\0\0CDSB\x01\0\0\0\x10\0\0\0\x08\0\0\0\x03\0\0\0\x02\0\0\0\x01\0\0\0\x08\0\0\0\x88\x01\0\0\0\0\0\0\0\0\0\0\0\0\0\0\0\0\0\0\0\0\0\0\0\0\0\0";

// Region 0: an open gate, a header with epoch 1 and no rows, and a closed gate.
const FIRST: &[u8; 34] = b"\x01DLR1\x02\0\0\0\x01\0\0\0\0\0\0\0\0\0\0\0\0\0\0\0\0\0\0\0\0\0\0\0\0";

/// A flash of zeros after a format.
pub fn formatted(alloc: Global) -> Result<Vec<u8>, Stop> {
    let mut flash = Vec::from_slice(alloc, SUPER)?;
    flash.extend_from_slice(FIRST)?;
    flash.resize(FLASH, 0)?;
    Ok(flash)
}

/// Blocks 0 to 3 have the texts 01, 02, 01, 03. Blocks 4 to 7 are zero.
pub fn worked_disk() -> [u8; 128] {
    let mut bytes = [0; 128];
    bytes[0] = 1;
    bytes[16] = 2;
    bytes[32] = 1;
    bytes[48] = 3;
    bytes
}

/// A rig over both, of which these calls fail.
pub fn failing_rig(alloc: Global, fails: &[Fail]) -> Result<RigMem, Stop> {
    let flash = formatted(alloc)?;
    Ok(RigMem::new(alloc, &flash, &worked_disk(), fails)?)
}

/// A rig over these devices that stops at a call, from 1.
pub fn stopping_rig(
    rt: &impl Abort,
    alloc: Global,
    flash: &[u8],
    disk: &[u8],
    call: u64,
) -> Result<RigMem, Stop> {
    let mut rig = RigMem::new(alloc, flash, disk, &[])?;
    assert!(rt; rig.may_stop_at(call), "at {call}");
    rig.stop_at(call);
    Ok(rig)
}

/// What a run gave: its status, and its own part of the output.
#[derive(Drop)]
pub struct Ran {
    pub status: u8,
    pub said: Vec<u8>,
}

/// Runs with the first byte of a block as its fingerprint. The source gives at most `piece` bytes at once.
pub fn run(
    alloc: Global,
    rig: &mut RigMem,
    words: &[&str],
    script: &[u8],
    piece: usize,
) -> Result<Ran, Stop> {
    let mut owned = Vec::new(alloc);
    for word in words {
        owned.push(String::from_str(alloc, word)?)?;
    }
    let mut source = SourceMem::new(alloc, script, piece.max(1), &[])?;
    let before = rig.crash(alloc, 0)?.out.len();
    let status = dd_serve::run_with(alloc, &owned, &mut source, rig, FirstByte);
    let all = rig.crash(alloc, 0)?.out;
    let said = Vec::from_slice(alloc, all.get(before..).unwrap_or(&[]))?;
    Ok(Ran { status, said })
}

/// A run of `serve`.
pub fn serve(alloc: Global, rig: &mut RigMem, script: &[u8]) -> Result<Ran, Stop> {
    run(alloc, rig, &SERVE, script, 7)
}

/// Makes one more call of a kind, which moves no byte.
pub fn call_once(rig: &mut RigMem, call: Call) -> Result<(), Failed> {
    match call {
        Call::Read(dev) => rig.read(dev, 0, &mut []),
        Call::Write(dev) => rig.write(dev, 0, &[]),
        Call::Sync(dev) => rig.sync(dev),
        Call::Emit => rig.emit(&[]),
    }
}

/// The name of a device, as a line ends with it.
pub fn name_of(dev: Dev) -> &'static [u8] {
    match dev {
        Dev::Flash => b"flash\n",
        Dev::Disk => b"disk\n",
    }
}
