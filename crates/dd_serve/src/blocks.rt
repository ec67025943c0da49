// Blocks of both devices: in the slots of the flash, and at the addresses of the disk.
ghost use Rattle.std.specs.Prelude.{◌≡◌, ◌+◌, ◌*◌, ◌<◌, ◌≤◌, ℕ, length, Some, IfOk, OnOk, IfErr, IfSome};
ghost use Rattle.dd_rig.specs.Clock.{Elapses};
ghost use Rattle.dd_rig.specs.Counts.{Frame, nothing, up_to};
ghost use Rattle.dd_rig.specs.declared.device.Dev.TheVariants.{Flash as FlashDevice, Disk as DiskDevice};
ghost use Rattle.dd_rig.specs.World.{shown};
ghost use Rattle.dd_slots.specs.declared.usage.Usage.TheVariants.{Used};
ghost use Rattle.dd_slots.specs.Slots.{count_of, use_of, saved};
ghost use Rattle.dd_model.specs.Confirming.{IsCandidate, Confirms};
ghost use Rattle.dd_serve.specs.declared.blocks.ScratchFault.TheVariants.{FlashWrite};
ghost use Rattle.dd_serve.specs.Calls.{Asks, OnlyBlocks};
ghost use Rattle.dd_serve.specs.Causes.{Faulted, LeavesWorld};
ghost use Rattle.dd_serve.specs.Scratch.{FitsFlash, OnlyFlash, IsWithin, held_in, block_of};

use dd_block::Fp;
use dd_model::Lists;
use dd_rig::{Dev, Rig};
use dd_slots::Slots;

/// Why a reference failed. Where a read failed, nothing has changed.
#[derive(Clone, Copy, Debug, PartialEq, Eq)]
pub enum ScratchFault {
    FlashRead,
    DiskRead,
    FlashWrite,
}

/// Reads a slot of the flash.
pub fn load<R: Rig>(
    rig: &mut R,
    slots: &Slots,
    slot: u32,
    into: &mut [u8],
) -> Result<(), ScratchFault>
    requires slot { slot < count_of slots.now }
    requires size { length into.old ≡ slots.now.block }
    requires flash { FitsFlash slots.now (R.device_size rig.old) }
    ensures bytes { R.tells → OnOk result (into.new ≡ held_in slots.now (R.world rig.old) slot) }
    ensures world { R.tells → R.world rig.new ≡ R.world rig.old }
    ensures time { R.tells → Elapses (R.clock rig.old) (R.clock rig.new) (IsWithin (R.world rig.old)) }
    ensures blocks { OnlyBlocks slots.now.block (R.counts rig.old) (R.counts rig.new) }
    ensures frame { Frame (R.counts rig.old) (R.counts rig.new) (R.device_size rig.old) (R.device_size rig.new) }
    ensures asks { Asks 1 (up_to 1 0 0) nothing (R.counts rig.old) (R.counts rig.new) }
    ensures cause { IfErr result (λ fault. Faulted fault (R.counts rig.old) (R.counts rig.new)) }
{
    slots
        .load(rig, slot, into)
        .map_err(|_| ScratchFault::FlashRead)
}

/// Writes a slot of the flash.
pub fn save<R: Rig>(rig: &mut R, slots: &Slots, slot: u32, from: &[u8]) -> Result<(), ScratchFault>
    requires slot { use_of slots.now slot ≡ Some Used }
    requires size { length from.now ≡ slots.now.block }
    requires flash { FitsFlash slots.now (R.device_size rig.old) }
    ensures fault { IfErr result (λ fault. fault ≡ FlashWrite) }
    ensures world { R.tells → OnOk result (R.world rig.new ≡ saved slots.now slot from.now (R.world rig.old)) }
    ensures others { R.tells → OnlyFlash (R.world rig.old) (R.world rig.new) }
    ensures time { R.tells → Elapses (R.clock rig.old) (R.clock rig.new) (IsWithin (R.world rig.old)) }
    ensures blocks { OnlyBlocks slots.now.block (R.counts rig.old) (R.counts rig.new) }
    ensures frame { Frame (R.counts rig.old) (R.counts rig.new) (R.device_size rig.old) (R.device_size rig.new) }
    ensures asks { Asks 0 (up_to 0 1 slots.now.block) nothing (R.counts rig.old) (R.counts rig.new) }
    ensures cause { IfErr result (λ fault. Faulted fault (R.counts rig.old) (R.counts rig.new)) }
{
    slots
        .save(rig, slot, from)
        .map_err(|_| ScratchFault::FlashWrite)
}

/// Reads a block of the disk.
pub fn fetch<R: Rig>(rig: &mut R, address: u32, into: &mut [u8]) -> Result<(), ScratchFault>
    requires { (address + 1) * length into.old ≤ R.device_size rig.old DiskDevice }
    ensures bytes { R.tells → OnOk result (into.new ≡ block_of (length into.old) (R.world rig.old) address) }
    ensures world { R.tells → R.world rig.new ≡ R.world rig.old }
    ensures time { R.tells → Elapses (R.clock rig.old) (R.clock rig.new) (IsWithin (R.world rig.old)) }
    ensures blocks { (block : ℕ) → OnlyBlocks block (R.counts rig.old) (R.counts rig.new) }
    ensures frame { Frame (R.counts rig.old) (R.counts rig.new) (R.device_size rig.old) (R.device_size rig.new) }
    ensures asks { Asks 0 nothing (up_to 1 0 0) (R.counts rig.old) (R.counts rig.new) }
    ensures cause { IfErr result (λ fault. Faulted fault (R.counts rig.old) (R.counts rig.new)) }
{
    let at = u64::from(address) * into.len() as u64;
    rig.read(Dev::Disk, at, into)
        .map_err(|_| ScratchFault::DiskRead)
}

/// The slot of the listed block with this fingerprint and these bytes, where there is one. Only listed
/// blocks with the fingerprint are read.
pub fn find<L: Lists, R: Rig>(
    rig: &mut R,
    lists: &L,
    slots: &Slots,
    fp: Fp,
    block: &[u8],
    other: &mut [u8],
) -> Result<Option<u32>, ScratchFault>
    requires slots { (L.listing lists.now).slots ≤ count_of slots.now }
    requires block { length block.now ≡ slots.now.block }
    requires other { length other.old ≡ slots.now.block }
    requires flash { FitsFlash slots.now (R.device_size rig.old) }
    ensures listed { IfOk result (λ found. IfSome found (IsCandidate fp (L.listing lists.now).table.b)) }
    ensures found { R.tells → IfOk result (Confirms fp block.now slots.now (shown FlashDevice (R.world rig.old)) (L.listing lists.now).table.b) }
    ensures world { R.tells → R.world rig.new ≡ R.world rig.old }
    ensures time { R.tells → Elapses (R.clock rig.old) (R.clock rig.new) (IsWithin (R.world rig.old)) }
    ensures blocks { OnlyBlocks slots.now.block (R.counts rig.old) (R.counts rig.new) }
    ensures frame { Frame (R.counts rig.old) (R.counts rig.new) (R.device_size rig.old) (R.device_size rig.new) }
    ensures asks { Asks 0 (up_to (L.listing lists.now).bcap 0 0) nothing (R.counts rig.old) (R.counts rig.new) }
    ensures cause { IfErr result (λ fault. Faulted fault (R.counts rig.old) (R.counts rig.new)) }
{
    lists
        .confirm(rig, slots, fp, block, other)
        .map_err(|_| ScratchFault::FlashRead)
}
