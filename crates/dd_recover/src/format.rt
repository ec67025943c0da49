// Formatting a flash.
ghost use Rattle.std.specs.Prelude.{◌≡◌, ◌≢◌, ◌⊎◌, ◌+◌, ◌≤◌, ℕ, List, slice_index, Ok, Err, OnOk, OnErr, IfErr};
ghost use Rattle.dd_block.specs.declared.print.Fp.{Fp};
ghost use Rattle.dd_block.specs.Geometry.{GivesFault};
ghost use Rattle.dd_rig.specs.declared.device.Dev.TheVariants.{Flash as FlashDevice, Disk as DiskDevice};
ghost use Rattle.dd_rig.specs.Device.{IsImage};
ghost use Rattle.dd_rig.specs.World.{IsOwn, shown, WithinWrite};
ghost use Rattle.dd_rig.specs.Clock.{Elapses, AddsNone};
ghost use Rattle.dd_rig.specs.Counts.{Frame, Rose, Makes, up_to, nothing};
ghost use Rattle.dd_rig.specs.Leaves.{LeavesShown};
ghost use Rattle.dd_layout.specs.Layout as layout;
ghost use Rattle.dd_journal.specs.Sitting.{regions_size};
ghost use Rattle.dd_recover.specs.Calls.{FailsBy, CostsOfFormat, LeavesOfFormat};
ghost use Rattle.dd_recover.specs.Formatting.{small_fault, format_fault, TellsSmall, TellsFault, IsSmall, IsEarly, IsFormatted, IsUnusedOrFormatted, FormatFaulted, first_text};
ghost use Rattle.dd_recover.specs.Writing.{settled, with_regions, formatted_world, WithinFormat, Unsynced};

use crate::FormatFault;
use dd_block::{Geometry, put_bytes};
use dd_journal::Journal;
use dd_layout::{disk_need, flash_need, region_at, write_super};
use dd_record::{Head, put_head};
use dd_rig::{Dev, Failed, Rig};

// The header of a snapshot of version 2 without rows, before the first reference.
const FIRST: Head = Head {
    version: 2,
    epoch: 1,
    count: 0,
    len_a: 0,
    len_b: 0,
};

/// Formats a flash, so that both devices stand for the array as the disk shows it, with empty lists
/// and no references. It refuses devices that are too small and a flash in use, in this order and
/// before any write. It takes no memory. On the flash it makes at most one read, four writes of 99
/// bytes together and three syncs, and on the disk one sync. docs/format.md has their order.
pub fn format_flash<R: Rig>(rig: &mut R, geo: Geometry) -> Result<(), FormatFault>
    // its answer
    ensures small { TellsSmall result (small_fault geo (R.device_size rig.old)) }
    ensures fault { R.tells → TellsFault result (format_fault geo (R.device_size rig.old) (shown FlashDevice (R.world rig.old))) }
    ensures fails { FailsBy FormatFaulted result (R.counts rig.old) (R.counts rig.new) (R.device_size rig.old) (R.device_size rig.new) }

    // what it costs
    ensures sized { IsSmall result → rig.new ≡ rig.old }
    ensures costs { CostsOfFormat result (R.counts rig.old) (R.counts rig.new) }

    // what it leaves
    ensures ok { R.tells → OnOk result ((print : List ℕ → Fp) (flash disk : List ℕ)
        → IsImage (R.world rig.new).flash flash → IsImage (R.world rig.new).disk disk → IsFormatted print geo (R.world rig.old) flash disk) }
    ensures crash { R.tells → (print : List ℕ → Fp) → Elapses (R.clock rig.old) (R.clock rig.new)
        (λ o. IsUnusedOrFormatted print geo (R.world rig.old) o.flash o.disk) }
    ensures now { R.tells → (print : List ℕ → Fp) (flash disk : List ℕ) → IsImage (R.world rig.new).flash flash → IsImage (R.world rig.new).disk disk
        → IsOwn (R.world rig.old) flash disk ⊎ IsUnusedOrFormatted print geo (R.world rig.old) flash disk }
    ensures leaves { R.tells → LeavesOfFormat geo result (R.world rig.old) (R.world rig.new) }
    ensures time { R.tells → Elapses (R.clock rig.old) (R.clock rig.new) (WithinWrite FlashDevice 0 (64 + regions_size geo) (R.world rig.old)) }
{
    test(rig, geo)?;
    settle(rig)?;
    write_flash(rig, geo).map_err(|_| FormatFault::FlashWrite)
}

// Tests the sizes, and then byte 0 of the flash.
fn test<R: Rig>(rig: &mut R, geo: Geometry) -> Result<(), FormatFault>
    ensures small { TellsSmall result (small_fault geo (R.device_size rig.old)) }
    ensures fault { R.tells → TellsFault result (format_fault geo (R.device_size rig.old) (shown FlashDevice (R.world rig.old))) }
    ensures room { OnOk result ((layout.flash_need geo ≤ R.device_size rig.old FlashDevice) × (layout.disk_need geo ≤ R.device_size rig.old DiskDevice)) }
    ensures sized { IsSmall result → rig.new ≡ rig.old }
    ensures unused { R.tells → OnOk result (slice_index (shown FlashDevice (R.world rig.old)) 0 ≢ 1) }
    ensures early { OnErr result (IsEarly result) }
    ensures world { R.tells → R.world rig.new ≡ R.world rig.old }
    ensures time { R.tells → AddsNone (R.clock rig.old) (R.clock rig.new) }
    ensures still { (R.counts rig.new).flash.writes ≡ (R.counts rig.old).flash.writes }
    ensures calls { Makes (up_to 1 0 0) nothing (R.counts rig.old) (R.counts rig.new) }
    ensures fails { FailsBy FormatFaulted result (R.counts rig.old) (R.counts rig.new) (R.device_size rig.old) (R.device_size rig.new) }
{
    test_sizes(rig, geo)?;
    let mut gate = [0];
    rig.read(Dev::Flash, 0, &mut gate)
        .map_err(|_| FormatFault::FlashRead)?;
    if gate[0] == 1 {
        return Err(FormatFault::InUse);
    }
    Ok(())
}

// Tests the sizes, the flash first.
fn test_sizes<R: Rig>(rig: &R, geo: Geometry) -> Result<(), FormatFault>
    ensures fault { GivesFault result (small_fault geo (R.device_size rig.now)) }
    ensures small { TellsSmall result (small_fault geo (R.device_size rig.now)) }
    ensures room { OnOk result ((layout.flash_need geo ≤ R.device_size rig.now FlashDevice) × (layout.disk_need geo ≤ R.device_size rig.now DiskDevice)) }
    ensures early { OnErr result (IsEarly result) }
    ensures unread { result ≢ Err FormatFault.FlashRead }
{
    let need = flash_need(geo);
    let have = rig.size(Dev::Flash);
    if have < need {
        return Err(FormatFault::FlashSmall { need, have });
    }
    let need = disk_need(geo);
    let have = rig.size(Dev::Disk);
    if have < need {
        return Err(FormatFault::DiskSmall { need, have });
    }
    Ok(())
}

// Syncs both devices, the flash first: where the disk's sync failed, the flash's was made.
fn settle<R: Rig>(rig: &mut R) -> Result<(), FormatFault>
    ensures ok { R.tells → OnOk result (R.world rig.new ≡ settled (R.world rig.old)) }
    ensures flash { R.tells → shown FlashDevice (R.world rig.new) ≡ shown FlashDevice (R.world rig.old) }
    ensures disk { R.tells → shown DiskDevice (R.world rig.new) ≡ shown DiskDevice (R.world rig.old) }
    ensures said { R.tells → (R.world rig.new).said ≡ (R.world rig.old).said }
    ensures time { R.tells → AddsNone (R.clock rig.old) (R.clock rig.new) }
    ensures order { result ≡ Err FormatFault.DiskWrite → Rose (R.counts rig.old).flash.writes (R.counts rig.new).flash.writes }
    ensures cause { IfErr result (λ fault. Unsynced fault (R.counts rig.old) (R.counts rig.new)) }
    ensures calls { Makes (up_to 0 1 0) (up_to 0 1 0) (R.counts rig.old) (R.counts rig.new) }
    ensures frame { Frame (R.counts rig.old) (R.counts rig.new) (R.device_size rig.old) (R.device_size rig.new) }
{
    rig.sync(Dev::Flash).map_err(|_| FormatFault::FlashWrite)?;
    rig.sync(Dev::Disk).map_err(|_| FormatFault::DiskWrite)
}

// Writes the regions and the superblock of a formatted flash.
fn write_flash<R: Rig>(rig: &mut R, geo: Geometry) -> Result<(), Failed>
    requires { layout.flash_need geo ≤ R.device_size rig.old FlashDevice }
    ensures ok { R.tells → OnOk result (R.world rig.new ≡ formatted_world geo (R.world rig.old)) }
    ensures outside { R.tells → LeavesShown FlashDevice 0 (64 + regions_size geo) (R.world rig.old) (R.world rig.new) }
    ensures time { R.tells → Elapses (R.clock rig.old) (R.clock rig.new) (WithinFormat geo (R.world rig.old)) }
    ensures cause { OnErr result (Rose (R.counts rig.old).flash.failed_writes (R.counts rig.new).flash.failed_writes) }
    ensures calls { Makes (up_to 0 6 99) nothing (R.counts rig.old) (R.counts rig.new) }
    ensures frame { Frame (R.counts rig.old) (R.counts rig.new) (R.device_size rig.old) (R.device_size rig.new) }
{
    write_regions(rig, geo)?;
    let mut text = [0; 64];
    write_super(geo, &mut text);
    Journal::publish(rig, 0, &text[1..])
}

// Closes region 1, and writes an open gate, the first header and a closed gate into region 0.
fn write_regions<R: Rig>(rig: &mut R, geo: Geometry) -> Result<(), Failed>
    requires { layout.flash_need geo ≤ R.device_size rig.old FlashDevice }
    ensures ok { R.tells → OnOk result (R.world rig.new ≡ with_regions geo (R.world rig.old)) }
    ensures outside { R.tells → LeavesShown FlashDevice (layout.region_at geo 0) (regions_size geo) (R.world rig.old) (R.world rig.new) }
    ensures time { R.tells → Elapses (R.clock rig.old) (R.clock rig.new)
        (WithinWrite FlashDevice (layout.region_at geo 0) (regions_size geo) (R.world rig.old)) }
    ensures cause { OnErr result (Rose (R.counts rig.old).flash.failed_writes (R.counts rig.new).flash.failed_writes) }
    ensures calls { Makes (up_to 0 2 35) nothing (R.counts rig.old) (R.counts rig.new) }
    ensures frame { Frame (R.counts rig.old) (R.counts rig.new) (R.device_size rig.old) (R.device_size rig.new) }
{
    rig.write(Dev::Flash, region_at(geo, 1), &[0])?;
    rig.write(Dev::Flash, region_at(geo, 0), &first_text())
}

// An open gate, the first header, and a closed gate behind it.
fn first_text() -> [u8; 34]
    ensures { result ≡ first_text }
{
    let mut head = [0; 32];
    put_head(FIRST, &mut head);
    let mut text = [0; 34];
    put_bytes(&mut text, 0, &[1]);
    put_bytes(&mut text, 1, &head);
    put_bytes(&mut text, 33, &[0]);
    text
}
