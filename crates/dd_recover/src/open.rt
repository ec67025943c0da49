// Opening what both devices stand for.
ghost use Rattle.std.specs.Prelude.{◌≡◌, ◌<◌, ◌≤◌, ◌^◌, ℕ, Some, take, option_map, Err, IfOk, OnOk, OnErr};
ghost use Rattle.dd_block.specs.Bytes.{StandsAt};
ghost use Rattle.dd_block.specs.Geometry.{GivesFault};
ghost use Rattle.dd_rig.specs.declared.device.Dev.{Dev as AnyDevice};
ghost use Rattle.dd_rig.specs.declared.device.Dev.TheVariants.{Flash as FlashDevice, Disk as DiskDevice};
ghost use Rattle.dd_rig.specs.World.{shown};
ghost use Rattle.dd_rig.specs.Clock.{AddsNone};
ghost use Rattle.dd_rig.specs.Counts.{Makes, Rose, up_to, nothing};
ghost use Rattle.dd_layout.specs.Layout as layout;
ghost use Rattle.dd_layout.specs.Super.{super_text};
ghost use Rattle.dd_record.specs.Table.{Table, RowsFit};
ghost use Rattle.dd_record.specs.Replay.{replay};
ghost use Rattle.dd_model.specs.State.{State};
ghost use Rattle.dd_journal.specs.Faults.{journal_fault};
ghost use Rattle.dd_journal.specs.Found.{IsFound, IsReadOff, found_table, found_records};
ghost use Rattle.dd_journal.specs.Regions.{Says};
ghost use Rattle.dd_journal.specs.Sitting.{IsStable, Sits};
ghost use Rattle.dd_store.specs.Keeping.{Kept};
ghost use Rattle.dd_store.specs.Meaning.{Basis, Stands};
ghost use Rattle.dd_recover.specs.Calls.{FailsBy, HoldsShown, CostsOfOpening, LeavesOfOpening};
ghost use Rattle.dd_recover.specs.Opening.{TellsOpening, Opens, IsYoung, IsOpened, IsUnsynced, OpenFaulted, front_fault, small_for, body_fault, opening_of};
ghost use Rattle.dd_recover.specs.Stages.{Tells, IsCallFault, found_fault, FoundMeans, HasFound};
ghost use Rattle.dd_recover.specs.Writing.{settled};

use crate::OpenFault;
use crate::lists::lists_of;
use dd_block::{Fingerprint, Geometry};
use dd_journal::{Found, Journal, JournalFault};
use dd_layout::{disk_need, flash_need, read_super};
use dd_model::Lists;
use dd_rig::{Dev, Rig};
use dd_store::Store;
use std::alloc::Global;

/// Opens the cache that both devices stand for. It syncs the flash, then the disk, then reads the flash:
/// the superblock, the front of each region, and the region that counts. It writes nothing. An Ok has the
/// rows and the count that the flash says; where the devices stand for a state, it holds that state and
/// has committed it. Devices that stand for a state, with an epoch and a count of the snapshot below 2^62,
/// are opened unless there is no memory or a call fails. Else the fault is the first one in the order of
/// docs/format.md, with its place or its value; a flash of version 1 is refused behind all other
/// conditions. It takes all the memory that serving wants.
pub fn open_store<F: Fingerprint, L: Lists, R: Rig>(
    alloc: Global,
    rig: &mut R,
    print: F,
) -> Result<Store<F, L>, OpenFault>
    // its answer
    ensures opens { R.tells → (basis : Basis) (s : State) → (stands : Stands basis (F.printed print) (shown FlashDevice (R.world rig.old)) (shown DiskDevice (R.world rig.old)) s) → IsYoung stands
        → Opens basis print (F.printed print) stands.geo result (R.world rig.new) s }
    ensures fault { R.tells → TellsOpening result (R.device_size rig.old) (shown FlashDevice (R.world rig.old)) }
    ensures opened { IfOk result (λ opened. IsOpened opened.store (R.device_size rig.old) × (opened.print ≡ print)) }
    ensures holds { R.tells → IfOk result (λ opened. HoldsShown (F.printed print) opened.store (R.world rig.old) (R.world rig.new)) }
    ensures fails { FailsBy OpenFaulted result (R.counts rig.old) (R.counts rig.new) (R.device_size rig.old) (R.device_size rig.new) }

    // what it costs and leaves
    ensures costs { CostsOfOpening result (R.counts rig.old) (R.counts rig.new) }
    ensures leaves { R.tells → LeavesOfOpening result (R.world rig.old) (R.world rig.new) }
    ensures time { R.tells → AddsNone (R.clock rig.old) (R.clock rig.new) }
{
    sync_both(rig)?;
    open_settled(alloc, rig, print)
}

// Syncs both devices, the flash first.
fn sync_both<R: Rig>(rig: &mut R) -> Result<(), OpenFault>
    ensures ok { R.tells → OnOk result (R.world rig.new ≡ settled (R.world rig.old)) }
    ensures unsynced { OnErr result (IsUnsynced result) }
    ensures shows { R.tells → (device : AnyDevice) → shown device (R.world rig.new) ≡ shown device (R.world rig.old) }
    ensures said { R.tells → (R.world rig.new).said ≡ (R.world rig.old).said }
    ensures time { R.tells → AddsNone (R.clock rig.old) (R.clock rig.new) }
    ensures order { result ≡ Err OpenFault.DiskWrite → Rose (R.counts rig.old).flash.writes (R.counts rig.new).flash.writes }
    ensures calls { Makes (up_to 0 1 0) (up_to 0 1 0) (R.counts rig.old) (R.counts rig.new) }
    ensures fails { FailsBy OpenFaulted result (R.counts rig.old) (R.counts rig.new) (R.device_size rig.old) (R.device_size rig.new) }
{
    rig.sync(Dev::Flash).map_err(|_| OpenFault::FlashWrite)?;
    rig.sync(Dev::Disk).map_err(|_| OpenFault::DiskWrite)
}

// Opens devices that were synced.
fn open_settled<F: Fingerprint, L: Lists, R: Rig>(
    alloc: Global,
    rig: &mut R,
    print: F,
) -> Result<Store<F, L>, OpenFault>
    ensures fault { R.tells → TellsOpening result (R.device_size rig.old) (shown FlashDevice (R.world rig.old)) }
    ensures kept { R.tells → IfOk result (λ opened. (basis : Basis) (s : State) (stands : Stands basis (F.printed print) (shown FlashDevice (R.world rig.old)) (shown DiskDevice (R.world rig.old)) s)
        → IsStable (R.world rig.old).flash → IsStable (R.world rig.old).disk
        → (opened.store.journal.geo ≡ stands.geo) × Kept basis (F.printed print) opened.store (R.world rig.new) s s) }
    ensures opened { IfOk result (λ opened. IsOpened opened.store (R.device_size rig.old)) }
    ensures says { R.tells → IfOk result (λ opened. Says (shown FlashDevice (R.world rig.old)) opened.store.journal.geo 2 opened.store.table opened.store.count) }
    ensures sits { R.tells → IfOk result (λ opened. IsStable (R.world rig.old).flash → Sits opened.store.journal (R.world rig.new) opened.store.table) }
    ensures print { IfOk result (λ opened. opened.print ≡ print) }
    ensures synced { IsUnsynced result → ⊥ }
    ensures world { R.tells → R.world rig.new ≡ R.world rig.old }
    ensures time { R.tells → AddsNone (R.clock rig.old) (R.clock rig.new) }
    ensures calls { Makes (up_to 4 0 0) nothing (R.counts rig.old) (R.counts rig.new) }
    ensures fails { FailsBy OpenFaulted result (R.counts rig.old) (R.counts rig.new) (R.device_size rig.old) (R.device_size rig.new) }
{
    let geo = read_geometry(rig)?;
    let found = find_sized(alloc, rig, geo)?;
    open_found(alloc, rig, geo, print, found)
}

// The geometry in the superblock.
fn read_geometry<R: Rig>(rig: &mut R) -> Result<Geometry, OpenFault>
    ensures fault { R.tells → Tells result (front_fault (R.device_size rig.old) (shown FlashDevice (R.world rig.old))) }
    ensures geometry { R.tells → IfOk result (λ geo. take 64 (shown FlashDevice (R.world rig.old)) ≡ super_text geo) }
    ensures synced { IsUnsynced result → ⊥ }
    ensures world { R.tells → R.world rig.new ≡ R.world rig.old }
    ensures time { R.tells → AddsNone (R.clock rig.old) (R.clock rig.new) }
    ensures calls { Makes (up_to 1 0 0) nothing (R.counts rig.old) (R.counts rig.new) }
    ensures fails { FailsBy OpenFaulted result (R.counts rig.old) (R.counts rig.new) (R.device_size rig.old) (R.device_size rig.new) }
{
    let have = rig.size(Dev::Flash);
    if have < 64 {
        return Err(OpenFault::FlashSmall { need: 64, have });
    }
    let mut text = [0; 64];
    rig.read(Dev::Flash, 0, &mut text)
        .map_err(|_| OpenFault::FlashRead)?;
    read_super(&text).map_err(OpenFault::Super)
}

// Tests the sizes for a geometry, the flash first.
fn check_sizes<R: Rig>(rig: &R, geo: Geometry) -> Result<(), OpenFault>
    ensures fault { GivesFault result (small_for geo (R.device_size rig.now)) }
    ensures room { OnOk result ((layout.flash_need geo ≤ R.device_size rig.now FlashDevice) × (layout.disk_need geo ≤ R.device_size rig.now DiskDevice)) }
    ensures quiet { IsCallFault result → ⊥ }
{
    let need = flash_need(geo);
    let have = rig.size(Dev::Flash);
    if have < need {
        return Err(OpenFault::FlashSmall { need, have });
    }
    let need = disk_need(geo);
    let have = rig.size(Dev::Disk);
    if have < need {
        return Err(OpenFault::DiskSmall { need, have });
    }
    Ok(())
}

// Finds the journal, where the devices are large enough for the geometry.
fn find_sized<R: Rig>(alloc: Global, rig: &mut R, geo: Geometry) -> Result<Found, OpenFault>
    ensures fault { R.tells → Tells result (body_fault geo (R.device_size rig.old) (shown FlashDevice (R.world rig.old))) }
    ensures room { OnOk result ((layout.flash_need geo ≤ R.device_size rig.old FlashDevice) × (layout.disk_need geo ≤ R.device_size rig.old DiskDevice)) }
    ensures found { IfOk result (IsFound geo) }
    ensures reads { R.tells → IfOk result (IsReadOff geo (shown FlashDevice (R.world rig.old))) }
    ensures sits { R.tells → IfOk result (λ found. (committed : Table) → IsStable (R.world rig.old).flash → StandsAt (shown FlashDevice (R.world rig.old)) 0 (super_text geo)
        → RowsFit (found_table found) → replay geo.acap geo.bcap (found_records found) (found_table found) ≡ Some committed
        → Sits found.journal (R.world rig.new) committed) }
    ensures synced { IsUnsynced result → ⊥ }
    ensures world { R.tells → R.world rig.new ≡ R.world rig.old }
    ensures time { R.tells → AddsNone (R.clock rig.old) (R.clock rig.new) }
    ensures calls { Makes (up_to 3 0 0) nothing (R.counts rig.old) (R.counts rig.new) }
    ensures fails { FailsBy OpenFaulted result (R.counts rig.old) (R.counts rig.new) (R.device_size rig.old) (R.device_size rig.new) }
{
    check_sizes(rig, geo)?;
    find_journal(alloc, rig, geo)
}

// Finds the journal.
fn find_journal<R: Rig>(alloc: Global, rig: &mut R, geo: Geometry) -> Result<Found, OpenFault>
    requires { layout.flash_need geo ≤ R.device_size rig.old FlashDevice }
    ensures fault { R.tells → Tells result (option_map opening_of (journal_fault geo (shown FlashDevice (R.world rig.old)))) }
    ensures found { IfOk result (IsFound geo) }
    ensures reads { R.tells → IfOk result (IsReadOff geo (shown FlashDevice (R.world rig.old))) }
    ensures sits { R.tells → IfOk result (λ found. (committed : Table) → IsStable (R.world rig.old).flash → StandsAt (shown FlashDevice (R.world rig.old)) 0 (super_text geo)
        → RowsFit (found_table found) → replay geo.acap geo.bcap (found_records found) (found_table found) ≡ Some committed
        → Sits found.journal (R.world rig.new) committed) }
    ensures synced { IsUnsynced result → ⊥ }
    ensures world { R.tells → R.world rig.new ≡ R.world rig.old }
    ensures time { R.tells → AddsNone (R.clock rig.old) (R.clock rig.new) }
    ensures calls { Makes (up_to 3 0 0) nothing (R.counts rig.old) (R.counts rig.new) }
    ensures fails { FailsBy OpenFaulted result (R.counts rig.old) (R.counts rig.new) (R.device_size rig.old) (R.device_size rig.new) }
{
    match Journal::find(alloc, rig, geo) {
        Ok(found) => Ok(found),
        Err(fault) => Err(opening_of(fault)),
    }
}

// A condition under which no journal is found, as one of the opening.
fn opening_of(fault: JournalFault) -> OpenFault
    ensures { result ≡ opening_of fault }
{
    match fault {
        JournalFault::Memory(error) => OpenFault::Memory(error),
        JournalFault::FlashRead => OpenFault::FlashRead,
        JournalFault::NoRegion => OpenFault::NoRegion,
        JournalFault::Snapshot { region, at } => OpenFault::Snapshot { region, at },
        JournalFault::Group { region, at } => OpenFault::Group { region, at },
        JournalFault::Worn { value } => OpenFault::Worn { value },
    }
}

// A store over what was found.
fn open_found<F: Fingerprint, L: Lists, R: Rig>(
    alloc: Global,
    rig: &R,
    geo: Geometry,
    print: F,
    found: Found,
) -> Result<Store<F, L>, OpenFault>
    requires { IsFound geo found }
    ensures fault { Tells result (found_fault geo found) }
    ensures quiet { IsCallFault result → ⊥ }
    ensures has { IfOk result (λ opened. HasFound geo found opened.store) }
    ensures geometry { IfOk result (λ opened. opened.store.journal.geo ≡ geo) }
    ensures opened { layout.flash_need geo ≤ R.device_size rig.now FlashDevice → layout.disk_need geo ≤ R.device_size rig.now DiskDevice
        → IfOk result (λ opened. IsOpened opened.store (R.device_size rig.now)) }
    ensures print { IfOk result (λ opened. opened.print ≡ print) }
    ensures kept { R.tells → IfOk result (λ opened. (basis : Basis) (s : State) → IsStable (R.world rig.now).flash → IsStable (R.world rig.now).disk → layout.disk_need geo ≤ R.device_size rig.now DiskDevice
        → FoundMeans basis (F.printed print) geo found (R.world rig.now) s → Kept basis (F.printed print) opened.store (R.world rig.now) s s) }
{
    let lists = lists_of(alloc, geo, &found)?;
    let journal = found.journal;
    let count = journal.committed();
    Store::new(alloc, rig, geo, print, lists, journal, count).map_err(OpenFault::Memory)
}
