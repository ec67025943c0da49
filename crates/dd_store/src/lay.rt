// Blocks are written back to the disk.
ghost use Rattle.std.specs.Prelude.{◌≡◌, ◌<◌, ◌≤◌, [], ℕ, List, length, OnOk, OnErr, IfErr, IsTrue};
ghost use Rattle.dd_block.specs.declared.print.Fp.{Fp};
ghost use Rattle.dd_block.specs.Geometry.{slot_count};
ghost use Rattle.dd_rig.specs.declared.device.Dev.TheVariants.{Flash, Disk};
ghost use Rattle.dd_rig.specs.Clock.{Elapses, AddsNone};
ghost use Rattle.dd_rig.specs.Counts.{Frame, Makes, up_to, nothing, Rose, plus, count_write, count_sync};
ghost use Rattle.dd_slots.specs.Slots.{block_in, slots_end};
ghost use Rattle.dd_layout.specs.Layout.{disk_need};
ghost use Rattle.dd_record.specs.Table.{is_link};
ghost use Rattle.dd_model.specs.State.{State, content};
ghost use Rattle.dd_store.specs.Meaning.{Basis, Stands};
ghost use Rattle.dd_store.specs.Keeping.{StoreView, IsStore, Holds, Kept};
ghost use Rattle.dd_store.specs.Laying.{MayLay, MayLayRow, laid_store, marked_store, IsPlacedRow};
ghost use Rattle.dd_store.specs.Saving.{AreSlotsOf};
ghost use Rattle.dd_store.specs.Serving.{Faulted, IsLayFault};

use crate::StoreFault;
use dd_block::Geometry;
use dd_record::{ARow, Link};
use dd_rig::{Dev, Failed, Rig};
use dd_slots::Slots;

/// Writes the block of a dirty address to the disk, where nothing is pending. A crash within it
/// leaves devices that stand for the committed state, and so does one behind it, whether it fails
/// or not. Behind an Ok with the address's content it is laid.
pub fn lay_block<R: Rig>(
    rig: &mut R,
    geo: Geometry,
    address: u32,
    from: &[u8],
) -> Result<(), Failed>
    requires address { address < geo.blocks }
    requires block { length from.now ≡ geo.block }
    requires disk { disk_need geo ≤ R.device_size rig.old Disk }
    ensures crash { R.tells → (basis : Basis) (print : List ℕ → Fp) (store : StoreView) (s : State) → store.journal.geo ≡ geo → IsStore store → MayLay store address → Kept basis print store (R.world rig.old) s s
        → Elapses (R.clock rig.old) (R.clock rig.new) (λ o. Stands basis print o.flash o.disk s) }
    ensures kept { R.tells → (basis : Basis) (print : List ℕ → Fp) (store : StoreView) (s : State) → store.journal.geo ≡ geo → IsStore store → MayLay store address → Kept basis print store (R.world rig.old) s s
        → Kept basis print store (R.world rig.new) s s }
    ensures laid { R.tells → (basis : Basis) (print : List ℕ → Fp) (store : StoreView) (s : State) → store.journal.geo ≡ geo → IsStore store → MayLay store address → Kept basis print store (R.world rig.old) s s
        → from.now ≡ content s.array address → OnOk result (Kept basis print (laid_store address store) (R.world rig.new) s s) }
    ensures holds { R.tells → (print : List ℕ → Fp) (store : StoreView) (s : State) → store.journal.geo ≡ geo → IsStore store → MayLay store address → Holds print store (R.world rig.old) s
        → Holds print store (R.world rig.new) s }
    ensures holds_laid { R.tells → (print : List ℕ → Fp) (store : StoreView) (s : State) → store.journal.geo ≡ geo → IsStore store → MayLay store address → Holds print store (R.world rig.old) s
        → from.now ≡ content s.array address → OnOk result (Holds print (laid_store address store) (R.world rig.new) s) }
    ensures unsaid { R.tells → Elapses (R.clock rig.old) (R.clock rig.new) (λ o. o.out ≡ (R.world rig.old).said) }
    ensures flash { R.tells → (R.world rig.new).flash ≡ (R.world rig.old).flash }
    ensures said { R.tells → (R.world rig.new).said ≡ (R.world rig.old).said }
    ensures counts { R.counts rig.new ≡ count_write Disk geo.block result (R.counts rig.old) }
    ensures cause { OnErr result (Rose (R.counts rig.old).disk.failed_writes (R.counts rig.new).disk.failed_writes) }
    ensures frame { Frame (R.counts rig.old) (R.counts rig.new) (R.device_size rig.old) (R.device_size rig.new) }
{
    rig.write(Dev::Disk, u64::from(address) * u64::from(geo.block), from)
}

/// Syncs the disk. Behind an Ok the laid addresses may be marked clean.
pub fn sync_laid<R: Rig>(rig: &mut R) -> Result<(), Failed>
    ensures time { R.tells → AddsNone (R.clock rig.old) (R.clock rig.new) }
    ensures kept { R.tells → (basis : Basis) (print : List ℕ → Fp) (store : StoreView) (c s : State) → OnErr result (Kept basis print store (R.world rig.old) c s → Kept basis print store (R.world rig.new) c s) }
    ensures marked { R.tells → (basis : Basis) (print : List ℕ → Fp) (store : StoreView) (s : State) → IsStore store → store.pending ≡ [] → Kept basis print store (R.world rig.old) s s
        → OnOk result (Kept basis print (marked_store store) (R.world rig.new) s s) }
    ensures holds { R.tells → (print : List ℕ → Fp) (store : StoreView) (s : State) → Holds print store (R.world rig.old) s → OnOk result (Holds print (marked_store store) (R.world rig.new) s) }
    ensures flash { R.tells → (R.world rig.new).flash ≡ (R.world rig.old).flash }
    ensures said { R.tells → (R.world rig.new).said ≡ (R.world rig.old).said }
    ensures counts { R.counts rig.new ≡ count_sync Disk result (R.counts rig.old) }
    ensures cause { OnErr result (Rose (R.counts rig.old).disk.failed_writes (R.counts rig.new).disk.failed_writes) }
    ensures frame { Frame (R.counts rig.old) (R.counts rig.new) (R.device_size rig.old) (R.device_size rig.new) }
{
    rig.sync(Dev::Disk)
}

/// Lays the block of a dirty row: one read of its slot and one write of the disk, or the write alone
/// where the row is zero.
pub fn lay_row<R: Rig>(
    rig: &mut R,
    slots: &Slots,
    geo: Geometry,
    row: ARow,
    block: &mut [u8],
) -> Result<(), StoreFault>
    requires row { IsPlacedRow geo row }
    requires linked { IsTrue (is_link row.link) }
    requires slots { AreSlotsOf geo slots.now }
    requires block { length block.old ≡ geo.block }
    requires flash { slots_end slots.now ≤ R.device_size rig.old Flash }
    requires disk { disk_need geo ≤ R.device_size rig.old Disk }
    ensures crash { R.tells → (basis : Basis) (print : List ℕ → Fp) (store : StoreView) (s : State) → store.journal.geo ≡ geo → IsStore store → MayLayRow store row → Kept basis print store (R.world rig.old) s s
        → Elapses (R.clock rig.old) (R.clock rig.new) (λ o. Stands basis print o.flash o.disk s) }
    ensures kept { R.tells → (basis : Basis) (print : List ℕ → Fp) (store : StoreView) (s : State) → store.journal.geo ≡ geo → IsStore store → MayLayRow store row → Kept basis print store (R.world rig.old) s s
        → Kept basis print store (R.world rig.new) s s }
    ensures laid { R.tells → (basis : Basis) (print : List ℕ → Fp) (store : StoreView) (s : State) → store.journal.geo ≡ geo → IsStore store → MayLayRow store row → Kept basis print store (R.world rig.old) s s
        → OnOk result (Kept basis print (laid_store row.address store) (R.world rig.new) s s) }
    ensures holds { R.tells → (print : List ℕ → Fp) (store : StoreView) (s : State) → store.journal.geo ≡ geo → IsStore store → MayLayRow store row → Holds print store (R.world rig.old) s
        → Holds print store (R.world rig.new) s }
    ensures holds_laid { R.tells → (print : List ℕ → Fp) (store : StoreView) (s : State) → store.journal.geo ≡ geo → IsStore store → MayLayRow store row → Holds print store (R.world rig.old) s
        → OnOk result (Holds print (laid_store row.address store) (R.world rig.new) s) }
    ensures unsaid { R.tells → Elapses (R.clock rig.old) (R.clock rig.new) (λ o. o.out ≡ (R.world rig.old).said) }
    ensures flash { R.tells → (R.world rig.new).flash ≡ (R.world rig.old).flash }
    ensures said { R.tells → (R.world rig.new).said ≡ (R.world rig.old).said }
    ensures fault { IfErr result IsLayFault }
    ensures cause { IfErr result (λ fault. Faulted fault (R.counts rig.old) (R.counts rig.new)) }
    ensures calls { Makes (up_to 1 0 0) (up_to 0 1 geo.block) (R.counts rig.old) (R.counts rig.new) }
    ensures written { OnOk result ((R.counts rig.new).disk.written ≡ plus (R.counts rig.old).disk.written geo.block) }
    ensures frame { Frame (R.counts rig.old) (R.counts rig.new) (R.device_size rig.old) (R.device_size rig.new) }
{
    match row.link {
        Link::Lost => Ok(()),
        Link::Slot(slot) => lay_slot(rig, slots, geo, slot, row.address, block),
        Link::Zero => {
            block.fill(0);
            match lay_block(rig, geo, row.address, block) {
                Err(_) => Err(StoreFault::DiskWrite),
                Ok(()) => Ok(()),
            }
        }
    }
}

// The same from a slot to an address.
fn lay_slot<R: Rig>(
    rig: &mut R,
    slots: &Slots,
    geo: Geometry,
    slot: u32,
    address: u32,
    block: &mut [u8],
) -> Result<(), StoreFault>
    requires slot { slot < slot_count geo }
    requires address { address < geo.blocks }
    requires slots { AreSlotsOf geo slots.now }
    requires block { length block.old ≡ geo.block }
    requires flash { slots_end slots.now ≤ R.device_size rig.old Flash }
    requires disk { disk_need geo ≤ R.device_size rig.old Disk }
    ensures crash { R.tells → (basis : Basis) (print : List ℕ → Fp) (store : StoreView) (s : State) → store.journal.geo ≡ geo → IsStore store → MayLay store address → Kept basis print store (R.world rig.old) s s
        → Elapses (R.clock rig.old) (R.clock rig.new) (λ o. Stands basis print o.flash o.disk s) }
    ensures kept { R.tells → (basis : Basis) (print : List ℕ → Fp) (store : StoreView) (s : State) → store.journal.geo ≡ geo → IsStore store → MayLay store address → Kept basis print store (R.world rig.old) s s
        → Kept basis print store (R.world rig.new) s s }
    ensures laid { R.tells → (basis : Basis) (print : List ℕ → Fp) (store : StoreView) (s : State) → store.journal.geo ≡ geo → IsStore store → MayLay store address → Kept basis print store (R.world rig.old) s s
        → block_in slots.now (R.world rig.old).flash.shown slot ≡ content s.array address → OnOk result (Kept basis print (laid_store address store) (R.world rig.new) s s) }
    ensures holds { R.tells → (print : List ℕ → Fp) (store : StoreView) (s : State) → store.journal.geo ≡ geo → IsStore store → MayLay store address → Holds print store (R.world rig.old) s
        → Holds print store (R.world rig.new) s }
    ensures holds_laid { R.tells → (print : List ℕ → Fp) (store : StoreView) (s : State) → store.journal.geo ≡ geo → IsStore store → MayLay store address → Holds print store (R.world rig.old) s
        → block_in slots.now (R.world rig.old).flash.shown slot ≡ content s.array address → OnOk result (Holds print (laid_store address store) (R.world rig.new) s) }
    ensures unsaid { R.tells → Elapses (R.clock rig.old) (R.clock rig.new) (λ o. o.out ≡ (R.world rig.old).said) }
    ensures flash { R.tells → (R.world rig.new).flash ≡ (R.world rig.old).flash }
    ensures said { R.tells → (R.world rig.new).said ≡ (R.world rig.old).said }
    ensures fault { IfErr result IsLayFault }
    ensures cause { IfErr result (λ fault. Faulted fault (R.counts rig.old) (R.counts rig.new)) }
    ensures calls { Makes (up_to 1 0 0) (up_to 0 1 geo.block) (R.counts rig.old) (R.counts rig.new) }
    ensures written { OnOk result ((R.counts rig.new).disk.written ≡ plus (R.counts rig.old).disk.written geo.block) }
    ensures frame { Frame (R.counts rig.old) (R.counts rig.new) (R.device_size rig.old) (R.device_size rig.new) }
{
    match slots.load(rig, slot, block) {
        Err(_) => Err(StoreFault::FlashRead),
        Ok(()) => match lay_block(rig, geo, address, block) {
            Err(_) => Err(StoreFault::DiskWrite),
            Ok(()) => Ok(()),
        },
    }
}
