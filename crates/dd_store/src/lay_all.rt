// Dirty addresses are written back to the disk, one after the other.
ghost use Rattle.std.specs.Prelude.{◌≡◌, ◌+◌, ◌≤◌, ℕ, List, length, true, OnOk, IfErr};
ghost use Rattle.std.specs.List.{AllByRecursion};
ghost use Rattle.dd_block.specs.declared.print.Fp.{Fp};
ghost use Rattle.dd_rig.specs.declared.device.Dev.TheVariants.{Flash, Disk};
ghost use Rattle.dd_rig.specs.Clock.{Elapses};
ghost use Rattle.dd_rig.specs.Counts.{Frame, Makes, up_to};
ghost use Rattle.dd_slots.specs.Slots.{slots_end};
ghost use Rattle.dd_layout.specs.Layout.{disk_need};
ghost use Rattle.dd_record.specs.Table.{is_dirty_at};
ghost use Rattle.dd_model.specs.State.{State};
ghost use Rattle.dd_store.specs.Meaning.{Basis, Stands};
ghost use Rattle.dd_store.specs.Keeping.{StoreView, IsStore, Holds, Kept};
ghost use Rattle.dd_store.specs.Laying.{MayLay, MayLayAll, laid_store, all_laid, IsPlacedRow};
ghost use Rattle.dd_store.specs.Saving.{AreSlotsOf};
ghost use Rattle.dd_store.specs.Serving.{Faulted, IsLayFault};

use crate::StoreFault;
use crate::lay::lay_row;
use dd_block::Geometry;
use dd_model::Lists;
use dd_rig::Rig;
use dd_slots::Slots;

// Lays the block of a dirty address.
fn lay_address<R: Rig, L: Lists>(
    rig: &mut R,
    lists: &L,
    slots: &Slots,
    geo: Geometry,
    address: u32,
    block: &mut [u8],
) -> Result<(), StoreFault>
    requires rows { AllByRecursion (IsPlacedRow geo) (L.listing lists.now).table.a }
    requires dirty { is_dirty_at address (L.listing lists.now).table.a ≡ true }
    requires slots { AreSlotsOf geo slots.now }
    requires block { length block.old ≡ geo.block }
    requires flash { slots_end slots.now ≤ R.device_size rig.old Flash }
    requires disk { disk_need geo ≤ R.device_size rig.old Disk }
    ensures crash { R.tells → (basis : Basis) (print : List ℕ → Fp) (store : StoreView) (s : State) → store.journal.geo ≡ geo → store.table ≡ (L.listing lists.now).table → IsStore store → MayLay store address
        → Kept basis print store (R.world rig.old) s s → Elapses (R.clock rig.old) (R.clock rig.new) (λ o. Stands basis print o.flash o.disk s) }
    ensures kept { R.tells → (basis : Basis) (print : List ℕ → Fp) (store : StoreView) (s : State) → store.journal.geo ≡ geo → store.table ≡ (L.listing lists.now).table → IsStore store → MayLay store address
        → Kept basis print store (R.world rig.old) s s → Kept basis print store (R.world rig.new) s s }
    ensures laid { R.tells → (basis : Basis) (print : List ℕ → Fp) (store : StoreView) (s : State) → store.journal.geo ≡ geo → store.table ≡ (L.listing lists.now).table → IsStore store → MayLay store address
        → Kept basis print store (R.world rig.old) s s → OnOk result (Kept basis print (laid_store address store) (R.world rig.new) s s) }
    ensures holds { R.tells → (print : List ℕ → Fp) (store : StoreView) (s : State) → store.journal.geo ≡ geo → store.table ≡ (L.listing lists.now).table → IsStore store → MayLay store address
        → Holds print store (R.world rig.old) s → Holds print store (R.world rig.new) s }
    ensures holds_laid { R.tells → (print : List ℕ → Fp) (store : StoreView) (s : State) → store.journal.geo ≡ geo → store.table ≡ (L.listing lists.now).table → IsStore store → MayLay store address
        → Holds print store (R.world rig.old) s → OnOk result (Holds print (laid_store address store) (R.world rig.new) s) }
    ensures unsaid { R.tells → Elapses (R.clock rig.old) (R.clock rig.new) (λ o. o.out ≡ (R.world rig.old).said) }
    ensures flash { R.tells → (R.world rig.new).flash ≡ (R.world rig.old).flash }
    ensures said { R.tells → (R.world rig.new).said ≡ (R.world rig.old).said }
    ensures fault { IfErr result IsLayFault }
    ensures cause { IfErr result (λ fault. Faulted fault (R.counts rig.old) (R.counts rig.new)) }
    ensures calls { Makes (up_to 1 0 0) (up_to 0 1 geo.block) (R.counts rig.old) (R.counts rig.new) }
    ensures frame { Frame (R.counts rig.old) (R.counts rig.new) (R.device_size rig.old) (R.device_size rig.new) }
{
    match lists.look(address) {
        None => Ok(()),
        Some(row) => lay_row(rig, slots, geo, row, block),
    }
}

// Lays the blocks of these dirty addresses, until a call fails. A crash within it leaves devices that
// stand for the committed state, and so does one behind it. Behind an Ok all of them are laid.
pub(crate) fn lay_all<R: Rig, L: Lists>(
    rig: &mut R,
    lists: &L,
    slots: &Slots,
    geo: Geometry,
    addresses: &[u32],
    block: &mut [u8],
) -> Result<(), StoreFault>
    requires rows { AllByRecursion (IsPlacedRow geo) (L.listing lists.now).table.a }
    requires dirty { AllByRecursion (λ address. is_dirty_at address (L.listing lists.now).table.a ≡ true) addresses.now }
    requires slots { AreSlotsOf geo slots.now }
    requires block { length block.old ≡ geo.block }
    requires flash { slots_end slots.now ≤ R.device_size rig.old Flash }
    requires disk { disk_need geo ≤ R.device_size rig.old Disk }
    ensures crash { R.tells → (basis : Basis) (print : List ℕ → Fp) (store : StoreView) (s : State) → store.journal.geo ≡ geo → store.table ≡ (L.listing lists.now).table → IsStore store → MayLayAll store addresses.now
        → Kept basis print store (R.world rig.old) s s → Elapses (R.clock rig.old) (R.clock rig.new) (λ o. Stands basis print o.flash o.disk s) }
    ensures kept { R.tells → (basis : Basis) (print : List ℕ → Fp) (store : StoreView) (s : State) → store.journal.geo ≡ geo → store.table ≡ (L.listing lists.now).table → IsStore store → MayLayAll store addresses.now
        → Kept basis print store (R.world rig.old) s s → Kept basis print store (R.world rig.new) s s }
    ensures laid { R.tells → (basis : Basis) (print : List ℕ → Fp) (store : StoreView) (s : State) → store.journal.geo ≡ geo → store.table ≡ (L.listing lists.now).table → IsStore store → MayLayAll store addresses.now
        → Kept basis print store (R.world rig.old) s s → OnOk result (Kept basis print (all_laid addresses.now store) (R.world rig.new) s s) }
    ensures holds { R.tells → (print : List ℕ → Fp) (store : StoreView) (s : State) → store.journal.geo ≡ geo → store.table ≡ (L.listing lists.now).table → IsStore store → MayLayAll store addresses.now
        → Holds print store (R.world rig.old) s → Holds print store (R.world rig.new) s }
    ensures holds_laid { R.tells → (print : List ℕ → Fp) (store : StoreView) (s : State) → store.journal.geo ≡ geo → store.table ≡ (L.listing lists.now).table → IsStore store → MayLayAll store addresses.now
        → Holds print store (R.world rig.old) s → OnOk result (Holds print (all_laid addresses.now store) (R.world rig.new) s) }
    ensures unsaid { R.tells → Elapses (R.clock rig.old) (R.clock rig.new) (λ o. o.out ≡ (R.world rig.old).said) }
    ensures flash { R.tells → (R.world rig.new).flash ≡ (R.world rig.old).flash }
    ensures said { R.tells → (R.world rig.new).said ≡ (R.world rig.old).said }
    ensures fault { IfErr result IsLayFault }
    ensures cause { IfErr result (λ fault. Faulted fault (R.counts rig.old) (R.counts rig.new)) }
    ensures reads { (R.counts rig.new).disk.reads ≤ (R.counts rig.old).disk.reads }
    ensures writes { (R.counts rig.new).disk.writes ≤ (R.counts rig.old).disk.writes + length addresses.now }
    ensures frame { Frame (R.counts rig.old) (R.counts rig.new) (R.device_size rig.old) (R.device_size rig.new) }
{
    for address in addresses {
        match lay_address(rig, lists, slots, geo, *address, block) {
            Err(fault) => return Err(fault),
            Ok(()) => {}
        }
    }
    Ok(())
}
