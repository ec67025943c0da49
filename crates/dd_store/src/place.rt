// A new block gets a slot.
ghost use Rattle.std.specs.Prelude.{◌≡◌, ◌≤◌, ℕ, List, length, Some, None, IfOk, IfSome, OnErr};
ghost use Rattle.dd_block.specs.declared.geometry.Geometry.{Geometry};
ghost use Rattle.dd_block.specs.declared.print.Fp.{Fp};
ghost use Rattle.dd_rig.specs.declared.device.Dev.TheVariants.{Flash};
ghost use Rattle.dd_rig.specs.Clock.{Elapses};
ghost use Rattle.dd_rig.specs.Counts.{Frame, Makes, up_to, nothing, Rose};
ghost use Rattle.dd_slots.specs.Slots.{Takes, slots_end, block_in};
ghost use Rattle.dd_model.specs.State.{State};
ghost use Rattle.dd_store.specs.Meaning.{Basis, Stands};
ghost use Rattle.dd_store.specs.Keeping.{StoreView, IsStore, Holds, Kept};
ghost use Rattle.dd_store.specs.Saving.{AreSlotsOf, HasSlots};

use dd_rig::{Failed, Rig};
use dd_slots::Slots;

/// Takes a free slot and writes a block there; it answers None where none is free. A crash within it
/// and behind it, whether it fails or not, leaves devices that stand for the committed state.
pub fn place_block<R: Rig>(
    slots: &mut Slots,
    rig: &mut R,
    block: &[u8],
) -> Result<Option<u32>, Failed>
    requires size { length block.now ≡ slots.old.block }
    requires flash { slots_end slots.old ≤ R.device_size rig.old Flash }
    ensures slot { IfOk result (Takes slots.old slots.new) }
    ensures placed { (geo : Geometry) → AreSlotsOf geo slots.old → AreSlotsOf geo slots.new }
    ensures none { result ≡ Ok None → rig.new ≡ rig.old }
    ensures shows { R.tells → IfOk result (λ found. IfSome found (λ slot. block_in slots.old (R.world rig.new).flash.shown slot ≡ block.now)) }
    ensures crash { R.tells → (basis : Basis) (print : List ℕ → Fp) (store : StoreView) (c s : State) → HasSlots store slots.old → IsStore store → Kept basis print store (R.world rig.old) c s
        → Elapses (R.clock rig.old) (R.clock rig.new) (λ o. Stands basis print o.flash o.disk c) }
    ensures kept { R.tells → (basis : Basis) (print : List ℕ → Fp) (store : StoreView) (c s : State) → HasSlots store slots.old → IsStore store → Kept basis print store (R.world rig.old) c s
        → Kept basis print store (R.world rig.new) c s }
    ensures holds { R.tells → (print : List ℕ → Fp) (store : StoreView) (s : State) → HasSlots store slots.old → IsStore store → Holds print store (R.world rig.old) s
        → Holds print store (R.world rig.new) s }
    ensures unsaid { R.tells → Elapses (R.clock rig.old) (R.clock rig.new) (λ o. o.out ≡ (R.world rig.old).said) }
    ensures said { R.tells → (R.world rig.new).said ≡ (R.world rig.old).said }
    ensures calls { Makes (up_to 0 1 slots.old.block) nothing (R.counts rig.old) (R.counts rig.new) }
    ensures cause { OnErr result (Rose (R.counts rig.old).flash.failed_writes (R.counts rig.new).flash.failed_writes) }
    ensures frame { Frame (R.counts rig.old) (R.counts rig.new) (R.device_size rig.old) (R.device_size rig.new) }
{
    match slots.take() {
        None => Ok(None),
        Some(slot) => {
            slots.save(rig, slot, block)?;
            Ok(Some(slot))
        }
    }
}
