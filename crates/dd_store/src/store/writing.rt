// A write.
ghost use Rattle.std.specs.Prelude.{◌≡◌, ◌<◌, ◌≤◌, length, true, IfOk, OnOk, ℕ};
ghost use Rattle.dd_rig.specs.Counts.{CalledAtMost, nothing};
ghost use Rattle.dd_model.specs.Reference.{reference, write_answer, Tells};
ghost use Rattle.dd_model.specs.State.{State};
ghost use Rattle.dd_model.specs.declared.kind.Kind.TheVariants.{Dup};
ghost use Rattle.dd_store.specs.Meaning.{Basis, sizes_of};
ghost use Rattle.dd_store.specs.Keeping.{Holds, Kept, slots_shown};
ghost use Rattle.dd_store.specs.Rounds.{HasRoom};
ghost use Rattle.dd_store.specs.Bringing.{want_by};
ghost use Rattle.dd_store.specs.Serving.{MayCall, Serves, HoldsThen};
ghost use Rattle.dd_store.specs.Calls.{IsSilent, Rests, FailsBy, IsNoFetch, LeavesRows, CostsOfWrite};

use super::Store;
use crate::StoreFault;
use dd_block::Fingerprint;
use dd_model::{Done, Lists};
use dd_rig::Rig;

impl<F: Fingerprint, L: Lists> Store<F, L> {
    /// Writes a block to an address: it references the address with it, and the address is dirty from
    /// then on. It answers the kind of the reference, and what fell off both lists.
    ///
    /// Nothing is written to the disk but what a cut asks for, and zeros take no slot. After `FlashRead`
    /// the store holds what it held, though addresses may have been written back and be clean now; after
    /// `FlashWrite` and `DiskWrite` it is down. The cost is that of the lists, a hash of the block where
    /// it isn't zeros, and the rounds of write-back that a cut asks for.
    pub fn write<R: Rig>(
        &mut self,
        rig: &mut R,
        address: u32,
        block: &[u8],
    ) -> Result<Done, StoreFault>
        requires call { MayCall self.old.store (R.device_size rig.old) }
        requires below { address < self.old.store.journal.geo.blocks }
        requires long { length block.now ≡ self.old.store.journal.geo.block }
        ensures serves { R.tells → (basis : Basis) (c s : State) → Kept basis (F.printed self.old.print) self.old.store (R.world rig.old) c s
            → Serves basis (F.printed self.old.print) result (R.clock rig.old) (R.clock rig.new) self.new.store (R.world rig.new) c s
            (reference (sizes_of self.old.store.journal.geo) s address block.now) }
        ensures tells { R.tells → (s : State) → Holds (F.printed self.old.print) self.old.store (R.world rig.old) s
            → IfOk result (λ done. Tells (F.printed self.old.print) done (write_answer (sizes_of self.old.store.journal.geo) s address block.now)) }
        ensures holds { R.tells → (s : State) → Holds (F.printed self.old.print) self.old.store (R.world rig.old) s
            → HoldsThen (F.printed self.old.print) result s (reference (sizes_of self.old.store.journal.geo) s address block.now) self.new.store (R.world rig.new) }
        ensures silent { R.tells → IsSilent (R.clock rig.old) (R.clock rig.new) (R.world rig.old) (R.world rig.new) }
        ensures dup_slots { R.tells → IfOk result (λ done. done.kind ≡ Dup → slots_shown self.old.store.journal.geo (R.world rig.new) ≡ slots_shown self.old.store.journal.geo (R.world rig.old)) }
        ensures rows { LeavesRows address true result self.old.store self.new.store }
        ensures few { OnOk result (length self.new.store.dirty ≤ self.new.store.journal.geo.acap) }
        ensures idle_held { R.tells → (s : State) → Holds (F.printed self.old.print) self.old.store (R.world rig.old) s → HasRoom address (want_by block.now s.blocks) self.old.store
            → CalledAtMost nothing (R.counts rig.old).disk (R.counts rig.new).disk }
        ensures costs { CostsOfWrite (F.printed self.old.print) address result block.now self.old.store self.new.store (R.counts rig.old) (R.counts rig.new) }
        ensures fetches { IsNoFetch result (R.counts rig.old) (R.counts rig.new) }
        ensures rests { Rests result self.old self.new }
        ensures fails { FailsBy result (R.counts rig.old) (R.counts rig.new) (R.device_size rig.old) (R.device_size rig.new) }
    {
        let done = self.bring(rig, address, block, true);
        self.keeps_few();
        done
    }

    // No more addresses are dirty than may be listed.
    fn keeps_few(&self)
        ensures { length self.now.store.dirty ≤ self.now.store.journal.geo.acap }
    {
        let _ = &self.lists;
    }
}
