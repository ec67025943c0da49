// All dirty addresses are written back.
ghost use Rattle.std.specs.Prelude.{◌≡◌, ◌<◌, ℕ, [], Ok, OnOk};
ghost use Rattle.dd_layout.specs.Layout.{disk_block};
ghost use Rattle.dd_model.specs.State.{State, content};
ghost use Rattle.dd_store.specs.declared.fault.StoreFault.TheVariants.{FlashRead};
ghost use Rattle.dd_store.specs.Keeping.{Holds, Kept};
ghost use Rattle.dd_store.specs.Rounds.{LoadsAtMost};
ghost use Rattle.dd_store.specs.Serving.{MayCall, Serves, HoldsThen};
ghost use Rattle.dd_store.specs.Calls.{IsSilent, Rests, FailsBy, IsNoFetch, CleansBy, CostsOfFlush};
ghost use Rattle.dd_store.specs.Meaning.{Basis};

use super::Store;
use crate::StoreFault;
use crate::along::Along;
use dd_block::Fingerprint;
use dd_model::Lists;
use dd_rig::Rig;

impl<F: Fingerprint, L: Lists> Store<F, L> {
    /// Commits what is pending, then writes each dirty address back, in rounds of at most `group`
    /// addresses, the one first that became dirty longest ago. Behind an Ok the disk shows the array,
    /// each reference made before is committed, and the records that say what is clean of the last
    /// round are pending. Where nothing is dirty it commits and does no more. After `FlashRead` the
    /// store holds what it held, and some addresses may be clean; after `FlashWrite` and `DiskWrite`
    /// it is down.
    pub fn clean<R: Rig>(&mut self, rig: &mut R) -> Result<(), StoreFault>
        requires { MayCall self.old.store (R.device_size rig.old) }
        ensures serves { R.tells → (basis : Basis) (c s : State) → Kept basis (F.printed self.old.print) self.old.store (R.world rig.old) c s
            → Serves basis (F.printed self.old.print) result (R.clock rig.old) (R.clock rig.new) self.new.store (R.world rig.new) c s s }
        ensures committed { R.tells → (basis : Basis) (c s : State) → Kept basis (F.printed self.old.print) self.old.store (R.world rig.old) c s
            → OnOk result (Kept basis (F.printed self.old.print) self.new.store (R.world rig.new) s s) }
        ensures shows { R.tells → (s : State) → Holds (F.printed self.old.print) self.old.store (R.world rig.old) s
            → OnOk result ((address : ℕ) → address < self.old.store.journal.geo.blocks → disk_block self.old.store.journal.geo (R.world rig.new).disk.shown address ≡ content s.array address) }
        ensures holds { R.tells → (s : State) → Holds (F.printed self.old.print) self.old.store (R.world rig.old) s
            → HoldsThen (F.printed self.old.print) result s s self.new.store (R.world rig.new) }
        ensures silent { R.tells → IsSilent (R.clock rig.old) (R.clock rig.new) (R.world rig.old) (R.world rig.new) }
        ensures none { OnOk result (self.new.store.dirty ≡ []) }
        ensures rows { CleansBy result self.old.store self.new.store }
        ensures idle { self.old.store.dirty ≡ [] → CostsOfFlush self.old.store (R.counts rig.old) (R.counts rig.new) }
        ensures fetches { IsNoFetch result (R.counts rig.old) (R.counts rig.new) }
        ensures loads { OnOk result (LoadsAtMost 0 self.old.store self.new.store (R.counts rig.old).disk (R.counts rig.new).disk) }
        ensures rests { Rests result self.old self.new }
        ensures fails { FailsBy result (R.counts rig.old) (R.counts rig.new) (R.device_size rig.old) (R.device_size rig.new) }
    {
        let _ = &self.up;
        match self.commit(rig) {
            Err(fault) => Err(fault),
            Ok(()) => self.rounds(rig, Along::Age),
        }
    }
}
