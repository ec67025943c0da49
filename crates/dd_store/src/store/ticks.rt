// One dirty address is written back.
ghost use Rattle.std.specs.Prelude.{◌≡◌, ◌≢◌, ◌+◌, ◌-◌, ◌^◌, ◌<◌, ◌≤◌, [], length, true, Ok, None, IfOk, IfSome, IfErr, OnOk, ℕ};
ghost use Rattle.dd_rig.specs.Counts.{CalledAtMost, up_to};
ghost use Rattle.dd_layout.specs.Layout.{disk_block};
ghost use Rattle.dd_record.specs.Table.{is_dirty_at};
ghost use Rattle.dd_model.specs.State.{State, content};
ghost use Rattle.dd_store.specs.declared.fault.StoreFault.TheVariants.{FlashRead, DiskRead};
ghost use Rattle.dd_store.specs.Keeping.{Holds, Kept, slots_shown};
ghost use Rattle.dd_store.specs.Committing.{committed_store};
ghost use Rattle.dd_store.specs.Rounds.{Cleans, LoadsAtMost};
ghost use Rattle.dd_store.specs.Serving.{written_back, unlaid, IsReady, MayCall, Serves, HoldsThen, GrowsLittle};
ghost use Rattle.dd_store.specs.Calls.{IsSilent, Rests, FailsBy, IsNoFetch, CleansBy, TakesOldest};
ghost use Rattle.dd_store.specs.Meaning.{Basis};

use super::Store;
use crate::StoreFault;
use dd_block::Fingerprint;
use dd_model::Lists;
use dd_rig::Rig;

impl<F: Fingerprint, L: Lists> Store<F, L> {
    /// Writes the address back that became dirty longest ago, where one is dirty, and answers it.
    /// Where none is it makes no call. After `FlashRead` the store holds what it held; after
    /// `FlashWrite` and `DiskWrite` it is down.
    pub fn tick<R: Rig>(&mut self, rig: &mut R) -> Result<Option<u32>, StoreFault>
        requires { MayCall self.old.store (R.device_size rig.old) }
        ensures serves { R.tells → (basis : Basis) (c s : State) → Kept basis (F.printed self.old.print) self.old.store (R.world rig.old) c s
            → Serves basis (F.printed self.old.print) result (R.clock rig.old) (R.clock rig.new) self.new.store (R.world rig.new) c s s }
        ensures shows { R.tells → (s : State) → Holds (F.printed self.old.print) self.old.store (R.world rig.old) s
            → IfOk result (λ done. IfSome done (λ address. disk_block self.old.store.journal.geo (R.world rig.new).disk.shown address ≡ content s.array address)) }
        ensures holds { R.tells → (s : State) → Holds (F.printed self.old.print) self.old.store (R.world rig.old) s
            → HoldsThen (F.printed self.old.print) result s s self.new.store (R.world rig.new) }
        ensures silent { R.tells → IsSilent (R.clock rig.old) (R.clock rig.new) (R.world rig.old) (R.world rig.new) }
        ensures oldest { TakesOldest result self.old.store self.new.store }
        ensures idle { self.old.store.dirty ≡ [] → (result ≡ Ok None) × (rig.new ≡ rig.old) }
        ensures rows { IfErr result (λ fault. fault ≡ FlashRead → self.new.store ≡ committed_store (unlaid self.old.store) self.new.store.journal) }
        ensures cleans { CleansBy result self.old.store self.new.store }
        ensures fetches { IsNoFetch result (R.counts rig.old) (R.counts rig.new) }
        ensures loads { OnOk result (LoadsAtMost 0 self.old.store self.new.store (R.counts rig.old).disk (R.counts rig.new).disk) }
        ensures disk { CalledAtMost (up_to 0 2 self.old.store.journal.geo.block) (R.counts rig.old).disk (R.counts rig.new).disk }
        ensures rests { Rests result self.old self.new }
        ensures fails { FailsBy result (R.counts rig.old) (R.counts rig.new) (R.device_size rig.old) (R.device_size rig.new) }
    {
        match self.lists.oldest_dirty() {
            None => {
                self.forget();
                Ok(None)
            }
            Some(address) => match self.write_back(rig, address) {
                Err(fault) => Err(fault),
                Ok(()) => Ok(Some(address)),
            },
        }
    }

    // Commits, lays a dirty address and marks it clean.
    pub(super) fn write_back<R: Rig>(&mut self, rig: &mut R, address: u32) -> Result<(), StoreFault>
        requires call { IsReady self.old.store (R.device_size rig.old) }
        requires epoch { self.old.store.journal.epoch < 2 ^ 64 - 1 }
        requires below { address < self.old.store.journal.geo.blocks }
        requires dirty { is_dirty_at address self.old.store.table.a ≡ true }
        ensures serves { R.tells → (basis : Basis) (c s : State) → Kept basis (F.printed self.old.print) self.old.store (R.world rig.old) c s
            → Serves basis (F.printed self.old.print) result (R.clock rig.old) (R.clock rig.new) self.new.store (R.world rig.new) c s s }
        ensures holds { R.tells → (s : State) → Holds (F.printed self.old.print) self.old.store (R.world rig.old) s
            → HoldsThen (F.printed self.old.print) result s s self.new.store (R.world rig.new) }
        ensures silent { R.tells → IsSilent (R.clock rig.old) (R.clock rig.new) (R.world rig.old) (R.world rig.new) }
        ensures slots { R.tells → slots_shown self.old.store.journal.geo (R.world rig.new) ≡ slots_shown self.old.store.journal.geo (R.world rig.old) }
        ensures store { OnOk result (self.new.store ≡ written_back address self.old.store self.new.store.journal) }
        ensures rows { IfErr result (λ fault. fault ≡ FlashRead → self.new.store ≡ committed_store (unlaid self.old.store) self.new.store.journal) }
        ensures fault { IfErr result (λ fault. fault ≢ DiskRead) }
        ensures geometry { self.new.store.journal.geo ≡ self.old.store.journal.geo }
        ensures count { self.new.store.count ≡ self.old.store.count }
        ensures grows { GrowsLittle self.old.store self.new.store }
        ensures cleans { OnOk result (Cleans self.old.store self.new.store) }
        ensures failed { IfErr result (λ fault. fault ≡ FlashRead → Cleans self.old.store self.new.store) }
        ensures rises { self.new.store.journal.epoch + length self.new.store.dirty ≤ self.old.store.journal.epoch + length self.old.store.dirty + 1 }
        ensures sinks { OnOk result (self.new.store.journal.epoch + length self.new.store.dirty ≤ self.old.store.journal.epoch + length self.old.store.dirty) }
        ensures loads { OnOk result (LoadsAtMost 0 self.old.store self.new.store (R.counts rig.old).disk (R.counts rig.new).disk) }
        ensures disk { CalledAtMost (up_to 0 2 self.old.store.journal.geo.block) (R.counts rig.old).disk (R.counts rig.new).disk }
        ensures rests { Rests result self.old self.new }
        ensures fails { FailsBy result (R.counts rig.old) (R.counts rig.new) (R.device_size rig.old) (R.device_size rig.new) }
    {
        match self.commit(rig) {
            Err(fault) => Err(fault),
            Ok(()) => match self.lay(rig, address) {
                Err(fault) => Err(fault),
                Ok(()) => match self.mark(rig) {
                    Err(fault) => {
                        self.laid.clear();
                        Err(fault)
                    }
                    Ok(()) => Ok(()),
                },
            },
        }
    }
}
