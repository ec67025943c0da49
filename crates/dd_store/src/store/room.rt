// Room for a reference: what it would let fall off is clean.
ghost use Rattle.std.specs.Prelude.{◌≡◌, ◌+◌, ◌-◌, ◌^◌, ◌<◌, ◌≤◌, length, true, false, Ok, IfSome, IfErr, OnOk, IsTrue, ℕ};
ghost use Rattle.dd_record.specs.Table.{is_dirty_at};
ghost use Rattle.dd_model.specs.State.{State};
ghost use Rattle.dd_store.specs.declared.fault.StoreFault.TheVariants.{FlashRead};
ghost use Rattle.dd_store.specs.Keeping.{Holds, Kept, slots_shown};
ghost use Rattle.dd_store.specs.Rounds.{Cleans, LoadsAtMost, HasRoom};
ghost use Rattle.dd_store.specs.Serving.{unlaid, IsReady, MayCall, Serves, HoldsThen};
ghost use Rattle.dd_store.specs.Calls.{IsSilent, Rests, FailsBy, IsNoFetch};
ghost use Rattle.dd_store.specs.Meaning.{Basis};

use super::Store;
use crate::StoreFault;
use crate::along::Along;
use dd_block::Fingerprint;
use dd_model::{Lists, Want};
use dd_rig::Rig;

impl<F: Fingerprint, L: Lists> Store<F, L> {
    // Writes back what a reference of the address with such a block would let fall off while it is dirty.
    pub(super) fn make_room<R: Rig>(
        &mut self,
        rig: &mut R,
        address: u32,
        want: Want,
    ) -> Result<(), StoreFault>
        requires { MayCall self.old.store (R.device_size rig.old) }
        ensures serves { R.tells → (basis : Basis) (c s : State) → Kept basis (F.printed self.old.print) self.old.store (R.world rig.old) c s
            → Serves basis (F.printed self.old.print) result (R.clock rig.old) (R.clock rig.new) self.new.store (R.world rig.new) c s s }
        ensures holds { R.tells → (s : State) → Holds (F.printed self.old.print) self.old.store (R.world rig.old) s
            → HoldsThen (F.printed self.old.print) result s s self.new.store (R.world rig.new) }
        ensures silent { R.tells → IsSilent (R.clock rig.old) (R.clock rig.new) (R.world rig.old) (R.world rig.new) }
        ensures slots { R.tells → slots_shown self.old.store.journal.geo (R.world rig.new) ≡ slots_shown self.old.store.journal.geo (R.world rig.old) }
        ensures room { OnOk result (HasRoom address want self.new.store) }
        ensures own { OnOk result (is_dirty_at address self.new.store.table.a ≡ is_dirty_at address self.old.store.table.a) }
        ensures rows { OnOk result (Cleans self.old.store self.new.store) }
        ensures failed { IfErr result (λ fault. fault ≡ FlashRead → Cleans self.old.store self.new.store) }
        ensures idle { HasRoom address want self.old.store → (result ≡ Ok tt) × (rig.new ≡ rig.old) × (self.new.store ≡ unlaid self.old.store) }
        ensures fetches { IsNoFetch result (R.counts rig.old) (R.counts rig.new) }
        ensures count { self.new.store.count ≡ self.old.store.count }
        ensures geometry { self.new.store.journal.geo ≡ self.old.store.journal.geo }
        ensures rises { self.new.store.journal.epoch + length self.new.store.dirty ≤ self.old.store.journal.epoch + length self.old.store.dirty + 1 }
        ensures loads { OnOk result (LoadsAtMost 0 self.old.store self.new.store (R.counts rig.old).disk (R.counts rig.new).disk) }
        ensures rests { Rests result self.old self.new }
        ensures fails { FailsBy result (R.counts rig.old) (R.counts rig.new) (R.device_size rig.old) (R.device_size rig.new) }
    {
        let victims = self.lists.victims(address, want);
        match self.clean_out(rig, victims.out) {
            Err(fault) => Err(fault),
            Ok(()) => match victims.drop {
                None => Ok(()),
                Some(row) => self.rounds(
                    rig,
                    Along::Referrers {
                        slot: row.slot,
                        skip: address,
                    },
                ),
            },
        }
    }

    // Writes an address back, where one is given and it is dirty.
    fn clean_out<R: Rig>(&mut self, rig: &mut R, out: Option<u32>) -> Result<(), StoreFault>
        requires call { IsReady self.old.store (R.device_size rig.old) }
        requires epoch { self.old.store.journal.epoch + length self.old.store.dirty < 2 ^ 64 - 1 }
        ensures serves { R.tells → (basis : Basis) (c s : State) → Kept basis (F.printed self.old.print) self.old.store (R.world rig.old) c s
            → Serves basis (F.printed self.old.print) result (R.clock rig.old) (R.clock rig.new) self.new.store (R.world rig.new) c s s }
        ensures holds { R.tells → (s : State) → Holds (F.printed self.old.print) self.old.store (R.world rig.old) s
            → HoldsThen (F.printed self.old.print) result s s self.new.store (R.world rig.new) }
        ensures silent { R.tells → IsSilent (R.clock rig.old) (R.clock rig.new) (R.world rig.old) (R.world rig.new) }
        ensures slots { R.tells → slots_shown self.old.store.journal.geo (R.world rig.new) ≡ slots_shown self.old.store.journal.geo (R.world rig.old) }
        ensures clean { OnOk result (IfSome out (λ address. is_dirty_at address self.new.store.table.a ≡ false)) }
        ensures idle { IfSome out (λ address. is_dirty_at address self.old.store.table.a ≡ false) → (result ≡ Ok tt) × (rig.new ≡ rig.old) × (self.new.store ≡ unlaid self.old.store) }
        ensures rows { OnOk result (Cleans self.old.store self.new.store) }
        ensures failed { IfErr result (λ fault. fault ≡ FlashRead → Cleans self.old.store self.new.store) }
        ensures fetches { IsNoFetch result (R.counts rig.old) (R.counts rig.new) }
        ensures count { self.new.store.count ≡ self.old.store.count }
        ensures geometry { self.new.store.journal.geo ≡ self.old.store.journal.geo }
        ensures rises { self.new.store.journal.epoch + length self.new.store.dirty ≤ self.old.store.journal.epoch + length self.old.store.dirty + 1 }
        ensures sinks { OnOk result (self.new.store.journal.epoch + length self.new.store.dirty ≤ self.old.store.journal.epoch + length self.old.store.dirty) }
        ensures loads { OnOk result (LoadsAtMost 0 self.old.store self.new.store (R.counts rig.old).disk (R.counts rig.new).disk) }
        ensures rests { Rests result self.old self.new }
        ensures fails { FailsBy result (R.counts rig.old) (R.counts rig.new) (R.device_size rig.old) (R.device_size rig.new) }
    {
        match out {
            None => {
                self.forget();
                Ok(())
            }
            Some(address) => self.clean_one(rig, address),
        }
    }

    // Writes an address back, where it is dirty.
    fn clean_one<R: Rig>(&mut self, rig: &mut R, address: u32) -> Result<(), StoreFault>
        requires call { IsReady self.old.store (R.device_size rig.old) }
        requires epoch { self.old.store.journal.epoch + length self.old.store.dirty < 2 ^ 64 - 1 }
        ensures serves { R.tells → (basis : Basis) (c s : State) → Kept basis (F.printed self.old.print) self.old.store (R.world rig.old) c s
            → Serves basis (F.printed self.old.print) result (R.clock rig.old) (R.clock rig.new) self.new.store (R.world rig.new) c s s }
        ensures holds { R.tells → (s : State) → Holds (F.printed self.old.print) self.old.store (R.world rig.old) s
            → HoldsThen (F.printed self.old.print) result s s self.new.store (R.world rig.new) }
        ensures silent { R.tells → IsSilent (R.clock rig.old) (R.clock rig.new) (R.world rig.old) (R.world rig.new) }
        ensures slots { R.tells → slots_shown self.old.store.journal.geo (R.world rig.new) ≡ slots_shown self.old.store.journal.geo (R.world rig.old) }
        ensures clean { OnOk result (is_dirty_at address self.new.store.table.a ≡ false) }
        ensures idle { is_dirty_at address self.old.store.table.a ≡ false → (result ≡ Ok tt) × (rig.new ≡ rig.old) × (self.new.store ≡ unlaid self.old.store) }
        ensures rows { OnOk result (Cleans self.old.store self.new.store) }
        ensures failed { IfErr result (λ fault. fault ≡ FlashRead → Cleans self.old.store self.new.store) }
        ensures fetches { IsNoFetch result (R.counts rig.old) (R.counts rig.new) }
        ensures count { self.new.store.count ≡ self.old.store.count }
        ensures geometry { self.new.store.journal.geo ≡ self.old.store.journal.geo }
        ensures rises { self.new.store.journal.epoch + length self.new.store.dirty ≤ self.old.store.journal.epoch + length self.old.store.dirty + 1 }
        ensures sinks { OnOk result (self.new.store.journal.epoch + length self.new.store.dirty ≤ self.old.store.journal.epoch + length self.old.store.dirty) }
        ensures loads { OnOk result (LoadsAtMost 0 self.old.store self.new.store (R.counts rig.old).disk (R.counts rig.new).disk) }
        ensures rests { Rests result self.old self.new }
        ensures fails { FailsBy result (R.counts rig.old) (R.counts rig.new) (R.device_size rig.old) (R.device_size rig.new) }
    {
        if self.is_dirty(address) {
            self.write_back(rig, address)
        } else {
            self.forget();
            Ok(())
        }
    }

    // Whether an address is dirty.
    fn is_dirty(&self, address: u32) -> bool
        ensures dirty { result ≡ is_dirty_at address self.now.store.table.a }
        ensures below { IsTrue self.now.store.is_up → result ≡ true → address < self.now.store.journal.geo.blocks }
    {
        match self.lists.look(address) {
            None => false,
            Some(row) => row.dirty,
        }
    }
}
