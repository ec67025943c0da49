// Rounds of write-back: a commit, then as many dirty addresses as a group has records, then a mark.
ghost use Rattle.std.specs.Prelude.{◌≡◌, ◌+◌, ◌-◌, ◌^◌, ◌<◌, ◌≤◌, [], length, true, false, Ok, IfErr, OnOk, ℕ};
ghost use Rattle.dd_model.specs.State.{State};
ghost use Rattle.dd_store.specs.declared.fault.StoreFault.TheVariants.{FlashRead, DiskRead};
ghost use Rattle.dd_store.specs.Keeping.{Holds, Kept, slots_shown};
ghost use Rattle.dd_store.specs.Rounds.{Cleans, LoadsAtMost, LaysSome, PassesOver, KeepsSkipped, has_along};
ghost use Rattle.dd_store.specs.Serving.{unlaid, IsReady, Serves, HoldsThen};
ghost use Rattle.dd_store.specs.Calls.{IsSilent, Rests, FailsBy, IsNoFetch};
ghost use Rattle.dd_store.specs.Meaning.{Basis};

use super::Store;
use crate::StoreFault;
use crate::along::{Along, gather};
use crate::lay_all::lay_all;
use dd_block::Fingerprint;
use dd_model::Lists;
use dd_rig::Rig;

impl<F: Fingerprint, L: Lists> Store<F, L> {
    // Rounds along a walk, until it has no address.
    pub(super) fn rounds<R: Rig>(&mut self, rig: &mut R, along: Along) -> Result<(), StoreFault>
        requires call { IsReady self.old.store (R.device_size rig.old) }
        requires epoch { self.old.store.journal.epoch + length self.old.store.dirty < 2 ^ 64 - 1 }
        ensures serves { R.tells → (basis : Basis) (c s : State) → Kept basis (F.printed self.old.print) self.old.store (R.world rig.old) c s
            → Serves basis (F.printed self.old.print) result (R.clock rig.old) (R.clock rig.new) self.new.store (R.world rig.new) c s s }
        ensures holds { R.tells → (s : State) → Holds (F.printed self.old.print) self.old.store (R.world rig.old) s
            → HoldsThen (F.printed self.old.print) result s s self.new.store (R.world rig.new) }
        ensures silent { R.tells → IsSilent (R.clock rig.old) (R.clock rig.new) (R.world rig.old) (R.world rig.new) }
        ensures slots { R.tells → slots_shown self.old.store.journal.geo (R.world rig.new) ≡ slots_shown self.old.store.journal.geo (R.world rig.old) }
        ensures none { OnOk result (has_along along self.new.store ≡ false) }
        ensures idle { has_along along self.old.store ≡ false → (result ≡ Ok tt) × (rig.new ≡ rig.old) × (self.new.store ≡ unlaid self.old.store) }
        ensures rows { OnOk result (Cleans self.old.store self.new.store) }
        ensures skips { OnOk result (KeepsSkipped along self.old.store self.new.store) }
        ensures failed { IfErr result (λ fault. fault ≡ FlashRead → Cleans self.old.store self.new.store) }
        ensures fetches { IsNoFetch result (R.counts rig.old) (R.counts rig.new) }
        ensures count { self.new.store.count ≡ self.old.store.count }
        ensures geometry { self.new.store.journal.geo ≡ self.old.store.journal.geo }
        ensures rises { self.new.store.journal.epoch + length self.new.store.dirty ≤ self.old.store.journal.epoch + length self.old.store.dirty + 1 }
        ensures loads { OnOk result (LoadsAtMost 0 self.old.store self.new.store (R.counts rig.old).disk (R.counts rig.new).disk) }
        ensures rests { Rests result self.old self.new }
        ensures fails { FailsBy result (R.counts rig.old) (R.counts rig.new) (R.device_size rig.old) (R.device_size rig.new) }
    {
        if self.has_along(along) {
            self.some_rounds(rig, along)
        } else {
            self.forget();
            Ok(())
        }
    }

    // The same, where it has one.
    fn some_rounds<R: Rig>(&mut self, rig: &mut R, along: Along) -> Result<(), StoreFault>
        requires call { IsReady self.old.store (R.device_size rig.old) }
        requires epoch { self.old.store.journal.epoch + length self.old.store.dirty < 2 ^ 64 - 1 }
        requires some { has_along along self.old.store ≡ true }
        ensures serves { R.tells → (basis : Basis) (c s : State) → Kept basis (F.printed self.old.print) self.old.store (R.world rig.old) c s
            → Serves basis (F.printed self.old.print) result (R.clock rig.old) (R.clock rig.new) self.new.store (R.world rig.new) c s s }
        ensures holds { R.tells → (s : State) → Holds (F.printed self.old.print) self.old.store (R.world rig.old) s
            → HoldsThen (F.printed self.old.print) result s s self.new.store (R.world rig.new) }
        ensures silent { R.tells → IsSilent (R.clock rig.old) (R.clock rig.new) (R.world rig.old) (R.world rig.new) }
        ensures slots { R.tells → slots_shown self.old.store.journal.geo (R.world rig.new) ≡ slots_shown self.old.store.journal.geo (R.world rig.old) }
        ensures none { OnOk result (has_along along self.new.store ≡ false) }
        ensures rows { OnOk result (Cleans self.old.store self.new.store) }
        ensures skips { OnOk result (KeepsSkipped along self.old.store self.new.store) }
        ensures failed { IfErr result (λ fault. fault ≡ FlashRead → Cleans self.old.store self.new.store) }
        ensures fetches { IsNoFetch result (R.counts rig.old) (R.counts rig.new) }
        ensures count { self.new.store.count ≡ self.old.store.count }
        ensures geometry { self.new.store.journal.geo ≡ self.old.store.journal.geo }
        ensures rises { self.new.store.journal.epoch + length self.new.store.dirty ≤ self.old.store.journal.epoch + length self.old.store.dirty + 1 }
        ensures loads { OnOk result (LoadsAtMost 0 self.old.store self.new.store (R.counts rig.old).disk (R.counts rig.new).disk) }
        ensures rests { Rests result self.old self.new }
        ensures fails { FailsBy result (R.counts rig.old) (R.counts rig.new) (R.device_size rig.old) (R.device_size rig.new) }
    {
        self.forget();
        'rounds: while self.has_along(along) {
            match self.round(rig, along) {
                Err(fault) => return Err(fault),
                Ok(()) => {}
            }
        }
        Ok(())
    }

    // Commits, lays addresses along a walk, at most `group`, and marks them clean.
    fn round<R: Rig>(&mut self, rig: &mut R, along: Along) -> Result<(), StoreFault>
        requires call { IsReady self.old.store (R.device_size rig.old) }
        requires epoch { self.old.store.journal.epoch < 2 ^ 64 - 1 }
        requires some { has_along along self.old.store ≡ true }
        ensures serves { R.tells → (basis : Basis) (c s : State) → Kept basis (F.printed self.old.print) self.old.store (R.world rig.old) c s
            → Serves basis (F.printed self.old.print) result (R.clock rig.old) (R.clock rig.new) self.new.store (R.world rig.new) c s s }
        ensures holds { R.tells → (s : State) → Holds (F.printed self.old.print) self.old.store (R.world rig.old) s
            → HoldsThen (F.printed self.old.print) result s s self.new.store (R.world rig.new) }
        ensures silent { R.tells → IsSilent (R.clock rig.old) (R.clock rig.new) (R.world rig.old) (R.world rig.new) }
        ensures slots { R.tells → slots_shown self.old.store.journal.geo (R.world rig.new) ≡ slots_shown self.old.store.journal.geo (R.world rig.old) }
        ensures rows { OnOk result (Cleans self.old.store self.new.store) }
        ensures skips { OnOk result (KeepsSkipped along self.old.store self.new.store) }
        ensures failed { IfErr result (λ fault. fault ≡ FlashRead → Cleans self.old.store self.new.store) }
        ensures fetches { IsNoFetch result (R.counts rig.old) (R.counts rig.new) }
        ensures count { self.new.store.count ≡ self.old.store.count }
        ensures geometry { self.new.store.journal.geo ≡ self.old.store.journal.geo }
        ensures rises { self.new.store.journal.epoch + length self.new.store.dirty ≤ self.old.store.journal.epoch + length self.old.store.dirty + 1 }
        ensures sinks { OnOk result (self.new.store.journal.epoch + length self.new.store.dirty ≤ self.old.store.journal.epoch + length self.old.store.dirty) }
        ensures fewer { OnOk result (length self.new.store.dirty < length self.old.store.dirty) }
        ensures loads { OnOk result (LoadsAtMost 0 self.old.store self.new.store (R.counts rig.old).disk (R.counts rig.new).disk) }
        ensures rests { Rests result self.old self.new }
        ensures fails { FailsBy result (R.counts rig.old) (R.counts rig.new) (R.device_size rig.old) (R.device_size rig.new) }
    {
        match self.commit(rig) {
            Err(fault) => Err(fault),
            Ok(()) => match self.lay_some(rig, along) {
                Err(fault) => Err(fault),
                Ok(()) => match self.mark(rig) {
                    Err(fault) => {
                        self.laid.clear();
                        Err(fault)
                    }
                    Ok(()) => Ok(()),
                },
            },
        }
    }

    // Lays the first addresses of a walk, at most `group`, where nothing is pending.
    fn lay_some<R: Rig>(&mut self, rig: &mut R, along: Along) -> Result<(), StoreFault>
        requires call { IsReady self.old.store (R.device_size rig.old) }
        requires none { self.old.store.pending ≡ [] }
        requires some { has_along along self.old.store ≡ true }
        ensures serves { R.tells → (basis : Basis) (c s : State) → Kept basis (F.printed self.old.print) self.old.store (R.world rig.old) c s
            → Serves basis (F.printed self.old.print) result (R.clock rig.old) (R.clock rig.new) self.new.store (R.world rig.new) c s s }
        ensures holds { R.tells → (s : State) → Holds (F.printed self.old.print) self.old.store (R.world rig.old) s
            → HoldsThen (F.printed self.old.print) result s s self.new.store (R.world rig.new) }
        ensures silent { R.tells → IsSilent (R.clock rig.old) (R.clock rig.new) (R.world rig.old) (R.world rig.new) }
        ensures flash { R.tells → (R.world rig.new).flash ≡ (R.world rig.old).flash }
        ensures store { LaysSome result self.old.store self.new.store }
        ensures some { OnOk result (0 < length self.new.store.laid) }
        ensures skips { OnOk result (PassesOver along self.new.store.laid) }
        ensures print { self.new.print ≡ self.old.print }
        ensures reads { (R.counts rig.new).disk.reads ≤ (R.counts rig.old).disk.reads }
        ensures writes { OnOk result ((R.counts rig.new).disk.writes ≤ (R.counts rig.old).disk.writes + length self.new.store.laid) }
        ensures fails { FailsBy result (R.counts rig.old) (R.counts rig.new) (R.device_size rig.old) (R.device_size rig.new) }
    {
        self.laid.clear();
        gather(&self.lists, along, self.geo.group, &mut self.laid);
        match lay_all(
            rig,
            &self.lists,
            &self.slots,
            self.geo,
            self.laid.as_slice(),
            self.block.as_mut_slice(),
        ) {
            Ok(()) => Ok(()),
            Err(fault) => {
                self.laid.clear();
                match fault {
                    StoreFault::FlashRead => {}
                    StoreFault::DiskRead => {}
                    StoreFault::FlashWrite => {}
                    StoreFault::DiskWrite => self.up = false,
                }
                Err(fault)
            }
        }
    }

    // Nothing is laid any more.
    pub(super) fn forget(&mut self)
        ensures store { self.new.store ≡ unlaid self.old.store }
        ensures print { self.new.print ≡ self.old.print }
    {
        self.laid.clear();
    }

    // Whether a walk has an address.
    fn has_along(&self, along: Along) -> bool
        ensures { result ≡ has_along along self.now.store }
    {
        match along {
            Along::Age => self.lists.oldest_dirty().is_some(),
            Along::Referrers { slot, skip } => self.lists.dirty_of(slot, skip).is_some(),
        }
    }
}
