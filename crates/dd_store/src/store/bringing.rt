// A content is brought to an address: it is found or gets a slot, room is made, and the reference is made.
ghost use Rattle.std.specs.Prelude.{◌≡◌, ◌≢◌, ◌⊎◌, ◌+◌, ◌-◌, ◌*◌, ◌<◌, ◌≤◌, ℕ, List, length, true, false, Ok, IfOk, IfSome, IfErr, OnOk, IsOk, IsTrue, if◌then◌else◌};
ghost use Rattle.dd_rig.specs.declared.device.Dev.TheVariants.{Flash as FlashDevice};
ghost use Rattle.dd_rig.specs.Clock.{AddsNone};
ghost use Rattle.dd_rig.specs.Counts.{Makes, CalledAtMost, up_to, nothing};
ghost use Rattle.dd_layout.specs.Layout.{flash_need};
ghost use Rattle.dd_record.specs.declared.row.Link.TheVariants.{Lost};
ghost use Rattle.dd_record.specs.Spelling.{IsRec};
ghost use Rattle.dd_record.specs.Table.{is_dirty_at, link_at};
ghost use Rattle.dd_record.specs.Replay.{touch_of, raises};
ghost use Rattle.dd_model.specs.declared.kind.Kind.TheVariants.{Hit, Miss, New, Dup};
ghost use Rattle.dd_model.specs.declared.given.Want.TheVariants.{Fresh as FreshBlock};
ghost use Rattle.dd_model.specs.declared.given.Block.TheVariants.{Known as KnownBlock};
ghost use Rattle.dd_model.specs.Confirming.{candidates};
ghost use Rattle.dd_model.specs.Listing.{IsGiven, touch_by, want_of};
ghost use Rattle.dd_model.specs.Reference.{reference, Tells};
ghost use Rattle.dd_model.specs.State.{State, content, is_zero_block, is_known};
ghost use Rattle.dd_store.specs.declared.fault.StoreFault.TheVariants.{FlashRead};
ghost use Rattle.dd_store.specs.Meaning.{Basis, sizes_of};
ghost use Rattle.dd_store.specs.Keeping.{IsStore, Holds, Kept, slots_shown};
ghost use Rattle.dd_store.specs.Referring.{listing_in, is_fresh_block, kind_of};
ghost use Rattle.dd_store.specs.Rounds.{Cleans, HasRoom, LoadsAtMost};
ghost use Rattle.dd_store.specs.Bringing.{IsPrepared, must_commit, Carries, References, FoundAs, answer_for, want_for, saves, IsReadFault, want_by};
ghost use Rattle.dd_store.specs.Serving.{MayCall, Serves, HoldsThen, unlaid};
ghost use Rattle.dd_store.specs.Calls.{IsSilent, Rests, FailsBy, IsNoFetch, LeavesRows};

use super::Store;
use crate::StoreFault;
use crate::kinds::{fresh_kind, is_zero, kind_of, want_of};
use dd_block::{Fingerprint, Fp};
use dd_model::{Block, Done, Lists, Want};
use dd_record::Rec;
use dd_rig::Rig;

impl<F: Fingerprint, L: Lists> Store<F, L> {
    // Brings a content to an address: that of a write, which becomes dirty, or that of a read of an address
    // that isn't linked.
    pub(super) fn bring<R: Rig>(
        &mut self,
        rig: &mut R,
        address: u32,
        block: &[u8],
        dirty: bool,
    ) -> Result<Done, StoreFault>
        requires call { MayCall self.old.store (R.device_size rig.old) }
        requires below { address < self.old.store.journal.geo.blocks }
        requires long { length block.now ≡ self.old.store.journal.geo.block }
        requires anew { (dirty ≡ true) ⊎ (link_at address self.old.store.table.a ≡ Lost) }
        ensures serves { R.tells → (basis : Basis) (c s : State) → Kept basis (F.printed self.old.print) self.old.store (R.world rig.old) c s → (dirty ≡ false → block.now ≡ content s.array address)
            → Serves basis (F.printed self.old.print) result (R.clock rig.old) (R.clock rig.new) self.new.store (R.world rig.new) c s (reference (sizes_of self.old.store.journal.geo) s address block.now) }
        ensures tells { R.tells → (s : State) → Holds (F.printed self.old.print) self.old.store (R.world rig.old) s → (dirty ≡ false → block.now ≡ content s.array address)
            → IfOk result (λ done. Tells (F.printed self.old.print) done (answer_for dirty (sizes_of self.old.store.journal.geo) s address block.now)) }
        ensures no_hit { IfOk result (λ done. done.kind ≢ Hit) }
        ensures holds { R.tells → (s : State) → Holds (F.printed self.old.print) self.old.store (R.world rig.old) s → (dirty ≡ false → block.now ≡ content s.array address)
            → HoldsThen (F.printed self.old.print) result s (reference (sizes_of self.old.store.journal.geo) s address block.now) self.new.store (R.world rig.new) }
        ensures silent { R.tells → IsSilent (R.clock rig.old) (R.clock rig.new) (R.world rig.old) (R.world rig.new) }
        ensures dup_slots { R.tells → IfOk result (λ done. done.kind ≡ Dup → slots_shown self.old.store.journal.geo (R.world rig.new) ≡ slots_shown self.old.store.journal.geo (R.world rig.old)) }
        ensures rows { LeavesRows address dirty result self.old.store self.new.store }
        ensures little { IfOk result (λ done. IsPrepared address (want_for done.kind) self.old.store
            → Makes (up_to (candidates (F.printed self.old.print block.now) self.old.store.table.b) (saves done.kind) (saves done.kind * self.old.store.journal.geo.block)) nothing (R.counts rig.old) (R.counts rig.new)) }
        ensures disk { IfOk result (λ done. HasRoom address (want_for done.kind) self.old.store → CalledAtMost nothing (R.counts rig.old).disk (R.counts rig.new).disk) }
        ensures idle { HasRoom address FreshBlock self.old.store → CalledAtMost nothing (R.counts rig.old).disk (R.counts rig.new).disk }
        ensures idle_held { R.tells → (s : State) → Holds (F.printed self.old.print) self.old.store (R.world rig.old) s → HasRoom address (want_by block.now s.blocks) self.old.store
            → CalledAtMost nothing (R.counts rig.old).disk (R.counts rig.new).disk }
        ensures loads { OnOk result (LoadsAtMost (if dirty then 2 else 0) self.old.store self.new.store (R.counts rig.old).disk (R.counts rig.new).disk) }
        ensures fetches { IsNoFetch result (R.counts rig.old) (R.counts rig.new) }
        ensures rests { Rests result self.old self.new }
        ensures fails { FailsBy result (R.counts rig.old) (R.counts rig.new) (R.device_size rig.old) (R.device_size rig.new) }
    {
        let _ = &self.up;
        if is_zero(block) {
            return self.join(
                rig,
                address,
                Block::Zero,
                Rec::Zero { address, dirty },
                dirty,
            );
        }
        let fp = self.print.print(block);
        match self.find_block(rig, fp, block) {
            Err(fault) => Err(fault),
            Ok(found) => match found {
                None => self.enter(rig, address, fp, block, dirty),
                Some(slot) => self.join(
                    rig,
                    address,
                    Block::Known(slot),
                    Rec::Link {
                        address,
                        slot,
                        dirty,
                    },
                    dirty,
                ),
            },
        }
    }

    // The slot of the listed block with this fingerprint and these bytes, if there is one.
    fn find_block<R: Rig>(
        &mut self,
        rig: &mut R,
        fp: Fp,
        block: &[u8],
    ) -> Result<Option<u32>, StoreFault>
        requires up { IsTrue self.old.store.is_up }
        requires long { length block.now ≡ self.old.store.journal.geo.block }
        requires flash { flash_need self.old.store.journal.geo ≤ R.device_size rig.old FlashDevice }
        ensures listed { IfOk result (λ found. IfSome found (λ slot. IsGiven (listing_in self.old.store) (KnownBlock slot))) }
        ensures found { R.tells → (print : List ℕ → Fp) (s : State) → Holds print self.old.store (R.world rig.old) s → fp ≡ print block.now
            → IfOk result (FoundAs self.old.store.journal.geo (R.world rig.old).flash.shown s block.now) }
        ensures store { self.new.store ≡ unlaid self.old.store }
        ensures print { self.new.print ≡ self.old.print }
        ensures world { R.tells → R.world rig.new ≡ R.world rig.old }
        ensures time { R.tells → AddsNone (R.clock rig.old) (R.clock rig.new) }
        ensures calls { Makes (up_to (candidates fp self.old.store.table.b) 0 0) nothing (R.counts rig.old) (R.counts rig.new) }
        ensures fault { IfErr result (λ fault. fault ≡ FlashRead) }
        ensures fails { FailsBy result (R.counts rig.old) (R.counts rig.new) (R.device_size rig.old) (R.device_size rig.new) }
    {
        self.laid.clear();
        match self
            .lists
            .confirm(rig, &self.slots, fp, block, self.block.as_mut_slice())
        {
            Err(_) => Err(StoreFault::FlashRead),
            Ok(found) => Ok(found),
        }
    }

    // References an address with a listed block or with zeros, as its record tells, once there is room.
    pub(super) fn join<R: Rig>(
        &mut self,
        rig: &mut R,
        address: u32,
        block: Block,
        its: Rec,
        dirty: bool,
    ) -> Result<Done, StoreFault>
        requires call { MayCall self.old.store (R.device_size rig.old) }
        requires known { is_fresh_block block ≡ false }
        requires given { IsGiven (listing_in self.old.store) block }
        requires record { IsRec self.old.store.journal.geo 2 its }
        requires raised { raises its ≡ true }
        requires touches { touch_of its self.old.store.table ≡ Some (touch_by address block dirty (listing_in self.old.store)) }
        ensures serves { R.tells → (basis : Basis) (c s : State) → Kept basis (F.printed self.old.print) self.old.store (R.world rig.old) c s → (bytes : List ℕ)
            → Carries (F.printed self.old.print) self.old.store (R.world rig.old).flash.shown s (touch_by address block dirty (listing_in self.old.store)) bytes
            → Serves basis (F.printed self.old.print) result (R.clock rig.old) (R.clock rig.new) self.new.store (R.world rig.new) c s (reference (sizes_of self.old.store.journal.geo) s address bytes) }
        ensures tells { R.tells → (s : State) → Holds (F.printed self.old.print) self.old.store (R.world rig.old) s → (bytes : List ℕ)
            → Carries (F.printed self.old.print) self.old.store (R.world rig.old).flash.shown s (touch_by address block dirty (listing_in self.old.store)) bytes
            → kind_of its ≡ (answer_for dirty (sizes_of self.old.store.journal.geo) s address bytes).kind
            → IfOk result (λ done. Tells (F.printed self.old.print) done (answer_for dirty (sizes_of self.old.store.journal.geo) s address bytes)) }
        ensures holds { R.tells → (s : State) → Holds (F.printed self.old.print) self.old.store (R.world rig.old) s → (bytes : List ℕ)
            → Carries (F.printed self.old.print) self.old.store (R.world rig.old).flash.shown s (touch_by address block dirty (listing_in self.old.store)) bytes
            → HoldsThen (F.printed self.old.print) result s (reference (sizes_of self.old.store.journal.geo) s address bytes) self.new.store (R.world rig.new) }
        ensures silent { R.tells → IsSilent (R.clock rig.old) (R.clock rig.new) (R.world rig.old) (R.world rig.new) }
        ensures slots { R.tells → slots_shown self.old.store.journal.geo (R.world rig.new) ≡ slots_shown self.old.store.journal.geo (R.world rig.old) }
        ensures kind { IfOk result (λ done. done.kind ≡ kind_of its) }
        ensures rows { LeavesRows address dirty result self.old.store self.new.store }
        ensures at_once { IsPrepared address (want_of block) self.old.store → IsOk result × (rig.new ≡ rig.old) }
        ensures disk { HasRoom address (want_of block) self.old.store → CalledAtMost nothing (R.counts rig.old).disk (R.counts rig.new).disk }
        ensures loads { OnOk result (LoadsAtMost (if dirty then 2 else 0) self.old.store self.new.store (R.counts rig.old).disk (R.counts rig.new).disk) }
        ensures fetches { IsNoFetch result (R.counts rig.old) (R.counts rig.new) }
        ensures rests { Rests result self.old self.new }
        ensures fails { FailsBy result (R.counts rig.old) (R.counts rig.new) (R.device_size rig.old) (R.device_size rig.new) }
    {
        match self.prepare(rig, address, want_of(block)) {
            Err(fault) => Err(fault),
            Ok(()) => Ok(Done {
                kind: kind_of(its),
                cut: self.refer_known(its, address, block, dirty),
            }),
        }
    }

    // References an address with a block that isn't listed, once there is room: it gets a slot.
    fn enter<R: Rig>(
        &mut self,
        rig: &mut R,
        address: u32,
        fp: Fp,
        block: &[u8],
        dirty: bool,
    ) -> Result<Done, StoreFault>
        requires call { MayCall self.old.store (R.device_size rig.old) }
        requires below { address < self.old.store.journal.geo.blocks }
        requires long { length block.now ≡ self.old.store.journal.geo.block }
        requires anew { (dirty ≡ true) ⊎ (link_at address self.old.store.table.a ≡ Lost) }
        ensures serves { R.tells → (basis : Basis) (c s : State) → Kept basis (F.printed self.old.print) self.old.store (R.world rig.old) c s → fp ≡ F.printed self.old.print block.now
            → is_zero_block block.now ≡ false → is_known block.now s.blocks ≡ false → (dirty ≡ false → block.now ≡ content s.array address)
            → Serves basis (F.printed self.old.print) result (R.clock rig.old) (R.clock rig.new) self.new.store (R.world rig.new) c s (reference (sizes_of self.old.store.journal.geo) s address block.now) }
        ensures tells { R.tells → (s : State) → Holds (F.printed self.old.print) self.old.store (R.world rig.old) s → fp ≡ F.printed self.old.print block.now
            → is_zero_block block.now ≡ false → is_known block.now s.blocks ≡ false → (dirty ≡ false → block.now ≡ content s.array address)
            → IfOk result (λ done. Tells (F.printed self.old.print) done (answer_for dirty (sizes_of self.old.store.journal.geo) s address block.now)) }
        ensures holds { R.tells → (s : State) → Holds (F.printed self.old.print) self.old.store (R.world rig.old) s → fp ≡ F.printed self.old.print block.now
            → is_zero_block block.now ≡ false → is_known block.now s.blocks ≡ false → (dirty ≡ false → block.now ≡ content s.array address)
            → HoldsThen (F.printed self.old.print) result s (reference (sizes_of self.old.store.journal.geo) s address block.now) self.new.store (R.world rig.new) }
        ensures silent { R.tells → IsSilent (R.clock rig.old) (R.clock rig.new) (R.world rig.old) (R.world rig.new) }
        ensures kind { IfOk result (λ done. done.kind ≡ (if dirty then New else Miss)) }
        ensures rows { LeavesRows address dirty result self.old.store self.new.store }
        ensures at_once { IsPrepared address FreshBlock self.old.store → Makes (up_to 0 1 self.old.store.journal.geo.block) nothing (R.counts rig.old) (R.counts rig.new) }
        ensures disk { HasRoom address FreshBlock self.old.store → CalledAtMost nothing (R.counts rig.old).disk (R.counts rig.new).disk }
        ensures loads { OnOk result (LoadsAtMost (if dirty then 2 else 0) self.old.store self.new.store (R.counts rig.old).disk (R.counts rig.new).disk) }
        ensures fetches { IsNoFetch result (R.counts rig.old) (R.counts rig.new) }
        ensures rests { Rests result self.old self.new }
        ensures fails { FailsBy result (R.counts rig.old) (R.counts rig.new) (R.device_size rig.old) (R.device_size rig.new) }
    {
        match self.prepare(rig, address, Want::Fresh) {
            Err(fault) => Err(fault),
            Ok(()) => match self.refer_fresh(rig, address, fp, block, dirty) {
                Err(fault) => Err(fault),
                Ok(cut) => Ok(Done {
                    kind: fresh_kind(dirty),
                    cut,
                }),
            },
        }
    }

    // Makes room for a reference of the address with such a block: nothing dirty falls off then, and there
    // is room for its record and its slot.
    fn prepare<R: Rig>(&mut self, rig: &mut R, address: u32, want: Want) -> Result<(), StoreFault>
        requires { MayCall self.old.store (R.device_size rig.old) }
        ensures serves { R.tells → (basis : Basis) (c s : State) → Kept basis (F.printed self.old.print) self.old.store (R.world rig.old) c s
            → Serves basis (F.printed self.old.print) result (R.clock rig.old) (R.clock rig.new) self.new.store (R.world rig.new) c s s }
        ensures holds { R.tells → (s : State) → Holds (F.printed self.old.print) self.old.store (R.world rig.old) s
            → HoldsThen (F.printed self.old.print) result s s self.new.store (R.world rig.new) }
        ensures silent { R.tells → IsSilent (R.clock rig.old) (R.clock rig.new) (R.world rig.old) (R.world rig.new) }
        ensures slots { R.tells → slots_shown self.old.store.journal.geo (R.world rig.new) ≡ slots_shown self.old.store.journal.geo (R.world rig.old) }
        ensures ready { OnOk result (IsPrepared address want self.new.store) }
        ensures own { OnOk result (is_dirty_at address self.new.store.table.a ≡ is_dirty_at address self.old.store.table.a) }
        ensures rows { OnOk result (Cleans self.old.store self.new.store) }
        ensures failed { IfErr result (λ fault. IsReadFault fault → Cleans self.old.store self.new.store) }
        ensures at_once { IsPrepared address want self.old.store → IsOk result × (rig.new ≡ rig.old) × (self.new.store ≡ unlaid self.old.store) }
        ensures disk { HasRoom address want self.old.store → CalledAtMost nothing (R.counts rig.old).disk (R.counts rig.new).disk }
        ensures loads { OnOk result (LoadsAtMost 0 self.old.store self.new.store (R.counts rig.old).disk (R.counts rig.new).disk) }
        ensures fetches { IsNoFetch result (R.counts rig.old) (R.counts rig.new) }
        ensures count { self.new.store.count ≡ self.old.store.count }
        ensures geometry { self.new.store.journal.geo ≡ self.old.store.journal.geo }
        ensures rises { self.new.store.journal.epoch + length self.new.store.dirty ≤ self.old.store.journal.epoch + length self.old.store.dirty + 2 }
        ensures rests { Rests result self.old self.new }
        ensures fails { FailsBy result (R.counts rig.old) (R.counts rig.new) (R.device_size rig.old) (R.device_size rig.new) }
    {
        let _ = &self.up;
        match self.make_room(rig, address, want) {
            Err(fault) => Err(fault),
            Ok(()) => {
                if self.must_commit(want) {
                    self.commit(rig)
                } else {
                    Ok(())
                }
            }
        }
    }

    // Whether a reference of such a block has to wait for a commit.
    fn must_commit(&self, want: Want) -> bool
        ensures must { result ≡ must_commit want self.now.store }
        ensures keeps { IsTrue self.now.store.is_up → IsStore self.now.store }
    {
        let full = self.pending.len() >= self.geo.group as usize;
        let spare = match want {
            Want::Slot(_) => true,
            Want::Fresh => self.slots.has_free(),
            Want::Zero => true,
        };
        full || !spare
    }
}
