// The step itself: rows, count, records and slots go on by one reference.
ghost use Rattle.std.specs.Prelude.{◌≡◌, ◌⊎◌, ◌+◌, ◌<◌, ◌≤◌, ◌-◌, ◌^◌, length, true, false, Ok, IfOk, IfErr, OnErr, IsTrue, if◌then◌else◌, ℕ};
ghost use Rattle.dd_rig.specs.declared.device.Dev.TheVariants.{Flash as FlashDevice};
ghost use Rattle.dd_rig.specs.Counts.{Makes, up_to, nothing};
ghost use Rattle.dd_layout.specs.Layout.{flash_need};
ghost use Rattle.dd_record.specs.declared.row.Link.TheVariants.{Lost};
ghost use Rattle.dd_record.specs.Spelling.{IsRec};
ghost use Rattle.dd_record.specs.Table.{link_at};
ghost use Rattle.dd_record.specs.Replay.{touch_of, raises};
ghost use Rattle.dd_model.specs.declared.given.Want.TheVariants.{Fresh as FreshBlock};
ghost use Rattle.dd_model.specs.declared.kind.Kind.TheVariants.{Miss, New};
ghost use Rattle.dd_model.specs.Listing.{IsGiven, want_of, touch_by, cut_of};
ghost use Rattle.dd_model.specs.Reference.{reference, Tells};
ghost use Rattle.dd_model.specs.State.{State, content, is_zero_block, is_known};
ghost use Rattle.dd_store.specs.declared.fault.StoreFault.TheVariants.{FlashWrite};
ghost use Rattle.dd_store.specs.Meaning.{Basis, sizes_of};
ghost use Rattle.dd_store.specs.Keeping.{IsStore, Holds, Kept};
ghost use Rattle.dd_store.specs.Referring.{RecordFits, referred_store, listing_in, is_fresh_block};
ghost use Rattle.dd_store.specs.Bringing.{IsPrepared, Enters, answer_for};
ghost use Rattle.dd_store.specs.Serving.{Serves, HoldsThen};
ghost use Rattle.dd_store.specs.Calls.{IsSilent, Rests, FailsBy};

use super::Store;
use crate::StoreFault;
use crate::place::place_block;
use crate::refer::refer;
use dd_block::{Fingerprint, Fp};
use dd_model::{Block, Cut, Lists};
use dd_record::{BRow, Rec};
use dd_rig::Rig;

impl<F: Fingerprint, L: Lists> Store<F, L> {
    // References an address with a listed block or with zeros, where room was made for it.
    pub(super) fn refer_known(&mut self, its: Rec, address: u32, block: Block, dirty: bool) -> Cut
        requires up { IsTrue self.old.store.is_up }
        requires count { self.old.store.count < 2 ^ 64 - 1 }
        requires record { IsRec self.old.store.journal.geo 2 its }
        requires known { is_fresh_block block ≡ false }
        requires given { IsGiven (listing_in self.old.store) block }
        requires prepared { IsPrepared address (want_of block) self.old.store }
        requires raised { raises its ≡ true }
        requires touches { touch_of its self.old.store.table ≡ Some (touch_by address block dirty (listing_in self.old.store)) }
        ensures keeps { IsStore self.old.store }
        ensures fits { RecordFits self.old.store its (touch_by address block dirty (listing_in self.old.store)) }
        ensures store { self.new.store ≡ referred_store its (touch_by address block dirty (listing_in self.old.store)) self.old.store }
        ensures cut { result ≡ cut_of (touch_by address block dirty (listing_in self.old.store)) (listing_in self.old.store) }
        ensures print { self.new.print ≡ self.old.print }
    {
        self.laid.clear();
        self.count += 1;
        refer(
            &mut self.lists,
            &mut self.slots,
            &mut self.pending,
            address,
            block,
            dirty,
            its,
        )
    }

    // References an address with a block that isn't listed, where room was made for it: the block is
    // written into a free slot first.
    pub(super) fn refer_fresh<R: Rig>(
        &mut self,
        rig: &mut R,
        address: u32,
        fp: Fp,
        block: &[u8],
        dirty: bool,
    ) -> Result<Cut, StoreFault>
        requires up { IsTrue self.old.store.is_up }
        requires count { self.old.store.count < 2 ^ 64 - 1 }
        requires flash { flash_need self.old.store.journal.geo ≤ R.device_size rig.old FlashDevice }
        requires below { address < self.old.store.journal.geo.blocks }
        requires long { length block.now ≡ self.old.store.journal.geo.block }
        requires anew { (dirty ≡ true) ⊎ (link_at address self.old.store.table.a ≡ Lost) }
        requires prepared { IsPrepared address FreshBlock self.old.store }
        ensures serves { R.tells → (basis : Basis) (c s : State) → Kept basis (F.printed self.old.print) self.old.store (R.world rig.old) c s → fp ≡ F.printed self.old.print block.now
            → is_zero_block block.now ≡ false → is_known block.now s.blocks ≡ false → (dirty ≡ false → block.now ≡ content s.array address)
            → Serves basis (F.printed self.old.print) result (R.clock rig.old) (R.clock rig.new) self.new.store (R.world rig.new) c s (reference (sizes_of self.old.store.journal.geo) s address block.now) }
        ensures tells { R.tells → (s : State) → Holds (F.printed self.old.print) self.old.store (R.world rig.old) s → fp ≡ F.printed self.old.print block.now
            → is_zero_block block.now ≡ false → is_known block.now s.blocks ≡ false → (dirty ≡ false → block.now ≡ content s.array address)
            → IfOk result (λ cut. Tells (F.printed self.old.print) (record { kind = if dirty then New else Miss; cut = cut }) (answer_for dirty (sizes_of self.old.store.journal.geo) s address block.now)) }
        ensures holds { R.tells → (s : State) → Holds (F.printed self.old.print) self.old.store (R.world rig.old) s → fp ≡ F.printed self.old.print block.now
            → is_zero_block block.now ≡ false → is_known block.now s.blocks ≡ false → (dirty ≡ false → block.now ≡ content s.array address)
            → HoldsThen (F.printed self.old.print) result s (reference (sizes_of self.old.store.journal.geo) s address block.now) self.new.store (R.world rig.new) }
        ensures silent { R.tells → IsSilent (R.clock rig.old) (R.clock rig.new) (R.world rig.old) (R.world rig.new) }
        ensures rows { IfOk result (Enters address fp dirty self.old.store self.new.store) }
        ensures down { OnErr result ((self.new.store.journal ≡ self.old.store.journal) × (self.new.store.dirty ≡ self.old.store.dirty) × (self.new.store.count ≤ self.old.store.count + 1)) }
        ensures fault { IfErr result (λ fault. fault ≡ FlashWrite) }
        ensures calls { Makes (up_to 0 1 self.old.store.journal.geo.block) nothing (R.counts rig.old) (R.counts rig.new) }
        ensures rests { Rests result self.old self.new }
        ensures fails { FailsBy result (R.counts rig.old) (R.counts rig.new) (R.device_size rig.old) (R.device_size rig.new) }
    {
        self.laid.clear();
        match place_block(&mut self.slots, rig, block) {
            Err(_) => {
                self.up = false;
                Err(StoreFault::FlashWrite)
            }
            Ok(found) => match found {
                None => {
                    self.up = false;
                    Err(StoreFault::FlashWrite)
                }
                Some(slot) => {
                    self.count += 1;
                    Ok(refer(
                        &mut self.lists,
                        &mut self.slots,
                        &mut self.pending,
                        address,
                        Block::Fresh(BRow { slot, fp }),
                        dirty,
                        Rec::Store {
                            address,
                            slot,
                            fp,
                            dirty,
                        },
                    ))
                }
            },
        }
    }
}
