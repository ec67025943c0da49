// What keeps both recency lists as rows.
ghost use Rattle.std.specs.Prelude.{◌≡◌, ◌+◌, ◌≤◌, ℕ, Bool, IsTrue, List, length, slice_get, Some, IfOk, OnErr, IfSome};
ghost use Rattle.dd_block.specs.Geometry.{GivesFault};
ghost use Rattle.dd_rig.specs.declared.device.Dev.TheVariants.{Flash as FlashDevice};
ghost use Rattle.dd_rig.specs.World.{shown};
ghost use Rattle.dd_rig.specs.Clock.{AddsNone};
ghost use Rattle.dd_rig.specs.Counts.{Frame, Makes, plus, up_to, nothing, Rose};
ghost use Rattle.dd_slots.specs.Numbers.{Enumerates};
ghost use Rattle.dd_slots.specs.Slots.{count_of, slots_end};

use crate::{Block, Cut, Misfit, Orphans, Victims, Want};
use dd_block::Fp;
use dd_record::{ARow, BRow, Rows};
use dd_rig::{Failed, Rig};
use dd_slots::Slots;
use std::alloc::{AllocError, Global};

/// The two recency lists of D-LRU: rows of addresses and of distinct blocks, the most recently
/// referenced one first, and which addresses are dirty. A block stands by its slot; the zero block has
/// none, and is never listed.
///
/// Its meaning is `listing`. Whatever is done, `kept` holds: the rows fit each other, a dirty address
/// is linked, and neither list is longer than its capacity. Only `new` takes memory.
pub trait Lists: Rows + Drop {
    ghost use Rattle.dd_block.specs.declared.print.Fp.{Fp};
    ghost use Rattle.dd_record.specs.Table.{a_row, b_row, is_dirty_at};
    ghost use Rattle.dd_model.specs.declared.given.Block.{Block};
    ghost use Rattle.dd_model.specs.Listing.{Listing, IsListing, empty_listing, IsGiven, want_of, touch_by, may_refer, referred, cut_of};
    ghost use Rattle.dd_model.specs.Listing.{victims_of, victims_from, IsReferrer, is_referrer, IsWalked, next_of, without};
    ghost use Rattle.dd_model.specs.Listing.{made_clean, MayRestore, misfit_of, restored};
    ghost use Rattle.dd_model.specs.Confirming.{IsCandidate, candidates, Confirms};
    ghost use Rattle.dd_model.specs.Orphans.{orphans_of};

    /// Both lists, how long they may be, and the dirty addresses by age.
    ghost listing: { Self → Listing };

    /// The dirty addresses that are linked to a slot, in the order of a walk along them.
    ghost referrers: { Self → ℕ → List ℕ };

    /// Empty lists for so many addresses and distinct blocks, over so many slots.
    fn new(alloc: Global, acap: u32, bcap: u32, slots: u32) -> Result<Self, AllocError>
        requires addresses { 1 ≤ acap }
        requires blocks { 1 ≤ bcap }
        requires slots { bcap + 1 ≤ slots }
        ensures { IfOk result (λ lists. listing lists ≡ empty_listing acap bcap slots) };

    /// The row of an address, where it is listed.
    fn look(&self, address: u32) -> Option<ARow>
        ensures { result ≡ a_row address (listing self.now).table.a };

    /// The row of a slot, where its block is listed.
    fn block(&self, slot: u32) -> Option<BRow>
        ensures { result ≡ b_row slot (listing self.now).table.b };

    /// The slot of the listed block with this fingerprint and these bytes, if there is one. Each listed
    /// block with the fingerprint is read at most once. `scratch` may hold anything afterwards.
    fn confirm<R: Rig>(
        &self,
        rig: &mut R,
        slots: &Slots,
        fp: Fp,
        block: &[u8],
        scratch: &mut [u8],
    ) -> Result<Option<u32>, Failed>
        requires slots { (listing self.now).slots ≤ count_of slots.now }
        requires block { length block.now ≡ slots.now.block }
        requires scratch { length scratch.old ≡ slots.now.block }
        requires flash { slots_end slots.now ≤ R.device_size rig.old FlashDevice }
        ensures listed { IfOk result (λ found. IfSome found (IsCandidate fp (listing self.now).table.b)) }
        ensures found { R.tells → IfOk result (Confirms fp block.now slots.now (shown FlashDevice (R.world rig.old)) (listing self.now).table.b) }
        ensures world { R.tells → R.world rig.new ≡ R.world rig.old }
        ensures time { R.tells → AddsNone (R.clock rig.old) (R.clock rig.new) }
        ensures calls { Makes (up_to (candidates fp (listing self.now).table.b) 0 0) nothing (R.counts rig.old) (R.counts rig.new) }
        ensures reads { plus (R.counts rig.old).flash.reads 0 ≤ (R.counts rig.new).flash.reads }
        ensures disk { (R.counts rig.new).disk ≡ (R.counts rig.old).disk }
        ensures cause { OnErr result (Rose (R.counts rig.old).flash.failed_reads (R.counts rig.new).flash.failed_reads) }
        ensures frame { Frame (R.counts rig.old) (R.counts rig.new) (R.device_size rig.old) (R.device_size rig.new) };

    /// What a reference of the address with such a block would let fall off: the last address where this
    /// one isn't listed, the last block where a fresh one is wanted, each where its list is full.
    fn victims(&self, address: u32, want: Want) -> Victims
        ensures which { result ≡ victims_of address want (listing self.now) }
        ensures next { (block : Block) (dirty : Bool) → IsGiven (listing self.now) block → want ≡ want_of block
            → result ≡ victims_from (cut_of (touch_by address block dirty (listing self.now)) (listing self.now)) };

    /// A dirty address that is linked to the slot, other than `skip`. Which one is open.
    fn dirty_of(&self, slot: u32, skip: u32) -> Option<u32>
        ensures { IsReferrer slot skip (listing self.now).table.a result };

    /// A walk along the dirty addresses that are linked to the slot, but for `skip`: the first of
    /// them, or the one behind that which it gave before. Their order is open.
    fn next_referrer(&self, slot: u32, skip: u32, after: Option<u32>) -> Option<u32>
        requires { IsWalked after (without skip (referrers self.now slot)) }
        ensures { result ≡ next_of after (without skip (referrers self.now slot)) };

    /// A reference: the block and the address go to the front of their lists, the address linked. The
    /// zero block has no place in a list. With `dirty` the address becomes dirty; else it stays as it was.
    /// Then both lists are cut, and each address that was linked to the block that fell off loses its link.
    fn touch(&mut self, address: u32, block: Block, dirty: bool) -> Cut
        requires block { IsGiven (listing self.old) block }
        requires clean { IsTrue (may_refer (touch_by address block dirty (listing self.old)) (listing self.old)) }
        ensures after { listing self.new ≡ referred (touch_by address block dirty (listing self.old)) (listing self.old) }
        ensures cut { result ≡ cut_of (touch_by address block dirty (listing self.old)) (listing self.old) };

    /// The dirty address is clean from now on. A walk along the dirty ones goes on behind it as before.
    fn set_clean(&mut self, address: u32)
        requires { IsTrue (is_dirty_at address (listing self.old).table.a) }
        ensures after { listing self.new ≡ made_clean address (listing self.old) }
        ensures walk { (slot : ℕ) → referrers self.new slot ≡ without address (referrers self.old slot) };

    /// The address that became dirty longest ago, if one is dirty.
    fn oldest_dirty(&self) -> Option<u32>
        ensures { result ≡ next_of None (listing self.now).dirty };

    /// A walk along the dirty addresses by age: the oldest, or the one that became dirty next after a
    /// dirty one.
    fn next_dirty(&self, after: Option<u32>) -> Option<u32>
        requires { IsWalked after (listing self.now).dirty }
        ensures { result ≡ next_of after (listing self.now).dirty };

    /// Takes rows into empty lists, if they fit each other. Of the dirty ones the last in the list
    /// counts as the oldest. Else the lists stay empty, and it answers the first row that doesn't fit.
    fn restore(&mut self, b: &[BRow], a: &[ARow]) -> Result<(), Misfit>
        requires { MayRestore (listing self.old) (record { b = b.now; a = a.now }) }
        ensures ok { IfOk result (λ _. listing self.new ≡ restored (record { b = b.now; a = a.now }) (listing self.old)) }
        ensures fault { GivesFault result (misfit_of (record { b = b.now; a = a.now })) }
        ensures refused { OnErr result (listing self.new ≡ listing self.old) };

    /// How many listed addresses aren't linked, and how many listed blocks no address is linked to. It
    /// takes no memory; its time may be that of a walk along the addresses for each listed block.
    fn orphans(&self) -> Orphans
        ensures { result ≡ orphans_of (listing self.now).table };

    /// The rows that `Rows` shows are these.
    ghost same_a: { (lists : Self) → Self.a_rows lists ≡ (listing lists).table.a };

    ghost same_b: { (lists : Self) → Self.b_rows lists ≡ (listing lists).table.b };

    /// A walk comes to each dirty address that is linked to the slot, once.
    ghost walked: { (lists : Self) (slot : ℕ) → Enumerates (is_referrer slot (listing lists).table.a) (referrers lists slot) };

    /// What holds of all lists.
    ghost kept: { (lists : Self) → IsListing (listing lists) };
}
