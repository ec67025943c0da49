// The scratch of a replay: both lists, and the blocks in slots of the flash.
ghost use Rattle.std.specs.Prelude.{◌≡◌, ◌+◌, ◌<◌, ◌≤◌, ◌^◌, ℕ, List, [], false, length, Some, IfOk, OnOk, OnErr, IfErr, IfSome, IsTrue};
ghost use Rattle.dd_rig.specs.Clock.{Elapses};
ghost use Rattle.dd_rig.specs.Counts.{Frame};
ghost use Rattle.dd_slots.specs.declared.usage.Usage.TheVariants.{Used};
ghost use Rattle.dd_slots.specs.Slots.{AreNew, use_of};
ghost use Rattle.dd_model.specs.Listing.{IsGiven, may_refer, referred, cut_of, empty_listing};
ghost use Rattle.dd_model.specs.Reference.{Tells, reference, read_answer};
ghost use Rattle.dd_block.specs.declared.print.Fp.{Fp};
ghost use Rattle.dd_rig.specs.World.{World};
ghost use Rattle.dd_model.specs.Orphans.{orphans_of, orphaned_addresses, orphaned_blocks};
ghost use Rattle.dd_model.specs.State.{content};
ghost use Rattle.dd_serve.specs.Calls.{AsksFor, OnlyBlocks, slots_for, looks_for, writes_for, writes_until};
ghost use Rattle.dd_serve.specs.Causes.{Faulted, LeavesWorld};
ghost use Rattle.dd_serve.specs.Scratch.{Fits, IsSound, OnlyFlash, IsWithin, scratch_state, scratch_sizes, read_of, slots_after};

use crate::blocks::ScratchFault;
use crate::locating::locate;
use dd_block::Fingerprint;
use dd_model::{Block, Cut, Done, Lists, Orphans};
use dd_record::BRow;
use dd_rig::Rig;
use dd_slots::Slots;
use std::alloc::{AllocError, Global};
use std::marker::Model;

// Where the slots begin on the flash.
const SLOTS_AT: u64 = 64;

/// Both lists, the slots of the flash, and how many references were made. The blocks stand on the
/// flash, and zeros have no slot.
#[derive(Drop)]
pub struct Scratch<L: Lists> {
    blocks: u32,
    lists: L,
    slots: Slots,
    count: u64,
}

impl<L: Lists> Model for Scratch<L> {
    ghost use Rattle.dd_serve.specs.Scratch.{ScratchView, scratch_of};

    ghost Value = { ScratchView };

    ghost view = { λ s. scratch_of s.blocks (L.listing s.lists) s.slots s.count };
}

impl<L: Lists> Scratch<L> {
    /// A scratch for a disk of so many blocks, in which nothing is listed.
    pub fn new(
        alloc: Global,
        block: u32,
        blocks: u32,
        acap: u32,
        bcap: u32,
    ) -> Result<Self, AllocError>
        requires addresses { 1 ≤ acap }
        requires listed { 1 ≤ bcap }
        requires most { bcap + 1 < 2 ^ 32 }
        ensures blocks { IfOk result (λ scratch. scratch.blocks ≡ blocks) }
        ensures lists { IfOk result (λ scratch. scratch.lists ≡ empty_listing acap bcap (bcap + 1)) }
        ensures slots { IfOk result (λ scratch. AreNew 64 block (bcap + 1) [] scratch.slots) }
        ensures count { IfOk result (λ scratch. scratch.count ≡ 0) }
    {
        Ok(Scratch {
            blocks,
            lists: L::new(alloc, acap, bcap, bcap + 1)?,
            slots: Slots::new(alloc, SLOTS_AT, block, bcap + 1, &[])?,
            count: 0,
        })
    }

    /// How many blocks the disk has.
    pub fn blocks(&self) -> u32
        ensures { result ≡ self.now.blocks }
    {
        self.blocks
    }

    /// Both recency lists.
    pub fn lists(&self) -> &L
        ensures { L.listing result.now ≡ self.now.lists }
    {
        &self.lists
    }

    /// How many listed addresses aren't linked, and how many listed blocks no address is linked to.
    pub fn orphans(&self) -> Orphans
        ensures table { result ≡ orphans_of self.now.lists.table }
        ensures state { (printed : List ℕ → Fp) (world : World) → IsSound printed self.now world
            → result ≡ record { a = orphaned_addresses (scratch_state self.now world); b = orphaned_blocks (scratch_state self.now world) } }
    {
        self.lists.orphans()
    }

    /// How many references were made.
    pub fn count(&self) -> u64
        ensures { result ≡ self.now.count }
    {
        self.count
    }

    /// Reads an address, which becomes the most recently referenced one, and so does its block; zeros
    /// have no place among the blocks.
    pub fn read<F: Fingerprint, R: Rig>(
        &mut self,
        rig: &mut R,
        print: &F,
        address: u32,
        block: &mut [u8],
        other: &mut [u8],
    ) -> Result<Done, ScratchFault>
        requires address { address < self.old.blocks }
        requires size { (length block.old ≡ self.old.slots.block) × (length other.old ≡ self.old.slots.block) }
        requires fits { Fits self.old (R.device_size rig.old) }
        requires count { self.old.count + 1 < 2 ^ 64 }
        ensures answer { R.tells → IsSound (F.printed print.now) self.old (R.world rig.old) → IfOk result (λ done. Tells (F.printed print.now) done (read_answer (scratch_sizes self.old) (scratch_state self.old (R.world rig.old)) address)) }
        ensures block { R.tells → IsSound (F.printed print.now) self.old (R.world rig.old) → OnOk result (block.new ≡ content (scratch_state self.old (R.world rig.old)).array address) }
        ensures state { R.tells → IsSound (F.printed print.now) self.old (R.world rig.old) → OnOk result (scratch_state self.new (R.world rig.new) ≡ reference (scratch_sizes self.old) (scratch_state self.old (R.world rig.old)) address (content (scratch_state self.old (R.world rig.old)).array address)) }
        ensures sound { R.tells → IsSound (F.printed print.now) self.old (R.world rig.old) → OnOk result (IsSound (F.printed print.now) self.new (R.world rig.new)) }
        ensures fits { OnOk result (Fits self.new (R.device_size rig.new)) }
        ensures sizes { OnOk result ((scratch_sizes self.new ≡ scratch_sizes self.old) × (self.new.count ≡ self.old.count + 1)) }
        ensures kept { OnErr result (self.new ≡ self.old) }
        ensures others { R.tells → OnlyFlash (R.world rig.old) (R.world rig.new) }
        ensures unread { R.tells → IfErr result (λ fault. LeavesWorld fault (R.world rig.old) (R.world rig.new)) }
        ensures time { R.tells → Elapses (R.clock rig.old) (R.clock rig.new) (IsWithin (R.world rig.old)) }
        ensures blocks { OnlyBlocks self.old.slots.block (R.counts rig.old) (R.counts rig.new) }
        ensures frame { Frame (R.counts rig.old) (R.counts rig.new) (R.device_size rig.old) (R.device_size rig.new) }
        ensures asks { IfErr result (λ fault. AsksFor self.old.slots.block self.old.lists.bcap 0 1 (writes_until fault) (R.counts rig.old) (R.counts rig.new)) }
        ensures asks_for { R.tells → IsSound (F.printed print.now) self.old (R.world rig.old) → IfOk result (λ done. AsksFor self.old.slots.block self.old.lists.bcap (slots_for done.kind block.new) (looks_for done.kind) (writes_for done.kind) (R.counts rig.old) (R.counts rig.new)) }
        ensures cause { IfErr result (λ fault. Faulted fault (R.counts rig.old) (R.counts rig.new)) }
    {
        let (kind, given) = locate(
            &self.lists,
            &mut self.slots,
            rig,
            print,
            address,
            block,
            other,
        )?;
        let cut = touch(&mut self.lists, &mut self.slots, address, given);
        self.count += 1;
        Ok(Done { kind, cut })
    }
}

// The address and its block in front. The slot of a block that falls off is free.
fn touch<L: Lists>(lists: &mut L, slots: &mut Slots, address: u32, given: Block) -> Cut
    requires given { IsGiven (L.listing lists.old) given }
    requires clean { IsTrue (may_refer (read_of address given (L.listing lists.old)) (L.listing lists.old)) }
    requires used { IfSome (cut_of (read_of address given (L.listing lists.old)) (L.listing lists.old)).drop (λ row. use_of slots.old row.slot ≡ Some Used) }
    ensures lists { L.listing lists.new ≡ referred (read_of address given (L.listing lists.old)) (L.listing lists.old) }
    ensures slots { slots.new ≡ slots_after (cut_of (read_of address given (L.listing lists.old)) (L.listing lists.old)).drop slots.old }
    ensures cut { result ≡ cut_of (read_of address given (L.listing lists.old)) (L.listing lists.old) }
{
    let cut = lists.touch(address, given, false);
    let_go(slots, cut.drop);
    cut
}

// The slot of a block that fell off is free.
fn let_go(slots: &mut Slots, drop: Option<BRow>)
    requires { IfSome drop (λ row. use_of slots.old row.slot ≡ Some Used) }
    ensures { slots.new ≡ slots_after drop slots.old }
{
    if let Some(row) = drop {
        slots.release(row.slot);
    }
    slots.settle();
}
