// Where the content of an address is: in a listed slot, in one that it is put into, or nowhere, as it is
// zeros.
ghost use Rattle.std.specs.Prelude.{◌≡◌, ◌+◌, ◌*◌, ◌<◌, ◌≤◌, ℕ, List, true, false, length, replicate, Some, IfOk, OnErr, IfErr};
ghost use Rattle.dd_block.specs.declared.print.Fp.{Fp as Print};
ghost use Rattle.dd_rig.specs.Clock.{Elapses};
ghost use Rattle.dd_rig.specs.Counts.{Frame, nothing, up_to};
ghost use Rattle.dd_rig.specs.declared.device.Dev.TheVariants.{Disk as DiskDevice};
ghost use Rattle.dd_slots.specs.declared.usage.Usage.TheVariants.{Free, Used, Waiting};
ghost use Rattle.dd_slots.specs.Slots.{use_of, with_use, has_free, is_waiting, saved, settled};
ghost use Rattle.dd_record.specs.Table.{link_of, link_at};
ghost use Rattle.dd_record.specs.declared.row.Link.TheVariants.{Lost};
ghost use Rattle.dd_model.specs.Listing.{IsGiven};
ghost use Rattle.dd_model.specs.State.{is_zero_block};
ghost use Rattle.dd_serve.specs.declared.blocks.ScratchFault.TheVariants.{FlashWrite};
ghost use Rattle.dd_serve.specs.Calls.{Asks, AsksFor, OnlyBlocks, slots_at, looks_for, writes_for, writes_until};
ghost use Rattle.dd_serve.specs.Causes.{Faulted, LeavesWorld};
ghost use Rattle.dd_serve.specs.Scratch.{FitsSlots, FitsFlash, Found, Located, IsSound, OnlyFlash, IsWithin, placed, scratch_of};

use crate::blocks::{ScratchFault, fetch, find, load, save};
use dd_block::{Fingerprint, Fp};
use dd_model::{Block, Kind, Lists};
use dd_record::{ARow, BRow, Link};
use dd_rig::Rig;
use dd_slots::Slots;

/// Finds the content of an address, and tells of what kind its read is. A block that isn't listed is
/// put into a free slot.
#[tactic(auto, using(crate::proofs::Causes::cause_steps, crate::proofs::Moments::moment_steps))]
pub fn locate<L: Lists, F: Fingerprint, R: Rig>(
    lists: &L,
    slots: &mut Slots,
    rig: &mut R,
    print: &F,
    address: u32,
    block: &mut [u8],
    other: &mut [u8],
) -> Result<(Kind, Block), ScratchFault>
    requires size { (length block.old ≡ slots.old.block) × (length other.old ≡ slots.old.block) }
    requires flash { FitsFlash slots.old (R.device_size rig.old) }
    requires disk { (address + 1) * slots.old.block ≤ R.device_size rig.old DiskDevice }
    requires slots { FitsSlots (L.listing lists.now) slots.old }
    ensures given { IfOk result (λ found. IsGiven (L.listing lists.now) found.1) }
    ensures slots { IfOk result (λ found. slots.new ≡ placed found.1 slots.old) }
    ensures kept { OnErr result (slots.new ≡ slots.old) }
    ensures located { R.tells → (blocks count : ℕ) → address < blocks → IsSound (F.printed print.now) (scratch_of blocks (L.listing lists.now) slots.old count) (R.world rig.old)
        → IfOk result (λ found. Located (F.printed print.now) (scratch_of blocks (L.listing lists.now) slots.old count) (R.world rig.old) (R.world rig.new) address block.new found.0 found.1) }
    ensures others { R.tells → OnlyFlash (R.world rig.old) (R.world rig.new) }
    ensures unread { R.tells → IfErr result (λ fault. LeavesWorld fault (R.world rig.old) (R.world rig.new)) }
    ensures time { R.tells → Elapses (R.clock rig.old) (R.clock rig.new) (IsWithin (R.world rig.old)) }
    ensures blocks { OnlyBlocks slots.old.block (R.counts rig.old) (R.counts rig.new) }
    ensures frame { Frame (R.counts rig.old) (R.counts rig.new) (R.device_size rig.old) (R.device_size rig.new) }
    ensures asks { IfErr result (λ fault. AsksFor slots.old.block (L.listing lists.now).bcap 0 1 (writes_until fault) (R.counts rig.old) (R.counts rig.new)) }
    ensures asks_for { IfOk result (λ found. AsksFor slots.old.block (L.listing lists.now).bcap (slots_at found.0 found.1) (looks_for found.0) (writes_for found.0) (R.counts rig.old) (R.counts rig.new)) }
    ensures cause { IfErr result (λ fault. Faulted fault (R.counts rig.old) (R.counts rig.new)) }
{
    match link_of(lists.look(address)) {
        Link::Slot(slot) => {
            load(rig, slots, slot, block)?;
            Ok((Kind::Hit, Block::Known(slot)))
        }
        Link::Zero => {
            put_zeros(block);
            Ok((Kind::Hit, Block::Zero))
        }
        Link::Lost => place(lists, slots, rig, print, address, block, other),
    }
}

fn link_of(row: Option<ARow>) -> Link
    ensures { result ≡ link_of row }
{
    match row {
        None => Link::Lost,
        Some(row) => row.link,
    }
}

fn put_zeros(block: &mut [u8])
    ensures { block.new ≡ replicate (length block.old) 0 }
{
    block.fill(0);
}

// The same of an address that isn't linked.
#[tactic(auto, using(crate::proofs::Causes::cause_steps, crate::proofs::Moments::moment_steps))]
fn place<L: Lists, F: Fingerprint, R: Rig>(
    lists: &L,
    slots: &mut Slots,
    rig: &mut R,
    print: &F,
    address: u32,
    block: &mut [u8],
    other: &mut [u8],
) -> Result<(Kind, Block), ScratchFault>
    requires lost { link_at address (L.listing lists.now).table.a ≡ Lost }
    requires size { (length block.old ≡ slots.old.block) × (length other.old ≡ slots.old.block) }
    requires flash { FitsFlash slots.old (R.device_size rig.old) }
    requires disk { (address + 1) * slots.old.block ≤ R.device_size rig.old DiskDevice }
    requires slots { FitsSlots (L.listing lists.now) slots.old }
    ensures given { IfOk result (λ found. IsGiven (L.listing lists.now) found.1) }
    ensures slots { IfOk result (λ found. slots.new ≡ placed found.1 slots.old) }
    ensures kept { OnErr result (slots.new ≡ slots.old) }
    ensures located { R.tells → (blocks count : ℕ) → address < blocks → IsSound (F.printed print.now) (scratch_of blocks (L.listing lists.now) slots.old count) (R.world rig.old)
        → IfOk result (λ found. Located (F.printed print.now) (scratch_of blocks (L.listing lists.now) slots.old count) (R.world rig.old) (R.world rig.new) address block.new found.0 found.1) }
    ensures others { R.tells → OnlyFlash (R.world rig.old) (R.world rig.new) }
    ensures unread { R.tells → IfErr result (λ fault. LeavesWorld fault (R.world rig.old) (R.world rig.new)) }
    ensures time { R.tells → Elapses (R.clock rig.old) (R.clock rig.new) (IsWithin (R.world rig.old)) }
    ensures blocks { OnlyBlocks slots.old.block (R.counts rig.old) (R.counts rig.new) }
    ensures frame { Frame (R.counts rig.old) (R.counts rig.new) (R.device_size rig.old) (R.device_size rig.new) }
    ensures asks { IfErr result (λ fault. AsksFor slots.old.block (L.listing lists.now).bcap 0 1 (writes_until fault) (R.counts rig.old) (R.counts rig.new)) }
    ensures asks_for { IfOk result (λ found. AsksFor slots.old.block (L.listing lists.now).bcap (slots_at found.0 found.1) (looks_for found.0) (writes_for found.0) (R.counts rig.old) (R.counts rig.new)) }
    ensures cause { IfErr result (λ fault. Faulted fault (R.counts rig.old) (R.counts rig.new)) }
{
    fetch(rig, address, block)?;
    if is_zeros(block) {
        return Ok((Kind::Join, Block::Zero));
    }
    let fp = print.print(block);
    find_or_save(lists, slots, rig, fp, block, other)
}

fn is_zeros(block: &[u8]) -> bool
    ensures { result ≡ is_zero_block block.now }
{
    block.iter().all(|byte| *byte == 0)
}

// A block that isn't zeros, found in a listed slot or put into a free one.
#[tactic(auto, using(crate::proofs::Causes::cause_steps, crate::proofs::Moments::moment_steps))]
fn find_or_save<L: Lists, R: Rig>(
    lists: &L,
    slots: &mut Slots,
    rig: &mut R,
    fp: Fp,
    block: &[u8],
    other: &mut [u8],
) -> Result<(Kind, Block), ScratchFault>
    requires size { (length block.now ≡ slots.old.block) × (length other.old ≡ slots.old.block) }
    requires flash { FitsFlash slots.old (R.device_size rig.old) }
    requires slots { FitsSlots (L.listing lists.now) slots.old }
    ensures given { IfOk result (λ found. IsGiven (L.listing lists.now) found.1) }
    ensures slots { IfOk result (λ found. slots.new ≡ placed found.1 slots.old) }
    ensures kept { OnErr result (slots.new ≡ slots.old) }
    ensures found { R.tells → (print : List ℕ → Print) (blocks count : ℕ) → fp ≡ print block.now → is_zero_block block.now ≡ false
        → IsSound print (scratch_of blocks (L.listing lists.now) slots.old count) (R.world rig.old)
        → IfOk result (λ found. Found print (scratch_of blocks (L.listing lists.now) slots.old count) (R.world rig.old) (R.world rig.new) block.now found.0 found.1) }
    ensures others { R.tells → OnlyFlash (R.world rig.old) (R.world rig.new) }
    ensures unread { R.tells → IfErr result (λ fault. LeavesWorld fault (R.world rig.old) (R.world rig.new)) }
    ensures time { R.tells → Elapses (R.clock rig.old) (R.clock rig.new) (IsWithin (R.world rig.old)) }
    ensures blocks { OnlyBlocks slots.old.block (R.counts rig.old) (R.counts rig.new) }
    ensures frame { Frame (R.counts rig.old) (R.counts rig.new) (R.device_size rig.old) (R.device_size rig.new) }
    ensures asks { IfErr result (λ fault. Asks 0 (up_to (L.listing lists.now).bcap (writes_until fault) (slots.old.block * writes_until fault)) nothing (R.counts rig.old) (R.counts rig.new)) }
    ensures asks_for { IfOk result (λ found. (slots_at found.0 found.1 ≡ 0) × (looks_for found.0 ≡ 1)
        × Asks 0 (up_to (L.listing lists.now).bcap (writes_for found.0) (slots.old.block * writes_for found.0)) nothing (R.counts rig.old) (R.counts rig.new)) }
    ensures cause { IfErr result (λ fault. Faulted fault (R.counts rig.old) (R.counts rig.new)) }
{
    match find(rig, lists, slots, fp, block, other)? {
        Some(slot) => Ok((Kind::Join, Block::Known(slot))),
        None => {
            let slot = save_new(rig, slots, block)?;
            Ok((Kind::Miss, Block::Fresh(BRow { slot, fp })))
        }
    }
}

// Puts a block into a free slot. Where the write fails the slot is free again.
#[tactic(auto, using(crate::proofs::Causes::cause_steps, crate::proofs::Moments::moment_steps))]
fn save_new<R: Rig>(rig: &mut R, slots: &mut Slots, block: &[u8]) -> Result<u32, ScratchFault>
    requires size { length block.now ≡ slots.old.block }
    requires flash { FitsFlash slots.old (R.device_size rig.old) }
    requires free { has_free slots.old ≡ true }
    requires none_waits { (slot : ℕ) → is_waiting (use_of slots.old slot) ≡ false }
    ensures slot { IfOk result (λ slot. use_of slots.old slot ≡ Some Free) }
    ensures slots { IfOk result (λ slot. slots.new ≡ with_use slot Used slots.old) }
    ensures kept { OnErr result (slots.new ≡ slots.old) }
    ensures fault { IfErr result (λ fault. fault ≡ FlashWrite) }
    ensures world { R.tells → IfOk result (λ slot. R.world rig.new ≡ saved slots.old slot block.now (R.world rig.old)) }
    ensures others { R.tells → OnlyFlash (R.world rig.old) (R.world rig.new) }
    ensures time { R.tells → Elapses (R.clock rig.old) (R.clock rig.new) (IsWithin (R.world rig.old)) }
    ensures blocks { OnlyBlocks slots.old.block (R.counts rig.old) (R.counts rig.new) }
    ensures frame { Frame (R.counts rig.old) (R.counts rig.new) (R.device_size rig.old) (R.device_size rig.new) }
    ensures asks { Asks 0 (up_to 0 1 slots.old.block) nothing (R.counts rig.old) (R.counts rig.new) }
    ensures cause { IfErr result (λ fault. Faulted fault (R.counts rig.old) (R.counts rig.new)) }
{
    let slot = take_free(slots);
    match save(rig, slots, slot, block) {
        Ok(()) => Ok(slot),
        Err(fault) => {
            give_back(slots, slot);
            Err(fault)
        }
    }
}

// Takes a slot, where one is free.
fn take_free(slots: &mut Slots) -> u32
    requires { has_free slots.old ≡ true }
    ensures free { use_of slots.old result ≡ Some Free }
    ensures slots { slots.new ≡ with_use result Used slots.old }
{
    match slots.take() {
        Some(slot) => slot,
        None => unreachable!(),
    }
}

// Frees a slot that was taken.
fn give_back(slots: &mut Slots, slot: u32)
    requires { use_of slots.old slot ≡ Some Used }
    ensures { slots.new ≡ settled (with_use slot Waiting slots.old) }
{
    slots.release(slot);
    slots.settle();
}
