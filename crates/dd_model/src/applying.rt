// Records, applied to lists.
ghost use Rattle.std.specs.Prelude.{◌≡◌, ◌<◌, ◌&&◌, ◌||◌, not, [], ℕ, Bool, is_none, is_some, Some, None, MatchOption};
ghost use Rattle.dd_record.specs.declared.rec.Rec.TheVariants.{Hit, Link as ToSlot, Store, Zero, Clean};
ghost use Rattle.dd_record.specs.Table.{b_row, is_link, link_at, is_dirty_at};
ghost use Rattle.dd_record.specs.Replay.{after_rec};
ghost use Rattle.dd_model.specs.Listing.{IsGiven, want_of, touch_by, may_refer};
ghost use Rattle.dd_model.specs.Applying.{is_dirty_out, is_referred, by_touch, applied, IsApplied, IsSlotBelow, SameLimits};

use crate::{Block, Cut, Lists, Want, is_link};
use dd_record::{BRow, Link, Rec};

/// Whether a reference of the address with that block lets nothing dirty fall off: `touch` may be
/// called then.
pub fn may_touch<L: Lists>(lists: &L, address: u32, block: Block) -> bool
    requires { IsGiven (L.listing lists.now) block }
    ensures { (dirty : Bool) → result ≡ may_refer (touch_by address block dirty (L.listing lists.now)) (L.listing lists.now) }
{
    let victims = lists.victims(address, want_of(block));
    let out = is_dirty_out(lists, victims.out);
    let drop = is_referred(lists, victims.drop, address);
    is_neither(out, drop)
}

fn is_neither(out: bool, drop: bool) -> bool
    ensures { result ≡ (not out && not drop) }
{
    !out && !drop
}

fn want_of(block: Block) -> Want
    ensures { result ≡ want_of block }
{
    match block {
        Block::Known(slot) => Want::Slot(slot),
        Block::Fresh(_) => Want::Fresh,
        Block::Zero => Want::Zero,
    }
}

// Whether an address is dirty.
fn is_dirty<L: Lists>(lists: &L, address: u32) -> bool
    ensures { result ≡ is_dirty_at address (L.listing lists.now).table.a }
{
    match lists.look(address) {
        None => false,
        Some(row) => row.dirty,
    }
}

// Whether an address that falls off is dirty.
fn is_dirty_out<L: Lists>(lists: &L, out: Option<u32>) -> bool
    ensures { result ≡ is_dirty_out (L.listing lists.now).table.a out }
{
    match out {
        None => false,
        Some(address) => is_dirty(lists, address),
    }
}

// Whether a block that falls off has a dirty address linked to it, other than `skip`.
fn is_referred<L: Lists>(lists: &L, drop: Option<BRow>, skip: u32) -> bool
    ensures { result ≡ is_referred skip (L.listing lists.now).table.a drop }
{
    match drop {
        None => false,
        Some(block) => has_referrer(lists, block.slot, skip),
    }
}

fn has_referrer<L: Lists>(lists: &L, slot: u32, skip: u32) -> bool
    ensures { result ≡ is_referred skip (L.listing lists.now).table.a (Some (record { slot = slot; fp = record { 0 = [] } })) }
{
    lists.dirty_of(slot, skip).is_some()
}

// The link of an address.
fn link_at<L: Lists>(lists: &L, address: u32) -> Link
    ensures { result ≡ link_at address (L.listing lists.now).table.a }
{
    match lists.look(address) {
        None => Link::Lost,
        Some(row) => row.link,
    }
}

/// Applies a record, as replay does, where it fits: it answers what fell off. Else nothing changes, and
/// it answers None. Its cost is that of the calls of the lists.
pub fn apply<L: Lists>(lists: &mut L, rec: Rec) -> Option<Cut>
    requires { IsSlotBelow (L.listing lists.old).slots rec }
    ensures applied { IsApplied (applied rec (L.listing lists.old)) (L.listing lists.old) (L.listing lists.new) result }
    ensures replay { MatchOption result
        (after_rec (L.listing lists.old).acap (L.listing lists.old).bcap rec (L.listing lists.old).table ≡ None)
        (λ cut. after_rec (L.listing lists.old).acap (L.listing lists.old).bcap rec (L.listing lists.old).table ≡ Some (L.listing lists.new).table) }
    ensures limits { SameLimits (L.listing lists.old) (L.listing lists.new) }
{
    apply_record(lists, rec)
}

fn apply_record<L: Lists>(lists: &mut L, rec: Rec) -> Option<Cut>
    requires { IsSlotBelow (L.listing lists.old).slots rec }
    ensures { IsApplied (applied rec (L.listing lists.old)) (L.listing lists.old) (L.listing lists.new) result }
{
    match rec {
        Rec::Hit { address } => apply_hit(lists, address),
        Rec::Link {
            address,
            slot,
            dirty,
        } => apply_link(lists, address, slot, dirty),
        Rec::Store {
            address,
            slot,
            fp,
            dirty,
        } => apply_store(lists, address, BRow { slot, fp }, dirty),
        Rec::Zero { address, dirty } => apply_zero(lists, address, dirty),
        Rec::Clean { address } => apply_clean(lists, address),
    }
}

// A touch, where nothing dirty falls off.
fn try_touch<L: Lists>(lists: &mut L, address: u32, block: Block, dirty: bool) -> Option<Cut>
    requires { IsGiven (L.listing lists.old) block }
    ensures { IsApplied (by_touch (L.listing lists.old) (touch_by address block dirty (L.listing lists.old))) (L.listing lists.old) (L.listing lists.new) result }
{
    if may_touch(lists, address, block) {
        Some(lists.touch(address, block, dirty))
    } else {
        None
    }
}

fn apply_hit<L: Lists>(lists: &mut L, address: u32) -> Option<Cut>
    ensures { IsApplied (applied (Hit address) (L.listing lists.old)) (L.listing lists.old) (L.listing lists.new) result }
{
    match link_at(lists, address) {
        Link::Lost => None,
        Link::Slot(slot) => try_touch(lists, address, Block::Known(slot), false),
        Link::Zero => try_touch(lists, address, Block::Zero, false),
    }
}

// Whether an address may be linked by a record that isn't that of a hit.
fn may_link<L: Lists>(lists: &L, address: u32, dirty: bool) -> bool
    ensures { result ≡ (dirty || not (is_link (link_at address (L.listing lists.now).table.a))) }
{
    dirty || !is_link(link_at(lists, address))
}

fn is_slot_listed<L: Lists>(lists: &L, slot: u32) -> bool
    ensures { result ≡ is_some (b_row slot (L.listing lists.now).table.b) }
{
    lists.block(slot).is_some()
}

fn apply_link<L: Lists>(lists: &mut L, address: u32, slot: u32, dirty: bool) -> Option<Cut>
    ensures { IsApplied (applied (ToSlot address slot dirty) (L.listing lists.old)) (L.listing lists.old) (L.listing lists.new) result }
{
    if !may_link(lists, address, dirty) {
        return None;
    }
    if is_slot_listed(lists, slot) {
        try_touch(lists, address, Block::Known(slot), dirty)
    } else {
        None
    }
}

fn apply_store<L: Lists>(lists: &mut L, address: u32, row: BRow, dirty: bool) -> Option<Cut>
    requires { row.slot < (L.listing lists.old).slots }
    ensures { IsApplied (applied (Store address row.slot row.fp dirty) (L.listing lists.old)) (L.listing lists.old) (L.listing lists.new) result }
{
    if !may_link(lists, address, dirty) {
        return None;
    }
    if is_slot_listed(lists, row.slot) {
        None
    } else {
        try_touch(lists, address, Block::Fresh(row), dirty)
    }
}

fn apply_zero<L: Lists>(lists: &mut L, address: u32, dirty: bool) -> Option<Cut>
    ensures { IsApplied (applied (Zero address dirty) (L.listing lists.old)) (L.listing lists.old) (L.listing lists.new) result }
{
    if may_link(lists, address, dirty) {
        try_touch(lists, address, Block::Zero, dirty)
    } else {
        None
    }
}

fn apply_clean<L: Lists>(lists: &mut L, address: u32) -> Option<Cut>
    ensures { IsApplied (applied (Clean address) (L.listing lists.old)) (L.listing lists.old) (L.listing lists.new) result }
{
    if is_dirty(lists, address) {
        lists.set_clean(address);
        Some(Cut {
            out: None,
            drop: None,
        })
    } else {
        None
    }
}
