// A reference, in the metadata cache and in both.
ghost use Rattle.std.specs.Prelude.{◌≡◌, ◌<◌, ◌∷◌, None, true, false, IsTrue, map, take, filter, length, not, ◌==◌, option_map, IfSome, ◌||◌};
ghost use Rattle.std.specs.List.{AllByRecursion};
ghost use Rattle.dd_record.specs.Table.{a_row, is_slot, is_dirty_at};
ghost use Rattle.dd_record.specs.Replay.{a_moved, cut_address, is_clean_cut, unlinked_from};
ghost use Rattle.dd_meta.specs.Entries.{rows_of, is_listed_address};
ghost use Rattle.dd_meta.specs.Keeping.{IsMeta};
ghost use Rattle.dd_model.specs.Listing.{IsListing, IsGiven, touch_by, may_refer, referred, cut_of, dirtied, last_of_full};
ghost use Rattle.dd_policy.specs.Coupling.{listing_in, roomy_for, out_for};

use crate::blocks::{bring_block, row_of};
use crate::renewing::{renew_both, renewed_slot};
use dd_data::DataCache;
use dd_meta::MetaCache;
use dd_model::{Block, Cut, link_to, print_beside};
use dd_record::BRow;

// The block and the address to the front. What finds no room falls off, and the links to the block that
// does are gone.
pub(crate) fn touch_both(
    meta: &mut MetaCache,
    blocks: &mut DataCache,
    address: u32,
    block: Block,
    dirty: bool,
) -> Cut
    requires kept { IsListing (listing_in meta.old blocks.old) }
    requires same { meta.old.slots ≡ blocks.old.slots }
    requires block { IsGiven (listing_in meta.old blocks.old) block }
    requires clean { IsTrue (may_refer (touch_by address block dirty (listing_in meta.old blocks.old)) (listing_in meta.old blocks.old)) }
    ensures after { listing_in meta.new blocks.new ≡ referred (touch_by address block dirty (listing_in meta.old blocks.old)) (listing_in meta.old blocks.old) }
    ensures cut { result ≡ cut_of (touch_by address block dirty (listing_in meta.old blocks.old)) (listing_in meta.old blocks.old) }
    ensures slots { meta.new.slots ≡ meta.old.slots }
    ensures keeps { IsMeta meta.new }
{
    match renewed_slot(meta, address, block, dirty) {
        Some(slot) => renew_both(meta, blocks, address, slot),
        None => refer_both(meta, blocks, address, block, dirty),
    }
}

// The same, whatever the address was linked to.
fn refer_both(
    meta: &mut MetaCache,
    blocks: &mut DataCache,
    address: u32,
    block: Block,
    dirty: bool,
) -> Cut
    requires kept { IsListing (listing_in meta.old blocks.old) }
    requires same { meta.old.slots ≡ blocks.old.slots }
    requires block { IsGiven (listing_in meta.old blocks.old) block }
    requires clean { IsTrue (may_refer (touch_by address block dirty (listing_in meta.old blocks.old)) (listing_in meta.old blocks.old)) }
    ensures after { listing_in meta.new blocks.new ≡ referred (touch_by address block dirty (listing_in meta.old blocks.old)) (listing_in meta.old blocks.old) }
    ensures cut { result ≡ cut_of (touch_by address block dirty (listing_in meta.old blocks.old)) (listing_in meta.old blocks.old) }
    ensures slots { meta.new.slots ≡ meta.old.slots }
    ensures keeps { IsMeta meta.new }
{
    let row = row_of(blocks, block);
    let drop = bring_block(blocks, block);
    let out = refer(meta, address, row, dirty);
    unlink(meta, drop);
    Cut { out, drop }
}

// The address to the front, linked to the block, or to zeros where there is none.
fn refer(meta: &mut MetaCache, address: u32, block: Option<BRow>, dirty: bool) -> Option<u32>
    requires below { IfSome block (λ row. row.slot < meta.old.slots) }
    requires clean { is_clean_cut (cut_address meta.old.acap (record { address = address; block = block; dirty = dirty }) (rows_of meta.old)) ≡ true }
    ensures rows { rows_of meta.new ≡ take meta.old.acap (a_moved (record { address = address; block = block; dirty = dirty }) (rows_of meta.old)) }
    ensures out { result ≡ option_map (λ row. row.address) (cut_address meta.old.acap (record { address = address; block = block; dirty = dirty }) (rows_of meta.old)) }
    ensures dirty { meta.new.dirty ≡ dirtied address dirty meta.old.dirty }
    ensures acap { meta.new.acap ≡ meta.old.acap }
    ensures slots { meta.new.slots ≡ meta.old.slots }
    ensures keeps { IsMeta meta.new }
{
    let dirty_now = is_dirty_then(meta, address, dirty);
    let out = make_room(meta, address);
    meta.front(address, link_to(block), dirty_now, print_beside(block));
    out
}

// Whether an address is dirty where it becomes so or not.
fn is_dirty_then(meta: &MetaCache, address: u32, dirty: bool) -> bool
    ensures is { result ≡ (dirty || is_dirty_at address (rows_of meta.now)) }
    ensures keeps { IsMeta meta.now }
{
    let _ = meta.len();
    dirty || is_dirty(meta, address)
}

// Whether an address is dirty.
fn is_dirty(meta: &MetaCache, address: u32) -> bool
    ensures { result ≡ is_dirty_at address (rows_of meta.now) }
{
    match meta.look(address) {
        Some(row) => row.dirty,
        None => false,
    }
}

// Takes the last address away where this one isn't listed and the list is full.
fn make_room(meta: &mut MetaCache, address: u32) -> Option<u32>
    requires { a_row address (rows_of meta.old) ≡ None → IfSome (last_of_full meta.old.acap (rows_of meta.old)) (λ row. row.dirty ≡ false) }
    ensures rows { rows_of meta.new ≡ roomy_for address meta.old.acap (rows_of meta.old) }
    ensures out { result ≡ out_for address meta.old.acap (rows_of meta.old) }
    ensures room { is_listed_address address meta.new ≡ false → length meta.new.entries < meta.new.acap }
    ensures dirty { meta.new.dirty ≡ meta.old.dirty }
    ensures acap { meta.new.acap ≡ meta.old.acap }
    ensures slots { meta.new.slots ≡ meta.old.slots }
{
    let _ = meta.len();
    match meta.victim(address) {
        Some(out) => {
            meta.drop_back();
            Some(out)
        }
        None => None,
    }
}

// Takes the links to a block that fell off.
fn unlink(meta: &mut MetaCache, drop: Option<BRow>)
    requires below { IfSome drop (λ row. row.slot < meta.old.slots) }
    requires clean { IfSome drop (λ cut. AllByRecursion (λ row. is_slot cut.slot row.link ≡ true → row.dirty ≡ false) (rows_of meta.old)) }
    ensures rows { rows_of meta.new ≡ map (unlinked_from drop) (rows_of meta.old) }
    ensures dirty { meta.new.dirty ≡ meta.old.dirty }
    ensures acap { meta.new.acap ≡ meta.old.acap }
    ensures slots { meta.new.slots ≡ meta.old.slots }
    ensures keeps { IsMeta meta.new }
{
    let _ = meta.len();
    match drop {
        Some(row) => meta.unlink_all(row.slot),
        None => {}
    }
}
