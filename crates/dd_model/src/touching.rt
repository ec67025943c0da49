// A reference, on vectors of rows.
ghost use Rattle.std.specs.Prelude.{◌≡◌, ◌<◌, ◌≤◌, ◌∷◌, ◌++◌, ◌&&◌, not, [], true, if◌then◌else◌, vec_len, vec_capacity};
ghost use Rattle.dd_record.specs.Table.{is_dirty_at};
ghost use Rattle.dd_record.specs.Replay.{b_after, cut_block, touched, link_to, print_beside, linked_row};
ghost use Rattle.dd_model.specs.Listing.{listing_of, row_of, cut_by, is_fresh, victims_of};

use crate::vectors::{
    find_address, find_slot, is_dirty, last_of_full, move_address, move_row, unlink,
};
use crate::{Block, Cut, Victims, Want};
use dd_block::Fp;
use dd_record::{ARow, BRow, Link};

// The row of the block that is referenced; zeros have none.
pub(crate) fn row_of(rows: &[BRow], block: Block) -> Option<BRow>
    ensures { result ≡ row_of block rows.now }
{
    match block {
        Block::Known(slot) => find_slot(rows, slot),
        Block::Fresh(row) => Some(row),
        Block::Zero => None,
    }
}

/// The link to the block of a reference; none is the block of zeros.
pub fn link_to(block: Option<BRow>) -> Link
    ensures { result ≡ link_to block }
{
    match block {
        None => Link::Zero,
        Some(row) => Link::Slot(row.slot),
    }
}

/// The fingerprint beside that link; zeros beside the block of zeros.
pub fn print_beside(block: Option<BRow>) -> Fp
    ensures { result ≡ print_beside block }
{
    match block {
        None => Fp([0; 32]),
        Some(row) => row.fp,
    }
}

// The address linked to what is referenced, and dirty where it becomes so or was so.
fn linked(rows: &[ARow], address: u32, block: Option<BRow>, dirty: bool) -> ARow
    ensures { result ≡ linked_row (record { address = address; block = block; dirty = dirty }) rows.now }
{
    ARow {
        address,
        link: link_to(block),
        dirty: dirty || is_dirty(rows, address),
        fp: print_beside(block),
    }
}

// The block in front, and the one that falls off; zeros change nothing.
fn move_block(rows: &mut Vec<BRow>, block: Option<BRow>, most: usize) -> Option<BRow>
    requires short { vec_len rows.old ≤ most }
    requires room { most < vec_capacity rows.old }
    ensures rows { rows.new.items ≡ b_after most block rows.old.items }
    ensures cut { result ≡ cut_block most block rows.old.items }
    ensures capacity { vec_capacity rows.old ≤ vec_capacity rows.new }
{
    match block {
        None => None,
        Some(row) => move_row(rows, row, most),
    }
}

// The block and the address go to the front, both lists are cut, and the links to the block that fell
// off are gone.
pub(crate) fn touch_rows(
    acap: u32,
    bcap: u32,
    b: &mut Vec<BRow>,
    a: &mut Vec<ARow>,
    address: u32,
    block: Option<BRow>,
    dirty: bool,
) -> Cut
    requires b_short { vec_len b.old ≤ bcap }
    requires b_room { bcap < vec_capacity b.old }
    requires a_short { vec_len a.old ≤ acap }
    requires a_room { acap < vec_capacity a.old }
    ensures b_rows { b.new.items ≡ (touched acap bcap (record { address = address; block = block; dirty = dirty }) (record { b = b.old.items; a = a.old.items })).b }
    ensures a_rows { a.new.items ≡ (touched acap bcap (record { address = address; block = block; dirty = dirty }) (record { b = b.old.items; a = a.old.items })).a }
    ensures cut { result ≡ cut_by acap bcap (record { address = address; block = block; dirty = dirty }) (record { b = b.old.items; a = a.old.items }) }
    ensures b_capacity { vec_capacity b.old ≤ vec_capacity b.new }
    ensures a_capacity { vec_capacity a.old ≤ vec_capacity a.new }
{
    let moved = linked(a, address, block, dirty);
    let drop = move_block(b, block, bcap as usize);
    let out = move_address(a, moved, acap as usize);
    unlink(a, drop);
    Cut {
        out: out.map(|row| row.address),
        drop,
    }
}

// Whether the address becomes dirty and wasn't so.
pub(crate) fn is_new(rows: &[ARow], address: u32, dirty: bool) -> bool
    ensures { result ≡ (dirty && not (is_dirty_at address rows.now)) }
{
    dirty && !is_dirty(rows, address)
}

// The address that is new among the dirty ones is the newest.
pub(crate) fn mark_dirty(dirty: &mut Vec<u32>, address: u32, new: bool)
    requires { new ≡ true → vec_len dirty.old < vec_capacity dirty.old }
    ensures dirty { dirty.new.items ≡ (if new then dirty.old.items ++ address ∷ [] else dirty.old.items) }
    ensures capacity { vec_capacity dirty.new ≡ vec_capacity dirty.old }
{
    if new {
        dirty.push_reserved(address);
    }
}

// What the next touch lets fall off.
pub(crate) fn victims_in(
    acap: u32,
    bcap: u32,
    b: &[BRow],
    a: &[ARow],
    address: u32,
    want: Want,
) -> Victims
    ensures { result ≡ victims_of address want (listing_of acap bcap 0 b.now a.now []) }
{
    let out = match find_address(a, address) {
        Some(_) => None,
        None => last_of_full(a, acap).map(|row| row.address),
    };
    let drop = if is_fresh(want) {
        last_of_full(b, bcap)
    } else {
        None
    };
    Victims { out, drop }
}

// Whether a block that isn't listed is wanted.
fn is_fresh(want: Want) -> bool
    ensures { result ≡ is_fresh want }
{
    match want {
        Want::Fresh => true,
        Want::Slot(_) | Want::Zero => false,
    }
}
