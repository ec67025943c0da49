// Rows, taken in where they fit each other.
ghost use Rattle.std.specs.Prelude.{◌≡◌, ◌≤◌, ◌<◌, ◌==◌, ◌&&◌, [], length, IfOk, OnErr};
ghost use Rattle.std.specs.Str.{bytes_eq};
ghost use Rattle.std.specs.List.{AllByRecursion, IsDistinct, list_any};
ghost use Rattle.dd_block.specs.Geometry.{GivesFault};
ghost use Rattle.dd_record.specs.Table.{b_fits, a_fits, link_fits, first_bad, IsDirtyLinked};
ghost use Rattle.dd_meta.specs.Entries.{rows_of};
ghost use Rattle.dd_meta.specs.Keeping.{IsMeta};
ghost use Rattle.dd_model.specs.Listing.{IsListing, IsLinkBelow, dirty_of_rows, MayRestore, misfit_of, restored};
ghost use Rattle.dd_policy.specs.Coupling.{listing_in, taken};

use dd_block::Fp;
use dd_data::DataCache;
use dd_meta::MetaCache;
use dd_model::Misfit;
use dd_record::{ARow, BRow, Link};

// Takes rows into empty lists, or answers the first one that doesn't fit and leaves them empty.
pub(crate) fn take_rows(
    meta: &mut MetaCache,
    blocks: &mut DataCache,
    b: &[BRow],
    a: &[ARow],
) -> Result<(), Misfit>
    requires kept { IsListing (listing_in meta.old blocks.old) }
    requires same { meta.old.slots ≡ blocks.old.slots }
    requires may { MayRestore (listing_in meta.old blocks.old) (record { b = b.now; a = a.now }) }
    ensures ok { IfOk result (λ _. listing_in meta.new blocks.new ≡ restored (record { b = b.now; a = a.now }) (listing_in meta.old blocks.old)) }
    ensures fault { GivesFault result (misfit_of (record { b = b.now; a = a.now })) }
    ensures refused { OnErr result (listing_in meta.new blocks.new ≡ listing_in meta.old blocks.old) }
    ensures slots { meta.new.slots ≡ meta.old.slots }
    ensures keeps { IsMeta meta.new }
{
    let _ = meta.len();
    match take_blocks(blocks, b) {
        Some(index) => Err(Misfit { in_a: false, index }),
        None => match take_addresses(meta, blocks, a) {
            Some(index) => {
                clear_blocks(blocks);
                Err(Misfit { in_a: true, index })
            }
            None => Ok(()),
        },
    }
}

// Takes blocks into an empty list, or answers the first one whose slot an earlier one has.
fn take_blocks(blocks: &mut DataCache, b: &[BRow]) -> Option<u32>
    requires empty { blocks.old.rows ≡ [] }
    requires room { length b.now ≤ blocks.old.bcap }
    requires below { AllByRecursion (λ row. row.slot < blocks.old.slots) b.now }
    ensures bad { result ≡ first_bad b_fits [] 0 b.now }
    ensures after { blocks.new ≡ record blocks.old { rows = taken result b.now } }
{
    match find_bad_block(blocks, b) {
        Some(index) => {
            clear_blocks(blocks);
            Some(index)
        }
        None => {
            clear_blocks(blocks);
            fill_blocks(blocks, b);
            None
        }
    }
}

// Takes addresses into an empty list, or answers the first one that an earlier one has, or whose link
// doesn't fit the blocks.
fn take_addresses(meta: &mut MetaCache, blocks: &DataCache, a: &[ARow]) -> Option<u32>
    requires empty { rows_of meta.old ≡ [] }
    requires room { length a.now ≤ meta.old.acap }
    requires below { AllByRecursion (λ row. IsLinkBelow meta.old.slots row.link) a.now }
    requires linked { AllByRecursion IsDirtyLinked a.now }
    ensures bad { result ≡ first_bad (a_fits blocks.now.rows) [] 0 a.now }
    ensures rows { rows_of meta.new ≡ taken result a.now }
    ensures dirty { meta.new.dirty ≡ dirty_of_rows (taken result a.now) }
    ensures acap { meta.new.acap ≡ meta.old.acap }
    ensures slots { meta.new.slots ≡ meta.old.slots }
    ensures keeps { IsMeta meta.new }
{
    let _ = blocks.len();
    match find_bad_address(meta, blocks, a) {
        Some(index) => {
            meta.clear();
            Some(index)
        }
        None => {
            meta.clear();
            meta.fill(a);
            None
        }
    }
}

// The first block whose slot an earlier one has. Those before it are listed then.
fn find_bad_block(blocks: &mut DataCache, b: &[BRow]) -> Option<u32>
    requires empty { blocks.old.rows ≡ [] }
    requires room { length b.now ≤ blocks.old.bcap }
    requires below { AllByRecursion (λ row. row.slot < blocks.old.slots) b.now }
    ensures bad { result ≡ first_bad b_fits [] 0 b.now }
    ensures bcap { blocks.new.bcap ≡ blocks.old.bcap }
    ensures slots { blocks.new.slots ≡ blocks.old.slots }
{
    for row in b {
        if blocks.find(row.slot).is_some() {
            return Some(blocks.len());
        }
        blocks.front_new(*row);
    }
    None
}

// Takes all blocks away.
fn clear_blocks(blocks: &mut DataCache)
    ensures { blocks.new ≡ record blocks.old { rows = [] } }
{
    while blocks.len() > 0 {
        blocks.drop_back();
    }
}

// Takes blocks into an empty list, the first of them in front.
fn fill_blocks(blocks: &mut DataCache, b: &[BRow])
    requires empty { blocks.old.rows ≡ [] }
    requires room { length b.now ≤ blocks.old.bcap }
    requires below { AllByRecursion (λ row. row.slot < blocks.old.slots) b.now }
    requires apart { IsDistinct (λ x y. x.slot == y.slot) b.now }
    ensures { blocks.new ≡ record blocks.old { rows = b.now } }
{
    for at in (0..b.len()).rev() {
        blocks.front_new(b[at]);
    }
}

// The first address that an earlier one has, or whose link doesn't fit. Those before it are listed then.
fn find_bad_address(meta: &mut MetaCache, blocks: &DataCache, a: &[ARow]) -> Option<u32>
    requires empty { rows_of meta.old ≡ [] }
    requires room { length a.now ≤ meta.old.acap }
    requires below { AllByRecursion (λ row. IsLinkBelow meta.old.slots row.link) a.now }
    requires linked { AllByRecursion IsDirtyLinked a.now }
    ensures bad { result ≡ first_bad (a_fits blocks.now.rows) [] 0 a.now }
    ensures acap { meta.new.acap ≡ meta.old.acap }
    ensures slots { meta.new.slots ≡ meta.old.slots }
{
    for row in a {
        if meta.look(row.address).is_some() {
            return Some(meta.len());
        }
        if !link_fits(blocks, *row) {
            return Some(meta.len());
        }
        meta.front(row.address, row.link, row.dirty, row.fp);
    }
    None
}

// The slot of a row, where it has one, is that of a listed block with the same fingerprint.
fn link_fits(blocks: &DataCache, row: ARow) -> bool
    ensures { result ≡ link_fits blocks.now.rows row }
{
    match row.link {
        Link::Slot(slot) => has_block(blocks, slot, row.fp),
        Link::Lost | Link::Zero => true,
    }
}

// Whether the slot is that of a listed block with this fingerprint.
fn has_block(blocks: &DataCache, slot: u32, fp: Fp) -> bool
    ensures { result ≡ list_any (λ block. block.slot == slot && bytes_eq block.fp.0 fp.0) blocks.now.rows }
{
    let _ = blocks.len();
    match blocks.find(slot) {
        Some(block) => is_like(block, fp),
        None => false,
    }
}

fn is_like(block: BRow, fp: Fp) -> bool
    ensures { result ≡ bytes_eq block.fp.0 fp.0 }
{
    block.fp == fp
}
