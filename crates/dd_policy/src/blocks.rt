// The block of a reference, in the data cache.
ghost use Rattle.std.specs.Prelude.{◌≡◌, ◌<◌, IsTrue, [], is_some, None, Some, length, if◌then◌else◌};
ghost use Rattle.dd_record.specs.Table.{b_row};
ghost use Rattle.dd_record.specs.Replay.{b_after, cut_block};
ghost use Rattle.dd_model.specs.Listing.{row_of, is_fresh, IsGiven, last_of_full, listing_of};
ghost use Rattle.dd_policy.specs.Coupling.{roomy};

use dd_data::DataCache;
use dd_model::{Block, Want};
use dd_record::BRow;

// The row of the block that is referenced; zeros have none.
pub(crate) fn row_of(blocks: &DataCache, block: Block) -> Option<BRow>
    ensures { result ≡ row_of block blocks.now.rows }
{
    match block {
        Block::Known(slot) => blocks.find(slot),
        Block::Fresh(row) => Some(row),
        Block::Zero => None,
    }
}

// The block in front, and the one that falls off; zeros change nothing.
pub(crate) fn bring_block(blocks: &mut DataCache, block: Block) -> Option<BRow>
    requires { IsGiven (listing_of 0 blocks.old.bcap blocks.old.slots blocks.old.rows [] []) block }
    ensures after { blocks.new ≡ record blocks.old { rows = b_after blocks.old.bcap (row_of block blocks.old.rows) blocks.old.rows } }
    ensures drop { result ≡ cut_block blocks.old.bcap (row_of block blocks.old.rows) blocks.old.rows }
{
    match block {
        Block::Known(slot) => {
            bring_known(blocks, slot);
            None
        }
        Block::Fresh(row) => bring_fresh(blocks, row),
        Block::Zero => None,
    }
}

// A listed block to the front. None falls off.
pub(crate) fn bring_known(blocks: &mut DataCache, slot: u32)
    requires { IsTrue (is_some (b_row slot blocks.old.rows)) }
    ensures after { blocks.new ≡ record blocks.old { rows = b_after blocks.old.bcap (b_row slot blocks.old.rows) blocks.old.rows } }
    ensures drop { cut_block blocks.old.bcap (b_row slot blocks.old.rows) blocks.old.rows ≡ None }
{
    let _ = blocks.len();
    blocks.front_known(slot);
}

// A block that isn't listed to the front. The last one falls off where the list is full.
fn bring_fresh(blocks: &mut DataCache, row: BRow) -> Option<BRow>
    requires slot { row.slot < blocks.old.slots }
    requires fresh { b_row row.slot blocks.old.rows ≡ None }
    ensures after { blocks.new ≡ record blocks.old { rows = b_after blocks.old.bcap (Some row) blocks.old.rows } }
    ensures drop { result ≡ cut_block blocks.old.bcap (Some row) blocks.old.rows }
{
    let _ = blocks.len();
    let drop = make_room(blocks);
    blocks.front_new(row);
    drop
}

// Takes the last block away where the list is full.
fn make_room(blocks: &mut DataCache) -> Option<BRow>
    ensures after { blocks.new ≡ record blocks.old { rows = roomy blocks.old.bcap blocks.old.rows } }
    ensures drop { result ≡ last_of_full blocks.old.bcap blocks.old.rows }
    ensures room { length blocks.new.rows < blocks.new.bcap }
{
    let _ = blocks.len();
    match blocks.victim() {
        Some(_) => Some(blocks.drop_back()),
        None => None,
    }
}

// The block that would fall off for one that is wanted so.
pub(crate) fn victim(blocks: &DataCache, want: Want) -> Option<BRow>
    ensures { result ≡ (if is_fresh want then last_of_full blocks.now.bcap blocks.now.rows else None) }
{
    match want {
        Want::Fresh => blocks.victim(),
        Want::Slot(_) | Want::Zero => None,
    }
}
