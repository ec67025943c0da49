// A reference to the block that an address is linked to already.
ghost use Rattle.std.specs.Prelude.{◌≡◌, false};
ghost use Rattle.dd_record.specs.declared.row.Link.TheVariants as links;
ghost use Rattle.dd_record.specs.Table.{a_row, link_at};
ghost use Rattle.dd_meta.specs.Entries.{rows_of};
ghost use Rattle.dd_meta.specs.Keeping.{IsMeta};
ghost use Rattle.dd_model.specs.declared.given.Block.TheVariants.{Known};
ghost use Rattle.dd_model.specs.Listing.{IsListing, touch_by, referred, cut_of};
ghost use Rattle.dd_policy.specs.Coupling.{listing_in, is_renewed, renewed_slot};

use crate::blocks::bring_known;
use dd_data::DataCache;
use dd_meta::MetaCache;
use dd_model::{Block, Cut};
use dd_record::Link;

// The slot of the block, where the address is linked to it already and its row stays as it is.
pub(crate) fn renewed_slot(meta: &MetaCache, address: u32, block: Block, dirty: bool) -> Option<u32>
    ensures { result ≡ renewed_slot block dirty (a_row address (rows_of meta.now)) }
{
    match block {
        Block::Known(slot) => {
            if is_renewed(meta, address, slot, dirty) {
                Some(slot)
            } else {
                None
            }
        }
        Block::Fresh(_) | Block::Zero => None,
    }
}

// Whether an address is linked to this slot already, and is dirty where it becomes so.
fn is_renewed(meta: &MetaCache, address: u32, slot: u32, dirty: bool) -> bool
    ensures { result ≡ is_renewed slot dirty (a_row address (rows_of meta.now)) }
{
    match meta.look(address) {
        Some(row) => match row.link {
            Link::Slot(other) => other == slot && (!dirty || row.dirty),
            Link::Lost | Link::Zero => false,
        },
        None => false,
    }
}

// The block and the address to the front, whose rows stay. Nothing falls off.
pub(crate) fn renew_both(
    meta: &mut MetaCache,
    blocks: &mut DataCache,
    address: u32,
    slot: u32,
) -> Cut
    requires kept { IsListing (listing_in meta.old blocks.old) }
    requires linked { link_at address (rows_of meta.old) ≡ links.Slot slot }
    ensures after { listing_in meta.new blocks.new ≡ referred (touch_by address (Known slot) false (listing_in meta.old blocks.old)) (listing_in meta.old blocks.old) }
    ensures cut { result ≡ cut_of (touch_by address (Known slot) false (listing_in meta.old blocks.old)) (listing_in meta.old blocks.old) }
    ensures slots { meta.new.slots ≡ meta.old.slots }
    ensures keeps { IsMeta meta.new }
{
    bring_known(blocks, slot);
    meta.renew(address);
    Cut {
        out: None,
        drop: None,
    }
}
