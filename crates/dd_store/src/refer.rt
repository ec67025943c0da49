// A reference moves the rows.
ghost use Rattle.std.specs.Prelude.{◌≡◌, ◌<◌, ◌++◌, ◌∷◌, [], IfSome, IsTrue, Some, vec_len, vec_capacity};
ghost use Rattle.dd_slots.specs.declared.usage.Usage.TheVariants.{Used};
ghost use Rattle.dd_slots.specs.Slots.{use_of};
ghost use Rattle.dd_model.specs.Listing.{IsGiven, touch_by, may_refer, referred, cut_of};
ghost use Rattle.dd_store.specs.Referring.{let_go, slots_let_go};

use dd_model::{Block, Cut, Lists};
use dd_record::{BRow, Rec};
use dd_slots::Slots;

// References an address: the rows move, the slot of the block that fell off waits for a commit, and the
// record is pending.
pub(crate) fn refer<L: Lists>(
    lists: &mut L,
    slots: &mut Slots,
    pending: &mut Vec<Rec>,
    address: u32,
    block: Block,
    dirty: bool,
    its: Rec,
) -> Cut
    requires block { IsGiven (L.listing lists.old) block }
    requires clean { IsTrue (may_refer (touch_by address block dirty (L.listing lists.old)) (L.listing lists.old)) }
    requires used { IfSome (cut_of (touch_by address block dirty (L.listing lists.old)) (L.listing lists.old)).drop (λ row. use_of slots.old row.slot ≡ Some Used) }
    requires room { vec_len pending.old < vec_capacity pending.old }
    ensures cut { result ≡ cut_of (touch_by address block dirty (L.listing lists.old)) (L.listing lists.old) }
    ensures lists { L.listing lists.new ≡ referred (touch_by address block dirty (L.listing lists.old)) (L.listing lists.old) }
    ensures slots { slots.new ≡ slots_let_go (cut_of (touch_by address block dirty (L.listing lists.old)) (L.listing lists.old)).drop slots.old }
    ensures pending { pending.new.items ≡ pending.old.items ++ its ∷ [] }
    ensures capacity { vec_capacity pending.new ≡ vec_capacity pending.old }
{
    let cut = lists.touch(address, block, dirty);
    let_go(slots, cut.drop);
    pending.push_reserved(its);
    cut
}

// The slot of a block that fell off waits.
fn let_go(slots: &mut Slots, drop: Option<BRow>)
    requires { IfSome drop (λ row. use_of slots.old row.slot ≡ Some Used) }
    ensures { slots.new ≡ slots_let_go drop slots.old }
{
    match drop {
        None => {}
        Some(row) => slots.release(row.slot),
    }
}
