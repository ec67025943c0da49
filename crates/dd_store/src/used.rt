// The slots of listed blocks.
ghost use Rattle.std.specs.Prelude.{◌≡◌, ◌<◌, ℕ, IfOk};
ghost use Rattle.std.specs.List.{AllByRecursion};
ghost use Rattle.dd_slots.specs.Numbers.{is_among};
ghost use Rattle.dd_record.specs.Table.{has_slot};

use dd_model::Lists;
use std::alloc::{AllocError, Global};

// The slots below a number that are listed. It takes memory for four bytes a slot.
pub(crate) fn used_slots<L: Lists>(
    alloc: Global,
    lists: &L,
    count: u32,
) -> Result<Vec<u32>, AllocError>
    ensures below { IfOk result (λ used. AllByRecursion (λ slot. slot < count) used.items) }
    ensures each { IfOk result (λ used. (slot : ℕ) → slot < count → is_among slot used.items ≡ has_slot slot (L.listing lists.now).table.b) }
{
    let mut used = Vec::with_capacity(alloc, count as usize)?;
    for slot in 0..count {
        if is_listed(lists, slot) {
            used.push_reserved(slot);
        }
    }
    Ok(used)
}

fn is_listed<L: Lists>(lists: &L, slot: u32) -> bool
    ensures { result ≡ has_slot slot (L.listing lists.now).table.b }
{
    match lists.block(slot) {
        None => false,
        Some(_) => true,
    }
}
