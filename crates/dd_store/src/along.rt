// Walks along dirty addresses.
ghost use Rattle.std.specs.Prelude.{◌≡◌, ◌≤◌, [], take, vec_capacity};
ghost use Rattle.dd_model.specs.Listing.{IsWalked, next_of};
ghost use Rattle.dd_store.specs.Rounds.{walk_of};

use dd_model::Lists;

// Which dirty addresses a round of write-back takes, and in which order.
#[derive(Clone, Copy)]
pub(crate) enum Along {
    // all of them, the one that became dirty longest ago first
    Age,
    // those that are linked to a slot, but for one address
    Referrers { slot: u32, skip: u32 },
}

// The first address of a walk, or the one behind that which it gave before.
fn next_along<L: Lists>(lists: &L, along: Along, after: Option<u32>) -> Option<u32>
    requires { IsWalked after (walk_of along (L.listing lists.now).dirty (L.referrers lists.now)) }
    ensures { result ≡ next_of after (walk_of along (L.listing lists.now).dirty (L.referrers lists.now)) }
{
    match along {
        Along::Age => lists.next_dirty(after),
        Along::Referrers { slot, skip } => lists.next_referrer(slot, skip, after),
    }
}

// The first addresses of a walk, at most so many.
pub(crate) fn gather<L: Lists>(lists: &L, along: Along, most: u32, into: &mut Vec<u32>)
    requires empty { into.old.items ≡ [] }
    requires room { most ≤ vec_capacity into.old }
    ensures first { into.new.items ≡ take most (walk_of along (L.listing lists.now).dirty (L.referrers lists.now)) }
    ensures capacity { vec_capacity into.new ≡ vec_capacity into.old }
{
    let mut after = None;
    'walk: while into.len() < most as usize {
        match next_along(lists, along, after) {
            None => return,
            Some(address) => {
                into.push_reserved(address);
                after = Some(address);
            }
        }
    }
}
