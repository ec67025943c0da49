// Addresses are marked clean.
ghost use Rattle.std.specs.Prelude.{◌≡◌, ◌+◌, ◌≤◌, ◌==◌, ◌++◌, true, length, vec_len, vec_capacity};
ghost use Rattle.std.specs.List.{AllByRecursion, IsDistinct};
ghost use Rattle.dd_record.specs.Table.{is_dirty_at};
ghost use Rattle.dd_store.specs.Laying.{all_marked, clean_records};

use dd_model::Lists;
use dd_record::Rec;

// Makes dirty addresses clean, and a record of each pending.
pub(crate) fn mark_all<L: Lists>(lists: &mut L, pending: &mut Vec<Rec>, addresses: &[u32])
    requires room { vec_len pending.old + length addresses.now ≤ vec_capacity pending.old }
    requires dirty { AllByRecursion (λ address. is_dirty_at address (L.listing lists.old).table.a ≡ true) addresses.now }
    requires once { IsDistinct (λ x y. x == y) addresses.now }
    ensures lists { L.listing lists.new ≡ all_marked addresses.now (L.listing lists.old) }
    ensures pending { pending.new.items ≡ pending.old.items ++ clean_records addresses.now }
    ensures capacity { vec_capacity pending.new ≡ vec_capacity pending.old }
{
    for address in addresses {
        lists.set_clean(*address);
        pending.push_reserved(Rec::Clean { address: *address });
    }
}
