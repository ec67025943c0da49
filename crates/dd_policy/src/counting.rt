// Addresses without their block, and blocks without an address.
ghost use Rattle.std.specs.Prelude.{◌≡◌, not, count_by};
ghost use Rattle.dd_record.specs.Table.{is_link};
ghost use Rattle.dd_meta.specs.Entries.{rows_of};
ghost use Rattle.dd_model.specs.Orphans.{is_linked_to};

use dd_data::DataCache;
use dd_meta::MetaCache;
use dd_model::is_link;

// How many addresses aren't linked.
pub(crate) fn count_unlinked(meta: &MetaCache) -> u32
    ensures { result ≡ count_by (λ row. not (is_link row.link)) (rows_of meta.now) }
{
    let all = meta.len();
    let mut count = 0;
    let mut at = meta.walk(None);
    for _place in 0..all {
        if let Some(row) = at {
            count += u32::from(!is_link(row.link));
            at = meta.walk(Some(row.address));
        }
    }
    count
}

// How many blocks no address is linked to.
pub(crate) fn count_unreferred(blocks: &DataCache, meta: &MetaCache) -> u32
    requires { blocks.now.slots ≡ meta.now.slots }
    ensures { result ≡ count_by (λ block. not (is_linked_to block.slot (rows_of meta.now))) blocks.now.rows }
{
    let all = blocks.len();
    let mut count = 0;
    let mut at = blocks.next(None);
    for _place in 0..all {
        if let Some(row) = at {
            count += u32::from(!meta.is_referred(row.slot));
            at = blocks.next(Some(row.slot));
        }
    }
    count
}
