// Addresses without their block, and blocks without an address.
ghost use Rattle.std.specs.Prelude.{◌≡◌, ◌<◌, ◌^◌, not, length, count_by};
ghost use Rattle.dd_record.specs.Table.{is_link};
ghost use Rattle.dd_model.specs.Orphans.{is_linked_to};

use crate::vectors::{is_link, is_slot};
use dd_record::{ARow, BRow};

/// How many listed addresses aren't linked, and how many listed blocks no address is linked to.
#[derive(Clone, Copy, Debug, PartialEq, Eq)]
pub struct Orphans {
    pub a: u32,
    pub b: u32,
}

// How many addresses aren't linked.
pub(crate) fn count_unlinked(rows: &[ARow]) -> u32
    requires { length rows.now < 2 ^ 32 }
    ensures { result ≡ count_by (λ row. not (is_link row.link)) rows.now }
{
    let mut count = 0;
    for row in rows {
        count += u32::from(!is_link(row.link));
    }
    count
}

// How many blocks no address is linked to.
pub(crate) fn count_unreferred(blocks: &[BRow], rows: &[ARow]) -> u32
    requires { length blocks.now < 2 ^ 32 }
    ensures { result ≡ count_by (λ block. not (is_linked_to block.slot rows.now)) blocks.now }
{
    let mut count = 0;
    for block in blocks {
        count += u32::from(!is_linked_to(rows, block.slot));
    }
    count
}

// Whether some address is linked to the slot.
fn is_linked_to(rows: &[ARow], slot: u32) -> bool
    ensures { result ≡ is_linked_to slot rows.now }
{
    for row in rows {
        if is_slot(row.link, slot) {
            return true;
        }
    }
    false
}
