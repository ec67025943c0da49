// The first row that doesn't fit those before it.
ghost use Rattle.std.specs.Prelude.{◌≡◌, ◌^◌, ◌<◌, ◌==◌, ◌&&◌, [], length};
ghost use Rattle.std.specs.Str.{bytes_eq};
ghost use Rattle.std.specs.List.{list_any};
ghost use Rattle.dd_record.specs.Table.{b_fits, a_fits, link_fits, first_bad};
ghost use Rattle.dd_model.specs.Listing.{misfit_of};

use crate::Misfit;
use crate::vectors::{find_address, find_slot};
use dd_block::Fp;
use dd_record::{ARow, BRow, Link};

// The first row that doesn't fit, B's rows before A's.
pub(crate) fn find_misfit(b: &[BRow], a: &[ARow]) -> Option<Misfit>
    requires b { length b.now < 2 ^ 32 }
    requires a { length a.now < 2 ^ 32 }
    ensures { result ≡ misfit_of (record { b = b.now; a = a.now }) }
{
    match bad_slot(b) {
        Some(index) => Some(Misfit { in_a: false, index }),
        None => match bad_address(b, a) {
            Some(index) => Some(Misfit { in_a: true, index }),
            None => None,
        },
    }
}

// The first row of a slot that an earlier row has.
fn bad_slot(b: &[BRow]) -> Option<u32>
    requires { length b.now < 2 ^ 32 }
    ensures { result ≡ first_bad b_fits [] 0 b.now }
{
    for (i, row) in b.iter().enumerate() {
        if find_slot(&b[..i], row.slot).is_some() {
            return Some(i as u32);
        }
    }
    None
}

// The first row of an address that an earlier row has, or whose link doesn't fit.
fn bad_address(b: &[BRow], a: &[ARow]) -> Option<u32>
    requires { length a.now < 2 ^ 32 }
    ensures { result ≡ first_bad (a_fits b.now) [] 0 a.now }
{
    for (i, row) in a.iter().enumerate() {
        if find_address(&a[..i], row.address).is_some() {
            return Some(i as u32);
        }
        if !link_fits(b, *row) {
            return Some(i as u32);
        }
    }
    None
}

// The slot of a row, where it has one, is that of a listed block with the same fingerprint.
fn link_fits(b: &[BRow], row: ARow) -> bool
    ensures { result ≡ link_fits b.now row }
{
    match row.link {
        Link::Slot(slot) => has_block(b, slot, row.fp),
        Link::Lost | Link::Zero => true,
    }
}

fn has_block(b: &[BRow], slot: u32, fp: Fp) -> bool
    ensures { result ≡ list_any (λ block. block.slot == slot && bytes_eq block.fp.0 fp.0) b.now }
{
    for block in b {
        if block.slot == slot && block.fp == fp {
            return true;
        }
    }
    false
}
