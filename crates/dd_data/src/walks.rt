// Rows of slots, and walks along the slots of one fingerprint.
ghost use Rattle.std.specs.Prelude.{◌≡◌, ℕ, ◌==◌, ◌&&◌, true, filter, option_map, slice_get, IfSome};
ghost use Rattle.std.specs.Str.{bytes_eq};
ghost use Rattle.std.specs.List.{IsDistinct};
ghost use Rattle.dd_lists.specs.Lists.{is_in};
ghost use Rattle.dd_index.specs.Index.{nodes_of};
ghost use Rattle.dd_index.specs.Chains.{from_on};
ghost use Rattle.dd_data.specs.Matching.{key_of, print_at, is_held, row_at, has_print};

use dd_block::Fp;
use dd_index::Index;
use dd_record::BRow;

// The key of a fingerprint: its first eight bytes as a number, the lowest first.
#[tactic(auto, unfolding(crate::specs::Matching::key_of))]
pub(crate) fn key_of(fp: Fp) -> u64
    ensures { result ≡ key_of fp }
{
    let Fp(bytes) = fp;
    u64::from_le_bytes([
        bytes[0], bytes[1], bytes[2], bytes[3], bytes[4], bytes[5], bytes[6], bytes[7],
    ])
}

// The fingerprint of a slot whose block is listed.
pub(crate) fn print_at(prints: &[Option<Fp>], slot: u32) -> Option<Fp>
    ensures { result ≡ print_at prints.now slot }
{
    match prints.get(slot as usize) {
        Some(print) => *print,
        None => None,
    }
}

// The row of a slot whose block is listed.
pub(crate) fn row_at(prints: &[Option<Fp>], slot: u32) -> BRow
    requires { is_held prints.now slot ≡ true }
    ensures { result ≡ row_at prints.now slot }
{
    match print_at(prints, slot) {
        Some(fp) => BRow { slot, fp },
        None => unreachable!(),
    }
}

// The row of such a slot, if there is one.
pub(crate) fn row_of(prints: &[Option<Fp>], slot: Option<u32>) -> Option<BRow>
    requires { IfSome slot (λ number. is_held prints.now number ≡ true) }
    ensures { result ≡ option_map (row_at prints.now) slot }
{
    match slot {
        Some(number) => Some(row_at(prints, number)),
        None => None,
    }
}

// Whether a row has a fingerprint.
pub(crate) fn is_like(row: BRow, fp: Fp) -> bool
    ensures { result ≡ bytes_eq row.fp.0 fp.0 }
{
    row.fp == fp
}

// Whether the block of a slot is listed, with this fingerprint.
pub(crate) fn is_listed_as(prints: &[Option<Fp>], slot: u32, fp: Fp) -> bool
    ensures { result ≡ (is_held prints.now slot && has_print prints.now fp slot) }
{
    match print_at(prints, slot) {
        Some(print) => print == fp,
        None => false,
    }
}

// The row of the first slot with a fingerprint, of those under its key from a slot on.
pub(crate) fn seek(prints: &[Option<Fp>], index: &Index, from: Option<u32>, fp: Fp) -> Option<BRow>
    requires from { from ≡ slice_get (from_on from (nodes_of (key_of fp) index.now)) 0 }
    requires distinct { IsDistinct (λ x y. x == y) (nodes_of (key_of fp) index.now) }
    requires held { (slot : ℕ) → is_in slot (nodes_of (key_of fp) index.now) ≡ true → is_held prints.now slot ≡ true }
    ensures { result ≡ option_map (row_at prints.now) (slice_get (filter (has_print prints.now fp) (from_on from (nodes_of (key_of fp) index.now))) 0) }
{
    let mut at = from;
    while let Some(slot) = at {
        let row = row_at(prints, slot);
        if is_like(row, fp) {
            return Some(row);
        }
        at = index.next_same(slot);
    }
    None
}
