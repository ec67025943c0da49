// The bytes of rows.
ghost use Rattle.std.specs.Prelude.{◌≡◌, ◌+◌, ◌≤◌, length, IfOk};
ghost use Rattle.dd_block.specs.Bytes.{part};
ghost use Rattle.dd_block.specs.Geometry.{GivesFault};
ghost use Rattle.dd_record.specs.declared.row.ARow.{ARow};
ghost use Rattle.dd_record.specs.declared.row.BRow.{BRow};
ghost use Rattle.dd_record.specs.declared.row.Link.TheVariants.{Zero};
ghost use Rattle.dd_record.specs.Table.{IsDirtyLinked};
ghost use Rattle.dd_record.specs.Spelling.{a_text, b_text, flags_of, slot_field, zero_fp};
ghost use Rattle.dd_record.specs.Spelling.{IsA, IsB, IsVersion};
ghost use Rattle.dd_record.specs.Faults.{a_fault, b_fault, are_flags, are_slot_flags, are_zero_flags};
ghost use Rattle.dd_record.specs.Faults.{are_dirty_flags, is_slot_field, is_print_field, link_of_fields};

use crate::fault::{RowFault, What, check};
use crate::row::{ARow, BRow, Link};
use dd_block::{Fp, Geometry, first_nonzero, put_bytes, put_u32, u32_at};

// The slot field of an address that has no slot.
const NO_SLOT: u32 = 4_294_967_295;

/// Writes the row of a block.
pub fn put_b(row: BRow, into: &mut [u8; 36])
    ensures { into.new ≡ b_text row }
{
    put_u32(into, 0, row.slot);
    put_bytes(into, 4, &row.fp.0);
}

/// Reads the row of a block. Its one rule: a slot of the flash (`Slot` at 0).
pub fn get_b(from: &[u8; 36], geo: Geometry) -> Result<BRow, RowFault>
    ensures ok { IfOk result (λ row. (from.now ≡ b_text row) × IsB geo row) }
    ensures back { (row : BRow) → IsB geo row → from.now ≡ b_text row → result ≡ Ok row }
    ensures fault { GivesFault result (b_fault geo from.now) }
{
    let slot = u32_at(from, 0);
    check(0, What::Slot, slot < geo.slots())?;
    Ok(BRow {
        slot,
        fp: fp_at(from, 4),
    })
}

/// Writes the row of an address. A dirty address is linked, and one that is zero has 32 zero bytes
/// for its fingerprint.
pub fn put_a(row: ARow, into: &mut [u8; 44])
    requires linked { IsDirtyLinked row }
    requires zero { row.link ≡ Zero → row.fp ≡ zero_fp }
    ensures { into.new ≡ a_text row }
{
    put_u32(into, 0, row.address);
    put_u32(into, 4, flags(row.link, row.dirty));
    put_u32(into, 8, slot_field(row.link));
    put_bytes(into, 12, &row.fp.0);
}

/// Reads the row of an address, in version 1 or 2. Its rules: an address below `blocks` (`Address`
/// at 0); flags 0 for a lost link, 1 for a slot, 3 for one that is dirty, and in version 2 also 4
/// for zero and 6 for zero and dirty (`Flags` at 4); a slot of the flash where the flags are 1 or
/// 3, and else 4,294,967,295 (`Slot` at 8); and 32 zero bytes for the fingerprint where the flags
/// are 4 or 6 (`Unused` at 12).
pub fn get_a(from: &[u8; 44], geo: Geometry, version: u32) -> Result<ARow, RowFault>
    requires version { IsVersion version }
    ensures ok { IfOk result (λ row. (from.now ≡ a_text row) × IsA geo version row) }
    ensures back { (row : ARow) → IsA geo version row → from.now ≡ a_text row → result ≡ Ok row }
    ensures fault { GivesFault result (a_fault geo version from.now) }
{
    let address = u32_at(from, 0);
    let flags = u32_at(from, 4);
    let slot = u32_at(from, 8);
    let fp = fp_at(from, 12);
    check(0, What::Address, address < geo.blocks)?;
    check(4, What::Flags, are_flags(version, flags))?;
    check(8, What::Slot, is_slot_field(flags, slot, geo))?;
    check(12, What::Unused, is_print_field(flags, &fp.0))?;
    Ok(ARow {
        address,
        link: link_of(flags, slot),
        dirty: are_dirty_flags(flags),
        fp,
    })
}

// The flags of a link, by whether its address is dirty.
fn flags(link: Link, dirty: bool) -> u32
    ensures { result ≡ flags_of link dirty }
{
    match link {
        Link::Lost => 0,
        Link::Slot(_) => if dirty { 3 } else { 1 },
        Link::Zero => if dirty { 6 } else { 4 },
    }
}

// The slot field of a link.
fn slot_field(link: Link) -> u32
    ensures { result ≡ slot_field link }
{
    match link {
        Link::Slot(slot) => slot,
        Link::Lost | Link::Zero => NO_SLOT,
    }
}

// Whether flags are those of a slot.
fn are_slot_flags(flags: u32) -> bool
    ensures { result ≡ are_slot_flags flags }
{
    flags == 1 || flags == 3
}

// Whether flags are those of zeros.
fn are_zero_flags(flags: u32) -> bool
    ensures { result ≡ are_zero_flags flags }
{
    flags == 4 || flags == 6
}

// Whether flags are those of a dirty row.
fn are_dirty_flags(flags: u32) -> bool
    ensures { result ≡ are_dirty_flags flags }
{
    flags == 3 || flags == 6
}

// Whether a version has these flags.
fn are_flags(version: u32, flags: u32) -> bool
    ensures { result ≡ are_flags version flags }
{
    flags == 0 || are_slot_flags(flags) || are_zero_flags(flags) && version == 2
}

// The link that the flags and the slot field of a row spell.
fn link_of(flags: u32, slot: u32) -> Link
    ensures { result ≡ link_of_fields flags slot }
{
    if are_slot_flags(flags) {
        Link::Slot(slot)
    } else if are_zero_flags(flags) {
        Link::Zero
    } else {
        Link::Lost
    }
}

// Whether a slot field keeps its rule.
fn is_slot_field(flags: u32, slot: u32, geo: Geometry) -> bool
    ensures { result ≡ is_slot_field geo flags slot }
{
    if are_slot_flags(flags) {
        slot < geo.slots()
    } else {
        slot == NO_SLOT
    }
}

// Whether a fingerprint keeps its rule: that of zeros is zero.
fn is_print_field(flags: u32, print: &[u8]) -> bool
    ensures { result ≡ is_print_field flags print.now }
{
    !are_zero_flags(flags) || first_nonzero(print).is_none()
}

// The fingerprint in the 32 bytes from a place on.
pub(crate) fn fp_at(bytes: &[u8], at: usize) -> Fp
    requires { at + 32 ≤ length bytes.now }
    ensures bytes { result.0 ≡ part bytes.now at 32 }
    ensures whole { length result.0 ≡ 32 }
{
    let mut fp = [0; 32];
    fp.copy_from_slice(&bytes[at..at + 32]);
    Fp(fp)
}

#[cfg(test)]
mod tests {
    use super::*;

    #[test]
    fn rows_both_ways(rt: HostRuntime) {
        let geo = Geometry::new(16, 8, 3, 2, 1, 8, 392).expect(&rt, "it keeps the ranges");
        let fp = Fp([9; 32]);
        let block = BRow { slot: 2, fp };
        let mut block_text = [0; 36];
        put_b(block, &mut block_text);
        assert_eq!(rt; get_b(&block_text, geo), Ok(block));
        let address = ARow {
            address: 7,
            link: Link::Slot(2),
            dirty: true,
            fp,
        };
        let mut text = [0; 44];
        put_a(address, &mut text);
        assert!(rt; &text[..12] == b"\x07\0\0\0\x03\0\0\0\x02\0\0\0".as_slice());
        assert_eq!(rt; get_a(&text, geo, 1), Ok(address));
        text[4] = 2;
        let fault = RowFault {
            at: 4,
            what: What::Flags,
        };
        assert_eq!(rt; get_a(&text, geo, 2), Err(fault));
    }

    #[test]
    fn a_zero_row_in_version_2_alone(rt: HostRuntime) {
        let geo = Geometry::new(16, 8, 3, 2, 1, 8, 392).expect(&rt, "it keeps the ranges");
        let zero = ARow {
            address: 7,
            link: Link::Zero,
            dirty: false,
            fp: Fp([0; 32]),
        };
        let mut text = [1; 44];
        put_a(zero, &mut text);
        assert!(rt; &text[..13] == b"\x07\0\0\0\x04\0\0\0\xff\xff\xff\xff\0".as_slice());
        assert_eq!(rt; get_a(&text, geo, 2), Ok(zero));
        let flags = RowFault {
            at: 4,
            what: What::Flags,
        };
        assert_eq!(rt; get_a(&text, geo, 1), Err(flags));
        text[12] = 1;
        let unused = RowFault {
            at: 12,
            what: What::Unused,
        };
        assert_eq!(rt; get_a(&text, geo, 2), Err(unused));
    }
}
