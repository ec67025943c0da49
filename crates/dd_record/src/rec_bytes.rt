// The bytes of records, and the count in front of a group of them.
ghost use Rattle.std.specs.Prelude.{◌≡◌, ℕ, IfOk, length};
ghost use Rattle.std.specs.Int.{w32, to_le_bytes};
ghost use Rattle.dd_block.specs.Bytes.{part, u32_at};
ghost use Rattle.dd_block.specs.Geometry.{GivesFault};
ghost use Rattle.dd_record.specs.declared.rec.Rec.{Rec};
ghost use Rattle.dd_record.specs.Spelling.{bit_of, fields_text, rec_of_fields, rec_text};
ghost use Rattle.dd_record.specs.Spelling.{IsRec, IsRightCount, IsVersion};
ghost use Rattle.dd_record.specs.Faults.{fields_fault, rec_fault, count_fault};

use crate::fault::{RowFault, What, check, check_used};
use crate::rec::Rec;
use crate::row_bytes::fp_at;
use dd_block::{Fp, Geometry, first_nonzero, put_bytes, put_u32, u32_at};

// The five fields of a record.
#[derive(Clone, Copy)]
struct Fields {
    kind: u32,
    dirty: u32,
    address: u32,
    slot: u32,
    fp: Fp,
}

const HIT: u32 = 1;

const LINK: u32 = 2;

const STORE: u32 = 3;

const CLEAN: u32 = 4;

const ZERO: u32 = 5;

// The fingerprint field of a record that has none.
const NO_FP: Fp = Fp([0; 32]);

/// Writes a record. The fields that its kind doesn't use are zero.
pub fn put_rec(rec: Rec, into: &mut [u8; 48])
    ensures { into.new ≡ rec_text rec }
{
    match rec {
        Rec::Hit { address } => put_fields(HIT, false, address, 0, NO_FP, into),
        Rec::Link {
            address,
            slot,
            dirty,
        } => put_fields(LINK, dirty, address, slot, NO_FP, into),
        Rec::Store {
            address,
            slot,
            fp,
            dirty,
        } => put_fields(STORE, dirty, address, slot, fp, into),
        Rec::Clean { address } => put_fields(CLEAN, false, address, 0, NO_FP, into),
        Rec::Zero { address, dirty } => put_fields(ZERO, dirty, address, 0, NO_FP, into),
    }
}

/// Reads a record, in version 1 or 2. Its rules: a kind 1 to 4, and in version 2 also 5 (`Kind` at
/// 0); dirty 0 or 1 (`Dirty` at 4); an address below `blocks` (`Address` at 8); a slot of the flash
/// (`Slot` at 12). What a kind doesn't use is zero (`Unused` at 4, 12 or 16): dirty is used by
/// Link, Store and Zero, the slot by Link and Store, the fingerprint by Store.
pub fn get_rec(from: &[u8; 48], geo: Geometry, version: u32) -> Result<Rec, RowFault>
    requires version { IsVersion version }
    ensures ok { IfOk result (λ rec. (from.now ≡ rec_text rec) × IsRec geo version rec) }
    ensures back { (rec : Rec) → IsRec geo version rec → from.now ≡ rec_text rec → result ≡ Ok rec }
    ensures fault { GivesFault result (rec_fault geo version from.now) }
{
    let fields = read_fields(from);
    check_fields(fields, geo, version)?;
    Ok(rec_of(fields))
}

/// Reads the count of records in front of a group, where `room` bytes of the log are left. It is
/// right where it is 1 to `group` and the group with the gate behind it has room: `48 * count + 6`
/// is at most `room`. Else the fault is `Count` at 0.
pub fn get_group_count(from: &[u8; 4], geo: Geometry, room: u32) -> Result<u32, RowFault>
    ensures ok { IfOk result (λ count. (from.now ≡ to_le_bytes w32 count) × IsRightCount geo room count) }
    ensures back { (count : ℕ) → IsRightCount geo room count → from.now ≡ to_le_bytes w32 count
        → result ≡ Ok count }
    ensures fault { GivesFault result (count_fault geo room (u32_at from.now 0)) }
{
    let count = u32_at(from, 0);
    let fits = 1 <= count && count <= geo.group && 48 * count + 6 <= room;
    check(0, What::Count, fits)?;
    Ok(count)
}

// Reads the five fields of a record, whatever their rules.
fn read_fields(from: &[u8; 48]) -> Fields
    ensures spelled { from.now ≡ fields_text result.kind result.dirty result.address result.slot result.fp.0 }
    ensures kind { result.kind ≡ u32_at from.now 0 }
    ensures dirty { result.dirty ≡ u32_at from.now 4 }
    ensures address { result.address ≡ u32_at from.now 8 }
    ensures slot { result.slot ≡ u32_at from.now 12 }
    ensures print { result.fp.0 ≡ part from.now 16 32 }
    ensures whole { length result.fp.0 ≡ 32 }
{
    Fields {
        kind: u32_at(from, 0),
        dirty: u32_at(from, 4),
        address: u32_at(from, 8),
        slot: u32_at(from, 12),
        fp: fp_at(from, 16),
    }
}

// Tests the rules of the five fields.
fn check_fields(fields: Fields, geo: Geometry, version: u32) -> Result<(), RowFault>
    ensures { GivesFault result (fields_fault geo version fields.kind fields.dirty fields.address
        fields.slot fields.fp.0) }
{
    let kind = fields.kind;
    let is_kind = HIT <= kind && (kind <= CLEAN || kind == ZERO && version == 2);
    let uses_slot = kind == LINK || kind == STORE;
    let uses_dirty = kind == LINK || kind == STORE || kind == ZERO;
    let has_slot = fields.slot < geo.slots();
    let no_print = first_nonzero(&fields.fp.0).is_none();
    check(0, What::Kind, is_kind)?;
    check_used(uses_dirty, 4, What::Dirty, fields.dirty <= 1, fields.dirty)?;
    check(8, What::Address, fields.address < geo.blocks)?;
    check_used(uses_slot, 12, What::Slot, has_slot, fields.slot)?;
    check(16, What::Unused, kind == STORE || no_print)
}

// The record of five fields that keep their rules.
fn rec_of(fields: Fields) -> Rec
    ensures { result ≡ rec_of_fields fields.kind fields.dirty fields.address fields.slot fields.fp }
{
    let Fields {
        kind,
        dirty,
        address,
        slot,
        fp,
    } = fields;
    let dirty = dirty == 1;
    match kind {
        HIT => Rec::Hit { address },
        LINK => Rec::Link {
            address,
            slot,
            dirty,
        },
        STORE => Rec::Store {
            address,
            slot,
            fp,
            dirty,
        },
        CLEAN => Rec::Clean { address },
        _ => Rec::Zero { address, dirty },
    }
}

// Writes the five fields of a record.
fn put_fields(kind: u32, dirty: bool, address: u32, slot: u32, fp: Fp, into: &mut [u8; 48])
    ensures { into.new ≡ fields_text kind (bit_of dirty) address slot fp.0 }
{
    put_u32(into, 0, kind);
    put_u32(into, 4, u32::from(dirty));
    put_u32(into, 8, address);
    put_u32(into, 12, slot);
    put_bytes(into, 16, &fp.0);
}

#[cfg(test)]
mod tests {
    use super::*;
    use dd_block::{Fingerprint, Sha256Print};

    // The record of `w 5 ab` with its block in slot 0. The fingerprint was computed elsewhere.
    const STORE_AB: &[u8; 48] = b"\x03\0\0\0\x01\0\0\0\x05\0\0\0\0\0\0\0\
        \xfa\xcb\xf4\x74\xbe\x3e\x6f\x7a\xe9\x54\x46\x48\xf2\x01\x42\x85\
        \xc0\x77\xe6\xd3\xd6\x08\x4d\xcf\x0e\x76\xf0\xbb\xfd\x0a\x52\x62";

    #[test]
    fn the_record_of_a_write(rt: HostRuntime) {
        let geo = Geometry::new(16, 8, 3, 2, 1, 8, 392).expect(&rt, "it keeps the ranges");
        let mut block = [0; 16];
        block[0] = 0xab;
        let rec = Rec::Store {
            address: 5,
            slot: 0,
            fp: Sha256Print.print(&block),
            dirty: true,
        };
        let mut text = [0; 48];
        put_rec(rec, &mut text);
        assert!(rt; text.as_slice() == STORE_AB.as_slice());
        assert_eq!(rt; get_rec(STORE_AB, geo, 1), Ok(rec));
    }

    #[test]
    fn an_unused_field_is_zero(rt: HostRuntime) {
        let geo = Geometry::new(16, 8, 3, 2, 1, 8, 392).expect(&rt, "it keeps the ranges");
        let mut text = [0; 48];
        put_rec(Rec::Hit { address: 1 }, &mut text);
        text[4] = 1;
        text[8] = 9;
        let fault = RowFault {
            at: 4,
            what: What::Unused,
        };
        assert_eq!(rt; get_rec(&text, geo, 2), Err(fault));
    }

    #[test]
    fn a_zero_record_in_version_2_alone(rt: HostRuntime) {
        let geo = Geometry::new(16, 8, 3, 2, 1, 8, 392).expect(&rt, "it keeps the ranges");
        let zero = Rec::Zero {
            address: 5,
            dirty: true,
        };
        let mut text = [1; 48];
        put_rec(zero, &mut text);
        assert!(rt; &text[..13] == b"\x05\0\0\0\x01\0\0\0\x05\0\0\0\0".as_slice());
        assert_eq!(rt; get_rec(&text, geo, 2), Ok(zero));
        let fault = RowFault {
            at: 0,
            what: What::Kind,
        };
        assert_eq!(rt; get_rec(&text, geo, 1), Err(fault));
    }

    #[test]
    fn a_group_and_the_gate_behind_it_have_room(rt: HostRuntime) {
        let geo = Geometry::new(16, 8, 3, 2, 1, 8, 392).expect(&rt, "it keeps the ranges");
        let fault = RowFault {
            at: 0,
            what: What::Count,
        };
        assert_eq!(rt; get_group_count(&[9, 0, 0, 0], geo, 392), Err(fault));
        assert_eq!(rt; get_group_count(&[8, 0, 0, 0], geo, 389), Err(fault));
        assert_eq!(rt; get_group_count(&[8, 0, 0, 0], geo, 390), Ok(8));
    }
}
