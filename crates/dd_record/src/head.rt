// The header of a snapshot.
ghost use Rattle.std.specs.Prelude.{◌≡◌, IfOk};
ghost use Rattle.dd_block.specs.Geometry.{GivesFault};
ghost use Rattle.dd_record.specs.declared.head.Head.{Head};
ghost use Rattle.dd_record.specs.Spelling.{head_text, is_version, IsHead, IsVersion};
ghost use Rattle.dd_record.specs.Faults.{head_fault};

use crate::fault::{RowFault, What, check};
use dd_block::{Geometry, put_bytes, put_u32, put_u64, u32_at, u64_at};

const MAGIC: &[u8; 4] = b"DLR1";

/// The header of a snapshot. `version` is that of its rows and of the records behind it: version 1
/// has no zero block. `epoch` tells the newer one of two snapshots. `count` is the number of
/// references up to the snapshot. `len_a` and `len_b` are how many rows of each list follow.
#[derive(Clone, Copy, Debug, PartialEq, Eq)]
pub struct Head {
    pub version: u32,
    pub epoch: u64,
    pub count: u64,
    pub len_a: u32,
    pub len_b: u32,
}

/// Writes a header of version 1 or 2.
pub fn put_head(head: Head, into: &mut [u8; 32])
    requires version { IsVersion head.version }
    ensures { into.new ≡ head_text head }
{
    put_bytes(into, 0, MAGIC);
    put_u32(into, 4, head.version);
    put_u64(into, 8, head.epoch);
    put_u64(into, 16, head.count);
    put_u32(into, 24, head.len_a);
    put_u32(into, 28, head.len_b);
}

/// Reads a header. Its rules: the magic `DLR1` (`Magic` at 0), version 1 or 2 (`Version` at 4), at
/// most `acap` addresses (`LenA` at 24) and at most `bcap` blocks (`LenB` at 28).
pub fn get_head(from: &[u8; 32], geo: Geometry) -> Result<Head, RowFault>
    ensures ok { IfOk result (λ head. (from.now ≡ head_text head) × IsHead geo head) }
    ensures back { (head : Head) → IsHead geo head → from.now ≡ head_text head → result ≡ Ok head }
    ensures fault { GivesFault result (head_fault geo from.now) }
{
    let version = u32_at(from, 4);
    let len_a = u32_at(from, 24);
    let len_b = u32_at(from, 28);
    check(0, What::Magic, &from[..4] == MAGIC.as_slice())?;
    check(4, What::Version, is_version(version))?;
    check(24, What::LenA, len_a <= geo.acap)?;
    check(28, What::LenB, len_b <= geo.bcap)?;
    Ok(Head {
        version,
        epoch: u64_at(from, 8),
        count: u64_at(from, 16),
        len_a,
        len_b,
    })
}

// Whether rows and records have such a version.
fn is_version(version: u32) -> bool
    ensures { result ≡ is_version version }
{
    version == 1 || version == 2
}

#[cfg(test)]
mod tests {
    use super::*;

    // The header of a flash that was just formatted.
    const FORMATTED: &[u8; 32] =
        b"DLR1\x02\0\0\0\x01\0\0\0\0\0\0\0\0\0\0\0\0\0\0\0\0\0\0\0\0\0\0\0";

    #[test]
    fn the_header_of_a_formatted_flash(rt: HostRuntime) {
        let geo = Geometry::new(16, 8, 3, 2, 1, 8, 392).expect(&rt, "it keeps the ranges");
        let head = Head {
            version: 2,
            epoch: 1,
            count: 0,
            len_a: 0,
            len_b: 0,
        };
        let mut text = [7; 32];
        put_head(head, &mut text);
        assert!(rt; text.as_slice() == FORMATTED.as_slice());
        assert_eq!(rt; get_head(FORMATTED, geo), Ok(head));
        text[24] = 4;
        text[28] = 3;
        let fault = RowFault {
            at: 24,
            what: What::LenA,
        };
        assert_eq!(rt; get_head(&text, geo), Err(fault));
        let message = format!(in rt.alloc(); "{}", fault).expect(&rt, "memory");
        assert_eq!(rt;
            message.as_str(),
            "more addresses than the list may have at byte 24"
        );
    }

    #[test]
    fn a_header_of_either_version(rt: HostRuntime) {
        let geo = Geometry::new(16, 8, 3, 2, 1, 8, 392).expect(&rt, "it keeps the ranges");
        let mut text = *FORMATTED;
        text[4] = 1;
        assert!(rt; get_head(&text, geo).is_ok());
        text[4] = 3;
        let fault = RowFault {
            at: 4,
            what: What::Version,
        };
        assert_eq!(rt; get_head(&text, geo), Err(fault));
    }
}
