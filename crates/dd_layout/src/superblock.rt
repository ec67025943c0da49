// The superblock.
ghost use Rattle.std.specs.Prelude.{◌≡◌, ◌+◌, ◌≤◌, ◌++◌, IfOk, length, take};
ghost use Rattle.dd_block.specs.declared.geometry.Geometry.{Geometry};
ghost use Rattle.dd_block.specs.Geometry.{GivesFault};
ghost use Rattle.dd_layout.specs.Super.{super_text, super_fault, kind_fault};
ghost use Rattle.dd_layout.specs.Super.{numbers_fault, numbers_text, padding_fault, nonzero_place};

use dd_block::{Geometry, GeometryFault, first_nonzero, put_bytes, put_u32, u32_at};
use thiserror::Error;

const MAGIC: &[u8; 4] = b"CDSB";

const VERSION: u32 = 1;

/// Why 64 bytes are no superblock: the first check that they break, in the order of the variants.
/// `Padding` has the offset of the first padding byte that isn't zero.
#[derive(Clone, Copy, Debug, PartialEq, Eq, Error)]
pub enum SuperFault {
    #[error("the gate of the superblock is {0}: an open one is 1")]
    Gate(u8),
    #[error("the superblock has another magic than CDSB")]
    Magic,
    #[error("version {0} of the layout: only 1 is known")]
    Version(u32),
    #[error("the superblock has {0}")]
    Geometry(GeometryFault),
    #[error("the padding byte {0} of the superblock isn't zero")]
    Padding(u32),
}

/// Writes the superblock of a geometry, with an open gate.
pub fn write_super(geo: Geometry, into: &mut [u8; 64])
    ensures { into.new ≡ super_text geo }
{
    put_bytes(into, 0, &[1, 0, 0, 0]);
    put_bytes(into, 4, MAGIC);
    put_u32(into, 8, VERSION);
    put_u32(into, 12, geo.block);
    put_u32(into, 16, geo.blocks);
    put_u32(into, 20, geo.acap);
    put_u32(into, 24, geo.bcap);
    put_u32(into, 28, geo.spare);
    put_u32(into, 32, geo.group);
    put_u32(into, 36, geo.log);
    put_bytes(into, 40, &[0; 24]);
}

/// Reads a superblock. Ok has the geometry whose text the bytes are, and each such text is read
/// back. Else the fault is the first check that fails, in the order of `SuperFault`.
pub fn read_super(from: &[u8; 64]) -> Result<Geometry, SuperFault>
    ensures ok { IfOk result (λ geo. from.now ≡ super_text geo) }
    ensures back { (geo : Geometry) → from.now ≡ super_text geo → result ≡ Ok geo }
    ensures fault { GivesFault result (super_fault from.now) }
{
    check_kind(from)?;
    let geo = numbers(from).map_err(SuperFault::Geometry)?;
    match padding_fault(from) {
        Some(at) => Err(SuperFault::Padding(at)),
        None => Ok(geo),
    }
}

// Tests the gate, the magic and the version.
fn check_kind(from: &[u8; 64]) -> Result<(), SuperFault>
    ensures { GivesFault result (kind_fault from.now) }
{
    if from[0] != 1 {
        return Err(SuperFault::Gate(from[0]));
    }
    if &from[4..8] != MAGIC.as_slice() {
        return Err(SuperFault::Magic);
    }
    let version = u32_at(from, 8);
    if version != VERSION {
        return Err(SuperFault::Version(version));
    }
    Ok(())
}

// The seven numbers, where they are a geometry.
fn numbers(from: &[u8; 64]) -> Result<Geometry, GeometryFault>
    ensures spelled { IfOk result (λ geo. take 40 from.now ≡ take 12 from.now ++ numbers_text geo) }
    ensures fault { GivesFault result (numbers_fault from.now) }
{
    Geometry::new(
        u32_at(from, 12),
        u32_at(from, 16),
        u32_at(from, 20),
        u32_at(from, 24),
        u32_at(from, 28),
        u32_at(from, 32),
        u32_at(from, 36),
    )
}

// The offset of the first padding byte that isn't zero.
fn padding_fault(from: &[u8; 64]) -> Option<u32>
    ensures { result ≡ padding_fault from.now }
{
    nonzero_place(from, 1, 3).or(nonzero_place(from, 40, 24))
}

// The first of so many bytes from a place on that isn't zero.
fn nonzero_place(from: &[u8; 64], at: usize, count: usize) -> Option<u32>
    requires { at + count ≤ length from.now }
    ensures { result ≡ nonzero_place from.now at count }
{
    let place = first_nonzero(&from[at..at + count])?;
    Some((at + place) as u32)
}

#[cfg(test)]
mod tests {
    use super::*;

    // The superblock of the small cache of the documents.
    const SMALL: &[u8; 64] =
        b"\x01\0\0\0CDSB\x01\0\0\0\x10\0\0\0\x08\0\0\0\x03\0\0\0\x02\0\0\0\x01\0\0\0\
        \x08\0\0\0\x88\x01\0\0\0\0\0\0\0\0\0\0\0\0\0\0\0\0\0\0\0\0\0\0\0\0\0\0";

    #[test]
    fn the_bytes_of_the_small_cache(rt: HostRuntime) {
        let geo = Geometry::new(16, 8, 3, 2, 1, 8, 392).expect(&rt, "it keeps the ranges");
        let mut text = [0u8; 64];
        write_super(geo, &mut text);
        assert!(rt; text.as_slice() == SMALL.as_slice());
        assert_eq!(rt; read_super(SMALL), Ok(geo));
    }

    #[test]
    fn the_first_check_is_told(rt: HostRuntime) {
        assert_eq!(rt; read_super(&[0; 64]), Err(SuperFault::Gate(0)));
        let mut text = *SMALL;
        text[3] = 7;
        text[63] = 7;
        assert_eq!(rt; read_super(&text), Err(SuperFault::Padding(3)));
        text[16] = 0;
        let fault = SuperFault::Geometry(GeometryFault::Blocks(0));
        assert_eq!(rt; read_super(&text), Err(fault));
        let message = format!(in rt.alloc(); "{}", fault).expect(&rt, "memory");
        assert_eq!(rt;
            message.as_str(),
            "the superblock has a disk of 0 blocks: it has 1 to 16777216 of them"
        );
    }
}
