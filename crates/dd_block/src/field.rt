// Numbers and bytes at a place of a format. Numbers are unsigned, the lower byte first.
ghost use Rattle.std.specs.Prelude.{◌≡◌, ◌+◌, ◌≤◌, ◌++◌, length, take, drop};
ghost use Rattle.std.specs.Int.{w32, w64, to_le_bytes};
ghost use Rattle.dd_block.specs.Bytes.{u32_at, u64_at, first_nonzero};

use byteorder::{ByteOrder, LittleEndian};

/// The number in the four bytes from a place on.
pub fn u32_at(bytes: &[u8], at: usize) -> u32
    requires { at + 4 ≤ length bytes.now }
    ensures number { result ≡ u32_at bytes.now at }
    ensures spelled { take (at + 4) bytes.now ≡ take at bytes.now ++ to_le_bytes w32 result }
{
    LittleEndian::read_u32(&bytes[at..])
}

/// The number in the eight bytes from a place on.
pub fn u64_at(bytes: &[u8], at: usize) -> u64
    requires { at + 8 ≤ length bytes.now }
    ensures number { result ≡ u64_at bytes.now at }
    ensures spelled { take (at + 8) bytes.now ≡ take at bytes.now ++ to_le_bytes w64 result }
{
    LittleEndian::read_u64(&bytes[at..])
}

/// Writes a number into the four bytes from a place on.
pub fn put_u32(into: &mut [u8], at: usize, number: u32)
    requires { at + 4 ≤ length into.old }
    ensures spelled { take (at + 4) into.new ≡ take at into.old ++ to_le_bytes w32 number }
    ensures behind { drop (at + 4) into.new ≡ drop (at + 4) into.old }
{
    LittleEndian::write_u32(&mut into[at..at + 4], number);
}

/// Writes a number into the eight bytes from a place on.
pub fn put_u64(into: &mut [u8], at: usize, number: u64)
    requires { at + 8 ≤ length into.old }
    ensures spelled { take (at + 8) into.new ≡ take at into.old ++ to_le_bytes w64 number }
    ensures behind { drop (at + 8) into.new ≡ drop (at + 8) into.old }
{
    LittleEndian::write_u64(&mut into[at..at + 8], number);
}

/// Writes bytes from a place on.
pub fn put_bytes(into: &mut [u8], at: usize, bytes: &[u8])
    requires { at + length bytes.now ≤ length into.old }
    ensures spelled { take (at + length bytes.now) into.new ≡ take at into.old ++ bytes.now }
    ensures behind { drop (at + length bytes.now) into.new ≡ drop (at + length bytes.now) into.old }
{
    into[at..at + bytes.len()].copy_from_slice(bytes);
}

/// The place of the first byte that isn't zero.
pub fn first_nonzero(bytes: &[u8]) -> Option<usize>
    ensures { result ≡ first_nonzero bytes.now }
{
    bytes.iter().position(|&byte| byte != 0)
}
