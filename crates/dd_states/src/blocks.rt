// Blocks of 16 bytes, and the disk of the small cache, which has eight of them.

/// The bytes of one block.
pub type Block = [u8; 16];

pub const ZEROS: Block = [0; 16];

pub const ONE: Block = *b"\x01\0\0\0\0\0\0\0\0\0\0\0\0\0\0\0";

pub const TWO: Block = *b"\x02\0\0\0\0\0\0\0\0\0\0\0\0\0\0\0";

const THREE: Block = *b"\x03\0\0\0\0\0\0\0\0\0\0\0\0\0\0\0";

pub const AA: Block = *b"\xaa\0\0\0\0\0\0\0\0\0\0\0\0\0\0\0";

pub const BB: Block = *b"\xbb\0\0\0\0\0\0\0\0\0\0\0\0\0\0\0";

pub const CC: Block = *b"\xcc\0\0\0\0\0\0\0\0\0\0\0\0\0\0\0";

pub const DD: Block = *b"\xdd\0\0\0\0\0\0\0\0\0\0\0\0\0\0\0";

/// Two blocks with one first byte.
pub const AB_ONE: Block = *b"\xab\x01\0\0\0\0\0\0\0\0\0\0\0\0\0\0";

pub const AB_TWO: Block = *b"\xab\x02\0\0\0\0\0\0\0\0\0\0\0\0\0\0";

/// A block whose first byte is zero, as that of zeros.
pub const COUNTED: Block = *b"\0\x11\x22\x33\x44\x55\x66\x77\x88\x99\xaa\xbb\xcc\xdd\xee\xff";

/// The disk at the start: blocks 0 to 3 are these, and 4 to 7 are zero.
pub fn worked_disk() -> [u8; 128] {
    disk_with(&[])
}

/// The same with these blocks at these addresses, which are below 8.
pub fn disk_with(blocks: &[(usize, Block)]) -> [u8; 128] {
    let mut disk = [0u8; 128];
    disk[..16].copy_from_slice(&ONE);
    disk[16..32].copy_from_slice(&TWO);
    disk[32..48].copy_from_slice(&ONE);
    disk[48..64].copy_from_slice(&THREE);
    for (address, block) in blocks {
        if *address < 8 {
            let at = 16 * *address;
            disk[at..at + 16].copy_from_slice(block);
        }
    }
    disk
}
