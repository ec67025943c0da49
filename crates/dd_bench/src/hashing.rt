// How long a hash of a block takes.

use crate::fault::Fault;
use dd_block::{Fingerprint, Fp, Sha256Print};
use std::time::Instant;

/// Nanoseconds of so many hashes of blocks of 16 bytes, each the beginning of the hash before.
pub fn time_hashes(rt: &HostRuntime, count: u32) -> Result<u64, Fault> {
    let mut block = [0u8; 16];
    let start = Instant::now(rt).map_err(|_| Fault::Clock)?;
    for _ in 0..count {
        let Fp(print) = Sha256Print.print(&block);
        block.copy_from_slice(&print[..16]);
    }
    let took = start.elapsed(rt).map_err(|_| Fault::Clock)?;
    // What nothing asks for might not be computed.
    if block == [0; 16] {
        return Err(Fault::Clock);
    }
    Ok(u64::try_from(took.as_nanos()).unwrap_or(u64::MAX))
}
