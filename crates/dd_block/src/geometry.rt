// The numbers that a cache is made of.
ghost use Rattle.std.specs.Prelude.{◌≡◌, ◌+◌, ◌*◌, ◌%◌, ◌≤◌};

use thiserror::Error;

/// The numbers of a cache, each within its limits.
///
/// `block` and `log` count bytes: of a block, and of the log behind each snapshot. `blocks` is how
/// many blocks the disk has. `acap` is how many addresses may be listed, and `bcap` how many
/// blocks. `spare` is how many slots the flash has beside those of the listed blocks. `group` is
/// how many records a commit may have.
#[derive(Clone, Copy, Debug, PartialEq, Eq)]
pub struct Geometry {
    pub block: u32,
    pub blocks: u32,
    pub acap: u32,
    pub bcap: u32,
    pub spare: u32,
    pub group: u32,
    pub log: u32,
    ghost block_least: { 16 ≤ block },
    ghost block_most: { block ≤ 4096 },
    ghost block_multiple: { block % 16 ≡ 0 },
    ghost blocks_least: { 1 ≤ blocks },
    ghost blocks_most: { blocks ≤ 16777216 },
    ghost acap_least: { 1 ≤ acap },
    ghost acap_most: { acap ≤ 65536 },
    ghost bcap_least: { 1 ≤ bcap },
    ghost bcap_most: { bcap ≤ 65536 },
    ghost spare_least: { 1 ≤ spare },
    ghost spare_most: { spare ≤ 1024 },
    ghost group_least: { 8 ≤ group },
    ghost group_most: { group ≤ 1024 },
    ghost log_least: { 8 + 48 * group ≤ log },
    ghost log_most: { log ≤ 16777216 },
}

/// The first number of a geometry that is out of its range, with its value.
#[derive(Clone, Copy, Debug, PartialEq, Eq, Error)]
pub enum GeometryFault {
    #[error("a block of {0} bytes: it has 16 to 4096 of them, a multiple of 16")]
    Block(u32),
    #[error("a disk of {0} blocks: it has 1 to 16777216 of them")]
    Blocks(u32),
    #[error("a list of {0} addresses: it may have 1 to 65536 of them")]
    Acap(u32),
    #[error("a list of {0} blocks: it may have 1 to 65536 of them")]
    Bcap(u32),
    #[error("{0} spare slots: there are 1 to 1024 of them")]
    Spare(u32),
    #[error("a group of {0} records: it may have 8 to 1024 of them")]
    Group(u32),
    #[error("a log of {0} bytes: it has 8 and 48 for each record of a group, up to 16777216")]
    Log(u32),
}

impl Geometry {
    ghost use Rattle.std.specs.Prelude.{IfOk};
    ghost use Rattle.dd_block.specs.Geometry.{geometry_fault, slot_count, GivesFault, HasNumbers};

    /// The geometry of these numbers. Where some are out of their ranges, the first in the order
    /// of the fields is the fault. What a log may have at least depends on `group`.
    pub fn new(
        block: u32,
        blocks: u32,
        acap: u32,
        bcap: u32,
        spare: u32,
        group: u32,
        log: u32,
    ) -> Result<Geometry, GeometryFault>
        ensures numbers { IfOk result (λ geo. HasNumbers geo block blocks acap bcap spare group log) }
        ensures fault { GivesFault result (geometry_fault block blocks acap bcap spare group log) }
    {
        if block < 16 || block > 4096 || block % 16 != 0 {
            return Err(GeometryFault::Block(block));
        }
        if blocks < 1 || blocks > 16_777_216 {
            return Err(GeometryFault::Blocks(blocks));
        }
        if acap < 1 || acap > 65_536 {
            return Err(GeometryFault::Acap(acap));
        }
        if bcap < 1 || bcap > 65_536 {
            return Err(GeometryFault::Bcap(bcap));
        }
        if spare < 1 || spare > 1_024 {
            return Err(GeometryFault::Spare(spare));
        }
        if group < 8 || group > 1_024 {
            return Err(GeometryFault::Group(group));
        }
        if log < 8 + 48 * group || log > 16_777_216 {
            return Err(GeometryFault::Log(log));
        }
        Ok(Geometry {
            block,
            blocks,
            acap,
            bcap,
            spare,
            group,
            log,
        })
    }

    /// How many slots the flash has: one for each block that may be listed, and the spare ones.
    pub fn slots(self) -> u32
        ensures { result ≡ slot_count self }
    {
        self.bcap + self.spare
    }
}

#[cfg(test)]
mod tests {
    use super::*;

    #[test]
    fn a_small_cache(rt: HostRuntime) {
        let geo = Geometry::new(16, 8, 3, 2, 1, 8, 392).expect(&rt, "it keeps the ranges");
        assert_eq!(rt; geo.slots(), 3);
        let fault = Geometry::new(16, 8, 3, 2, 1, 8, 391);
        assert_eq!(rt; fault, Err(GeometryFault::Log(391)));
    }

    #[test]
    fn a_fault_tells_its_number(rt: HostRuntime) {
        let text = format!(in rt.alloc(); "{}", GeometryFault::Block(15)).expect(&rt, "memory");
        assert_eq!(rt;
            text.as_str(),
            "a block of 15 bytes: it has 16 to 4096 of them, a multiple of 16"
        );
    }
}
