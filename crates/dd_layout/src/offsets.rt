// Where the parts of a flash stand. All places and sizes are bytes.
ghost use Rattle.std.specs.Prelude.{◌≡◌, ◌+◌, ◌<◌};
ghost use Rattle.dd_block.specs.Geometry.{slot_count};
ghost use Rattle.dd_layout.specs.Layout as layout;

use dd_block::Geometry;

// A gate, a snapshot with as many rows as there may be, and a log.
fn region_size(geo: Geometry) -> u64
    ensures { result ≡ layout.region_size geo }
{
    33 + 36 * u64::from(geo.bcap) + 44 * u64::from(geo.acap) + u64::from(geo.log)
}

/// Where the region 0 or 1 begins.
pub fn region_at(geo: Geometry, region: u32) -> u64
    requires { region < 2 }
    ensures { result ≡ layout.region_at geo region }
{
    64 + u64::from(region) * region_size(geo)
}

/// Where a slot begins. The slots are counted from 0 and lie behind both regions.
pub fn slot_at(geo: Geometry, slot: u32) -> u64
    requires { slot < slot_count geo }
    ensures { result ≡ layout.slot_at geo slot }
{
    64 + 2 * region_size(geo) + u64::from(slot) * u64::from(geo.block)
}

/// How many bytes of a flash are used. What lies behind them is neither read nor written.
pub fn flash_need(geo: Geometry) -> u64
    ensures { result ≡ layout.flash_need geo }
{
    64 + 2 * region_size(geo) + u64::from(geo.slots()) * u64::from(geo.block)
}

/// How many bytes of a disk are used: its blocks stand one behind the other from 0 on.
pub fn disk_need(geo: Geometry) -> u64
    ensures { result ≡ layout.disk_need geo }
{
    u64::from(geo.blocks) * u64::from(geo.block)
}

#[cfg(test)]
mod tests {
    use super::*;

    #[test]
    fn places_in_the_small_cache(rt: HostRuntime) {
        let geo = Geometry::new(16, 8, 3, 2, 1, 8, 392).expect(&rt, "it keeps the ranges");
        assert_eq!(rt; region_at(geo, 1), 693);
        assert_eq!(rt; slot_at(geo, 0), 1322);
        assert_eq!(rt; flash_need(geo), 1370);
        assert_eq!(rt; disk_need(geo), 128);
    }
}
