// Draws and commands, against values worked out from the definitions by an independent program.
ghost use Rattle.std.specs.Prelude.{IfOk};
ghost use Rattle.dd_block.specs.Geometry.{HasNumbers};

use crate::{Gen, Lcg, Made};
use dd_block::{Geometry, GeometryFault};
use std::test::Fail;

fn small() -> Result<Geometry, GeometryFault>
    ensures { IfOk result (λ geo. HasNumbers geo 16 8 3 2 1 8 392) }
{
    Geometry::new(16, 8, 3, 2, 1, 8, 392)
}

// As many contents as there may be.
fn wide() -> Result<Geometry, GeometryFault>
    ensures { IfOk result (λ geo. HasNumbers geo 16 8 3 65536 1 8 392) }
{
    Geometry::new(16, 8, 3, 65536, 1, 8, 392)
}

#[test]
fn three_draws(rt: HostRuntime) {
    let mut numbers = Lcg::new(1);
    assert_eq!(rt; numbers.next(), 1_817_669_548);
    assert_eq!(rt; numbers.next(), 2_187_888_307);
    assert_eq!(rt; numbers.next(), 2_784_682_393);
}

#[test]
fn six_commands(rt: HostRuntime) -> Result<(), Fail> {
    let geo = small()?;
    let mut bytes = [0xff; 16];
    let mut commands = Gen::new(6);
    assert_eq!(rt; commands.next(geo, &mut bytes), Made::Tick);
    assert_eq!(rt; commands.next(geo, &mut bytes), Made::Write(3));
    assert_eq!(rt; bytes, [2, 0, 0, 0, 0, 0, 0, 0, 0, 0, 0, 0, 0, 0, 0, 0]);
    assert_eq!(rt; commands.next(geo, &mut bytes), Made::Read(7));
    assert_eq!(rt; commands.next(geo, &mut bytes), Made::Write(1));
    assert_eq!(rt; bytes, [1, 0, 0, 0, 0, 0, 0, 0, 0, 0, 0, 0, 0, 0, 0, 0]);
    assert_eq!(rt; commands.next(geo, &mut bytes), Made::Tick);
    assert_eq!(rt; commands.next(geo, &mut bytes), Made::Flush);
    Ok(())
}

// The content is 88,674.
#[test]
fn the_lower_byte_comes_first(rt: HostRuntime) -> Result<(), Fail> {
    let geo = wide()?;
    let mut bytes = [0xff; 16];
    let mut commands = Gen::new(7);
    assert_eq!(rt; commands.next(geo, &mut bytes), Made::Write(7));
    assert_eq!(rt;
        bytes,
        [0x62, 0x5a, 1, 0, 0, 0, 0, 0, 0, 0, 0, 0, 0, 0, 0, 0]
    );
    Ok(())
}
