// What a group takes of the room in a log.

use crate::commits::{Which, commit};
use crate::small::{Change, formatted};
use dd_rigmem::RigMem;
use std::test::Fail as Stop;

#[test]
fn a_group_of_one_record_takes_53_bytes(rt: HostRuntime) -> Result<(), Stop> {
    let alloc = rt.alloc();
    let flash = formatted(alloc, 1, &[])?;
    let mut rig = RigMem::new(alloc, &flash, &[], &[])?;
    for room in [339, 286, 233] {
        assert_eq!(rt; commit(&rt, alloc, &mut rig, Which::One)?, Some(room));
    }
    Ok(())
}

// The log begins at 97 and is full of sevens behind its gate; 390 bytes are written, the last one a closed gate.
#[test]
fn a_group_of_eight_writes_390_bytes(rt: HostRuntime) -> Result<(), Stop> {
    let alloc = rt.alloc();
    let sevens = Change {
        at: 98,
        bytes: &[7; 595],
    };
    let flash = formatted(alloc, 1, &[sevens])?;
    let mut rig = RigMem::new(alloc, &flash, &[], &[])?;
    assert_eq!(rt; commit(&rt, alloc, &mut rig, Which::All)?, Some(3));
    let left = rig.crash(alloc, 0)?.flash;
    assert_eq!(rt; left.get(486), Some(&0));
    assert_eq!(rt; left.get(487..), flash.get(487..));
    assert_eq!(rt; left.get(..97), flash.get(..97));
    Ok(())
}
