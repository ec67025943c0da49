// A list of three blocks through its calls. What is expected is what the plain list of rows gives.

use crate::DataCache;
use dd_block::Fp;
use dd_record::BRow;
use std::test::Fail;

const FIRST: Fp = Fp([7; 32]);

// It has the key of the other.
const SECOND: Fp = Fp([
    7, 7, 7, 7, 7, 7, 7, 7, 0, 0, 0, 0, 0, 0, 0, 0, 0, 0, 0, 0, 0, 0, 0, 0, 0, 0, 0, 0, 0, 0, 0, 0,
]);

fn slot_of(row: Option<BRow>) -> Option<u32> {
    row.map(|found| found.slot)
}

#[test]
fn rows_move_and_fall_off(rt: HostRuntime) -> Result<(), Fail> {
    let mut blocks = DataCache::new(rt.alloc(), 3, 5)?;
    assert_eq!(rt; slot_of(blocks.last()), None);
    blocks.front_new(BRow { slot: 4, fp: FIRST });
    blocks.front_new(BRow {
        slot: 0,
        fp: SECOND,
    });
    assert_eq!(rt; slot_of(blocks.victim()), None);
    blocks.front_new(BRow { slot: 2, fp: FIRST });
    assert_eq!(rt; slot_of(blocks.next(None)), Some(2));
    assert_eq!(rt; slot_of(blocks.next(Some(2))), Some(0));
    assert_eq!(rt; slot_of(blocks.next(Some(4))), None);
    assert_eq!(rt; slot_of(blocks.victim()), Some(4));
    blocks.front_known(4);
    assert_eq!(rt; slot_of(blocks.next(Some(4))), Some(2));
    assert_eq!(rt; slot_of(blocks.last()), Some(0));
    assert_eq!(rt; blocks.drop_back().slot, 0);
    assert_eq!(rt; slot_of(blocks.find(0)), None);
    assert_eq!(rt; blocks.len(), 2);
    Ok(())
}

#[test]
fn one_key_has_two_fingerprints(rt: HostRuntime) -> Result<(), Fail> {
    let mut blocks = DataCache::new(rt.alloc(), 3, 5)?;
    blocks.front_new(BRow { slot: 4, fp: FIRST });
    blocks.front_new(BRow {
        slot: 0,
        fp: SECOND,
    });
    blocks.front_new(BRow { slot: 2, fp: FIRST });
    assert_eq!(rt; slot_of(blocks.candidate(FIRST, None)), Some(2));
    assert_eq!(rt; slot_of(blocks.candidate(FIRST, Some(2))), Some(4));
    assert_eq!(rt; slot_of(blocks.candidate(FIRST, Some(4))), None);
    assert_eq!(rt; slot_of(blocks.candidate(FIRST, Some(0))), None);
    assert_eq!(rt; slot_of(blocks.candidate(SECOND, None)), Some(0));
    blocks.front_known(4);
    assert_eq!(rt; slot_of(blocks.candidate(FIRST, None)), Some(4));
    Ok(())
}
