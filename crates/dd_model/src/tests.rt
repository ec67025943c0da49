// Both lists through the calls of the trait: records, zeros, walks, rows that don't fit.
ghost use Rattle.std.specs.Prelude.{◌≡◌, ◌<◌, ℕ};
ghost use Rattle.dd_model.specs.Applying.{IsSlotBelow};

use crate::{Lists, Misfit, Orphans, PlainLists, apply};
use dd_block::Fp;
use dd_record::{ARow, BRow, Link, Rec, Rows};
use std::test::Fail;

const FP: Fp = Fp([7; 32]);

fn store(address: u32, slot: u32, dirty: bool) -> Rec
    ensures { (slots : ℕ) → slot < slots → IsSlotBelow slots result }
{
    Rec::Store {
        address,
        slot,
        fp: FP,
        dirty,
    }
}

fn link(address: u32, slot: u32, dirty: bool) -> Rec
    ensures { (slots : ℕ) → slot < slots → IsSlotBelow slots result }
{
    Rec::Link {
        address,
        slot,
        dirty,
    }
}

fn read_zeros(address: u32) -> Rec
    ensures { IsSlotBelow 3 result }
{
    Rec::Zero {
        address,
        dirty: false,
    }
}

// What falls off by a record: an address, and the slot of a block.
fn cut_by<L: Lists>(lists: &mut L, rec: Rec) -> Option<(Option<u32>, Option<u32>)>
    requires slots { (L.listing lists.old).slots ≡ 3 }
    requires slot { IsSlotBelow 3 rec }
    ensures { (L.listing lists.new).slots ≡ 3 }
{
    match apply(lists, rec) {
        None => None,
        Some(cut) => Some((cut.out, cut.drop.map(|row| row.slot))),
    }
}

// The second of the dirty addresses by age.
fn second_dirty<L: Lists>(lists: &L) -> Option<u32> {
    match lists.next_dirty(None) {
        None => None,
        Some(first) => lists.next_dirty(Some(first)),
    }
}

// The two dirty addresses that are linked to a slot, but for `skip`, the lower one first.
fn two_referrers<L: Lists>(lists: &L, slot: u32, skip: u32) -> Option<(u32, u32)> {
    match lists.next_referrer(slot, skip, None) {
        None => None,
        Some(first) => match lists.next_referrer(slot, skip, Some(first)) {
            None => None,
            Some(second) => Some((first.min(second), first.max(second))),
        },
    }
}

#[test]
fn a_dirty_address_does_not_fall_off(rt: HostRuntime) -> Result<(), Fail> {
    let mut lists = PlainLists::new(rt.alloc(), 3, 2, 3)?;
    assert_eq!(rt; cut_by(&mut lists, store(4, 0, true)), Some((None, None)));
    assert_eq!(rt; cut_by(&mut lists, store(0, 1, false)), Some((None, None)));
    assert_eq!(rt; cut_by(&mut lists, link(2, 1, false)), Some((None, None)));
    assert_eq!(rt; lists.oldest_dirty(), Some(4));
    assert_eq!(rt; cut_by(&mut lists, store(1, 2, false)), None);
    assert_eq!(rt;
        cut_by(&mut lists, Rec::Clean { address: 4 }),
        Some((None, None))
    );
    assert_eq!(rt; lists.oldest_dirty(), None);
    assert_eq!(rt;
        cut_by(&mut lists, store(1, 2, false)),
        Some((Some(4), Some(0)))
    );
    assert_eq!(rt;
        cut_by(&mut lists, Rec::Hit { address: 2 }),
        Some((None, None))
    );
    assert_eq!(rt; cut_by(&mut lists, Rec::Hit { address: 4 }), None);
    assert_eq!(rt; lists.walk_a(None).map(|row| row.address), Some(2));
    assert_eq!(rt; lists.walk_b(None).map(|row| row.slot), Some(1));
    Ok(())
}

// w 4 aa; d 4; r 4: the block stays listed, and its address is zero.
#[test]
fn zeros_take_an_address_from_its_block(rt: HostRuntime) -> Result<(), Fail> {
    let mut lists = PlainLists::new(rt.alloc(), 3, 2, 3)?;
    let zeros = Rec::Zero {
        address: 4,
        dirty: true,
    };
    assert_eq!(rt; cut_by(&mut lists, store(4, 0, true)), Some((None, None)));
    assert_eq!(rt; cut_by(&mut lists, zeros), Some((None, None)));
    assert_eq!(rt;
        cut_by(&mut lists, Rec::Hit { address: 4 }),
        Some((None, None))
    );
    assert_eq!(rt; lists.look(4).map(|row| row.link), Some(Link::Zero));
    assert_eq!(rt; lists.look(4).map(|row| row.dirty), Some(true));
    assert_eq!(rt; lists.block(0).map(|row| row.slot), Some(0));
    assert_eq!(rt; lists.dirty_of(0, 9), None);
    Ok(())
}

// r 4; r 5; r 6; r 7, of zeros each: the fourth lets address 4 fall off, and no block is listed.
#[test]
fn zeros_are_no_listed_block(rt: HostRuntime) -> Result<(), Fail> {
    let mut lists = PlainLists::new(rt.alloc(), 3, 2, 3)?;
    assert_eq!(rt; cut_by(&mut lists, read_zeros(4)), Some((None, None)));
    assert_eq!(rt; cut_by(&mut lists, read_zeros(5)), Some((None, None)));
    assert_eq!(rt; cut_by(&mut lists, read_zeros(6)), Some((None, None)));
    assert_eq!(rt; cut_by(&mut lists, read_zeros(7)), Some((Some(4), None)));
    assert_eq!(rt; lists.len_a(), 3);
    assert_eq!(rt; lists.len_b(), 0);
    assert_eq!(rt; lists.walk_a(None).map(|row| row.address), Some(7));
    Ok(())
}

#[test]
fn dirty_addresses_by_age_and_by_slot(rt: HostRuntime) -> Result<(), Fail> {
    let mut lists = PlainLists::new(rt.alloc(), 3, 2, 3)?;
    assert_eq!(rt; cut_by(&mut lists, store(4, 0, true)), Some((None, None)));
    assert_eq!(rt; cut_by(&mut lists, link(5, 0, true)), Some((None, None)));
    assert_eq!(rt; cut_by(&mut lists, link(6, 0, true)), Some((None, None)));
    // a write of a dirty address keeps its place among the dirty
    assert_eq!(rt; cut_by(&mut lists, link(4, 0, true)), Some((None, None)));
    assert_eq!(rt; lists.oldest_dirty(), Some(4));
    assert_eq!(rt; second_dirty(&lists), Some(5));
    assert_eq!(rt; two_referrers(&lists, 0, 5), Some((4, 6)));
    assert_eq!(rt; two_referrers(&lists, 1, 5), None);
    Ok(())
}

// r 4 and r 5 of one block, r 6 of another one, then w 6 of a third: the first block falls off and both its
// addresses are without one, and the second has no address any more.
#[test]
fn orphans_of_both_lists(rt: HostRuntime) -> Result<(), Fail> {
    let mut lists = PlainLists::new(rt.alloc(), 3, 2, 3)?;
    assert_eq!(rt; cut_by(&mut lists, store(4, 0, false)), Some((None, None)));
    assert_eq!(rt; cut_by(&mut lists, link(5, 0, false)), Some((None, None)));
    assert_eq!(rt; cut_by(&mut lists, store(6, 1, false)), Some((None, None)));
    assert_eq!(rt; lists.orphans(), Orphans { a: 0, b: 0 });
    assert_eq!(rt;
        cut_by(&mut lists, store(6, 2, true)),
        Some((None, Some(0)))
    );
    assert_eq!(rt; lists.orphans(), Orphans { a: 2, b: 1 });
    Ok(())
}

#[test]
fn rows_that_do_not_fit(rt: HostRuntime) -> Result<(), Fail> {
    let mut lists = PlainLists::new(rt.alloc(), 3, 2, 3)?;
    let row = BRow { slot: 2, fp: FP };
    let linked = ARow {
        address: 5,
        link: Link::Slot(1),
        dirty: false,
        fp: FP,
    };
    assert_eq!(rt;
        lists.restore(&[row, row], &[]),
        Err(Misfit {
            in_a: false,
            index: 1
        })
    );
    assert_eq!(rt;
        lists.restore(&[row], &[linked]),
        Err(Misfit {
            in_a: true,
            index: 0
        })
    );
    assert_eq!(rt; lists.restore(&[row], &[]), Ok(()));
    assert_eq!(rt; lists.block(2), Some(row));
    Ok(())
}
