// Linked nodes beside plain vectors: one list of records, applied to both; and rows that are taken in.
ghost use Rattle.std.specs.Prelude.{◌≡◌, ◌<◌};
ghost use Rattle.dd_model.specs.Applying.{IsSlotBelow};

use crate::Policy;
use dd_block::Fp;
use dd_model::{Lists, Misfit, Orphans, PlainLists, apply};
use dd_record::{ARow, BRow, Link, Rec, Rows};
use std::test::Fail;

const FP: Fp = Fp([7; 32]);

// What a run of the definitions by another program gives for the 1,000 records.
const FITTING: u32 = 235;

const ORPHANS: Orphans = Orphans { a: 1, b: 2 };

// The next number of a sequence without a pattern.
fn next(seed: u32) -> u32 {
    seed.wrapping_mul(1_664_525).wrapping_add(1_013_904_223)
}

// The record of a number: one of 80 addresses, and of 24 slots.
fn record_of(seed: u32) -> Rec
    ensures { IsSlotBelow 24 result }
{
    let address = seed / 4096 % 80;
    let slot = seed / 65_536 % 24;
    let dirty = seed / 16_777_216 % 4 == 0;
    match seed / 134_217_728 % 8 {
        0 => Rec::Hit { address },
        1..=3 => Rec::Clean { address },
        4 => Rec::Zero { address, dirty },
        5 => Rec::Link {
            address,
            slot,
            dirty,
        },
        _ => Rec::Store {
            address,
            slot,
            fp: FP,
            dirty,
        },
    }
}

// What falls off by a record that fits: an address, and the slot of a block.
fn cut_by<L: Lists>(lists: &mut L, rec: Rec) -> Option<(Option<u32>, Option<u32>)>
    requires slots { (L.listing lists.old).slots ≡ 24 }
    requires slot { IsSlotBelow 24 rec }
    ensures { (L.listing lists.new).slots ≡ 24 }
{
    match apply(lists, rec) {
        None => None,
        Some(cut) => Some((cut.out, cut.drop.map(|row| row.slot))),
    }
}

// How many of 1,000 records fit, where both bodies say the same of each.
fn fitting<A: Lists, B: Lists>(first: &mut A, second: &mut B) -> Option<u32>
    requires first { (A.listing first.old).slots ≡ 24 }
    requires second { (B.listing second.old).slots ≡ 24 }
{
    let mut seed = 1;
    let mut fit = 0;
    for _step in 0..1000u32 {
        let rec = record_of(seed);
        let cut = cut_by(first, rec);
        if cut != cut_by(second, rec) {
            return None;
        }
        if cut.is_some() {
            fit += 1;
        }
        seed = next(seed);
    }
    Some(fit)
}

// Whether both bodies have the same row of each address, and of each slot.
fn has_same_rows<A: Lists, B: Lists>(first: &A, second: &B) -> bool {
    for address in 0..80 {
        if first.look(address) != second.look(address) {
            return false;
        }
    }
    for slot in 0..24 {
        if first.block(slot) != second.block(slot) {
            return false;
        }
    }
    true
}

#[test]
fn linked_nodes_are_what_plain_vectors_are(rt: HostRuntime) -> Result<(), Fail> {
    let mut plain = PlainLists::new(rt.alloc(), 50, 20, 24)?;
    let mut linked = Policy::new(rt.alloc(), 50, 20, 24)?;
    assert_eq!(rt; fitting(&mut plain, &mut linked), Some(FITTING));
    assert!(rt; has_same_rows(&plain, &linked));
    assert_eq!(rt; linked.orphans(), ORPHANS);
    assert_eq!(rt; plain.orphans(), ORPHANS);
    assert_eq!(rt; linked.oldest_dirty(), plain.oldest_dirty());
    assert_eq!(rt; linked.walk_a(None), plain.walk_a(None));
    assert_eq!(rt; linked.walk_b(None), plain.walk_b(None));
    Ok(())
}

fn store(address: u32, slot: u32) -> Rec
    ensures { slot < 24 → IsSlotBelow 24 result }
{
    Rec::Store {
        address,
        slot,
        fp: FP,
        dirty: true,
    }
}

fn link(address: u32, slot: u32) -> Rec
    ensures { slot < 24 → IsSlotBelow 24 result }
{
    Rec::Link {
        address,
        slot,
        dirty: true,
    }
}

// The second of the dirty addresses by age.
fn second_dirty<L: Lists>(lists: &L) -> Option<u32> {
    match lists.next_dirty(None) {
        None => None,
        Some(first) => lists.next_dirty(Some(first)),
    }
}

// The two dirty addresses that are linked to a slot, but for `skip`, the lower one first.
fn two_referrers<L: Lists>(lists: &L, slot: u32, skip: u32) -> Option<(u32, u32)> {
    match lists.next_referrer(slot, skip, None) {
        None => None,
        Some(first) => match lists.next_referrer(slot, skip, Some(first)) {
            None => None,
            Some(second) => Some((first.min(second), first.max(second))),
        },
    }
}

#[test]
fn dirty_addresses_by_age_and_by_slot(rt: HostRuntime) -> Result<(), Fail> {
    let mut lists = Policy::new(rt.alloc(), 3, 2, 24)?;
    assert_eq!(rt; cut_by(&mut lists, store(4, 0)), Some((None, None)));
    assert_eq!(rt; cut_by(&mut lists, link(5, 0)), Some((None, None)));
    assert_eq!(rt; cut_by(&mut lists, link(6, 0)), Some((None, None)));
    // a write of a dirty address keeps its place among the dirty
    assert_eq!(rt; cut_by(&mut lists, link(4, 0)), Some((None, None)));
    assert_eq!(rt; second_dirty(&lists), Some(5));
    assert_eq!(rt; two_referrers(&lists, 0, 5), Some((4, 6)));
    assert_eq!(rt; two_referrers(&lists, 24, 5), None);
    assert_eq!(rt; lists.dirty_of(24, 5), None);
    Ok(())
}

#[test]
fn rows_that_do_not_fit_are_refused(rt: HostRuntime) -> Result<(), Fail> {
    let mut lists = Policy::new(rt.alloc(), 3, 2, 3)?;
    let row = BRow { slot: 2, fp: FP };
    let linked = ARow {
        address: 5,
        link: Link::Slot(1),
        dirty: false,
        fp: FP,
    };
    assert_eq!(rt;
        lists.restore(&[row, row], &[]),
        Err(Misfit {
            in_a: false,
            index: 1
        })
    );
    assert_eq!(rt;
        lists.restore(&[row], &[linked]),
        Err(Misfit {
            in_a: true,
            index: 0
        })
    );
    assert_eq!(rt; lists.len_b(), 0);
    assert_eq!(rt; lists.restore(&[row], &[]), Ok(()));
    assert_eq!(rt; lists.block(2), Some(row));
    Ok(())
}
