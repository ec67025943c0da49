// The cache through its calls: walks, links that are taken, rows that are taken in, want of memory.
ghost use Rattle.std.specs.Prelude.{◌≡◌, ◌<◌, true};
ghost use Rattle.dd_record.specs.Table.{is_link};
ghost use Rattle.dd_meta.specs.Matching.{IsBelow};

use crate::MetaCache;
use dd_block::Fp;
use dd_record::{ARow, Link};
use std::test::Fail;

const FP: Fp = Fp([7; 32]);

const NEWEST: ARow = ARow {
    address: 8,
    link: Link::Slot(3),
    dirty: false,
    fp: FP,
};

const ZERO: ARow = ARow {
    address: 6,
    link: Link::Zero,
    dirty: true,
    fp: Fp([0; 32]),
};

const OLDEST: ARow = ARow {
    address: 5,
    link: Link::Slot(3),
    dirty: false,
    fp: FP,
};

// A reference, where there is room.
fn put(cache: &mut MetaCache, address: u32, link: Link, dirty: bool)
    requires linked { dirty ≡ true → is_link link ≡ true }
    requires below { IsBelow 4 link }
    requires acap { cache.old.acap ≡ 4 }
    requires slots { cache.old.slots ≡ 4 }
    ensures acap { cache.new.acap ≡ 4 }
    ensures slots { cache.new.slots ≡ 4 }
{
    if cache.len() < 4 {
        cache.front(address, link, dirty, FP);
    }
}

// Makes an address clean that is dirty.
fn wash(cache: &mut MetaCache, address: u32)
    requires acap { cache.old.acap ≡ 4 }
    requires slots { cache.old.slots ≡ 4 }
    ensures acap { cache.new.acap ≡ 4 }
    ensures slots { cache.new.slots ≡ 4 }
{
    if let Some(row) = cache.look(address) {
        if row.dirty {
            cache.clean(address);
        }
    }
}

// The first two dirty addresses by age.
fn by_age(cache: &MetaCache) -> (Option<u32>, Option<u32>) {
    match cache.next_dirty(None) {
        None => (None, None),
        Some(first) => (Some(first), cache.next_dirty(Some(first))),
    }
}

// The first two dirty addresses of a slot, but for one.
fn of_slot(cache: &MetaCache, slot: u32, skip: u32) -> (Option<u32>, Option<u32>)
    requires slot { slot < 4 }
    requires slots { cache.now.slots ≡ 4 }
{
    match cache.next_referrer(slot, skip, None) {
        None => (None, None),
        Some(first) => (Some(first), cache.next_referrer(slot, skip, Some(first))),
    }
}

#[test]
fn a_dirty_address_that_is_written_again_keeps_its_place(rt: HostRuntime) -> Result<(), Fail> {
    let mut cache = MetaCache::new(rt.alloc(), 4, 4)?;
    put(&mut cache, 5, Link::Slot(0), true);
    put(&mut cache, 6, Link::Slot(0), false);
    put(&mut cache, 7, Link::Zero, true);
    put(&mut cache, 5, Link::Slot(1), true);
    assert_eq!(rt; by_age(&cache), (Some(5), Some(7)));
    assert_eq!(rt; cache.next(None), Some(5));
    assert_eq!(rt; cache.next(Some(5)), Some(7));
    assert_eq!(rt; cache.next(Some(7)), Some(6));
    assert_eq!(rt; cache.next(Some(6)), None);
    wash(&mut cache, 5);
    assert_eq!(rt; by_age(&cache), (Some(7), None));
    put(&mut cache, 5, Link::Slot(1), true);
    assert_eq!(rt; by_age(&cache), (Some(7), Some(5)));
    Ok(())
}

#[test]
fn a_renewed_address_keeps_its_row(rt: HostRuntime) -> Result<(), Fail> {
    let mut cache = MetaCache::new(rt.alloc(), 4, 4)?;
    cache.front(5, Link::Slot(3), false, FP);
    cache.front(8, Link::Slot(3), false, FP);
    cache.renew(5);
    assert_eq!(rt; cache.walk(None), Some(OLDEST));
    assert_eq!(rt; cache.walk(Some(5)), Some(NEWEST));
    assert_eq!(rt; cache.walk(Some(8)), None);
    Ok(())
}

#[test]
fn a_slot_is_owed_by_its_dirty_addresses_alone(rt: HostRuntime) -> Result<(), Fail> {
    let mut cache = MetaCache::new(rt.alloc(), 4, 4)?;
    put(&mut cache, 5, Link::Slot(0), true);
    put(&mut cache, 6, Link::Slot(0), false);
    put(&mut cache, 7, Link::Zero, true);
    assert_eq!(rt; of_slot(&cache, 0, 9), (Some(5), None));
    assert_eq!(rt; cache.dirty_of(0, 5), None);
    assert!(rt; cache.is_referred(0));
    put(&mut cache, 6, Link::Slot(0), true);
    assert_eq!(rt; cache.dirty_of(0, 5), Some(6));
    assert_eq!(rt; cache.dirty_of(0, 6), Some(5));
    wash(&mut cache, 5);
    wash(&mut cache, 6);
    assert_eq!(rt; cache.dirty_of(0, 9), None);
    assert!(rt; cache.is_referred(0));
    assert!(rt; !cache.is_referred(1));
    Ok(())
}

#[test]
fn rows_are_taken_in_and_given_back(rt: HostRuntime) -> Result<(), Fail> {
    let mut cache = MetaCache::new(rt.alloc(), 3, 4)?;
    cache.fill(&[NEWEST, ZERO, OLDEST]);
    assert_eq!(rt; cache.walk(None), Some(NEWEST));
    assert_eq!(rt; cache.walk(Some(6)), Some(OLDEST));
    assert_eq!(rt; cache.oldest_dirty(), Some(6));
    assert_eq!(rt; cache.victim(9), Some(5));
    assert_eq!(rt; cache.victim(8), None);
    assert_eq!(rt; cache.drop_back(), OLDEST);
    assert_eq!(rt; cache.victim(9), None);
    assert_eq!(rt; cache.look(5), None);
    cache.clear();
    assert_eq!(rt; cache.len(), 0);
    assert_eq!(rt; cache.oldest_dirty(), None);
    Ok(())
}

#[test]
fn the_links_to_a_slot_are_taken(rt: HostRuntime) -> Result<(), Fail> {
    let mut cache = MetaCache::new(rt.alloc(), 3, 4)?;
    cache.fill(&[NEWEST, ZERO, OLDEST]);
    cache.unlink_all(3);
    assert_eq!(rt; cache.look(8).map(|row| row.link), Some(Link::Lost));
    assert_eq!(rt; cache.look(6).map(|row| row.link), Some(Link::Zero));
    assert_eq!(rt; cache.look(5).map(|row| row.link), Some(Link::Lost));
    assert!(rt; !cache.is_referred(3));
    Ok(())
}
