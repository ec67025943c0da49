// Walks: along the rows, along the dirty addresses by age, and along those of a slot.
ghost use Rattle.std.specs.Prelude.{◌≡◌, ◌<◌, None, option_map, slice_get};
ghost use Rattle.std.specs.List.{list_any};
ghost use Rattle.dd_record.specs.Table.{is_slot};
ghost use Rattle.dd_record.specs.Listed.{a_walk};
ghost use Rattle.dd_meta.specs.Entries.{rows_of, owed_to};
ghost use Rattle.dd_meta.specs.Keeping.{IsReferrer};
ghost use Rattle.dd_meta.specs.Walks.{but, next_of, IsWalked};

use crate::MetaCache;
use crate::lanes::{ALL, address_of, has_any, pass, row_of};
use dd_lists::Lane;
use dd_record::ARow;

impl MetaCache {
    /// A dirty address linked to a slot, other than `skip`: the first that a walk along them comes to. None exactly where there is none.
    pub fn dirty_of(&self, slot: u32, skip: u32) -> Option<u32>
        requires { slot < self.now.slots }
        ensures first { result ≡ next_of None (but skip (owed_to slot self.now)) }
        ensures referrer { IsReferrer slot skip (rows_of self.now) result }
    {
        pass(&self.nodes, skip, self.nodes.front(Lane::Referrers, slot))
    }

    /// Whether an address is linked to a slot.
    pub fn is_referred(&self, slot: u32) -> bool
        requires { slot < self.now.slots }
        ensures { result ≡ list_any (λ row. is_slot slot row.link) (rows_of self.now) }
    {
        has_any(&self.nodes, slot) || has_any(&self.nodes, self.slots + slot)
    }

    /// The address that became dirty longest ago.
    pub fn oldest_dirty(&self) -> Option<u32>
        ensures { result ≡ slice_get self.now.dirty 0 }
    {
        address_of(&self.nodes, self.nodes.back(Lane::Waiting, ALL))
    }

    /// The dirty address that became dirty next after a dirty one, or the oldest.
    pub fn next_dirty(&self, after: Option<u32>) -> Option<u32>
        requires { IsWalked after self.now.dirty }
        ensures { result ≡ next_of after self.now.dirty }
    {
        match after {
            None => self.oldest_dirty(),
            Some(address) => match self.index.first(u64::from(address)) {
                Some(node) => address_of(&self.nodes, self.nodes.prev(Lane::Waiting, node)),
                None => None,
            },
        }
    }

    /// A dirty address linked to a slot, other than `skip`: the first of a walk, or the one behind that which it gave before.
    ///
    /// A walk comes to each of them once. It goes on as before where an address that it gave is clean meanwhile.
    pub fn next_referrer(&self, slot: u32, skip: u32, after: Option<u32>) -> Option<u32>
        requires slot { slot < self.now.slots }
        requires walked { IsWalked after (but skip (owed_to slot self.now)) }
        ensures { result ≡ next_of after (but skip (owed_to slot self.now)) }
    {
        match after {
            None => pass(&self.nodes, skip, self.nodes.front(Lane::Referrers, slot)),
            Some(address) => match self.index.first(u64::from(address)) {
                Some(node) => pass(&self.nodes, skip, self.nodes.next(Lane::Referrers, node)),
                None => None,
            },
        }
    }

    /// The first row, or the one behind that of an address; None where it isn't listed.
    pub fn walk(&self, after: Option<u32>) -> Option<ARow>
        ensures { result ≡ a_walk after (rows_of self.now) }
    {
        match after {
            None => row_of(&self.nodes, self.nodes.front(Lane::Recency, ALL)),
            Some(listed) => match self.index.first(u64::from(listed)) {
                Some(node) => row_of(&self.nodes, self.nodes.next(Lane::Recency, node)),
                None => None,
            },
        }
    }

    /// The first address, or the one behind an address that is listed.
    pub fn next(&self, address: Option<u32>) -> Option<u32>
        ensures { result ≡ option_map (λ row. row.address) (a_walk address (rows_of self.now)) }
    {
        match self.walk(address) {
            Some(row) => Some(row.address),
            None => None,
        }
    }
}
