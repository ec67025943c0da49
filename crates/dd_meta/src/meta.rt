//! The listed addresses, in linked lists, found by their number.
ghost use Rattle.std.specs.Prelude.{◌≡◌, ℕ, IsTrue, ◌-◌, ◌<◌, ◌≤◌, [], None, true, false, map, take, replicate, length, is_some, option_and_then, if◌then◌else◌, ◌&&◌, ◌==◌, not, slice_get, IfOk, IfSome};
ghost use Rattle.std.specs.List.{AllByRecursion};
ghost use Rattle.dd_record.specs.Table.{is_slot, is_link, is_dirty_at, a_row};
ghost use Rattle.dd_record.specs.Replay.{cleaned};
ghost use Rattle.dd_meta.specs.Matching.{IsBelow};
ghost use Rattle.dd_meta.specs.Keeping.{IsMeta};
ghost use Rattle.dd_meta.specs.Walks.{but};
ghost use Rattle.dd_meta.specs.Entries.{rows_of, node_of, row_of, row_named, owed_to, is_listed_address, last_address, Brings, Fronts, Renews, Writes, unlinked, unlinked_row};

mod filling;
mod steps;

use crate::lanes::{ALL, address_of, part, unlink_referrers, write};
use dd_block::Fp;
use dd_index::Index;
use dd_lists::{Lane, Nodes};
use dd_record::{ARow, Link};
use std::alloc::{AllocError, Global};
use std::marker::Model;

/// The listed addresses with their rows, the most recently referenced first, and the dirty ones, oldest first.
///
/// A node stands in the recency list, in the waiting list where it is dirty, and among the referrers of its slot
/// where it has one: the dirty ones of a slot in one list, the clean ones in another. A row that is linked to the
/// zero block has no slot and stands among no referrers.
///
/// `unlink_all` takes steps in proportion to the addresses linked to the slot; each other call a fixed number,
/// expected, and a chain of the index where it is given an address.
#[derive(Drop)]
pub struct MetaCache {
    acap: u32,
    slots: u32,
    nodes: Nodes<ARow>,
    index: Index,
}

impl Model for MetaCache {
    ghost use Rattle.dd_meta.specs.Entries.{Meta};

    ghost Value = { Meta };

    ghost use Rattle.dd_meta.specs.Matching.{shown, Matches};

    ghost view = { λ m. shown m.acap m.slots m.nodes };

    ghost invariant = { λ m. Matches m.acap m.slots m.nodes m.index };
}

impl MetaCache {
    /// No addresses, room for `acap` of them, and links to slots below `slots`.
    ///
    /// Where `acap` and twice `slots` don't fit 32 bits together, this is answered as want of memory.
    pub fn new(alloc: Global, acap: u32, slots: u32) -> Result<Self, AllocError>
        requires { 1 ≤ acap }
        ensures empty { IfOk result (λ made. made ≡ record { acap = acap; slots = slots; entries = []; dirty = []; owed = replicate slots [] }) }
        ensures keeps { IfOk result IsMeta }
    {
        let Some(lists) = slots.checked_add(slots) else {
            return Err(AllocError);
        };
        Ok(MetaCache {
            acap,
            slots,
            nodes: Nodes::reserve(alloc, acap, [1, lists, 1])?,
            index: Index::new(alloc, acap, acap)?,
        })
    }

    /// How many addresses are listed.
    pub fn len(&self) -> u32
        ensures count { result ≡ length self.now.entries }
        ensures keeps { IsMeta self.now }
    {
        self.nodes.len()
    }

    /// The node of an address; None exactly where it isn't listed.
    pub fn find(&self, address: u32) -> Option<u32>
        ensures node { result ≡ node_of address self.now }
        ensures row { option_and_then (λ node. row_of node self.now) result ≡ a_row address (rows_of self.now) }
        ensures live { IfSome result (λ node. is_some (row_of node self.now) ≡ true) }
        ensures keeps { IsMeta self.now }
    {
        self.index.first(u64::from(address))
    }

    /// The row of a node.
    pub fn row(&self, node: u32) -> ARow
        requires { is_some (row_of node self.now) ≡ true }
        ensures { row_of node self.now ≡ Some result }
    {
        *self.nodes.get(node)
    }

    /// The address at the back, which falls off where this one is referenced: where it isn't listed and the list is full.
    pub fn victim(&self, address: u32) -> Option<u32>
        ensures { result ≡ (if is_listed_address address self.now then None else if length self.now.entries == self.now.acap then last_address self.now else None) }
    {
        if self.is_full_without(address) {
            address_of(&self.nodes, self.nodes.back(Lane::Recency, ALL))
        } else {
            None
        }
    }

    // Whether an address that isn't listed finds no room.
    fn is_full_without(&self, address: u32) -> bool
        ensures { result ≡ (not (is_listed_address address self.now) && length self.now.entries == self.now.acap) }
    {
        self.find(address).is_none() && self.nodes.len() == self.acap
    }

    /// Makes the row of a linked address dirty. It is the newest of the dirty ones, unless it was dirty before.
    pub fn set_dirty(&mut self, node: u32)
        requires listed { is_some (row_of node self.old) ≡ true }
        requires linked { is_link (row_named node self.old).link ≡ true }
        ensures after { Writes self.old self.new node (record (row_named node self.old) { dirty = true }) }
        ensures keeps { IsMeta self.new }
    {
        let row = *self.nodes.get(node);
        write(
            &mut self.nodes,
            self.slots,
            node,
            ARow { dirty: true, ..row },
        );
    }

    /// Makes the row of an address clean.
    pub fn set_clean(&mut self, node: u32)
        requires { is_some (row_of node self.old) ≡ true }
        ensures after { Writes self.old self.new node (record (row_named node self.old) { dirty = false }) }
        ensures keeps { IsMeta self.new }
    {
        let row = *self.nodes.get(node);
        write(
            &mut self.nodes,
            self.slots,
            node,
            ARow {
                dirty: false,
                ..row
            },
        );
    }

    /// Makes a dirty address clean. A walk along the dirty ones, or along those of its slot, goes on behind it as before.
    pub fn clean(&mut self, address: u32)
        requires { IsTrue (is_dirty_at address (rows_of self.old)) }
        ensures rows { rows_of self.new ≡ cleaned address (rows_of self.old) }
        ensures dirty { self.new.dirty ≡ but address self.old.dirty }
        ensures owed { (slot : ℕ) → owed_to slot self.new ≡ but address (owed_to slot self.old) }
        ensures acap { self.new.acap ≡ self.old.acap }
        ensures slots { self.new.slots ≡ self.old.slots }
        ensures keeps { IsMeta self.new }
    {
        match self.find(address) {
            Some(node) => self.set_clean(node),
            None => unreachable!(),
        }
    }

    /// Puts an address in front with this link, dirtiness and fingerprint.
    ///
    /// An address that becomes dirty is the newest of the dirty ones; one that was dirty and stays so keeps its place.
    pub fn front(&mut self, address: u32, link: Link, dirty: bool, fp: Fp)
        requires room { is_listed_address address self.old ≡ false → length self.old.entries < self.old.acap }
        requires linked { dirty ≡ true → is_link link ≡ true }
        requires below { IsBelow self.old.slots link }
        ensures after { Fronts self.old self.new (record { address = address; link = link; dirty = dirty; fp = fp }) }
        ensures keeps { IsMeta self.new }
    {
        let node = self.bring(address, fp);
        let row = ARow {
            address,
            link,
            dirty,
            fp,
        };
        write(&mut self.nodes, self.slots, node, row);
    }

    /// Moves a listed address to the front. Its row stays.
    pub fn renew(&mut self, address: u32)
        requires { is_listed_address address self.old ≡ true }
        ensures after { IfSome (a_row address (rows_of self.old)) (Renews self.old self.new) }
        ensures keeps { IsMeta self.new }
    {
        match self.index.first(u64::from(address)) {
            Some(node) => self.nodes.move_front(Lane::Recency, ALL, node),
            None => unreachable!(),
        }
    }

    // The node of an address that is in front now. One that was not listed has this fingerprint, and no link.
    fn bring(&mut self, address: u32, fp: Fp) -> u32
        requires { is_listed_address address self.old ≡ false → length self.old.entries < self.old.acap }
        ensures { Brings self.old self.new address result }
    {
        match self.index.first(u64::from(address)) {
            Some(node) => {
                self.nodes.move_front(Lane::Recency, ALL, node);
                node
            }
            None => {
                let link = Link::Lost;
                let dirty = false;
                let node = self.nodes.add(ARow {
                    address,
                    link,
                    dirty,
                    fp,
                });
                self.nodes.push_front(Lane::Recency, ALL, node);
                self.index.insert(u64::from(address), node);
                node
            }
        }
    }

    /// Takes the back entry away, which isn't dirty.
    pub fn drop_back(&mut self) -> ARow
        requires some { 0 < length (rows_of self.old) }
        requires clean { IfSome (slice_get (rows_of self.old) (length (rows_of self.old) - 1)) (λ row. row.dirty ≡ false) }
        ensures row { slice_get (rows_of self.old) (length (rows_of self.old) - 1) ≡ Some result }
        ensures after { self.new ≡ record self.old { entries = take (length self.old.entries - 1) self.old.entries } }
        ensures rows { rows_of self.new ≡ take (length (rows_of self.old) - 1) (rows_of self.old) }
        ensures keeps { IsMeta self.new }
    {
        match self.nodes.back(Lane::Recency, ALL) {
            Some(node) => {
                part(&mut self.nodes, self.slots, node);
                self.nodes.unlink(Lane::Recency, node);
                self.index.remove(node);
                self.nodes.remove(node)
            }
            None => unreachable!(),
        }
    }

    /// Takes the links to a slot, to which no dirty address is linked.
    pub fn unlink_all(&mut self, slot: u32)
        requires below { slot < self.old.slots }
        requires clean { AllByRecursion (λ row. is_slot slot row.link ≡ true → row.dirty ≡ false) (rows_of self.old) }
        ensures after { self.new ≡ record self.old { entries = map (unlinked slot) self.old.entries } }
        ensures rows { rows_of self.new ≡ map (unlinked_row slot) (rows_of self.old) }
        ensures keeps { IsMeta self.new }
    {
        unlink_referrers(&mut self.nodes, self.slots, slot);
    }

    /// The row of an address, where it is listed.
    pub fn look(&self, address: u32) -> Option<ARow>
        ensures { result ≡ a_row address (rows_of self.now) }
    {
        match self.find(address) {
            Some(node) => Some(self.row(node)),
            None => None,
        }
    }
}
