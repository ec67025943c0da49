// The listed blocks, in a linked list, found by their slot and by their fingerprint.
ghost use Rattle.std.specs.Prelude.{◌≡◌, ◌-◌, ◌<◌, ◌≤◌, ◌==◌, [], ◌∷◌, Some, None, IsTrue, is_some, take, length, if◌then◌else◌, IfOk};
ghost use Rattle.dd_record.specs.Table.{b_row};
ghost use Rattle.dd_record.specs.Listed.{b_walk};
ghost use Rattle.dd_data.specs.Blocks.{alike, fronted_row, last_row, IsData};

use crate::walks::{is_listed_as, key_of, print_at, row_at, row_of, seek};
use dd_block::Fp;
use dd_index::Index;
use dd_lists::Lists;
use dd_record::BRow;
use std::alloc::{AllocError, Global};
use std::marker::Model;

/// The one list of slots.
const ALL: u32 = 0;

/// The rows of the listed blocks, the most recently referenced first, seen as that list, how long it
/// may be, and how many slots there are.
///
/// A block's number in the list and in the index is its slot. Each call but `new` takes a fixed number of
/// steps and no memory, but for `candidate`: it goes along the blocks with one key, a fixed number, expected.
#[derive(Drop)]
pub struct DataCache {
    bcap: u32,
    // How many blocks are listed.
    count: u32,
    recency: Lists,
    // The slots under the keys of their fingerprints.
    index: Index,
    // The fingerprint of each slot whose block is listed.
    prints: Vec<Option<Fp>>,
}

impl Model for DataCache {
    ghost use Rattle.dd_data.specs.Blocks.{Data};

    ghost Value = { Data };

    ghost use Rattle.dd_data.specs.Matching.{shown, Matches};

    ghost view = { λ d. shown d.bcap d.recency d.prints.items };

    ghost invariant = { λ d. Matches d.bcap d.count d.recency d.index d.prints.items };
}

impl DataCache {
    /// No blocks, room for `bcap` of them, in slots below `slots`.
    pub fn new(alloc: Global, bcap: u32, slots: u32) -> Result<Self, AllocError>
        requires { 1 ≤ bcap }
        ensures { IfOk result (λ made. made ≡ record { bcap = bcap; slots = slots; rows = [] }) }
    {
        Ok(DataCache {
            bcap,
            count: 0,
            recency: Lists::new(alloc, slots, 1)?,
            index: Index::new(alloc, bcap, slots)?,
            prints: vec![in alloc; None; slots as usize]?,
        })
    }

    /// How many blocks are listed.
    pub fn len(&self) -> u32
        ensures count { result ≡ length self.now.rows }
        ensures kept { IsData self.now }
    {
        self.count
    }

    /// The row of a slot; None exactly where its block isn't listed.
    pub fn find(&self, slot: u32) -> Option<BRow>
        ensures { result ≡ b_row slot self.now.rows }
    {
        match print_at(&self.prints, slot) {
            Some(fp) => Some(BRow { slot, fp }),
            None => None,
        }
    }

    /// The last row; None exactly where no block is listed.
    pub fn last(&self) -> Option<BRow>
        ensures { result ≡ last_row self.now.rows }
    {
        row_of(&self.prints, self.recency.back(ALL))
    }

    /// The row that falls off where a block comes that isn't listed: the last one, where the list is full.
    pub fn victim(&self) -> Option<BRow>
        ensures { result ≡ (if length self.now.rows == self.now.bcap then last_row self.now.rows else None) }
    {
        if self.count == self.bcap {
            self.last()
        } else {
            None
        }
    }

    /// The first row, or the one behind that of a slot. None behind the last one, and behind a slot
    /// whose block isn't listed.
    pub fn next(&self, after: Option<u32>) -> Option<BRow>
        ensures { result ≡ b_walk after self.now.rows }
    {
        match after {
            None => row_of(&self.prints, self.recency.front(ALL)),
            Some(slot) => match print_at(&self.prints, slot) {
                Some(_) => row_of(&self.prints, self.recency.next(slot)),
                None => None,
            },
        }
    }

    /// Of the rows with this fingerprint the first one, or the one behind that of a slot. None behind
    /// the last of them, and behind a slot whose row isn't one of them.
    pub fn candidate(&self, fp: Fp, after: Option<u32>) -> Option<BRow>
        ensures { result ≡ b_walk after (alike fp self.now.rows) }
    {
        match after {
            None => seek(&self.prints, &self.index, self.index.first(key_of(fp)), fp),
            Some(slot) => {
                if is_listed_as(&self.prints, slot, fp) {
                    seek(&self.prints, &self.index, self.index.next_same(slot), fp)
                } else {
                    None
                }
            }
        }
    }

    /// Moves the row of a listed block to the front.
    pub fn front_known(&mut self, slot: u32)
        requires { IsTrue (is_some (b_row slot self.old.rows)) }
        ensures { self.new ≡ record self.old { rows = fronted_row slot self.old.rows } }
    {
        self.recency.move_front(ALL, slot);
        self.index.move_front(slot);
    }

    /// Puts the row of a block that isn't listed in front.
    pub fn front_new(&mut self, row: BRow)
        requires room { length self.old.rows < self.old.bcap }
        requires slot { row.slot < self.old.slots }
        requires fresh { b_row row.slot self.old.rows ≡ None }
        ensures { self.new ≡ record self.old { rows = row ∷ self.old.rows } }
    {
        self.recency.push_front(ALL, row.slot);
        self.index.insert(key_of(row.fp), row.slot);
        self.prints[row.slot as usize] = Some(row.fp);
        self.count += 1;
    }

    /// Takes the last row away.
    pub fn drop_back(&mut self) -> BRow
        requires { 0 < length self.old.rows }
        ensures row { last_row self.old.rows ≡ Some result }
        ensures after { self.new ≡ record self.old { rows = take (length self.old.rows - 1) self.old.rows } }
    {
        match self.recency.back(ALL) {
            Some(slot) => {
                self.index.remove(slot);
                self.recency.unlink(slot);
                self.count -= 1;
                let row = row_at(&self.prints, slot);
                self.prints[slot as usize] = None;
                row
            }
            None => unreachable!(),
        }
    }
}
