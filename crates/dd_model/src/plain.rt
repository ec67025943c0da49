// Both lists in plain vectors.
ghost use Rattle.std.specs.Prelude.{◌<◌, ◌≤◌, vec_capacity};
ghost use Rattle.std.proofs.Props.{props};
ghost use Rattle.dd_model.specs.Listing.{IsListing, listing_of};

use crate::misfit::find_misfit;
use crate::orphans::{count_unlinked, count_unreferred};
use crate::search::confirm;
use crate::touching::{is_new, mark_dirty, row_of, touch_rows, victims_in};
use crate::vectors::{
    behind_address, behind_number, behind_slot, clean, fill, find_address, find_referrer,
    find_slot, list_dirty, next_referrer, take_out_number,
};
use crate::{Block, Cut, Lists, Misfit, Orphans, Victims, Want};
use dd_block::Fp;
use dd_record::{ARow, BRow, Rows};
use dd_rig::{Failed, Rig};
use dd_slots::Slots;
use std::alloc::{AllocError, Global};

/// Both recency lists and the dirty addresses in a vector each. Each call but `oldest_dirty` takes
/// time in proportion to the rows, and `restore` and `orphans` to their square.
#[derive(Drop)]
pub struct PlainLists {
    acap: u32,
    bcap: u32,
    slots: u32,
    a: Vec<ARow>,
    b: Vec<BRow>,
    // the one that became dirty longest ago first
    dirty: Vec<u32>,
    ghost a_room: { acap < vec_capacity a },
    ghost b_room: { bcap < vec_capacity b },
    ghost dirty_room: { acap ≤ vec_capacity dirty },
    ghost keeps: { IsListing (listing_of acap bcap slots b.items a.items dirty.items) } by { Prim.hlevel props },
}

impl Rows for PlainLists {
    ghost a_rows = { λ lists. lists.a.items };

    ghost b_rows = { λ lists. lists.b.items };

    fn len_a(&self) -> u32 {
        let acap = self.acap;
        self.a.len() as u32
    }

    fn len_b(&self) -> u32 {
        let bcap = self.bcap;
        self.b.len() as u32
    }

    fn walk_a(&self, after: Option<u32>) -> Option<ARow> {
        match after {
            None => self.a.first().copied(),
            Some(address) => behind_address(&self.a, address),
        }
    }

    fn walk_b(&self, after: Option<u32>) -> Option<BRow> {
        match after {
            None => self.b.first().copied(),
            Some(slot) => behind_slot(&self.b, slot),
        }
    }
}

impl Lists for PlainLists {
    ghost use Rattle.std.specs.Prelude.{refl};
    ghost use Rattle.dd_model.specs.Listing.{listing_of};
    ghost use Rattle.dd_model.specs.Plain.{owed_to};
    ghost use Rattle.dd_model.specs.Laws.{owed_ones};

    ghost listing = { λ lists. listing_of lists.acap lists.bcap lists.slots lists.b.items lists.a.items lists.dirty.items };

    ghost referrers = { λ lists slot. owed_to slot lists.a.items };

    ghost same_a = { λ lists. refl };

    ghost same_b = { λ lists. refl };

    ghost walked = { λ lists slot. owed_ones slot lists.a.items lists.keeps.fit.addresses };

    ghost kept = { λ lists. lists.keeps };

    fn new(alloc: Global, acap: u32, bcap: u32, slots: u32) -> Result<Self, AllocError> {
        Ok(PlainLists {
            acap,
            bcap,
            slots,
            a: Vec::with_capacity(alloc, acap as usize + 1)?,
            b: Vec::with_capacity(alloc, bcap as usize + 1)?,
            dirty: Vec::with_capacity(alloc, acap as usize)?,
        })
    }

    fn look(&self, address: u32) -> Option<ARow> {
        find_address(&self.a, address)
    }

    fn block(&self, slot: u32) -> Option<BRow> {
        find_slot(&self.b, slot)
    }

    fn confirm<R: Rig>(
        &self,
        rig: &mut R,
        slots: &Slots,
        fp: Fp,
        block: &[u8],
        scratch: &mut [u8],
    ) -> Result<Option<u32>, Failed> {
        confirm(rig, slots, &self.b, fp, block, scratch)
    }

    fn victims(&self, address: u32, want: Want) -> Victims {
        victims_in(self.acap, self.bcap, &self.b, &self.a, address, want)
    }

    fn dirty_of(&self, slot: u32, skip: u32) -> Option<u32> {
        find_referrer(&self.a, slot, skip)
    }

    fn next_referrer(&self, slot: u32, skip: u32, after: Option<u32>) -> Option<u32> {
        next_referrer(&self.a, slot, skip, after)
    }

    fn touch(&mut self, address: u32, block: Block, dirty: bool) -> Cut {
        let block = row_of(&self.b, block);
        let new = is_new(&self.a, address, dirty);
        let cut = touch_rows(
            self.acap,
            self.bcap,
            &mut self.b,
            &mut self.a,
            address,
            block,
            dirty,
        );
        mark_dirty(&mut self.dirty, address, new);
        cut
    }

    fn set_clean(&mut self, address: u32) {
        clean(&mut self.a, address);
        take_out_number(&mut self.dirty, address);
    }

    fn oldest_dirty(&self) -> Option<u32> {
        self.dirty.first().copied()
    }

    fn next_dirty(&self, after: Option<u32>) -> Option<u32> {
        match after {
            None => self.dirty.first().copied(),
            Some(address) => behind_number(&self.dirty, address),
        }
    }

    fn restore(&mut self, b: &[BRow], a: &[ARow]) -> Result<(), Misfit> {
        let bcap = self.bcap;
        let acap = self.acap;
        match find_misfit(b, a) {
            Some(misfit) => Err(misfit),
            None => {
                fill(&mut self.b, b);
                fill(&mut self.a, a);
                list_dirty(a, &mut self.dirty);
                Ok(())
            }
        }
    }

    fn orphans(&self) -> Orphans {
        let acap = self.acap;
        let bcap = self.bcap;
        Orphans {
            a: count_unlinked(&self.a),
            b: count_unreferred(&self.b, &self.a),
        }
    }
}
