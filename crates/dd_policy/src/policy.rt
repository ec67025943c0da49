// Both caches, coupled.
ghost use Rattle.std.proofs.Props.{props};
ghost use Rattle.dd_policy.specs.Coupling.{Couples};

use crate::blocks::victim;
use crate::counting::{count_unlinked, count_unreferred};
use crate::references::touch_both;
use crate::restoring::take_rows;
use crate::searching::search;
use dd_block::Fp;
use dd_data::DataCache;
use dd_meta::MetaCache;
use dd_model::{Block, Cut, Lists, Misfit, Orphans, Victims, Want};
use dd_record::{ARow, BRow, Rows};
use dd_rig::{Failed, Rig};
use dd_slots::Slots;
use std::alloc::{AllocError, Global};

/// Both recency lists, in linked nodes: the addresses in a metadata cache, the blocks in a data cache.
///
/// Each call takes a fixed number of steps, expected, and no memory. Where a block falls off, `touch`
/// takes as many more as addresses are linked to it; `confirm` reads the listed blocks with the
/// fingerprint; `restore` and `orphans` go along all rows. Only `new` takes memory.
#[derive(Drop)]
pub struct Policy {
    slots: u32,
    meta: MetaCache,
    blocks: DataCache,
    ghost keeps: { Couples slots meta blocks } by { Prim.hlevel props },
}

impl Rows for Policy {
    ghost use Rattle.dd_meta.specs.Entries.{rows_of};

    ghost a_rows = { λ lists. rows_of lists.meta };

    ghost b_rows = { λ lists. lists.blocks.rows };

    fn len_a(&self) -> u32 {
        self.meta.len()
    }

    fn len_b(&self) -> u32 {
        self.blocks.len()
    }

    fn walk_a(&self, after: Option<u32>) -> Option<ARow> {
        self.meta.walk(after)
    }

    fn walk_b(&self, after: Option<u32>) -> Option<BRow> {
        self.blocks.next(after)
    }
}

impl Lists for Policy {
    ghost use Rattle.std.specs.Prelude.{refl};
    ghost use Rattle.dd_meta.specs.Entries.{owed_to};
    ghost use Rattle.dd_policy.specs.Coupling.{listing_in};

    ghost listing = { λ lists. listing_in lists.meta lists.blocks };

    ghost referrers = { λ lists slot. owed_to slot lists.meta };

    ghost same_a = { λ lists. refl };

    ghost same_b = { λ lists. refl };

    ghost walked = { λ lists slot. lists.keeps.walked slot };

    ghost kept = { λ lists. lists.keeps.kept };

    fn new(alloc: Global, acap: u32, bcap: u32, slots: u32) -> Result<Self, AllocError> {
        Ok(Policy {
            slots,
            meta: MetaCache::new(alloc, acap, slots)?,
            blocks: DataCache::new(alloc, bcap, slots)?,
        })
    }

    fn look(&self, address: u32) -> Option<ARow> {
        self.meta.look(address)
    }

    fn block(&self, slot: u32) -> Option<BRow> {
        self.blocks.find(slot)
    }

    fn confirm<R: Rig>(
        &self,
        rig: &mut R,
        slots: &Slots,
        fp: Fp,
        block: &[u8],
        scratch: &mut [u8],
    ) -> Result<Option<u32>, Failed> {
        search(rig, slots, &self.blocks, fp, block, scratch)
    }

    fn victims(&self, address: u32, want: Want) -> Victims {
        Victims {
            out: self.meta.victim(address),
            drop: victim(&self.blocks, want),
        }
    }

    fn dirty_of(&self, slot: u32, skip: u32) -> Option<u32> {
        if slot < self.slots {
            self.meta.dirty_of(slot, skip)
        } else {
            None
        }
    }

    fn next_referrer(&self, slot: u32, skip: u32, after: Option<u32>) -> Option<u32> {
        if slot < self.slots {
            self.meta.next_referrer(slot, skip, after)
        } else {
            None
        }
    }

    fn touch(&mut self, address: u32, block: Block, dirty: bool) -> Cut {
        touch_both(&mut self.meta, &mut self.blocks, address, block, dirty)
    }

    fn set_clean(&mut self, address: u32) {
        self.meta.clean(address);
    }

    fn oldest_dirty(&self) -> Option<u32> {
        self.meta.oldest_dirty()
    }

    fn next_dirty(&self, after: Option<u32>) -> Option<u32> {
        self.meta.next_dirty(after)
    }

    fn restore(&mut self, b: &[BRow], a: &[ARow]) -> Result<(), Misfit> {
        take_rows(&mut self.meta, &mut self.blocks, b, a)
    }

    fn orphans(&self) -> Orphans {
        Orphans {
            a: count_unlinked(&self.meta),
            b: count_unreferred(&self.blocks, &self.meta),
        }
    }
}
