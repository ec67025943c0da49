// The store.
ghost use Rattle.std.specs.Prelude.{◌≡◌, ◌⊎◌, ◌+◌, ◌-◌, ◌^◌, ◌<◌, ◌≤◌, [], length, true, Ok, None, IfOk, OnOk, OnErr, IfErr, IsTrue, ℕ};
ghost use Rattle.dd_rig.specs.declared.device.Dev.TheVariants.{Flash, Disk};
ghost use Rattle.dd_rig.specs.Counts.{CalledAtMost, Makes, up_to, nothing, plus, count_sync};
ghost use Rattle.dd_model.specs.State.{State};
ghost use Rattle.dd_layout.specs.Layout.{flash_need, disk_need};
ghost use Rattle.dd_journal.specs.Regions.{AreRows};
ghost use Rattle.dd_journal.specs.Sitting.{Sits, IsStable};
ghost use Rattle.dd_store.specs.Meaning.{HasBehind, Basis, Means, KeepsPace};
ghost use Rattle.dd_store.specs.declared.fault.StoreFault.TheVariants.{FlashRead, DiskRead, FlashWrite, DiskWrite};
ghost use Rattle.dd_store.specs.Keeping.{IsStore, Holds, Kept, slots_shown};
ghost use Rattle.dd_store.specs.Committing.{committed_store};
ghost use Rattle.dd_store.specs.Laying.{MayLay, marked_store};
ghost use Rattle.dd_store.specs.Saving.{AreUsesOf};
ghost use Rattle.dd_store.specs.Serving.{store_of, HasLimits, IsReady, MayCall, Serves, HoldsThen, GrowsLittle, LaysOn, unlaid, downed};
ghost use Rattle.dd_store.specs.Calls.{IsSilent, Rests, FailsBy, CostsOfFlush};

use crate::StoreFault;
use crate::commit::commit_rows;
use crate::lay::{lay_row, sync_laid};
use crate::mark::mark_all;
use crate::used::used_slots;
use dd_block::{Fingerprint, Geometry};
use dd_journal::Journal;
use dd_layout::slot_at;
use dd_model::Lists;
use dd_record::Rec;
use dd_rig::Rig;
use dd_slots::Slots;
use std::alloc::{AllocError, Global};
use std::marker::Model;

mod accessors;
mod bringing;
mod cleans;
mod reading;
mod refers;
mod room;
mod rounds;
mod ticks;
mod writing;

/// A cache over two devices: the array and both recency lists, of which what is committed survives a
/// crash.
///
/// It holds no device. A contract sees its rows, its count, its pending records, which addresses are
/// dirty and laid, what each slot is used for, and its journal; `Kept` says what holds between it and
/// the devices.
#[derive(Drop)]
pub struct Store<F: Fingerprint, L: Lists> {
    up: bool,
    geo: Geometry,
    print: F,
    journal: Journal,
    lists: L,
    slots: Slots,
    count: u64,
    pending: Vec<Rec>,
    laid: Vec<u32>,
    // room for a block
    block: Vec<u8>,
}

impl<F: Fingerprint, L: Lists> Model for Store<F, L> {
    ghost use Rattle.std.specs.Prelude.{◌≡◌, ◌≤◌, true, length, vec_capacity};
    ghost use Rattle.dd_store.specs.Keeping.{IsStore};
    ghost use Rattle.dd_store.specs.Saving.{AreSlotsOf};
    ghost use Rattle.dd_store.specs.Serving.{StoreOf, HasLimits, store_of};

    ghost Value = { StoreOf F };

    ghost view = { λ s. record { print = s.print; store = store_of s.up s.journal (L.listing s.lists) s.count s.pending.items s.slots.uses s.laid.items } };

    ghost invariant = { λ s. (s.journal.geo ≡ s.geo) × (length s.block.items ≡ s.geo.block) × (s.geo.group ≤ vec_capacity s.laid) × (s.geo.group ≤ vec_capacity s.pending)
        × AreSlotsOf s.geo s.slots × HasLimits s.geo (L.listing s.lists) × (length s.laid.items ≤ s.geo.group)
        × (s.up ≡ true → IsStore (store_of s.up s.journal (L.listing s.lists) s.count s.pending.items s.slots.uses s.laid.items)) × (length s.pending.items ≤ s.geo.group) };
}

impl<F: Fingerprint, L: Lists> Store<F, L> {
    /// A store over what a journal committed: these lists, and so many references. It holds what the
    /// devices stand for, where both are stable, the journal sits on the rig and the committed rows are
    /// the lists'. It takes memory for a block, for the slots, and for `group` records.
    pub fn new<R: Rig>(
        alloc: Global,
        rig: &R,
        geo: Geometry,
        print: F,
        lists: L,
        journal: Journal,
        count: u64,
    ) -> Result<Self, AllocError>
        requires limits { HasLimits geo (L.listing lists) }
        requires rows { AreRows geo 2 (L.listing lists).table }
        requires up { IsTrue journal.is_up }
        requires geometry { journal.geo ≡ geo }
        requires version { journal.version ≡ 2 }
        requires count { count ≡ journal.committed }
        ensures print { IfOk result (λ new. new.print ≡ print) }
        ensures store { IfOk result (λ new. new.store ≡ store_of true journal (L.listing lists) count [] new.store.uses []) }
        ensures uses { IfOk result (λ new. AreUsesOf geo (L.listing lists).table.b new.store.uses) }
        ensures kept { R.tells → IfOk result (λ new. (basis : Basis) (s : State) → IsStable (R.world rig.now).flash → IsStable (R.world rig.now).disk → disk_need geo ≤ R.device_size rig.now Disk
            → Sits journal (R.world rig.now) (L.listing lists).table → KeepsPace basis.room journal.epoch (L.listing lists).table.a count
            → HasBehind basis geo (R.world rig.now).flash.shown (R.world rig.now).disk.shown
            → Means (F.printed print) geo (R.world rig.now).flash.shown (R.world rig.now).disk.shown (L.listing lists).table count s
            → Kept basis (F.printed print) new.store (R.world rig.now) s s) }
    {
        let used = used_slots(alloc, &lists, geo.slots())?;
        let slots = Slots::new(
            alloc,
            slot_at(geo, 0),
            geo.block,
            geo.slots(),
            used.as_slice(),
        )?;
        Ok(Store {
            up: true,
            geo,
            print,
            journal,
            lists,
            slots,
            count,
            pending: Vec::with_capacity(alloc, geo.group as usize)?,
            laid: Vec::with_capacity(alloc, geo.group as usize)?,
            block: vec![in alloc; 0; geo.block as usize]?,
        })
    }

    // Commits what is pending. The slots that waited are free then.
    fn commit<R: Rig>(&mut self, rig: &mut R) -> Result<(), StoreFault>
        requires up { IsTrue self.old.store.is_up }
        requires epoch { self.old.store.journal.epoch < 2 ^ 64 - 1 }
        requires flash { flash_need self.old.store.journal.geo ≤ R.device_size rig.old Flash }
        ensures serves { R.tells → (basis : Basis) (c s : State) → Kept basis (F.printed self.old.print) self.old.store (R.world rig.old) c s
            → Serves basis (F.printed self.old.print) result (R.clock rig.old) (R.clock rig.new) self.new.store (R.world rig.new) c s s }
        ensures committed { R.tells → (basis : Basis) (c s : State) → Kept basis (F.printed self.old.print) self.old.store (R.world rig.old) c s
            → OnOk result (Kept basis (F.printed self.old.print) self.new.store (R.world rig.new) s s) }
        ensures holds { R.tells → (s : State) → Holds (F.printed self.old.print) self.old.store (R.world rig.old) s
            → HoldsThen (F.printed self.old.print) result s s self.new.store (R.world rig.new) }
        ensures silent { R.tells → IsSilent (R.clock rig.old) (R.clock rig.new) (R.world rig.old) (R.world rig.new) }
        ensures slots { R.tells → slots_shown self.old.store.journal.geo (R.world rig.new) ≡ slots_shown self.old.store.journal.geo (R.world rig.old) }
        ensures store { OnOk result (self.new.store ≡ committed_store (unlaid self.old.store) self.new.store.journal) }
        ensures journal { OnOk result (self.new.store.journal.committed ≡ self.old.store.count) }
        ensures geometry { self.new.store.journal.geo ≡ self.old.store.journal.geo }
        ensures epoch { (self.new.store.journal.epoch ≡ self.old.store.journal.epoch) ⊎ (self.new.store.journal.epoch ≡ self.old.store.journal.epoch + 1) }
        ensures rows { (self.new.store.count ≡ self.old.store.count) × (self.new.store.dirty ≡ self.old.store.dirty) }
        ensures fault { IfErr result (λ fault. fault ≡ FlashWrite) }
        ensures disk { CalledAtMost nothing (R.counts rig.old).disk (R.counts rig.new).disk }
        ensures costs { CostsOfFlush self.old.store (R.counts rig.old) (R.counts rig.new) }
        ensures rests { Rests result self.old self.new }
        ensures fails { FailsBy result (R.counts rig.old) (R.counts rig.new) (R.device_size rig.old) (R.device_size rig.new) }
    {
        self.laid.clear();
        match commit_rows(
            &mut self.journal,
            rig,
            &self.lists,
            self.count,
            self.pending.as_slice(),
        ) {
            Err(_) => {
                self.up = false;
                Err(StoreFault::FlashWrite)
            }
            Ok(()) => {
                self.pending.clear();
                self.slots.settle();
                Ok(())
            }
        }
    }

    /// Commits what is pending, and answers how many references are committed: all of them.
    /// `FlashWrite` comes only where a write or a sync of the flash failed. The store is down then.
    pub fn flush<R: Rig>(&mut self, rig: &mut R) -> Result<u64, StoreFault>
        requires { MayCall self.old.store (R.device_size rig.old) }
        ensures serves { R.tells → (basis : Basis) (c s : State) → Kept basis (F.printed self.old.print) self.old.store (R.world rig.old) c s
            → Serves basis (F.printed self.old.print) result (R.clock rig.old) (R.clock rig.new) self.new.store (R.world rig.new) c s s }
        ensures committed { R.tells → (basis : Basis) (c s : State) → Kept basis (F.printed self.old.print) self.old.store (R.world rig.old) c s
            → OnOk result (Kept basis (F.printed self.old.print) self.new.store (R.world rig.new) s s) }
        ensures holds { R.tells → (s : State) → Holds (F.printed self.old.print) self.old.store (R.world rig.old) s
            → HoldsThen (F.printed self.old.print) result s s self.new.store (R.world rig.new) }
        ensures silent { R.tells → IsSilent (R.clock rig.old) (R.clock rig.new) (R.world rig.old) (R.world rig.new) }
        ensures count { IfOk result (λ n. (n ≡ self.old.store.count) × (self.new.store.journal.committed ≡ n)) }
        ensures store { OnOk result (self.new.store ≡ committed_store (unlaid self.old.store) self.new.store.journal) }
        ensures fault { IfErr result (λ fault. fault ≡ FlashWrite) }
        ensures grows { GrowsLittle self.old.store self.new.store }
        ensures costs { CostsOfFlush self.old.store (R.counts rig.old) (R.counts rig.new) }
        ensures rests { Rests result self.old self.new }
        ensures fails { FailsBy result (R.counts rig.old) (R.counts rig.new) (R.device_size rig.old) (R.device_size rig.new) }
    {
        match self.commit(rig) {
            Err(fault) => Err(fault),
            Ok(()) => Ok(self.count),
        }
    }

    /// Writes the block of a dirty address to the disk, where nothing is pending. It isn't marked
    /// clean yet. It reads its slot first, unless the block is zero. After `FlashRead` nothing is laid;
    /// after `DiskWrite` the store is down.
    pub fn lay<R: Rig>(&mut self, rig: &mut R, address: u32) -> Result<(), StoreFault>
        requires call { IsReady self.old.store (R.device_size rig.old) }
        requires may { MayLay self.old.store address }
        requires few { length self.old.store.laid < self.old.store.journal.geo.group }
        ensures serves { R.tells → (basis : Basis) (c s : State) → Kept basis (F.printed self.old.print) self.old.store (R.world rig.old) c s
            → Serves basis (F.printed self.old.print) result (R.clock rig.old) (R.clock rig.new) self.new.store (R.world rig.new) c s s }
        ensures holds { R.tells → (s : State) → Holds (F.printed self.old.print) self.old.store (R.world rig.old) s
            → HoldsThen (F.printed self.old.print) result s s self.new.store (R.world rig.new) }
        ensures silent { R.tells → IsSilent (R.clock rig.old) (R.clock rig.new) (R.world rig.old) (R.world rig.new) }
        ensures flash { R.tells → (R.world rig.new).flash ≡ (R.world rig.old).flash }
        ensures store { LaysOn result address self.old.store self.new.store }
        ensures print { self.new.print ≡ self.old.print }
        ensures calls { Makes (up_to 1 0 0) (up_to 0 1 self.old.store.journal.geo.block) (R.counts rig.old) (R.counts rig.new) }
        ensures written { OnOk result ((R.counts rig.new).disk.written ≡ plus (R.counts rig.old).disk.written self.old.store.journal.geo.block) }
        ensures fails { FailsBy result (R.counts rig.old) (R.counts rig.new) (R.device_size rig.old) (R.device_size rig.new) }
    {
        match self.lists.look(address) {
            None => Ok(()),
            Some(row) => {
                match lay_row(rig, &self.slots, self.geo, row, self.block.as_mut_slice()) {
                    Ok(()) => {
                        self.laid.push_reserved(address);
                        Ok(())
                    }
                    Err(fault) => {
                        match fault {
                            StoreFault::FlashRead => self.laid.clear(),
                            StoreFault::DiskRead => {}
                            StoreFault::FlashWrite => {}
                            StoreFault::DiskWrite => self.up = false,
                        }
                        Err(fault)
                    }
                }
            }
        }
    }

    /// Syncs the disk and marks the laid addresses clean: a Clean record of each is pending then.
    /// After `DiskWrite` the store is down.
    pub fn mark<R: Rig>(&mut self, rig: &mut R) -> Result<(), StoreFault>
        requires call { IsReady self.old.store (R.device_size rig.old) }
        requires some { 0 < length self.old.store.laid }
        ensures serves { R.tells → (basis : Basis) (c s : State) → Kept basis (F.printed self.old.print) self.old.store (R.world rig.old) c s
            → Serves basis (F.printed self.old.print) result (R.clock rig.old) (R.clock rig.new) self.new.store (R.world rig.new) c s s }
        ensures holds { R.tells → (s : State) → Holds (F.printed self.old.print) self.old.store (R.world rig.old) s
            → HoldsThen (F.printed self.old.print) result s s self.new.store (R.world rig.new) }
        ensures silent { R.tells → IsSilent (R.clock rig.old) (R.clock rig.new) (R.world rig.old) (R.world rig.new) }
        ensures flash { R.tells → (R.world rig.new).flash ≡ (R.world rig.old).flash }
        ensures ok { OnOk result (self.new.store ≡ marked_store self.old.store) }
        ensures fewer { OnOk result (length self.new.store.dirty + length self.old.store.laid ≡ length self.old.store.dirty) }
        ensures down { OnErr result (self.new.store ≡ downed self.old.store) }
        ensures fault { IfErr result (λ fault. fault ≡ DiskWrite) }
        ensures print { self.new.print ≡ self.old.print }
        ensures counts { R.counts rig.new ≡ count_sync Disk result (R.counts rig.old) }
        ensures fails { FailsBy result (R.counts rig.old) (R.counts rig.new) (R.device_size rig.old) (R.device_size rig.new) }
    {
        match sync_laid(rig) {
            Err(_) => {
                self.up = false;
                Err(StoreFault::DiskWrite)
            }
            Ok(()) => {
                mark_all(&mut self.lists, &mut self.pending, self.laid.as_slice());
                self.laid.clear();
                Ok(())
            }
        }
    }
}
