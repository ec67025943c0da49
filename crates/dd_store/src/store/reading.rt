// A read.
ghost use Rattle.std.specs.Prelude.{◌≡◌, ◌<◌, ◌≤◌, ◌*◌, length, false, IfOk, IfErr, OnOk, IsTrue, ℕ};
ghost use Rattle.dd_rig.specs.declared.device.Dev.TheVariants.{Flash as FlashDevice, Disk as DiskDevice};
ghost use Rattle.dd_rig.specs.Clock.{AddsNone};
ghost use Rattle.dd_rig.specs.Counts.{count_read};
ghost use Rattle.dd_block.specs.Geometry.{slot_count};
ghost use Rattle.dd_layout.specs.Layout.{disk_block, disk_need, flash_need, slot_block};
ghost use Rattle.dd_record.specs.Table.{link_at};
ghost use Rattle.dd_model.specs.declared.kind.Kind.TheVariants.{Hit};
ghost use Rattle.dd_model.specs.Listing.{IsListing};
ghost use Rattle.dd_model.specs.Reference.{reference, read_answer, Tells};
ghost use Rattle.dd_model.specs.State.{State, content};
ghost use Rattle.dd_store.specs.declared.fault.StoreFault.TheVariants.{FlashRead, DiskRead};
ghost use Rattle.dd_store.specs.Meaning.{Basis, sizes_of};
ghost use Rattle.dd_store.specs.Keeping.{IsStore, Holds, Kept};
ghost use Rattle.dd_store.specs.Referring.{listing_in};
ghost use Rattle.dd_store.specs.Serving.{MayCall, Serves, HoldsThen, unlaid};
ghost use Rattle.dd_store.specs.Calls.{IsSilent, Rests, FailsBy, LeavesRows, CostsOfRead};

use super::Store;
use crate::StoreFault;
use dd_block::Fingerprint;
use dd_model::{Block, Done, Lists};
use dd_record::{Link, Rec};
use dd_rig::{Dev, Rig};

impl<F: Fingerprint, L: Lists> Store<F, L> {
    /// Reads the block of an address into `into`, and references the address with it. It answers the
    /// kind of the reference, and what fell off both lists.
    ///
    /// A linked address is read from its slot, one of zeros without a call; another one from the disk.
    /// After `FlashRead` and `DiskRead` the store holds what it held, though addresses may have been
    /// written back and be clean now; after `FlashWrite` and `DiskWrite` it is down. What is in `into`
    /// behind a fault is open. The cost is that of the lists, a hash of the block where the address
    /// isn't linked, and the rounds of write-back that a cut asks for.
    pub fn read<R: Rig>(
        &mut self,
        rig: &mut R,
        address: u32,
        into: &mut [u8],
    ) -> Result<Done, StoreFault>
        requires call { MayCall self.old.store (R.device_size rig.old) }
        requires below { address < self.old.store.journal.geo.blocks }
        requires long { length into.old ≡ self.old.store.journal.geo.block }
        ensures serves { R.tells → (basis : Basis) (c s : State) → Kept basis (F.printed self.old.print) self.old.store (R.world rig.old) c s
            → Serves basis (F.printed self.old.print) result (R.clock rig.old) (R.clock rig.new) self.new.store (R.world rig.new) c s
            (reference (sizes_of self.old.store.journal.geo) s address (content s.array address)) }
        ensures tells { R.tells → (s : State) → Holds (F.printed self.old.print) self.old.store (R.world rig.old) s
            → IfOk result (λ done. (into.new ≡ content s.array address) × Tells (F.printed self.old.print) done (read_answer (sizes_of self.old.store.journal.geo) s address)) }
        ensures holds { R.tells → (s : State) → Holds (F.printed self.old.print) self.old.store (R.world rig.old) s
            → HoldsThen (F.printed self.old.print) result s (reference (sizes_of self.old.store.journal.geo) s address (content s.array address)) self.new.store (R.world rig.new) }
        ensures silent { R.tells → IsSilent (R.clock rig.old) (R.clock rig.new) (R.world rig.old) (R.world rig.new) }
        ensures rows { LeavesRows address false result self.old.store self.new.store }
        ensures costs { CostsOfRead (F.printed self.old.print) address result into.new self.old.store self.new.store (R.counts rig.old) (R.counts rig.new) }
        ensures rests { Rests result self.old self.new }
        ensures fails { FailsBy result (R.counts rig.old) (R.counts rig.new) (R.device_size rig.old) (R.device_size rig.new) }
    {
        match self.link(address) {
            Link::Lost => match self.read_disk(rig, address, into) {
                Err(fault) => Err(fault),
                Ok(()) => self.bring(rig, address, into, false),
            },
            Link::Slot(slot) => match self.read_slot(rig, slot, into) {
                Err(fault) => Err(fault),
                Ok(()) => self.join(
                    rig,
                    address,
                    Block::Known(slot),
                    Rec::Hit { address },
                    false,
                ),
            },
            Link::Zero => {
                into.fill(0);
                self.join(rig, address, Block::Zero, Rec::Hit { address }, false)
            }
        }
    }

    // What an address is linked to.
    fn link(&self, address: u32) -> Link
        ensures link { result ≡ link_at address self.now.store.table.a }
        ensures listing { IsListing (listing_in self.now.store) }
        ensures keeps { IsTrue self.now.store.is_up → IsStore self.now.store }
    {
        match self.lists.look(address) {
            None => Link::Lost,
            Some(row) => row.link,
        }
    }

    // Reads the block of an address from the disk.
    fn read_disk<R: Rig>(
        &mut self,
        rig: &mut R,
        address: u32,
        into: &mut [u8],
    ) -> Result<(), StoreFault>
        requires below { address < self.old.store.journal.geo.blocks }
        requires long { length into.old ≡ self.old.store.journal.geo.block }
        requires disk { disk_need self.old.store.journal.geo ≤ R.device_size rig.old DiskDevice }
        ensures shows { R.tells → OnOk result (into.new ≡ disk_block self.old.store.journal.geo (R.world rig.old).disk.shown address) }
        ensures size { length into.new ≡ length into.old }
        ensures store { self.new.store ≡ unlaid self.old.store }
        ensures print { self.new.print ≡ self.old.print }
        ensures world { R.tells → R.world rig.new ≡ R.world rig.old }
        ensures time { R.tells → AddsNone (R.clock rig.old) (R.clock rig.new) }
        ensures counts { R.counts rig.new ≡ count_read DiskDevice result (R.counts rig.old) }
        ensures fault { IfErr result (λ fault. fault ≡ DiskRead) }
        ensures fails { FailsBy result (R.counts rig.old) (R.counts rig.new) (R.device_size rig.old) (R.device_size rig.new) }
    {
        self.laid.clear();
        match rig.read(
            Dev::Disk,
            u64::from(address) * u64::from(self.geo.block),
            into,
        ) {
            Err(_) => Err(StoreFault::DiskRead),
            Ok(()) => Ok(()),
        }
    }

    // Reads a slot of the flash.
    fn read_slot<R: Rig>(
        &mut self,
        rig: &mut R,
        slot: u32,
        into: &mut [u8],
    ) -> Result<(), StoreFault>
        requires below { slot < slot_count self.old.store.journal.geo }
        requires long { length into.old ≡ self.old.store.journal.geo.block }
        requires flash { flash_need self.old.store.journal.geo ≤ R.device_size rig.old FlashDevice }
        ensures shows { R.tells → OnOk result (into.new ≡ slot_block self.old.store.journal.geo (R.world rig.old).flash.shown slot) }
        ensures store { self.new.store ≡ unlaid self.old.store }
        ensures print { self.new.print ≡ self.old.print }
        ensures world { R.tells → R.world rig.new ≡ R.world rig.old }
        ensures time { R.tells → AddsNone (R.clock rig.old) (R.clock rig.new) }
        ensures counts { R.counts rig.new ≡ count_read FlashDevice result (R.counts rig.old) }
        ensures fault { IfErr result (λ fault. fault ≡ FlashRead) }
        ensures fails { FailsBy result (R.counts rig.old) (R.counts rig.new) (R.device_size rig.old) (R.device_size rig.new) }
    {
        self.laid.clear();
        match self.slots.load(rig, slot, into) {
            Err(_) => Err(StoreFault::FlashRead),
            Ok(()) => Ok(()),
        }
    }
}
