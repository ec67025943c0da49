// What a store tells without a call of a device.
ghost use Rattle.std.specs.Prelude.{◌≡◌, ◌⊎◌, length};
ghost use Rattle.dd_rig.specs.World.{World};
ghost use Rattle.dd_model.specs.Alignment.{Aligned};
ghost use Rattle.dd_model.specs.Orphans.{orphans_of, orphaned_addresses, orphaned_blocks};
ghost use Rattle.dd_model.specs.State.{State};
ghost use Rattle.dd_slots.specs.Numbers.{is_among};
ghost use Rattle.dd_store.specs.Keeping.{Holds};

use super::Store;
use dd_block::{Fingerprint, Fp, Geometry};
use dd_model::{Lists, Orphans};

impl<F: Fingerprint, L: Lists> Store<F, L> {
    /// Whether the store may be called. It is down for ever after a write or a sync that failed.
    pub fn is_up(&self) -> bool
        ensures { result ≡ self.now.store.is_up }
    {
        self.up
    }

    /// How many references there were.
    pub fn count(&self) -> u64
        ensures { result ≡ self.now.store.count }
    {
        self.count
    }

    /// How many references are committed.
    pub fn committed(&self) -> u64
        ensures { result ≡ self.now.store.journal.committed }
    {
        self.journal.committed()
    }

    /// The epoch of the journal.
    pub fn epoch(&self) -> u64
        ensures { result ≡ self.now.store.journal.epoch }
    {
        self.journal.epoch()
    }

    /// How many addresses are laid.
    pub fn laid(&self) -> u32
        ensures { result ≡ length self.now.store.laid }
    {
        self.laid.len() as u32
    }

    /// Whether an address is laid.
    pub fn is_laid(&self, address: u32) -> bool
        ensures { result ≡ is_among address self.now.store.laid }
    {
        self.laid.contains(&address)
    }

    /// How many records are pending: those since the last commit, `group` at most.
    pub fn pending(&self) -> u32
        ensures { result ≡ length self.now.store.pending }
    {
        self.pending.len() as u32
    }

    /// The numbers of the devices.
    pub fn geometry(&self) -> Geometry
        ensures { result ≡ self.now.store.journal.geo }
    {
        self.geo
    }

    /// Both recency lists.
    pub fn lists(&self) -> &L
        ensures table { (L.listing result.now).table ≡ self.now.store.table }
        ensures dirty { (L.listing result.now).dirty ≡ self.now.store.dirty }
    {
        &self.lists
    }

    /// How many listed addresses aren't linked, and how many listed blocks no address is linked to: those
    /// of the state that the store holds. Where both lists go together one of the two is 0. It calls no
    /// device and takes no memory; its cost is that of the lists' `orphans`.
    pub fn orphans(&self) -> Orphans
        ensures table { result ≡ orphans_of self.now.store.table }
        ensures state { (world : World) (s : State) → Holds (F.printed self.now.print) self.now.store world s → result ≡ record { a = orphaned_addresses s; b = orphaned_blocks s } }
        ensures aligned { (world : World) (s : State) → Holds (F.printed self.now.print) self.now.store world s → Aligned self.now.store.journal.geo.bcap s → (result.a ≡ 0) ⊎ (result.b ≡ 0) }
    {
        self.lists.orphans()
    }

    /// The fingerprint of these bytes, by what the store was made with.
    pub fn fingerprint(&self, block: &[u8]) -> Fp
        ensures { result ≡ F.printed self.now.print block.now }
    {
        self.print.print(block)
    }
}
