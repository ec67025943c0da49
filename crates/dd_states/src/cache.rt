// A store over a rig in memory, whose calls are made one by one.
ghost use Rattle.std.specs.Prelude.{◌≡◌, ◌<◌, IsTrue};
ghost use Rattle.dd_store.specs.Serving.{MayCall};

use crate::steps::{Call, Told, answer_of};
use dd_block::{Fingerprint, Geometry};
use dd_journal::{Found, Journal};
use dd_layout::{disk_need, flash_need};
use dd_model::{Lists, PlainLists};
use dd_recover::format_flash;
use dd_rig::{Dev, Rig};
use dd_rigmem::{Fail, Outcome, RigMem};
use dd_store::Store;
use std::alloc::Global;
use std::test::Fail as Stop;

/// A flash of zeros behind a format.
pub fn formatted(alloc: Global, geo: Geometry, size: usize, disk: &[u8]) -> Result<Vec<u8>, Stop> {
    let zeros = vec![in alloc; 0; size]?;
    let mut rig = RigMem::new(alloc, &zeros, disk, &[])?;
    format_flash(&mut rig, geo)?;
    Ok(rig.crash(alloc, 0)?.flash)
}

/// A store and its devices.
#[derive(Drop)]
pub struct Cache<F: Fingerprint> {
    store: Store<F, PlainLists>,
    rig: RigMem,
}

impl<F: Fingerprint> Cache<F> {
    /// A cache over a flash that has no rows, and of which these calls fail.
    pub fn over(
        alloc: Global,
        geo: Geometry,
        flash: &[u8],
        disk: &[u8],
        fails: &[Fail],
        print: F,
    ) -> Result<Self, Stop> {
        let mut rig = RigMem::new(alloc, flash, disk, fails)?;
        let store = store_over(alloc, geo, &mut rig, print)?;
        Ok(Cache { store, rig })
    }

    /// Makes a call.
    pub fn call(&mut self, call: Call) -> Result<Told, Stop> {
        make(&mut self.store, &mut self.rig, call)
    }

    /// The machine stops at the call with that number.
    pub fn stop_at(&mut self, call: u64) -> Result<(), Stop> {
        if !self.rig.may_stop_at(call) {
            return Err("that call was made")?;
        }
        self.rig.stop_at(call);
        Ok(())
    }

    /// What a crash leaves, by a number. By 1 it is all that is shown.
    pub fn crash(&self, alloc: Global, pick: u64) -> Result<Outcome, Stop> {
        Ok(self.rig.crash(alloc, pick)?)
    }
}

/// What a flash of that geometry has.
pub fn found_on<R: Rig>(alloc: Global, geo: Geometry, rig: &mut R) -> Result<Found, Stop> {
    if rig.size(Dev::Flash) < flash_need(geo) {
        return Err("a small flash")?;
    }
    Ok(Journal::find(alloc, rig, geo)?)
}

// A store with empty lists over a flash of version 2.
fn store_over<F: Fingerprint, L: Lists, R: Rig>(
    alloc: Global,
    geo: Geometry,
    rig: &mut R,
    print: F,
) -> Result<Store<F, L>, Stop> {
    if rig.size(Dev::Flash) < flash_need(geo) {
        return Err("a small flash")?;
    }
    let found = Journal::find(alloc, rig, geo)?;
    let lists = L::new(alloc, geo.acap, geo.bcap, geo.slots())?;
    let Found {
        journal,
        region,
        head,
        b,
        a,
        recs,
    } = found;
    let _ = (region, head);
    if !(b.is_empty() && a.is_empty() && recs.is_empty()) {
        return Err("a flash with rows")?;
    }
    if journal.version() != 2 {
        return Err("another version")?;
    }
    let count = journal.committed();
    Ok(Store::new(alloc, rig, geo, print, lists, journal, count)?)
}

// Whether a store may be called. Its numbers are far from their ends.
fn may_call<F: Fingerprint, L: Lists, R: Rig>(store: &Store<F, L>, rig: &R) -> bool
    ensures { IsTrue result → MayCall store.now.store (R.device_size rig.now) }
{
    let geo = store.geometry();
    store.is_up()
        && store.count() < 1000
        && store.epoch() < 1000
        && flash_need(geo) <= rig.size(Dev::Flash)
        && disk_need(geo) <= rig.size(Dev::Disk)
}

// Whether an address of a cache of small blocks.
fn is_one_of<F: Fingerprint, L: Lists>(store: &Store<F, L>, address: u32) -> bool
    ensures { IsTrue result → (address < store.now.store.journal.geo.blocks) × (store.now.store.journal.geo.block ≡ 16) }
{
    let geo = store.geometry();
    address < geo.blocks && geo.block == 16
}

fn make<F: Fingerprint, L: Lists, R: Rig>(
    store: &mut Store<F, L>,
    rig: &mut R,
    call: Call,
) -> Result<Told, Stop> {
    if !may_call(store, rig) {
        return Err("the store may not be called")?;
    }
    match call {
        Call::Read(address) => read(store, rig, address),
        Call::Write(address, block) => write(store, rig, address, &block),
        Call::Tick => Ok(tick(store, rig)),
        Call::Clean => Ok(clean(store, rig)),
        Call::Flush => Ok(flush(store, rig)),
    }
}

fn read<F: Fingerprint, L: Lists, R: Rig>(
    store: &mut Store<F, L>,
    rig: &mut R,
    address: u32,
) -> Result<Told, Stop>
    requires { MayCall store.old.store (R.device_size rig.old) }
{
    if !is_one_of(store, address) {
        return Err("no such block")?;
    }
    let mut block = [7; 16];
    match store.read(rig, address, &mut block) {
        Err(fault) => Ok(Told::Fault(fault)),
        Ok(done) => Ok(Told::Read(block, answer_of(done))),
    }
}

fn write<F: Fingerprint, L: Lists, R: Rig>(
    store: &mut Store<F, L>,
    rig: &mut R,
    address: u32,
    block: &[u8; 16],
) -> Result<Told, Stop>
    requires { MayCall store.old.store (R.device_size rig.old) }
{
    if !is_one_of(store, address) {
        return Err("no such block")?;
    }
    match store.write(rig, address, block) {
        Err(fault) => Ok(Told::Fault(fault)),
        Ok(done) => Ok(Told::Written(answer_of(done))),
    }
}

fn tick<F: Fingerprint, L: Lists, R: Rig>(store: &mut Store<F, L>, rig: &mut R) -> Told
    requires { MayCall store.old.store (R.device_size rig.old) }
{
    match store.tick(rig) {
        Err(fault) => Told::Fault(fault),
        Ok(address) => Told::Ticked(address),
    }
}

fn clean<F: Fingerprint, L: Lists, R: Rig>(store: &mut Store<F, L>, rig: &mut R) -> Told
    requires { MayCall store.old.store (R.device_size rig.old) }
{
    match store.clean(rig) {
        Err(fault) => Told::Fault(fault),
        Ok(()) => Told::Cleaned,
    }
}

fn flush<F: Fingerprint, L: Lists, R: Rig>(store: &mut Store<F, L>, rig: &mut R) -> Told
    requires { MayCall store.old.store (R.device_size rig.old) }
{
    match store.flush(rig) {
        Err(fault) => Told::Fault(fault),
        Ok(count) => Told::Flushed(count),
    }
}
