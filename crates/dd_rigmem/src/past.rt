// What a rig in memory began with, what was done since, and what that shows.
ghost use Rattle.std.specs.Prelude.{◌≡◌, ◌≢◌, ◌+◌, ◌≤◌, ◌/◌, [], ◌++◌, length, slice_range, true, IfOk, OnOk, OnErr};
ghost use Rattle.dd_rig.specs.Device.{make_stable};
ghost use Rattle.dd_rig.specs.World.{shown, on_device};
ghost use Rattle.dd_rigmem.specs.declared.event.Event.TheVariants.{Wrote, Emitted};
ghost use Rattle.dd_rigmem.specs.declared.plan.Fate.TheVariants.{Stops, IsLate};
ghost use Rattle.dd_rigmem.specs.Bytes.{bytes_of};
ghost use Rattle.dd_rigmem.specs.History.{world_of, grown, size_of, Writes, Syncs, Emits, unfinished_of};
ghost use Rattle.dd_rigmem.specs.Effects.{half_of, write_half, written_by, synced_by, said_by};

use crate::contents::Contents;
use crate::event::{Emission, Event, Writing};
use crate::marks::{Marks, NO_MARKS};
use crate::plan::Fate;
use dd_rig::Dev;
use std::alloc::{AllocError, Global};
use std::marker::Model;

#[derive(Drop)]
pub struct Past {
    start: Contents,
    events: Vec<Event>,
    shown: Contents,
    // The devices that were written since their last sync: there is room for the records of their syncs.
    unsynced: Marks,
}

impl Model for Past {
    ghost use Rattle.std.specs.Prelude.{vec_capacity};
    ghost use Rattle.dd_rigmem.specs.History.{History};
    ghost use Rattle.dd_rigmem.specs.Keeping.{IsKept};

    ghost Value = { History };

    ghost view = { λ p. record { start = p.start; events = p.events.items } };

    ghost invariant = { λ p. IsKept (record { start = p.start; events = p.events.items }) p.shown p.unsynced (vec_capacity p.events) };
}

impl Past {
    pub fn new(alloc: Global, flash: &[u8], disk: &[u8]) -> Result<Self, AllocError>
        ensures { IfOk result (λ past. past ≡ record { start = record { flash = flash.now; disk = disk.now }; events = [] }) }
    {
        Ok(Past {
            start: Contents::new(alloc, flash, disk)?,
            events: Vec::new(alloc),
            shown: Contents::new(alloc, flash, disk)?,
            unsynced: NO_MARKS,
        })
    }

    pub fn start(&self, dev: Dev) -> &[u8]
        ensures { result.now ≡ bytes_of dev self.now.start }
    {
        self.start.device(dev)
    }

    pub fn shown(&self, dev: Dev) -> &[u8]
        ensures { result.now ≡ shown dev (world_of self.now) }
    {
        self.shown.device(dev)
    }

    pub fn events(&self) -> &[Event]
        ensures { result.now ≡ self.now.events }
    {
        &self.events
    }

    /// A write whose fate is known. Unless it is late it needs room, for its record and for that of
    /// the next sync of its device.
    pub fn write_by(
        &mut self,
        alloc: Global,
        fate: Fate,
        dev: Dev,
        at: u64,
        from: &[u8],
    ) -> Result<(), AllocError>
        requires { at + length from.now ≤ size_of self.old.start dev }
        ensures ok { OnOk result (world_of self.new ≡ written_by fate dev at from.now (world_of self.old)) }
        ensures err { OnErr result (self.new ≡ self.old) }
        ensures early { OnErr result (fate ≢ IsLate) }
        ensures late { fate ≡ IsLate → self.new ≡ self.old }
        ensures start { self.new.start ≡ self.old.start }
        ensures model { Writes dev at (length from.now) self.old self.new }
    {
        match fate {
            Fate::Goes => self.write(alloc, dev, at, from),
            Fate::Fails => self.write_half(alloc, dev, at, from),
            Fate::Stops => self.write(alloc, dev, at, from),
            Fate::IsLate => Ok(()),
        }
    }

    // Records a write, and shows its bytes.
    fn write(&mut self, alloc: Global, dev: Dev, at: u64, bytes: &[u8]) -> Result<(), AllocError>
        requires { at + length bytes.now ≤ size_of self.old.start dev }
        ensures ok { OnOk result (self.new ≡ grown (Wrote (record { dev = dev; at = at; bytes = bytes.now })) self.old) }
        ensures err { OnErr result (self.new ≡ self.old) }
    {
        let kept = bytes.to_vec(alloc)?;
        let mut unsynced = self.unsynced;
        unsynced.set(dev, true);
        self.events.reserve(1 + unsynced.count())?;
        self.events.push_reserved(Event::Wrote(Writing {
            dev,
            at,
            bytes: kept,
        }));
        self.shown.put(dev, at as usize, bytes);
        self.unsynced = unsynced;
        Ok(())
    }

    // A write of the first half: behind it the range shows what it showed.
    fn write_half(
        &mut self,
        alloc: Global,
        dev: Dev,
        at: u64,
        from: &[u8],
    ) -> Result<(), AllocError>
        requires { at + length from.now ≤ size_of self.old.start dev }
        ensures ok { OnOk result (world_of self.new ≡ on_device dev (write_half at from.now) (world_of self.old)) }
        ensures err { OnErr result (self.new ≡ self.old) }
        ensures start { self.new.start ≡ self.old.start }
        ensures model { Writes dev at (length from.now) self.old self.new }
    {
        let bytes = half_written(alloc, self.shown.device(dev), at, from)?;
        self.write(alloc, dev, at, &bytes)
    }

    /// A sync whose fate is known. The room for its record is there.
    pub fn sync_by(&mut self, fate: Fate, dev: Dev)
        ensures world { world_of self.new ≡ synced_by fate dev (world_of self.old) }
        ensures late { fate ≡ IsLate → self.new ≡ self.old }
        ensures start { self.new.start ≡ self.old.start }
        ensures model { Syncs dev self.old self.new }
    {
        if fate == Fate::Goes {
            self.sync(dev);
        }
    }

    // A device with no write since its last sync needs no record.
    fn sync(&mut self, dev: Dev)
        ensures world { world_of self.new ≡ on_device dev make_stable (world_of self.old) }
        ensures start { self.new.start ≡ self.old.start }
        ensures model { Syncs dev self.old self.new }
    {
        if self.unsynced.get(dev) {
            self.unsynced.set(dev, false);
            self.events.push_reserved(Event::Synced(dev));
        }
    }

    /// An emit whose fate is known. Unless it is late it needs room for its record.
    pub fn emit_by(&mut self, alloc: Global, fate: Fate, piece: &[u8]) -> Result<(), AllocError>
        ensures ok { OnOk result (world_of self.new ≡ said_by fate piece.now (world_of self.old)) }
        ensures err { OnErr result (self.new ≡ self.old) }
        ensures early { OnErr result (fate ≢ IsLate) }
        ensures late { fate ≡ IsLate → self.new ≡ self.old }
        ensures stops { fate ≡ Stops → OnOk result (unfinished_of true self.new.events ≡ piece.now) }
        ensures start { self.new.start ≡ self.old.start }
        ensures model { Emits piece.now self.old self.new }
    {
        match fate {
            Fate::Goes => self.emit(alloc, piece, piece.len()),
            Fate::Fails => self.emit(alloc, piece, piece.len() / 2),
            Fate::Stops => self.emit(alloc, piece, 0),
            Fate::IsLate => Ok(()),
        }
    }

    // Records that so many bytes of a piece came out.
    fn emit(&mut self, alloc: Global, piece: &[u8], count: usize) -> Result<(), AllocError>
        ensures ok { OnOk result (self.new ≡ grown (Emitted (record { piece = piece.now; count = count })) self.old) }
        ensures err { OnErr result (self.new ≡ self.old) }
    {
        let piece = piece.to_vec(alloc)?;
        self.events.reserve(1 + self.unsynced.count())?;
        self.events
            .push_reserved(Event::Emitted(Emission { piece, count }));
        Ok(())
    }
}

// The first half of the bytes, and what stands behind it.
fn half_written(alloc: Global, all: &[u8], at: u64, from: &[u8]) -> Result<Vec<u8>, AllocError>
    requires { at + length from.now ≤ length all.now }
    ensures { IfOk result (λ bytes. bytes.items ≡ half_of from.now ++ slice_range all.now (at + length from.now / 2) (at + length from.now)) }
{
    let half = from.len() / 2;
    let begin = at as usize;
    let mut bytes = from[..half].to_vec(alloc)?;
    bytes.extend_from_slice(&all[begin + half..begin + from.len()])?;
    Ok(bytes)
}
