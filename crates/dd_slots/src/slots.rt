// Slots, and which of them are free.
ghost use Rattle.std.specs.Prelude.{◌≡◌, ◌+◌, ◌*◌, ◌<◌, ◌≤◌, ◌^◌, ℕ, [], length, map, slice_get, vec_capacity, if◌then◌else◌, IfOk, OnOk, OnErr};
ghost use Rattle.std.specs.List.{AllByRecursion};
ghost use Rattle.dd_rig.specs.declared.device.Dev.TheVariants.{Flash as FlashDevice};
ghost use Rattle.dd_rig.specs.World.{shown};
ghost use Rattle.dd_rig.specs.Clock.{Elapses, AddsNone, MovesOn, NoneOrCounts};
ghost use Rattle.dd_rig.specs.Counts.{Frame, Rose, count_read, count_write};
ghost use Rattle.dd_slots.specs.declared.usage.Usage.TheVariants.{Free, Used, Waiting};
ghost use Rattle.dd_slots.specs.Numbers.{is_among, Enumerates};
ghost use Rattle.dd_slots.specs.Slots.{AreNew, Takes, use_of, with_use, has_free, is_free, freed, settled, count_of, slots_end, block_in, saved, SavesSome, WithinSave, LeavesOthers};
ghost use Rattle.dd_slots.specs.Stacks.{AreStacks};

use crate::Usage;
use dd_rig::{Dev, Failed, Rig};
use std::alloc::{AllocError, Global};
use std::marker::Model;

/// Places for blocks on the flash, one behind the other, counted from 0. Each is free, used or
/// waiting.
#[derive(Drop)]
pub struct Slots {
    base: u64,
    block: u32,
    uses: Vec<Usage>,
    // the slots that are free, and those that wait
    free: Vec<u32>,
    waiting: Vec<u32>,
}

impl Model for Slots {
    ghost use Rattle.std.specs.Prelude.{vec_capacity};
    ghost use Rattle.dd_slots.specs.Slots.{SlotsView};
    ghost use Rattle.dd_slots.specs.Stacks.{AreStacks};

    ghost Value = { SlotsView };

    ghost view = { λ s. record { base = s.base; block = s.block; uses = s.uses.items } };

    ghost invariant = { λ s. AreStacks s.uses.items s.free.items s.waiting.items (vec_capacity s.free) (vec_capacity s.waiting) };
}

impl Slots {
    /// Slots of `block` bytes from `base` on. Those that are named are used, the others are free. It
    /// takes memory for nine bytes a slot.
    pub fn new(
        alloc: Global,
        base: u64,
        block: u32,
        count: u32,
        used: &[u32],
    ) -> Result<Self, AllocError>
        requires { AllByRecursion (λ slot. slot < count) used.now }
        ensures { IfOk result (AreNew base block count used.now) }
    {
        let mut uses = vec![in alloc; Usage::Free; count as usize]?;
        mark_used(&mut uses, used);
        let mut free = Vec::with_capacity(alloc, count as usize)?;
        list_free(&uses, &mut free);
        Ok(Slots {
            base,
            block,
            uses,
            free,
            waiting: Vec::with_capacity(alloc, count as usize)?,
        })
    }

    /// Takes a free slot, if there is one. It is used from then on.
    pub fn take(&mut self) -> Option<u32>
        ensures { Takes self.old self.new result }
    {
        match self.free.pop() {
            None => None,
            Some(slot) => {
                self.uses[slot as usize] = Usage::Used;
                Some(slot)
            }
        }
    }

    /// Whether a slot is free.
    pub fn has_free(&self) -> bool
        ensures { result ≡ has_free self.now }
    {
        !self.free.is_empty()
    }

    /// Lets a slot go. It waits until it is settled.
    pub fn release(&mut self, slot: u32)
        requires { use_of self.old slot ≡ Some Used }
        ensures { self.new ≡ with_use slot Waiting self.old }
    {
        self.uses[slot as usize] = Usage::Waiting;
        self.waiting.push_reserved(slot);
    }

    /// Frees the slots that wait. Its cost is in proportion to their number.
    pub fn settle(&mut self)
        ensures { self.new ≡ settled self.old }
    {
        free_waiting(&mut self.uses, &mut self.free, &mut self.waiting);
    }

    /// Reads a slot: one read of the flash.
    pub fn load<R: Rig>(&self, rig: &mut R, slot: u32, into: &mut [u8]) -> Result<(), Failed>
        requires slot { slot < count_of self.now }
        requires size { length into.old ≡ self.now.block }
        requires flash { slots_end self.now ≤ R.device_size rig.old FlashDevice }
        ensures bytes { R.tells → OnOk result (into.new ≡ block_in self.now (shown FlashDevice (R.world rig.old)) slot) }
        ensures world { R.tells → R.world rig.new ≡ R.world rig.old }
        ensures time { R.tells → AddsNone (R.clock rig.old) (R.clock rig.new) }
        ensures counts { R.counts rig.new ≡ count_read FlashDevice result (R.counts rig.old) }
        ensures cause { OnErr result (Rose (R.counts rig.old).flash.failed_reads (R.counts rig.new).flash.failed_reads) }
        ensures frame { Frame (R.counts rig.old) (R.counts rig.new) (R.device_size rig.old) (R.device_size rig.new) }
    {
        rig.read(Dev::Flash, begin(self.base, self.block, slot), into)
    }

    /// Writes a slot: one write of the flash. A crash within it, and after it until the next sync,
    /// leaves any bytes in the slot. After a failure the slot shows any bytes, or nothing changed.
    pub fn save<R: Rig>(&self, rig: &mut R, slot: u32, from: &[u8]) -> Result<(), Failed>
        requires slot { use_of self.now slot ≡ Some Used }
        requires size { length from.now ≡ self.now.block }
        requires flash { slots_end self.now ≤ R.device_size rig.old FlashDevice }
        ensures ok { R.tells → OnOk result (R.world rig.new ≡ saved self.now slot from.now (R.world rig.old)) }
        ensures any { R.tells → SavesSome self.now slot (R.world rig.old) (R.world rig.new) }
        ensures others { R.tells → LeavesOthers self.now slot (R.world rig.old) (R.world rig.new) }
        ensures time { R.tells → Elapses (R.clock rig.old) (R.clock rig.new) (WithinSave self.now slot (R.world rig.old)) }
        ensures moves { R.tells → MovesOn (R.world rig.old) (R.world rig.new) (R.clock rig.old) (R.clock rig.new) }
        ensures within { R.tells → NoneOrCounts (WithinSave self.now slot (R.world rig.old)) (R.world rig.old) (R.world rig.new) (R.clock rig.old) (R.clock rig.new) }
        ensures counts { R.counts rig.new ≡ count_write FlashDevice self.now.block result (R.counts rig.old) }
        ensures cause { OnErr result (Rose (R.counts rig.old).flash.failed_writes (R.counts rig.new).flash.failed_writes) }
        ensures frame { Frame (R.counts rig.old) (R.counts rig.new) (R.device_size rig.old) (R.device_size rig.new) }
    {
        rig.write(Dev::Flash, begin(self.base, self.block, slot), from)
    }
}

// Where a slot begins.
fn begin(base: u64, block: u32, slot: u32) -> u64
    requires { base + slot * block < 2 ^ 64 }
    ensures { result ≡ base + slot * block }
{
    base + u64::from(slot) * u64::from(block)
}

// The slots among these are used.
fn mark_used(uses: &mut Vec<Usage>, used: &[u32])
    requires free { (slot : ℕ) → slot < length uses.old.items → slice_get uses.old.items slot ≡ Some Free }
    requires below { AllByRecursion (λ slot. slot < length uses.old.items) used.now }
    ensures size { length uses.new.items ≡ length uses.old.items }
    ensures each { (slot : ℕ) → slot < length uses.old.items → slice_get uses.new.items slot ≡ Some (if is_among slot used.now then Used else Free) }
{
    for slot in used {
        uses[*slot as usize] = Usage::Used;
    }
}

fn is_free(usage: Usage) -> bool
    ensures { result ≡ is_free (Some usage) }
{
    match usage {
        Usage::Free => true,
        Usage::Used => false,
        Usage::Waiting => false,
    }
}

// Lists the slots that are free, the first one on top.
fn list_free(uses: &[Usage], free: &mut Vec<u32>)
    requires few { length uses.now < 2 ^ 32 }
    requires empty { free.old.items ≡ [] }
    requires room { length uses.now ≤ vec_capacity free.old }
    ensures free { Enumerates (λ slot. is_free (slice_get uses.now slot)) free.new.items }
    ensures capacity { vec_capacity free.new ≡ vec_capacity free.old }
{
    let mut slot = uses.len() as u32;
    while slot > 0 {
        slot -= 1;
        if is_free(uses[slot as usize]) {
            free.push_reserved(slot);
        }
    }
}

// Frees the slots that wait.
fn free_waiting(uses: &mut Vec<Usage>, free: &mut Vec<u32>, waiting: &mut Vec<u32>)
    requires { AreStacks uses.old.items free.old.items waiting.old.items (vec_capacity free.old) (vec_capacity waiting.old) }
    ensures uses { uses.new.items ≡ map freed uses.old.items }
    ensures stacks { AreStacks uses.new.items free.new.items waiting.new.items (vec_capacity free.new) (vec_capacity waiting.new) }
{
    while let Some(slot) = waiting.pop() {
        uses[slot as usize] = Usage::Free;
        free.push_reserved(slot);
    }
}

#[cfg(test)]
mod tests {
    use super::*;
    use std::test::Fail;

    #[test]
    fn the_first_free_slot_is_taken_first(rt: HostRuntime) -> Result<(), Fail> {
        let mut slots = Slots::new(rt.alloc(), 64, 16, 3, &[1])?;
        assert_eq!(rt; slots.take(), Some(0));
        assert_eq!(rt; slots.take(), Some(2));
        assert_eq!(rt; slots.take(), None);
        slots.settle();
        assert_eq!(rt; slots.take(), None);
        Ok(())
    }
}
