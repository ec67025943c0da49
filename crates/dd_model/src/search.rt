// The search for a listed block, by its fingerprint and then by its bytes.
ghost use Rattle.std.specs.Prelude.{◌≡◌, ◌<◌, ◌≤◌, ◌==◌, true, length, if◌then◌else◌, IfOk, IfSome, OnErr};
ghost use Rattle.std.specs.Str.{bytes_eq};
ghost use Rattle.std.specs.List.{AllByRecursion, IsDistinct};
ghost use Rattle.dd_rig.specs.declared.device.Dev.TheVariants.{Flash as FlashDevice};
ghost use Rattle.dd_rig.specs.World.{shown};
ghost use Rattle.dd_rig.specs.Clock.{AddsNone};
ghost use Rattle.dd_rig.specs.Counts.{Frame, Makes, plus, up_to, nothing, Rose};
ghost use Rattle.dd_slots.specs.Slots.{count_of, slots_end};
ghost use Rattle.dd_model.specs.Confirming.{IsCandidate, candidates, Confirms, IsThis};

use dd_block::Fp;
use dd_record::BRow;
use dd_rig::{Failed, Rig};
use dd_slots::Slots;

// The slot of the first row with this fingerprint and these bytes.
pub(crate) fn confirm<R: Rig>(
    rig: &mut R,
    slots: &Slots,
    rows: &[BRow],
    fp: Fp,
    block: &[u8],
    scratch: &mut [u8],
) -> Result<Option<u32>, Failed>
    requires rows { AllByRecursion (λ row. row.slot < count_of slots.now) rows.now }
    requires apart { IsDistinct (λ x y. x.slot == y.slot) rows.now }
    requires block { length block.now ≡ slots.now.block }
    requires scratch { length scratch.old ≡ slots.now.block }
    requires flash { slots_end slots.now ≤ R.device_size rig.old FlashDevice }
    ensures listed { IfOk result (λ found. IfSome found (IsCandidate fp rows.now)) }
    ensures found { R.tells → IfOk result (Confirms fp block.now slots.now (shown FlashDevice (R.world rig.old)) rows.now) }
    ensures world { R.tells → R.world rig.new ≡ R.world rig.old }
    ensures time { R.tells → AddsNone (R.clock rig.old) (R.clock rig.new) }
    ensures calls { Makes (up_to (candidates fp rows.now) 0 0) nothing (R.counts rig.old) (R.counts rig.new) }
    ensures reads { plus (R.counts rig.old).flash.reads 0 ≤ (R.counts rig.new).flash.reads }
    ensures disk { (R.counts rig.new).disk ≡ (R.counts rig.old).disk }
    ensures cause { OnErr result (Rose (R.counts rig.old).flash.failed_reads (R.counts rig.new).flash.failed_reads) }
    ensures frame { Frame (R.counts rig.old) (R.counts rig.new) (R.device_size rig.old) (R.device_size rig.new) }
{
    for row in rows {
        if is_this(rig, slots, *row, fp, block, scratch)? {
            return Ok(Some(row.slot));
        }
    }
    Ok(None)
}

/// Whether a row has this fingerprint and these bytes. Where it has the fingerprint its block is read,
/// into `scratch`.
pub fn is_this<R: Rig>(
    rig: &mut R,
    slots: &Slots,
    row: BRow,
    fp: Fp,
    block: &[u8],
    scratch: &mut [u8],
) -> Result<bool, Failed>
    requires slot { row.slot < count_of slots.now }
    requires block { length block.now ≡ slots.now.block }
    requires scratch { length scratch.old ≡ slots.now.block }
    requires flash { slots_end slots.now ≤ R.device_size rig.old FlashDevice }
    ensures print { IfOk result (λ same. same ≡ true → row.fp ≡ fp) }
    ensures found { R.tells → IfOk result (IsThis fp block.now slots.now (shown FlashDevice (R.world rig.old)) row) }
    ensures world { R.tells → R.world rig.new ≡ R.world rig.old }
    ensures time { R.tells → AddsNone (R.clock rig.old) (R.clock rig.new) }
    ensures calls { Makes (up_to (if bytes_eq row.fp.0 fp.0 then 1 else 0) 0 0) nothing (R.counts rig.old) (R.counts rig.new) }
    ensures reads { plus (R.counts rig.old).flash.reads 0 ≤ (R.counts rig.new).flash.reads }
    ensures disk { (R.counts rig.new).disk ≡ (R.counts rig.old).disk }
    ensures cause { OnErr result (Rose (R.counts rig.old).flash.failed_reads (R.counts rig.new).flash.failed_reads) }
    ensures frame { Frame (R.counts rig.old) (R.counts rig.new) (R.device_size rig.old) (R.device_size rig.new) }
{
    if row.fp != fp {
        return Ok(false);
    }
    slots.load(rig, row.slot, scratch)?;
    Ok(&*scratch == block)
}
