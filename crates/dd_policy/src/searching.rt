// The search for a listed block, by its fingerprint and then by its bytes.
ghost use Rattle.std.specs.Prelude.{◌≡◌, ◌≤◌, length, IfOk, IfSome, OnErr};
ghost use Rattle.dd_rig.specs.declared.device.Dev.TheVariants.{Flash as FlashDevice};
ghost use Rattle.dd_rig.specs.World.{shown};
ghost use Rattle.dd_rig.specs.Clock.{AddsNone};
ghost use Rattle.dd_rig.specs.Counts.{Frame, Makes, plus, up_to, nothing, Rose};
ghost use Rattle.dd_slots.specs.Slots.{count_of, slots_end};
ghost use Rattle.dd_model.specs.Confirming.{IsCandidate, candidates, Confirms};

use dd_block::Fp;
use dd_data::DataCache;
use dd_model::is_this;
use dd_rig::{Failed, Rig};
use dd_slots::Slots;

// The slot of the first row with this fingerprint and these bytes.
pub(crate) fn search<R: Rig>(
    rig: &mut R,
    slots: &Slots,
    blocks: &DataCache,
    fp: Fp,
    block: &[u8],
    scratch: &mut [u8],
) -> Result<Option<u32>, Failed>
    requires slots { blocks.now.slots ≤ count_of slots.now }
    requires block { length block.now ≡ slots.now.block }
    requires scratch { length scratch.old ≡ slots.now.block }
    requires flash { slots_end slots.now ≤ R.device_size rig.old FlashDevice }
    ensures listed { IfOk result (λ found. IfSome found (IsCandidate fp blocks.now.rows)) }
    ensures found { R.tells → IfOk result (Confirms fp block.now slots.now (shown FlashDevice (R.world rig.old)) blocks.now.rows) }
    ensures world { R.tells → R.world rig.new ≡ R.world rig.old }
    ensures time { R.tells → AddsNone (R.clock rig.old) (R.clock rig.new) }
    ensures calls { Makes (up_to (candidates fp blocks.now.rows) 0 0) nothing (R.counts rig.old) (R.counts rig.new) }
    ensures reads { plus (R.counts rig.old).flash.reads 0 ≤ (R.counts rig.new).flash.reads }
    ensures disk { (R.counts rig.new).disk ≡ (R.counts rig.old).disk }
    ensures cause { OnErr result (Rose (R.counts rig.old).flash.failed_reads (R.counts rig.new).flash.failed_reads) }
    ensures frame { Frame (R.counts rig.old) (R.counts rig.new) (R.device_size rig.old) (R.device_size rig.new) }
{
    let all = blocks.len();
    let mut at = blocks.candidate(fp, None);
    for _place in 0..all {
        match at {
            None => return Ok(None),
            Some(row) => {
                if is_this(rig, slots, row, fp, block, scratch)? {
                    return Ok(Some(row.slot));
                }
                at = blocks.candidate(fp, Some(row.slot));
            }
        }
    }
    Ok(None)
}
