// Serving the reads of a script, with the flash as scratch.
ghost use Rattle.std.specs.Prelude.{◌≡◌, ◌≢◌, ◌⊎◌, ◌==◌, ◌≤◌, None, ℕ, slice_index, IfOk, OnOk, OnErr, IfErr};
ghost use Rattle.dd_rig.specs.Counts.{Frame, Rose, NeverFalls, count_read, Makes, up_to, nothing};
ghost use Rattle.dd_rig.specs.declared.device.Dev.TheVariants.{Flash as FlashDevice, Disk as DiskDevice};
ghost use Rattle.dd_rig.specs.World.{shown};
ghost use Rattle.dd_script.specs.Reading.{IsTakenTo};
ghost use Rattle.dd_serve.specs.declared.words.Asked.TheVariants.{Replay};
ghost use Rattle.dd_loop.specs.Ending.{SaysEnding};
ghost use Rattle.dd_loop.specs.Halting.{Halts};
ghost use Rattle.dd_serve.specs.Words.{IsPlan};
ghost use Rattle.dd_rig.specs.Clock.{AddsNone, Elapses};
ghost use Rattle.dd_serve.specs.Calls.{OnlyBlocks, looked};
ghost use Rattle.dd_serve.specs.Scratch.{Scratched, KeepsDevices};
ghost use Rattle.dd_loop.specs.Saying.{IsIdle, SaysAlone, SaysMore};
ghost use Rattle.dd_serve.specs.Refusing.{Refuses, small_for, refusal_for};
ghost use Rattle.dd_serve.specs.Answering.{IsFlash};
ghost use Rattle.dd_serve.specs.Replays.{IsReplayStatus, ReplayIsCaused, LooksInVain, Replays, ReplaysAll, ReplaysUpTo, IsBounded, IsFirst, replay_dialect};

use crate::cache::ScratchCache;
use crate::scratch::Scratch;
use crate::words::Plan;
use dd_block::Fingerprint;
use dd_loop::{Ending, Halt, finish, serve_lines};
use dd_model::Lists;
use dd_policy::Policy;
use dd_rig::{Dev, Failed, Rig, Source};
use dd_script::{REPLY_ROOM, Reader, Refusal, Stop};
use std::alloc::{AllocError, Global};

/// The greatest number of blocks.
const MOST_BLOCKS: u64 = 16_777_216;

/// Replays the script over devices that are large enough, and answers the status. A flash in use is
/// refused.
pub fn run_replay<F: Fingerprint, R: Rig, S: Source>(
    alloc: Global,
    plan: Plan,
    source: &mut S,
    rig: &mut R,
    print: F,
) -> u8
    requires plan { IsPlan plan }
    requires large { small_for (Replay plan) (R.device_size rig.old) ≡ None }
    ensures status { IsReplayStatus result }
    ensures refused { R.tells → Refuses (refusal_for (Replay plan) (R.device_size rig.old) (shown FlashDevice (R.world rig.old))) result (R.counts rig.old) (R.counts rig.new) (R.world rig.old) (R.world rig.new) }
    ensures caused { ReplayIsCaused (LooksInVain (λ line. R.tells → SaysAlone line (R.counts rig.old) (R.counts rig.new) (R.world rig.old) (R.world rig.new)) (R.counts rig.old) (R.counts rig.new)) result (λ line. R.tells → SaysAlone line (R.counts rig.old) (R.counts rig.new) (R.world rig.old) (R.world rig.new)) (λ ending. R.tells → SaysEnding ending (R.counts rig.old) (R.counts rig.new) (R.world rig.old) (R.world rig.new)) (R.counts rig.old) (R.counts rig.new) (S.failures source.old) (S.failures source.new) }
    ensures served { R.tells → S.tells → refusal_for (Replay plan) (R.device_size rig.old) (shown FlashDevice (R.world rig.old)) ≡ None
        → Replays (F.printed print) plan (R.device_size rig.old DiskDevice) result (S.rest source.old) (R.world rig.old) (R.world rig.new) (looked (R.counts rig.old)) (R.counts rig.new) }
    ensures taken { S.tells → result ≤ 1 → IsTakenTo (replay_dialect plan (R.device_size rig.old DiskDevice)) (S.rest source.old) (S.rest source.new) }
    ensures untaken { (result ≡ 3) ⊎ (result ≡ 4) → source.new ≡ source.old }
    ensures others { R.tells → Scratched (R.world rig.old) (R.world rig.new) }
    ensures time { R.tells → Elapses (R.clock rig.old) (R.clock rig.new) (KeepsDevices (R.world rig.old)) }
    ensures blocks { OnlyBlocks plan.block (R.counts rig.old) (R.counts rig.new) }
    ensures looks { (result ≡ 3) ⊎ (result ≡ 4) → Makes (up_to 1 0 0) nothing (R.counts rig.old) (R.counts rig.new) }
{
    match is_in_use(rig) {
        Err(_) => finish(rig, Ending::Stopped(Stop::Flash)),
        Ok(true) => finish(rig, Ending::Refused(Refusal::InUse)),
        Ok(false) => serve_plan(alloc, plan, source, rig, print),
    }
}

// Whether byte 0 of the flash is 1.
fn is_in_use<R: Rig>(rig: &mut R) -> Result<bool, Failed>
    requires { 1 ≤ R.device_size rig.old FlashDevice }
    ensures used { R.tells → IfOk result (λ used. used ≡ (slice_index (shown FlashDevice (R.world rig.old)) 0 == 1)) }
    ensures world { R.tells → R.world rig.new ≡ R.world rig.old }
    ensures time { R.tells → AddsNone (R.clock rig.old) (R.clock rig.new) }
    ensures counts { R.counts rig.new ≡ count_read FlashDevice result (R.counts rig.old) }
    ensures frame { Frame (R.counts rig.old) (R.counts rig.new) (R.device_size rig.old) (R.device_size rig.new) }
    ensures cause { OnErr result (Rose (R.counts rig.old).flash.failed_reads (R.counts rig.new).flash.failed_reads) }
{
    let mut byte = [0];
    rig.read(Dev::Flash, 0, &mut byte)?;
    Ok(byte[0] == 1)
}

// Replays the script, and ends with the line of the status, where it has one.
fn serve_plan<F: Fingerprint, R: Rig, S: Source>(
    alloc: Global,
    plan: Plan,
    source: &mut S,
    rig: &mut R,
    print: F,
) -> u8
    requires plan { IsPlan plan }
    requires large { small_for (Replay plan) (R.device_size rig.old) ≡ None }
    ensures status { (result ≤ 8) × (result ≢ 2) × (result ≢ 3) }
    ensures caused { ReplayIsCaused ⊥ result (λ line. R.tells → SaysAlone line (R.counts rig.old) (R.counts rig.new) (R.world rig.old) (R.world rig.new)) (λ ending. R.tells → SaysEnding ending (R.counts rig.old) (R.counts rig.new) (R.world rig.old) (R.world rig.new)) (R.counts rig.old) (R.counts rig.new) (S.failures source.old) (S.failures source.new) }
    ensures served { R.tells → S.tells → Replays (F.printed print) plan (R.device_size rig.old DiskDevice) result (S.rest source.old) (R.world rig.old) (R.world rig.new) (R.counts rig.old) (R.counts rig.new) }
    ensures others { R.tells → Scratched (R.world rig.old) (R.world rig.new) }
    ensures time { R.tells → Elapses (R.clock rig.old) (R.clock rig.new) (KeepsDevices (R.world rig.old)) }
    ensures blocks { OnlyBlocks plan.block (R.counts rig.old) (R.counts rig.new) }
    ensures taken { S.tells → result ≤ 1 → IsTakenTo (replay_dialect plan (R.device_size rig.old DiskDevice)) (S.rest source.old) (S.rest source.new) }
    ensures untaken { result ≡ 4 → source.new ≡ source.old }
    ensures idle { result ≡ 4 → IsIdle (R.counts rig.old) (R.counts rig.new) }
    ensures later { NeverFalls (R.counts rig.old) (R.counts rig.new) }
{
    let Ok(served) = serve_script::<Policy, F, R, S>(alloc, plan, source, rig, print) else {
        return finish(rig, Ending::Stopped(Stop::Memory));
    };
    match served {
        Ok(faulted) => finish(rig, Ending::Served { faulted }),
        Err(halt) => match halt {
            Halt::Output => finish(rig, Ending::Unheard),
            Halt::Stopped(why) => finish(rig, Ending::Stopped(why)),
        },
    }
}

// The scratch at the start: nothing is listed.
fn start<L: Lists, R: Rig>(alloc: Global, plan: Plan, rig: &R) -> Result<Scratch<L>, AllocError>
    requires { IsPlan plan }
    ensures { IfOk result (IsFirst plan (R.device_size rig.now DiskDevice)) }
{
    let count = rig.size(Dev::Disk) / u64::from(plan.block);
    let blocks = if count < MOST_BLOCKS {
        count as u32
    } else {
        MOST_BLOCKS as u32
    };
    Scratch::new(alloc, plan.block, blocks, plan.acap, plan.bcap)
}

// Replays the script, or finds no memory for it.
#[tactic(auto, using(crate::proofs::Written::written_steps))]
fn serve_script<L: Lists, F: Fingerprint, R: Rig, S: Source>(
    alloc: Global,
    plan: Plan,
    source: &mut S,
    rig: &mut R,
    print: F,
) -> Result<Result<bool, Halt>, AllocError>
    requires plan { IsPlan plan }
    requires large { small_for (Replay plan) (R.device_size rig.old) ≡ None }
    ensures all { R.tells → S.tells → IfOk result (λ served. IfOk served (λ faulted. ReplaysAll (F.printed print) plan (R.device_size rig.old DiskDevice) faulted (S.rest source.old) (R.world rig.old) (R.world rig.new) (R.counts rig.old) (R.counts rig.new))) }
    ensures some { R.tells → S.tells → IfOk result (λ served. IfErr served (λ halt. ReplaysUpTo (F.printed print) plan (R.device_size rig.old DiskDevice) halt (S.rest source.old) (R.world rig.old) (R.world rig.new) (R.counts rig.old) (R.counts rig.new))) }
    ensures bounded { S.tells → IfOk result (λ served. OnOk served (IsBounded plan (R.device_size rig.old DiskDevice) (S.rest source.old))) }
    ensures early { OnErr result (R.tells → R.world rig.new ≡ R.world rig.old) }
    ensures taken { S.tells → IfOk result (λ served. OnOk served (IsTakenTo (replay_dialect plan (R.device_size rig.old DiskDevice)) (S.rest source.old) (S.rest source.new))) }
    ensures untaken { OnErr result (source.new ≡ source.old) }
    ensures more { R.tells → SaysMore (R.world rig.old) (R.world rig.new) }
    ensures early_counts { OnErr result (R.counts rig.new ≡ R.counts rig.old) }
    ensures others { R.tells → Scratched (R.world rig.old) (R.world rig.new) }
    ensures time { R.tells → Elapses (R.clock rig.old) (R.clock rig.new) (KeepsDevices (R.world rig.old)) }
    ensures blocks { OnlyBlocks plan.block (R.counts rig.old) (R.counts rig.new) }
    ensures later { NeverFalls (R.counts rig.old) (R.counts rig.new) }
    ensures halt { IfOk result (λ served. IfErr served (λ halt. Halts IsFlash (Rose (S.failures source.old) (S.failures source.new)) (S.tells → IsBounded plan (R.device_size rig.old DiskDevice) (S.rest source.old) → ⊥) halt
        (R.counts rig.old) (R.counts rig.new))) }
{
    let size = plan.block as usize;
    let scratch = start::<L, R>(alloc, plan, rig)?;
    let mut reader = Reader::new(alloc)?;
    let mut block = vec![in alloc; 0; size]?;
    let other = vec![in alloc; 0; size]?;
    let mut text = vec![in alloc; 0; REPLY_ROOM]?;
    let mut cache = ScratchCache {
        scratch,
        print,
        other,
        block: plan.block,
    };
    Ok(serve_lines(&mut cache, &mut reader, source, rig, &mut block, &mut text))
}
