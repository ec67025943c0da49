// The line that answers each command of a script that only reads.
ghost use Rattle.std.specs.Prelude.{◌≡◌, ◌+◌, ◌<◌, ◌≤◌, ◌^◌, ℕ, false, List, length, take, IfSome, IfOk, OnOk, IfErr};
ghost use Rattle.dd_rig.specs.Clock.{Elapses};
ghost use Rattle.dd_rig.specs.Counts.{Frame};
ghost use Rattle.dd_rig.specs.World.{World};
ghost use Rattle.dd_model.specs.State.{State};
ghost use Rattle.dd_script.specs.Command.{read as a_read};
ghost use Rattle.dd_script.specs.Line.{told, asks_lists, IsIn};
ghost use Rattle.dd_script.specs.Output.{reading_dialect_of};
ghost use Rattle.dd_script.specs.Text.{ended, reply_room, stat_text};
ghost use Rattle.dd_block.specs.declared.print.Fp.{Fp};
ghost use Rattle.dd_model.specs.Orphans.{orphans_of, orphaned_addresses, orphaned_blocks};
ghost use Rattle.dd_loop.specs.Answering.{Pays, WritesAnswer, WritesLine};
ghost use Rattle.dd_loop.specs.Halting.{HaltsByDevice};
ghost use Rattle.dd_serve.specs.Answering.{HoldsState, CostsLines, IsFlash};
ghost use Rattle.dd_serve.specs.Calls.{AsksFor, OnlyBlocks};
ghost use Rattle.dd_serve.specs.Scratch.{Fits, IsSound, OnlyFlash, IsWithin, scratch_sizes, scratch_state};

use crate::blocks::ScratchFault;
use crate::scratch::Scratch;
use dd_block::Fingerprint;
use dd_loop::{Halt, Written};
use dd_model::Lists;
use dd_rig::{Dev, Rig};
use dd_script::{Line, Reply, Stop, reply_read, write_reply};

/// Writes the answer to one line, where it has one.
#[tactic(auto, using(crate::proofs::Causes::cause_steps, crate::proofs::Moments::moment_steps))]
pub fn write_answer<L: Lists, F: Fingerprint, R: Rig>(
    scratch: &mut Scratch<L>,
    rig: &mut R,
    print: &F,
    line: Line,
    block: &mut [u8],
    other: &mut [u8],
    text: &mut [u8],
) -> Result<Option<Written>, Halt>
    requires within { IsIn (reading_dialect_of (scratch_sizes scratch.old)) line }
    requires other { asks_lists line ≡ false }
    requires text { length text.old ≡ reply_room }
    requires size { (length block.old ≡ (scratch_sizes scratch.old).block) × (length other.old ≡ (scratch_sizes scratch.old).block) }
    requires count { scratch.old.count + 1 < 2 ^ 64 }
    requires fits { Fits scratch.old (R.device_size rig.old) }
    ensures answer { R.tells → (first : World) (c s : State) → HoldsState (F.printed print.now) scratch.old first (R.world rig.old) s
        → IfOk result (λ written. WritesAnswer (F.printed print.now) (scratch_sizes scratch.old) (λ committed held. HoldsState (F.printed print.now) scratch.new first (R.world rig.new) held)
        (λ lines. Pays (CostsLines scratch.old scratch.new) (R.counts rig.old) (R.counts rig.new) lines 0) c s (told block.old line) written text.new) }
    ensures room { IfOk result (λ written. IfSome written (λ w. w.size ≤ reply_room)) }
    ensures fits { OnOk result (Fits scratch.new (R.device_size rig.new)) }
    ensures count { OnOk result (scratch.new.count ≤ scratch.old.count + 1) }
    ensures sizes { scratch_sizes scratch.new ≡ scratch_sizes scratch.old }
    ensures others { R.tells → OnlyFlash (R.world rig.old) (R.world rig.new) }
    ensures begun { IfErr result (λ halt. AsksFor (scratch_sizes scratch.old).block (scratch_sizes scratch.old).bcap 0 1 1 (R.counts rig.old) (R.counts rig.new)) }
    ensures time { R.tells → Elapses (R.clock rig.old) (R.clock rig.new) (IsWithin (R.world rig.old)) }
    ensures blocks { OnlyBlocks (scratch_sizes scratch.old).block (R.counts rig.old) (R.counts rig.new) }
    ensures frame { Frame (R.counts rig.old) (R.counts rig.new) (R.device_size rig.old) (R.device_size rig.new) }
    ensures cause { IfErr result (λ halt. HaltsByDevice IsFlash halt (R.counts rig.old) (R.counts rig.new)) }
{
    match line {
        Line::Skip => Ok(None),
        Line::Read(address) => Ok(Some(write_read(
            scratch, rig, print, address, block, other, text,
        )?)),
        Line::Quit => Ok(Some(Written {
            size: write_reply(Reply::Bye(scratch.count()), text),
            faulted: false,
        })),
        Line::Bad(kind) => Ok(Some(Written {
            size: write_reply(Reply::Bad(kind), text),
            faulted: false,
        })),
        Line::Stat => Ok(Some(write_stat(scratch, text))),
        Line::Write(_) | Line::Flush | Line::Clean | Line::Tick | Line::Lists => unreachable!(),
    }
}

// Writes how many references there were, and how many addresses and blocks are orphaned.
fn write_stat<L: Lists>(scratch: &Scratch<L>, text: &mut [u8]) -> Written
    requires { length text.old ≡ reply_room }
    ensures text { take result.size text.new ≡ ended (stat_text scratch.now.count (orphans_of scratch.now.lists.table).a (orphans_of scratch.now.lists.table).b) }
    ensures state { (printed : List ℕ → Fp) (world : World) → IsSound printed scratch.now world
        → orphans_of scratch.now.lists.table ≡ record { a = orphaned_addresses (scratch_state scratch.now world); b = orphaned_blocks (scratch_state scratch.now world) } }
    ensures fits { result.size ≤ reply_room }
    ensures faulted { result.faulted ≡ false }
{
    let count = scratch.count();
    let orphans = scratch.orphans();
    Written {
        size: write_reply(Reply::Stat { count, orphans }, text),
        faulted: false,
    }
}

// Writes the answer to a read.
#[tactic(auto, using(crate::proofs::Causes::cause_steps, crate::proofs::Moments::moment_steps))]
fn write_read<L: Lists, F: Fingerprint, R: Rig>(
    scratch: &mut Scratch<L>,
    rig: &mut R,
    print: &F,
    address: u32,
    block: &mut [u8],
    other: &mut [u8],
    text: &mut [u8],
) -> Result<Written, Halt>
    requires below { address < scratch.old.blocks }
    requires text { length text.old ≡ reply_room }
    requires size { (length block.old ≡ (scratch_sizes scratch.old).block) × (length other.old ≡ (scratch_sizes scratch.old).block) }
    requires count { scratch.old.count + 1 < 2 ^ 64 }
    requires fits { Fits scratch.old (R.device_size rig.old) }
    ensures answer { R.tells → (first : World) (c s : State) → HoldsState (F.printed print.now) scratch.old first (R.world rig.old) s
        → IfOk result (λ written. WritesLine (F.printed print.now) (scratch_sizes scratch.old) (λ committed held. HoldsState (F.printed print.now) scratch.new first (R.world rig.new) held)
        (λ lines. Pays (CostsLines scratch.old scratch.new) (R.counts rig.old) (R.counts rig.new) lines 0) c s (a_read address) written text.new) }
    ensures room { IfOk result (λ written. written.size ≤ reply_room) }
    ensures fits { OnOk result (Fits scratch.new (R.device_size rig.new)) }
    ensures count { OnOk result (scratch.new.count ≤ scratch.old.count + 1) }
    ensures sizes { scratch_sizes scratch.new ≡ scratch_sizes scratch.old }
    ensures others { R.tells → OnlyFlash (R.world rig.old) (R.world rig.new) }
    ensures begun { IfErr result (λ halt. AsksFor (scratch_sizes scratch.old).block (scratch_sizes scratch.old).bcap 0 1 1 (R.counts rig.old) (R.counts rig.new)) }
    ensures time { R.tells → Elapses (R.clock rig.old) (R.clock rig.new) (IsWithin (R.world rig.old)) }
    ensures blocks { OnlyBlocks (scratch_sizes scratch.old).block (R.counts rig.old) (R.counts rig.new) }
    ensures frame { Frame (R.counts rig.old) (R.counts rig.new) (R.device_size rig.old) (R.device_size rig.new) }
    ensures cause { IfErr result (λ halt. HaltsByDevice IsFlash halt (R.counts rig.old) (R.counts rig.new)) }
{
    match scratch.read(rig, print, address, block, other) {
        Ok(done) => Ok(Written {
            size: reply_read(done, block, text),
            faulted: false,
        }),
        Err(ScratchFault::FlashRead) => Ok(Written {
            size: write_reply(Reply::Fault(Dev::Flash), text),
            faulted: true,
        }),
        Err(ScratchFault::DiskRead) => Ok(Written {
            size: write_reply(Reply::Fault(Dev::Disk), text),
            faulted: true,
        }),
        Err(ScratchFault::FlashWrite) => Err(Halt::Stopped(Stop::Flash)),
    }
}
