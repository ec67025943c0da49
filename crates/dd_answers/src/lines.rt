// The line that answers each command of a store.
ghost use Rattle.std.specs.Prelude.{◌≡◌, ◌+◌, ◌<◌, ◌≤◌, ℕ, false, List, [], length, take, IfOk, IfSome, OnOk, IfErr};
ghost use Rattle.dd_rig.specs.Clock.{Elapses};
ghost use Rattle.dd_rig.specs.Counts.{Frame};
ghost use Rattle.dd_model.specs.State.{State};
ghost use Rattle.dd_script.specs.Command.{read as a_read, write as a_write, flush as a_flush, clean as a_clean, tick as a_tick, quit as a_quit};
ghost use Rattle.dd_script.specs.Line.{told, asks_lists, IsIn};
ghost use Rattle.dd_script.specs.Output.{dialect_of};
ghost use Rattle.dd_script.specs.Text.{HasNoEnd, reply_room, ended, bad_text, stat_text};
ghost use Rattle.dd_rig.specs.World.{World};
ghost use Rattle.dd_model.specs.Orphans.{orphans_of, orphaned_addresses, orphaned_blocks};
ghost use Rattle.dd_store.specs.Keeping.{Holds, Kept};
ghost use Rattle.dd_store.specs.Meaning.{Basis, sizes_of};
ghost use Rattle.dd_loop.specs.Answering.{Pays, WritesLine, WritesAnswer};
ghost use Rattle.dd_loop.specs.Halting.{HaltsByDevice};
ghost use Rattle.dd_loop.specs.Standing.{AllStandForEither, WithinCall};
ghost use Rattle.dd_answers.specs.Answering.{StandsBy, MayAnswer, TellsFault};
ghost use Rattle.dd_answers.specs.Costs.{CostsLines};

use dd_block::Fingerprint;
use dd_loop::{Halt, Written};
use dd_model::Lists;
use dd_rig::{Dev, Rig};
use dd_script::{BadKind, Line, Reply, Stop, reply_read, write_reply};
use dd_store::{Store, StoreFault};

// The answer to a call that failed: a line, or the end of the run.
fn write_fault(fault: StoreFault, text: &mut [u8]) -> Result<Written, Halt>
    requires { length text.old ≡ reply_room }
    ensures line { TellsFault fault result text.new }
    ensures room { IfOk result (λ written. written.size ≤ reply_room) }
{
    match fault {
        StoreFault::FlashRead => Ok(Written {
            size: write_reply(Reply::Fault(Dev::Flash), text),
            faulted: true,
        }),
        StoreFault::DiskRead => Ok(Written {
            size: write_reply(Reply::Fault(Dev::Disk), text),
            faulted: true,
        }),
        StoreFault::FlashWrite => Err(Halt::Stopped(Stop::Flash)),
        StoreFault::DiskWrite => Err(Halt::Stopped(Stop::Disk)),
    }
}

// Reads, and writes the answer.
#[tactic(auto, using(crate::proofs::Stepping::answer_steps))]
fn write_read<F: Fingerprint, L: Lists, R: Rig>(
    store: &mut Store<F, L>,
    rig: &mut R,
    address: u32,
    block: &mut [u8],
    text: &mut [u8],
) -> Result<Written, Halt>
    requires ready { MayAnswer store.old.store 1 (R.device_size rig.old) }
    requires below { address < store.old.store.journal.geo.blocks }
    requires block { length block.old ≡ store.old.store.journal.geo.block }
    requires text { length text.old ≡ reply_room }
    ensures crash { R.tells → (basis : Basis) (c s : State) → Kept basis (F.printed store.old.print) store.old.store (R.world rig.old) c s
        → Elapses (R.clock rig.old) (R.clock rig.new) (WithinCall (StandsBy basis (F.printed store.old.print)) c s (R.world rig.old)) }
    ensures answer { R.tells → (basis : Basis) (c s : State) → Kept basis (F.printed store.old.print) store.old.store (R.world rig.old) c s
        → IfOk result (λ written. WritesLine (F.printed store.old.print) (sizes_of store.old.store.journal.geo) (λ committed held. Kept basis (F.printed store.old.print) store.new.store (R.world rig.new) committed held)
        (λ lines. Pays (CostsLines store.old.store store.new.store) (R.counts rig.old) (R.counts rig.new) lines 0) c s (a_read address) written text.new) }
    ensures halt { R.tells → (basis : Basis) (c s : State) → Kept basis (F.printed store.old.print) store.old.store (R.world rig.old) c s
        → IfErr result (λ halt. AllStandForEither (StandsBy basis (F.printed store.old.print)) c s (R.world rig.new) × CostsLines store.old.store store.new.store [] 1 (R.counts rig.old) (R.counts rig.new)) }
    ensures cause { IfErr result (λ halt. HaltsByDevice (λ device. Unit {0}) halt (R.counts rig.old) (R.counts rig.new)) }
    ensures said { R.tells → (R.world rig.new).said ≡ (R.world rig.old).said }
    ensures room { IfOk result (λ written. written.size ≤ reply_room) }
    ensures ready { (n : ℕ) → MayAnswer store.old.store (n + 1) (R.device_size rig.old) → OnOk result (MayAnswer store.new.store n (R.device_size rig.new)) }
    ensures same { (store.new.print ≡ store.old.print) × (store.new.store.journal.geo ≡ store.old.store.journal.geo) }
    ensures frame { Frame (R.counts rig.old) (R.counts rig.new) (R.device_size rig.old) (R.device_size rig.new) }
{
    match store.read(rig, address, block) {
        Ok(done) => Ok(Written {
            size: reply_read(done, block, text),
            faulted: false,
        }),
        Err(fault) => write_fault(fault, text),
    }
}

// Writes a block, and writes the answer.
#[tactic(auto, using(crate::proofs::Stepping::answer_steps))]
fn write_write<F: Fingerprint, L: Lists, R: Rig>(
    store: &mut Store<F, L>,
    rig: &mut R,
    address: u32,
    block: &[u8],
    text: &mut [u8],
) -> Result<Written, Halt>
    requires ready { MayAnswer store.old.store 1 (R.device_size rig.old) }
    requires below { address < store.old.store.journal.geo.blocks }
    requires block { length block.now ≡ store.old.store.journal.geo.block }
    requires text { length text.old ≡ reply_room }
    ensures crash { R.tells → (basis : Basis) (c s : State) → Kept basis (F.printed store.old.print) store.old.store (R.world rig.old) c s
        → Elapses (R.clock rig.old) (R.clock rig.new) (WithinCall (StandsBy basis (F.printed store.old.print)) c s (R.world rig.old)) }
    ensures answer { R.tells → (basis : Basis) (c s : State) → Kept basis (F.printed store.old.print) store.old.store (R.world rig.old) c s
        → IfOk result (λ written. WritesLine (F.printed store.old.print) (sizes_of store.old.store.journal.geo) (λ committed held. Kept basis (F.printed store.old.print) store.new.store (R.world rig.new) committed held)
        (λ lines. Pays (CostsLines store.old.store store.new.store) (R.counts rig.old) (R.counts rig.new) lines 0) c s (a_write address block.now) written text.new) }
    ensures halt { R.tells → (basis : Basis) (c s : State) → Kept basis (F.printed store.old.print) store.old.store (R.world rig.old) c s
        → IfErr result (λ halt. AllStandForEither (StandsBy basis (F.printed store.old.print)) c s (R.world rig.new) × CostsLines store.old.store store.new.store [] 1 (R.counts rig.old) (R.counts rig.new)) }
    ensures cause { IfErr result (λ halt. HaltsByDevice (λ device. Unit {0}) halt (R.counts rig.old) (R.counts rig.new)) }
    ensures said { R.tells → (R.world rig.new).said ≡ (R.world rig.old).said }
    ensures room { IfOk result (λ written. written.size ≤ reply_room) }
    ensures ready { (n : ℕ) → MayAnswer store.old.store (n + 1) (R.device_size rig.old) → OnOk result (MayAnswer store.new.store n (R.device_size rig.new)) }
    ensures same { (store.new.print ≡ store.old.print) × (store.new.store.journal.geo ≡ store.old.store.journal.geo) }
    ensures frame { Frame (R.counts rig.old) (R.counts rig.new) (R.device_size rig.old) (R.device_size rig.new) }
{
    match store.write(rig, address, block) {
        Ok(done) => Ok(Written {
            size: write_reply(Reply::Write(done), text),
            faulted: false,
        }),
        Err(fault) => write_fault(fault, text),
    }
}

// Commits, and writes the answer to a flush.
#[tactic(auto, using(crate::proofs::Stepping::answer_steps))]
fn write_flushed<F: Fingerprint, L: Lists, R: Rig>(
    store: &mut Store<F, L>,
    rig: &mut R,
    text: &mut [u8],
) -> Result<Written, Halt>
    requires ready { MayAnswer store.old.store 1 (R.device_size rig.old) }
    requires text { length text.old ≡ reply_room }
    ensures crash { R.tells → (basis : Basis) (c s : State) → Kept basis (F.printed store.old.print) store.old.store (R.world rig.old) c s
        → Elapses (R.clock rig.old) (R.clock rig.new) (WithinCall (StandsBy basis (F.printed store.old.print)) c s (R.world rig.old)) }
    ensures answer { R.tells → (basis : Basis) (c s : State) → Kept basis (F.printed store.old.print) store.old.store (R.world rig.old) c s
        → IfOk result (λ written. WritesLine (F.printed store.old.print) (sizes_of store.old.store.journal.geo) (λ committed held. Kept basis (F.printed store.old.print) store.new.store (R.world rig.new) committed held)
        (λ lines. Pays (CostsLines store.old.store store.new.store) (R.counts rig.old) (R.counts rig.new) lines 0) c s a_flush written text.new) }
    ensures halt { R.tells → (basis : Basis) (c s : State) → Kept basis (F.printed store.old.print) store.old.store (R.world rig.old) c s
        → IfErr result (λ halt. AllStandForEither (StandsBy basis (F.printed store.old.print)) c s (R.world rig.new) × CostsLines store.old.store store.new.store [] 1 (R.counts rig.old) (R.counts rig.new)) }
    ensures cause { IfErr result (λ halt. HaltsByDevice (λ device. Unit {0}) halt (R.counts rig.old) (R.counts rig.new)) }
    ensures said { R.tells → (R.world rig.new).said ≡ (R.world rig.old).said }
    ensures room { IfOk result (λ written. written.size ≤ reply_room) }
    ensures ready { (n : ℕ) → MayAnswer store.old.store (n + 1) (R.device_size rig.old) → OnOk result (MayAnswer store.new.store n (R.device_size rig.new)) }
    ensures same { (store.new.print ≡ store.old.print) × (store.new.store.journal.geo ≡ store.old.store.journal.geo) }
    ensures frame { Frame (R.counts rig.old) (R.counts rig.new) (R.device_size rig.old) (R.device_size rig.new) }
{
    match store.flush(rig) {
        Ok(count) => Ok(Written {
            size: write_reply(Reply::Flushed(count), text),
            faulted: false,
        }),
        Err(fault) => write_fault(fault, text),
    }
}

// Commits, and writes the answer to a quit.
#[tactic(auto, using(crate::proofs::Stepping::answer_steps))]
fn write_bye<F: Fingerprint, L: Lists, R: Rig>(
    store: &mut Store<F, L>,
    rig: &mut R,
    text: &mut [u8],
) -> Result<Written, Halt>
    requires ready { MayAnswer store.old.store 1 (R.device_size rig.old) }
    requires text { length text.old ≡ reply_room }
    ensures crash { R.tells → (basis : Basis) (c s : State) → Kept basis (F.printed store.old.print) store.old.store (R.world rig.old) c s
        → Elapses (R.clock rig.old) (R.clock rig.new) (WithinCall (StandsBy basis (F.printed store.old.print)) c s (R.world rig.old)) }
    ensures answer { R.tells → (basis : Basis) (c s : State) → Kept basis (F.printed store.old.print) store.old.store (R.world rig.old) c s
        → IfOk result (λ written. WritesLine (F.printed store.old.print) (sizes_of store.old.store.journal.geo) (λ committed held. Kept basis (F.printed store.old.print) store.new.store (R.world rig.new) committed held)
        (λ lines. Pays (CostsLines store.old.store store.new.store) (R.counts rig.old) (R.counts rig.new) lines 0) c s a_quit written text.new) }
    ensures halt { R.tells → (basis : Basis) (c s : State) → Kept basis (F.printed store.old.print) store.old.store (R.world rig.old) c s
        → IfErr result (λ halt. AllStandForEither (StandsBy basis (F.printed store.old.print)) c s (R.world rig.new) × CostsLines store.old.store store.new.store [] 1 (R.counts rig.old) (R.counts rig.new)) }
    ensures cause { IfErr result (λ halt. HaltsByDevice (λ device. Unit {0}) halt (R.counts rig.old) (R.counts rig.new)) }
    ensures said { R.tells → (R.world rig.new).said ≡ (R.world rig.old).said }
    ensures room { IfOk result (λ written. written.size ≤ reply_room) }
    ensures ready { (n : ℕ) → MayAnswer store.old.store (n + 1) (R.device_size rig.old) → OnOk result (MayAnswer store.new.store n (R.device_size rig.new)) }
    ensures same { (store.new.print ≡ store.old.print) × (store.new.store.journal.geo ≡ store.old.store.journal.geo) }
    ensures frame { Frame (R.counts rig.old) (R.counts rig.new) (R.device_size rig.old) (R.device_size rig.new) }
{
    match store.flush(rig) {
        Ok(count) => Ok(Written {
            size: write_reply(Reply::Bye(count), text),
            faulted: false,
        }),
        Err(fault) => write_fault(fault, text),
    }
}

// Writes each dirty address back, and writes the answer.
#[tactic(auto, using(crate::proofs::Stepping::answer_steps))]
fn write_cleaned<F: Fingerprint, L: Lists, R: Rig>(
    store: &mut Store<F, L>,
    rig: &mut R,
    text: &mut [u8],
) -> Result<Written, Halt>
    requires ready { MayAnswer store.old.store 1 (R.device_size rig.old) }
    requires text { length text.old ≡ reply_room }
    ensures crash { R.tells → (basis : Basis) (c s : State) → Kept basis (F.printed store.old.print) store.old.store (R.world rig.old) c s
        → Elapses (R.clock rig.old) (R.clock rig.new) (WithinCall (StandsBy basis (F.printed store.old.print)) c s (R.world rig.old)) }
    ensures answer { R.tells → (basis : Basis) (c s : State) → Kept basis (F.printed store.old.print) store.old.store (R.world rig.old) c s
        → IfOk result (λ written. WritesLine (F.printed store.old.print) (sizes_of store.old.store.journal.geo) (λ committed held. Kept basis (F.printed store.old.print) store.new.store (R.world rig.new) committed held)
        (λ lines. Pays (CostsLines store.old.store store.new.store) (R.counts rig.old) (R.counts rig.new) lines 0) c s a_clean written text.new) }
    ensures halt { R.tells → (basis : Basis) (c s : State) → Kept basis (F.printed store.old.print) store.old.store (R.world rig.old) c s
        → IfErr result (λ halt. AllStandForEither (StandsBy basis (F.printed store.old.print)) c s (R.world rig.new) × CostsLines store.old.store store.new.store [] 1 (R.counts rig.old) (R.counts rig.new)) }
    ensures cause { IfErr result (λ halt. HaltsByDevice (λ device. Unit {0}) halt (R.counts rig.old) (R.counts rig.new)) }
    ensures said { R.tells → (R.world rig.new).said ≡ (R.world rig.old).said }
    ensures room { IfOk result (λ written. written.size ≤ reply_room) }
    ensures ready { (n : ℕ) → MayAnswer store.old.store (n + 1) (R.device_size rig.old) → OnOk result (MayAnswer store.new.store n (R.device_size rig.new)) }
    ensures same { (store.new.print ≡ store.old.print) × (store.new.store.journal.geo ≡ store.old.store.journal.geo) }
    ensures frame { Frame (R.counts rig.old) (R.counts rig.new) (R.device_size rig.old) (R.device_size rig.new) }
{
    match store.clean(rig) {
        Ok(()) => Ok(Written {
            size: write_reply(Reply::Cleaned, text),
            faulted: false,
        }),
        Err(fault) => write_fault(fault, text),
    }
}

// Writes the oldest dirty address back, and writes the answer.
#[tactic(auto, using(crate::proofs::Stepping::answer_steps))]
fn write_ticked<F: Fingerprint, L: Lists, R: Rig>(
    store: &mut Store<F, L>,
    rig: &mut R,
    text: &mut [u8],
) -> Result<Written, Halt>
    requires ready { MayAnswer store.old.store 1 (R.device_size rig.old) }
    requires text { length text.old ≡ reply_room }
    ensures crash { R.tells → (basis : Basis) (c s : State) → Kept basis (F.printed store.old.print) store.old.store (R.world rig.old) c s
        → Elapses (R.clock rig.old) (R.clock rig.new) (WithinCall (StandsBy basis (F.printed store.old.print)) c s (R.world rig.old)) }
    ensures answer { R.tells → (basis : Basis) (c s : State) → Kept basis (F.printed store.old.print) store.old.store (R.world rig.old) c s
        → IfOk result (λ written. WritesLine (F.printed store.old.print) (sizes_of store.old.store.journal.geo) (λ committed held. Kept basis (F.printed store.old.print) store.new.store (R.world rig.new) committed held)
        (λ lines. Pays (CostsLines store.old.store store.new.store) (R.counts rig.old) (R.counts rig.new) lines 0) c s a_tick written text.new) }
    ensures halt { R.tells → (basis : Basis) (c s : State) → Kept basis (F.printed store.old.print) store.old.store (R.world rig.old) c s
        → IfErr result (λ halt. AllStandForEither (StandsBy basis (F.printed store.old.print)) c s (R.world rig.new) × CostsLines store.old.store store.new.store [] 1 (R.counts rig.old) (R.counts rig.new)) }
    ensures cause { IfErr result (λ halt. HaltsByDevice (λ device. Unit {0}) halt (R.counts rig.old) (R.counts rig.new)) }
    ensures said { R.tells → (R.world rig.new).said ≡ (R.world rig.old).said }
    ensures room { IfOk result (λ written. written.size ≤ reply_room) }
    ensures ready { (n : ℕ) → MayAnswer store.old.store (n + 1) (R.device_size rig.old) → OnOk result (MayAnswer store.new.store n (R.device_size rig.new)) }
    ensures same { (store.new.print ≡ store.old.print) × (store.new.store.journal.geo ≡ store.old.store.journal.geo) }
    ensures frame { Frame (R.counts rig.old) (R.counts rig.new) (R.device_size rig.old) (R.device_size rig.new) }
{
    match store.tick(rig) {
        Ok(_) => Ok(Written {
            size: write_reply(Reply::Ticked, text),
            faulted: false,
        }),
        Err(fault) => write_fault(fault, text),
    }
}

// The line that says why another is no command.
fn write_bad(kind: BadKind, text: &mut [u8]) -> Written
    requires { length text.old ≡ reply_room }
    ensures text { take result.size text.new ≡ ended (bad_text kind) }
    ensures line { HasNoEnd (bad_text kind) }
    ensures fits { result.size ≤ reply_room }
    ensures faulted { result.faulted ≡ false }
{
    Written {
        size: write_reply(Reply::Bad(kind), text),
        faulted: false,
    }
}

// Writes how many references there were, and how many addresses and blocks are orphaned.
fn write_stat<F: Fingerprint, L: Lists>(store: &Store<F, L>, text: &mut [u8]) -> Written
    requires { length text.old ≡ reply_room }
    ensures text { take result.size text.new ≡ ended (stat_text store.now.store.count (orphans_of store.now.store.table).a (orphans_of store.now.store.table).b) }
    ensures state { (world : World) (s : State) → Holds (F.printed store.now.print) store.now.store world s → orphans_of store.now.store.table ≡ record { a = orphaned_addresses s; b = orphaned_blocks s } }
    ensures fits { result.size ≤ reply_room }
    ensures faulted { result.faulted ≡ false }
{
    let count = store.count();
    let orphans = store.orphans();
    Written {
        size: write_reply(Reply::Stat { count, orphans }, text),
        faulted: false,
    }
}

// Writes the answer to a line, where it tells a command other than `l`.
#[tactic(auto, using(crate::proofs::Stepping::answer_steps))]
pub fn write_answer<F: Fingerprint, L: Lists, R: Rig>(
    store: &mut Store<F, L>,
    rig: &mut R,
    line: Line,
    block: &mut [u8],
    text: &mut [u8],
) -> Result<Option<Written>, Halt>
    requires ready { MayAnswer store.old.store 1 (R.device_size rig.old) }
    requires within { IsIn (dialect_of (sizes_of store.old.store.journal.geo)) line }
    requires other { asks_lists line ≡ false }
    requires block { length block.old ≡ store.old.store.journal.geo.block }
    requires text { length text.old ≡ reply_room }
    ensures crash { R.tells → (basis : Basis) (c s : State) → Kept basis (F.printed store.old.print) store.old.store (R.world rig.old) c s
        → Elapses (R.clock rig.old) (R.clock rig.new) (WithinCall (StandsBy basis (F.printed store.old.print)) c s (R.world rig.old)) }
    ensures answer { R.tells → (basis : Basis) (c s : State) → Kept basis (F.printed store.old.print) store.old.store (R.world rig.old) c s
        → IfOk result (λ written. WritesAnswer (F.printed store.old.print) (sizes_of store.old.store.journal.geo) (λ committed held. Kept basis (F.printed store.old.print) store.new.store (R.world rig.new) committed held)
        (λ lines. Pays (CostsLines store.old.store store.new.store) (R.counts rig.old) (R.counts rig.new) lines 0) c s (told block.old line) written text.new) }
    ensures halt { R.tells → (basis : Basis) (c s : State) → Kept basis (F.printed store.old.print) store.old.store (R.world rig.old) c s
        → IfErr result (λ halt. AllStandForEither (StandsBy basis (F.printed store.old.print)) c s (R.world rig.new) × CostsLines store.old.store store.new.store [] 1 (R.counts rig.old) (R.counts rig.new)) }
    ensures cause { IfErr result (λ halt. HaltsByDevice (λ device. Unit {0}) halt (R.counts rig.old) (R.counts rig.new)) }
    ensures said { R.tells → (R.world rig.new).said ≡ (R.world rig.old).said }
    ensures room { IfOk result (λ written. IfSome written (λ w. w.size ≤ reply_room)) }
    ensures ready { (n : ℕ) → MayAnswer store.old.store (n + 1) (R.device_size rig.old) → OnOk result (MayAnswer store.new.store n (R.device_size rig.new)) }
    ensures same { (store.new.print ≡ store.old.print) × (store.new.store.journal.geo ≡ store.old.store.journal.geo) }
    ensures frame { Frame (R.counts rig.old) (R.counts rig.new) (R.device_size rig.old) (R.device_size rig.new) }
{
    match line {
        Line::Skip => Ok(None),
        Line::Read(address) => Ok(Some(write_read(store, rig, address, block, text)?)),
        Line::Write(address) => Ok(Some(write_write(store, rig, address, block, text)?)),
        Line::Flush => Ok(Some(write_flushed(store, rig, text)?)),
        Line::Clean => Ok(Some(write_cleaned(store, rig, text)?)),
        Line::Tick => Ok(Some(write_ticked(store, rig, text)?)),
        Line::Quit => Ok(Some(write_bye(store, rig, text)?)),
        Line::Stat => Ok(Some(write_stat(store, text))),
        Line::Bad(kind) => Ok(Some(write_bad(kind, text))),
        Line::Lists => unreachable!(),
    }
}
