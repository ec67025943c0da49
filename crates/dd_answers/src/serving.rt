// Serving a script over a store.
ghost use Rattle.std.specs.Prelude.{◌≡◌, ◌⊎◌, ◌+◌, ◌<◌, ◌≤◌, ◌^◌, ℕ, false, List, [], length, IfOk, IfErr, OnOk, OnErr};
ghost use Rattle.dd_rig.specs.Clock.{Elapses};
ghost use Rattle.dd_rig.specs.Counts.{Frame, Rose};
ghost use Rattle.dd_record.specs.Table.{is_dirty_at};
ghost use Rattle.dd_model.specs.State.{State};
ghost use Rattle.dd_script.specs.Output.{dialect_of};
ghost use Rattle.dd_script.specs.Reading.{IsTakenTo, script_limit};
ghost use Rattle.dd_script.specs.Script.{commands_of};
ghost use Rattle.dd_script.specs.declared.reply.Stop.TheVariants.{Memory};
ghost use Rattle.dd_store.specs.Meaning.{sizes_of};
ghost use Rattle.dd_loop.specs.declared.ending.Ending.TheVariants.{Stopped};
ghost use Rattle.dd_loop.specs.Halting.{Halts};
ghost use Rattle.dd_loop.specs.Saying.{SaysMore};
ghost use Rattle.dd_loop.specs.Serving.{ServedAll, ServedUpTo};
ghost use Rattle.dd_loop.specs.Standing.{StandForPrefix};
ghost use Rattle.dd_answers.specs.Answering.{MayAnswer, KeptSince, StandsSince};
ghost use Rattle.dd_answers.specs.Costs.{HasArrayBehind};
ghost use Rattle.dd_answers.specs.Serving.{Caused, LinesPaid, IsBounded, IsServed, LoopEnds, served_ending};

use crate::cache::StoreCache;
use dd_block::Fingerprint;
use dd_loop::{Ending, Halt, serve_lines};
use dd_model::Lists;
use dd_rig::{Rig, Source};
use dd_script::{REPLY_ROOM, Reader, Stop};
use dd_store::Store;
use std::alloc::{AllocError, Global};

// Serves the script over a store, and tells how that ends. Where there is no memory nothing is taken
// and no call is made.
#[tactic(auto, using(crate::proofs::Finishing::serving_steps))]
pub fn serve_store<F: Fingerprint, L: Lists, R: Rig, S: Source>(
    alloc: Global,
    store: Store<F, L>,
    source: &mut S,
    rig: &mut R,
) -> Ending
    requires ready { MayAnswer store.store (script_limit + 1) (R.device_size rig.old) }
    requires few { length store.store.dirty ≤ store.store.journal.geo.acap }
    ensures crash { R.tells → S.tells → (start : State) → KeptSince (F.printed store.print) store.store (R.world rig.old) (R.world rig.old) start start
        → Elapses (R.clock rig.old) (R.clock rig.new) (StandForPrefix (StandsSince (F.printed store.print) (R.world rig.old)) (F.printed store.print) (sizes_of store.store.journal.geo) start
        (commands_of (dialect_of (sizes_of store.store.journal.geo)) (S.rest source.old)) (R.world rig.old).said) }
    ensures ends { R.tells → S.tells → (start : State) → KeptSince (F.printed store.print) store.store (R.world rig.old) (R.world rig.old) start start
        → LoopEnds (F.printed store.print) (R.world rig.old) (sizes_of store.store.journal.geo) start (commands_of (dialect_of (sizes_of store.store.journal.geo)) (S.rest source.old)) result (R.world rig.old).said (R.world rig.new) (R.counts rig.old) (R.counts rig.new) }
    ensures caused { Caused ⊥ (S.tells → IsBounded (sizes_of store.store.journal.geo) (S.rest source.old) → ⊥) result (R.counts rig.old) (R.counts rig.new) (S.failures source.old) (S.failures source.new) }
    ensures taken { S.tells → IsServed result → IsTakenTo (dialect_of (sizes_of store.store.journal.geo)) (S.rest source.old) (S.rest source.new) × IsBounded (sizes_of store.store.journal.geo) (S.rest source.old) }
    ensures untaken { result ≡ Stopped Memory → (source.new ≡ source.old) × (rig.new ≡ rig.old) }
    ensures more { R.tells → SaysMore (R.world rig.old) (R.world rig.new) }
    ensures frame { Frame (R.counts rig.old) (R.counts rig.new) (R.device_size rig.old) (R.device_size rig.new) }
{
    match serve_script(alloc, store, source, rig) {
        Err(_) => Ending::Stopped(Stop::Memory),
        Ok(served) => served_ending(served),
    }
}

// How the loop over the lines ends.
fn served_ending(served: Result<bool, Halt>) -> Ending
    ensures { result ≡ served_ending served }
{
    match served {
        Ok(faulted) => Ending::Served { faulted },
        Err(halt) => match halt {
            Halt::Output => Ending::Unheard,
            Halt::Stopped(why) => Ending::Stopped(why),
        },
    }
}

// Serves the script over a store, or finds no memory for its buffers.
#[tactic(auto, using(crate::proofs::Finishing::serving_steps))]
fn serve_script<F: Fingerprint, L: Lists, R: Rig, S: Source>(
    alloc: Global,
    store: Store<F, L>,
    source: &mut S,
    rig: &mut R,
) -> Result<Result<bool, Halt>, AllocError>
    requires ready { MayAnswer store.store (script_limit + 1) (R.device_size rig.old) }
    requires few { length store.store.dirty ≤ store.store.journal.geo.acap }
    ensures crash { R.tells → S.tells → (start : State) → KeptSince (F.printed store.print) store.store (R.world rig.old) (R.world rig.old) start start
        → Elapses (R.clock rig.old) (R.clock rig.new) (StandForPrefix (StandsSince (F.printed store.print) (R.world rig.old)) (F.printed store.print) (sizes_of store.store.journal.geo) start
        (commands_of (dialect_of (sizes_of store.store.journal.geo)) (S.rest source.old)) (R.world rig.old).said) }
    ensures all { R.tells → S.tells → (start : State) → KeptSince (F.printed store.print) store.store (R.world rig.old) (R.world rig.old) start start
        → IfOk result (λ served. IfOk served (λ faulted. ServedAll (F.printed store.print) (sizes_of store.store.journal.geo) (StandsSince (F.printed store.print) (R.world rig.old)) start
        (commands_of (dialect_of (sizes_of store.store.journal.geo)) (S.rest source.old)) (LinesPaid (length start.addresses) (R.counts rig.old) (R.counts rig.new)) (HasArrayBehind (sizes_of store.store.journal.geo) (R.world rig.new)) faulted (R.world rig.old).said (R.world rig.new))) }
    ensures some { R.tells → S.tells → (start : State) → KeptSince (F.printed store.print) store.store (R.world rig.old) (R.world rig.old) start start
        → IfOk result (λ served. IfErr served (λ halt. ServedUpTo (F.printed store.print) (sizes_of store.store.journal.geo) (StandsSince (F.printed store.print) (R.world rig.old)) start
        (commands_of (dialect_of (sizes_of store.store.journal.geo)) (S.rest source.old)) (LinesPaid (length start.addresses) (R.counts rig.old) (R.counts rig.new)) halt (R.world rig.old).said (R.world rig.new))) }
    ensures taken { S.tells → IfOk result (λ served. OnOk served (IsTakenTo (dialect_of (sizes_of store.store.journal.geo)) (S.rest source.old) (S.rest source.new) × IsBounded (sizes_of store.store.journal.geo) (S.rest source.old))) }
    ensures halt { IfOk result (λ served. IfErr served (λ halt. Halts (λ device. Unit {0}) (Rose (S.failures source.old) (S.failures source.new))
        (S.tells → IsBounded (sizes_of store.store.journal.geo) (S.rest source.old) → ⊥) halt (R.counts rig.old) (R.counts rig.new))) }
    ensures early { OnErr result ((source.new ≡ source.old) × (rig.new ≡ rig.old)) }
    ensures more { R.tells → SaysMore (R.world rig.old) (R.world rig.new) }
    ensures frame { Frame (R.counts rig.old) (R.counts rig.new) (R.device_size rig.old) (R.device_size rig.new) }
{
    knows_dirty(&store);
    let size = store.geometry().block as usize;
    let mut cache = StoreCache { store };
    let mut reader = Reader::new(alloc)?;
    let mut block = vec![in alloc; 0; size]?;
    let mut text = vec![in alloc; 0; REPLY_ROOM]?;
    let served = serve_lines(&mut cache, &mut reader, source, rig, &mut block, &mut text);
    knows_dirty(&cache.store);
    Ok(served)
}

// A store knows its dirty addresses: they are listed, and no other one is dirty.
fn knows_dirty<F: Fingerprint, L: Lists>(store: &Store<F, L>)
    ensures listed { length store.now.store.dirty ≤ length store.now.store.table.a }
    ensures none { store.now.store.dirty ≡ [] → (address : ℕ) → is_dirty_at address store.now.store.table.a ≡ false }
{
    let _ = store.lists();
}
