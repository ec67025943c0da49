// A large run, from the opening to its last line.
ghost use Rattle.std.specs.Prelude.{◌≡◌, ◌≢◌, ◌⊎◌, ◌+◌, ℕ, ⊤};
ghost use Rattle.dd_rig.specs.Clock.{Elapses};
ghost use Rattle.dd_rig.specs.Counts.{Frame, IsQuiet, Makes, up_to};
ghost use Rattle.dd_rig.specs.World.{MayLeave, Outcome, shown};
ghost use Rattle.dd_rig.specs.declared.device.Dev.TheVariants.{Flash as FlashDevice};
ghost use Rattle.dd_model.specs.State.{State};
ghost use Rattle.dd_script.specs.declared.reply.Stop.TheVariants.{Memory};
ghost use Rattle.dd_recover.specs.Opening.{IsFirstFault};
ghost use Rattle.dd_store.specs.Keeping.{Kept};
ghost use Rattle.dd_store.specs.Meaning.{Basis, sizes_of};
ghost use Rattle.dd_loop.specs.declared.ending.Ending.TheVariants.{Stopped};
ghost use Rattle.dd_loop.specs.Ending.{SaysEnding};
ghost use Rattle.dd_loop.specs.Saying.{IsIdle, SaysMore};
ghost use Rattle.dd_answers.specs.Answering.{MayAnswer};
ghost use Rattle.dd_recover.specs.Beginning.{Begins, sizes_from};
ghost use Rattle.dd_answers.specs.Opening.{IsUnserved, RefusesDevices};
ghost use Rattle.dd_gen.specs.Large.{Caused, EndsForCause, LeavesGenerated, Promises, RunEnds, TellsSums, WithinCommit, CommitEnds, stopped_by};

use crate::running::run_commands;
use crate::saying::say_end;
use dd_answers::ending_of;
use dd_block::Fingerprint;
use dd_loop::{Ending, finish};
use dd_model::Lists;
use dd_recover::{OpenFault, open_store};
use dd_rig::Rig;
use dd_script::{Stop, Sums};
use dd_store::{Store, StoreFault};
use std::alloc::Global;

/// Opens the cache that both devices stand for, serves so many commands of those that the seed
/// generates, commits, and says two lines: what their references came to, and how many references
/// there were in all. It answers the status of the run.
///
/// The status is 0 where both lines were said, 3 where the devices aren't opened (one line says why), 4
/// where there is no memory, 6 where an emit failed, and 7 where a call of a device failed, a read too
/// (one line names the device). Nothing is said before the last command is committed.
#[tactic(auto, using(crate::proofs::Keeps::step_steps))]
pub fn generate<F: Fingerprint, L: Lists, R: Rig>(
    alloc: Global,
    seed: u64,
    count: u32,
    rig: &mut R,
    print: F,
) -> u8
    // what a crash leaves, within the run and behind it
    ensures crash { R.tells → (from : Begins (F.printed print) (R.world rig.old)) → Elapses (R.clock rig.old) (R.clock rig.new) (Promises from seed count) }
    ensures left { R.tells → (from : Begins (F.printed print) (R.world rig.old)) → (o : Outcome) → MayLeave (R.world rig.new) o → Promises from seed count o }

    // what it says, and how it ends
    ensures tells { R.tells → (from : Begins (F.printed print) (R.world rig.old))
        → TellsSums (F.printed print) (sizes_from from) from.start seed count result (R.counts rig.old) (R.counts rig.new) (R.world rig.old) (R.world rig.new) }
    ensures quiet { R.tells → (from : Begins (F.printed print) (R.world rig.old)) → IsQuiet (R.counts rig.old) (R.counts rig.new) → (result ≡ 0) ⊎ (result ≡ 4) }
    ensures caused { EndsForCause ⊤ (λ ending. R.tells → SaysEnding ending (R.counts rig.old) (R.counts rig.new) (R.world rig.old) (R.world rig.new)) result (R.counts rig.old) (R.counts rig.new) }
    ensures asked { result ≢ 2 }
    ensures refused { R.tells → result ≡ 3 → RefusesDevices (R.device_size rig.old) (shown FlashDevice (R.world rig.old)) (R.counts rig.old) (R.counts rig.new) (R.world rig.old) (R.world rig.new) }
    ensures unopened { R.tells → (fault : OpenFault) → IsFirstFault (R.device_size rig.old) (shown FlashDevice (R.world rig.old)) fault → IsUnserved result (R.counts rig.old) (R.counts rig.new) (R.world rig.old) (R.world rig.new) }
    ensures early { (result ≡ 3) ⊎ (result ≡ 4) → Makes (up_to 4 1 0) (up_to 0 1 0) (R.counts rig.old) (R.counts rig.new) }
    ensures frame { Frame (R.counts rig.old) (R.counts rig.new) (R.device_size rig.old) (R.device_size rig.new) }
{
    match open_store::<F, L, R>(alloc, rig, print) {
        Err(fault) => {
            let ending = ending_of(fault);
            finish(rig, ending)
        }
        Ok(store) => end_store(alloc, store, seed, count, rig),
    }
}

// Serves the commands over an opened store and says the last line.
#[tactic(auto, using(crate::proofs::Keeps::step_steps))]
fn end_store<F: Fingerprint, L: Lists, R: Rig>(
    alloc: Global,
    store: Store<F, L>,
    seed: u64,
    count: u32,
    rig: &mut R,
) -> u8
    requires ready { MayAnswer store.store (count + 1) (R.device_size rig.old) }
    ensures crash { R.tells → (basis : Basis) (start : State) → Kept basis (F.printed store.print) store.store (R.world rig.old) start start
        → Elapses (R.clock rig.old) (R.clock rig.new) (LeavesGenerated basis (F.printed store.print) (sizes_of store.store.journal.geo) start seed count (R.world rig.old).said) }
    ensures left { R.tells → (basis : Basis) (start : State) → Kept basis (F.printed store.print) store.store (R.world rig.old) start start
        → (o : Outcome) → MayLeave (R.world rig.new) o → LeavesGenerated basis (F.printed store.print) (sizes_of store.store.journal.geo) start seed count (R.world rig.old).said o }
    ensures tells { R.tells → (basis : Basis) (start : State) → Kept basis (F.printed store.print) store.store (R.world rig.old) start start
        → TellsSums (F.printed store.print) (sizes_of store.store.journal.geo) start seed count result (R.counts rig.old) (R.counts rig.new) (R.world rig.old) (R.world rig.new) }
    ensures caused { EndsForCause ⊥ (λ ending. R.tells → SaysEnding ending (R.counts rig.old) (R.counts rig.new) (R.world rig.old) (R.world rig.new)) result (R.counts rig.old) (R.counts rig.new) }
    ensures opened { (result ≢ 2) × (result ≢ 3) }
    ensures early { result ≡ 4 → IsIdle (R.counts rig.old) (R.counts rig.new) }
    ensures frame { Frame (R.counts rig.old) (R.counts rig.new) (R.device_size rig.old) (R.device_size rig.new) }
{
    let ending = run_store(alloc, store, seed, count, rig);
    finish(rig, ending)
}

// Serves the commands over a store, and tells how that ends. Where there is no memory no call is made.
#[tactic(auto, using(crate::proofs::Keeps::step_steps))]
fn run_store<F: Fingerprint, L: Lists, R: Rig>(
    alloc: Global,
    mut store: Store<F, L>,
    seed: u64,
    count: u32,
    rig: &mut R,
) -> Ending
    requires ready { MayAnswer store.store (count + 1) (R.device_size rig.old) }
    ensures crash { R.tells → (basis : Basis) (start : State) → Kept basis (F.printed store.print) store.store (R.world rig.old) start start
        → Elapses (R.clock rig.old) (R.clock rig.new) (LeavesGenerated basis (F.printed store.print) (sizes_of store.store.journal.geo) start seed count (R.world rig.old).said) }
    ensures ends { R.tells → (basis : Basis) (start : State) → Kept basis (F.printed store.print) store.store (R.world rig.old) start start
        → RunEnds basis (F.printed store.print) (sizes_of store.store.journal.geo) start seed count result (R.world rig.old).said (R.world rig.new) }
    ensures caused { Caused ⊥ result (R.counts rig.old) (R.counts rig.new) }
    ensures memory { result ≡ Stopped Memory → rig.new ≡ rig.old }
    ensures more { R.tells → SaysMore (R.world rig.old) (R.world rig.new) }
    ensures frame { Frame (R.counts rig.old) (R.counts rig.new) (R.device_size rig.old) (R.device_size rig.new) }
{
    let size = store.geometry().block as usize;
    let Ok(mut block) = vec![in alloc; 0; size] else {
        return Ending::Stopped(Stop::Memory);
    };
    match run_commands(&mut store, rig, seed, count, &mut block) {
        Err(fault) => Ending::Stopped(stopped_by(fault)),
        Ok(sums) => commit(store, rig, sums),
    }
}

// Commits, and says both lines.
#[tactic(auto, using(crate::proofs::Keeps::step_steps))]
fn commit<F: Fingerprint, L: Lists, R: Rig>(
    mut store: Store<F, L>,
    rig: &mut R,
    sums: Sums,
) -> Ending
    requires ready { MayAnswer store.store 1 (R.device_size rig.old) }
    ensures crash { R.tells → (basis : Basis) (c s : State) → Kept basis (F.printed store.print) store.store (R.world rig.old) c s
        → Elapses (R.clock rig.old) (R.clock rig.new) (WithinCommit basis (F.printed store.print) c s sums (R.world rig.old).said) }
    ensures ends { R.tells → (basis : Basis) (c s : State) → Kept basis (F.printed store.print) store.store (R.world rig.old) c s
        → CommitEnds basis (F.printed store.print) c s sums result (R.world rig.old).said (R.world rig.new) }
    ensures caused { Caused ⊥ result (R.counts rig.old) (R.counts rig.new) }
    ensures memory { result ≢ Stopped Memory }
    ensures more { R.tells → SaysMore (R.world rig.old) (R.world rig.new) }
    ensures frame { Frame (R.counts rig.old) (R.counts rig.new) (R.device_size rig.old) (R.device_size rig.new) }
{
    match store.flush(rig) {
        Err(fault) => Ending::Stopped(stopped_by(fault)),
        Ok(count) => say_end(rig, sums, count),
    }
}

// The line of the device whose call failed.
fn stopped_by(fault: StoreFault) -> Stop
    ensures { result ≡ stopped_by fault }
{
    match fault {
        StoreFault::FlashRead | StoreFault::FlashWrite => Stop::Flash,
        StoreFault::DiskRead | StoreFault::DiskWrite => Stop::Disk,
    }
}
