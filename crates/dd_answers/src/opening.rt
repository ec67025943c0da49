// Serving a script over two devices: the opening, the lines, and the last line.
ghost use Rattle.std.specs.Prelude.{◌≡◌, ◌≢◌, ◌⊎◌, ◌+◌, ◌≤◌, ℕ, length};
ghost use Rattle.dd_rig.specs.declared.device.Dev.TheVariants.{Flash as FlashDevice};
ghost use Rattle.dd_rig.specs.Clock.{Elapses};
ghost use Rattle.dd_rig.specs.Counts.{Frame, IsQuiet, IsStill, Makes, up_to};
ghost use Rattle.dd_rig.specs.World.{Outcome, MayLeave, shown};
ghost use Rattle.dd_model.specs.State.{Sizes, State};
ghost use Rattle.dd_recover.specs.Opening.{IsFirstFault};
ghost use Rattle.dd_script.specs.Output.{dialect_of};
ghost use Rattle.dd_script.specs.Reading.{IsTakenTo, script_limit};
ghost use Rattle.dd_script.specs.Script.{commands_of};
ghost use Rattle.dd_answers.specs.Answering.{KeptSince};
ghost use Rattle.dd_store.specs.Meaning.{sizes_of};
ghost use Rattle.dd_loop.specs.Ending.{SaysEnding};
ghost use Rattle.dd_loop.specs.Saying.{IsIdle};
ghost use Rattle.dd_answers.specs.Answering.{MayAnswer};
ghost use Rattle.dd_answers.specs.Headline.{Headline, Promises};
ghost use Rattle.dd_recover.specs.Beginning.{Begins, sizes_from};
ghost use Rattle.dd_answers.specs.Opening.{EndsForCause, IsUnserved, RefusesDevices, ending_of};
ghost use Rattle.dd_answers.specs.Serving.{IsBounded, Serves};

use crate::serving::serve_store;
use dd_block::Fingerprint;
use dd_loop::{Ending, finish};
use dd_model::Lists;
use dd_recover::{OpenFault, open_store};
use dd_rig::{Rig, Source};
use dd_script::{Refusal, Stop};
use dd_store::Store;
use std::alloc::Global;

/// Opens the cache that both devices stand for and serves the script over it, and answers the status of
/// the run. Where the devices stand for a state, at each moment of the run, within its device calls too,
/// they stand for the array and both lists after one prefix of the answered reads and writes, no shorter
/// than what a line acknowledged; before the first line they may be as a crash before the run leaves them.
///
/// The status is 0 where each line was answered, 1 where one tells of a failed read, 3 where the devices
/// aren't opened (one line says why), 4 where there is no memory (nothing of the script is taken), 5 where
/// the script can't be read on, 6 where an emit failed, 7 where a device failed, and 8 where the script
/// has 2^40 bytes or more and in them no whole line `q`. From 4 on, but for 6, the last line says so.
#[tactic(auto, using(crate::proofs::Finishing::serving_steps))]
pub fn serve<F: Fingerprint, L: Lists, R: Rig, S: Source>(
    alloc: Global,
    source: &mut S,
    rig: &mut R,
    print: F,
) -> u8
    // what a crash leaves, within the run and behind it
    ensures crash { R.tells → S.tells → (from : Begins (F.printed print) (R.world rig.old))
        → Elapses (R.clock rig.old) (R.clock rig.new) (Promises from (S.rest source.old)) }
    ensures left { R.tells → S.tells → (from : Begins (F.printed print) (R.world rig.old))
        → (o : Outcome) → MayLeave (R.world rig.new) o → Promises from (S.rest source.old) o }

    // what it says and takes
    ensures serves { R.tells → S.tells → (from : Begins (F.printed print) (R.world rig.old))
        → Serves (F.printed print) (sizes_from from) from.start (S.rest source.old) 1 result (R.world rig.old) (R.world rig.new) (R.counts rig.old) (R.counts rig.new) }
    ensures taken { R.tells → S.tells → (from : Begins (F.printed print) (R.world rig.old))
        → result ≤ 1 → IsTakenTo (dialect_of (sizes_from from)) (S.rest source.old) (S.rest source.new) }
    ensures untaken { (result ≡ 3) ⊎ (result ≡ 4) → (source.new ≡ source.old) × Makes (up_to 4 1 0) (up_to 0 1 0) (R.counts rig.old) (R.counts rig.new) }

    // how it ends
    ensures asked { result ≢ 2 }
    ensures quiet { R.tells → S.tells → (from : Begins (F.printed print) (R.world rig.old))
        → IsQuiet (R.counts rig.old) (R.counts rig.new) → IsStill (S.failures source.old) (S.failures source.new) → IsBounded (sizes_from from) (S.rest source.old) → (result ≡ 0) ⊎ (result ≡ 4) }
    ensures caused { EndsForCause (source.new ≡ source.old) ((sizes : Sizes) × (S.tells → IsBounded sizes (S.rest source.old) → ⊥)) (λ ending. R.tells → SaysEnding ending (R.counts rig.old) (R.counts rig.new) (R.world rig.old) (R.world rig.new)) result (R.counts rig.old) (R.counts rig.new) (S.failures source.old) (S.failures source.new) }
    ensures refused { R.tells → result ≡ 3 → RefusesDevices (R.device_size rig.old) (shown FlashDevice (R.world rig.old)) (R.counts rig.old) (R.counts rig.new) (R.world rig.old) (R.world rig.new) }
    ensures unopened { R.tells → (fault : OpenFault) → IsFirstFault (R.device_size rig.old) (shown FlashDevice (R.world rig.old)) fault → IsUnserved result (R.counts rig.old) (R.counts rig.new) (R.world rig.old) (R.world rig.new) }
    ensures frame { Frame (R.counts rig.old) (R.counts rig.new) (R.device_size rig.old) (R.device_size rig.new) }
{
    match open_store::<F, L, R>(alloc, rig, print) {
        Err(fault) => {
            let ending = ending_of(fault);
            finish(rig, ending)
        }
        Ok(store) => end_store(alloc, store, source, rig),
    }
}

// Serves the script over an opened store and says the last line.
#[tactic(auto, using(crate::proofs::Finishing::serving_steps))]
fn end_store<F: Fingerprint, L: Lists, R: Rig, S: Source>(
    alloc: Global,
    store: Store<F, L>,
    source: &mut S,
    rig: &mut R,
) -> u8
    requires ready { MayAnswer store.store (script_limit + 1) (R.device_size rig.old) }
    requires few { length store.store.dirty ≤ store.store.journal.geo.acap }
    ensures crash { R.tells → S.tells → (start : State) (kept : KeptSince (F.printed store.print) store.store (R.world rig.old) (R.world rig.old) start start)
        → Elapses (R.clock rig.old) (R.clock rig.new) (Headline kept.0 (F.printed store.print) (sizes_of store.store.journal.geo) start (commands_of (dialect_of (sizes_of store.store.journal.geo)) (S.rest source.old)) (R.world rig.old).said) }
    ensures left { R.tells → S.tells → (start : State) (kept : KeptSince (F.printed store.print) store.store (R.world rig.old) (R.world rig.old) start start)
        → (o : Outcome) → MayLeave (R.world rig.new) o → Headline kept.0 (F.printed store.print) (sizes_of store.store.journal.geo) start (commands_of (dialect_of (sizes_of store.store.journal.geo)) (S.rest source.old)) (R.world rig.old).said o }
    ensures serves { R.tells → S.tells → (start : State) → KeptSince (F.printed store.print) store.store (R.world rig.old) (R.world rig.old) start start
        → Serves (F.printed store.print) (sizes_of store.store.journal.geo) start (S.rest source.old) 0 result (R.world rig.old) (R.world rig.new) (R.counts rig.old) (R.counts rig.new) }
    ensures quiet { R.tells → S.tells → (start : State) → KeptSince (F.printed store.print) store.store (R.world rig.old) (R.world rig.old) start start
        → IsQuiet (R.counts rig.old) (R.counts rig.new) → IsStill (S.failures source.old) (S.failures source.new) → IsBounded (sizes_of store.store.journal.geo) (S.rest source.old) → (result ≡ 0) ⊎ (result ≡ 4) }
    ensures caused { EndsForCause ⊥ (S.tells → IsBounded (sizes_of store.store.journal.geo) (S.rest source.old) → ⊥) (λ ending. R.tells → SaysEnding ending (R.counts rig.old) (R.counts rig.new) (R.world rig.old) (R.world rig.new)) result (R.counts rig.old) (R.counts rig.new) (S.failures source.old) (S.failures source.new) }
    ensures taken { S.tells → result ≤ 1 → IsTakenTo (dialect_of (sizes_of store.store.journal.geo)) (S.rest source.old) (S.rest source.new) }
    ensures untaken { result ≡ 4 → (source.new ≡ source.old) × IsIdle (R.counts rig.old) (R.counts rig.new) }
    ensures opened { (result ≢ 2) × (result ≢ 3) }
    ensures frame { Frame (R.counts rig.old) (R.counts rig.new) (R.device_size rig.old) (R.device_size rig.new) }
{
    let ending = serve_store(alloc, store, source, rig);
    finish(rig, ending)
}

/// How a run ends whose devices weren't opened.
pub fn ending_of(fault: OpenFault) -> Ending
    ensures { result ≡ ending_of fault }
{
    match fault {
        OpenFault::Memory(_) => Ending::Stopped(Stop::Memory),
        OpenFault::FlashRead | OpenFault::FlashWrite => Ending::Stopped(Stop::Flash),
        OpenFault::DiskWrite => Ending::Stopped(Stop::Disk),
        OpenFault::FlashSmall { need, have } => Ending::Refused(Refusal::FlashSmall { need, have }),
        OpenFault::DiskSmall { need, have } => Ending::Refused(Refusal::DiskSmall { need, have }),
        OpenFault::Super(fault) => Ending::Refused(Refusal::Super(fault)),
        OpenFault::NoRegion => Ending::Refused(Refusal::NoRegion),
        OpenFault::Snapshot { region, at } => Ending::Refused(Refusal::Snapshot { region, at }),
        OpenFault::Group { region, at } => Ending::Refused(Refusal::Group { region, at }),
        OpenFault::Worn { value } => Ending::Refused(Refusal::Worn { value }),
        OpenFault::Version1 => Ending::Refused(Refusal::Version1),
    }
}
