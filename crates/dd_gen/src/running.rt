// The commands of a large run, one after the other.
ghost use Rattle.std.specs.Prelude.{◌≡◌, ◌+◌, ◌≤◌, ◌<◌, ℕ, length, IfOk, IfErr, OnOk, OnErr};
ghost use Rattle.dd_rig.specs.Clock.{Elapses};
ghost use Rattle.dd_rig.specs.Counts.{Frame};
ghost use Rattle.dd_model.specs.State.{State};
ghost use Rattle.dd_script.specs.Command.{after};
ghost use Rattle.dd_store.specs.Keeping.{Kept};
ghost use Rattle.dd_store.specs.Meaning.{Basis, sizes_of};
ghost use Rattle.dd_store.specs.Serving.{Faulted, GoesOn};
ghost use Rattle.dd_loop.specs.Standing.{AllStandForEither, WithinCall};
ghost use Rattle.dd_answers.specs.Answering.{MayAnswer, StandsBy};
ghost use Rattle.dd_gen.specs.Generator.{drawn};
ghost use Rattle.dd_gen.specs.Sums.{AreBelow, counted_by};
ghost use Rattle.dd_gen.specs.Running.{StandsWithin, AllStandWithin, Holding, sums_at};

use crate::Gen;
use crate::stepping::step;
use crate::sums::{count_done, no_sums};
use dd_block::Fingerprint;
use dd_model::Lists;
use dd_rig::Rig;
use dd_script::Sums;
use dd_store::{Store, StoreFault};

// Serves so many commands, and answers what their references came to.
#[tactic(auto, using(crate::proofs::Keeps::step_steps))]
pub(crate) fn run_commands<F: Fingerprint, L: Lists, R: Rig>(
    store: &mut Store<F, L>,
    rig: &mut R,
    seed: u64,
    count: u32,
    block: &mut [u8],
) -> Result<Sums, StoreFault>
    requires ready { MayAnswer store.old.store (count + 1) (R.device_size rig.old) }
    requires block { length block.old ≡ store.old.store.journal.geo.block }
    ensures crash { R.tells → (basis : Basis) (start : State) → Kept basis (F.printed store.old.print) store.old.store (R.world rig.old) start start
        → Elapses (R.clock rig.old) (R.clock rig.new) (λ o. StandsWithin basis (F.printed store.old.print) (sizes_of store.old.store.journal.geo) start seed count o.flash o.disk × (o.out ≡ (R.world rig.old).said)) }
    ensures holds { R.tells → (basis : Basis) (start : State) → Kept basis (F.printed store.old.print) store.old.store (R.world rig.old) start start
        → OnOk result (Holding basis (F.printed store.old.print) (sizes_of store.old.store.journal.geo) start seed count store.new.store (R.world rig.new)) }
    ensures sums { R.tells → (basis : Basis) (start : State) → Kept basis (F.printed store.old.print) store.old.store (R.world rig.old) start start
        → IfOk result (λ sums. sums ≡ sums_at (F.printed store.old.print) (sizes_of store.old.store.journal.geo) start seed count) }
    ensures stops { R.tells → (basis : Basis) (start : State) → Kept basis (F.printed store.old.print) store.old.store (R.world rig.old) start start
        → OnErr result (AllStandWithin basis (F.printed store.old.print) (sizes_of store.old.store.journal.geo) start seed count (R.world rig.new)) }
    ensures said { R.tells → (R.world rig.new).said ≡ (R.world rig.old).said }
    ensures cause { IfErr result (λ fault. Faulted fault (R.counts rig.old) (R.counts rig.new)) }
    ensures ready { OnOk result (MayAnswer store.new.store 1 (R.device_size rig.new)) }
    ensures same { (store.new.print ≡ store.old.print) × (store.new.store.journal.geo ≡ store.old.store.journal.geo) }
    ensures frame { Frame (R.counts rig.old) (R.counts rig.new) (R.device_size rig.old) (R.device_size rig.new) }
{
    let mut commands = Gen::new(seed);
    let mut sums = no_sums();
    for _n in 0..count {
        match run_one(store, rig, &mut commands, sums, block) {
            Err(fault) => return Err(fault),
            Ok(counted) => sums = counted,
        }
    }
    Ok(sums)
}

// Serves the next command, and counts its reference where it is one.
#[tactic(auto, using(crate::proofs::Keeps::step_steps))]
fn run_one<F: Fingerprint, L: Lists, R: Rig>(
    store: &mut Store<F, L>,
    rig: &mut R,
    commands: &mut Gen,
    sums: Sums,
    block: &mut [u8],
) -> Result<Sums, StoreFault>
    requires ready { MayAnswer store.old.store 1 (R.device_size rig.old) }
    requires block { length block.old ≡ store.old.store.journal.geo.block }
    requires room { AreBelow 4294967295 sums }
    ensures crash { R.tells → (basis : Basis) (c s : State) → Kept basis (F.printed store.old.print) store.old.store (R.world rig.old) c s
        → Elapses (R.clock rig.old) (R.clock rig.new) (WithinCall (StandsBy basis (F.printed store.old.print)) c s (R.world rig.old)) }
    ensures goes { R.tells → (basis : Basis) (c s : State) → Kept basis (F.printed store.old.print) store.old.store (R.world rig.old) c s
        → OnOk result (GoesOn basis (F.printed store.old.print) c s store.new.store (R.world rig.new) (after (sizes_of store.old.store.journal.geo) s (drawn (sizes_of store.old.store.journal.geo) commands.old.numbers.x).command)) }
    ensures counts { R.tells → (basis : Basis) (c s : State) → Kept basis (F.printed store.old.print) store.old.store (R.world rig.old) c s
        → IfOk result (λ counted. counted ≡ counted_by (sizes_of store.old.store.journal.geo) s (drawn (sizes_of store.old.store.journal.geo) commands.old.numbers.x).command sums) }
    ensures stops { R.tells → (basis : Basis) (c s : State) → Kept basis (F.printed store.old.print) store.old.store (R.world rig.old) c s
        → OnErr result (AllStandForEither (StandsBy basis (F.printed store.old.print)) c s (R.world rig.new)) }
    ensures state { commands.new.numbers.x ≡ (drawn (sizes_of store.old.store.journal.geo) commands.old.numbers.x).state }
    ensures below { IfOk result (λ counted. (n : ℕ) → AreBelow n sums → AreBelow (n + 1) counted) }
    ensures said { R.tells → (R.world rig.new).said ≡ (R.world rig.old).said }
    ensures cause { IfErr result (λ fault. Faulted fault (R.counts rig.old) (R.counts rig.new)) }
    ensures ready { (n : ℕ) → MayAnswer store.old.store (n + 1) (R.device_size rig.old) → OnOk result (MayAnswer store.new.store n (R.device_size rig.new)) }
    ensures same { (store.new.print ≡ store.old.print) × (store.new.store.journal.geo ≡ store.old.store.journal.geo) }
    ensures block { length block.new ≡ length block.old }
    ensures frame { Frame (R.counts rig.old) (R.counts rig.new) (R.device_size rig.old) (R.device_size rig.new) }
{
    let made = commands.next(store.geometry(), block);
    match step(store, rig, made, block) {
        Err(fault) => Err(fault),
        Ok(done) => Ok(count_done(sums, done)),
    }
}
