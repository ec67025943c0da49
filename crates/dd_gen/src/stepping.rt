// One generated command, served by a store.
ghost use Rattle.std.specs.Prelude.{◌≡◌, ◌+◌, ◌<◌, ℕ, length, IfOk, IfErr, OnOk};
ghost use Rattle.dd_rig.specs.Clock.{Elapses};
ghost use Rattle.dd_rig.specs.Counts.{Frame};
ghost use Rattle.dd_model.specs.State.{State};
ghost use Rattle.dd_script.specs.Command.{after, read, write, tick, flush};
ghost use Rattle.dd_store.specs.Keeping.{Kept};
ghost use Rattle.dd_store.specs.Meaning.{Basis, sizes_of};
ghost use Rattle.dd_store.specs.Serving.{Faulted, Serves};
ghost use Rattle.dd_answers.specs.Answering.{MayAnswer};
ghost use Rattle.dd_gen.specs.Generator.{command_of, IsWithin};
ghost use Rattle.dd_gen.specs.Running.{AnswersCommand};

use crate::Made;
use dd_block::Fingerprint;
use dd_model::{Done, Lists};
use dd_rig::Rig;
use dd_store::{Store, StoreFault};

// Serves a command. What a reference answered comes back; the block of a read is left in `block`, where
// the block of a write stands.
#[tactic(auto, using(crate::proofs::Keeps::step_steps))]
pub(crate) fn step<F: Fingerprint, L: Lists, R: Rig>(
    store: &mut Store<F, L>,
    rig: &mut R,
    made: Made,
    block: &mut [u8],
) -> Result<Option<Done>, StoreFault>
    requires ready { MayAnswer store.old.store 1 (R.device_size rig.old) }
    requires within { IsWithin store.old.store.journal.geo.blocks made }
    requires block { length block.old ≡ store.old.store.journal.geo.block }
    ensures serves { R.tells → (basis : Basis) (c s : State) → Kept basis (F.printed store.old.print) store.old.store (R.world rig.old) c s
        → Serves basis (F.printed store.old.print) result (R.clock rig.old) (R.clock rig.new) store.new.store (R.world rig.new) c s
        (after (sizes_of store.old.store.journal.geo) s (command_of made block.old)) }
    ensures answers { R.tells → (basis : Basis) (c s : State) → Kept basis (F.printed store.old.print) store.old.store (R.world rig.old) c s
        → IfOk result (λ done. AnswersCommand (F.printed store.old.print) (sizes_of store.old.store.journal.geo) s (command_of made block.old) done) }
    ensures unsaid { R.tells → Elapses (R.clock rig.old) (R.clock rig.new) (λ o. o.out ≡ (R.world rig.old).said) }
    ensures said { R.tells → (R.world rig.new).said ≡ (R.world rig.old).said }
    ensures cause { IfErr result (λ fault. Faulted fault (R.counts rig.old) (R.counts rig.new)) }
    ensures ready { (n : ℕ) → MayAnswer store.old.store (n + 1) (R.device_size rig.old) → OnOk result (MayAnswer store.new.store n (R.device_size rig.new)) }
    ensures same { (store.new.print ≡ store.old.print) × (store.new.store.journal.geo ≡ store.old.store.journal.geo) }
    ensures block { length block.new ≡ length block.old }
    ensures frame { Frame (R.counts rig.old) (R.counts rig.new) (R.device_size rig.old) (R.device_size rig.new) }
{
    match made {
        Made::Read(address) => step_read(store, rig, address, block),
        Made::Write(address) => step_write(store, rig, address, block),
        Made::Tick => step_tick(store, rig),
        Made::Flush => step_flush(store, rig),
    }
}

// A read, into these bytes.
#[tactic(auto, using(crate::proofs::Keeps::step_steps))]
fn step_read<F: Fingerprint, L: Lists, R: Rig>(
    store: &mut Store<F, L>,
    rig: &mut R,
    address: u32,
    block: &mut [u8],
) -> Result<Option<Done>, StoreFault>
    requires ready { MayAnswer store.old.store 1 (R.device_size rig.old) }
    requires below { address < store.old.store.journal.geo.blocks }
    requires block { length block.old ≡ store.old.store.journal.geo.block }
    ensures serves { R.tells → (basis : Basis) (c s : State) → Kept basis (F.printed store.old.print) store.old.store (R.world rig.old) c s
        → Serves basis (F.printed store.old.print) result (R.clock rig.old) (R.clock rig.new) store.new.store (R.world rig.new) c s
        (after (sizes_of store.old.store.journal.geo) s (read address)) }
    ensures answers { R.tells → (basis : Basis) (c s : State) → Kept basis (F.printed store.old.print) store.old.store (R.world rig.old) c s
        → IfOk result (λ done. AnswersCommand (F.printed store.old.print) (sizes_of store.old.store.journal.geo) s (read address) done) }
    ensures unsaid { R.tells → Elapses (R.clock rig.old) (R.clock rig.new) (λ o. o.out ≡ (R.world rig.old).said) }
    ensures said { R.tells → (R.world rig.new).said ≡ (R.world rig.old).said }
    ensures cause { IfErr result (λ fault. Faulted fault (R.counts rig.old) (R.counts rig.new)) }
    ensures ready { (n : ℕ) → MayAnswer store.old.store (n + 1) (R.device_size rig.old) → OnOk result (MayAnswer store.new.store n (R.device_size rig.new)) }
    ensures same { (store.new.print ≡ store.old.print) × (store.new.store.journal.geo ≡ store.old.store.journal.geo) }
    ensures block { length block.new ≡ length block.old }
    ensures frame { Frame (R.counts rig.old) (R.counts rig.new) (R.device_size rig.old) (R.device_size rig.new) }
{
    match store.read(rig, address, block) {
        Ok(done) => Ok(Some(done)),
        Err(fault) => Err(fault),
    }
}

// A write of these bytes.
#[tactic(auto, using(crate::proofs::Keeps::step_steps))]
fn step_write<F: Fingerprint, L: Lists, R: Rig>(
    store: &mut Store<F, L>,
    rig: &mut R,
    address: u32,
    block: &[u8],
) -> Result<Option<Done>, StoreFault>
    requires ready { MayAnswer store.old.store 1 (R.device_size rig.old) }
    requires below { address < store.old.store.journal.geo.blocks }
    requires block { length block.now ≡ store.old.store.journal.geo.block }
    ensures serves { R.tells → (basis : Basis) (c s : State) → Kept basis (F.printed store.old.print) store.old.store (R.world rig.old) c s
        → Serves basis (F.printed store.old.print) result (R.clock rig.old) (R.clock rig.new) store.new.store (R.world rig.new) c s
        (after (sizes_of store.old.store.journal.geo) s (write address block.now)) }
    ensures answers { R.tells → (basis : Basis) (c s : State) → Kept basis (F.printed store.old.print) store.old.store (R.world rig.old) c s
        → IfOk result (λ done. AnswersCommand (F.printed store.old.print) (sizes_of store.old.store.journal.geo) s (write address block.now) done) }
    ensures unsaid { R.tells → Elapses (R.clock rig.old) (R.clock rig.new) (λ o. o.out ≡ (R.world rig.old).said) }
    ensures said { R.tells → (R.world rig.new).said ≡ (R.world rig.old).said }
    ensures cause { IfErr result (λ fault. Faulted fault (R.counts rig.old) (R.counts rig.new)) }
    ensures ready { (n : ℕ) → MayAnswer store.old.store (n + 1) (R.device_size rig.old) → OnOk result (MayAnswer store.new.store n (R.device_size rig.new)) }
    ensures same { (store.new.print ≡ store.old.print) × (store.new.store.journal.geo ≡ store.old.store.journal.geo) }
    ensures frame { Frame (R.counts rig.old) (R.counts rig.new) (R.device_size rig.old) (R.device_size rig.new) }
{
    match store.write(rig, address, block) {
        Ok(done) => Ok(Some(done)),
        Err(fault) => Err(fault),
    }
}

// The write-back of one dirty address.
#[tactic(auto, using(crate::proofs::Keeps::step_steps))]
fn step_tick<F: Fingerprint, L: Lists, R: Rig>(
    store: &mut Store<F, L>,
    rig: &mut R,
) -> Result<Option<Done>, StoreFault>
    requires ready { MayAnswer store.old.store 1 (R.device_size rig.old) }
    ensures serves { R.tells → (basis : Basis) (c s : State) → Kept basis (F.printed store.old.print) store.old.store (R.world rig.old) c s
        → Serves basis (F.printed store.old.print) result (R.clock rig.old) (R.clock rig.new) store.new.store (R.world rig.new) c s
        (after (sizes_of store.old.store.journal.geo) s tick) }
    ensures answers { R.tells → (basis : Basis) (c s : State) → Kept basis (F.printed store.old.print) store.old.store (R.world rig.old) c s
        → IfOk result (λ done. AnswersCommand (F.printed store.old.print) (sizes_of store.old.store.journal.geo) s tick done) }
    ensures unsaid { R.tells → Elapses (R.clock rig.old) (R.clock rig.new) (λ o. o.out ≡ (R.world rig.old).said) }
    ensures said { R.tells → (R.world rig.new).said ≡ (R.world rig.old).said }
    ensures cause { IfErr result (λ fault. Faulted fault (R.counts rig.old) (R.counts rig.new)) }
    ensures ready { (n : ℕ) → MayAnswer store.old.store (n + 1) (R.device_size rig.old) → OnOk result (MayAnswer store.new.store n (R.device_size rig.new)) }
    ensures same { (store.new.print ≡ store.old.print) × (store.new.store.journal.geo ≡ store.old.store.journal.geo) }
    ensures frame { Frame (R.counts rig.old) (R.counts rig.new) (R.device_size rig.old) (R.device_size rig.new) }
{
    match store.tick(rig) {
        Ok(_) => Ok(None),
        Err(fault) => Err(fault),
    }
}

// A commit.
#[tactic(auto, using(crate::proofs::Keeps::step_steps))]
fn step_flush<F: Fingerprint, L: Lists, R: Rig>(
    store: &mut Store<F, L>,
    rig: &mut R,
) -> Result<Option<Done>, StoreFault>
    requires ready { MayAnswer store.old.store 1 (R.device_size rig.old) }
    ensures serves { R.tells → (basis : Basis) (c s : State) → Kept basis (F.printed store.old.print) store.old.store (R.world rig.old) c s
        → Serves basis (F.printed store.old.print) result (R.clock rig.old) (R.clock rig.new) store.new.store (R.world rig.new) c s
        (after (sizes_of store.old.store.journal.geo) s flush) }
    ensures answers { R.tells → (basis : Basis) (c s : State) → Kept basis (F.printed store.old.print) store.old.store (R.world rig.old) c s
        → IfOk result (λ done. AnswersCommand (F.printed store.old.print) (sizes_of store.old.store.journal.geo) s flush done) }
    ensures unsaid { R.tells → Elapses (R.clock rig.old) (R.clock rig.new) (λ o. o.out ≡ (R.world rig.old).said) }
    ensures said { R.tells → (R.world rig.new).said ≡ (R.world rig.old).said }
    ensures cause { IfErr result (λ fault. Faulted fault (R.counts rig.old) (R.counts rig.new)) }
    ensures ready { (n : ℕ) → MayAnswer store.old.store (n + 1) (R.device_size rig.old) → OnOk result (MayAnswer store.new.store n (R.device_size rig.new)) }
    ensures same { (store.new.print ≡ store.old.print) × (store.new.store.journal.geo ≡ store.old.store.journal.geo) }
    ensures frame { Frame (R.counts rig.old) (R.counts rig.new) (R.device_size rig.old) (R.device_size rig.new) }
{
    match store.flush(rig) {
        Ok(_) => Ok(None),
        Err(fault) => Err(fault),
    }
}
