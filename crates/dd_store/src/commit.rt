// The journal commits the rows of a store.
ghost use Rattle.std.specs.Prelude.{◌≡◌, ◌-◌, ◌^◌, ◌<◌, ◌≤◌, [], ℕ, List, length, IsTrue, IsOk, OnOk};
ghost use Rattle.dd_block.specs.declared.print.Fp.{Fp};
ghost use Rattle.dd_rig.specs.declared.device.Dev.TheVariants.{Flash};
ghost use Rattle.dd_rig.specs.Clock.{Elapses};
ghost use Rattle.dd_rig.specs.Leaves.{LeavesShown};
ghost use Rattle.dd_layout.specs.Layout.{region_at, flash_need};
ghost use Rattle.dd_model.specs.State.{State};
ghost use Rattle.dd_journal.specs.Calls.{Commits, FailsByFlash, CostsOfCommit};
ghost use Rattle.dd_journal.specs.Sitting.{MayCommit, regions_size};
ghost use Rattle.dd_store.specs.Keeping.{StoreView, IsStore, Holds, Kept, slots_shown};
ghost use Rattle.dd_store.specs.Committing.{StandForEither, AllStandForEither, with_parts, committed_store};
ghost use Rattle.dd_store.specs.Meaning.{Basis};

use dd_journal::Journal;
use dd_model::Lists;
use dd_record::Rec;
use dd_rig::{Failed, Rig};

/// Commits the rows of a store and its count. A crash within it leaves devices that stand for the
/// state committed before or for the one held. Behind an Ok that one is committed, and the slots
/// that waited are free. Behind `Failed` a crash leaves one of the two, and the journal is down.
pub fn commit_rows<R: Rig, L: Lists>(
    journal: &mut Journal,
    rig: &mut R,
    lists: &L,
    count: u64,
    pending: &[Rec],
) -> Result<(), Failed>
    requires up { IsTrue journal.old.is_up }
    requires epoch { journal.old.epoch < 2 ^ 64 - 1 }
    requires given { MayCommit journal.old (L.listing lists.now).table count pending.now }
    requires flash { flash_need journal.old.geo ≤ R.device_size rig.old Flash }
    ensures crash { R.tells → (basis : Basis) (print : List ℕ → Fp) (store : StoreView) (c s : State)
        → IsStore (with_parts store journal.old (L.listing lists.now).table count pending.now)
        → Kept basis print (with_parts store journal.old (L.listing lists.now).table count pending.now) (R.world rig.old) c s
        → Elapses (R.clock rig.old) (R.clock rig.new) (λ o. StandForEither basis print c s o.flash o.disk) }
    ensures now { R.tells → (basis : Basis) (print : List ℕ → Fp) (store : StoreView) (c s : State)
        → IsStore (with_parts store journal.old (L.listing lists.now).table count pending.now)
        → Kept basis print (with_parts store journal.old (L.listing lists.now).table count pending.now) (R.world rig.old) c s
        → AllStandForEither basis print c s (R.world rig.new) }
    ensures kept { R.tells → (basis : Basis) (print : List ℕ → Fp) (store : StoreView) (c s : State)
        → IsStore (with_parts store journal.old (L.listing lists.now).table count pending.now)
        → Kept basis print (with_parts store journal.old (L.listing lists.now).table count pending.now) (R.world rig.old) c s
        → OnOk result (Kept basis print (committed_store (with_parts store journal.old (L.listing lists.now).table count pending.now) journal.new) (R.world rig.new) s s) }
    ensures holds { R.tells → (print : List ℕ → Fp) (store : StoreView) (s : State)
        → IsStore (with_parts store journal.old (L.listing lists.now).table count pending.now)
        → Holds print (with_parts store journal.old (L.listing lists.now).table count pending.now) (R.world rig.old) s
        → OnOk result (Holds print (committed_store (with_parts store journal.old (L.listing lists.now).table count pending.now) journal.new) (R.world rig.new) s) }
    ensures unsaid { R.tells → Elapses (R.clock rig.old) (R.clock rig.new) (λ o. o.out ≡ (R.world rig.old).said) }
    ensures empty { pending.now ≡ [] → IsOk result × (rig.new ≡ rig.old) × (journal.new ≡ journal.old) }
    ensures commits { Commits result count (length pending.now) journal.old journal.new }
    ensures outside { R.tells → LeavesShown Flash (region_at journal.old.geo 0) (regions_size journal.old.geo) (R.world rig.old) (R.world rig.new) }
    ensures slots { R.tells → slots_shown journal.old.geo (R.world rig.new) ≡ slots_shown journal.old.geo (R.world rig.old) }
    ensures fails { FailsByFlash result (R.counts rig.old) (R.counts rig.new) (R.device_size rig.old) (R.device_size rig.new) }
    ensures costs { CostsOfCommit journal.old (length pending.now) (L.listing lists.now).table (R.counts rig.old) (R.counts rig.new) }
{
    journal.commit(rig, lists, count, pending)
}
