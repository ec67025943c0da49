// The last lines of a large run.
ghost use Rattle.std.specs.Prelude.{◌≡◌};
ghost use Rattle.dd_rig.specs.Clock.{Elapses};
ghost use Rattle.dd_rig.specs.Counts.{Frame};
ghost use Rattle.dd_rig.specs.World.{IsOwn};
ghost use Rattle.dd_loop.specs.Saying.{SaysMore};
ghost use Rattle.dd_gen.specs.Large.{both_lines, SaysFront, SaysEnd, IsHeard};

use dd_loop::{Ending, say_reply};
use dd_rig::Rig;
use dd_script::{Reply, Sums};

// Says what the references came to, and how many there were in all.
#[tactic(auto, using(crate::proofs::Keeps::step_steps))]
pub(crate) fn say_end<R: Rig>(rig: &mut R, sums: Sums, count: u64) -> Ending
    ensures crash { R.tells → Elapses (R.clock rig.old) (R.clock rig.new) (λ o. IsOwn (R.world rig.old) o.flash o.disk × SaysFront (both_lines sums count) (R.world rig.old).said o.out) }
    ensures said { R.tells → SaysEnd result (both_lines sums count) (R.world rig.old).said (R.world rig.new).said }
    ensures devices { R.tells → ((R.world rig.new).flash ≡ (R.world rig.old).flash) × ((R.world rig.new).disk ≡ (R.world rig.old).disk) }
    ensures more { R.tells → SaysMore (R.world rig.old) (R.world rig.new) }
    ensures heard { IsHeard result (R.counts rig.old) (R.counts rig.new) }
    ensures frame { Frame (R.counts rig.old) (R.counts rig.new) (R.device_size rig.old) (R.device_size rig.new) }
{
    match say_reply(rig, Reply::Sum(sums)) {
        Err(_) => Ending::Unheard,
        Ok(()) => match say_reply(rig, Reply::Bye(count)) {
            Err(_) => Ending::Unheard,
            Ok(()) => Ending::Served { faulted: false },
        },
    }
}
