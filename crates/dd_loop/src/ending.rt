// How a run ends: its status, and the line that says why.
ghost use Rattle.std.specs.Prelude.{◌≡◌, None};
ghost use Rattle.dd_rig.specs.Clock.{Elapses};
ghost use Rattle.dd_rig.specs.Counts.{Frame};
ghost use Rattle.dd_rig.specs.World.{IsOwn, WithinEmit};
ghost use Rattle.dd_script.specs.Text.{ended, reply_text};
ghost use Rattle.dd_loop.specs.Ending.{SaysLast, WithinLast, status_of, ending_line, refused_status, stopped_status};
ghost use Rattle.dd_loop.specs.Saying.{IsIdle, SaysAlone};

use crate::saying::say_reply;
use dd_rig::Rig;
use dd_script::{Refusal, Reply, Stop};

/// How a run ends.
#[derive(Clone, Copy, Debug, PartialEq, Eq)]
pub enum Ending {
    /// What was asked is done. A read may have failed, and its command was answered so.
    Served { faulted: bool },
    /// It never began.
    Refused(Refusal),
    /// It stopped.
    Stopped(Stop),
    /// An emit failed, and nothing more is said.
    Unheard,
}

/// Says the line that tells why a run ends, where there is one and as far as it can be emitted, and
/// answers the status.
pub fn finish<R: Rig>(rig: &mut R, ending: Ending) -> u8
    ensures status { result ≡ status_of ending }
    ensures said { R.tells → SaysLast (ending_line ending) (R.counts rig.old) (R.counts rig.new) (R.world rig.old) (R.world rig.new) }
    ensures silent { ending_line ending ≡ None → rig.new ≡ rig.old }
    ensures devices { R.tells → ((R.world rig.new).flash ≡ (R.world rig.old).flash) × ((R.world rig.new).disk ≡ (R.world rig.old).disk) }
    ensures time { R.tells → Elapses (R.clock rig.old) (R.clock rig.new) (λ o. IsOwn (R.world rig.old) o.flash o.disk) }
    ensures within { R.tells → Elapses (R.clock rig.old) (R.clock rig.new) (WithinLast (ending_line ending) (R.world rig.old)) }
    ensures idle { IsIdle (R.counts rig.old) (R.counts rig.new) }
    ensures frame { Frame (R.counts rig.old) (R.counts rig.new) (R.device_size rig.old) (R.device_size rig.new) }
{
    match ending {
        Ending::Served { faulted } => u8::from(faulted),
        Ending::Refused(why) => {
            say_last(rig, Reply::Refused(why));
            refused_status(why)
        }
        Ending::Stopped(why) => {
            say_last(rig, Reply::Stopped(why));
            stopped_status(why)
        }
        Ending::Unheard => 6,
    }
}

// Says the last line, as far as it can be emitted.
fn say_last<R: Rig>(rig: &mut R, reply: Reply)
    ensures said { R.tells → SaysAlone (reply_text reply) (R.counts rig.old) (R.counts rig.new) (R.world rig.old) (R.world rig.new) }
    ensures devices { R.tells → ((R.world rig.new).flash ≡ (R.world rig.old).flash) × ((R.world rig.new).disk ≡ (R.world rig.old).disk) }
    ensures time { R.tells → Elapses (R.clock rig.old) (R.clock rig.new) (λ o. IsOwn (R.world rig.old) o.flash o.disk) }
    ensures within { R.tells → Elapses (R.clock rig.old) (R.clock rig.new) (WithinEmit (ended (reply_text reply)) (R.world rig.old)) }
    ensures idle { IsIdle (R.counts rig.old) (R.counts rig.new) }
    ensures frame { Frame (R.counts rig.old) (R.counts rig.new) (R.device_size rig.old) (R.device_size rig.new) }
{
    let _ = say_reply(rig, reply);
}

fn refused_status(why: Refusal) -> u8
    ensures { result ≡ refused_status why }
{
    match why {
        Refusal::Words => 2,
        Refusal::FlashSmall { .. }
        | Refusal::DiskSmall { .. }
        | Refusal::InUse
        | Refusal::Super(_)
        | Refusal::NoRegion
        | Refusal::Snapshot { .. }
        | Refusal::Group { .. }
        | Refusal::Worn { .. }
        | Refusal::Version1 => 3,
    }
}

fn stopped_status(why: Stop) -> u8
    ensures { result ≡ stopped_status why }
{
    match why {
        Stop::Memory => 4,
        Stop::Script => 5,
        Stop::Flash | Stop::Disk => 7,
        Stop::Length => 8,
    }
}
