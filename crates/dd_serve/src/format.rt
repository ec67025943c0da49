// Formatting the flash.
ghost use Rattle.std.specs.Prelude.{◌≡◌, ◌⊎◌, ◌+◌, ◌++◌, None, ℕ};
ghost use Rattle.dd_rig.specs.Clock.{Elapses};
ghost use Rattle.dd_rig.specs.Counts.{Rose, Makes, up_to, nothing};
ghost use Rattle.dd_rig.specs.declared.device.Dev.TheVariants.{Flash as FlashDevice, Disk as DiskDevice};
ghost use Rattle.dd_rig.specs.World.{IsOwn, World, shown};
ghost use Rattle.dd_rig.specs.Leaves.{SameOutside};
ghost use Rattle.dd_journal.specs.Sitting.{regions_size};
ghost use Rattle.dd_script.specs.declared.reply.Reply.TheVariants as reply;
ghost use Rattle.dd_script.specs.Text.{ended, reply_text};
ghost use Rattle.dd_loop.specs.Ending.{SaysEnding};
ghost use Rattle.dd_loop.specs.Saying.{IsIdle, SaysAlone};
ghost use Rattle.dd_serve.specs.Formats.{Formats, FormatIsCaused, FormatLeaves, IsFormatStatus, ending_of};
ghost use Rattle.dd_serve.specs.Refusing.{Refuses, small_for, refusal_for};
ghost use Rattle.dd_serve.specs.declared.words.Asked.TheVariants.{Format};

use dd_block::Geometry;
use dd_loop::{Ending, finish, say_reply};
use dd_recover::{FormatFault, format_flash};
use dd_rig::Rig;
use dd_script::{Refusal, Reply, Stop};

/// Formats the flash of devices that are large enough, says one line, and answers the status.
pub fn run_format<R: Rig>(geo: Geometry, rig: &mut R) -> u8
    requires { small_for (Format geo) (R.device_size rig.old) ≡ None }
    ensures status { IsFormatStatus result }
    ensures refused { R.tells → Refuses (refusal_for (Format geo) (R.device_size rig.old) (shown FlashDevice (R.world rig.old))) result (R.counts rig.old) (R.counts rig.new) (R.world rig.old) (R.world rig.new) }
    ensures caused { FormatIsCaused result (λ line. R.tells → SaysAlone line (R.counts rig.old) (R.counts rig.new) (R.world rig.old) (R.world rig.new)) (λ ending. R.tells → SaysEnding ending (R.counts rig.old) (R.counts rig.new) (R.world rig.old) (R.world rig.new)) (R.counts rig.old) (R.counts rig.new) }
    ensures looks { result ≡ 3 → Makes (up_to 1 0 0) nothing (R.counts rig.old) (R.counts rig.new) }
    ensures calls { Makes (up_to 1 7 99) (up_to 0 1 0) (R.counts rig.old) (R.counts rig.new) }
    ensures formatted { R.tells → Formats geo result (R.counts rig.old) (R.counts rig.new) (R.world rig.old) (R.world rig.new) }
    ensures crash { R.tells → FormatLeaves geo (R.world rig.old) (R.clock rig.old) (R.clock rig.new) }
    ensures outside { R.tells → SameOutside 0 (64 + regions_size geo) (shown FlashDevice (R.world rig.old)) (shown FlashDevice (R.world rig.new)) }
    ensures disk { R.tells → shown DiskDevice (R.world rig.new) ≡ shown DiskDevice (R.world rig.old) }
{
    match format_flash(rig, geo) {
        Ok(()) => say_formatted(rig),
        Err(fault) => finish(rig, ending_of(fault)),
    }
}

// The line of a flash that was formatted. 6: it couldn't be said.
fn say_formatted<R: Rig>(rig: &mut R) -> u8
    ensures status { (result ≡ 0) ⊎ (result ≡ 6) }
    ensures said { R.tells → SaysAlone (reply_text reply.Formatted) (R.counts rig.old) (R.counts rig.new) (R.world rig.old) (R.world rig.new) }
    ensures exact { R.tells → result ≡ 0 → (R.world rig.new).said ≡ (R.world rig.old).said ++ ended (reply_text reply.Formatted) }
    ensures emit { result ≡ 6 → Rose (R.counts rig.old).failed_emits (R.counts rig.new).failed_emits }
    ensures devices { R.tells → ((R.world rig.new).flash ≡ (R.world rig.old).flash) × ((R.world rig.new).disk ≡ (R.world rig.old).disk) }
    ensures time { R.tells → Elapses (R.clock rig.old) (R.clock rig.new) (λ o. IsOwn (R.world rig.old) o.flash o.disk) }
    ensures idle { IsIdle (R.counts rig.old) (R.counts rig.new) }
{
    match say_reply(rig, Reply::Formatted) {
        Ok(()) => finish(rig, Ending::Served { faulted: false }),
        Err(_) => finish(rig, Ending::Unheard),
    }
}

// How a format ends that failed.
fn ending_of(fault: FormatFault) -> Ending
    ensures { result ≡ ending_of fault }
{
    match fault {
        FormatFault::FlashSmall { need, have } => {
            Ending::Refused(Refusal::FlashSmall { need, have })
        }
        FormatFault::DiskSmall { need, have } => {
            Ending::Refused(Refusal::DiskSmall { need, have })
        }
        FormatFault::InUse => Ending::Refused(Refusal::InUse),
        FormatFault::FlashRead | FormatFault::FlashWrite => Ending::Stopped(Stop::Flash),
        FormatFault::DiskWrite => Ending::Stopped(Stop::Disk),
    }
}
