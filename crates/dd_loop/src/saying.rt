// Saying a piece, and a line.
ghost use Rattle.std.specs.Prelude.{◌≡◌, Err, OnOk, OnErr};
ghost use Rattle.dd_rig.specs.Clock.{Elapses};
ghost use Rattle.dd_rig.specs.Counts.{Frame, Rose};
ghost use Rattle.dd_rig.specs.World as world;
ghost use Rattle.dd_rig.specs.World.{SaysSome, WithinEmit};
ghost use Rattle.dd_script.specs.Text.{ended, reply_text};
ghost use Rattle.dd_loop.specs.Saying.{IsIdle};
ghost use Rattle.dd_loop.specs.declared.halt.Halt.TheVariants.{Output};

use crate::halt::Halt;
use dd_rig::Rig;
use dd_script::{REPLY_ROOM, Reply, write_reply};

/// Says one line.
pub fn say_reply<R: Rig>(rig: &mut R, reply: Reply) -> Result<(), Halt>
    ensures said { R.tells → OnOk result (R.world rig.new ≡ world.say (ended (reply_text reply)) (R.world rig.old)) }
    ensures part { R.tells → SaysSome (ended (reply_text reply)) (R.world rig.old) (R.world rig.new) }
    ensures time { R.tells → Elapses (R.clock rig.old) (R.clock rig.new) (WithinEmit (ended (reply_text reply)) (R.world rig.old)) }
    ensures idle { IsIdle (R.counts rig.old) (R.counts rig.new) }
    ensures halt { OnErr result (result ≡ Err Output) }
    ensures rose { OnErr result (Rose (R.counts rig.old).failed_emits (R.counts rig.new).failed_emits) }
    ensures frame { Frame (R.counts rig.old) (R.counts rig.new) (R.device_size rig.old) (R.device_size rig.new) }
{
    let mut text = [0u8; REPLY_ROOM];
    let size = write_reply(reply, &mut text);
    say(rig, &text[..size])
}

/// Emits a piece.
pub fn say<R: Rig>(rig: &mut R, piece: &[u8]) -> Result<(), Halt>
    ensures said { R.tells → OnOk result (R.world rig.new ≡ world.say piece.now (R.world rig.old)) }
    ensures part { R.tells → SaysSome piece.now (R.world rig.old) (R.world rig.new) }
    ensures time { R.tells → Elapses (R.clock rig.old) (R.clock rig.new) (WithinEmit piece.now (R.world rig.old)) }
    ensures idle { IsIdle (R.counts rig.old) (R.counts rig.new) }
    ensures halt { OnErr result (result ≡ Err Output) }
    ensures rose { OnErr result (Rose (R.counts rig.old).failed_emits (R.counts rig.new).failed_emits) }
    ensures frame { Frame (R.counts rig.old) (R.counts rig.new) (R.device_size rig.old) (R.device_size rig.new) }
{
    rig.emit(piece).map_err(|_| Halt::Output)
}
