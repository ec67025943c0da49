// Two devices and an output: what each call means, whether it succeeds or not.
ghost use Rattle.std.specs.Prelude.{◌≡◌, ◌+◌, ◌^◌, ◌<◌, ◌≤◌, ℕ, List, length, slice_range, OnOk, OnErr};
ghost use Rattle.dd_rig.specs.declared.device.Dev.{Dev};
ghost use Rattle.dd_rig.specs.declared.tallies.Counts.{Counts};
ghost use Rattle.dd_rig.specs.Device.{Device, IsImage, write_bytes, make_stable};
ghost use Rattle.dd_rig.specs.World.{World, Outcome, device_of, shown, on_device, say, MayLeave, WithinWrite, WithinEmit, ShowsSome, SyncsOrStays, SaysSome};
ghost use Rattle.dd_rig.specs.Clock.{Clock, Elapses, AddsNone, MovesOn, NoneOrCounts};
ghost use Rattle.dd_rig.specs.Counts.{count_read, count_write, count_sync, count_emit, calls_of, NeverFalls, Rose};

use crate::{Dev, Failed};

/// The outside: a flash, a disk and an output. Offsets and sizes are in bytes.
///
/// A call that fails says so by `Failed`, and by a count of its device and kind. What a crash may
/// leave, at each moment of each call, is told by `clock`: see docs/devices.md.
///
/// Of the clauses of a call, `counts` is the whole of what it counts: `later` and `cause` follow from
/// it, and are there for callers. In the same way the clause `any` of a sync follows from `ok` and `err`.
pub trait Rig {
    /// Whether the rig tells its bytes. One over real files doesn't.
    ghost tells: { Type 0 };

    /// Both devices and the output.
    ghost world: { Self → World };

    /// The moment, and what a crash since an earlier one may have left.
    ghost clock: { Self → Clock };

    /// How many calls were made and failed, each up to the last value of `u64`.
    ghost counts: { Self → Counts };

    /// Bytes of a device. No call changes it.
    ghost device_size: { Self → Dev → ℕ };

    fn size(&self, dev: Dev) -> u64
        ensures { result ≡ device_size self.now dev };

    /// Fills a slice with what the device shows from `at` on. It changes nothing that a crash may leave.
    fn read(&mut self, dev: Dev, at: u64, into: &mut [u8]) -> Result<(), Failed>
        requires { at + length into.old ≤ device_size self.old dev }
        ensures bytes { tells → OnOk result (into.new ≡ slice_range (shown dev (world self.old)) at (at + length into.old)) }
        ensures world { tells → world self.new ≡ world self.old }
        ensures time { tells → AddsNone (clock self.old) (clock self.new) }
        ensures counts { counts self.new ≡ count_read dev result (counts self.old) }
        ensures later { NeverFalls (counts self.old) (counts self.new) }
        ensures cause { OnErr result (Rose (calls_of dev (counts self.old)).failed_reads (calls_of dev (counts self.new)).failed_reads) }
        ensures size { device_size self.new ≡ device_size self.old };

    /// Writes a slice from `at` on. A failed write shows any bytes in its range, or it changed
    /// nothing: then it may be one that never began. Within it its range counts as written.
    fn write(&mut self, dev: Dev, at: u64, from: &[u8]) -> Result<(), Failed>
        requires { at + length from.now ≤ device_size self.old dev }
        ensures ok { tells → OnOk result (world self.new ≡ on_device dev (write_bytes at from.now) (world self.old)) }
        ensures any { tells → ShowsSome dev at (length from.now) (world self.old) (world self.new) }
        ensures time { tells → Elapses (clock self.old) (clock self.new) (WithinWrite dev at (length from.now) (world self.old)) }
        ensures moves { tells → MovesOn (world self.old) (world self.new) (clock self.old) (clock self.new) }
        ensures within { tells → NoneOrCounts (WithinWrite dev at (length from.now) (world self.old)) (world self.old) (world self.new) (clock self.old) (clock self.new) }
        ensures counts { counts self.new ≡ count_write dev (length from.now) result (counts self.old) }
        ensures later { NeverFalls (counts self.old) (counts self.new) }
        ensures cause { OnErr result (Rose (calls_of dev (counts self.old)).failed_writes (calls_of dev (counts self.new)).failed_writes) }
        ensures size { device_size self.new ≡ device_size self.old };

    /// Makes stable what the device shows. A crash within it leaves what a crash before it may
    /// leave, since what a read gives is one of the images.
    fn sync(&mut self, dev: Dev) -> Result<(), Failed>
        ensures ok { tells → OnOk result (world self.new ≡ on_device dev make_stable (world self.old)) }
        ensures err { tells → OnErr result (world self.new ≡ world self.old) }
        ensures any { tells → SyncsOrStays dev (world self.old) (world self.new) }
        ensures time { tells → AddsNone (clock self.old) (clock self.new) }
        ensures moves { tells → MovesOn (world self.old) (world self.new) (clock self.old) (clock self.new) }
        ensures counts { counts self.new ≡ count_sync dev result (counts self.old) }
        ensures later { NeverFalls (counts self.old) (counts self.new) }
        ensures cause { OnErr result (Rose (calls_of dev (counts self.old)).failed_writes (calls_of dev (counts self.new)).failed_writes) }
        ensures size { device_size self.new ≡ device_size self.old };

    /// Appends a piece to the output. A failed emit appends some prefix of it. Within it the output
    /// ends with some prefix.
    fn emit(&mut self, piece: &[u8]) -> Result<(), Failed>
        ensures ok { tells → OnOk result (world self.new ≡ say piece.now (world self.old)) }
        ensures any { tells → SaysSome piece.now (world self.old) (world self.new) }
        ensures time { tells → Elapses (clock self.old) (clock self.new) (WithinEmit piece.now (world self.old)) }
        ensures moves { tells → MovesOn (world self.old) (world self.new) (clock self.old) (clock self.new) }
        ensures within { tells → NoneOrCounts (WithinEmit piece.now (world self.old)) (world self.old) (world self.new) (clock self.old) (clock self.new) }
        ensures counts { counts self.new ≡ count_emit result (counts self.old) }
        ensures later { NeverFalls (counts self.old) (counts self.new) }
        ensures cause { OnErr result (Rose (counts self.old).failed_emits (counts self.new).failed_emits) }
        ensures size { device_size self.new ≡ device_size self.old };

    /// A crash now is one since any moment so far.
    ghost counts_now: { (rig : Self) (t : ℕ) (o : Outcome) → tells → t ≤ (clock rig).moment → MayLeave (world rig) o → (clock rig).left_since t o };

    /// What a crash since a moment may have left, one since an earlier moment may have left too.
    ghost since_earlier: { (rig : Self) (s t : ℕ) (o : Outcome) → tells → s ≤ t → t ≤ (clock rig).moment → (clock rig).left_since t o → (clock rig).left_since s o };

    /// Since this moment there is no other.
    ghost only_now: { (rig : Self) (o : Outcome) → tells → (clock rig).left_since (clock rig).moment o → MayLeave (world rig) o };

    /// What a read gives is an image.
    ghost shows_image: { (rig : Self) (dev : Dev) → tells → IsImage (device_of dev (world rig)) (shown dev (world rig)) };

    /// Each device has its size.
    ghost has_size: { (rig : Self) (dev : Dev) → tells → length (device_of dev (world rig)).stable ≡ device_size rig dev };

    ghost size_fits: { (rig : Self) (dev : Dev) → device_size rig dev < 2 ^ 64 };
}
