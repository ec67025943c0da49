// What answers the lines of a script.
ghost use Rattle.std.specs.Prelude.{◌≡◌, ◌+◌, ◌<◌, ◌≤◌, ◌++◌, ℕ, [], ◌∷◌, List, length, Err, false, IfSome, IfOk, OnOk, OnErr, IfErr};
ghost use Rattle.dd_rig.specs.declared.device.Dev.{Dev};
ghost use Rattle.dd_rig.specs.declared.tallies.Counts.{Counts};
ghost use Rattle.dd_rig.specs.Clock.{Elapses};
ghost use Rattle.dd_rig.specs.Counts.{Frame, Rose};
ghost use Rattle.dd_rig.specs.World.{World, say};
ghost use Rattle.dd_block.specs.declared.print.Fp.{Fp};
ghost use Rattle.dd_model.specs.State.{Entry, State};
ghost use Rattle.dd_script.specs.Line.{told, asks_lists, IsIn};
ghost use Rattle.dd_script.specs.Text.{ended, lists_text, reply_room};
ghost use Rattle.dd_loop.specs.Answering.{Pays, WritesAnswer};
ghost use Rattle.dd_loop.specs.Halting.{HaltsByDevice};
ghost use Rattle.dd_loop.specs.Standing.{AllStand, AllStandForEither, WithinCall};
ghost use Rattle.dd_loop.specs.Saying.{IsIdle, SaysMore, SaysPiece};
ghost use Rattle.dd_loop.specs.Terms.{Terms, dialect_in, lists_line};
ghost use Rattle.dd_loop.specs.declared.halt.Halt.TheVariants.{Output};

use crate::halt::Halt;
use dd_rig::Rig;
use dd_script::{Dialect, Line};

/// The line that answers another, in a buffer: its length, and whether it says that a read failed.
#[derive(Clone, Copy, Debug, PartialEq, Eq)]
pub struct Written {
    pub size: usize,
    pub faulted: bool,
}

/// What answers the lines of a script over a rig. It holds the state behind the references that it has
/// answered, and has committed a state from before some of them.
pub trait Cache<R: Rig> {
    ghost use Rattle.std.specs.Prelude.{ℕ, List};
    ghost use Rattle.dd_rig.specs.declared.device.Dev.{Dev};
    ghost use Rattle.dd_rig.specs.declared.tallies.Counts.{Counts};
    ghost use Rattle.dd_rig.specs.World.{World};
    ghost use Rattle.dd_model.specs.State.{State};
    ghost use Rattle.dd_loop.specs.Terms.{Terms};

    /// Its fingerprints and sizes, and whether its lines only read. No answer changes them.
    ghost terms: { Self → Terms };

    /// It may answer so many lines more, over devices of these sizes.
    ghost ready: { Self → ℕ → (Dev → ℕ) → Type 0 };

    /// It holds one state over the devices as they are now, and has committed another. `first` is the
    /// world when the script began.
    ghost kept: { Self → (first now : World) → (committed held : State) → Type 0 };

    /// What a crash left of both devices stands for a state.
    ghost stands: { Terms → (first : World) → (flash disk : List ℕ) → State → Type 0 };

    /// What so many lines cost in calls of devices, and the beginnings of so many more: by the cache, and
    /// the counts, in front of them and behind them.
    ghost costs: { (old new : Self) → (lines : List (List ℕ)) → (more : ℕ) → (before after : Counts) → Type 0 };

    /// How often an answer may call the devices, on every rig, by what stays as it is.
    ghost does: { Terms → (before after : Counts) → Type 0 };

    /// What an answer leaves of the devices, whether it is one or a halt.
    ghost leaves: { (old new : World) → Type 0 };

    /// The devices for whose failed writes it may stop.
    ghost stops: { Dev → Type 0 };

    /// What its lines may say.
    fn dialect(&self) -> Dialect
        ensures dialect { result ≡ dialect_in (terms self.now) }
        ensures most { result.block ≤ 4096 };

    /// Writes the answer to a line other than `l`, where it tells a command, into `text`. The block of a write stands in
    /// `block`, which may hold anything behind the answer. A read that failed is answered by a line that
    /// says so, and the state stays; a write or a sync that failed is a halt.
    fn answer(
        &mut self,
        rig: &mut R,
        line: Line,
        block: &mut [u8],
        text: &mut [u8],
    ) -> Result<Option<Written>, Halt>
        requires within { IsIn (dialect_in (terms self.old)) line }
        requires other { asks_lists line ≡ false }
        requires block { length block.old ≡ (terms self.old).sizes.block }
        requires text { length text.old ≡ reply_room }
        requires ready { ready self.old 1 (R.device_size rig.old) }
        ensures crash { R.tells → (first : World) (c s : State) → kept self.old first (R.world rig.old) c s
            → Elapses (R.clock rig.old) (R.clock rig.new) (WithinCall (stands (terms self.old) first) c s (R.world rig.old)) }
        ensures answer { R.tells → (first : World) (c s : State) → kept self.old first (R.world rig.old) c s
            → IfOk result (λ written. WritesAnswer (terms self.old).print (terms self.old).sizes (kept self.new first (R.world rig.new))
            (λ lines. Pays (costs self.old self.new) (R.counts rig.old) (R.counts rig.new) lines 0) c s (told block.old line) written text.new) }
        ensures halt { R.tells → (first : World) (c s : State) → kept self.old first (R.world rig.old) c s
            → IfErr result (λ halt. AllStandForEither (stands (terms self.old) first) c s (R.world rig.new) × costs self.old self.new [] 1 (R.counts rig.old) (R.counts rig.new)) }
        ensures cause { IfErr result (λ halt. HaltsByDevice stops halt (R.counts rig.old) (R.counts rig.new)) }
        ensures does { does (terms self.old) (R.counts rig.old) (R.counts rig.new) }
        ensures leaves { R.tells → leaves (R.world rig.old) (R.world rig.new) }
        ensures said { R.tells → (R.world rig.new).said ≡ (R.world rig.old).said }
        ensures room { IfOk result (λ written. IfSome written (λ w. w.size ≤ reply_room)) }
        ensures ready { (n : ℕ) → ready self.old (n + 1) (R.device_size rig.old) → OnOk result (ready self.new n (R.device_size rig.new)) }
        ensures same { terms self.new ≡ terms self.old }
        ensures frame { Frame (R.counts rig.old) (R.counts rig.new) (R.device_size rig.old) (R.device_size rig.new) };

    /// Says both lists in pieces: the reply to `l`, with its LF. `text` is room for a piece.
    fn list(&self, rig: &mut R, text: &mut [u8]) -> Result<(), Halt>
        requires text { length text.old ≡ reply_room }
        ensures says { R.tells → (first : World) (c s : State) → kept self.now first (R.world rig.old) c s
            → SaysPiece (ended (lists_line (terms self.now) s)) (R.clock rig.old) (R.clock rig.new) (R.world rig.old) (R.world rig.new) }
        ensures said { R.tells → (first : World) (c s : State) → kept self.now first (R.world rig.old) c s → OnOk result (R.world rig.new ≡ say (ended (lists_line (terms self.now) s)) (R.world rig.old)) }
        ensures more { R.tells → SaysMore (R.world rig.old) (R.world rig.new) }
        ensures devices { R.tells → ((R.world rig.new).flash ≡ (R.world rig.old).flash) × ((R.world rig.new).disk ≡ (R.world rig.old).disk) }
        ensures idle { IsIdle (R.counts rig.old) (R.counts rig.new) }
        ensures halt { OnErr result (result ≡ Err Output) }
        ensures rose { OnErr result (Rose (R.counts rig.old).failed_emits (R.counts rig.new).failed_emits) }
        ensures frame { Frame (R.counts rig.old) (R.counts rig.new) (R.device_size rig.old) (R.device_size rig.new) };

    /// Whatever a crash leaves now stands for the committed state.
    ghost stood: { (cache : Self) (first now : World) (c s : State) → kept cache first now c s → AllStand (stands (terms cache) first) now c };

    /// The output is no part of what is kept.
    ghost unsaid: { (cache : Self) (first old new : World) (c s : State) → new.flash ≡ old.flash → new.disk ≡ old.disk → kept cache first old c s → kept cache first new c s };

    /// It may answer fewer lines too.
    ghost fewer: { (cache : Self) (n m : ℕ) (size : Dev → ℕ) → m ≤ n → ready cache n size → ready cache m size };

    /// No line costs nothing.
    ghost free: { (cache : Self) (counts : Counts) → costs cache cache [] 0 counts counts };

    /// Saying both lists is no call of a device.
    ghost lists: { (cache : Self) (entries : List Entry) (prints : List Fp) (counts : Counts) → costs cache cache (lists_text entries prints ∷ []) 0 counts counts };

    /// Lines and further ones cost what both cost.
    ghost sums: { (one two three : Self) (lines others : List (List ℕ)) (more : ℕ) (p q r : Counts) → costs one two lines 0 p q → costs two three others more q r → costs one three (lines ++ others) more p r };

    /// Saying something costs no call of a device.
    ghost idle: { (one two : Self) (lines : List (List ℕ)) (more : ℕ) (p q r : Counts) → r.flash ≡ q.flash → r.disk ≡ q.disk → costs one two lines more p q → costs one two lines more p r };

    /// A line that isn't said was begun.
    ghost cut: { (one two : Self) (line : List ℕ) (p q : Counts) → costs one two (line ∷ []) 0 p q → costs one two [] 1 p q };

    /// The beginning of a line more costs no less.
    ghost begun: { (one two : Self) (lines : List (List ℕ)) (p q : Counts) → costs one two lines 0 p q → costs one two lines 1 p q };

    /// Nothing, and one answer after another, and saying something: each does what an answer does.
    ghost does_none: { (terms : Terms) (counts : Counts) → does terms counts counts };

    ghost does_both: { (terms : Terms) (p q r : Counts) → does terms p q → does terms q r → does terms p r };

    ghost does_said: { (terms : Terms) (p q r : Counts) → r.flash ≡ q.flash → r.disk ≡ q.disk → does terms p q → does terms p r };

    /// And leaves what an answer leaves.
    ghost leaves_all: { (world : World) → leaves world world };

    ghost leaves_both: { (one two three : World) → leaves one two → leaves two three → leaves one three };

    ghost leaves_said: { (one two three : World) → three.flash ≡ two.flash → three.disk ≡ two.disk → leaves one two → leaves one three };
}
