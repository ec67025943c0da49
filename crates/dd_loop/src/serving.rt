// Serving a script: one reply for each command.
ghost use Rattle.std.specs.Prelude.{◌≡◌, ◌+◌, ◌<◌, ◌≤◌, ◌^◌, ℕ, true, false, List, length, Some, Err, IfSome, IfOk, OnOk, IfErr};
ghost use Rattle.dd_rig.specs.Clock.{Elapses};
ghost use Rattle.dd_rig.specs.Counts.{Frame, NeverFalls, Rose};
ghost use Rattle.dd_rig.specs.World.{World};
ghost use Rattle.dd_model.specs.State.{State};
ghost use Rattle.dd_script.specs.Command.{lists};
ghost use Rattle.dd_script.specs.Line.{told, asks_lists, IsIn};
ghost use Rattle.dd_script.specs.Reading.{left, fuel, quits, IsTakenTo};
ghost use Rattle.dd_script.specs.Script.{commands_of, EndsWithin};
ghost use Rattle.dd_script.specs.Text.{reply_room};
ghost use Rattle.dd_loop.specs.Answering.{Pays, AnswersLine, WithinLine, CutsLine};
ghost use Rattle.dd_loop.specs.Halting.{Halts, stop_of};
ghost use Rattle.dd_loop.specs.Saying.{SaysMore};
ghost use Rattle.dd_loop.specs.Serving.{ServedAll, ServedUpTo};
ghost use Rattle.dd_loop.specs.Standing.{IsHeld, StandForPrefix, StandForSome};
ghost use Rattle.dd_loop.specs.Terms.{dialect_in};

use crate::cache::Cache;
use crate::halt::Halt;
use crate::saying::say;
use dd_rig::{Rig, Source};
use dd_script::{Line, Reader, ScriptFault, Stop};

/// Serves a script up to its end, or to its first q. Answers whether a read failed, and its command was
/// answered so. `block` has the bytes of a block, and `text` the room of a reply.
#[tactic(auto, using(crate::proofs::Causes::cause_steps))]
pub fn serve_lines<R: Rig, C: Cache<R>, S: Source>(
    cache: &mut C,
    reader: &mut Reader,
    source: &mut S,
    rig: &mut R,
    block: &mut [u8],
    text: &mut [u8],
) -> Result<bool, Halt>
    requires block { length block.old ≡ (C.terms cache.old).sizes.block }
    requires text { length text.old ≡ reply_room }
    requires ready { C.ready cache.old (fuel reader.old + 1) (R.device_size rig.old) }
    ensures crash { R.tells → S.tells → (first : World) (start : State) → C.kept cache.old first (R.world rig.old) start start
        → Elapses (R.clock rig.old) (R.clock rig.new) (StandForPrefix (C.stands (C.terms cache.old) first) (C.terms cache.old).print (C.terms cache.old).sizes start
        (commands_of (dialect_in (C.terms cache.old)) (left reader.old (S.rest source.old))) (R.world rig.old).said) }
    ensures moments { R.tells → (first : World) (c s : State) → C.kept cache.old first (R.world rig.old) c s
        → Elapses (R.clock rig.old) (R.clock rig.new) (StandForSome (C.stands (C.terms cache.old) first)) }
    ensures all { R.tells → S.tells → (first : World) (start : State) → C.kept cache.old first (R.world rig.old) start start
        → IfOk result (λ faulted. ServedAll (C.terms cache.old).print (C.terms cache.old).sizes (C.stands (C.terms cache.old) first) start
        (commands_of (dialect_in (C.terms cache.old)) (left reader.old (S.rest source.old))) (Pays (C.costs cache.old cache.new) (R.counts rig.old) (R.counts rig.new))
        (λ lines s. IsHeld (C.kept cache.new first (R.world rig.new)) s) faulted (R.world rig.old).said (R.world rig.new)) }
    ensures some { R.tells → S.tells → (first : World) (start : State) → C.kept cache.old first (R.world rig.old) start start
        → IfErr result (λ halt. ServedUpTo (C.terms cache.old).print (C.terms cache.old).sizes (C.stands (C.terms cache.old) first) start
        (commands_of (dialect_in (C.terms cache.old)) (left reader.old (S.rest source.old))) (Pays (C.costs cache.old cache.new) (R.counts rig.old) (R.counts rig.new)) halt (R.world rig.old).said (R.world rig.new)) }
    ensures taken { S.tells → OnOk result (IsTakenTo (dialect_in (C.terms cache.old)) (left reader.old (S.rest source.old)) (S.rest source.new)) }
    ensures bounded { S.tells → OnOk result (EndsWithin (fuel reader.old) (dialect_in (C.terms cache.old)) (left reader.old (S.rest source.old))) }
    ensures halt { IfErr result (λ halt. Halts C.stops (Rose (S.failures source.old) (S.failures source.new))
        (S.tells → EndsWithin (fuel reader.old) (dialect_in (C.terms cache.old)) (left reader.old (S.rest source.old)) → ⊥) halt (R.counts rig.old) (R.counts rig.new)) }
    ensures does { C.does (C.terms cache.old) (R.counts rig.old) (R.counts rig.new) }
    ensures leaves { R.tells → C.leaves (R.world rig.old) (R.world rig.new) }
    ensures more { R.tells → SaysMore (R.world rig.old) (R.world rig.new) }
    ensures same { C.terms cache.new ≡ C.terms cache.old }
    ensures frame { Frame (R.counts rig.old) (R.counts rig.new) (R.device_size rig.old) (R.device_size rig.new) }
{
    let dialect = cache.dialect();
    let mut faulted = false;
    'lines: loop {
        let line = match reader.next(source, dialect, block) {
            Ok(line) => line,
            Err(fault) => return Err(Halt::Stopped(stop_of(fault))),
        };
        let failed = answer_line(cache, rig, line, block, text)?;
        faulted = faulted | failed;
        if is_quit(line) {
            return Ok(faulted);
        }
    }
}

fn is_quit(line: Line) -> bool
    ensures { (block : List ℕ) → result ≡ quits (told block line) }
{
    matches!(line, Line::Quit)
}

// The line that tells why the script can't be read on.
fn stop_of(fault: ScriptFault) -> Stop
    ensures { result ≡ stop_of fault }
{
    match fault {
        ScriptFault::Take => Stop::Script,
        ScriptFault::Length => Stop::Length,
    }
}

// Answers one line. True: a read failed, and the answer says so.
#[tactic(auto, using(crate::proofs::Causes::cause_steps))]
fn answer_line<R: Rig, C: Cache<R>>(
    cache: &mut C,
    rig: &mut R,
    line: Line,
    block: &mut [u8],
    text: &mut [u8],
) -> Result<bool, Halt>
    requires within { IsIn (dialect_in (C.terms cache.old)) line }
    requires block { length block.old ≡ (C.terms cache.old).sizes.block }
    requires text { length text.old ≡ reply_room }
    requires ready { C.ready cache.old 1 (R.device_size rig.old) }
    ensures crash { R.tells → (first : World) (c s : State) → C.kept cache.old first (R.world rig.old) c s
        → Elapses (R.clock rig.old) (R.clock rig.new) (WithinLine (C.terms cache.old).print (C.terms cache.old).sizes (C.stands (C.terms cache.old) first) c s (told block.old line) (R.world rig.old)) }
    ensures answer { R.tells → (first : World) (c s : State) → C.kept cache.old first (R.world rig.old) c s
        → IfOk result (λ faulted. AnswersLine (C.terms cache.old).print (C.terms cache.old).sizes (C.kept cache.new first (R.world rig.new))
        (λ lines. Pays (C.costs cache.old cache.new) (R.counts rig.old) (R.counts rig.new) lines 0) c s (told block.old line) faulted (R.world rig.old).said (R.world rig.new).said) }
    ensures cut { R.tells → (first : World) (c s : State) → C.kept cache.old first (R.world rig.old) c s
        → IfErr result (λ halt. CutsLine (C.terms cache.old).print (C.terms cache.old).sizes (C.stands (C.terms cache.old) first)
        (Pays (C.costs cache.old cache.new) (R.counts rig.old) (R.counts rig.new)) halt c s (told block.old line) (R.world rig.old) (R.world rig.new)) }
    ensures ready { (n : ℕ) → C.ready cache.old (n + 1) (R.device_size rig.old) → OnOk result (C.ready cache.new n (R.device_size rig.new)) }
    ensures halt { IfErr result (λ halt. Halts C.stops ⊥ ⊥ halt (R.counts rig.old) (R.counts rig.new)) }
    ensures does { C.does (C.terms cache.old) (R.counts rig.old) (R.counts rig.new) }
    ensures leaves { R.tells → C.leaves (R.world rig.old) (R.world rig.new) }
    ensures more { R.tells → SaysMore (R.world rig.old) (R.world rig.new) }
    ensures same { C.terms cache.new ≡ C.terms cache.old }
    ensures frame { Frame (R.counts rig.old) (R.counts rig.new) (R.device_size rig.old) (R.device_size rig.new) }
{
    if asks_lists(line) {
        say_lists(cache, rig, text)
    } else {
        say_answer(cache, rig, line, block, text)
    }
}

fn asks_lists(line: Line) -> bool
    ensures lists { result ≡ asks_lists line }
    ensures told { result ≡ true → (block : List ℕ) → told block line ≡ Some lists }
{
    matches!(line, Line::Lists)
}

// Says both lists.
#[tactic(auto, using(crate::proofs::Causes::cause_steps))]
fn say_lists<R: Rig, C: Cache<R>>(cache: &C, rig: &mut R, text: &mut [u8]) -> Result<bool, Halt>
    requires text { length text.old ≡ reply_room }
    ensures crash { R.tells → (first : World) (c s : State) → C.kept cache.now first (R.world rig.old) c s
        → Elapses (R.clock rig.old) (R.clock rig.new) (WithinLine (C.terms cache.now).print (C.terms cache.now).sizes (C.stands (C.terms cache.now) first) c s (Some lists) (R.world rig.old)) }
    ensures answer { R.tells → (first : World) (c s : State) → C.kept cache.now first (R.world rig.old) c s
        → IfOk result (λ faulted. AnswersLine (C.terms cache.now).print (C.terms cache.now).sizes (C.kept cache.now first (R.world rig.new))
        (λ lines. Pays (C.costs cache.now cache.now) (R.counts rig.old) (R.counts rig.new) lines 0) c s (Some lists) faulted (R.world rig.old).said (R.world rig.new).said) }
    ensures cut { R.tells → (first : World) (c s : State) → C.kept cache.now first (R.world rig.old) c s
        → IfErr result (λ halt. CutsLine (C.terms cache.now).print (C.terms cache.now).sizes (C.stands (C.terms cache.now) first)
        (Pays (C.costs cache.now cache.now) (R.counts rig.old) (R.counts rig.new)) halt c s (Some lists) (R.world rig.old) (R.world rig.new)) }
    ensures ready { (n : ℕ) → C.ready cache.now (n + 1) (R.device_size rig.old) → OnOk result (C.ready cache.now n (R.device_size rig.new)) }
    ensures halt { IfErr result (λ halt. Halts C.stops ⊥ ⊥ halt (R.counts rig.old) (R.counts rig.new)) }
    ensures does { C.does (C.terms cache.now) (R.counts rig.old) (R.counts rig.new) }
    ensures leaves { R.tells → C.leaves (R.world rig.old) (R.world rig.new) }
    ensures more { R.tells → SaysMore (R.world rig.old) (R.world rig.new) }
    ensures frame { Frame (R.counts rig.old) (R.counts rig.new) (R.device_size rig.old) (R.device_size rig.new) }
{
    cache.list(rig, text)?;
    Ok(false)
}

// Lets the cache answer any other line, and says what it wrote.
#[tactic(auto, using(crate::proofs::Causes::cause_steps))]
fn say_answer<R: Rig, C: Cache<R>>(
    cache: &mut C,
    rig: &mut R,
    line: Line,
    block: &mut [u8],
    text: &mut [u8],
) -> Result<bool, Halt>
    requires within { IsIn (dialect_in (C.terms cache.old)) line }
    requires other { asks_lists line ≡ false }
    requires block { length block.old ≡ (C.terms cache.old).sizes.block }
    requires text { length text.old ≡ reply_room }
    requires ready { C.ready cache.old 1 (R.device_size rig.old) }
    ensures crash { R.tells → (first : World) (c s : State) → C.kept cache.old first (R.world rig.old) c s
        → Elapses (R.clock rig.old) (R.clock rig.new) (WithinLine (C.terms cache.old).print (C.terms cache.old).sizes (C.stands (C.terms cache.old) first) c s (told block.old line) (R.world rig.old)) }
    ensures answer { R.tells → (first : World) (c s : State) → C.kept cache.old first (R.world rig.old) c s
        → IfOk result (λ faulted. AnswersLine (C.terms cache.old).print (C.terms cache.old).sizes (C.kept cache.new first (R.world rig.new))
        (λ lines. Pays (C.costs cache.old cache.new) (R.counts rig.old) (R.counts rig.new) lines 0) c s (told block.old line) faulted (R.world rig.old).said (R.world rig.new).said) }
    ensures cut { R.tells → (first : World) (c s : State) → C.kept cache.old first (R.world rig.old) c s
        → IfErr result (λ halt. CutsLine (C.terms cache.old).print (C.terms cache.old).sizes (C.stands (C.terms cache.old) first)
        (Pays (C.costs cache.old cache.new) (R.counts rig.old) (R.counts rig.new)) halt c s (told block.old line) (R.world rig.old) (R.world rig.new)) }
    ensures ready { (n : ℕ) → C.ready cache.old (n + 1) (R.device_size rig.old) → OnOk result (C.ready cache.new n (R.device_size rig.new)) }
    ensures halt { IfErr result (λ halt. Halts C.stops ⊥ ⊥ halt (R.counts rig.old) (R.counts rig.new)) }
    ensures does { C.does (C.terms cache.old) (R.counts rig.old) (R.counts rig.new) }
    ensures leaves { R.tells → C.leaves (R.world rig.old) (R.world rig.new) }
    ensures more { R.tells → SaysMore (R.world rig.old) (R.world rig.new) }
    ensures same { C.terms cache.new ≡ C.terms cache.old }
    ensures frame { Frame (R.counts rig.old) (R.counts rig.new) (R.device_size rig.old) (R.device_size rig.new) }
{
    match cache.answer(rig, line, block, text)? {
        None => Ok(false),
        Some(written) => {
            say(rig, &text[..written.size])?;
            Ok(written.faulted)
        }
    }
}
