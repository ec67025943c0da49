// A script, taken from its source in pieces and cut into lines.
ghost use Rattle.std.specs.Prelude.{◌≡◌, ◌+◌, ◌-◌, ◌<◌, ◌≤◌, ◌≢◌, ◌↔◌, ◌++◌, [], length, take, OnErr, IfOk, OnOk, IfErr, IfSome, true, false};
ghost use Rattle.dd_rig.specs.Counts.{Rose};
ghost use Rattle.dd_script.specs.Line.{line_room};
ghost use Rattle.dd_script.specs.Reading.{Held, left, fuel, piece_size, first_line, after_line, has_end, NextLine, LineBurns, EndsInside, Spends, Fails};

use dd_block::put_bytes;
use dd_rig::{Failed, Source};
use memchr::memchr;
use std::alloc::{AllocError, Global};
use std::marker::Model;

/// Why the script can't be read on.
#[derive(Clone, Copy, Debug, PartialEq, Eq)]
pub enum ScriptFault {
    /// A take of its source failed.
    Take,
    /// It has 2^40 bytes or more.
    Length,
}

/// How many bytes of a script are taken at most: 2^40.
const SCRIPT_LIMIT: u64 = 1_099_511_627_776;

/// How many bytes of a line are kept: one more than a line may have.
pub const LINE_ROOM: usize = 8_449;

// What is taken at once.
const PIECE: usize = 4_096;

/// What was taken from a source and not yet read.
#[derive(Drop)]
pub struct Pieces {
    buffer: Vec<u8>,
    from: usize,
    until: usize,
    taken: u64,
    ended: bool,
}

impl Model for Pieces {
    ghost use Rattle.std.specs.Prelude.{◌≤◌, ◌<◌, ◌≡◌, true, slice_range, vec_len};
    ghost use Rattle.dd_script.specs.Reading.{Held, piece_size, script_limit};

    ghost Value = { Held };

    ghost view = { λ r. record { bytes = slice_range r.buffer.items r.from r.until; taken = r.taken; ended = r.ended } };

    ghost invariant = { λ r. (r.from ≤ r.until) × (r.until ≤ vec_len r.buffer) × (vec_len r.buffer ≡ piece_size) × (r.taken ≤ script_limit) × (r.ended ≡ true → r.taken < script_limit) };
}

impl Pieces {
    pub fn new(alloc: Global) -> Result<Self, AllocError>
        ensures { IfOk result (λ pieces. pieces ≡ record { bytes = []; taken = 0; ended = false }) }
    {
        Ok(Pieces {
            buffer: vec![in alloc; 0; PIECE]?,
            from: 0,
            until: 0,
            taken: 0,
            ended: false,
        })
    }

    // Takes the next piece, where nothing is held and the end hasn't come.
    fn fill<S: Source>(&mut self, source: &mut S) -> Result<(), ScriptFault>
        ensures same { S.tells → OnOk result (left self.new (S.rest source.new) ≡ left self.old (S.rest source.old)) }
        ensures ended { OnOk result (self.new.bytes ≡ [] → (self.new.ended ≡ true) × (0 < fuel self.new)) }
        ensures fuel { OnOk result (fuel self.new ≡ fuel self.old) }
        ensures later { S.failures source.old ≤ S.failures source.new }
        ensures fault { IfErr result (λ fault. Fails (fuel self.old ≡ 0) fault (S.failures source.old) (S.failures source.new)) }
    {
        if self.from < self.until || self.ended {
            return Ok(());
        }
        let room = SCRIPT_LIMIT - self.taken;
        if room == 0 {
            return Err(ScriptFault::Length);
        }
        let Ok(count) = take_piece(source, &mut self.buffer, room) else {
            return Err(ScriptFault::Take);
        };
        self.from = 0;
        self.until = count;
        self.taken += count as u64;
        self.ended = count == 0;
        Ok(())
    }

    /// Puts the next line without its end into the slice, as far as it fits, and answers how much of it is there.
    /// None at the end of the script.
    pub fn next_line<S: Source>(
        &mut self,
        source: &mut S,
        into: &mut [u8],
    ) -> Result<Option<usize>, ScriptFault>
        requires { length into.old ≡ line_room }
        ensures line { S.tells → IfOk result (λ size. NextLine size into.new (left self.old (S.rest source.old)) (left self.new (S.rest source.new))) }
        ensures fits { IfOk result (λ size. IfSome size (λ n. n ≤ line_room)) }
        ensures piece { OnOk result (length self.new.bytes ≤ piece_size) }
        ensures fuel { IfOk result (λ size. LineBurns size (fuel self.old) (fuel self.new)) }
        ensures inside { S.tells → OnOk result (EndsInside (left self.old (S.rest source.old)) (fuel self.new)) }
        ensures spends { S.tells → OnOk result (Spends (left self.old (S.rest source.old)) (left self.new (S.rest source.new)) (fuel self.old) (fuel self.new)) }
        ensures later { S.failures source.old ≤ S.failures source.new }
        ensures fault { IfErr result (λ fault. Fails (S.tells → fuel self.old ≤ length (first_line (left self.old (S.rest source.old)))) fault (S.failures source.old) (S.failures source.new)) }
    {
        let mut size = 0;
        let mut begun = false;
        'parts: loop {
            self.fill(source)?;
            if self.is_over() {
                return Ok(if begun { Some(size) } else { None });
            }
            begun = true;
            let (kept, ended) = self.pass(into, size);
            size = kept;
            if ended {
                return Ok(Some(size));
            }
        }
    }

    // Whether nothing is held.
    fn is_over(&self) -> bool
        ensures { (result ≡ true) ↔ (self.now.bytes ≡ []) }
    {
        self.from == self.until
    }

    // Passes what is held of the line: up to its LF, and that too, or all. Puts it behind the first so many bytes of the slice, as
    // far as it fits, and answers how much of the line is there now, and whether it ended.
    fn pass(&mut self, into: &mut [u8], size: usize) -> (usize, bool)
        requires room { length into.old ≡ line_room }
        requires fits { size ≤ line_room }
        ensures held { self.new ≡ record { bytes = after_line self.old.bytes; taken = self.old.taken; ended = self.old.ended } }
        ensures line { take result.0 into.new ≡ take line_room (take size into.old ++ first_line self.old.bytes) }
        ensures fits { result.0 ≤ line_room }
        ensures ended { result.1 ≡ has_end self.old.bytes }
        ensures piece { length self.new.bytes ≤ piece_size }
    {
        let held = &self.buffer[self.from..self.until];
        match memchr(b'\n', held) {
            Some(at) => {
                let kept = put_part(into, size, &held[..at]);
                self.from += at + 1;
                (kept, true)
            }
            None => {
                let kept = put_part(into, size, held);
                self.from = self.until;
                (kept, false)
            }
        }
    }
}

// Puts bytes behind the first so many of the slice, as far as they fit, and answers how many stand there now.
fn put_part(into: &mut [u8], size: usize, bytes: &[u8]) -> usize
    requires room { length into.old ≡ line_room }
    requires fits { size ≤ line_room }
    ensures text { take result into.new ≡ take line_room (take size into.old ++ bytes.now) }
    ensures fits { result ≤ line_room }
{
    let count = bytes.len().min(LINE_ROOM - size);
    put_bytes(into, size, &bytes[..count]);
    size + count
}

// Takes at most so many bytes to the beginning of the slice.
fn take_piece<S: Source>(source: &mut S, into: &mut [u8], most: u64) -> Result<usize, Failed>
    requires some { 0 < most }
    requires room { length into.old ≢ 0 }
    ensures fits { IfOk result (λ count. (count ≤ length into.old) × (count ≤ most)) }
    ensures bytes { S.tells → IfOk result (λ count. S.rest source.old ≡ take count into.new ++ S.rest source.new) }
    ensures end { S.tells → IfOk result (λ count. (count ≡ 0) ↔ (S.rest source.old ≡ [])) }
    ensures later { S.failures source.old ≤ S.failures source.new }
    ensures cause { OnErr result (Rose (S.failures source.old) (S.failures source.new)) }
{
    let size = if most < into.len() as u64 {
        most as usize
    } else {
        into.len()
    };
    source.take(&mut into[..size])
}
