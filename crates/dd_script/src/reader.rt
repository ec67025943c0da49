// A script, read line by line.
ghost use Rattle.std.specs.Prelude.{◌≡◌, ◌≤◌, [], length, IfOk, OnOk, IfErr, false};
ghost use Rattle.dd_script.specs.Line.{line_room, told, IsIn};
ghost use Rattle.dd_script.specs.Reading.{left, fuel, piece_size, fronted, BurnsUnlessQuit, Bounds, Passes, Fails};
ghost use Rattle.dd_script.specs.Script.{commands_of, EndsWithin};

use crate::Dialect;
use crate::line::{Line, parse};
use crate::pieces::{LINE_ROOM, Pieces, ScriptFault};
use dd_rig::Source;
use std::alloc::{AllocError, Global};
use std::marker::Model;

/// What was taken from a source and not yet read, and room for a line. The source is handed to each
/// call.
#[derive(Drop)]
pub struct Reader {
    pieces: Pieces,
    line: Vec<u8>,
}

impl Model for Reader {
    ghost use Rattle.std.specs.Prelude.{◌≡◌, vec_len};
    ghost use Rattle.dd_script.specs.Line.{line_room};
    ghost use Rattle.dd_script.specs.Reading.{Held};

    ghost Value = { Held };

    ghost view = { λ r. r.pieces };

    ghost invariant = { λ r. vec_len r.line ≡ line_room };
}

impl Reader {
    /// At the beginning of a script. It takes all the memory that reading wants.
    pub fn new(alloc: Global) -> Result<Self, AllocError>
        ensures { IfOk result (λ reader. reader ≡ record { bytes = []; taken = 0; ended = false }) }
    {
        Ok(Reader {
            pieces: Pieces::new(alloc)?,
            line: vec![in alloc; 0; LINE_ROOM]?,
        })
    }

    /// What the next line says, in a dialect. A write leaves its block in the buffer. At the end of
    /// the script the line is a q. Behind it no more than one piece of 4,096 bytes is taken.
    pub fn next<S: Source>(
        &mut self,
        source: &mut S,
        dialect: Dialect,
        into: &mut [u8],
    ) -> Result<Line, ScriptFault>
        requires { length into.old ≡ dialect.block }
        ensures command { S.tells → IfOk result (λ line. commands_of dialect (left self.old (S.rest source.old)) ≡ fronted (told into.new line) (commands_of dialect (left self.new (S.rest source.new)))) }
        ensures bounds { S.tells → IfOk result (λ line. Bounds line (EndsWithin (fuel self.old) dialect (left self.old (S.rest source.old))) (EndsWithin (fuel self.new) dialect (left self.new (S.rest source.new)))) }
        ensures passes { S.tells → IfOk result (λ line. Passes dialect line (left self.old (S.rest source.old)) (left self.new (S.rest source.new))) }
        ensures piece { OnOk result (length self.new.bytes ≤ piece_size) }
        ensures within { IfOk result (λ line. IsIn dialect line) }
        ensures fuel { IfOk result (λ line. BurnsUnlessQuit line (fuel self.old) (fuel self.new)) }
        ensures later { S.failures source.old ≤ S.failures source.new }
        ensures fault { IfErr result (λ fault. Fails (S.tells → EndsWithin (fuel self.old) dialect (left self.old (S.rest source.old)) → ⊥) fault (S.failures source.old) (S.failures source.new)) }
    {
        next_of(&mut self.pieces, &mut self.line, source, dialect, into)
    }
}

// What the next line says that stands in the pieces.
fn next_of<S: Source>(
    pieces: &mut Pieces,
    line: &mut [u8],
    source: &mut S,
    dialect: Dialect,
    into: &mut [u8],
) -> Result<Line, ScriptFault>
    requires room { length line.old ≡ line_room }
    requires block { length into.old ≡ dialect.block }
    ensures command { S.tells → IfOk result (λ line. commands_of dialect (left pieces.old (S.rest source.old)) ≡ fronted (told into.new line) (commands_of dialect (left pieces.new (S.rest source.new)))) }
    ensures bounds { S.tells → IfOk result (λ line. Bounds line (EndsWithin (fuel pieces.old) dialect (left pieces.old (S.rest source.old))) (EndsWithin (fuel pieces.new) dialect (left pieces.new (S.rest source.new)))) }
    ensures passes { S.tells → IfOk result (λ line. Passes dialect line (left pieces.old (S.rest source.old)) (left pieces.new (S.rest source.new))) }
    ensures piece { OnOk result (length pieces.new.bytes ≤ piece_size) }
    ensures within { IfOk result (λ line. IsIn dialect line) }
    ensures fuel { IfOk result (λ line. BurnsUnlessQuit line (fuel pieces.old) (fuel pieces.new)) }
    ensures later { S.failures source.old ≤ S.failures source.new }
    ensures fault { IfErr result (λ fault. Fails (S.tells → EndsWithin (fuel pieces.old) dialect (left pieces.old (S.rest source.old)) → ⊥) fault (S.failures source.old) (S.failures source.new)) }
{
    match pieces.next_line(source, line)? {
        None => Ok(Line::Quit),
        Some(size) => Ok(parse(&line[..size], dialect, into)),
    }
}
