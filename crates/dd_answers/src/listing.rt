// Both lists as a line of output, said in pieces.
ghost use Rattle.std.specs.Prelude.{◌≡◌, ◌≤◌, ◌==◌, Err, OnErr, OnOk, length};
ghost use Rattle.std.specs.List.{flat_map, IsDistinct};
ghost use Rattle.dd_rig.specs.Counts.{Frame, Rose};
ghost use Rattle.dd_rig.specs.World.{say};
ghost use Rattle.dd_script.specs.Text.{ended};
ghost use Rattle.dd_loop.specs.Saying.{IsIdle, SaysPiece};
ghost use Rattle.dd_loop.specs.declared.halt.Halt.TheVariants.{Output};
ghost use Rattle.dd_answers.specs.Listed.{a_entry, b_entry, rows_text};

use dd_loop::{Halt, say};
use dd_record::Rows;
use dd_rig::Rig;
use dd_script::{list_a, list_b};

/// Says both lists of rows as one line with its LF: `A`, each address, ` B`, each block. Each is a piece
/// of its own, for which `text` is room: 32 bytes are enough.
pub fn say_rows<T: Rows, R: Rig>(rows: &T, rig: &mut R, text: &mut [u8]) -> Result<(), Halt>
    requires room { 32 ≤ length text.old }
    requires addresses { IsDistinct (λ x y. x.address == y.address) (T.a_rows rows.now) }
    requires slots { IsDistinct (λ x y. x.slot == y.slot) (T.b_rows rows.now) }
    ensures says { R.tells → SaysPiece (ended (rows_text (T.a_rows rows.now) (T.b_rows rows.now))) (R.clock rig.old) (R.clock rig.new) (R.world rig.old) (R.world rig.new) }
    ensures said { R.tells → OnOk result (R.world rig.new ≡ say (ended (rows_text (T.a_rows rows.now) (T.b_rows rows.now))) (R.world rig.old)) }
    ensures idle { IsIdle (R.counts rig.old) (R.counts rig.new) }
    ensures halt { OnErr result (result ≡ Err Output) }
    ensures rose { OnErr result (Rose (R.counts rig.old).failed_emits (R.counts rig.new).failed_emits) }
    ensures frame { Frame (R.counts rig.old) (R.counts rig.new) (R.device_size rig.old) (R.device_size rig.new) }
{
    say(rig, b"A")?;
    say_addresses(rows, rig, text)?;
    say(rig, b" B")?;
    say_blocks(rows, rig, text)?;
    say(rig, b"\n")
}

// Says each address.
fn say_addresses<T: Rows, R: Rig>(rows: &T, rig: &mut R, text: &mut [u8]) -> Result<(), Halt>
    requires room { 32 ≤ length text.old }
    requires distinct { IsDistinct (λ x y. x.address == y.address) (T.a_rows rows.now) }
    ensures says { R.tells → SaysPiece (flat_map a_entry (T.a_rows rows.now)) (R.clock rig.old) (R.clock rig.new) (R.world rig.old) (R.world rig.new) }
    ensures said { R.tells → OnOk result (R.world rig.new ≡ say (flat_map a_entry (T.a_rows rows.now)) (R.world rig.old)) }
    ensures idle { IsIdle (R.counts rig.old) (R.counts rig.new) }
    ensures halt { OnErr result (result ≡ Err Output) }
    ensures rose { OnErr result (Rose (R.counts rig.old).failed_emits (R.counts rig.new).failed_emits) }
    ensures frame { Frame (R.counts rig.old) (R.counts rig.new) (R.device_size rig.old) (R.device_size rig.new) }
{
    let mut next = rows.walk_a(None);
    while let Some(row) = next {
        let size = list_a(row, text);
        say(rig, &text[..size])?;
        next = rows.walk_a(Some(row.address));
    }
    Ok(())
}

// Says each block.
fn say_blocks<T: Rows, R: Rig>(rows: &T, rig: &mut R, text: &mut [u8]) -> Result<(), Halt>
    requires room { 32 ≤ length text.old }
    requires distinct { IsDistinct (λ x y. x.slot == y.slot) (T.b_rows rows.now) }
    ensures says { R.tells → SaysPiece (flat_map b_entry (T.b_rows rows.now)) (R.clock rig.old) (R.clock rig.new) (R.world rig.old) (R.world rig.new) }
    ensures said { R.tells → OnOk result (R.world rig.new ≡ say (flat_map b_entry (T.b_rows rows.now)) (R.world rig.old)) }
    ensures idle { IsIdle (R.counts rig.old) (R.counts rig.new) }
    ensures halt { OnErr result (result ≡ Err Output) }
    ensures rose { OnErr result (Rose (R.counts rig.old).failed_emits (R.counts rig.new).failed_emits) }
    ensures frame { Frame (R.counts rig.old) (R.counts rig.new) (R.device_size rig.old) (R.device_size rig.new) }
{
    let mut next = rows.walk_b(None);
    while let Some(row) = next {
        let size = list_b(row, text);
        say(rig, &text[..size])?;
        next = rows.walk_b(Some(row.slot));
    }
    Ok(())
}
