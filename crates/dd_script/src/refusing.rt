// The line of a run that was refused.
ghost use Rattle.std.specs.Prelude.{◌≡◌, ◌≤◌, ◌++◌, length, take};
ghost use Rattle.dd_script.specs.declared.reply.Refusal.TheVariants.{Super};
ghost use Rattle.dd_layout.specs.declared.superblock.SuperFault.TheVariants as super;
ghost use Rattle.dd_script.specs.Text.{reply_room, HasNoEnd, ended, refusal_text, place_text, small_text};

use crate::Refusal;
use crate::text::{put, put_number, write_number};
use dd_block::GeometryFault;
use dd_layout::SuperFault;

pub fn write_refusal(why: Refusal, into: &mut [u8]) -> usize
    requires { length into.old ≡ reply_room }
    ensures text { take result into.new ≡ ended (refusal_text why) }
    ensures line { HasNoEnd (refusal_text why) }
    ensures fits { result ≤ reply_room }
{
    match why {
        Refusal::Words => put(into, 0, b"refused words\n"),
        Refusal::FlashSmall { need, have } => write_small(b"flash", need, have, into),
        Refusal::DiskSmall { need, have } => write_small(b"disk", need, have, into),
        Refusal::InUse => put(into, 0, b"refused in use\n"),
        Refusal::Super(fault) => write_super(fault, into),
        Refusal::NoRegion => put(into, 0, b"refused no region\n"),
        Refusal::Snapshot { region, at } => write_place(b"refused snapshot ", region, at, into),
        Refusal::Group { region, at } => write_place(b"refused group ", region, at, into),
        Refusal::Worn { value } => write_number(b"refused worn ", value, into),
        Refusal::Version1 => put(into, 0, b"refused version 1\n"),
    }
}

// The line of a superblock that breaks a check.
fn write_super(fault: SuperFault, into: &mut [u8]) -> usize
    requires { length into.old ≡ reply_room }
    ensures text { take result into.new ≡ ended (refusal_text (Super fault)) }
    ensures line { HasNoEnd (refusal_text (Super fault)) }
    ensures fits { result ≤ reply_room }
{
    match fault {
        SuperFault::Gate(value) => write_number(b"refused super gate ", u64::from(value), into),
        SuperFault::Magic => put(into, 0, b"refused super magic\n"),
        SuperFault::Version(value) => {
            write_number(b"refused super version ", u64::from(value), into)
        }
        SuperFault::Geometry(fault) => write_geometry(fault, into),
        SuperFault::Padding(at) => write_number(b"refused super padding ", u64::from(at), into),
    }
}

// The line of a geometry that has a number out of its range.
fn write_geometry(fault: GeometryFault, into: &mut [u8]) -> usize
    requires { length into.old ≡ reply_room }
    ensures text { take result into.new ≡ ended (refusal_text (Super (super.Geometry fault))) }
    ensures line { HasNoEnd (refusal_text (Super (super.Geometry fault))) }
    ensures fits { result ≤ reply_room }
{
    match fault {
        GeometryFault::Block(value) => write_number(
            b"refused super geometry block ",
            u64::from(value),
            into,
        ),
        GeometryFault::Blocks(value) => write_number(
            b"refused super geometry blocks ",
            u64::from(value),
            into,
        ),
        GeometryFault::Acap(value) => write_number(
            b"refused super geometry acap ",
            u64::from(value),
            into,
        ),
        GeometryFault::Bcap(value) => write_number(
            b"refused super geometry bcap ",
            u64::from(value),
            into,
        ),
        GeometryFault::Spare(value) => write_number(
            b"refused super geometry spare ",
            u64::from(value),
            into,
        ),
        GeometryFault::Group(value) => write_number(
            b"refused super geometry group ",
            u64::from(value),
            into,
        ),
        GeometryFault::Log(value) => write_number(
            b"refused super geometry log ",
            u64::from(value),
            into,
        ),
    }
}

// Words, and a place in a region.
fn write_place(words: &[u8], region: u32, at: u64, into: &mut [u8]) -> usize
    requires room { length into.old ≡ reply_room }
    requires short { length words.now ≤ 100 }
    requires line { HasNoEnd words.now }
    ensures text { take result into.new ≡ ended (words.now ++ place_text region at) }
    ensures line { HasNoEnd (words.now ++ place_text region at) }
    ensures fits { result ≤ reply_room }
{
    let front = put(into, 0, words);
    let first = put_number(into, front, u64::from(region));
    let space = put(into, first, b" ");
    let second = put_number(into, space, at);
    put(into, second, b"\n")
}

fn write_small(device: &[u8], need: u64, have: u64, into: &mut [u8]) -> usize
    requires room { length into.old ≡ reply_room }
    requires device { length device.now ≤ 5 }
    requires line { HasNoEnd device.now }
    ensures text { take result into.new ≡ ended (small_text device.now need have) }
    ensures line { HasNoEnd (small_text device.now need have) }
    ensures fits { result ≤ reply_room }
{
    let word = put(into, 0, b"refused ");
    let name = put(into, word, device);
    let small = put(into, name, b" small ");
    let first = put_number(into, small, need);
    let space = put(into, first, b" ");
    let second = put_number(into, space, have);
    put(into, second, b"\n")
}
