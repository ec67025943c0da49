// The text of each line of output.
ghost use Rattle.std.specs.Prelude.{◌≡◌, ◌+◌, ◌*◌, ◌≤◌, ◌++◌, [], length, take, codes, decimal, option_map, if◌then◌else◌};
ghost use Rattle.dd_block.specs.Text.{block_text};
ghost use Rattle.dd_script.specs.declared.reply.Reply.TheVariants.{Bad, Fault, Stopped};
ghost use Rattle.dd_script.specs.Text.{reply_room, HasNoEnd, ended, kind_word, out_text, drop_text, address_text, print_text, stat_text, sum_text, read_text, write_text, reply_text};
ghost use Rattle.hex.specs.Hex.{encode_lower};
ghost use Rattle.dd_record.specs.Table.{is_link};

use crate::refusing::write_refusal;
use crate::{BadKind, Reply, Stop, Sums};
use dd_block::{Fp, write_block_text};
use dd_model::{Cut, Done, Kind, Orphans};
use dd_record::{ARow, BRow, Link};
use dd_rig::Dev;
use itoa::Buffer;

/// Bytes that each line of output fits, its LF included.
pub const REPLY_ROOM: usize = 8_448;

/// Writes the line that answers a read of a block of at most 4,096 bytes, and answers its length.
/// The LF is the last byte of it.
pub fn reply_read(done: Done, block: &[u8], into: &mut [u8]) -> usize
    requires room { length into.old ≡ reply_room }
    requires block { length block.now ≤ 4096 }
    ensures text { take result into.new ≡ ended (read_text done.kind block.now done.cut.out (option_map (λ row. row.fp) done.cut.drop)) }
    ensures line { HasNoEnd (read_text done.kind block.now done.cut.out (option_map (λ row. row.fp) done.cut.drop)) }
    ensures fits { result ≤ reply_room }
{
    let kind = put(into, 0, kind_name(done.kind));
    let space = put(into, kind, b" ");
    let text = put_block(into, space, block);
    let cut = put_cut(into, text, done.cut);
    put(into, cut, b"\n")
}

/// Writes any other line of output, and answers its length. The LF is the last byte of it.
pub fn write_reply(reply: Reply, into: &mut [u8]) -> usize
    requires room { length into.old ≡ reply_room }
    ensures text { take result into.new ≡ ended (reply_text reply) }
    ensures line { HasNoEnd (reply_text reply) }
    ensures fits { result ≤ reply_room }
{
    match reply {
        Reply::Write(done) => write_done(done, into),
        Reply::Flushed(count) => write_number(b"flushed ", count, into),
        Reply::Cleaned => put(into, 0, b"cleaned\n"),
        Reply::Ticked => put(into, 0, b"ticked\n"),
        Reply::Stat { count, orphans } => write_stat(count, orphans, into),
        Reply::Bad(kind) => put(into, 0, bad_line(kind)),
        Reply::Fault(dev) => put(into, 0, fault_line(dev)),
        Reply::Bye(count) => write_number(b"bye ", count, into),
        Reply::Stopped(why) => put(into, 0, stopped_line(why)),
        Reply::Refused(why) => write_refusal(why, into),
        Reply::Formatted => put(into, 0, b"formatted\n"),
        Reply::Sum(sums) => write_sum(sums, into),
    }
}

// The line that answers a write.
fn write_done(done: Done, into: &mut [u8]) -> usize
    requires { length into.old ≡ reply_room }
    ensures text { take result into.new ≡ ended (write_text done.kind done.cut.out (option_map (λ row. row.fp) done.cut.drop)) }
    ensures line { HasNoEnd (write_text done.kind done.cut.out (option_map (λ row. row.fp) done.cut.drop)) }
    ensures fits { result ≤ reply_room }
{
    let kind = put(into, 0, kind_name(done.kind));
    let cut = put_cut(into, kind, done.cut);
    put(into, cut, b"\n")
}

fn write_stat(count: u64, orphans: Orphans, into: &mut [u8]) -> usize
    requires { length into.old ≡ reply_room }
    ensures text { take result into.new ≡ ended (stat_text count orphans.a orphans.b) }
    ensures line { HasNoEnd (stat_text count orphans.a orphans.b) }
    ensures fits { result ≤ reply_room }
{
    let word = put(into, 0, b"stat n ");
    let number = put_number(into, word, count);
    let addresses = put_counted(into, number, b" addresses ", orphans.a);
    let blocks = put_counted(into, addresses, b" blocks ", orphans.b);
    put(into, blocks, b"\n")
}

fn write_sum(sums: Sums, into: &mut [u8]) -> usize
    requires { length into.old ≡ reply_room }
    ensures text { take result into.new ≡ ended (sum_text sums) }
    ensures line { HasNoEnd (sum_text sums) }
    ensures fits { result ≤ reply_room }
{
    let hits = put_counted(into, 0, b"sum hit ", sums.hits);
    let joins = put_counted(into, hits, b" join ", sums.joins);
    let misses = put_counted(into, joins, b" miss ", sums.misses);
    let dups = put_counted(into, misses, b" dup ", sums.dups);
    let news = put_counted(into, dups, b" new ", sums.news);
    let outs = put_counted(into, news, b" out ", sums.outs);
    let drops = put_counted(into, outs, b" drop ", sums.drops);
    put(into, drops, b"\n")
}

// Words and a count behind the first bytes.
fn put_counted(into: &mut [u8], at: usize, words: &[u8], count: u32) -> usize
    requires room { at + length words.now + 40 ≤ length into.old }
    requires line { HasNoEnd words.now }
    ensures text { take result into.new ≡ take at into.old ++ words.now ++ decimal count }
    ensures line { HasNoEnd (words.now ++ decimal count) }
    ensures end { result ≤ at + length words.now + 40 }
{
    let word = put(into, at, words);
    put_number(into, word, u64::from(count))
}

/// Writes the text of a listed address, and answers its length: a space and the address, and a dash
/// where it is unlinked.
pub fn list_a(row: ARow, into: &mut [u8]) -> usize
    requires { 32 ≤ length into.old }
    ensures text { take result into.new ≡ address_text row.address (is_link row.link) }
    ensures fits { result ≤ 32 }
{
    let space = put(into, 0, b" ");
    let number = put_short(into, space, row.address);
    put(into, number, dash(row.link))
}

// What stands behind an address that is linked so.
fn dash(link: Link) -> &'static [u8]
    ensures text { result.now ≡ (if is_link link then [] else codes "-") }
    ensures short { length result.now ≤ 1 }
{
    match link {
        Link::Lost => b"-",
        Link::Slot(_) | Link::Zero => b"",
    }
}

/// Writes the text of a listed block, and answers its length: a space and the first sixteen digits of
/// its fingerprint.
pub fn list_b(row: BRow, into: &mut [u8]) -> usize
    requires { 32 ≤ length into.old }
    ensures text { take result into.new ≡ print_text row.fp }
    ensures fits { result ≤ 32 }
{
    let space = put(into, 0, b" ");
    put_print(into, space, row.fp)
}

// Words and a number.
pub fn write_number(words: &[u8], number: u64, into: &mut [u8]) -> usize
    requires room { length into.old ≡ reply_room }
    requires short { length words.now ≤ 100 }
    requires line { HasNoEnd words.now }
    ensures text { take result into.new ≡ ended (words.now ++ decimal number) }
    ensures line { HasNoEnd (words.now ++ decimal number) }
    ensures fits { result ≤ reply_room }
{
    let front = put(into, 0, words);
    let digits = put_number(into, front, number);
    put(into, digits, b"\n")
}

fn bad_line(kind: BadKind) -> &'static [u8]
    ensures text { result.now ≡ ended (reply_text (Bad kind)) }
    ensures short { length result.now ≤ 100 }
{
    match kind {
        BadKind::Long => b"bad long\n",
        BadKind::Word => b"bad word\n",
        BadKind::Address => b"bad address\n",
        BadKind::Text(_) => b"bad data\n",
        BadKind::Rest => b"bad rest\n",
    }
}

fn fault_line(dev: Dev) -> &'static [u8]
    ensures text { result.now ≡ ended (reply_text (Fault dev)) }
    ensures short { length result.now ≤ 100 }
{
    match dev {
        Dev::Flash => b"fault flash\n",
        Dev::Disk => b"fault disk\n",
    }
}

fn stopped_line(why: Stop) -> &'static [u8]
    ensures text { result.now ≡ ended (reply_text (Stopped why)) }
    ensures short { length result.now ≤ 100 }
{
    match why {
        Stop::Flash => b"stopped flash\n",
        Stop::Disk => b"stopped disk\n",
        Stop::Script => b"stopped script\n",
        Stop::Length => b"stopped length\n",
        Stop::Memory => b"stopped memory\n",
    }
}

fn kind_name(kind: Kind) -> &'static [u8]
    ensures text { result.now ≡ kind_word kind }
    ensures short { length result.now ≤ 4 }
{
    match kind {
        Kind::Hit => b"hit",
        Kind::Join => b"join",
        Kind::Miss => b"miss",
        Kind::Dup => b"dup",
        Kind::New => b"new",
    }
}

fn print_of(row: Option<BRow>) -> Option<Fp>
    ensures { result ≡ option_map (λ found. found.fp) row }
{
    row.map(|found| found.fp)
}

// Puts a text behind the first bytes, and answers where it ends.
pub fn put(into: &mut [u8], at: usize, text: &[u8]) -> usize
    requires { at + length text.now ≤ length into.old }
    ensures text { take result into.new ≡ take at into.old ++ text.now }
    ensures end { result ≡ at + length text.now }
{
    let end = at + text.len();
    into[at..end].copy_from_slice(text);
    end
}

// Puts a number behind the first bytes, and answers where it ends.
pub fn put_number(into: &mut [u8], at: usize, number: u64) -> usize
    requires { at + 40 ≤ length into.old }
    ensures text { take result into.new ≡ take at into.old ++ decimal number }
    ensures end { result ≤ at + 40 }
{
    let mut digits = Buffer::new();
    put(into, at, digits.format(number).as_bytes())
}

fn put_block(into: &mut [u8], at: usize, block: &[u8]) -> usize
    requires { at + 2 * length block.now + 2 ≤ length into.old }
    ensures text { take result into.new ≡ take at into.old ++ block_text block.now }
    ensures end { result ≤ at + 2 * length block.now + 2 }
{
    let size = write_block_text(block, &mut into[at..]);
    at + size
}

// What fell off the lists.
fn put_cut(into: &mut [u8], at: usize, cut: Cut) -> usize
    requires { at + 67 ≤ length into.old }
    ensures text { take result into.new ≡ take at into.old ++ out_text cut.out ++ drop_text (option_map (λ row. row.fp) cut.drop) }
    ensures line { HasNoEnd (out_text cut.out) }
    ensures end { result ≤ at + 67 }
{
    let out = put_out(into, at, cut.out);
    put_drop(into, out, print_of(cut.drop))
}

fn put_out(into: &mut [u8], at: usize, out: Option<u32>) -> usize
    requires { at + 45 ≤ length into.old }
    ensures text { take result into.new ≡ take at into.old ++ out_text out }
    ensures line { HasNoEnd (out_text out) }
    ensures end { result ≤ at + 45 }
{
    match out {
        None => at,
        Some(address) => {
            let word = put(into, at, b" out ");
            put_number(into, word, u64::from(address))
        }
    }
}

fn put_drop(into: &mut [u8], at: usize, drop: Option<Fp>) -> usize
    requires { at + 22 ≤ length into.old }
    ensures text { take result into.new ≡ take at into.old ++ drop_text drop }
    ensures end { result ≤ at + 22 }
{
    match drop {
        None => at,
        Some(fp) => {
            let word = put(into, at, b" drop ");
            put_print(into, word, fp)
        }
    }
}

// The first sixteen digits of a fingerprint.
fn put_print(into: &mut [u8], at: usize, fp: Fp) -> usize
    requires { at + 16 ≤ length into.old }
    ensures text { take result into.new ≡ take at into.old ++ encode_lower (take 8 fp.0) }
    ensures end { result ≡ at + 16 }
{
    let mut digits = [0u8; 16];
    let _ = hex::encode_to_slice(&fp.0[..8], &mut digits);
    put(into, at, &digits)
}

// An address has ten digits at most.
fn put_short(into: &mut [u8], at: usize, number: u32) -> usize
    requires { at + 10 ≤ length into.old }
    ensures text { take result into.new ≡ take at into.old ++ decimal number }
    ensures end { result ≤ at + 10 }
{
    let mut digits = Buffer::new();
    put(into, at, digits.format(number).as_bytes())
}
