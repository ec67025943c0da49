// Vectors of rows, the most recently referenced one first.
ghost use Rattle.std.specs.Prelude.{◌≡◌, ◌+◌, ◌<◌, ◌≤◌, ◌==◌, not, ◌∷◌, ◌++◌, [], map, take, filter, find, drop, length, slice_get, option_map, vec_len, vec_capacity};
ghost use Rattle.dd_record.specs.Table.{a_row, b_row, is_link, is_slot, is_dirty_at};
ghost use Rattle.dd_record.specs.Listed.{row_behind};
ghost use Rattle.dd_record.specs.Replay.{unlinked_from, cleaned, cleaned_row};
ghost use Rattle.dd_model.specs.Listing.{refers, last_of_full, dirty_of_rows};
ghost use Rattle.dd_model.specs.Plain.{referrer_behind};

use dd_record::{ARow, BRow, Link};

pub(crate) fn find_address(rows: &[ARow], address: u32) -> Option<ARow>
    ensures { result ≡ a_row address rows.now }
{
    for row in rows {
        if row.address == address {
            return Some(*row);
        }
    }
    None
}

pub(crate) fn find_slot(rows: &[BRow], slot: u32) -> Option<BRow>
    ensures { result ≡ b_row slot rows.now }
{
    for row in rows {
        if row.slot == slot {
            return Some(*row);
        }
    }
    None
}

// A dirty address that is linked to the slot and isn't that one.
pub(crate) fn find_referrer(rows: &[ARow], slot: u32, skip: u32) -> Option<u32>
    ensures { result ≡ option_map (λ row. row.address) (find (λ row. refers slot skip row) rows.now) }
{
    for row in rows {
        if refers(*row, slot, skip) {
            return Some(row.address);
        }
    }
    None
}

/// Whether a link leads to a block, be it the block of zeros.
pub fn is_link(link: Link) -> bool
    ensures { result ≡ is_link link }
{
    match link {
        Link::Lost => false,
        Link::Slot(_) | Link::Zero => true,
    }
}

// Whether a link is to this slot.
pub(crate) fn is_slot(link: Link, slot: u32) -> bool
    ensures { result ≡ is_slot slot link }
{
    match link {
        Link::Slot(other) => other == slot,
        Link::Lost | Link::Zero => false,
    }
}

fn refers(row: ARow, slot: u32, skip: u32) -> bool
    ensures { result ≡ refers slot skip row }
{
    is_slot(row.link, slot) && row.dirty && row.address != skip
}

pub(crate) fn is_dirty(rows: &[ARow], address: u32) -> bool
    ensures { result ≡ is_dirty_at address rows.now }
{
    match find_address(rows, address) {
        None => false,
        Some(row) => row.dirty,
    }
}

// The row behind that of an address.
pub(crate) fn behind_address(rows: &[ARow], address: u32) -> Option<ARow>
    ensures { result ≡ row_behind (λ row. row.address == address) rows.now }
{
    for (i, row) in rows.iter().enumerate() {
        if row.address == address {
            return rows.get(i + 1).copied();
        }
    }
    None
}

// The row behind that of a slot.
pub(crate) fn behind_slot(rows: &[BRow], slot: u32) -> Option<BRow>
    ensures { result ≡ row_behind (λ row. row.slot == slot) rows.now }
{
    for (i, row) in rows.iter().enumerate() {
        if row.slot == slot {
            return rows.get(i + 1).copied();
        }
    }
    None
}

// The number behind another one.
pub(crate) fn behind_number(numbers: &[u32], number: u32) -> Option<u32>
    ensures { result ≡ row_behind (λ other. other == number) numbers.now }
{
    for (i, other) in numbers.iter().enumerate() {
        if *other == number {
            return numbers.get(i + 1).copied();
        }
    }
    None
}

// The first dirty address that is linked to the slot and isn't `skip`, or the next such behind an address.
pub(crate) fn next_referrer(rows: &[ARow], slot: u32, skip: u32, after: Option<u32>) -> Option<u32>
    ensures { result ≡ referrer_behind slot skip after rows.now }
{
    match after {
        None => find_referrer(rows, slot, skip),
        Some(address) => referrer_behind(rows, slot, skip, address),
    }
}

// The rows from a place on.
fn behind(rows: &[ARow], from: usize) -> &[ARow]
    requires { from ≤ length rows.now }
    ensures { result.now ≡ drop from rows.now }
{
    &rows[from..]
}

// The next dirty address that is linked to the slot and isn't `skip`, behind that one.
fn referrer_behind(rows: &[ARow], slot: u32, skip: u32, address: u32) -> Option<u32>
    ensures { result ≡ referrer_behind slot skip (Some address) rows.now }
{
    for (i, row) in rows.iter().enumerate() {
        if refers(*row, slot, skip) && row.address == address {
            return find_referrer(behind(rows, i + 1), slot, skip);
        }
    }
    None
}

// The last row of a list that is full.
pub(crate) fn last_of_full<T: Copy>(rows: &[T], most: u32) -> Option<T>
    ensures { result ≡ last_of_full most rows.now }
{
    if rows.len() == most as usize {
        rows.last().copied()
    } else {
        None
    }
}

// The row in front, and the one that falls off.
fn put_front<T: Drop>(rows: &mut Vec<T>, row: T, most: usize) -> Option<T>
    requires short { vec_len rows.old ≤ most }
    requires room { vec_len rows.old < vec_capacity rows.old }
    ensures rows { rows.new.items ≡ take most (row ∷ rows.old.items) }
    ensures cut { result ≡ slice_get (row ∷ rows.old.items) most }
    ensures capacity { vec_capacity rows.old ≤ vec_capacity rows.new }
{
    let _ = rows.insert(0, row);
    if rows.len() > most { rows.pop() } else { None }
}

fn take_out_slot(rows: &mut Vec<BRow>, slot: u32)
    ensures rows { rows.new.items ≡ filter (λ row. not (row.slot == slot)) rows.old.items }
    ensures short { vec_len rows.new ≤ vec_len rows.old }
    ensures capacity { vec_capacity rows.new ≡ vec_capacity rows.old }
{
    rows.retain(|row| row.slot != slot);
}

fn take_out_address(rows: &mut Vec<ARow>, address: u32)
    ensures rows { rows.new.items ≡ filter (λ row. not (row.address == address)) rows.old.items }
    ensures short { vec_len rows.new ≤ vec_len rows.old }
    ensures capacity { vec_capacity rows.new ≡ vec_capacity rows.old }
{
    rows.retain(|row| row.address != address);
}

pub(crate) fn take_out_number(numbers: &mut Vec<u32>, number: u32)
    ensures numbers { numbers.new.items ≡ filter (λ other. not (other == number)) numbers.old.items }
    ensures capacity { vec_capacity numbers.new ≡ vec_capacity numbers.old }
{
    numbers.retain(|other| *other != number);
}

pub(crate) fn move_row(rows: &mut Vec<BRow>, block: BRow, most: usize) -> Option<BRow>
    requires short { vec_len rows.old ≤ most }
    requires room { most < vec_capacity rows.old }
    ensures rows { rows.new.items ≡ take most (block ∷ filter (λ row. not (row.slot == block.slot)) rows.old.items) }
    ensures cut { result ≡ slice_get (block ∷ filter (λ row. not (row.slot == block.slot)) rows.old.items) most }
    ensures capacity { vec_capacity rows.old ≤ vec_capacity rows.new }
{
    take_out_slot(rows, block.slot);
    put_front(rows, block, most)
}

pub(crate) fn move_address(rows: &mut Vec<ARow>, moved: ARow, most: usize) -> Option<ARow>
    requires short { vec_len rows.old ≤ most }
    requires room { most < vec_capacity rows.old }
    ensures rows { rows.new.items ≡ take most (moved ∷ filter (λ row. not (row.address == moved.address)) rows.old.items) }
    ensures cut { result ≡ slice_get (moved ∷ filter (λ row. not (row.address == moved.address)) rows.old.items) most }
    ensures capacity { vec_capacity rows.old ≤ vec_capacity rows.new }
{
    take_out_address(rows, moved.address);
    put_front(rows, moved, most)
}

// Takes the links to a block that fell off, if one did.
#[tactic(auto, using(crate::proofs::Mapped::map_steps))]
pub(crate) fn unlink(rows: &mut Vec<ARow>, cut: Option<BRow>)
    ensures rows { rows.new.items ≡ map (unlinked_from cut) rows.old.items }
    ensures capacity { vec_capacity rows.new ≡ vec_capacity rows.old }
{
    for row in rows.iter_mut() {
        *row = without_link(*row, cut);
    }
}

fn without_link(mut row: ARow, cut: Option<BRow>) -> ARow
    ensures { result ≡ unlinked_from cut row }
{
    if let Some(block) = cut {
        if is_slot(row.link, block.slot) {
            row.link = Link::Lost;
        }
    }
    row
}

// Makes an address clean.
#[tactic(auto, using(crate::proofs::Mapped::map_steps))]
pub(crate) fn clean(rows: &mut Vec<ARow>, address: u32)
    ensures rows { rows.new.items ≡ cleaned address rows.old.items }
    ensures capacity { vec_capacity rows.new ≡ vec_capacity rows.old }
{
    for row in rows.iter_mut() {
        *row = made_clean(*row, address);
    }
}

fn made_clean(mut row: ARow, address: u32) -> ARow
    ensures { result ≡ cleaned_row address row }
{
    if row.address == address {
        row.dirty = false;
    }
    row
}

// Lists the dirty addresses of rows, from the last one on.
pub(crate) fn list_dirty(rows: &[ARow], dirty: &mut Vec<u32>)
    requires empty { dirty.old.items ≡ [] }
    requires room { length rows.now ≤ vec_capacity dirty.old }
    ensures dirty { dirty.new.items ≡ dirty_of_rows rows.now }
    ensures capacity { vec_capacity dirty.new ≡ vec_capacity dirty.old }
{
    let mut left = rows.len();
    while left > 0 {
        left -= 1;
        if rows[left].dirty {
            dirty.push_reserved(rows[left].address);
        }
    }
}

// Puts rows into an empty vector.
pub(crate) fn fill<T: Copy>(rows: &mut Vec<T>, from: &[T])
    requires empty { rows.old.items ≡ [] }
    requires room { length from.now ≤ vec_capacity rows.old }
    ensures rows { rows.new.items ≡ from.now }
    ensures capacity { vec_capacity rows.old ≤ vec_capacity rows.new }
{
    let _ = rows.extend_from_slice(from);
}
