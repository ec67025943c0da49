// What lists are given.

use dd_record::BRow;

/// The block of a reference.
#[derive(Clone, Copy, Debug, PartialEq, Eq)]
pub enum Block {
    /// A listed block, by its slot.
    Known(u32),
    /// A block that isn't listed.
    Fresh(BRow),
    /// The zero block, which is never listed.
    Zero,
}

/// The block of a reference to come, before a fresh one has its slot.
#[derive(Clone, Copy, Debug, PartialEq, Eq)]
pub enum Want {
    /// The listed block in this slot.
    Slot(u32),
    /// A block that isn't listed.
    Fresh,
    /// The zero block.
    Zero,
}

/// The first row that doesn't fit those before it: which list it is in, and its place there, from 0.
#[derive(Clone, Copy, Debug, PartialEq, Eq)]
pub struct Misfit {
    pub in_a: bool,
    pub index: u32,
}
