// What the lines of a script may say.

/// What the lines of a script may say. A script that only reads knows the words r, l, s and q; any other
/// one knows w, d, f, c and t too.
#[derive(Clone, Copy, Debug, PartialEq, Eq)]
pub struct Dialect {
    /// Whether it only reads.
    pub reads_only: bool,
    /// Addresses lie below it.
    pub blocks: u32,
    /// Bytes of a block, at most 4,096.
    pub block: u32,
}
