// What is wrong with the bytes of a header, of a row or of a record.
ghost use Rattle.std.specs.Prelude.{[], ◌∷◌};
ghost use Rattle.dd_block.specs.Geometry.{GivesFault};
ghost use Rattle.dd_record.specs.Faults.{check, check_used, first_fault};

use thiserror::Error;

/// The first field, in the order of the format, that breaks its rule. `at` is the field's offset
/// in the bytes that were read.
#[derive(Clone, Copy, Debug, PartialEq, Eq, Error)]
#[error("{what} at byte {at}")]
pub struct RowFault {
    pub at: u32,
    pub what: What,
}

/// Which rule a field breaks.
#[derive(Clone, Copy, Debug, PartialEq, Eq, Error)]
pub enum What {
    #[error("another magic than DLR1")]
    Magic,
    #[error("a version other than 1 and 2")]
    Version,
    #[error("more addresses than the list may have")]
    LenA,
    #[error("more blocks than the list may have")]
    LenB,
    #[error("no slot of the flash")]
    Slot,
    #[error("no address of the disk")]
    Address,
    #[error("flags that the version doesn't have")]
    Flags,
    #[error("a kind of record that the version doesn't have")]
    Kind,
    #[error("dirty other than 0 and 1")]
    Dirty,
    #[error("an unused field that isn't zero")]
    Unused,
    #[error("no right count of records")]
    Count,
}

// The fault of a field at a place, where its rule isn't kept.
pub(crate) fn check(at: u32, what: What, kept: bool) -> Result<(), RowFault>
    ensures { GivesFault result (first_fault (check at what kept ∷ [])) }
{
    if kept {
        Ok(())
    } else {
        Err(RowFault { at, what })
    }
}

// The same for a field that has to be zero where it isn't used.
pub(crate) fn check_used(
    used: bool,
    at: u32,
    what: What,
    kept: bool,
    number: u32,
) -> Result<(), RowFault>
    ensures { GivesFault result (first_fault (check_used used at what kept number ∷ [])) }
{
    if used {
        check(at, what, kept)
    } else {
        check(at, What::Unused, number == 0)
    }
}
