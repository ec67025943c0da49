// Blocks that are known without a search, and what kind of reference a record tells.
ghost use Rattle.std.specs.Prelude.{◌≡◌, if◌then◌else◌};
ghost use Rattle.dd_model.specs.declared.kind.Kind.TheVariants.{Miss, New};
ghost use Rattle.dd_model.specs.State.{is_zero_block};
ghost use Rattle.dd_model.specs.Listing.{want_of};
ghost use Rattle.dd_store.specs.Referring.{kind_of};

use dd_model::{Block, Kind, Want};
use dd_record::Rec;

// Whether each byte of a block is zero.
pub(crate) fn is_zero(block: &[u8]) -> bool
    ensures { result ≡ is_zero_block block.now }
{
    block.iter().all(|&byte| byte == 0)
}

// The kind of reference that a record tells.
pub(crate) fn kind_of(its: Rec) -> Kind
    ensures { result ≡ kind_of its }
{
    match its {
        Rec::Hit { .. } => Kind::Hit,
        Rec::Link { dirty, .. } => { if dirty { Kind::Dup } else { Kind::Join } }
        Rec::Store { dirty, .. } => { if dirty { Kind::New } else { Kind::Miss } }
        Rec::Zero { dirty, .. } => { if dirty { Kind::Dup } else { Kind::Join } }
        Rec::Clean { .. } => Kind::Hit,
    }
}

// The kind of a reference with a block that isn't listed.
pub(crate) fn fresh_kind(dirty: bool) -> Kind
    ensures { result ≡ (if dirty then New else Miss) }
{
    if dirty { Kind::New } else { Kind::Miss }
}

// What is wanted of a block.
pub(crate) fn want_of(block: Block) -> Want
    ensures { result ≡ want_of block }
{
    match block {
        Block::Known(slot) => Want::Slot(slot),
        Block::Fresh(_) => Want::Fresh,
        Block::Zero => Want::Zero,
    }
}
