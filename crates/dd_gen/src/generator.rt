// Commands by the numbers that are drawn.
ghost use Rattle.std.specs.Prelude.{◌≡◌, ◌≤◌, length};
ghost use Rattle.dd_store.specs.Meaning.{sizes_of};
ghost use Rattle.dd_gen.specs.Generator.{drawn, command_of, numbered_block, IsWithin};

use crate::Lcg;
use dd_block::{Geometry, put_u32};

/// A generated command.
#[derive(Clone, Copy, Debug, PartialEq, Eq)]
pub enum Made {
    /// A read of an address.
    Read(u32),
    /// A write to an address, of the block that was left in the caller's bytes.
    Write(u32),
    /// The write-back of one dirty address.
    Tick,
    /// A commit.
    Flush,
}

/// A generator of commands.
#[derive(Clone, Copy, Debug, PartialEq, Eq)]
pub struct Gen {
    pub numbers: Lcg,
}

impl Gen {
    /// The generator of a seed.
    pub fn new(seed: u64) -> Gen
        ensures { result.numbers.x ≡ seed }
    {
        Gen {
            numbers: Lcg::new(seed),
        }
    }

    /// The next command. The block of a write is left in `into`, which has room for one.
    pub fn next(&mut self, geo: Geometry, into: &mut [u8]) -> Made
        requires { length into.old ≡ geo.block }
        ensures made { command_of result into.new ≡ (drawn (sizes_of geo) self.old.numbers.x).command }
        ensures state { self.new.numbers.x ≡ (drawn (sizes_of geo) self.old.numbers.x).state }
        ensures within { IsWithin geo.blocks result }
        ensures size { length into.new ≡ length into.old }
    {
        match self.numbers.next() % 16 {
            0..=8 => Made::Read(self.numbers.next() % geo.blocks),
            9..=13 => {
                let address = self.numbers.next() % geo.blocks;
                let content = self.numbers.next() % (2 * geo.bcap);
                number_block(into, content);
                Made::Write(address)
            }
            14 => Made::Tick,
            _ => Made::Flush,
        }
    }
}

// The number in the first four bytes, and zeros behind.
fn number_block(into: &mut [u8], content: u32)
    requires { 4 ≤ length into.old }
    ensures { into.new ≡ numbered_block (length into.old) content }
{
    put_u32(into, 0, content);
    into[4..].fill(0);
}
