// Two devices in memory as a rig.
ghost use Rattle.std.specs.Prelude.{◌≡◌, ◌^◌, ◌<◌, ◌≤◌, length, vec_len};

use crate::kind::Kind;
use dd_rig::{Counts, Dev, Failed, Rig};
use std::alloc::{AllocError, Global};

/// What the replies to the commands of a kind came to.
#[derive(Clone, Copy, Debug, PartialEq, Eq)]
pub struct Told {
    /// Those of the kind.
    pub replies: u64,
    /// All lines of output.
    pub lines: u64,
    /// Those that tell that an address fell off the list.
    pub outs: u64,
    /// Those that tell that a block fell off.
    pub drops: u64,
}

const NOTHING: Told = Told {
    replies: 0,
    lines: 0,
    outs: 0,
    drops: 0,
};

/// The flash and the disk as plain bytes. A call costs the copying alone. What was said is looked at
/// where a kind is watched, and kept nowhere. It tells no bytes, and keeps each count.
#[derive(Drop)]
pub struct RigPlain {
    flash: Vec<u8>,
    disk: Vec<u8>,
    counts: Counts,
    watched: Option<Kind>,
    told: Told,
    ghost flash_fits: { vec_len flash < 2 ^ 64 },
    ghost disk_fits: { vec_len disk < 2 ^ 64 },
}

impl RigPlain {
    /// Zeros. The sizes are in bytes.
    pub fn new(alloc: Global, flash_size: usize, disk_size: usize) -> Result<RigPlain, AllocError> {
        Ok(RigPlain {
            flash: vec![in alloc; 0; flash_size]?,
            disk: vec![in alloc; 0; disk_size]?,
            counts: Counts::new(),
            watched: None,
            told: NOTHING,
        })
    }

    /// Makes both devices read as another rig's.
    pub fn set(&mut self, other: &RigPlain) {
        copy_over(&other.flash, &mut self.flash);
        copy_over(&other.disk, &mut self.disk);
    }

    /// From now on replies are looked at for this kind, or for none.
    pub fn watch(&mut self, kind: Option<Kind>) {
        self.watched = kind;
        self.told = NOTHING;
    }

    pub fn told(&self) -> Told {
        self.told
    }
}

// As many bytes as both have.
fn copy_over(from: &[u8], into: &mut [u8])
    ensures { length into.new ≡ length into.old }
{
    let size = from.len().min(into.len());
    into[..size].copy_from_slice(&from[..size]);
}

fn look(told: Told, kind: Kind, line: &[u8]) -> Told {
    Told {
        replies: told
            .replies
            .saturating_add(u64::from(line.starts_with(kind.name().as_bytes()))),
        lines: told.lines.saturating_add(1),
        outs: told.outs.saturating_add(u64::from(has(line, b" out "))),
        drops: told.drops.saturating_add(u64::from(has(line, b" drop "))),
    }
}

fn has(line: &[u8], word: &[u8]) -> bool {
    for at in 0..line.len() {
        if line[at..].starts_with(word) {
            return true;
        }
    }
    false
}

impl Rig for RigPlain {
    ghost use Rattle.dd_bench.specs.Silent.{no_world, no_clock, size_of, size_fits};

    ghost tells = { ⊥ };

    ghost world = { λ r. no_world };

    ghost clock = { λ r. no_clock };

    ghost counts = { λ r. r.counts };

    ghost device_size = { λ r. size_of (vec_len r.flash) (vec_len r.disk) };

    ghost counts_now = { λ r t o told. absurd told };

    ghost since_earlier = { λ r s t o told. absurd told };

    ghost only_now = { λ r o told. absurd told };

    ghost shows_image = { λ r dev told. absurd told };

    ghost has_size = { λ r dev told. absurd told };

    ghost size_fits = { λ r dev. size_fits (vec_len r.flash) (vec_len r.disk) dev r.flash_fits r.disk_fits };

    fn size(&self, dev: Dev) -> u64 {
        match dev {
            Dev::Flash => self.flash.len() as u64,
            Dev::Disk => self.disk.len() as u64,
        }
    }

    fn read(&mut self, dev: Dev, at: u64, into: &mut [u8]) -> Result<(), Failed> {
        let at = at as usize;
        let behind = at + into.len();
        match dev {
            Dev::Flash => into.copy_from_slice(&self.flash[at..behind]),
            Dev::Disk => into.copy_from_slice(&self.disk[at..behind]),
        }
        self.counts.add_read(dev, &Ok(()));
        Ok(())
    }

    fn write(&mut self, dev: Dev, at: u64, from: &[u8]) -> Result<(), Failed> {
        let at = at as usize;
        let behind = at + from.len();
        match dev {
            Dev::Flash => self.flash[at..behind].copy_from_slice(from),
            Dev::Disk => self.disk[at..behind].copy_from_slice(from),
        }
        self.counts.add_write(dev, from.len() as u64, &Ok(()));
        Ok(())
    }

    fn sync(&mut self, dev: Dev) -> Result<(), Failed> {
        self.counts.add_sync(dev, &Ok(()));
        Ok(())
    }

    fn emit(&mut self, piece: &[u8]) -> Result<(), Failed> {
        if let Some(kind) = self.watched {
            self.told = look(self.told, kind, piece);
        }
        self.counts.add_emit(&Ok(()));
        Ok(())
    }
}
