// A mark for each device.
ghost use Rattle.std.specs.Prelude.{◌≡◌};
ghost use Rattle.dd_rigmem.specs.Keeping.{mark_of, set_mark, marked};

use dd_rig::Dev;

/// Which devices were written since they were last synced.
#[derive(Clone, Copy, Drop)]
pub struct Marks {
    flash: bool,
    disk: bool,
}

pub const NO_MARKS: Marks = Marks {
    flash: false,
    disk: false,
};

impl Marks {
    pub fn get(&self, dev: Dev) -> bool
        ensures { result ≡ mark_of dev self.now }
    {
        match dev {
            Dev::Flash => self.flash,
            Dev::Disk => self.disk,
        }
    }

    pub fn set(&mut self, dev: Dev, mark: bool)
        ensures { self.new ≡ set_mark dev mark self.old }
    {
        match dev {
            Dev::Flash => self.flash = mark,
            Dev::Disk => self.disk = mark,
        }
    }

    pub fn count(&self) -> usize
        ensures { result ≡ marked self.now }
    {
        let flash = if self.flash { 1 } else { 0 };
        let disk = if self.disk { 1 } else { 0 };
        flash + disk
    }
}
