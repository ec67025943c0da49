// What the system answered to calls that failed.

use dd_rig::Dev;
use std::io;
use thiserror::Error;

/// A call that failed, and why.
#[derive(Clone, Copy, Debug, Error)]
pub enum Trouble {
    #[error("{}: {size} bytes can't be read at {at}: {error}", name_of(.dev))]
    Read {
        dev: Dev,
        at: u64,
        size: usize,
        error: io::Error,
    },
    #[error("{}: {size} bytes can't be written at {at}: {error}", name_of(.dev))]
    Write {
        dev: Dev,
        at: u64,
        size: usize,
        error: io::Error,
    },
    #[error("{}: no sync: {error}", name_of(.dev))]
    Sync {
        dev: Dev,
        error: io::Error,
    },
    #[error("output: {error}")]
    Emit {
        error: io::Error,
    },
    #[error("script: {error}")]
    Take {
        error: io::Error,
    },
}

/// The first call that failed, and the last one.
#[derive(Clone, Copy, Debug)]
pub struct Troubles {
    first: Option<Trouble>,
    last: Option<Trouble>,
}

impl Troubles {
    pub fn none() -> Troubles {
        Troubles {
            first: None,
            last: None,
        }
    }

    pub fn note(&mut self, trouble: Trouble) {
        if self.first.is_none() {
            self.first = Some(trouble);
        } else {
            self.last = Some(trouble);
        }
    }

    /// Says them on standard error, a line each.
    pub fn complain(&self, rt: &HostRuntime) {
        for trouble in [self.first, self.last].iter().flatten() {
            let _ = rt.eprintln(trouble);
        }
    }
}

// How a device is called in a line.
fn name_of(dev: &Dev) -> &'static str {
    match dev {
        Dev::Flash => "flash",
        Dev::Disk => "disk",
    }
}

#[cfg(test)]
mod tests {
    use super::*;
    use std::test::Fail;

    #[test]
    fn the_first_and_the_last_are_kept(rt: HostRuntime) -> Result<(), Fail> {
        let error = io::Error::other("gone");
        let mut troubles = Troubles::none();
        troubles.note(Trouble::Read {
            dev: Dev::Flash,
            at: 8192,
            size: 4096,
            error,
        });
        troubles.note(Trouble::Take { error });
        troubles.note(Trouble::Write {
            dev: Dev::Disk,
            at: 0,
            size: 16,
            error,
        });
        let mut lines = Vec::new(rt.alloc());
        for trouble in [troubles.first, troubles.last].iter().flatten() {
            lines.push(format!(in rt.alloc(); "{trouble}")?)?;
        }
        assert_eq!(rt; lines.len(), 2);
        assert_eq!(rt;
            lines[0].as_str(),
            "flash: 4096 bytes can't be read at 8192: gone"
        );
        assert_eq!(rt;
            lines[1].as_str(),
            "disk: 16 bytes can't be written at 0: gone"
        );
        Ok(())
    }
}
