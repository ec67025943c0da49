// Two files and a writer as a rig.
ghost use Rattle.std.specs.Prelude.{◌≡◌, ◌^◌, ◌<◌};

use crate::trouble::{Trouble, Troubles};
use dd_rig::{Counts, Dev, Failed, Rig};
use std::fs::File;
use std::io::Write;
use std::os::unix::fs::FileExt;

/// The flash and the disk as files that are never grown, and the output as a writer. It tells no
/// bytes, and keeps each count, and what the system answered where a call failed.
#[derive(Drop)]
pub struct RigFiles<W> {
    flash: File,
    disk: File,
    flash_size: u64,
    disk_size: u64,
    out: W,
    counts: Counts,
    troubles: Troubles,
    ghost flash_fits: { flash_size < 2 ^ 64 },
    ghost disk_fits: { disk_size < 2 ^ 64 },
}

impl<W> RigFiles<W> {
    /// The sizes are those of the files, in bytes.
    pub fn new(flash: File, disk: File, flash_size: u64, disk_size: u64, out: W) -> Self
        ensures sizes { (result.flash_size ≡ flash_size) × (result.disk_size ≡ disk_size) }
    {
        RigFiles {
            flash,
            disk,
            flash_size,
            disk_size,
            out,
            counts: Counts::new(),
            troubles: Troubles::none(),
        }
    }

    pub fn troubles(&self) -> &Troubles {
        &self.troubles
    }

    fn file(&self, dev: Dev) -> &File {
        match dev {
            Dev::Flash => &self.flash,
            Dev::Disk => &self.disk,
        }
    }
}

impl<W: Write> Rig for RigFiles<W> {
    ghost use Rattle.dd_cli.specs.Silent.{no_world, no_clock, size_of, size_fits};

    ghost tells = { ⊥ };

    ghost world = { λ r. no_world };

    ghost clock = { λ r. no_clock };

    ghost counts = { λ r. r.counts };

    ghost device_size = { λ r. size_of r.flash_size r.disk_size };

    ghost counts_now = { λ r t o told. absurd told };

    ghost since_earlier = { λ r s t o told. absurd told };

    ghost only_now = { λ r o told. absurd told };

    ghost shows_image = { λ r dev told. absurd told };

    ghost has_size = { λ r dev told. absurd told };

    ghost size_fits = { λ r dev. size_fits r.flash_size r.disk_size dev r.flash_fits r.disk_fits };

    fn size(&self, dev: Dev) -> u64 {
        match dev {
            Dev::Flash => self.flash_size,
            Dev::Disk => self.disk_size,
        }
    }

    fn read(&mut self, dev: Dev, at: u64, into: &mut [u8]) -> Result<(), Failed> {
        let answer = match self.file(dev).read_exact_at(into, at) {
            Ok(()) => Ok(()),
            Err(error) => {
                self.troubles.note(Trouble::Read {
                    dev,
                    at,
                    size: into.len(),
                    error,
                });
                Err(Failed)
            }
        };
        self.counts.add_read(dev, &answer);
        answer
    }

    fn write(&mut self, dev: Dev, at: u64, from: &[u8]) -> Result<(), Failed> {
        let answer = match self.file(dev).write_all_at(from, at) {
            Ok(()) => Ok(()),
            Err(error) => {
                self.troubles.note(Trouble::Write {
                    dev,
                    at,
                    size: from.len(),
                    error,
                });
                Err(Failed)
            }
        };
        self.counts.add_write(dev, from.len() as u64, &answer);
        answer
    }

    fn sync(&mut self, dev: Dev) -> Result<(), Failed> {
        let answer = match self.file(dev).sync_data() {
            Ok(()) => Ok(()),
            Err(error) => {
                self.troubles.note(Trouble::Sync { dev, error });
                Err(Failed)
            }
        };
        self.counts.add_sync(dev, &answer);
        answer
    }

    fn emit(&mut self, piece: &[u8]) -> Result<(), Failed> {
        let answer = match self.out.write_all(piece) {
            Ok(()) => Ok(()),
            Err(error) => {
                self.troubles.note(Trouble::Emit { error });
                Err(Failed)
            }
        };
        self.counts.add_emit(&answer);
        answer
    }
}

#[cfg(test)]
mod tests {
    use super::*;
    use std::fs::OpenOptions;
    use std::test::Fail;

    // Files of 4 bytes in the folder where the tests run.
    fn made(rt: &HostRuntime, name: &str) -> Result<File, Fail> {
        let file = OpenOptions::new()
            .read(true)
            .write(true)
            .create(true)
            .open(rt, name)?;
        file.set_len(4)?;
        file.write_all_at(&[0; 4], 0)?;
        Ok(file)
    }

    #[test]
    fn what_is_written_is_read_back(rt: HostRuntime) -> Result<(), Fail> {
        let flash = made(&rt, "rig_files_test_flash")?;
        let disk = made(&rt, "rig_files_test_disk")?;
        let mut rig = RigFiles::new(flash, disk, 4, 4, Vec::new(rt.alloc()));
        assert_eq!(rt; rig.write(Dev::Flash, 1, &[5, 6]), Ok(()));
        assert_eq!(rt; rig.sync(Dev::Flash), Ok(()));
        let mut bytes = [9; 4];
        assert!(rt; rig.size(Dev::Flash) == 4);
        assert_eq!(rt; rig.read(Dev::Flash, 0, &mut bytes), Ok(()));
        assert_eq!(rt; bytes, [0, 5, 6, 0]);
        assert!(rt; rig.size(Dev::Disk) == 4);
        assert_eq!(rt; rig.read(Dev::Disk, 0, &mut bytes), Ok(()));
        assert_eq!(rt; bytes, [0; 4]);
        assert_eq!(rt; rig.emit(b"ab"), Ok(()));
        assert_eq!(rt; rig.emit(b"c"), Ok(()));
        assert_eq!(rt; rig.out.as_slice(), b"abc".as_slice());
        std::fs::remove_file(&rt, "rig_files_test_flash")?;
        std::fs::remove_file(&rt, "rig_files_test_disk")?;
        Ok(())
    }

    // The null device takes bytes and can't be synced.
    #[test]
    fn a_sync_is_of_its_own_device(rt: HostRuntime) -> Result<(), Fail> {
        let disk = made(&rt, "rig_files_test_synced")?;
        let null = OpenOptions::new()
            .read(true)
            .write(true)
            .open(&rt, "/dev/null")?;
        let mut rig = RigFiles::new(null, disk, 0, 4, Vec::new(rt.alloc()));
        assert_eq!(rt; rig.sync(Dev::Flash), Err(Failed));
        assert_eq!(rt; rig.sync(Dev::Disk), Ok(()));
        assert!(rt; rig.counts.flash.failed_writes == 1 && rig.counts.disk.failed_writes == 0);
        std::fs::remove_file(&rt, "rig_files_test_synced")?;
        Ok(())
    }

    // A file that is shorter than it was told to be.
    #[test]
    fn a_read_that_ends_early_fails(rt: HostRuntime) -> Result<(), Fail> {
        let flash = made(&rt, "rig_files_test_short")?;
        let disk = made(&rt, "rig_files_test_whole")?;
        let mut rig = RigFiles::new(flash, disk, 8, 4, Vec::new(rt.alloc()));
        let mut bytes = [9; 4];
        assert!(rt; rig.size(Dev::Flash) == 8);
        assert_eq!(rt; rig.read(Dev::Flash, 2, &mut bytes), Err(Failed));
        std::fs::remove_file(&rt, "rig_files_test_short")?;
        std::fs::remove_file(&rt, "rig_files_test_whole")?;
        Ok(())
    }

    // A writer that takes a byte at a time.
    #[derive(Drop)]
    struct ByteByByte {
        taken: Vec<u8>,
    }

    impl Write for ByteByByte {
        fn write(&mut self, buf: &[u8]) -> std::io::Result<usize> {
            match buf.first() {
                Some(byte) => {
                    self.taken.push(*byte)?;
                    Ok(1)
                }
                None => Ok(0),
            }
        }

        fn flush(&mut self) -> std::io::Result<()> {
            Ok(())
        }
    }

    #[test]
    fn an_emit_goes_out_whole(rt: HostRuntime) -> Result<(), Fail> {
        let flash = made(&rt, "rig_files_test_first")?;
        let disk = made(&rt, "rig_files_test_second")?;
        let out = ByteByByte {
            taken: Vec::new(rt.alloc()),
        };
        let mut rig = RigFiles::new(flash, disk, 4, 4, out);
        assert_eq!(rt; rig.emit(b"abc"), Ok(()));
        assert_eq!(rt; rig.out.taken.as_slice(), b"abc".as_slice());
        std::fs::remove_file(&rt, "rig_files_test_first")?;
        std::fs::remove_file(&rt, "rig_files_test_second")?;
        Ok(())
    }
}
