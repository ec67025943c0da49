// The two devices: opened, told apart and locked.

use std::fs::{self, File, Metadata, OpenOptions, TryLockError};
use std::io::{self, Seek, SeekFrom};
use std::os::unix::fs::MetadataExt;
use thiserror::Error;

/// Why the devices can't be used. The tests come in this order, the flash before the disk.
#[derive(Clone, Copy, Debug, PartialEq, Eq, Error)]
pub enum DeviceFault {
    #[error("cannot open flash")]
    OpenFlash,
    #[error("cannot open disk")]
    OpenDisk,
    #[error("flash and disk are one file")]
    OneFile,
    #[error("output goes to flash")]
    OutputToFlash,
    #[error("output goes to disk")]
    OutputToDisk,
    #[error("flash is in use by another process")]
    FlashInUse,
    #[error("disk is in use by another process")]
    DiskInUse,
    #[error("cannot lock flash")]
    LockFlash,
    #[error("cannot lock disk")]
    LockDisk,
}

/// A file or a block device, open for reading and writing, and its size in bytes.
#[derive(Drop)]
pub struct Device {
    pub file: File,
    pub size: u64,
}

/// Both devices. They are two files, standard output is neither of them, and no other process that
/// locks them has them open. The locks last until this process ends.
#[derive(Drop)]
pub struct Devices {
    pub flash: Device,
    pub disk: Device,
}

/// Opens and locks both.
pub fn open_devices(rt: &HostRuntime, flash: &str, disk: &str) -> Result<Devices, DeviceFault> {
    let flash = open_device(rt, flash).map_err(|_| DeviceFault::OpenFlash)?;
    let disk = open_device(rt, disk).map_err(|_| DeviceFault::OpenDisk)?;
    let flash_data = flash.file.metadata().map_err(|_| DeviceFault::OpenFlash)?;
    let disk_data = disk.file.metadata().map_err(|_| DeviceFault::OpenDisk)?;
    if is_one(&flash_data, &disk_data) {
        return Err(DeviceFault::OneFile);
    }
    if let Ok(output) = fs::metadata(rt, "/dev/stdout") {
        if is_one(&output, &flash_data) {
            return Err(DeviceFault::OutputToFlash);
        }
        if is_one(&output, &disk_data) {
            return Err(DeviceFault::OutputToDisk);
        }
    }
    lock(&flash.file, DeviceFault::FlashInUse, DeviceFault::LockFlash)?;
    lock(&disk.file, DeviceFault::DiskInUse, DeviceFault::LockDisk)?;
    Ok(Devices { flash, disk })
}

// The end of a block device tells its size too, which what its file says doesn't.
fn open_device(rt: &HostRuntime, path: &str) -> io::Result<Device> {
    let mut file = OpenOptions::new().read(true).write(true).open(rt, path)?;
    let size = file.seek(SeekFrom::End(0))?;
    Ok(Device { file, size })
}

// Whether both are the same file, also by two names.
fn is_one(one: &Metadata, other: &Metadata) -> bool {
    one.dev() == other.dev() && one.ino() == other.ino()
}

fn lock(file: &File, in_use: DeviceFault, cannot: DeviceFault) -> Result<(), DeviceFault> {
    match file.try_lock() {
        Ok(()) => Ok(()),
        Err(TryLockError::WouldBlock) => Err(in_use),
        Err(TryLockError::Error(_)) => Err(cannot),
    }
}

#[cfg(test)]
mod tests {
    use super::*;
    use std::test::Fail;

    fn make(rt: &HostRuntime, name: &str) -> Result<(), Fail> {
        let file = OpenOptions::new()
            .read(true)
            .write(true)
            .create(true)
            .open(rt, name)?;
        file.set_len(4)?;
        Ok(())
    }

    fn fault_of(answer: Result<Devices, DeviceFault>) -> Option<DeviceFault> {
        answer.err()
    }

    #[test]
    fn a_device_that_is_in_use_is_refused(rt: HostRuntime) -> Result<(), Fail> {
        make(&rt, "devices_test_one")?;
        make(&rt, "devices_test_two")?;
        make(&rt, "devices_test_three")?;
        let missing = open_devices(&rt, "devices_test_one", "devices_test_none");
        assert_eq!(rt; fault_of(missing), Some(DeviceFault::OpenDisk));
        let same = open_devices(&rt, "devices_test_one", "devices_test_one");
        assert_eq!(rt; fault_of(same), Some(DeviceFault::OneFile));
        {
            let Ok(held) = open_devices(&rt, "devices_test_one", "devices_test_two") else {
                assert!(rt; false);
                return Ok(());
            };
            let flash = open_devices(&rt, "devices_test_two", "devices_test_three");
            assert_eq!(rt; fault_of(flash), Some(DeviceFault::FlashInUse));
            let disk = open_devices(&rt, "devices_test_three", "devices_test_one");
            assert_eq!(rt; fault_of(disk), Some(DeviceFault::DiskInUse));
            assert!(rt; held.flash.size == 4 && held.disk.size == 4);
        }
        let free = open_devices(&rt, "devices_test_one", "devices_test_two");
        assert_eq!(rt; fault_of(free), None);
        fs::remove_file(&rt, "devices_test_one")?;
        fs::remove_file(&rt, "devices_test_two")?;
        fs::remove_file(&rt, "devices_test_three")?;
        Ok(())
    }
}
