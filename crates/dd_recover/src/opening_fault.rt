// Why devices aren't opened.

use dd_layout::SuperFault;
use std::alloc::AllocError;
use thiserror::Error;

/// Why devices aren't opened. Sizes are bytes, and `at` is a place on the flash. The first four are want
/// of memory and calls that failed; the others stand in the order in which devices are tested.
#[derive(Debug, Drop, Error)]
pub enum OpenFault {
    #[error("no memory for the cache")]
    Memory(AllocError),
    #[error("a read of the flash failed")]
    FlashRead,
    #[error("the sync of the flash failed")]
    FlashWrite,
    #[error("the sync of the disk failed")]
    DiskWrite,
    #[error("the flash has {have} bytes and needs {need}")]
    FlashSmall { need: u64, have: u64 },
    #[error("the disk has {have} bytes and needs {need}")]
    DiskSmall { need: u64, have: u64 },
    #[error("{0}")]
    Super(SuperFault),
    #[error("neither region of the flash is open")]
    NoRegion,
    #[error("the snapshot of region {region} is damaged at byte {at}")]
    Snapshot { region: u32, at: u64 },
    #[error("the log of region {region} is damaged at byte {at}")]
    Group { region: u32, at: u64 },
    #[error("the epoch or count {value} is 2^62 or greater")]
    Worn { value: u64 },
    #[error("the flash is of version 1")]
    Version1,
}

#[cfg(test)]
mod tests {
    use super::*;
    use std::alloc::Global;

    // Whether a fault has this text.
    fn says(alloc: Global, fault: OpenFault, text: &str) -> bool {
        match format!(in alloc; "{}", fault) {
            Ok(message) => message.as_str() == text,
            Err(_) => false,
        }
    }

    #[test]
    fn the_texts_of_the_calls(rt: HostRuntime) {
        let text = "a read of the flash failed";
        assert!(rt; says(rt.alloc(), OpenFault::FlashRead, text));
        let text = "the sync of the flash failed";
        assert!(rt; says(rt.alloc(), OpenFault::FlashWrite, text));
        let text = "the sync of the disk failed";
        assert!(rt; says(rt.alloc(), OpenFault::DiskWrite, text));
    }

    #[test]
    fn the_texts_of_the_refusals(rt: HostRuntime) {
        let fault = OpenFault::FlashSmall { need: 64, have: 63 };
        assert!(rt; says(rt.alloc(), fault, "the flash has 63 bytes and needs 64"));
        let fault = OpenFault::DiskSmall { need: 128, have: 0 };
        assert!(rt; says(rt.alloc(), fault, "the disk has 0 bytes and needs 128"));
        let fault = OpenFault::Super(SuperFault::Magic);
        let text = "the superblock has another magic than CDSB";
        assert!(rt; says(rt.alloc(), fault, text));
        let text = "neither region of the flash is open";
        assert!(rt; says(rt.alloc(), OpenFault::NoRegion, text));
        let fault = OpenFault::Snapshot { region: 1, at: 702 };
        let text = "the snapshot of region 1 is damaged at byte 702";
        assert!(rt; says(rt.alloc(), fault, text));
        let fault = OpenFault::Group { region: 0, at: 98 };
        let text = "the log of region 0 is damaged at byte 98";
        assert!(rt; says(rt.alloc(), fault, text));
        let fault = OpenFault::Worn {
            value: 4611686018427387905,
        };
        let text = "the epoch or count 4611686018427387905 is 2^62 or greater";
        assert!(rt; says(rt.alloc(), fault, text));
        let text = "the flash is of version 1";
        assert!(rt; says(rt.alloc(), OpenFault::Version1, text));
    }
}
