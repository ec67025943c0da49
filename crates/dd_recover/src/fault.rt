// Why a flash isn't formatted.

use thiserror::Error;

/// Why a flash isn't formatted. The first three come before any write, in this order: sizes are
/// bytes, and a flash is in use where its byte 0 is 1. The last three are calls that failed.
#[derive(Clone, Copy, Debug, PartialEq, Eq, Error)]
pub enum FormatFault {
    #[error("the flash has {have} bytes and needs {need}")]
    FlashSmall { need: u64, have: u64 },
    #[error("the disk has {have} bytes and needs {need}")]
    DiskSmall { need: u64, have: u64 },
    #[error("the flash is in use")]
    InUse,
    #[error("a read of the flash failed")]
    FlashRead,
    #[error("a write or a sync of the flash failed")]
    FlashWrite,
    #[error("a sync of the disk failed")]
    DiskWrite,
}

#[cfg(test)]
mod tests {
    use super::*;
    use std::alloc::Global;

    // Whether a fault has this text.
    fn says(alloc: Global, fault: FormatFault, text: &str) -> bool {
        match format!(in alloc; "{}", fault) {
            Ok(message) => message.as_str() == text,
            Err(_) => false,
        }
    }

    #[test]
    fn the_texts_of_the_faults(rt: HostRuntime) {
        let small = FormatFault::FlashSmall {
            need: 1370,
            have: 1369,
        };
        assert!(rt; says(rt.alloc(), small, "the flash has 1369 bytes and needs 1370"));
        let small = FormatFault::DiskSmall { need: 128, have: 0 };
        assert!(rt; says(rt.alloc(), small, "the disk has 0 bytes and needs 128"));
        assert!(rt; says(rt.alloc(), FormatFault::InUse, "the flash is in use"));
        assert!(rt;
            says(
                rt.alloc(),
                FormatFault::FlashRead,
                "a read of the flash failed"
            )
        );
        let text = "a write or a sync of the flash failed";
        assert!(rt; says(rt.alloc(), FormatFault::FlashWrite, text));
        assert!(rt;
            says(
                rt.alloc(),
                FormatFault::DiskWrite,
                "a sync of the disk failed"
            )
        );
    }
}
