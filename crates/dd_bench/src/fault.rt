// Why nothing was timed.

use std::alloc::AllocError;
use thiserror::Error;

#[derive(Clone, Copy, Debug, PartialEq, Eq, Error)]
pub enum Fault {
    #[error("no memory")]
    Memory,
    #[error("no clock")]
    Clock,
    #[error("no arguments")]
    Words,
    #[error("no output")]
    Output,
    /// A run over the devices in memory ended with this status.
    #[error("a run ended with {0}")]
    Status(u8),
    /// Of so many commands so many were answered by another kind.
    #[error("{others} replies are no {name}")]
    Other { name: &'static str, others: u64 },
}

impl From<AllocError> for Fault {
    fn from(_: AllocError) -> Fault {
        Fault::Memory
    }
}
