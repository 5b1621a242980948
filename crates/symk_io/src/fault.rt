//! Why the outside, or a reader of it, gives up.

ghost use Rattle.std.specs.Prelude.{◌≡◌};
ghost use Rattle.symk_io.specs.declared.fault.ReadStop.TheVariants.{Memory, Unreadable};

use std::alloc::AllocError;

/// Why a call of `Files` or `Sink` moved nothing.
#[derive(Clone, Copy, Debug, PartialEq, Eq, thiserror::Error)]
pub enum IoFault {
    /// The device failed, and counted it.
    #[error("the device failed")]
    Failed,
    /// Out of memory, which isn't counted as a failure.
    #[error("out of memory")]
    Memory,
}

/// Why a text was not read.
#[derive(Clone, Copy, Debug, PartialEq, Eq, thiserror::Error)]
pub enum ReadStop {
    /// Opening the file, or a read of it, failed and was counted.
    #[error("unreadable")]
    Unreadable,
    /// More bytes came than the limit allows.
    #[error("too long")]
    TooLong,
    /// Out of memory.
    #[error("out of memory")]
    Memory,
}

impl From<AllocError> for ReadStop {
    ghost from_gives = { λ _ e. e ≡ Memory };

    fn from(_: AllocError) -> Self {
        ReadStop::Memory
    }
}

impl From<AllocError> for IoFault {
    ghost use Rattle.symk_io.specs.declared.fault.IoFault.TheVariants.{Memory};

    ghost from_gives = { λ _ e. e ≡ Memory };

    fn from(_: AllocError) -> Self {
        IoFault::Memory
    }
}
