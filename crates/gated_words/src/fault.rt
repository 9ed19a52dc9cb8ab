//! Why pairs are not read or written.

use std::alloc::{AllocError, AllocFailed};
use thiserror::Error;

/// Why pairs are not read or written.
#[derive(Clone, Copy, Debug, PartialEq, Eq, Error)]
pub enum GateFault {
    /// The disk failed.
    #[error("the disk failed")]
    Disk,
    /// No crash leaves such a file. The place is 0 where the header is another, else that of the first
    /// record that is not whole or has another gate: the number of bytes before it.
    #[error("the file of pairs is damaged, at {place}")]
    Damaged { place: u64 },
    /// Memory ran out.
    #[error("memory ran out")]
    Memory,
}

impl From<AllocError> for GateFault {
    ghost use Rattle.std.specs.Prelude.{◌≡◌};
    ghost use Rattle.gated_words.specs.declared.fault.GateFault.TheVariants.{Memory};

    ghost from_gives = { λ _ e. e ≡ Memory };

    fn from(_: AllocError) -> GateFault {
        GateFault::Memory
    }
}

impl<T: Drop> From<AllocFailed<T>> for GateFault {
    ghost use Rattle.std.specs.Prelude.{◌≡◌};
    ghost use Rattle.gated_words.specs.declared.fault.GateFault.TheVariants.{Memory};

    ghost from_gives = { λ _ e. e ≡ Memory };

    fn from(_: AllocFailed<T>) -> GateFault {
        GateFault::Memory
    }
}
