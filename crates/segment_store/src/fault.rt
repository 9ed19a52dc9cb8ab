//! Why a store is not recovered, or a job not done.

use gated_words::GateFault;
use std::alloc::{AllocError, AllocFailed};
use thiserror::Error;

/// Why a store is not recovered, or a job not done.
#[derive(Clone, Copy, Debug, PartialEq, Eq, Error)]
pub enum StoreFault {
    /// The disk failed.
    #[error("the disk failed")]
    Disk,
    /// No crash leaves such segments. `segment` is the first offset of the first of them that is wrong, and `at` the
    /// number of its first record that does not match, or 0 where its header is another.
    #[error("segment {segment} is damaged, at record {at}")]
    Damaged { segment: u64, at: u64 },
    /// No crash leaves such a file of promises or epochs; the place is the number of bytes before the first wrong
    /// record, or 0.
    #[error("the file of pairs is damaged, at {place}")]
    DamagedWords { place: u64 },
    /// Memory ran out.
    #[error("memory ran out")]
    Memory,
}

impl From<AllocError> for StoreFault {
    ghost use Rattle.std.specs.Prelude.{◌≡◌};
    ghost use Rattle.segment_store.specs.declared.fault.StoreFault.TheVariants.{Memory};

    ghost from_gives = { λ _ e. e ≡ Memory };

    fn from(_: AllocError) -> StoreFault {
        StoreFault::Memory
    }
}

impl<T: Drop> From<AllocFailed<T>> for StoreFault {
    ghost use Rattle.std.specs.Prelude.{◌≡◌};
    ghost use Rattle.segment_store.specs.declared.fault.StoreFault.TheVariants.{Memory};

    ghost from_gives = { λ _ e. e ≡ Memory };

    fn from(_: AllocFailed<T>) -> StoreFault {
        StoreFault::Memory
    }
}

impl From<GateFault> for StoreFault {
    ghost use Rattle.std.specs.Prelude.{◌≡◌};
    ghost use Rattle.segment_store.specs.Faults.{of_gate};

    ghost from_gives = { λ f e. e ≡ of_gate f };

    fn from(fault: GateFault) -> StoreFault {
        match fault {
            GateFault::Disk => StoreFault::Disk,
            GateFault::Damaged { place } => StoreFault::DamagedWords { place },
            GateFault::Memory => StoreFault::Memory,
        }
    }
}
