//! Why the catalog is not read or changed.

use gated_words::GateFault;
use std::alloc::AllocError;
use thiserror::Error;

/// By which rule a change is refused.
#[derive(Clone, Copy, Debug, PartialEq, Eq, Error)]
pub enum Why {
    /// A name that is null, or doesn't have 1 to 255 bytes.
    #[error("a name needs 1 to 255 bytes")]
    Name,
    /// A super stream without partitions, with another number of binding keys, with a null key, or with
    /// two equal names among its own and those of its partitions.
    #[error("a super stream needs partitions with names of their own, and a key for each")]
    Parts,
    /// A partition can't be deleted alone.
    #[error("the stream is a partition of a super stream")]
    InSuper,
    /// There would be more live streams than the limit, or a number above 4,294,967,295.
    #[error("too many streams")]
    Streams,
}

/// Why the catalog is not read or changed.
#[derive(Clone, Copy, Debug, PartialEq, Eq, Error)]
pub enum CatalogFault {
    /// No stream has the name, or no super stream where one is to be deleted.
    #[error("there is no such stream")]
    Missing,
    /// A stream or super stream has the name.
    #[error("the name is taken")]
    Exists,
    /// A rule refuses the change.
    #[error("refused: {0}")]
    Refused(Why),
    /// The disk failed.
    #[error("the disk failed")]
    Disk,
    /// No crash leaves such files. The place is that of the pair in its file: the number of bytes before
    /// it, with the pairs in their second form; where the file of pairs is damaged, that place in it.
    #[error("the catalog is damaged, at {place}")]
    Damaged { place: u64 },
    /// Memory ran out.
    #[error("memory ran out")]
    Memory,
}

impl From<AllocError> for CatalogFault {
    ghost use Rattle.std.specs.Prelude.{◌≡◌};
    ghost use Rattle.stream_catalog.specs.declared.fault.CatalogFault.TheVariants.{Memory};

    ghost from_gives = { λ _ e. e ≡ Memory };

    fn from(_: AllocError) -> CatalogFault {
        CatalogFault::Memory
    }
}

impl From<GateFault> for CatalogFault {
    ghost use Rattle.std.specs.Prelude.{◌≡◌};
    ghost use Rattle.stream_catalog.specs.Gates.{fault_of};

    ghost from_gives = { λ fault e. e ≡ fault_of fault };

    fn from(fault: GateFault) -> CatalogFault {
        match fault {
            GateFault::Disk => CatalogFault::Disk,
            GateFault::Damaged { place } => CatalogFault::Damaged { place },
            GateFault::Memory => CatalogFault::Memory,
        }
    }
}
