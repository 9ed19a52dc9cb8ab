//! Why a field could not be read, or a text not made.

use std::alloc::AllocError;
use thiserror::Error;

/// What is wrong with a field, with the place of its first byte.
#[derive(Clone, Copy, Debug, PartialEq, Eq, Error)]
pub enum FieldFault {
    /// Fewer bytes are left than the field has.
    #[error("the field ends early, at {place}")]
    Short { place: usize },
    /// A length is below -1, or a count below 0.
    #[error("negative length, at {place}")]
    Negative { place: usize },
}

/// Why no text was made.
#[derive(Clone, Copy, Debug, PartialEq, Eq, Error)]
pub enum TextFault {
    /// There are more than 32,767 bytes: this many.
    #[error("a text of {len} bytes is too long")]
    TooLong { len: usize },
    /// Memory ran out.
    #[error("memory ran out")]
    Memory,
}

/// Why a value that takes memory could not be read.
#[derive(Clone, Copy, Debug, PartialEq, Eq, Error)]
pub enum ReadError {
    /// A field is wrong.
    #[error("wrong field: {0}")]
    Fault(FieldFault),
    /// Memory ran out.
    #[error("memory ran out")]
    Memory,
}

impl From<FieldFault> for ReadError {
    ghost use Rattle.std.specs.Prelude.{◌≡◌};
    ghost use Rattle.frame_wire.specs.declared.fault.ReadError.TheVariants.{Fault};

    ghost from_gives = { λ f e. e ≡ Fault f };

    fn from(fault: FieldFault) -> ReadError {
        ReadError::Fault(fault)
    }
}

impl From<AllocError> for ReadError {
    ghost use Rattle.std.specs.Prelude.{◌≡◌};
    ghost use Rattle.frame_wire.specs.declared.fault.ReadError.TheVariants.{Memory};

    ghost from_gives = { λ _ e. e ≡ Memory };

    fn from(_error: AllocError) -> ReadError {
        ReadError::Memory
    }
}
