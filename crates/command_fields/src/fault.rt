//! Why the body of a frame is no command.

use frame_wire::{FieldFault, ReadError};
use thiserror::Error;

/// The first field of a body that is wrong, with the place where it begins: the number of bytes of the body before it.
#[derive(Clone, Copy, Debug, PartialEq, Eq, Error)]
pub enum DecodeFault {
    /// The key names no command of this kind.
    #[error("unknown command key, at {place}")]
    UnknownKey { place: usize },
    /// The command has another version.
    #[error("unknown command version, at {place}")]
    Version { place: usize },
    /// Fewer bytes are left than the field has.
    #[error("the field ends early, at {place}")]
    Short { place: usize },
    /// Bytes follow the last field. The place is that of the first of them.
    #[error("bytes follow the last field, at {place}")]
    Long { place: usize },
    /// The length of a text or a blob is below -1, or the count of a list below 0.
    #[error("negative length, at {place}")]
    Negative { place: usize },
    /// A byte that tells yes or no is neither 1 nor 0, or the header of a delivery is wrong.
    #[error("wrong flag, at {place}")]
    Flag { place: usize },
    /// The type of an offset specification is none of 0 to 5.
    #[error("unknown offset type, at {place}")]
    OffsetType { place: usize },
}

/// Why no command was made of a body.
#[derive(Clone, Copy, Debug, PartialEq, Eq, Error)]
pub enum DecodeError {
    /// A field is wrong.
    #[error("the body is no command: {0}")]
    Fault(DecodeFault),
    /// Memory ran out.
    #[error("memory ran out")]
    Memory,
}

impl From<FieldFault> for DecodeFault {
    ghost use Rattle.std.specs.Prelude.{◌≡◌};
    ghost use Rattle.command_fields.specs.Faults.{of_field};

    ghost from_gives = { λ f e. e ≡ of_field f };

    fn from(fault: FieldFault) -> DecodeFault {
        match fault {
            FieldFault::Short { place } => DecodeFault::Short { place },
            FieldFault::Negative { place } => DecodeFault::Negative { place },
        }
    }
}

impl From<DecodeFault> for DecodeError {
    ghost use Rattle.std.specs.Prelude.{◌≡◌};
    ghost use Rattle.command_fields.specs.declared.fault.DecodeError.TheVariants.{Fault};

    ghost from_gives = { λ f e. e ≡ Fault f };

    fn from(fault: DecodeFault) -> DecodeError {
        DecodeError::Fault(fault)
    }
}

impl From<FieldFault> for DecodeError {
    ghost use Rattle.std.specs.Prelude.{◌≡◌};
    ghost use Rattle.command_fields.specs.declared.fault.DecodeError.TheVariants.{Fault};
    ghost use Rattle.command_fields.specs.Faults.{of_field};

    ghost from_gives = { λ f e. e ≡ Fault (of_field f) };

    fn from(fault: FieldFault) -> DecodeError {
        DecodeError::Fault(DecodeFault::from(fault))
    }
}

impl From<ReadError> for DecodeError {
    ghost use Rattle.std.specs.Prelude.{◌≡◌};
    ghost use Rattle.command_fields.specs.Faults.{error_of};

    ghost from_gives = { λ f e. e ≡ error_of f };

    fn from(error: ReadError) -> DecodeError {
        match error {
            ReadError::Fault(fault) => DecodeError::from(fault),
            ReadError::Memory => DecodeError::Memory,
        }
    }
}
