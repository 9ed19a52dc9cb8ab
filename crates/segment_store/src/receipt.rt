//! What a store hands out for a job that is done.

ghost use Rattle.std.specs.Prelude.{◌≡◌};

use std::marker::Model;

/// The proof that a job was done on a disk. A store makes it, and nothing else does.
#[derive(Debug, Drop)]
pub struct Receipt {
    stream: u32,
    member: u8,
    number: u64,
}

impl Model for Receipt {
    ghost use Rattle.segment_store.specs.Receipts.{JobDone};

    ghost Value = { JobDone };

    ghost view = { λ r. record { stream = r.stream; member = r.member; number = r.number } };
}

impl Receipt {
    pub(crate) fn new(stream: u32, member: u8, number: u64) -> Receipt
        ensures stream { result.stream ≡ stream }
        ensures member { result.member ≡ member }
        ensures number { result.number ≡ number }
    {
        Receipt {
            stream,
            member,
            number,
        }
    }

    /// The stream of the job.
    pub fn stream(&self) -> u32
        ensures { result ≡ self.now.stream }
    {
        self.stream
    }

    /// The member whose job it was, or 0 for the coordinator.
    pub fn member(&self) -> u8
        ensures { result ≡ self.now.member }
    {
        self.member
    }

    /// The number of the job.
    pub fn number(&self) -> u64
        ensures { result ≡ self.now.number }
    {
        self.number
    }
}
