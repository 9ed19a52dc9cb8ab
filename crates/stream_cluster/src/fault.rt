//! Why a stream isn't opened.

/// Why a stream isn't opened.
#[derive(Clone, Copy, Debug, PartialEq, Eq)]
pub enum OpenFault {
    /// Two members hold different chunks at this offset, the first such, and both have a chunk of one epoch there or later.
    Diverged {
        a: u8,
        b: u8,
        offset: u64,
    },
    /// The chunk of a member that begins at this offset doesn't begin where those before it end, or its epoch is below
    /// theirs or above the promise, or it is a snapshot that isn't truthful.
    Broken {
        member: u8,
        offset: u64,
    },
    /// The promise of a member is above the epoch of the coordinator.
    Ahead {
        member: u8,
        promise: u64,
        epoch: u64,
    },
    /// There was not enough memory.
    Memory,
}
