//! What a name stands for.

use frame_wire::{Row, Text};

/// What a name of the catalog stands for. Numbers are those of streams.
#[derive(Debug, Drop)]
pub enum Holder {
    /// A stream of its own.
    Stream {
        number: u32,
    },
    /// A partition of a super stream, at this place in it, counted from 0.
    Part {
        number: u32,
        place: u32,
    },
    /// A super stream: the number of its first partition, the names of its partitions, and a binding key
    /// for each. The numbers of the partitions follow one another.
    Super {
        first: u32,
        parts: Row<Text>,
        keys: Row<Text>,
    },
}
