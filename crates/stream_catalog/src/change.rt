//! Changes of the catalog.

use frame_wire::{Row, Text};

/// What a change does.
#[derive(Clone, Copy, Debug, PartialEq, Eq)]
pub enum ChangeKind {
    /// A stream comes.
    Create,
    /// A stream goes.
    Delete,
    /// A super stream comes, with its partitions.
    CreateSuper,
    /// A super stream goes, with its partitions.
    DeleteSuper,
}

/// A change of the catalog, as it stands in the file of changes.
#[derive(Debug, Drop)]
pub struct Change {
    pub kind: ChangeKind,
    /// The number of the stream, or of the first partition.
    pub number: u32,
    pub name: Text,
    /// The names of the partitions of a super stream that comes.
    pub parts: Row<Text>,
    /// Their binding keys, in the same order.
    pub keys: Row<Text>,
}
