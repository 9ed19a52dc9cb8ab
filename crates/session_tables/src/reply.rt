//! What a session says.

use command_all::{ResponseCode, StreamMetadata, Tagged};
use frame_wire::{Row, Text};

/// A request that is answered by a code alone.
#[derive(Clone, Copy, Debug, PartialEq, Eq)]
pub enum Request {
    DeclarePublisher,
    DeletePublisher,
    Subscribe,
    Unsubscribe,
    Create,
    Delete,
    CreateSuper,
    DeleteSuper,
    Close,
}

/// What a session says to a frame or at a tick: one frame, and two for `Welcome`. `corr` is the correlation of the request
/// that it answers.
#[derive(Debug, Drop)]
pub enum Reply {
    /// Says that the server is there.
    Heartbeat,
    /// The server's own Close.
    Close {
        corr: u32,
        code: ResponseCode,
    },
    /// A code alone.
    Answer {
        request: Request,
        corr: u32,
        code: ResponseCode,
    },
    /// What the server is.
    Peer {
        corr: u32,
    },
    /// The mechanisms by which a peer may say who it is.
    Mechanisms {
        corr: u32,
    },
    /// The peer isn't let in.
    Sasl {
        corr: u32,
        code: ResponseCode,
    },
    /// The peer is let in, and is offered the server's limits by Tune.
    Welcome {
        corr: u32,
    },
    /// The host is open, and this is how it is advertised.
    Host {
        corr: u32,
    },
    /// There is no such host.
    NoHost {
        corr: u32,
    },
    /// None of the items is taken.
    PublishError {
        id: u8,
        items: Row<Tagged>,
        code: ResponseCode,
    },
    /// The greatest publishing id of a reference.
    Sequence {
        corr: u32,
        code: ResponseCode,
        id: u64,
    },
    /// There is no subscription of this id.
    CreditFault {
        id: u8,
    },
    /// The offset that a reference stored.
    Offset {
        corr: u32,
        code: ResponseCode,
        offset: u64,
    },
    /// Where streams are.
    Metadata {
        corr: u32,
        streams: Row<StreamMetadata>,
    },
    /// The partitions that take a routing key.
    Routes {
        corr: u32,
        code: ResponseCode,
        names: Row<Text>,
    },
    /// All partitions of a super stream.
    Partitions {
        corr: u32,
        code: ResponseCode,
        names: Row<Text>,
    },
    /// The versions of the commands.
    Versions {
        corr: u32,
    },
    /// The first offset of a stream's last committed chunk, if it has one.
    Stats {
        corr: u32,
        last: Option<u64>,
    },
    /// There is no such stream.
    NoStats {
        corr: u32,
    },
}
