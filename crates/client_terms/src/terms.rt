//! What a client keeps.

use frame_wire::Octets;

/// How far the opening of a connection has come: which frame the client sends next.
#[derive(Clone, Copy, Debug, PartialEq, Eq)]
pub enum Stage {
    /// There is no connection.
    Away,
    /// PeerProperties.
    Greeting,
    /// SaslHandshake.
    Shaking,
    /// SaslAuthenticate.
    Proving,
    /// None: the server's Tune is wanted.
    Tuning,
    /// TuneAnswer, with the server's greatest frame in bytes.
    Tuned { frame_max: u32 },
    /// OpenHost.
    Hosting,
    /// ExchangeVersions.
    Agreeing,
    /// The connection is open.
    Open,
}

/// A request, which has an answer.
#[derive(Clone, Copy, Debug, PartialEq, Eq)]
pub enum Request {
    PeerProperties,
    SaslHandshake,
    SaslAuthenticate,
    OpenHost,
    ExchangeVersions,
    Create,
    DeclarePublisher,
    QueryPublisherSequence,
    Subscribe,
}

/// What was wished of a client besides messages and streams to be made.
#[derive(Clone, Copy, Debug, PartialEq, Eq)]
pub enum Wish {
    /// The greatest id of its name.
    Query,
    /// Its subscription.
    Subscribe,
}

/// An entry that was delivered: a message, or a sub-batch that nobody has unpacked.
#[derive(Debug, Drop)]
pub struct Received {
    /// The first offset that it takes.
    pub offset: u64,
    /// How many offsets it takes: one of a message.
    pub records: u16,
    /// How a sub-batch is compressed, at most 7. `None` of a message.
    pub compression: Option<u8>,
    pub body: Octets,
}
