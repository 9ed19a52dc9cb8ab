use crate::item::{Broker, KeyVersions, Statistic, StreamMetadata};
use command_fields::{OffsetSpec, Property};
use frame_wire::{Octets, Row, Text};

/// An administrative command, in its version 1. `corr` is the correlation that a request and its answer share, `code` a
/// response code, where 1 is OK. The content of a response may be absent as a whole: that is `None`, another value than
/// an empty list or a null blob.
#[derive(Debug, Drop)]
pub enum AdminCommand {
    /// Creates a stream. Key 0x000d.
    Create {
        corr: u32,
        stream: Text,
        properties: Row<Property>,
    },
    /// Deletes a stream. Key 0x000e.
    Delete {
        corr: u32,
        stream: Text,
    },
    /// Asks where streams are. Key 0x000f.
    Metadata {
        corr: u32,
        items: Row<Text>,
    },
    /// Tells where streams are. Key 0x800f.
    MetadataAnswer {
        corr: u32,
        brokers: Row<Broker>,
        streams: Row<StreamMetadata>,
    },
    /// Tells that a stream is no longer served here, and why. Key 0x0010.
    MetadataUpdate {
        code: u16,
        stream: Text,
    },
    /// Tells what the peer is, and asks the same. Key 0x0011.
    PeerProperties {
        corr: u32,
        properties: Row<Property>,
    },
    /// Tells what the server is. Key 0x8011.
    PeerAnswer {
        corr: u32,
        code: u16,
        properties: Option<Row<Property>>,
    },
    /// Asks for the mechanisms by which a peer may say who it is. Key 0x0012.
    SaslHandshake {
        corr: u32,
    },
    /// Names the mechanisms. Key 0x8012.
    MechanismAnswer {
        corr: u32,
        code: u16,
        items: Option<Row<Text>>,
    },
    /// Says who the peer is, by a mechanism. Key 0x0013.
    SaslAuthenticate {
        corr: u32,
        mechanism: Text,
        opaque: Option<Octets>,
    },
    /// Answers it, with bytes where the mechanism goes on. Key 0x8013.
    SaslAnswer {
        corr: u32,
        code: u16,
        content: Option<Option<Octets>>,
    },
    /// Offers limits of the connection: the greatest size of a frame in bytes, and the seconds between heartbeats, 0 for none. Key 0x0014.
    Tune {
        frame_max: u32,
        heartbeat: u32,
    },
    /// Takes them, or asks for other ones. Key 0x8014.
    TuneAnswer {
        frame_max: u32,
        heartbeat: u32,
    },
    /// Opens a virtual host. Key 0x0015.
    OpenHost {
        corr: u32,
        virtual_host: Text,
    },
    /// Answers it. Key 0x8015.
    HostAnswer {
        corr: u32,
        code: u16,
        properties: Option<Row<Property>>,
    },
    /// Ends the connection, and says why. Key 0x0016.
    Close {
        corr: u32,
        code: u16,
        reason: Text,
    },
    /// Says that the peer is there. Key 0x0017.
    Heartbeat,
    /// Asks for the partitions of a super stream that take a routing key. Key 0x0018.
    Route {
        corr: u32,
        routing_key: Text,
        super_stream: Text,
    },
    /// Names them. Key 0x8018.
    RouteAnswer {
        corr: u32,
        code: u16,
        items: Option<Row<Text>>,
    },
    /// Asks for all partitions of a super stream. Key 0x0019.
    Partitions {
        corr: u32,
        super_stream: Text,
    },
    /// Names them. Key 0x8019.
    PartitionsAnswer {
        corr: u32,
        code: u16,
        items: Option<Row<Text>>,
    },
    /// Tells a subscription that it is the active one of its group, by 1, or is no longer, by 0. Key 0x001a.
    ConsumerUpdate {
        corr: u32,
        sub: u8,
        active: u8,
    },
    /// Says where the consumer goes on. Key 0x801a.
    UpdateAnswer {
        corr: u32,
        code: u16,
        content: Option<OffsetSpec>,
    },
    /// Tells the versions of commands that the peer takes, and asks the same. Key 0x001b.
    ExchangeVersions {
        corr: u32,
        items: Row<KeyVersions>,
    },
    /// Tells those of the server. Key 0x801b.
    VersionsAnswer {
        corr: u32,
        code: u16,
        items: Option<Row<KeyVersions>>,
    },
    /// Asks for the numbers of a stream. Key 0x001c.
    StreamStats {
        corr: u32,
        stream: Text,
    },
    /// Tells them. Key 0x801c.
    StatsAnswer {
        corr: u32,
        code: u16,
        items: Option<Row<Statistic>>,
    },
    /// Creates a super stream: its partitions, and a binding key for each. Key 0x001d.
    CreateSuper {
        corr: u32,
        name: Text,
        partitions: Row<Text>,
        keys: Row<Text>,
        properties: Row<Property>,
    },
    /// Deletes a super stream. Key 0x001e.
    DeleteSuper {
        corr: u32,
        name: Text,
    },
    /// Answers with a code alone the request whose key this is with the highest bit set: 0x800d, 0x800e, 0x8016,
    /// 0x801d or 0x801e.
    Plain {
        key: u16,
        corr: u32,
        code: u16,
    },
}
