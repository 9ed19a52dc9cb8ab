//! The commands as values.

use crate::item::{Refusal, Tagged};
use chunk_format::Header;
use command_fields::{OffsetSpec, Property};
use frame_wire::{Octets, Row, Text};

/// A command of publishers and consumers, in version 1 but for `Deliver2`. `corr` is the correlation of a request and its answer,
/// `publisher` and `sub` are the ids that a connection gave a publisher and a subscription, `code` is a response code,
/// of which 0x01 is success.
#[derive(Debug, Drop)]
pub enum DataCommand {
    /// Key 0x0001: a publisher on a stream, by a reference that may be null.
    DeclarePublisher {
        corr: u32,
        publisher: u8,
        reference: Text,
        stream: Text,
    },
    /// Key 0x0002: messages and sub-batches with their publishing ids.
    Publish {
        publisher: u8,
        items: Row<Tagged>,
    },
    /// Key 0x0003: publishing ids that are stored.
    PublishConfirm {
        publisher: u8,
        items: Row<u64>,
    },
    /// Key 0x0004: publishing ids that are refused.
    PublishError {
        publisher: u8,
        items: Row<Refusal>,
    },
    /// Key 0x0005: asks for the greatest publishing id of a reference.
    QueryPublisherSequence {
        corr: u32,
        reference: Text,
        stream: Text,
    },
    /// Key 0x8005: that id, absent as a whole where there is none to tell.
    SequenceAnswer {
        corr: u32,
        code: u16,
        content: Option<u64>,
    },
    /// Key 0x0006: ends a publisher.
    DeletePublisher {
        corr: u32,
        publisher: u8,
    },
    /// Key 0x0007: a subscription from a place on, with a credit in chunks; its properties may be absent as a whole.
    Subscribe {
        corr: u32,
        sub: u8,
        stream: Text,
        spec: OffsetSpec,
        credit: u16,
        properties: Option<Row<Property>>,
    },
    /// Key 0x0008: a chunk, by its 48 header bytes and its payload of the header's length.
    Deliver {
        sub: u8,
        header: Header,
        payload: Octets,
    },
    /// Key 0x0008 in version 2: the same, with the first offset of the last committed chunk.
    Deliver2 {
        sub: u8,
        committed: u64,
        header: Header,
        payload: Octets,
    },
    /// Key 0x0009: more credit, in chunks.
    Credit {
        sub: u8,
        credit: u16,
    },
    /// Key 0x8009: credit for a subscription that there is not.
    CreditFault {
        code: u16,
        sub: u8,
    },
    /// Key 0x000a: keeps an offset under a reference.
    StoreOffset {
        reference: Text,
        stream: Text,
        offset: u64,
    },
    /// Key 0x000b: asks for a kept offset.
    QueryOffset {
        corr: u32,
        reference: Text,
        stream: Text,
    },
    /// Key 0x800b: that offset, absent as a whole where there is none to tell.
    OffsetAnswer {
        corr: u32,
        code: u16,
        content: Option<u64>,
    },
    /// Key 0x000c: ends a subscription.
    Unsubscribe {
        corr: u32,
        sub: u8,
    },
    /// Keys 0x8001, 0x8006, 0x8007 and 0x800c: a response of a code alone.
    Plain {
        key: u16,
        corr: u32,
        code: u16,
    },
}
