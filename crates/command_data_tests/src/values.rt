use chunk_format::{ChunkKind, Entry, Header};
use command_data::{DataCommand, Refusal, Tagged};
use command_fields::{OffsetSpec, Property};
use frame_wire::{Row, Text};

/// The header of the delivery.
pub const HEADER: Header = Header {
    kind: ChunkKind::Delta,
    entries: 2,
    records: 3,
    stamp: 4,
    epoch: 5,
    first: 6,
    crc: 7,
    payload_len: 2,
    trailer_len: 9,
};

fn is_text(text: &Text, bytes: &[u8]) -> bool {
    match text.get() {
        None => false,
        Some(found) => found == bytes,
    }
}

/// A request of correlation 7 about the reference `r` and the stream `s`.
fn asks(corr: u32, reference: &Text, stream: &Text) -> bool {
    corr == 7 && is_text(reference, b"r") && is_text(stream, b"s")
}

/// A simple entry `a` of id 5.
fn is_simple(tagged: &Tagged) -> bool {
    match &tagged.entry {
        Entry::Simple(body) => tagged.id == 5 && body.as_slice() == b"a".as_slice(),
        Entry::Batch { .. } => false,
    }
}

/// A sub-batch `bc` of id 6.
fn is_batch(tagged: &Tagged) -> bool {
    match &tagged.entry {
        Entry::Simple(_) => false,
        Entry::Batch {
            compression,
            spare,
            records,
            uncompressed,
            body,
        } => {
            tagged.id == 6
                && (*compression, *spare) == (1, 2)
                && (*records, *uncompressed) == (3, 6)
                && body.as_slice() == b"bc".as_slice()
        }
    }
}

fn are_entries(items: &[Tagged]) -> bool {
    items.len() == 2 && is_simple(&items[0]) && is_batch(&items[1])
}

fn are_refusals(items: &[Refusal]) -> bool {
    items.len() == 1 && items[0] == Refusal { id: 5, code: 0x12 }
}

/// One property of the key `k`, whose value is null.
fn is_property(properties: &Row<Property>) -> bool {
    let properties = properties.as_slice();
    properties.len() == 1
        && is_text(&properties[0].key, b"k")
        && properties[0].value.get().is_none()
}

/// Where it begins, and its properties.
fn subscribes(spec: OffsetSpec, properties: &Option<Row<Property>>) -> bool {
    match properties {
        None => spec == OffsetSpec::Since(-1),
        Some(properties) => match spec {
            OffsetSpec::At(5) => is_property(properties),
            _ => spec == OffsetSpec::Next && properties.as_slice().is_empty(),
        },
    }
}

/// Correlation 7, and 9 with code 1 or nothing with this code.
fn answers(corr: u32, code: u16, content: Option<u64>, without: u16) -> bool {
    let wanted = if code == without { None } else { Some(9) };
    corr == 7 && (code == 1 || code == without) && content == wanted
}

/// Whether this is the command of the body of this key.
pub fn is_command_of(key: u16, command: &DataCommand) -> bool {
    match command {
        DataCommand::DeclarePublisher {
            corr,
            publisher,
            reference,
            stream,
        } => key == 0x0001 && *publisher == 2 && asks(*corr, reference, stream),
        DataCommand::Publish { publisher, items } => {
            key == 0x0002 && *publisher == 2 && are_entries(items.as_slice())
        }
        DataCommand::PublishConfirm { publisher, items } => {
            key == 0x0003 && *publisher == 2 && items.as_slice() == [5, 6].as_slice()
        }
        DataCommand::PublishError { publisher, items } => {
            key == 0x0004 && *publisher == 2 && are_refusals(items.as_slice())
        }
        DataCommand::QueryPublisherSequence {
            corr,
            reference,
            stream,
        } => key == 0x0005 && asks(*corr, reference, stream),
        DataCommand::SequenceAnswer {
            corr,
            code,
            content,
        } => key == 0x8005 && answers(*corr, *code, *content, 0x12),
        DataCommand::DeletePublisher { corr, publisher } => {
            key == 0x0006 && *corr == 7 && *publisher == 2
        }
        DataCommand::Subscribe {
            corr,
            sub,
            stream,
            spec,
            credit,
            properties,
        } => {
            key == 0x0007
                && (*corr, *sub, *credit) == (7, 3, 10)
                && is_text(stream, b"s")
                && subscribes(*spec, properties)
        }
        DataCommand::Deliver {
            sub,
            header,
            payload,
        } => key == 0x0008
            && *sub == 3
            && *header == HEADER
            && payload.as_slice() == b"ab".as_slice(),
        DataCommand::Deliver2 {
            sub,
            committed,
            header,
            payload,
        } => key == 0x0008
            && (*sub, *committed) == (3, 0xaa)
            && *header == HEADER
            && payload.as_slice() == b"ab".as_slice(),
        DataCommand::Credit { sub, credit } => key == 0x0009 && (*sub, *credit) == (3, 10),
        DataCommand::CreditFault { code, sub } => key == 0x8009 && (*code, *sub) == (4, 3),
        DataCommand::StoreOffset {
            reference,
            stream,
            offset,
        } => key == 0x000a && *offset == 9 && is_text(reference, b"r") && is_text(stream, b"s"),
        DataCommand::QueryOffset {
            corr,
            reference,
            stream,
        } => key == 0x000b && asks(*corr, reference, stream),
        DataCommand::OffsetAnswer {
            corr,
            code,
            content,
        } => key == 0x800b && answers(*corr, *code, *content, 0x13),
        DataCommand::Unsubscribe { corr, sub } => key == 0x000c && (*corr, *sub) == (7, 3),
        DataCommand::Plain {
            key: plain,
            corr,
            code,
        } => key >= 0x8001 && key == *plain && (*corr, *code) == (7, 1),
    }
}

/// Whether the last field of the command is absent.
pub fn ends_absent(command: &DataCommand) -> bool {
    match command {
        DataCommand::SequenceAnswer { content, .. } => content.is_none(),
        DataCommand::OffsetAnswer { content, .. } => content.is_none(),
        DataCommand::Subscribe { properties, .. } => properties.is_none(),
        _ => false,
    }
}
