use chunk_format::{
    Chunk, ChunkKind, DeltaParts, Entry, EntryParts, Header, SnapshotParts, Stored, TagParts,
    check_chunk, crc32, decode_chunk, encode_chunk, index_record, is_chunk, put_delta, put_entry,
    put_header, put_snapshot, put_tag, split_delta, split_entry, split_snapshot, split_tag,
};
use frame_wire::{Octets, Row};
use std::alloc::Global;
use std::process::Abort;
use std::test::Fail;

/// The opening snapshot of epoch 1 at offset 0.
const OPENING: &str =
    "50020001000000010000000000000000000000000000000100000000000000002144df1c00000004000000000000000000000000";
/// One message, `a`.
const MESSAGE: &str =
    "5000000100000001000000000000000000000000000000010000000000000001e58c97920000000500000000000000000000000161";
/// A sub-batch of three records, and a message.
const BATCH: &str =
    "50000002000000040000000000000000000000000000000100000000000000013c42414400000016000000000000000080000300000006000000066162636465660000000162";
/// Two messages of the publisher `p`, with ids 1 and 3.
const TAGGED: &str =
    "50000002000000020000000000000000000000000000000100000000000000014bf5be9e0000000a00000016000000000000000161000000016300017000000000000000010001700000000000000003";
/// The consumer `r` stored the offset 1.
const DELTA: &str =
    "5001000100000001000000000000000000000000000000010000000000000002215fc8d20000000f00000000000000000000000b0101720000000000000001";
/// A snapshot of an id of `p` and an offset of `r`.
const SNAPSHOT: &str =
    "5002000100000001000000000000000000000000000000020000000000000001a42421520000002200000000000000000000001e000170000000000000000100000000000000010101720000000000000001";

/// A chunk of epoch 1 and stamp 0: kind, first offset, the bodies of its entries, the records of
/// its first entry where that is a sub-batch, the trailer, and its bytes in hexadecimal.
type Case = (
    ChunkKind,
    u64,
    &'static [&'static [u8]],
    Option<u16>,
    &'static [u8],
    &'static str,
);

const CASES: [Case; 5] = [
    (ChunkKind::Snapshot, 0, &[b""], None, b"", OPENING),
    (ChunkKind::User, 1, &[b"a"], None, b"", MESSAGE),
    (ChunkKind::User, 1, &[b"abcdef", b"b"], Some(3), b"", BATCH),
    (
        ChunkKind::User,
        1,
        &[b"a", b"c"],
        None,
        b"\x00\x01p\x00\x00\x00\x00\x00\x00\x00\x01\x00\x01p\x00\x00\x00\x00\x00\x00\x00\x03",
        TAGGED,
    ),
    (
        ChunkKind::Delta,
        2,
        &[b"\x01\x01r\x00\x00\x00\x00\x00\x00\x00\x01"],
        None,
        b"",
        DELTA,
    ),
];

fn made_entries(alloc: Global, bodies: &[&[u8]], batch: Option<u16>) -> Result<Row<Entry>, Fail> {
    let mut entries = Row::new(alloc);
    let mut records = batch;
    for body in bodies {
        let body = Octets::copy(alloc, body)?;
        let entry = match records {
            Some(records) => Entry::Batch {
                compression: 0,
                spare: 0,
                records,
                uncompressed: 6,
                body,
            },
            None => Entry::Simple(body),
        };
        records = None;
        entries.push(entry).map_err(|_| "no memory")?;
    }
    Ok(entries)
}

fn has_bytes<R: Abort>(rt: &R, alloc: Global, chunk: &Chunk, text: &str) -> Result<(), Fail> {
    let bytes = hex::decode(alloc, text)?;
    assert!(rt; is_chunk(chunk), "{text}");
    let encoded = encode_chunk(alloc, chunk)?;
    assert_eq!(rt; encoded.as_slice(), bytes.as_slice(), "{text}");
    let stored = Stored::make(alloc, chunk)?;
    let shared = stored.share()?;
    assert_eq!(rt; shared.bytes(), bytes.as_slice(), "{text}");
    let header = Header::read(bytes.as_slice())?;
    assert_eq!(rt; *shared.header(), header, "{text}");
    let mut spelled = Octets::new(alloc);
    put_header(&mut spelled, &header)?;
    assert_eq!(rt; spelled.len(), 48, "{text}");
    assert!(rt; bytes.as_slice().starts_with(spelled.as_slice()), "{text}");
    Ok(())
}

#[test]
fn chunks_made_by_hand_have_known_bytes(rt: HostRuntime) -> Result<(), Fail> {
    let alloc = rt.alloc();
    for (kind, first, bodies, batch, trailer, text) in CASES {
        let chunk = Chunk {
            kind,
            stamp: 0,
            epoch: 1,
            first,
            entries: made_entries(alloc, bodies, batch)?,
            trailer: Octets::copy(alloc, trailer)?,
        };
        has_bytes(&rt, alloc, &chunk, text)?;
    }
    Ok(())
}

/// The bytes begin with a chunk of so many bytes, which is kept as it stands.
fn is_stored<R: Abort>(rt: &R, alloc: Global, bytes: &[u8], len: usize) -> Result<(), Fail> {
    let read = Stored::read(alloc, bytes)?;
    assert_eq!(rt; read.used, len);
    let kept = read.stored.bytes();
    assert_eq!(rt; kept.len(), len);
    assert!(rt; bytes.starts_with(kept));
    let header = Header::read(bytes)?;
    assert_eq!(rt; *read.stored.header(), header);
    Ok(())
}

#[test]
fn known_bytes_are_read_and_written_again(rt: HostRuntime) -> Result<(), Fail> {
    let alloc = rt.alloc();
    for text in [OPENING, MESSAGE, BATCH, TAGGED, DELTA, SNAPSHOT] {
        let mut bytes = hex::decode(alloc, text)?;
        let len = bytes.len();
        bytes.push(0x50).map_err(|_| "no memory")?;
        let read = decode_chunk(alloc, bytes.as_slice())?;
        assert_eq!(rt; read.used, len, "{text}");
        assert!(rt; check_chunk(bytes.as_slice()).is_ok(), "{text}");
        is_stored(&rt, alloc, bytes.as_slice(), len)?;
        has_bytes(&rt, alloc, &read.chunk, text)?;
    }
    Ok(())
}

/// The kind and the first offset of a chunk, its stamp and epoch, its place in a segment, and its record there.
type Record = (ChunkKind, u64, i64, u64, u32, &'static str);

const RECORDS: [Record; 3] = [
    (
        ChunkKind::User,
        1,
        0,
        1,
        8,
        "0000000000000001000000000000000000000000000000010000000800",
    ),
    (
        ChunkKind::Snapshot,
        0x0102_0304_0506_0708,
        -2,
        0x1112_1314_1516_1718,
        0x2122_2324,
        "0102030405060708fffffffffffffffe11121314151617182122232402",
    ),
    (
        ChunkKind::Delta,
        u64::MAX,
        i64::MIN,
        0,
        u32::MAX,
        "ffffffffffffffff80000000000000000000000000000000ffffffff01",
    ),
];

#[test]
fn index_records_have_known_bytes(rt: HostRuntime) -> Result<(), Fail> {
    let alloc = rt.alloc();
    for (kind, first, stamp, epoch, place, text) in RECORDS {
        let header = Header {
            kind,
            entries: 1,
            records: 1,
            stamp,
            epoch,
            first,
            crc: 2,
            payload_len: 4,
            trailer_len: 0,
        };
        let bytes = hex::decode(alloc, text)?;
        assert_eq!(rt;
            index_record(&header, place).as_slice(),
            bytes.as_slice(),
            "{text}"
        );
    }
    Ok(())
}

#[test]
fn items_stand_at_the_front(rt: HostRuntime) -> Result<(), Fail> {
    let alloc = rt.alloc();
    assert_eq!(rt; crc32(b"123456789"), 0xcbf4_3926);
    let mut out = Octets::new(alloc);
    put_entry(&mut out, &Entry::Simple(Octets::copy(alloc, b"a")?))?;
    assert_eq!(rt; out.as_slice(), b"\x00\x00\x00\x01a".as_slice());
    match split_entry(out.as_slice()) {
        Some((parts, len)) => {
            assert_eq!(rt; len, 5);
            assert_eq!(rt; parts.records(), 1);
            match parts {
                EntryParts::Simple(body) => assert_eq!(rt; body, b"a".as_slice()),
                EntryParts::Batch { .. } => panic!(rt; "not a sub-batch"),
            }
        }
        None => panic!(rt; "an entry"),
    }
    match split_tag(b"\x00\x01p\x00\x00\x00\x00\x00\x00\x00\x03.") {
        Some((tag, 11)) => {
            assert_eq!(rt; tag.name, b"p".as_slice());
            assert_eq!(rt; tag.id, 3);
        }
        _ => panic!(rt; "a tag"),
    }
    match split_delta(b"\x01\x01r\x00\x00\x00\x00\x00\x00\x00\x04") {
        Some((DeltaParts::Offset { name, offset }, 11)) => {
            assert_eq!(rt; name, b"r".as_slice());
            assert_eq!(rt; offset, 4);
        }
        _ => panic!(rt; "an offset"),
    }
    match split_snapshot(
        b"\x00\x01p\x00\x00\x00\x00\x00\x00\x00\x02\x00\x00\x00\x00\x00\x00\x00\x05",
    ) {
        Some((SnapshotParts::Sequence { name, first, id }, 19)) => {
            assert_eq!(rt; name, b"p".as_slice());
            assert_eq!(rt; first, 2);
            assert_eq!(rt; id, 5);
        }
        _ => panic!(rt; "a sequence"),
    }
    Ok(())
}

#[test]
fn tracking_entries_have_known_bytes(rt: HostRuntime) -> Result<(), Fail> {
    let mut out = Octets::new(rt.alloc());
    put_tag(&mut out, TagParts { name: b"p", id: 3 })?;
    put_delta(
        &mut out,
        DeltaParts::Offset {
            name: b"r",
            offset: 4,
        },
    )?;
    put_snapshot(
        &mut out,
        SnapshotParts::Sequence {
            name: b"p",
            first: 2,
            id: 5,
        },
    )?;
    let bytes = hex::decode(
        rt.alloc(),
        "0001700000000000000003010172000000000000000400017000000000000000020000000000000005",
    )?;
    assert_eq!(rt; out.as_slice(), bytes.as_slice());
    Ok(())
}
