use chunk_format::{ChunkError, ChunkFault, Header, decode_chunk};
use chunk_view::{ChunkView, EntryView};
use std::alloc::Global;
use std::process::Abort;
use std::test::Fail;

/// An entry: its first offset, its records, the length of its spelling, and its body.
type Entry = (u64, u32, usize, &'static [u8]);

/// What a chunk is, its bytes in hexadecimal, and its entries.
type Case = (&'static str, &'static str, &'static [Entry]);

const CASES: [Case; 5] = [
    (
        "the opening snapshot of epoch 1",
        "50020001000000010000000000000000000000000000000100000000000000002144df1c00000004000000000000000000000000",
        &[(0, 1, 4, b"")],
    ),
    (
        "one message",
        "5000000100000001000000000000000000000000000000010000000000000001e58c97920000000500000000000000000000000161",
        &[(1, 1, 5, b"a")],
    ),
    (
        "a sub-batch of three records, and a message",
        "50000002000000040000000000000000000000000000000100000000000000013c42414400000016000000000000000080000300000006000000066162636465660000000162",
        &[(1, 3, 17, b"abcdef"), (4, 1, 5, b"b")],
    ),
    (
        "two messages of the publisher p, with ids 1 and 3",
        "50000002000000020000000000000000000000000000000100000000000000014bf5be9e0000000a00000016000000000000000161000000016300017000000000000000010001700000000000000003",
        &[(1, 1, 5, b"a"), (2, 1, 5, b"c")],
    ),
    (
        "a snapshot of an id of p",
        "5002000100000001000000000000000000000000000000020000000000000002d6559eec0000001700000000000000000000001300017000000000000000010000000000000001",
        &[(
            2,
            1,
            23,
            b"\x00\x01p\x00\x00\x00\x00\x00\x00\x00\x01\x00\x00\x00\x00\x00\x00\x00\x01",
        )],
    ),
];

fn is_entry<R: Abort>(rt: &R, view: EntryView<'_>, entry: Entry, name: &str) {
    let (first, records, len, body) = entry;
    assert_eq!(rt; view.first, first, "{name}");
    assert_eq!(rt; view.records, records, "{name}");
    assert_eq!(rt; view.spelling.len(), len, "{name}");
    assert!(rt; view.spelling.ends_with(body), "{name}");
    assert_eq!(rt; view.body, body, "{name}");
}

/// The view has these entries, one by one and by their numbers.
fn has_entries<R: Abort>(rt: &R, view: &ChunkView<'_>, entries: &[Entry], name: &str) {
    let mut views = view.entries();
    let mut k = 0u16;
    for entry in entries {
        match views.next() {
            Some(found) => is_entry(rt, found, *entry, name),
            None => panic!(rt; "an entry is missing in {name}"),
        }
        if k < view.header().entries {
            is_entry(rt, view.entry(k), *entry, name);
        }
        k = k.wrapping_add(1);
    }
    assert!(rt; views.next().is_none(), "{name}");
    assert_eq!(rt; view.header().entries, k, "{name}");
}

/// A delivery is these bytes without the trailer, and what is behind it.
fn is_delivered<R: Abort>(rt: &R, view: &ChunkView<'_>, bytes: &[u8], name: &str) {
    let delivery = view.delivery();
    assert!(rt; bytes.starts_with(delivery), "{name}");
    let sum = delivery.len().wrapping_add(view.trailer().len());
    assert_eq!(rt; sum, view.bytes().len(), "{name}");
    assert!(rt; delivery.ends_with(view.payload()), "{name}");
}

/// A view refuses these bytes with this fault, as `decode_chunk` does.
fn is_refused<R: Abort>(rt: &R, alloc: Global, bytes: &[u8], fault: ChunkFault, name: &str) {
    assert_eq!(rt; ChunkView::open(bytes).err(), Some(fault), "{name}");
    match decode_chunk(alloc, bytes) {
        Err(ChunkError::Fault(told)) => assert_eq!(rt; told, fault, "{name}"),
        _ => panic!(rt; "{name} is taken"),
    }
}

#[test]
fn known_chunks_open_as_views(rt: HostRuntime) -> Result<(), Fail> {
    let alloc = rt.alloc();
    for (name, text, entries) in CASES {
        let mut bytes = hex::decode(alloc, text)?;
        let len = bytes.len();
        bytes.push(0x50).map_err(|_| "no memory")?;
        let view = ChunkView::open(bytes.as_slice())?;
        assert_eq!(rt; view.bytes().len(), len, "{name}");
        assert_eq!(rt; view.header(), Header::read(bytes.as_slice())?, "{name}");
        let sum = view.payload().len().wrapping_add(view.trailer().len());
        assert_eq!(rt; sum.wrapping_add(48), len, "{name}");
        is_delivered(&rt, &view, bytes.as_slice(), name);
        has_entries(&rt, &view, entries, name);
    }
    Ok(())
}

#[test]
fn cut_chunks_are_refused_as_decode_refuses_them(rt: HostRuntime) -> Result<(), Fail> {
    let alloc = rt.alloc();
    for (name, text, _) in CASES {
        let bytes = hex::decode(alloc, text)?;
        for place in 0..bytes.len() {
            let cut = &bytes.as_slice()[..place];
            is_refused(&rt, alloc, cut, ChunkFault::Short { place }, name);
        }
    }
    Ok(())
}

#[test]
fn another_last_byte_is_refused_by_the_checksum(rt: HostRuntime) -> Result<(), Fail> {
    let alloc = rt.alloc();
    let text =
        "5000000100000001000000000000000000000000000000010000000000000001e58c97920000000500000000000000000000000162";
    let bytes = hex::decode(alloc, text)?;
    let fault = ChunkFault::Crc {
        place: 32,
        stored: 0xe58c_9792,
        computed: 0x7c85_c628,
    };
    is_refused(&rt, alloc, bytes.as_slice(), fault, "another last byte");
    Ok(())
}

/// An offset, and how many entries of the sub-batch and the message end above it.
const OFFSETS: [(u64, usize); 6] = [(0, 2), (1, 2), (3, 2), (4, 1), (5, 0), (u64::MAX, 0)];

#[test]
fn the_entry_that_takes_an_offset_is_given_whole(rt: HostRuntime) -> Result<(), Fail> {
    let (name, text, _) = CASES[2];
    let bytes = hex::decode(rt.alloc(), text)?;
    let view = ChunkView::open(bytes.as_slice())?;
    for (offset, count) in OFFSETS {
        assert_eq!(rt;
            view.from_offset(offset).count(),
            count,
            "{name} from {offset}"
        );
    }
    Ok(())
}
