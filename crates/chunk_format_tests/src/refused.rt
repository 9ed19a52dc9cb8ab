use chunk_format::{ChunkError, ChunkFault, check_chunk, decode_chunk};
use std::test::Fail;

/// What is wrong, the bytes in hexadecimal, and the fault.
type Case = (&'static str, &'static str, ChunkFault);

const CASES: [Case; 20] = [
    (
        "a chunk whose last byte is another",
        "5000000100000001000000000000000000000000000000010000000000000001e58c97920000000500000000000000000000000162",
        ChunkFault::Crc {
            place: 32,
            stored: 0xe58c_9792,
            computed: 0x7c85_c628,
        },
    ),
    (
        "a chunk without its last byte",
        "5000000100000001000000000000000000000000000000010000000000000001e58c979200000005000000000000000000000001",
        ChunkFault::Short { place: 52 },
    ),
    (
        "a header without its last byte",
        "5000000100000001000000000000000000000000000000010000000000000001e58c97920000000500000000000000",
        ChunkFault::Short { place: 47 },
    ),
    (
        "another magic",
        "4000000100000001000000000000000000000000000000010000000000000001e58c97920000000500000000000000000000000161",
        ChunkFault::Magic { place: 0 },
    ),
    (
        "another version",
        "5100000100000001000000000000000000000000000000010000000000000001e58c97920000000500000000000000000000000161",
        ChunkFault::Version { place: 0 },
    ),
    (
        "another kind",
        "5003000100000001000000000000000000000000000000010000000000000001e58c97920000000500000000000000000000000161",
        ChunkFault::Kind { place: 1 },
    ),
    (
        "a reserved byte",
        "5000000100000001000000000000000000000000000000010000000000000001e58c97920000000500000000000000010000000161",
        ChunkFault::Reserved { place: 44 },
    ),
    (
        "no entries",
        "500000000000000000000000000000000000000000000001000000000000000100000000000000000000000000000000",
        ChunkFault::Count { place: 2 },
    ),
    (
        "a sub-batch without records and a wrong checksum",
        "500000020000000100000000000000000000000000000001000000000000000100000005000000120000000000000000800000000000020000000261620000000162",
        ChunkFault::Count { place: 48 },
    ),
    (
        "an entry left over",
        "50000001000000020000000000000000000000000000000100000000000000013cf28e080000000a000000000000000000000001610000000162",
        ChunkFault::Count { place: 53 },
    ),
    (
        "another number of records",
        "5000000100000002000000000000000000000000000000010000000000000001e58c97920000000500000000000000000000000161",
        ChunkFault::Count { place: 4 },
    ),
    (
        "an offset past the last",
        "500000010000000100000000000000000000000000000001ffffffffffffffffe58c97920000000500000000000000000000000161",
        ChunkFault::Count { place: 24 },
    ),
    (
        "tags of two names",
        "50000002000000020000000000000000000000000000000100000000000000014bf5be9e0000000a00000016000000000000000161000000016300017000000000000000010001710000000000000003",
        ChunkFault::Trailer { place: 69 },
    ),
    (
        "a tag missing",
        "50000002000000020000000000000000000000000000000100000000000000014bf5be9e0000000a0000000b00000000000000016100000001630001700000000000000001",
        ChunkFault::Trailer { place: 69 },
    ),
    (
        "a trailer of a delta",
        "5001000100000001000000000000000000000000000000010000000000000002215fc8d20000000f00000001000000000000000b010172000000000000000100",
        ChunkFault::Trailer { place: 63 },
    ),
    (
        "a delta of two entries",
        "50010002000000020000000000000000000000000000000100000000000000028c334f860000001e00000000000000000000000b01017200000000000000010000000b0101720000000000000002",
        ChunkFault::Tracking { place: 2 },
    ),
    (
        "a delta of a sub-batch",
        "50010001000000010000000000000000000000000000000100000000000000022ef42be10000001600000000000000008000010000000b0000000b0101720000000000000001",
        ChunkFault::Tracking { place: 2 },
    ),
    (
        "a delta that says nothing",
        "50010001000000010000000000000000000000000000000100000000000000022144df1c00000004000000000000000000000000",
        ChunkFault::Tracking { place: 52 },
    ),
    (
        "a delta that says two things",
        "50010001000000010000000000000000000000000000000100000000000000024b18f2000000001a00000000000000000000001601017200000000000000010101720000000000000002",
        ChunkFault::Tracking { place: 63 },
    ),
    (
        "a snapshot whose second entry is cut",
        "50020001000000010000000000000000000000000000000100000000000000021ea862fa0000001200000000000000000000000e0101720000000000000001020172",
        ChunkFault::Tracking { place: 63 },
    ),
];

#[test]
fn the_first_failing_check_is_told(rt: HostRuntime) -> Result<(), Fail> {
    let alloc = rt.alloc();
    for (wrong, text, fault) in CASES {
        let bytes = hex::decode(alloc, text)?;
        assert_eq!(rt; check_chunk(bytes.as_slice()), Err(fault), "{wrong}");
        match decode_chunk(alloc, bytes.as_slice()) {
            Err(ChunkError::Fault(told)) => assert_eq!(rt; told, fault, "{wrong}"),
            _ => panic!(rt; "{wrong}"),
        }
    }
    Ok(())
}

#[test]
fn a_fault_has_a_text(rt: HostRuntime) -> Result<(), Fail> {
    let alloc = rt.alloc();
    let fault = ChunkFault::Crc {
        place: 32,
        stored: 0xe58c_9792,
        computed: 0x7c85_c628,
    };
    let text = format!(in alloc; "{}", ChunkError::Fault(fault))?;
    assert_eq!(rt;
        text.as_str(),
        "wrong checksum, at 32: e58c9792 is stored, 7c85c628 is computed"
    );
    Ok(())
}
