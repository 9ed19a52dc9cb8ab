//! The sums of bytes that rise by seven.

use chunk_crc::crc32;
use std::alloc::{AllocError, Global};
use std::test::Fail;

/// How many bytes, and their sum by zlib.
const SUMS: [(u32, u32); 14] = [
    (0, 0x00000000),
    (1, 0x4b0bbe37),
    (2, 0x8a21a822),
    (15, 0x7c619edc),
    (16, 0x191f3d9f),
    (17, 0x7ba75ee3),
    (31, 0xd07f9b5b),
    (32, 0xa10e8695),
    (33, 0x6bc53502),
    (48, 0x4572dc45),
    (63, 0xb7350c2a),
    (1_000, 0x17bc2a46),
    (65_536, 0xd660af09),
    (1_000_003, 0x095d6e8a),
];

/// So many bytes: 3, 10, 17 and on, modulo 256.
fn rising(alloc: Global, len: u32) -> Result<Vec<u8>, AllocError> {
    let mut bytes = Vec::new(alloc);
    let mut byte = 3u8;
    for _ in 0..len {
        bytes.push(byte)?;
        byte = byte.wrapping_add(7);
    }
    Ok(bytes)
}

#[test]
fn sums_are_those_of_zlib(rt: HostRuntime) -> Result<(), Fail> {
    for (len, sum) in SUMS {
        let bytes = rising(rt.alloc(), len)?;
        assert_eq!(rt; crc32(bytes.as_slice()), sum, "{len} bytes");
    }
    Ok(())
}
