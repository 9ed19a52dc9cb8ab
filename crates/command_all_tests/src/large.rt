//! Commands with long lists, texts and blobs: that none of them is answered with want of memory.

use command_all::{Command, decode_command, encode_command, fits, frame, put_frame};
use frame_wire::Octets;
use std::alloc::{AllocError, Global};
use std::test::Fail;

/// What is large, the front of a body, what is repeated, how often, and what follows.
type Case = (&'static str, &'static str, &'static str, u32, &'static str);

const LARGE: [Case; 26] = [
    ("ids", "000300010200001388", "0000000000000005", 5_000, ""),
    (
        "refusals",
        "000400010200001388",
        "00000000000000050012",
        5_000,
        "",
    ),
    (
        "entries",
        "000200010200001388",
        "00000000000000050000000161",
        5_000,
        "",
    ),
    (
        "an entry",
        "000200010200000001000000000000000500030d40",
        "61",
        200_000,
        "",
    ),
    (
        "a sub-batch",
        "00020001020000000100000000000000069200030000000600030d40",
        "62",
        200_000,
        "",
    ),
    (
        "a reference",
        "0001000100000007027fff",
        "72",
        32_767,
        "000173",
    ),
    ("a stream", "00050001000000070001727fff", "73", 32_767, ""),
    (
        "a kept reference",
        "000a00017fff",
        "72",
        32_767,
        "0001730000000000000009",
    ),
    (
        "an asked reference",
        "000b0001000000077fff",
        "72",
        32_767,
        "000173",
    ),
    (
        "a subscription",
        "0007000100000007030001730003000a00001388",
        "00016bffff",
        5_000,
        "",
    ),
    (
        "adelivery",
        "000800010350010002000000030000000000000004000000000000000500000000000000060000000700030d400000000900000000",
        "61",
        200_000,
        "",
    ),
    (
        "adelivery of version 2",
        "000800020300000000000000aa50010002000000030000000000000004000000000000000500000000000000060000000700030d400000000900000000",
        "61",
        200_000,
        "",
    ),
    (
        "a new stream",
        "000d00010000000500017300001388",
        "00016b000176",
        5_000,
        "",
    ),
    (
        "streams askedfor",
        "000f00010000000600001388",
        "000173",
        5_000,
        "",
    ),
    (
        "streams told of",
        "800f0001000000060000000000001388",
        "000173000100000000000200010002",
        5_000,
        "",
    ),
    (
        "replicas",
        "800f00010000000600000000000000010001730001000000001388",
        "0001",
        5_000,
        "",
    ),
    (
        "properties ofa peer",
        "8011000100000001000100001388",
        "00016b000176",
        5_000,
        "",
    ),
    (
        "mechanisms",
        "8012000100000002000100001388",
        "0005504c41494e",
        5_000,
        "",
    ),
    (
        "a secret",
        "00130001000000030005504c41494e00030d40",
        "00",
        200_000,
        "",
    ),
    (
        "achallenge",
        "8013000100000003000100030d40",
        "00",
        200_000,
        "",
    ),
    ("a reason", "0016000100000001000d7fff", "75", 32_767, ""),
    (
        "partitions ofa key",
        "8018000100000002000100001388",
        "00036f2d31",
        5_000,
        "",
    ),
    (
        "versions",
        "801b000100000009000100001388",
        "000800010002",
        5_000,
        "",
    ),
    (
        "statistics",
        "801c000100000009000100001388",
        "0001730000000000000007",
        5_000,
        "",
    ),
    (
        "partitions",
        "001d00010000000100016f00001388",
        "00036f2d31",
        5_000,
        "0000000000000000",
    ),
    (
        "a super stream's properties",
        "001d00010000000100016f000000000000000000001388",
        "00016b000176",
        5_000,
        "",
    ),
];

/// The bytes of a front, of a part so often, and of what follows.
fn joined(
    alloc: Global,
    front: &[u8],
    part: &[u8],
    count: u32,
    rest: &[u8],
) -> Result<Octets, AllocError> {
    let mut bytes = Octets::copy(alloc, front)?;
    for _ in 0..count {
        bytes.push_slice(part)?;
    }
    bytes.push_slice(rest)?;
    Ok(bytes)
}

/// Whether a command fits, has this body, and a frame behind other bytes that ends in it.
fn is_written(alloc: Global, command: &Command, body: &[u8]) -> Result<bool, AllocError> {
    if !fits(command) {
        return Ok(false);
    }
    let written = encode_command(alloc, command)?;
    if written.as_slice() != body {
        return Ok(false);
    }
    let framed = frame(alloc, command)?;
    let mut behind = Octets::copy(alloc, b"ab")?;
    put_frame(&mut behind, command)?;
    let Some((before, put)) = behind.as_slice().split_first_chunk::<2>() else {
        return Ok(false);
    };
    Ok(before == b"ab" && put == framed.as_slice() && framed.as_slice().ends_with(body))
}

/// Whether a body is a command that has this body again.
fn is_large(alloc: Global, body: &[u8]) -> Result<bool, AllocError> {
    match decode_command(alloc, body) {
        Ok(command) => is_written(alloc, &command, body),
        Err(_) => Ok(false),
    }
}

/// The case of a row.
fn holds(alloc: Global, front: &str, part: &str, count: u32, rest: &str) -> Result<bool, Fail> {
    let front = hex::decode(alloc, front)?;
    let part = hex::decode(alloc, part)?;
    let rest = hex::decode(alloc, rest)?;
    let body = joined(
        alloc,
        front.as_slice(),
        part.as_slice(),
        count,
        rest.as_slice(),
    )?;
    Ok(is_large(alloc, body.as_slice())?)
}

#[test]
fn large_commands_are_read_and_written(rt: HostRuntime) -> Result<(), Fail> {
    for (large, front, part, count, rest) in LARGE {
        assert!(rt; holds(rt.alloc(), front, part, count, rest)?, "{large}");
    }
    Ok(())
}
