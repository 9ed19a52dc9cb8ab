//! The CRC-32 of IEEE 802.3, sixteen bytes at a step.

ghost use Rattle.std.specs.Prelude.{◌≡◌, ◌+◌, ◌<◌, ◌^◌, take, drop, fold};
ghost use Rattle.chunk_crc.specs.Crc.{crc_of, byte_step, zero_bytes};

use crate::tables::TABLES;

/// What the byte and so many zero bytes behind it make.
#[inline(always)]
fn moved(zeros: usize, byte: u8) -> u32
    requires { zeros < 16 }
    ensures { result ≡ zero_bytes (zeros + 1) byte }
{
    TABLES[zeros][byte as usize]
}

/// One byte goes in.
fn next(crc: u32, byte: u8) -> u32
    ensures { result ≡ byte_step crc byte }
{
    let [low, ..] = crc.to_le_bytes();
    moved(0, low ^ byte) ^ (crc >> 8)
}

/// What four bytes and twelve zero bytes behind them make of the checksum.
fn near(crc: u32, bytes: &[u8; 16]) -> u32
    ensures { result ≡ zero_bytes 12 (fold byte_step crc (take 4 bytes.now)) }
{
    let low = crc.to_le_bytes();
    (moved(15, low[0] ^ bytes[0]) ^ moved(14, low[1] ^ bytes[1]))
        ^ (moved(13, low[2] ^ bytes[2]) ^ moved(12, low[3] ^ bytes[3]))
}

/// What the other twelve bytes make of nothing before them.
fn far(bytes: &[u8; 16]) -> u32
    ensures { result ≡ fold byte_step 0 (drop 4 bytes.now) }
{
    moved(11, bytes[4])
        ^ moved(10, bytes[5])
        ^ moved(9, bytes[6])
        ^ moved(8, bytes[7])
        ^ moved(7, bytes[8])
        ^ moved(6, bytes[9])
        ^ moved(5, bytes[10])
        ^ moved(4, bytes[11])
        ^ moved(3, bytes[12])
        ^ moved(2, bytes[13])
        ^ moved(1, bytes[14])
        ^ moved(0, bytes[15])
}

/// Sixteen bytes go in. The look-ups that wait for the sum before come last.
fn next_sixteen(crc: u32, bytes: &[u8; 16]) -> u32
    ensures { result ≡ fold byte_step crc bytes.now }
{
    far(bytes) ^ near(crc, bytes)
}

/// Bytes go in one by one.
fn next_each(mut crc: u32, bytes: &[u8]) -> u32
    ensures { result ≡ fold byte_step crc bytes.now }
{
    for byte in bytes {
        crc = next(crc, *byte);
    }
    crc
}

/// The CRC-32 of the bytes.
pub fn crc32(bytes: &[u8]) -> u32
    ensures { result ≡ crc_of bytes.now }
{
    let (blocks, rest) = bytes.as_chunks::<16>();
    let mut crc = 0xffff_ffff_u32;
    for block in blocks {
        crc = next_sixteen(crc, block);
    }
    next_each(crc, rest) ^ 0xffff_ffff
}
