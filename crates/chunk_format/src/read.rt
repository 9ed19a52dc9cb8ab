//! Reads headers.

ghost use Rattle.std.specs.Prelude.{◌≡◌, ◌≤◌, ◌++◌, length, drop, MatchOption, MatchResult};
ghost use Rattle.frame_wire.specs.Fields.{u32_bytes};
ghost use Rattle.chunk_format.specs.Chunks.{kind_code, kind_bytes};
ghost use Rattle.chunk_format.specs.Faults.{HeaderStands, HeaderWrong};

use crate::chunk::{ChunkKind, Header};
use crate::fault::ChunkFault;
use crate::fields::{i64_at, u16_at, u32_at, u64_at};

fn kind_of(code: u8) -> Option<ChunkKind>
    ensures { MatchOption result (3 ≤ code) (λ kind. code ≡ kind_code kind) }
{
    match code {
        0 => Some(ChunkKind::User),
        1 => Some(ChunkKind::Delta),
        2 => Some(ChunkKind::Snapshot),
        _ => None,
    }
}

/// The numbers of a header whose first two and last four bytes are right.
fn read_numbers(bytes: &[u8], kind: ChunkKind) -> Header
    requires long { 48 ≤ length bytes.now }
    requires kind { bytes.now ≡ kind_bytes kind ++ drop 2 bytes.now }
    requires reserved { drop 44 bytes.now ≡ u32_bytes 0 ++ drop 48 bytes.now }
    ensures { HeaderStands result bytes.now }
{
    Header {
        kind,
        entries: u16_at(bytes, 2),
        records: u32_at(bytes, 4),
        stamp: i64_at(bytes, 8),
        epoch: u64_at(bytes, 16),
        first: u64_at(bytes, 24),
        crc: u32_at(bytes, 32),
        payload_len: u32_at(bytes, 36),
        trailer_len: u32_at(bytes, 40),
    }
}

impl Header {
    /// Reads the header at the front of the bytes. It refuses, in this order: `Short` where there
    /// are fewer than 48 bytes, `Magic`, `Version`, `Kind`, and `Reserved`.
    pub fn read(bytes: &[u8]) -> Result<Header, ChunkFault>
        ensures { MatchResult result (λ h. HeaderStands h bytes.now) (λ fault. HeaderWrong bytes.now fault) }
    {
        if bytes.len() < 48 {
            return Err(ChunkFault::Short { place: bytes.len() });
        }
        if bytes[0] / 16 != 5 {
            return Err(ChunkFault::Magic { place: 0 });
        }
        if bytes[0] % 16 != 0 {
            return Err(ChunkFault::Version { place: 0 });
        }
        let Some(kind) = kind_of(bytes[1]) else {
            return Err(ChunkFault::Kind { place: 1 });
        };
        if u32_at(bytes, 44) != 0 {
            return Err(ChunkFault::Reserved { place: 44 });
        }
        Ok(read_numbers(bytes, kind))
    }
}
