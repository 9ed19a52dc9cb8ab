//! The checksum of a chunk: the CRC-32 of IEEE 802.3.
#![tactic(auto)]

mod crc;
mod tables;

pub use crc::crc32;
