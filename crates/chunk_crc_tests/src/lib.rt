//! Tests of `chunk_crc`: sums that zlib gives.
#![tactic(auto)]

#[cfg(test)]
mod known;
