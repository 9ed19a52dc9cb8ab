//! Numbers at places of bytes.

ghost use Rattle.std.specs.Prelude.{◌≡◌, ◌+◌, ◌≤◌, ◌++◌, length, drop};
ghost use Rattle.frame_wire.specs.Fields.{u16_bytes, u32_bytes, u64_bytes, i64_bytes};

use frame_wire::Scan;

/// The number of two bytes at a place.
pub fn u16_at(bytes: &[u8], place: usize) -> u16
    requires { place + 2 ≤ length bytes.now }
    ensures { drop place bytes.now ≡ u16_bytes result ++ drop (place + 2) bytes.now }
{
    let mut scan = Scan::new(&bytes[place..]);
    match scan.u16() {
        Ok(value) => value,
        Err(_) => unreachable!(),
    }
}

/// The number of four bytes at a place.
pub fn u32_at(bytes: &[u8], place: usize) -> u32
    requires { place + 4 ≤ length bytes.now }
    ensures { drop place bytes.now ≡ u32_bytes result ++ drop (place + 4) bytes.now }
{
    let mut scan = Scan::new(&bytes[place..]);
    match scan.u32() {
        Ok(value) => value,
        Err(_) => unreachable!(),
    }
}

/// The number of eight bytes at a place.
pub fn u64_at(bytes: &[u8], place: usize) -> u64
    requires { place + 8 ≤ length bytes.now }
    ensures { drop place bytes.now ≡ u64_bytes result ++ drop (place + 8) bytes.now }
{
    let mut scan = Scan::new(&bytes[place..]);
    match scan.u64() {
        Ok(value) => value,
        Err(_) => unreachable!(),
    }
}

/// The signed number of eight bytes at a place.
pub fn i64_at(bytes: &[u8], place: usize) -> i64
    requires { place + 8 ≤ length bytes.now }
    ensures { drop place bytes.now ≡ i64_bytes result ++ drop (place + 8) bytes.now }
{
    let mut scan = Scan::new(&bytes[place..]);
    match scan.i64() {
        Ok(value) => value,
        Err(_) => unreachable!(),
    }
}
