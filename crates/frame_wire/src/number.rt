//! The number at the front of bytes, if a whole one stands there.

ghost use Rattle.std.specs.Prelude.{◌≡◌, IfSome};
ghost use Rattle.std.specs.Int.{w8, w16, w32, w64};
ghost use Rattle.frame_wire.specs.Fields.{u8_bytes, u16_bytes, u32_bytes, u64_bytes};
ghost use Rattle.frame_wire.specs.Reading.{StandsFirst, number_of};

#[tactic(auto, unfolding(crate::specs::Fields::u8_bytes))]
pub(crate) fn first_u8(bytes: &[u8]) -> Option<u8>
    ensures stands { StandsFirst u8_bytes 1 bytes.now result }
    ensures value { IfSome result (λ n. n ≡ number_of w8 bytes.now) }
{
    if bytes.len() < 1 {
        return None;
    }
    Some(bytes[0])
}

#[tactic(auto, unfolding(crate::specs::Fields::u16_bytes))]
pub(crate) fn first_u16(bytes: &[u8]) -> Option<u16>
    ensures stands { StandsFirst u16_bytes 2 bytes.now result }
    ensures value { IfSome result (λ n. n ≡ number_of w16 bytes.now) }
{
    if bytes.len() < 2 {
        return None;
    }
    let value = u16::from_be_bytes([bytes[0], bytes[1]]);
    Some(value)
}

#[inline]
#[tactic(auto, unfolding(crate::specs::Fields::u32_bytes))]
pub(crate) fn first_u32(bytes: &[u8]) -> Option<u32>
    ensures stands { StandsFirst u32_bytes 4 bytes.now result }
    ensures value { IfSome result (λ n. n ≡ number_of w32 bytes.now) }
{
    if bytes.len() < 4 {
        return None;
    }
    let value = u32::from_be_bytes([bytes[0], bytes[1], bytes[2], bytes[3]]);
    Some(value)
}

#[tactic(auto, unfolding(crate::specs::Fields::u64_bytes))]
pub(crate) fn first_u64(bytes: &[u8]) -> Option<u64>
    ensures stands { StandsFirst u64_bytes 8 bytes.now result }
    ensures value { IfSome result (λ n. n ≡ number_of w64 bytes.now) }
{
    if bytes.len() < 8 {
        return None;
    }
    let value = u64::from_be_bytes([
        bytes[0], bytes[1], bytes[2], bytes[3], bytes[4], bytes[5], bytes[6], bytes[7],
    ]);
    Some(value)
}
