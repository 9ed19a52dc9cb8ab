//! Writing fields at the end of a list of bytes. After an error the list is as it was.

ghost use Rattle.std.specs.Prelude.{◌≡◌, ◌++◌, OnOk, OnErr};
ghost use Rattle.std.specs.Option.{option_copied};
ghost use Rattle.frame_wire.specs.Fields.{u8_bytes, u16_bytes, u32_bytes, u64_bytes, i64_bytes, text_bytes, blob_bytes, IsBlob};

use crate::octets::Octets;
use crate::text::Text;
use std::alloc::AllocError;

/// Adds one byte.
#[tactic(auto, unfolding(crate::specs::Fields::u8_bytes))]
pub fn put_u8(out: &mut Octets, value: u8) -> Result<(), AllocError>
    ensures ok { OnOk result (out.new ≡ out.old ++ u8_bytes value) }
    ensures err { OnErr result (out.new ≡ out.old) }
{
    out.push_slice(&[value])
}

/// Adds the two bytes of a number, the high one first.
#[tactic(auto, unfolding(crate::specs::Fields::u16_bytes))]
pub fn put_u16(out: &mut Octets, value: u16) -> Result<(), AllocError>
    ensures ok { OnOk result (out.new ≡ out.old ++ u16_bytes value) }
    ensures err { OnErr result (out.new ≡ out.old) }
{
    let bytes: [u8; 2] = value.to_be_bytes();
    out.push_slice(&bytes)
}

/// Adds the four bytes of a number, the high one first.
#[tactic(auto, unfolding(crate::specs::Fields::u32_bytes))]
pub fn put_u32(out: &mut Octets, value: u32) -> Result<(), AllocError>
    ensures ok { OnOk result (out.new ≡ out.old ++ u32_bytes value) }
    ensures err { OnErr result (out.new ≡ out.old) }
{
    let bytes: [u8; 4] = value.to_be_bytes();
    out.push_slice(&bytes)
}

/// Adds the eight bytes of a number, the high one first.
#[tactic(auto, unfolding(crate::specs::Fields::u64_bytes))]
pub fn put_u64(out: &mut Octets, value: u64) -> Result<(), AllocError>
    ensures ok { OnOk result (out.new ≡ out.old ++ u64_bytes value) }
    ensures err { OnErr result (out.new ≡ out.old) }
{
    let bytes: [u8; 8] = value.to_be_bytes();
    out.push_slice(&bytes)
}

/// Adds the eight bytes of a signed number in two's complement, the high one first.
#[tactic(auto, unfolding(crate::specs::Fields::i64_bytes))]
pub fn put_i64(out: &mut Octets, value: i64) -> Result<(), AllocError>
    ensures ok { OnOk result (out.new ≡ out.old ++ i64_bytes value) }
    ensures err { OnErr result (out.new ≡ out.old) }
{
    let bytes: [u8; 8] = value.to_be_bytes();
    out.push_slice(&bytes)
}

/// Adds two bytes of length, -1 for null, and the bytes.
pub fn put_text(out: &mut Octets, value: &Text) -> Result<(), AllocError>
    ensures ok { OnOk result (out.new ≡ out.old ++ text_bytes value.now) }
    ensures err { OnErr result (out.new ≡ out.old) }
{
    match value.get() {
        None => put_u16(out, 65535),
        Some(bytes) => {
            let before = out.len();
            put_u16(out, bytes.len() as u16)?;
            match out.push_slice(bytes) {
                Ok(()) => Ok(()),
                Err(refused) => {
                    out.cut(before);
                    Err(refused)
                }
            }
        }
    }
}

/// Adds four bytes of length, -1 for null, and the bytes, of which there are at most 2,147,483,647.
pub fn put_blob(out: &mut Octets, value: Option<&[u8]>) -> Result<(), AllocError>
    requires { IsBlob (option_copied value) }
    ensures ok { OnOk result (out.new ≡ out.old ++ blob_bytes (option_copied value.entry)) }
    ensures err { OnErr result (out.new ≡ out.old) }
{
    match value {
        None => put_u32(out, 4_294_967_295),
        Some(bytes) => {
            let before = out.len();
            put_u32(out, bytes.len() as u32)?;
            match out.push_slice(bytes) {
                Ok(()) => Ok(()),
                Err(refused) => {
                    out.cut(before);
                    Err(refused)
                }
            }
        }
    }
}
