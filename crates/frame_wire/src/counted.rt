//! The bytes at the front of bytes that have their length first, if a whole field of them stands there.

ghost use Rattle.std.specs.Option.{option_copied};
ghost use Rattle.frame_wire.specs.Formats.{FindsBy, text_field, blob_field};

use crate::fault::FieldFault;
use crate::number::{first_u16, first_u32};

/// The text at the front of bytes that begin at this place, and the length of its field.
pub(crate) fn first_text(bytes: &[u8], place: usize) -> Result<(Option<&[u8]>, usize), FieldFault>
    ensures { FindsBy text_field option_copied result (record { at = place; rest = bytes.now }) }
{
    let Some(len) = first_u16(bytes) else {
        return Err(FieldFault::Short { place });
    };
    if len == 65535 {
        return Ok((None, 2));
    }
    if len > 32767 {
        return Err(FieldFault::Negative { place });
    }
    let len = len as usize;
    if bytes.len() - 2 < len {
        return Err(FieldFault::Short { place });
    }
    Ok((Some(&bytes[2..2 + len]), 2 + len))
}

/// The blob at the front of bytes that begin at this place, and the length of its field.
pub(crate) fn first_blob(bytes: &[u8], place: usize) -> Result<(Option<&[u8]>, usize), FieldFault>
    ensures { FindsBy blob_field option_copied result (record { at = place; rest = bytes.now }) }
{
    let Some(len) = first_u32(bytes) else {
        return Err(FieldFault::Short { place });
    };
    if len == 4_294_967_295 {
        return Ok((None, 4));
    }
    if len > 2_147_483_647 {
        return Err(FieldFault::Negative { place });
    }
    let len = len as usize;
    if bytes.len() - 4 < len {
        return Err(FieldFault::Short { place });
    }
    Ok((Some(&bytes[4..4 + len]), 4 + len))
}
