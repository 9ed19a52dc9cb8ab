//! The front of a delivery's frame, so that a chunk's own bytes follow it without a copy.

ghost use Rattle.std.specs.Prelude.{◌≡◌, ◌≤◌, ◌++◌, ℕ, List, None, Some, length, OnOk, OnErr};
ghost use Rattle.frame_wire.specs.Fields.{u8_bytes, u64_bytes};
ghost use Rattle.frame_wire.specs.Frames.{frame};
ghost use Rattle.chunk_format.specs.Chunks.{header_bytes};
ghost use Rattle.command_fields.specs.Adding.{Adds};
ghost use Rattle.command_fields.specs.Tables.{body_of};
ghost use Rattle.command_data.specs.Commands.{data_table};
ghost use Rattle.command_data.specs.Deliveries.{delivery_of, delivery_head};

use chunk_format::Header;
use frame_wire::{Octets, put_u8, put_u16, put_u32, put_u64};
use std::alloc::AllocError;

fn put_first(out: &mut Octets, sub: u8, payload_len: u32) -> Result<(), AllocError>
    requires { payload_len ≤ 4294967234 }
    ensures { Adds result out.old out.new (delivery_head sub None payload_len) }
{
    put_u32(out, 53 + payload_len)?;
    put_u16(out, 0x0008)?;
    put_u16(out, 1)?;
    put_u8(out, sub)
}

fn put_id(out: &mut Octets, sub: u8, committed: u64) -> Result<(), AllocError>
    ensures { Adds result out.old out.new (u8_bytes sub ++ u64_bytes committed) }
{
    put_u8(out, sub)?;
    put_u64(out, committed)
}

fn put_second(out: &mut Octets, sub: u8, committed: u64, payload_len: u32) -> Result<(), AllocError>
    requires { payload_len ≤ 4294967234 }
    ensures { Adds result out.old out.new (delivery_head sub (Some committed) payload_len) }
{
    put_u32(out, 61 + payload_len)?;
    put_u16(out, 0x0008)?;
    put_u16(out, 2)?;
    put_id(out, sub, committed)
}

fn put_head(
    out: &mut Octets,
    sub: u8,
    committed: Option<u64>,
    payload_len: u32,
) -> Result<(), AllocError>
    requires { payload_len ≤ 4294967234 }
    ensures { Adds result out.old out.new (delivery_head sub committed payload_len) }
{
    match committed {
        None => put_first(out, sub, payload_len),
        Some(committed) => put_second(out, sub, committed, payload_len),
    }
}

/// Adds what stands in a delivery's frame before the chunk: the size of the body, key, version, subscription and, with a
/// committed offset, that offset; then the version is 2, else 1. The chunk's 48 header bytes and its payload behind it make
/// the whole frame. It fails for want of memory alone, and leaves the bytes as they were. The payload's length is at most
/// 4,294,967,234, so that a frame holds it.
pub fn put_delivery_head(
    out: &mut Octets,
    sub: u8,
    committed: Option<u64>,
    header: &Header,
) -> Result<(), AllocError>
    requires { header.now.payload_len ≤ 4294967234 }
    ensures ok { OnOk result ((payload : List ℕ) → length payload ≡ header.now.payload_len → out.new ++ (header_bytes header.now ++ payload) ≡ out.old ++ frame (body_of data_table (delivery_of sub committed header.now payload))) }
    ensures err { OnErr result (out.new ≡ out.old) }
{
    let before = out.len();
    match put_head(out, sub, committed, header.payload_len) {
        Ok(()) => Ok(()),
        Err(refused) => {
            out.cut(before);
            Err(refused)
        }
    }
}
