//! Where a subscription begins.

ghost use Rattle.std.specs.Prelude.{◌≡◌, ◌++◌, OnOk, OnErr};
ghost use Rattle.frame_wire.specs.Formats.{ReadsBy};
ghost use Rattle.command_fields.specs.Offsets.{spec_field, spec_bytes, spec_at, ReadsSpec};

use crate::fault::DecodeFault;
use frame_wire::{Octets, Scan, put_i64, put_u16, put_u64};
use std::alloc::AllocError;

/// The protocol's offset specification, in Subscribe: where in a stream a subscription begins.
#[derive(Clone, Copy, Debug, PartialEq, Eq)]
pub enum OffsetSpec {
    /// No place is named, which a server takes as `Next`. Type 0.
    Unset,
    /// At the first offset. Type 1.
    First,
    /// At the first offset of the last chunk. Type 2.
    Last,
    /// Behind the last message. Type 3.
    Next,
    /// At this offset. Type 4, and the offset in eight bytes.
    At(u64),
    /// At the first chunk of this time or later, in milliseconds since 1970. Type 5, and the time in eight bytes.
    Since(i64),
}

impl OffsetSpec {
    /// Reads one from the front of a scan. It is one field: each fault names its first byte. The fault is `Short` where
    /// the two bytes of the type, or the eight behind type 4 or 5, are not whole, and `OffsetType` where the type is
    /// above 5. After a fault the scan stands where it stood.
    pub fn read(scan: &mut Scan<'_>) -> Result<OffsetSpec, DecodeFault>
        ensures spelled { ReadsBy spec_field (λ x. x) result scan.old scan.new }
        ensures read { ReadsSpec result scan.old scan.new (spec_at scan.old) }
    {
        let start = scan.fork();
        match scan.u16()? {
            0 => Ok(OffsetSpec::Unset),
            1 => Ok(OffsetSpec::First),
            2 => Ok(OffsetSpec::Last),
            3 => Ok(OffsetSpec::Next),
            4 => match scan.u64() {
                Ok(offset) => Ok(OffsetSpec::At(offset)),
                Err(_) => {
                    let place = start.place();
                    *scan = start;
                    Err(DecodeFault::Short { place })
                }
            },
            5 => match scan.i64() {
                Ok(time) => Ok(OffsetSpec::Since(time)),
                Err(_) => {
                    let place = start.place();
                    *scan = start;
                    Err(DecodeFault::Short { place })
                }
            },
            _ => {
                let place = start.place();
                *scan = start;
                Err(DecodeFault::OffsetType { place })
            }
        }
    }

    /// Adds the two bytes of the type and the eight behind it, if it has them. After an error the list is as it was.
    pub fn put(&self, out: &mut Octets) -> Result<(), AllocError>
        ensures ok { OnOk result (out.new ≡ out.old ++ spec_bytes self.now) }
        ensures err { OnErr result (out.new ≡ out.old) }
    {
        let before = out.len();
        match *self {
            OffsetSpec::Unset => put_u16(out, 0),
            OffsetSpec::First => put_u16(out, 1),
            OffsetSpec::Last => put_u16(out, 2),
            OffsetSpec::Next => put_u16(out, 3),
            OffsetSpec::At(offset) => {
                put_u16(out, 4)?;
                match put_u64(out, offset) {
                    Ok(()) => Ok(()),
                    Err(refused) => {
                        out.cut(before);
                        Err(refused)
                    }
                }
            }
            OffsetSpec::Since(time) => {
                put_u16(out, 5)?;
                match put_i64(out, time) {
                    Ok(()) => Ok(()),
                    Err(refused) => {
                        out.cut(before);
                        Err(refused)
                    }
                }
            }
        }
    }
}
