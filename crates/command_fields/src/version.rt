//! The version of a command.

ghost use Rattle.std.specs.Prelude.{◌≡◌, OnErr};
ghost use Rattle.command_fields.specs.Tables.{version_at};
ghost use Rattle.command_fields.specs.Faults.{GivesAt};

use crate::fault::{DecodeError, DecodeFault};
use frame_wire::Scan;

/// Reads the two bytes of a version, which is 1. After an error the scan stands where it stood.
pub fn read_version(scan: &mut Scan<'_>) -> Result<(), DecodeError>
    ensures read { GivesAt result scan.new (version_at scan.old) }
    ensures err { OnErr result (scan.new ≡ scan.old) }
{
    let start = scan.fork();
    if scan.u16()? == 1 {
        Ok(())
    } else {
        let place = start.place();
        *scan = start;
        Err(DecodeError::Fault(DecodeFault::Version { place }))
    }
}
