//! The end of a body.

ghost use Rattle.std.specs.Prelude.{◌≡◌};
ghost use Rattle.command_fields.specs.Tables.{end_at};

use crate::fault::DecodeFault;
use frame_wire::Scan;

/// Refuses bytes behind the last field: `Long` at the first of them.
pub fn ended(scan: &Scan<'_>) -> Result<(), DecodeFault>
    ensures { result ≡ end_at scan.now }
{
    if scan.rest().is_empty() {
        Ok(())
    } else {
        Err(DecodeFault::Long {
            place: scan.place(),
        })
    }
}
