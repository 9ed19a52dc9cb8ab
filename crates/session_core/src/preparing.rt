//! Sessions whose connection is open from the start. After want of memory there is no session, and the hub has only gone on.

ghost use Rattle.std.specs.Prelude.{◌≡◌};
ghost use Rattle.session_core.specs.Preparing.{Prepares};

use crate::publishing::keep;
use frame_wire::Text;
use hub_terms::{DeclareFault, Found, Hub};
use session_tables::{Stage, Tables, bytes_of};

/// Why a session was not prepared.
#[derive(Clone, Copy, Debug, PartialEq, Eq)]
pub enum PrepareFault {
    /// There is no such stream.
    Missing,
    /// No epoch runs with an open leader, or the last pass was given.
    Closed,
    /// There was not enough memory.
    Memory,
}

/// Opens the connection, and declares publisher 0 without a reference.
pub(crate) fn prepare<H: Hub>(
    tables: &mut Tables,
    hub: &mut H,
    stream: &Text,
) -> Result<(), PrepareFault>
    ensures ok { Prepares H.meaning tables.old stream.now result tables.new hub.old hub.new }
    ensures later { H.meaning.seen.later hub.old hub.new }
{
    let number = match hub.find(bytes_of(stream)) {
        Found::Missing => return Err(PrepareFault::Missing),
        Found::Closed { stream: _ } => return Err(PrepareFault::Closed),
        Found::Running {
            stream: number,
            epoch: _,
        } => number,
    };
    let none = Text::null();
    match hub.declare(tables.number, number, &none) {
        Ok(pass) => {
            tables.stage = Stage::Open;
            match keep(tables, 0, pass, &none, stream) {
                Ok(()) => Ok(()),
                Err(_) => Err(PrepareFault::Memory),
            }
        }
        Err(DeclareFault::Closed) => Err(PrepareFault::Closed),
        Err(DeclareFault::Memory) => Err(PrepareFault::Memory),
    }
}
