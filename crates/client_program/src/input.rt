//! The input, which is read to its end before any of it is looked at.

ghost use Rattle.std.specs.Prelude.{◌≡◌, ◌≤◌, length, Err};
ghost use Rattle.outside_io.specs.Causes.{HasCause};
ghost use Rattle.client_program.specs.Inputs.{Takes, Holds, most_input};

use frame_wire::Octets;
use outside_io::{Source, Took};
use std::alloc::Global;

/// The most bytes that are taken of the input.
const MOST_INPUT: usize = 268_435_456;

/// Why the input was not read to its end.
#[derive(Clone, Copy, Debug, PartialEq, Eq)]
pub enum InputFault {
    /// A read failed.
    Read,
    /// It has more than 268,435,456 bytes.
    TooLong,
    Memory,
}

/// Keeps a piece behind the bytes that there are.
fn hold(text: &mut Octets, piece: &[u8]) -> Result<(), InputFault>
    requires within { length text.old ≤ most_input }
    requires piece { length piece.now ≤ 16384 }
    ensures { Holds result piece.now text.old text.new }
{
    if text.len() + piece.len() > MOST_INPUT {
        return Err(InputFault::TooLong);
    }
    match text.push_slice(piece) {
        Ok(()) => Ok(()),
        Err(_) => Err(InputFault::Memory),
    }
}

/// All bytes of an input.
pub(crate) fn read_input<S: Source>(alloc: Global, input: &mut S) -> Result<Octets, InputFault>
    ensures takes { Takes result (S.left input.old) (S.left input.new) }
    ensures cause { HasCause (S.faults input.old) (S.faults input.new) (result ≡ Err InputFault.Read) }
{
    let mut text = Octets::new(alloc);
    let mut buf = [0u8; 16_384];
    'pieces: loop {
        match input.read(&mut buf) {
            Took::Failed => return Err(InputFault::Read),
            Took::End => return Ok(text),
            Took::Got(count) => match hold(&mut text, &buf[..count]) {
                Ok(()) => {}
                Err(fault) => return Err(fault),
            },
        }
    }
}
