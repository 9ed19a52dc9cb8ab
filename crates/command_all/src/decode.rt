//! Reads commands.

ghost use Rattle.std.specs.Prelude.{◌≡◌, IfOk};
ghost use Rattle.command_fields.specs.declared.fault.DecodeFault.{DecodeFault};
ghost use Rattle.command_fields.specs.Faults.{Gives, GivesOr, RefusesOr, IfFault};
ghost use Rattle.command_fields.specs.Tables.{command_at};
ghost use Rattle.command_all.specs.declared.command.Command.{Command};
ghost use Rattle.command_all.specs.Commands.{command_table, data_key_at, Spells, Wrong};

use crate::command::Command;
use command_admin::decode_admin;
use command_data::{DataKey, data_key_of, decode_data};
use command_fields::DecodeError;
use frame_wire::Scan;
use std::alloc::Global;

/// The key of a data command at the front of a body, if one stands there.
fn data_key(body: &[u8]) -> Option<DataKey>
    ensures { result ≡ data_key_at body.now }
{
    let mut scan = Scan::new(body);
    match scan.u16() {
        Ok(code) => data_key_of(code),
        Err(_) => None,
    }
}

/// Reads a body by the half of the commands that has its key.
fn read_body(alloc: Global, body: &[u8]) -> Result<Command, DecodeError>
    ensures { Gives result (command_at command_table body.now) }
{
    match data_key(body) {
        Some(_) => match decode_data(alloc, body) {
            Ok(command) => Ok(Command::Data(command)),
            Err(error) => Err(error),
        },
        None => match decode_admin(alloc, body) {
            Ok(command) => Ok(Command::Admin(command)),
            Err(error) => Err(error),
        },
    }
}

/// The command that a body spells, all of the body: two bytes of key, two of version, which is 1, or for a delivery 1 or
/// 2, and the fields. Else the first wrong field with its place in bytes: `UnknownKey` at 0 for a key of no command,
/// `Version` at 2, `Short`, `Negative`, `Flag` and `OffsetType` at the field's first byte, and `Long` at the first byte
/// behind the last field.
pub fn decode_command(alloc: Global, body: &[u8]) -> Result<Command, DecodeError>
    // What is read is spelled so.
    ensures found { IfOk result (λ c. Spells c body.now) }
    // What is spelled so is read, unless memory runs out.
    ensures only { (c : Command) → Spells c body.now → GivesOr result c }
    // The fault is that of the first wrong field.
    ensures told { IfFault result (Wrong body.now) }
    // Where a field is wrong first, that is the answer, unless memory runs out.
    ensures refused { (fault : DecodeFault) → Wrong body.now fault → RefusesOr result fault }
{
    read_body(alloc, body)
}
