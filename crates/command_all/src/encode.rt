//! Writes commands and frames.

ghost use Rattle.std.specs.Prelude.{◌≡◌, ◌↔◌, ◌++◌, IsTrue, OnOk, OnErr, IfOk};
ghost use Rattle.command_fields.specs.Sizes.{MeasuresIn};
ghost use Rattle.command_fields.specs.Tables.{FitsIn, body_of};
ghost use Rattle.command_all.specs.Commands.{command_table, layout_of, key_of, frame_of, Spells, IsFrame};

use crate::command::Command;
use command_admin::{admin_size, put_admin};
use command_data::{data_size, put_data};
use frame_wire::{Octets, put_u32};
use std::alloc::{AllocError, Global};

impl Command {
    /// The key that begins the command's body.
    pub fn key(&self) -> u16
        ensures { result ≡ (layout_of (key_of self.now)).code }
    {
        match self {
            Command::Data(command) => command.key(),
            Command::Admin(command) => command.key(),
        }
    }
}

/// The length of the command's body in bytes, at most 4,294,967,295. `None` exactly where the command has no spelling in a
/// body that a frame holds.
pub fn body_size(command: &Command) -> Option<u64>
    ensures { MeasuresIn command_table command.now result }
{
    match command {
        Command::Data(command) => data_size(command),
        Command::Admin(command) => admin_size(command),
    }
}

/// Whether the command has a spelling in a body of at most 4,294,967,295 bytes.
pub fn fits(command: &Command) -> bool
    ensures { IsTrue result ↔ FitsIn command_table command.now }
{
    body_size(command).is_some()
}

/// Adds the body of a command that `fits`: key, version and fields. It fails for want of memory alone, and leaves the
/// bytes as they were.
pub fn put_command(out: &mut Octets, command: &Command) -> Result<(), AllocError>
    requires { FitsIn command_table command.now }
    ensures ok { OnOk result (out.new ≡ out.old ++ body_of command_table command.now) }
    ensures err { OnErr result (out.new ≡ out.old) }
{
    match command {
        Command::Data(command) => put_data(out, command),
        Command::Admin(command) => put_admin(out, command),
    }
}

/// The body of a command that `fits`. It fails for want of memory alone.
pub fn encode_command(alloc: Global, command: &Command) -> Result<Octets, AllocError>
    requires { FitsIn command_table command.now }
    ensures { IfOk result (λ body. Spells command.now body) }
{
    let mut out = Octets::new(alloc);
    put_command(&mut out, command)?;
    Ok(out)
}

/// Adds the frame of a command that `fits`: the size of its body in four bytes, and the body, each byte once. It fails for
/// want of memory alone, and leaves the bytes as they were.
pub fn put_frame(out: &mut Octets, command: &Command) -> Result<(), AllocError>
    requires { FitsIn command_table command.now }
    ensures ok { OnOk result (out.new ≡ out.old ++ frame_of command.now) }
    ensures err { OnErr result (out.new ≡ out.old) }
{
    let size = body_size(command).unwrap();
    let before = out.len();
    put_u32(out, size as u32)?;
    match put_command(out, command) {
        Ok(()) => Ok(()),
        Err(refused) => {
            out.cut(before);
            Err(refused)
        }
    }
}

/// The frame of a command that `fits`. It fails for want of memory alone.
pub fn frame(alloc: Global, command: &Command) -> Result<Octets, AllocError>
    requires { FitsIn command_table command.now }
    ensures { IfOk result (λ bytes. IsFrame command.now bytes) }
{
    let mut out = Octets::new(alloc);
    put_frame(&mut out, command)?;
    Ok(out)
}
