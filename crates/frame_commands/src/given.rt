//! Reads whole frames off the front of bytes.

ghost use Rattle.std.specs.Prelude.{◌≡◌, ◌++◌, List, ℕ, Ok, None, IfOk, IfSome};
ghost use Rattle.command_data.specs.declared.command.DataCommand.{DataCommand};
ghost use Rattle.frame_commands.specs.Fronts.{StandsFirst, Adds};
ghost use Rattle.frame_commands.specs.Given.{CommandsOf};

use command_data::{DataCommand, decode_data};
use command_fields::DecodeError;
use frame_wire::{Octets, Row, Scan};
use std::alloc::{AllocError, Global};

/// The commands of whole frames, in order, and the bytes behind the last of them.
#[derive(Debug, Drop)]
pub struct Given {
    pub commands: Row<DataCommand>,
    /// They begin no whole frame, and no frame above the greatest size.
    pub rest: Octets,
}

/// What stands at the front of bytes.
#[derive(Clone, Copy)]
enum Front<'a> {
    /// A whole frame, and the bytes behind it.
    Frame { body: &'a [u8], behind: &'a [u8] },
    /// Less than a whole frame, and no size above the greatest.
    Partial,
    /// A size above the greatest.
    TooLarge,
}

/// What stands at the front of bytes, where a body has at most `max` bytes.
fn front_of(max: u32, bytes: &[u8]) -> Front<'_>
    ensures { StandsFirst max bytes.now result }
{
    let mut scan = Scan::new(bytes);
    let Ok(size) = scan.u32() else {
        return Front::Partial;
    };
    if size > max {
        return Front::TooLarge;
    }
    let len = size as usize;
    let behind_size = scan.rest();
    if behind_size.len() < len {
        return Front::Partial;
    }
    let (body, behind) = behind_size.split_at(len);
    Front::Frame { body, behind }
}

/// Adds the command of a body, or answers that it spells none.
fn add_command(
    alloc: Global,
    body: &[u8],
    commands: &mut Row<DataCommand>,
) -> Result<bool, AllocError>
    ensures { IfOk result (Adds body.now commands.old commands.new) }
{
    match decode_data(alloc, body) {
        Ok(command) => match commands.push(command) {
            Ok(()) => Ok(true),
            Err(_) => Err(AllocError),
        },
        Err(DecodeError::Fault(_)) => Ok(false),
        Err(DecodeError::Memory) => Err(AllocError),
    }
}

/// Reads all the whole frames.
fn read_frames(alloc: Global, max: u32, bytes: &[u8]) -> Result<Option<Given>, AllocError>
    ensures found { IfOk result (λ answer. IfSome answer (λ g. CommandsOf max bytes.now g.commands g.rest)) }
    ensures none { result ≡ Ok None → ((commands : List DataCommand) (rest : List ℕ) → CommandsOf max bytes.now commands rest → ⊥) }
{
    let mut commands = Row::new(alloc);
    let mut left = bytes;
    'frames: loop {
        match front_of(max, left) {
            Front::TooLarge => return Ok(None),
            Front::Partial => {
                let rest = Octets::copy(alloc, left)?;
                return Ok(Some(Given { commands, rest }));
            }
            Front::Frame { body, behind } => {
                let is_spelled = add_command(alloc, body, &mut commands)?;
                if !is_spelled {
                    return Ok(None);
                }
                left = behind;
            }
        }
    }
}

/// Reads the frames of the bytes that were held back and of a piece behind them, each of at most `max` bytes of body.
/// `None` exactly where they aren't whole frames that each spell a data command, and then a rest that begins no whole
/// frame: where a body spells none, or a size above `max` stands in a frame's place. It takes memory for its answer.
pub fn read_commands(
    alloc: Global,
    max: u32,
    held: &[u8],
    piece: &[u8],
) -> Result<Option<Given>, AllocError>
    ensures found { IfOk result (λ answer. IfSome answer (λ g. CommandsOf max (held.now ++ piece.now) g.commands g.rest)) }
    ensures none { result ≡ Ok None → ((commands : List DataCommand) (rest : List ℕ) → CommandsOf max (held.now ++ piece.now) commands rest → ⊥) }
{
    let mut bytes = Octets::copy(alloc, held)?;
    bytes.push_slice(piece)?;
    read_frames(alloc, max, bytes.as_slice())
}
