ghost use Rattle.std.specs.Prelude.{◌≡◌, ◌↔◌, Ok, None, IsTrue, OnOk, OnErr, IfOk, IfSome};
ghost use Rattle.frame_wire.specs.Frames.{BeginsFrame};
ghost use Rattle.command_reader.specs.States.{ReaderState, IsEnded, Takes, Gives, new_reader};
ghost use Rattle.command_reader.specs.declared.reader.Next.TheVariants.{Unspelt};

use crate::pending::{Front, Pending};
use command_all::{Command, decode_command};
use command_fields::{DecodeError, DecodeFault};
use std::alloc::{AllocError, Global};
use std::marker::Model;

/// The greatest size of a frame that a server takes, in bytes of its body.
pub const SERVER_FRAME_MAX: u32 = 1_048_576;

/// The greatest size of a frame that a client takes: a delivery may be above what a server takes.
pub const CLIENT_FRAME_MAX: u32 = 2_097_152;

/// What stands next in the bytes of a peer.
#[derive(Debug, Drop)]
pub enum Next {
    /// A command.
    Command(Command),
    /// A frame that no command spells, with its first wrong field. Every later answer is this one.
    Unspelt { fault: DecodeFault },
    /// A size above the greatest in a frame's place. Every later answer is this one.
    TooLarge { size: u32 },
    /// Less than a whole frame, or nothing: the next piece is wanted.
    More,
}

/// Reads the commands of a peer, one after the other, from bytes that come in any pieces. A frame is the size of its body
/// in four bytes, and the body. The time is linear in the bytes, in whatever pieces they come and whenever it is asked.
#[derive(Debug, Drop)]
pub struct CommandReader {
    alloc: Global,
    pending: Pending,
    /// The first wrong field of the frame in front, once it was found.
    unspelt: Option<DecodeFault>,
}

impl Model for CommandReader {
    ghost use Rattle.std.specs.Prelude.{◌<◌, ◌^◌, IfSome};
    ghost use Rattle.command_all.specs.Reading.{BeginsUnspelt};
    ghost use Rattle.command_reader.specs.States.{ReaderState};

    ghost Value = { ReaderState };

    ghost view = { λ r. record { max = r.pending.max; rest = r.pending.rest; unspelt = r.unspelt } };

    ghost invariant = { λ r. (r.pending.max < 2 ^ 32) × IfSome r.unspelt (λ fault. BeginsUnspelt r.pending.max r.pending.rest fault) };
}

impl CommandReader {
    /// Holds no bytes yet, and takes frames with at most `max` bytes of body. It takes no memory.
    pub fn new(alloc: Global, max: u32) -> CommandReader
        ensures { result ≡ new_reader max }
    {
        CommandReader {
            alloc,
            pending: Pending::new(alloc, max),
            unspelt: None,
        }
    }

    /// Takes the next piece of the bytes. Once a frame that no command spells was given, or where a size above the greatest
    /// stands in front, it keeps nothing more, and takes no memory. Want of memory leaves the reader as it was.
    #[inline]
    pub fn feed(&mut self, piece: &[u8]) -> Result<(), AllocError>
        ensures taken { OnOk result (Takes self.old piece.now self.new) }
        ensures ended { IsEnded self.old → result ≡ Ok tt }
        ensures err { OnErr result (self.new ≡ self.old) }
    {
        if self.pending.is_short() {
            return self.keep(piece);
        }
        if self.is_ended() {
            return Ok(());
        }
        self.keep(piece)
    }

    /// Keeps the next piece.
    #[inline]
    fn keep(&mut self, piece: &[u8]) -> Result<(), AllocError>
        requires { ¬ IsEnded self.old }
        ensures taken { OnOk result (Takes self.old piece.now self.new) }
        ensures ended { IsEnded self.old → result ≡ Ok tt }
        ensures err { OnErr result (self.new ≡ self.old) }
    {
        self.pending.push(piece)
    }

    /// Whether no more commands come.
    fn is_ended(&self) -> bool
        ensures { IsTrue result ↔ IsEnded self.now }
    {
        match self.unspelt {
            Some(_) => true,
            None => matches!(self.pending.front(), Front::TooLarge { .. }),
        }
    }

    /// Gives what stands next. Memory is wanted for a command alone, and want of it leaves the reader as it was: the next
    /// call reads the same frame again.
    #[inline]
    pub fn next(&mut self) -> Result<Next, AllocError>
        ensures given { IfOk result (λ answer. Gives self.old answer self.new) }
        ensures stays { IfSome self.old.unspelt (λ fault. result ≡ Ok (Unspelt fault)) }
        ensures err { OnErr result (BeginsFrame self.old.max self.old.rest × (self.old.unspelt ≡ None) × (self.new ≡ self.old)) }
    {
        if self.pending.is_short() {
            return Ok(Next::More);
        }
        self.read_front()
    }

    /// Gives what stands next, by the bytes in front.
    fn read_front(&mut self) -> Result<Next, AllocError>
        ensures given { IfOk result (λ answer. Gives self.old answer self.new) }
        ensures stays { IfSome self.old.unspelt (λ fault. result ≡ Ok (Unspelt fault)) }
        ensures err { OnErr result (BeginsFrame self.old.max self.old.rest × (self.old.unspelt ≡ None) × (self.new ≡ self.old)) }
    {
        if let Some(fault) = self.unspelt {
            return Ok(Next::Unspelt { fault });
        }
        let body = match self.pending.front() {
            Front::Short { wanted } => {
                self.pending.wait(wanted);
                return Ok(Next::More);
            }
            Front::TooLarge { size } => return Ok(Next::TooLarge { size }),
            Front::Frame { body } => body,
        };
        let len = body.len();
        match decode_command(self.alloc, body) {
            Ok(command) => {
                self.pending.take(len);
                Ok(Next::Command(command))
            }
            Err(DecodeError::Fault(fault)) => {
                self.unspelt = Some(fault);
                Ok(Next::Unspelt { fault })
            }
            Err(DecodeError::Memory) => Err(AllocError),
        }
    }
}
