ghost use Rattle.std.specs.Prelude.{◌<◌};

use command_all::{Command, fits, frame};
use command_reader::{CommandReader, Next, SERVER_FRAME_MAX};
use frame_wire::{Octets, put_u64};
use std::alloc::{AllocError, Global};
use std::test::Fail;

/// A message that is published and confirmed, a heartbeat, and a credit.
const FRAMES: &str =
    "0000001600020001000000000100000000000000010000000161000000110003000100000000010000000000000001000000040017000100000007000900010500\
0a";

fn put_command(alloc: Global, command: &Command, out: &mut Octets) -> Result<(), AllocError> {
    if !fits(command) {
        return Ok(());
    }
    let bytes = frame(alloc, command)?;
    out.push_slice(bytes.as_slice())
}

/// Adds the frames of the commands that are ready, of 64 at most.
fn put_ready(
    alloc: Global,
    reader: &mut CommandReader,
    out: &mut Octets,
) -> Result<(), AllocError> {
    for _ in 0..64 {
        match reader.next()? {
            Next::Command(command) => put_command(alloc, &command, out)?,
            _ => return Ok(()),
        }
    }
    Ok(())
}

/// The frames of the commands that are read of bytes in pieces of this size.
fn framed_again(alloc: Global, bytes: &[u8], size: usize) -> Result<Octets, AllocError>
    requires { 0 < size }
{
    let mut reader = CommandReader::new(alloc, SERVER_FRAME_MAX);
    let mut out = Octets::new(alloc);
    for piece in bytes.chunks(size) {
        reader.feed(piece)?;
        put_ready(alloc, &mut reader, &mut out)?;
    }
    Ok(out)
}

#[test]
fn commands_are_the_same_in_pieces_of_any_size(rt: HostRuntime) -> Result<(), Fail> {
    let bytes = hex::decode(rt.alloc(), FRAMES)?;
    let bytes = bytes.as_slice();
    let one = framed_again(rt.alloc(), bytes, 1)?;
    assert!(rt; one.as_slice() == bytes, "in pieces of 1");
    let sixteen = framed_again(rt.alloc(), bytes, 16)?;
    assert!(rt; sixteen.as_slice() == bytes, "in pieces of 16");
    let all = framed_again(rt.alloc(), bytes, 4096)?;
    assert!(rt; all.as_slice() == bytes, "in pieces of 4096");
    Ok(())
}

/// The largest frame that a server takes: 80,659 messages of one byte, a body of 1,048,576 bytes.
fn largest_publish(alloc: Global) -> Result<Octets, AllocError> {
    let mut out = Octets::copy(alloc, &[0, 0x10, 0, 0, 0, 2, 0, 1, 7, 0, 1, 0x3b, 0x13])?;
    for id in 0..80_659 {
        put_u64(&mut out, id)?;
        out.push_slice(&[0, 0, 0, 1, 0x61])?;
    }
    Ok(out)
}

#[test]
fn the_largest_frame_comes_byte_by_byte(rt: HostRuntime) -> Result<(), Fail> {
    let bytes = largest_publish(rt.alloc())?;
    assert_eq!(rt; bytes.len(), 1_048_580);
    let again = framed_again(rt.alloc(), bytes.as_slice(), 1)?;
    assert!(rt; again == bytes);
    Ok(())
}
