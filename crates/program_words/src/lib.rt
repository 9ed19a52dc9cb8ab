//! The words of a program's command line, and the line that tells which words there are.
#![tactic(auto)]

ghost use Rattle.std.specs.Prelude.{◌≡◌};
ghost use Rattle.program_words.specs.Told.{Wrote};

use frame_wire::{Octets, Row};
use outside_io::Sink;
use std::alloc::{AllocError, Global};
use std::env::Args;

/// The status of a program that was asked for nothing it does.
pub const USAGE: u8 = 2;

/// The words after the program's name. It fails for want of memory alone.
pub fn words_after_name(alloc: Global, args: Args) -> Result<Row<Octets>, AllocError> {
    let mut words = Row::new(alloc);
    for arg in args.skip(1) {
        let word = Octets::copy(alloc, arg.as_bytes())?;
        let Ok(()) = words.push(word) else {
            return Err(AllocError);
        };
    }
    Ok(words)
}

/// Writes the line that tells which words there are, and answers 2, also where the write fails.
pub fn tell_usage<K: Sink>(out: &mut K, line: &[u8]) -> u8
    ensures status { result ≡ 2 }
    ensures line { Wrote line.now (K.written out.old) (K.written out.new) (K.faults out.old) (K.faults out.new) }
{
    let _gave = out.write_all(line);
    USAGE
}
