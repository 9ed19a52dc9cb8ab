//! The stream server's program.
#![tactic(auto)]

mod files;
mod run;
mod words;

use crate::files::NamedFile;
use crate::run::run;
use crate::words::usage_line;
use frame_wire::Octets;
use outside_io::{StdSink, StdSource};
use program_words::{tell_usage, words_after_name};
use std::env;
use std::process::ExitCode;

/// The status for want of memory.
const MEMORY: u8 = 6;

/// A word, or the empty one where there is none at this place.
fn word_at(words: &[Octets], place: usize) -> &[u8] {
    match words.get(place) {
        Some(word) => word.as_slice(),
        None => b"",
    }
}

fn main(rt: HostRuntime) -> ExitCode {
    let mut out = StdSink::new(rt.stdout());
    let Ok(args) = env::args(&rt) else {
        return ExitCode::from(tell_usage(&mut out, usage_line()));
    };
    let Ok(words) = words_after_name(rt.alloc(), args) else {
        return ExitCode::from(MEMORY);
    };
    let mut input = StdSource::new(rt.stdin());
    let mut segment = NamedFile::new(&rt, word_at(words.as_slice(), 1));
    let mut index = NamedFile::new(&rt, word_at(words.as_slice(), 2));
    ExitCode::from(run(
        rt.alloc(),
        words.as_slice(),
        &mut input,
        &mut segment,
        &mut index,
        &mut out,
    ))
}
