//! The client's program: it makes a stream, publishes lines to it, resumes, reads it, and asks for a publisher's number.
#![tactic(auto)]

mod run;

use crate::run::{run, usage_line};
use outside_io::{StdSink, StdSource};
use program_words::{tell_usage, words_after_name};
use std::env;
use std::process::ExitCode;

/// The status for want of memory.
const MEMORY: u8 = 6;

fn main(rt: HostRuntime) -> ExitCode {
    let mut out = StdSink::new(rt.stdout());
    let Ok(args) = env::args(&rt) else {
        return ExitCode::from(tell_usage(&mut out, usage_line()));
    };
    let Ok(words) = words_after_name(rt.alloc(), args) else {
        return ExitCode::from(MEMORY);
    };
    let mut input = StdSource::new(rt.stdin());
    let words = words.as_slice();
    ExitCode::from(run(&rt, rt.alloc(), words, &mut input, &mut out))
}
