//! Files that words of the command line name.

ghost use Rattle.std.specs.Prelude.{◌≡◌, ◌≤◌, ◌<◌, length, None};
ghost use Rattle.outside_io.specs.Causes.{HasCause, Rose, next_count};
ghost use Rattle.outside_io.specs.Known.{Reads};

use outside_io::{Source, Took};
use std::fs;
use std::io::Read;
use std::rt::Files;

/// A file by its name, opened at its first read. It does not tell its bytes. Where it can't be opened each read fails.
#[derive(Drop)]
pub struct NamedFile<'a, R: Files> {
    rt: &'a R,
    name: &'a [u8],
    file: Option<R::File>,
    faults: u64,
}

// Counts a fault.
fn count(faults: &mut u64)
    ensures one { faults.new ≡ next_count faults.old }
    ensures later { faults.old ≤ faults.new }
    ensures rose { Rose faults.old faults.new }
{
    *faults = faults.saturating_add(1);
}

// Reads once.
fn read_from<F: Read>(file: &mut F, buf: &mut [u8]) -> Took
    requires { 0 < length buf.old }
    ensures { Reads None result buf.new None }
{
    match file.read(buf) {
        Ok(0) => Took::End,
        Ok(count) => Took::Got(count),
        Err(_) => Took::Failed,
    }
}

impl<'a, R: Files> NamedFile<'a, R> {
    /// The file of this name.
    pub fn new(rt: &'a R, name: &'a [u8]) -> NamedFile<'a, R>
        ensures faults { result.faults ≡ 0 }
    {
        NamedFile {
            rt,
            name,
            file: None,
            faults: 0,
        }
    }

    // Opens the file, where it isn't open.
    fn open(&mut self)
        ensures { self.new.faults ≡ self.old.faults }
    {
        if self.file.is_none()
            && let Ok(name) = str::from_utf8(self.name)
            && let Ok(file) = fs::open(self.rt, name)
        {
            self.file = Some(file);
        }
    }

    // Reads once, where the file is open.
    fn read_open(&mut self, buf: &mut [u8]) -> Took
        requires { 0 < length buf.old }
        ensures reads { Reads None result buf.new None }
        ensures faults { self.new.faults ≡ self.old.faults }
    {
        match &mut self.file {
            Some(file) => read_from(file, buf),
            None => Took::Failed,
        }
    }
}

impl<'a, R: Files> Source for NamedFile<'a, R> {
    ghost use Rattle.std.specs.Prelude.{None};

    ghost left = { λ _. None };

    ghost faults = { λ s. s.faults };

    /// Reads once. Any error is a failure, one of opening the file too.
    fn read(&mut self, buf: &mut [u8]) -> Took
        requires { 0 < length buf.old }
        ensures took { Reads None result buf.new None }
        ensures cause { HasCause self.old.faults self.new.faults (result ≡ Took.Failed) }
    {
        self.open();
        let took = self.read_open(buf);
        if let Took::Failed = took {
            count(&mut self.faults);
        }
        took
    }
}
