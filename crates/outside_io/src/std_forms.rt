ghost use Rattle.std.specs.Prelude.{◌≡◌, ◌≢◌, ◌<◌, length, None};
ghost use Rattle.outside_io.specs.Causes.{HasCause, next_count};
ghost use Rattle.outside_io.specs.Known.{Reads, Writes};
ghost use Rattle.outside_io.specs.StdForms.{ReadsFrom, WritesTo, reader_of, read_faults, writer_of, write_faults};

use crate::sink::{Gave, Sink};
use crate::source::{Source, Took};
use std::io::{Read, Write};

/// A source over a reader of std. It does not tell its bytes.
#[derive(Debug, Drop)]
pub struct StdSource<R> {
    reader: R,
    faults: u64,
}

impl<R: Read> StdSource<R> {
    /// A source over this reader.
    pub fn new(reader: R) -> StdSource<R>
        ensures reader { reader_of result ≡ reader }
        ensures faults { read_faults result ≡ 0 }
    {
        StdSource { reader, faults: 0 }
    }
}

impl<R: Read> Source for StdSource<R> {
    ghost use Rattle.std.specs.Prelude.{None};
    ghost use Rattle.outside_io.specs.StdForms.{read_faults};

    ghost left = { λ _. None };

    ghost faults = { read_faults };

    /// Reads once. Any error of the reader is a failure, one that says to try again too.
    fn read(&mut self, buf: &mut [u8]) -> Took
        requires { 0 < length buf.old }
        ensures took { Reads None result buf.new None }
        ensures cause { HasCause (read_faults self.old) (read_faults self.new)
            (result ≡ Took.Failed) }
        ensures reader { ReadsFrom (R.remaining (reader_of self.old)) result buf.new
            (R.remaining (reader_of self.new)) }
        ensures faulted { result ≡ Took.Failed →
            read_faults self.new ≡ next_count (read_faults self.old) }
        ensures unfaulted { result ≢ Took.Failed → read_faults self.new ≡ read_faults self.old }
    {
        match self.reader.read(buf) {
            Ok(0) => Took::End,
            Ok(count) => Took::Got(count),
            Err(_) => {
                self.faults = self.faults.saturating_add(1);
                Took::Failed
            }
        }
    }
}

/// A sink over a writer of std. It does not tell its bytes.
#[derive(Debug, Drop)]
pub struct StdSink<W> {
    writer: W,
    faults: u64,
}

impl<W: Write> StdSink<W> {
    /// A sink over this writer.
    pub fn new(writer: W) -> StdSink<W>
        ensures writer { writer_of result ≡ writer }
        ensures faults { write_faults result ≡ 0 }
    {
        StdSink { writer, faults: 0 }
    }
}

impl<W: Write> Sink for StdSink<W> {
    ghost use Rattle.std.specs.Prelude.{None};
    ghost use Rattle.outside_io.specs.StdForms.{write_faults};

    ghost written = { λ _. None };

    ghost faults = { write_faults };

    /// Writes the piece and flushes the writer. It fails where either does.
    fn write_all(&mut self, bytes: &[u8]) -> Gave
        ensures gave { Writes None result bytes.now None }
        ensures cause { HasCause (write_faults self.old) (write_faults self.new)
            (result ≡ Gave.Failed) }
        ensures writer { WritesTo (W.contents (writer_of self.old)) result bytes.now
            (W.contents (writer_of self.new)) }
        ensures faulted { result ≡ Gave.Failed →
            write_faults self.new ≡ next_count (write_faults self.old) }
        ensures unfaulted { result ≡ Gave.Done → write_faults self.new ≡ write_faults self.old }
    {
        if self.writer.write_all(bytes).is_err() || self.writer.flush().is_err() {
            self.faults = self.faults.saturating_add(1);
            return Gave::Failed;
        }
        Gave::Done
    }
}
