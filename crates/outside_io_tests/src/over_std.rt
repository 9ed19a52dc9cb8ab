use outside_io::{Gave, Sink, Source, StdSink, StdSource, Took};
use std::io;
use std::io::{Read, Write};
use std::test::Fail;

// A reader of `bytes` whose call number `bad_read`, from 1, fails and takes nothing.
#[derive(Drop)]
struct FailingReader {
    bytes: &'static [u8],
    reads: u64,
    bad_read: u64,
}

impl Read for FailingReader {
    fn read(&mut self, buf: &mut [u8]) -> io::Result<usize> {
        self.reads = self.reads.saturating_add(1);
        if self.reads == self.bad_read {
            return Err(io::ErrorKind::BrokenPipe.into());
        }
        let count = self.bytes.len().min(buf.len());
        buf[..count].copy_from_slice(&self.bytes[..count]);
        self.bytes = &self.bytes[count..];
        Ok(count)
    }
}

// A writer that takes at most two bytes a call. Its write number `bad_write` and its flush number
// `bad_flush`, from 1, fail.
#[derive(Drop)]
struct FailingWriter {
    taken: Vec<u8>,
    writes: u64,
    bad_write: u64,
    flushes: u64,
    bad_flush: u64,
}

impl Write for FailingWriter {
    fn write(&mut self, buf: &[u8]) -> io::Result<usize> {
        self.writes = self.writes.saturating_add(1);
        if self.writes == self.bad_write {
            return Err(io::ErrorKind::BrokenPipe.into());
        }
        let count = buf.len().min(2);
        self.taken.extend_from_slice(&buf[..count])?;
        Ok(count)
    }

    fn flush(&mut self) -> io::Result<()> {
        self.flushes = self.flushes.saturating_add(1);
        if self.flushes == self.bad_flush {
            return Err(io::ErrorKind::BrokenPipe.into());
        }
        Ok(())
    }
}

/// The read that fails, and the answers of five reads into three bytes.
const READS: [(u64, [Took; 5]); 5] = [
    (
        0,
        [Took::Got(3), Took::Got(2), Took::End, Took::End, Took::End],
    ),
    (
        1,
        [
            Took::Failed,
            Took::Got(3),
            Took::Got(2),
            Took::End,
            Took::End,
        ],
    ),
    (
        2,
        [
            Took::Got(3),
            Took::Failed,
            Took::Got(2),
            Took::End,
            Took::End,
        ],
    ),
    (
        3,
        [
            Took::Got(3),
            Took::Got(2),
            Took::Failed,
            Took::End,
            Took::End,
        ],
    ),
    (
        4,
        [
            Took::Got(3),
            Took::Got(2),
            Took::End,
            Took::Failed,
            Took::End,
        ],
    ),
];

#[test]
fn a_source_fails_where_its_reader_does(rt: HostRuntime) -> Result<(), Fail> {
    for (bad_read, answers) in READS {
        let mut source = StdSource::new(FailingReader {
            bytes: b"hello",
            reads: 0,
            bad_read,
        });
        let mut got = Vec::new(rt.alloc());
        for answer in answers {
            let mut buf = [0u8; 3];
            let took = source.read(&mut buf);
            assert_eq!(rt; took, answer, "where read {bad_read} fails");
            if let Took::Got(count) = took {
                got.extend_from_slice(&buf[..count])?;
            }
        }
        assert_eq!(rt;
            got.as_slice(),
            b"hello".as_slice(),
            "where read {bad_read} fails"
        );
    }
    Ok(())
}

#[test]
fn a_sink_fails_where_its_writer_does(rt: HostRuntime) {
    // The write and the flush that fail, the answers at `hello` and at `!`, and what was taken.
    let cases: [(u64, u64, [Gave; 2], &[u8]); 6] = [
        (0, 0, [Gave::Done, Gave::Done], b"hello!"),
        (1, 0, [Gave::Failed, Gave::Done], b"!"),
        (2, 0, [Gave::Failed, Gave::Done], b"he!"),
        (4, 0, [Gave::Done, Gave::Failed], b"hello"),
        (0, 1, [Gave::Failed, Gave::Done], b"hello!"),
        (0, 2, [Gave::Done, Gave::Failed], b"hello!"),
    ];
    for (bad_write, bad_flush, answers, taken) in cases {
        let mut writer = FailingWriter {
            taken: Vec::new(rt.alloc()),
            writes: 0,
            bad_write,
            flushes: 0,
            bad_flush,
        };
        let mut sink = StdSink::new(&mut writer);
        let gave = [sink.write_all(b"hello"), sink.write_all(b"!")];
        assert_eq!(rt;
            gave,
            answers,
            "where write {bad_write} and flush {bad_flush} fail"
        );
        assert_eq!(rt;
            writer.taken.as_slice(),
            taken,
            "where write {bad_write} fails"
        );
    }
}
