use outside_io::{Gave, MemorySink, MemorySource, Sink, Source, SureSink, SureSource, Took};
use std::test::Fail;

// Reads once, into three bytes, and writes what came.
fn pass_on<S: Source, K: Sink>(source: &mut S, sink: &mut K) -> (Took, Gave) {
    let mut buf = [0u8; 3];
    let took = source.read(&mut buf);
    match took {
        Took::Got(count) => (took, sink.write_all(&buf[..count])),
        Took::End | Took::Failed => (took, Gave::Done),
    }
}

/// The reads and writes that fail, the answers of four turns, and what was written.
type Case = (
    &'static [u64],
    &'static [u64],
    [(Took, Gave); 4],
    &'static [u8],
);

const CASES: [Case; 4] = [
    (
        &[],
        &[],
        [
            (Took::Got(3), Gave::Done),
            (Took::Got(2), Gave::Done),
            (Took::End, Gave::Done),
            (Took::End, Gave::Done),
        ],
        b"hello",
    ),
    (
        &[2],
        &[],
        [
            (Took::Got(3), Gave::Done),
            (Took::Failed, Gave::Done),
            (Took::Got(2), Gave::Done),
            (Took::End, Gave::Done),
        ],
        b"hello",
    ),
    (
        &[1, 4],
        &[1],
        [
            (Took::Failed, Gave::Done),
            (Took::Got(3), Gave::Failed),
            (Took::Got(2), Gave::Done),
            (Took::Failed, Gave::Done),
        ],
        b"lo",
    ),
    (
        &[0, 9],
        &[2, 3],
        [
            (Took::Got(3), Gave::Done),
            (Took::Got(2), Gave::Failed),
            (Took::End, Gave::Done),
            (Took::End, Gave::Done),
        ],
        b"hel",
    ),
];

#[test]
fn objects_in_memory_fail_at_their_listed_calls(rt: HostRuntime) -> Result<(), Fail> {
    for (bad_reads, bad_writes, answers, written) in CASES {
        let mut source = MemorySource::new(rt.alloc(), b"hello", bad_reads)?;
        let mut sink = MemorySink::new(rt.alloc(), bad_writes)?;
        for answer in answers {
            let passed = pass_on(&mut source, &mut sink);
            assert_eq!(rt;
                passed,
                answer,
                "where {bad_reads:?} and {bad_writes:?} fail"
            );
        }
        assert_eq!(rt;
            sink.written(),
            written,
            "where {bad_reads:?} and {bad_writes:?} fail"
        );
    }
    Ok(())
}

#[test]
fn sure_objects_never_fail(rt: HostRuntime) -> Result<(), Fail> {
    let mut source = SureSource::new(rt.alloc(), b"hello")?;
    let mut sink = SureSink::new();
    for took in [Took::Got(3), Took::Got(2), Took::End, Took::End] {
        assert_eq!(rt; pass_on(&mut source, &mut sink), (took, Gave::Done));
    }
    Ok(())
}
