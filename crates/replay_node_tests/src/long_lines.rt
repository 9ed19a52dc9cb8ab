use crate::replays::replays_as;
use crate::sources::EndlessSource;
use frame_wire::Limits;
use outside_io::{MemorySource, SureSink};
use replay_node::replay;
use std::alloc::{AllocError, Global};
use std::process::Abort;
use std::test::Fail;

// The line `c 1 HEX` of one frame with this body size, which publishes one simple entry of zeros.
fn publish_line(alloc: Global, size: u32) -> Result<Vec<u8>, AllocError> {
    let entry = size.saturating_sub(21);
    let head = format!(in alloc; "c 1 {size:08x}000200010000000001{:016x}{entry:08x}", 1)?;
    let mut line = Vec::from_slice(alloc, head.as_bytes())?;
    for _ in 0..entry {
        line.extend_from_slice("00".as_bytes())?;
    }
    line.push(b'\n')?;
    Ok(line)
}

/// A script whose last line gives a frame of this body size ends with this status.
fn ends_with<R: Abort>(rt: &R, alloc: Global, size: u32, wanted: u8) -> Result<(), Fail> {
    let line = publish_line(alloc, size)?;
    let mut script = Vec::from_slice(alloc, "n s\nb 1 s\n".as_bytes())?;
    script.extend_from_slice(line.as_slice())?;
    let mut source = MemorySource::new(alloc, script.as_slice(), &[])?;
    let status = replay(
        alloc,
        &mut source,
        &mut SureSink::new(),
        &Limits::standard(),
    );
    assert_eq!(rt; status, wanted, "{size}");
    Ok(())
}

#[test]
fn a_frame_has_at_most_1048576_bytes(rt: HostRuntime) -> Result<(), Fail> {
    ends_with(&rt, rt.alloc(), 1_048_576, 0)?;
    ends_with(&rt, rt.alloc(), 1_048_577, 3)
}

#[test]
fn a_line_too_long_is_bad_before_its_end(rt: HostRuntime) -> Result<(), Fail> {
    let alloc = rt.alloc();
    let mut source = EndlessSource { given: 0 };
    replays_as(&rt, alloc, &mut source, 3, "bad 1\n".as_bytes())?;
    assert!(rt; source.given > 4_194_304, "{}", source.given);
    assert!(rt; source.given <= 4_194_304 + 4096, "{}", source.given);
    Ok(())
}
