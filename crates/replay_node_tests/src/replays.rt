//! One replay, looked at from outside.

use frame_wire::Limits;
use outside_io::{MemorySink, Source};
use replay_node::replay;
use std::alloc::Global;
use std::process::Abort;
use std::test::Fail;

/// Replays a script, and looks at the status and at all that was written.
pub(crate) fn replays_as<R: Abort, S: Source>(
    rt: &R,
    alloc: Global,
    script: &mut S,
    wanted: u8,
    gives: &[u8],
) -> Result<(), Fail> {
    let mut out = MemorySink::new(alloc, &[])?;
    let status = replay(alloc, script, &mut out, &Limits::standard());
    assert_eq!(rt; status, wanted);
    assert_eq!(rt; out.written(), gives);
    Ok(())
}
