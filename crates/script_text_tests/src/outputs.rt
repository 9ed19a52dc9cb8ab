//! Lines that a node gives.

use script_text::{Ending, MessageKind, OutputLine, write_output};
use std::alloc::Global;
use std::process::Abort;
use std::test::Fail;

fn is_written<R: Abort>(
    rt: &R,
    alloc: Global,
    line: &OutputLine,
    wanted: &str,
) -> Result<(), Fail> {
    let bytes = write_output(alloc, line)?;
    assert!(rt; bytes.as_slice() == wanted.as_bytes(), "{wanted}");
    Ok(())
}

#[test]
fn ends_of_connections(rt: HostRuntime) -> Result<(), Fail> {
    for (how, wanted) in [
        (Ending::PeerEnded, "bye 1 ended\n"),
        (Ending::ClosedByPeer, "bye 1 closed\n"),
        (Ending::ClosedByUs { code: 14 }, "bye 1 us 000e\n"),
        (Ending::Silent, "bye 1 silent\n"),
    ] {
        is_written(
            &rt,
            rt.alloc(),
            &OutputLine::Bye { connection: 1, how },
            wanted,
        )?;
    }
    Ok(())
}

#[test]
fn lines_on_members(rt: HostRuntime) -> Result<(), Fail> {
    let message = OutputLine::Message {
        stream: 1,
        number: 4,
        receiver: 0,
        kind: MessageKind::Stopped,
        epoch: 2,
    };
    is_written(&rt, rt.alloc(), &message, "m 1 4 0 stopped 2\n")?;
    let up = OutputLine::Up {
        stream: 1,
        member: 2,
        count: 3,
        end: 4,
    };
    is_written(&rt, rt.alloc(), &up, "up 1 2 3 4\n")?;
    is_written(
        &rt,
        rt.alloc(),
        &OutputLine::CoordinatorUp {
            stream: 1,
            epoch: 7,
        },
        "up 1 0 7\n",
    )?;
    is_written(
        &rt,
        rt.alloc(),
        &OutputLine::LogDown {
            stream: 1,
            member: 3,
        },
        "l 1 3 -\n",
    )?;
    is_written(
        &rt,
        rt.alloc(),
        &OutputLine::Refused { code: 5 },
        "no 0005\n",
    )?;
    is_written(&rt, rt.alloc(), &OutputLine::End, "end\n")?;
    is_written(&rt, rt.alloc(), &OutputLine::Bad { number: 2 }, "bad 2\n")
}
