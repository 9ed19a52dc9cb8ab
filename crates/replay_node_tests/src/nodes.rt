use crate::values::OPENING;
use frame_wire::Limits;
use replay_node::Node;
use script_text::LineFault;
use std::alloc::Global;
use std::process::Abort;
use std::test::Fail;

/// Each line, and the lines that it gives, or none where it is bad.
const LINES: [(&str, Option<&str>); 10] = [
    ("s 1\n", None),
    ("n s", None),
    ("n s\n", Some(OPENING)),
    ("n s\n", None),
    ("b 1 s\n", Some("")),
    ("b 1 s\n", None),
    ("c 1 00000000\n", None),
    (
        "c 1 0000001600020001000000000100000000000000010000000161\n",
        Some(""),
    ),
    (
        "s 1\n",
        Some(
            "k 1 5000000100000001000000000000000000000000000000010000000000000001e58c97920000000500000000000000000000000161\n",
        ),
    ),
    (
        "p 1\n",
        Some("> 1 000000110003000100000000010000000000000001\n"),
    ),
];

/// Gives a node a line, and looks at what it gives.
fn gives_lines<R: Abort>(
    rt: &R,
    alloc: Global,
    node: &mut Node,
    line: &str,
    gives: Option<&str>,
) -> Result<(), Fail> {
    match (node.line(line.as_bytes()), gives) {
        (Err(fault), None) => assert_eq!(rt; fault, LineFault::Bad, "{line:?}"),
        (Ok(lines), Some(wanted)) => {
            let mut given = Vec::new(alloc);
            for part in lines.as_slice() {
                given.extend_from_slice(part.as_slice())?;
            }
            assert_eq!(rt; given.as_slice(), wanted.as_bytes(), "{line:?}");
        }
        _ => return Err(Fail::from("a line was answered otherwise")),
    }
    Ok(())
}

#[test]
fn a_bad_line_leaves_a_node_usable(rt: HostRuntime) -> Result<(), Fail> {
    let alloc = rt.alloc();
    let mut node = Node::new(alloc, &Limits::standard())?;
    for (line, gives) in LINES {
        gives_lines(&rt, alloc, &mut node, line, gives)?;
    }
    Ok(())
}
