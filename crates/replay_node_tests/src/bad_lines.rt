use crate::replays::replays_as;
use crate::values::OPENING;
use outside_io::MemorySource;
use std::alloc::{AllocError, Global};
use std::process::Abort;
use std::test::Fail;

/// Lines after `n s`, and the number of the bad one.
const AFTER_THE_FIRST: [(&str, u64); 62] = [
    // a second stream
    ("n s\n", 2),
    ("n other\n", 2),
    // no number of a connection
    ("b 0 s\n", 2),
    ("b 4294967296 s\n", 2),
    ("b 18446744073709551617 s\n", 2),
    ("b 01 s\n", 2),
    ("b +1 s\n", 2),
    // another stream
    ("b 1 x\n", 2),
    ("b 1\n", 2),
    ("b s 1\n", 2),
    // no connection yet
    (
        "c 1 0000001600020001000000000100000000000000010000000161\n",
        2,
    ),
    ("p 1\n", 2),
    // another connection or stream
    (
        "b 1 s\nc 2 0000001600020001000000000100000000000000010000000161\n",
        3,
    ),
    ("b 1 s\np 2\n", 3),
    ("b 1 s\ns 2\n", 3),
    ("b 1 s\ns 0\n", 3),
    // no lower-case pairs of digits, at least one
    (
        "b 1 s\nc 1 000000160002000100000000010000000000000001000000016A\n",
        3,
    ),
    (
        "b 1 s\nc 1 00000016000200010000000001000000000000000100000001616\n",
        3,
    ),
    (
        "b 1 s\nc 1 000000160002000100000000010000000000000001000000016\n",
        3,
    ),
    ("b 1 s\nc 1 \n", 3),
    ("b 1 s\nc 1\n", 3),
    (
        "b 1 s\nc 1 000000160002000100000000010000000000000001000000016g\n",
        3,
    ),
    // words that are spelled otherwise
    ("b 1 s\np 01\n", 3),
    ("b 1 s\np  1\n", 3),
    ("b 1 s\np 1 \n", 3),
    ("b 1 s\n p 1\n", 3),
    ("b 1 s\np1\n", 3),
    ("b 1 s\np\n", 3),
    ("b 1 s\np 1\r\n", 3),
    ("b 1 s\ns\t1\n", 3),
    // a last line without its line feed
    ("b 1 s\ns 1", 3),
    ("b 1 s\n\n", 3),
    // another letter
    ("b 1 s\nz 1\n", 3),
    ("b 1 s\nP 1\n", 3),
    // a line of the language that this node doesn't serve
    ("b 1 s\na 2\n", 3),
    ("b 1 s\nq 1\n", 3),
    ("b 1 s\nt 0\n", 3),
    ("b 1 s\ne 1\n", 3),
    ("b 1 s\nd 1 1\n", 3),
    ("b 1 s\nu 1 1\n", 3),
    ("b 1 s\nw 1 1\n", 3),
    ("b 1 s\nx 1 1 0 0\n", 3),
    ("b 1 s\nr 1 1\n", 3),
    ("b 1 s\nf 1 1 1\n", 3),
    ("b 1 s\ni 1\n", 3),
    ("b 1 s\nz 0 0\n", 3),
    // frames that no command spells: version, key
    (
        "b 1 s\nc 1 0000001600020002000000000100000000000000010000000161\n",
        3,
    ),
    (
        "b 1 s\nc 1 0000001600010001000000000100000000000000010000000161\n",
        3,
    ),
    // a sub-batch
    (
        "b 1 s\nc 1 00000021000200010000000001000000000000000180000100000005000000050000000161\n",
        3,
    ),
    (
        "b 1 s\nc 1 0000001500020001000000000100000000000000010000000161\n",
        3,
    ),
    (
        "b 1 s\nc 1 000000170002000100000000010000000000000001000000016100\n",
        3,
    ),
    (
        "b 1 s\nc 1 00000015000200010000000001000000000000000100000001\n",
        3,
    ),
    ("b 1 s\nc 1 00000000\n", 3),
    // a connection a second time, and a seventeenth
    ("b 1 s\nb 1 s\n", 3),
    (
        "b 1 s\nb 2 s\nb 3 s\nb 4 s\nb 5 s\nb 6 s\nb 7 s\nb 8 s\nb 9 s\nb 10 s\nb 11 s\nb 12 s\nb 13 s\nb 14 s\nb 15 s\nb 16 s\nb 17 s\n",
        18,
    ),
    // a size above the greatest, also in two pieces
    ("b 1 s\nc 1 00100001\n", 3),
    ("b 1 s\nc 1 001000\nc 1 01\n", 4),
    // commands that are not served: a named declaration, a query, a command of a server
    ("b 1 s\nc 1 0000000f000100010000000101000170000173\n", 3),
    ("b 1 s\nc 1 0000000e0005000100000002000170000173\n", 3),
    ("b 1 s\nc 1 0000000a80010001000000010001\n", 3),
    // a refused frame behind others
    ("b 1 s\nc 1 000000070009000105000a000000058009000100\n", 3),
    // a later line
    (
        "b 1 s\nc 1 0000001600020001000000000100000000000000010000000161\np 1\ns 2\n",
        5,
    ),
];

/// Scripts whose first line is bad.
const AT_ONCE: [&str; 13] = [
    "c 9 00\n", "s 1\n", "p 1\n", "b 1 s\n", "n s", "n", "n\n", "n \n", "n a b\n", "n a/b\n",
    "n é\n", "N s\n", "\n",
];

/// A script whose second or later line is bad.
fn is_bad_at<R: Abort>(rt: &R, alloc: Global, lines: &str, number: u64) -> Result<(), Fail> {
    let script = format!(in alloc; "n s\n{lines}")?;
    let gives = format!(in alloc; "{OPENING}bad {number}\n")?;
    let mut source = MemorySource::new(alloc, script.as_bytes(), &[])?;
    replays_as(rt, alloc, &mut source, 3, gives.as_bytes())
}

#[test]
fn bad_lines_come_after_others(rt: HostRuntime) -> Result<(), Fail> {
    for (lines, number) in AFTER_THE_FIRST {
        is_bad_at(&rt, rt.alloc(), lines, number)?;
    }
    Ok(())
}

#[test]
fn a_first_line_is_bad(rt: HostRuntime) -> Result<(), Fail> {
    for script in AT_ONCE {
        let mut source = MemorySource::new(rt.alloc(), script.as_bytes(), &[])?;
        replays_as(&rt, rt.alloc(), &mut source, 3, "bad 1\n".as_bytes())?;
    }
    Ok(())
}

/// The script `n NAME` with a name of so many bytes.
fn name_script(alloc: Global, size: u64) -> Result<Vec<u8>, AllocError> {
    let mut script = Vec::from_slice(alloc, "n ".as_bytes())?;
    for _ in 0..size {
        script.push(b'a')?;
    }
    script.push(b'\n')?;
    Ok(script)
}

#[test]
fn a_name_has_at_most_255_bytes(rt: HostRuntime) -> Result<(), Fail> {
    let alloc = rt.alloc();
    let longest = name_script(alloc, 255)?;
    let longer = name_script(alloc, 256)?;
    let opens = format!(in alloc; "{OPENING}end\n")?;
    for (script, wanted, gives) in [
        (longest.as_slice(), 0u8, opens.as_bytes()),
        (longer.as_slice(), 3, "bad 1\n".as_bytes()),
    ] {
        let mut source = MemorySource::new(alloc, script, &[])?;
        replays_as(&rt, alloc, &mut source, wanted, gives)?;
    }
    Ok(())
}
