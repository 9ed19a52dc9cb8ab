//! Lines of a script.

use script_text::read_line;
use std::alloc::Global;
use std::test::Fail;

/// A line of each letter.
const LINES: [&str; 19] = [
    "n s\n",
    "n A-b_c.9\n",
    "a 1\n",
    "b 1 s\n",
    "c 1 00ff\n",
    "p 1\n",
    "q 1\n",
    "t 0\n",
    "t 18446744073709551615\n",
    "e 1\n",
    "d 1 4\n",
    "u 1 4\n",
    "w 1 0\n",
    "x 1 2 0 3\n",
    "r 1 0\n",
    "f 1 2 1\n",
    "s 1\n",
    "i 1\n",
    "z 4 0\n",
];

/// No lines.
const NO_LINES: [&str; 24] = [
    "",
    "\n",
    "n s",
    "n \n",
    "n a b\n",
    "N s\n",
    "k 1\n",
    "a\n",
    "a 01\n",
    "a +1\n",
    "a 18446744073709551616\n",
    "p  1\n",
    "p 1 \n",
    " p 1\n",
    "b s 1\n",
    "c 1 \n",
    "c 1 0\n",
    "c 1 FF\n",
    "d 1\n",
    "x 1 2 0 4\n",
    "x 1 2 0\n",
    "f 1 2 0\n",
    "z 0 4\n",
    "z 0 0 0\n",
];

fn is_line(alloc: Global, line: &str) -> bool {
    read_line(alloc, line.as_bytes()).is_ok()
}

#[test]
fn a_line_of_each_letter_is_read(rt: HostRuntime) -> Result<(), Fail> {
    for line in LINES {
        assert!(rt; is_line(rt.alloc(), line), "{line}");
    }
    Ok(())
}

#[test]
fn other_words_are_no_line(rt: HostRuntime) -> Result<(), Fail> {
    for line in NO_LINES {
        assert!(rt; !is_line(rt.alloc(), line), "{line}");
    }
    Ok(())
}
