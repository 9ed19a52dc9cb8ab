use crate::frames::{
    CLOSE, CONFIRM_1, DECLARED, EXISTS, HOST, LOST, MECHANISMS, PEER, STRAY, TUNE, UNDECLARED,
    VERSIONS, WELCOME, WRONG,
};
use crate::played::{Fails, Play, run_play};
use std::alloc::Global;
use std::sync::Wait;

const PUBLISH: &[&[u8]] = &[b"publish", b"host:5552", b"s", b"p"];

const CREATE: &[&[u8]] = &[b"create", b"host:5552", b"s"];

// What is played, the status, and what is written.
struct Case {
    play: Play,
    fails: Fails,
    status: u8,
    written: &'static [u8],
}

const SERVED: &[&str] = &[
    PEER, MECHANISMS, WELCOME, TUNE, HOST, VERSIONS, DECLARED, CONFIRM_1,
];

const TWO: Play = Play {
    words: PUBLISH,
    input: b"a\nb\n",
    server: SERVED,
};

const ONE: Play = Play {
    words: PUBLISH,
    input: b"a\n",
    server: SERVED,
};

const CASES: [Case; 14] = [
    Case {
        play: TWO,
        fails: Fails::NONE,
        status: 12,
        written: b"confirmed 1\n",
    },
    Case {
        play: ONE,
        fails: Fails {
            reads: &[1],
            ..Fails::NONE
        },
        status: 4,
        written: b"",
    },
    Case {
        play: ONE,
        fails: Fails {
            receives: &[9],
            ..Fails::NONE
        },
        status: 4,
        written: b"confirmed 0\n",
    },
    Case {
        play: ONE,
        fails: Fails {
            sends: &[7],
            ..Fails::NONE
        },
        status: 4,
        written: b"confirmed 0\n",
    },
    Case {
        play: ONE,
        fails: Fails {
            writes: &[1],
            ..Fails::NONE
        },
        status: 5,
        written: b"",
    },
    Case {
        play: Play {
            words: PUBLISH,
            input: b"",
            server: &[],
        },
        fails: Fails::NONE,
        status: 0,
        written: b"confirmed 0\n",
    },
    Case {
        play: Play {
            words: CREATE,
            input: b"",
            server: &[PEER, MECHANISMS, WELCOME, TUNE, HOST, VERSIONS, EXISTS],
        },
        fails: Fails::NONE,
        status: 8,
        written: b"refused 0005\n",
    },
    Case {
        play: Play {
            words: PUBLISH,
            input: b"a",
            server: &[PEER, MECHANISMS, WELCOME, TUNE, HOST, VERSIONS, UNDECLARED],
        },
        fails: Fails::NONE,
        status: 8,
        written: b"refused 0002\nconfirmed 0\n",
    },
    Case {
        play: Play {
            words: PUBLISH,
            input: b"a",
            server: &[PEER, CLOSE],
        },
        fails: Fails::NONE,
        status: 8,
        written: b"refused 000d\nconfirmed 0\n",
    },
    Case {
        play: Play {
            words: PUBLISH,
            input: b"a",
            server: &[PEER, LOST],
        },
        fails: Fails::NONE,
        status: 8,
        written: b"refused 0006\nconfirmed 0\n",
    },
    Case {
        play: Play {
            words: PUBLISH,
            input: b"a",
            server: &[STRAY],
        },
        fails: Fails::NONE,
        status: 3,
        written: b"confirmed 0\n",
    },
    Case {
        play: Play {
            words: PUBLISH,
            input: b"a",
            server: &[WRONG],
        },
        fails: Fails::NONE,
        status: 3,
        written: b"confirmed 0\n",
    },
    Case {
        play: Play {
            words: &[b"publish", b"host:5552", b"s"],
            input: b"",
            server: &[],
        },
        fails: Fails::NONE,
        status: 2,
        written: b"",
    },
    Case {
        play: Play {
            words: &[
                b"consume",
                b"host:5552",
                b"s",
                b"0",
                b"18446744073709551616",
            ],
            input: b"",
            server: &[],
        },
        fails: Fails::NONE,
        status: 2,
        written: b"",
    },
];

fn is_as_told<W: Wait>(rt: &W, alloc: Global, case: &Case) -> bool {
    match run_play(rt, alloc, &case.play, &case.fails, 1) {
        Ok(played) => { played.status == case.status && played.written.as_slice() == case.written }
        Err(_) => false,
    }
}

#[test]
fn each_fault_has_its_status(rt: HostRuntime) {
    for case in &CASES {
        assert!(rt;
            is_as_told(&rt, rt.alloc(), case),
            "{:?} with {:?}",
            case.play,
            case.fails
        );
    }
}
