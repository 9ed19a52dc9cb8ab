use crate::frames::{
    ASK_MECHANISMS, ASK_PEER, ASK_VERSIONS, CONFIRM_1, CONFIRM_2, CREATE, CREATED, DECLARE,
    DECLARED, DELIVERY, HOST, LOGIN, MECHANISMS, OPEN_HOST, PEER, PUBLISH_1, PUBLISH_2, QUERY,
    SEQUENCE_7, SUBSCRIBED, TUNE, TUNED, VERSIONS, WELCOME,
};
use crate::played::{Fails, Play, bytes_of, run_play};
use std::alloc::{AllocError, Global};
use std::sync::Wait;

// An act that ends well, what it writes, and what it sends behind the opening; of a subscription that isn't looked at.
struct Case {
    play: Play,
    written: &'static [u8],
    sent: &'static [&'static str],
}

const CASES: [Case; 6] = [
    Case {
        play: Play {
            words: &[b"create", b"host:5552", b"s"],
            input: b"not read",
            server: &[PEER, MECHANISMS, WELCOME, TUNE, HOST, VERSIONS, CREATED],
        },
        written: b"",
        sent: &[CREATE],
    },
    Case {
        play: Play {
            words: &[b"publish", b"host:5552", b"s", b"p"],
            input: b"a\nb",
            server: &[
                PEER, MECHANISMS, WELCOME, TUNE, HOST, VERSIONS, DECLARED, CONFIRM_1, CONFIRM_2,
            ],
        },
        written: b"confirmed 2\n",
        sent: &[DECLARE, PUBLISH_1, PUBLISH_2],
    },
    Case {
        play: Play {
            words: &[b"publish", b"host:5552", b"s", b"p"],
            input: b"a\nb\n",
            server: &[
                PEER, MECHANISMS, WELCOME, TUNE, HOST, VERSIONS, DECLARED, CONFIRM_2, CONFIRM_1,
            ],
        },
        written: b"confirmed 2\n",
        sent: &[DECLARE, PUBLISH_1, PUBLISH_2],
    },
    Case {
        play: Play {
            words: &[b"resume", b"host:5552", b"s", b"p", b"1"],
            input: b"a\nb\n",
            server: &[
                PEER, MECHANISMS, WELCOME, TUNE, HOST, VERSIONS, DECLARED, CONFIRM_2,
            ],
        },
        written: b"confirmed 2\n",
        sent: &[DECLARE, PUBLISH_2],
    },
    Case {
        play: Play {
            words: &[b"query", b"host:5552", b"s", b"p"],
            input: b"",
            server: &[PEER, MECHANISMS, WELCOME, TUNE, HOST, VERSIONS, SEQUENCE_7],
        },
        written: b"7\n",
        sent: &[QUERY],
    },
    Case {
        play: Play {
            words: &[b"consume", b"host:5552", b"s", b"1", b"1"],
            input: b"",
            server: &[
                PEER, MECHANISMS, WELCOME, TUNE, HOST, VERSIONS, SUBSCRIBED, DELIVERY,
            ],
        },
        written: b"1 61\n",
        sent: &[],
    },
];

// The client's part of the opening.
const OPENING: [&str; 6] = [
    ASK_PEER,
    ASK_MECHANISMS,
    LOGIN,
    TUNED,
    OPEN_HOST,
    ASK_VERSIONS,
];

// Whether the client sent the opening and these frames behind it. Nothing is told of a subscription.
fn has_sent(alloc: Global, sent: &[u8], frames: &[&str]) -> Result<bool, AllocError> {
    let mut wanted = bytes_of(alloc, &OPENING)?;
    let more = bytes_of(alloc, frames)?;
    wanted.push_slice(more.as_slice())?;
    if frames.is_empty() {
        return Ok(sent.starts_with(wanted.as_slice()));
    }
    Ok(sent == wanted.as_slice())
}

fn is_as_told<W: Wait>(rt: &W, alloc: Global, case: &Case, most: usize) -> bool {
    let Ok(played) = run_play(rt, alloc, &case.play, &Fails::NONE, most) else {
        return false;
    };
    let Ok(is_sent) = has_sent(alloc, played.sent.as_slice(), case.sent) else {
        return false;
    };
    played.status == 0 && played.written.as_slice() == case.written && is_sent
}

#[test]
fn acts_end_well_in_pieces_of_any_size(rt: HostRuntime) {
    for most in [1, 3, 13] {
        for case in &CASES {
            assert!(rt;
                is_as_told(&rt, rt.alloc(), case, most),
                "{:?} in pieces of {most} bytes",
                case.play
            );
        }
    }
}
