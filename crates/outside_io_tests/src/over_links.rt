use frame_wire::Row;
use outside_io::{
    Accepted, Clock, Gave, Heard, Link, Listener, MemoryLink, MemoryListener, StepClock,
};
use std::alloc::{AllocError, Global};
use std::test::Fail;

// Receives once, into three bytes, and sends what came.
fn send_back<L: Link>(link: &mut L) -> (Heard, Gave) {
    let mut buf = [0u8; 3];
    let heard = link.receive(&mut buf);
    match heard {
        Heard::Got(count) => (heard, link.send(&buf[..count])),
        Heard::Quiet | Heard::Ended | Heard::Failed => (heard, Gave::Done),
    }
}

/// The receives that are quiet, those that fail and the sends that fail, the answers of five turns,
/// and what was sent.
type Case = (
    &'static [u64],
    &'static [u64],
    &'static [u64],
    [(Heard, Gave); 5],
    &'static [u8],
);

const CASES: [Case; 4] = [
    (
        &[],
        &[],
        &[],
        [
            (Heard::Got(3), Gave::Done),
            (Heard::Got(2), Gave::Done),
            (Heard::Ended, Gave::Done),
            (Heard::Ended, Gave::Done),
            (Heard::Ended, Gave::Done),
        ],
        b"hello",
    ),
    (
        &[1, 3],
        &[],
        &[],
        [
            (Heard::Quiet, Gave::Done),
            (Heard::Got(3), Gave::Done),
            (Heard::Quiet, Gave::Done),
            (Heard::Got(2), Gave::Done),
            (Heard::Ended, Gave::Done),
        ],
        b"hello",
    ),
    (
        &[2, 4],
        &[2, 5],
        &[1],
        [
            (Heard::Got(3), Gave::Failed),
            (Heard::Failed, Gave::Done),
            (Heard::Got(2), Gave::Done),
            (Heard::Quiet, Gave::Done),
            (Heard::Failed, Gave::Done),
        ],
        b"lo",
    ),
    (
        &[0, 9],
        &[4],
        &[2],
        [
            (Heard::Got(3), Gave::Done),
            (Heard::Got(2), Gave::Failed),
            (Heard::Ended, Gave::Done),
            (Heard::Failed, Gave::Done),
            (Heard::Ended, Gave::Done),
        ],
        b"hel",
    ),
];

#[test]
fn links_in_memory_answer_by_their_lists(rt: HostRuntime) -> Result<(), Fail> {
    for (quiets, bad_receives, bad_sends, answers, sent) in CASES {
        let mut link = MemoryLink::new(rt.alloc(), b"hello", quiets, bad_receives, bad_sends)?;
        for answer in answers {
            assert_eq!(rt;
                send_back(&mut link),
                answer,
                "where {quiets:?} are quiet, {bad_receives:?} and {bad_sends:?} fail"
            );
        }
        assert_eq!(rt; link.sent(), sent, "where {bad_sends:?} fail");
    }
    Ok(())
}

// Sends back all that comes, and tells whether the peer ended after it.
fn echoes<L: Link>(link: &mut L) -> bool {
    let mut buf = [0u8; 4096];
    for _ in 0..1000 {
        match link.receive(&mut buf) {
            Heard::Got(count) => match link.send(&buf[..count]) {
                Gave::Done => (),
                Gave::Failed => return false,
            },
            Heard::Quiet => (),
            Heard::Ended => return true,
            Heard::Failed => return false,
        }
    }
    false
}

// So many bytes.
fn sevens(alloc: Global, len: usize) -> Result<Vec<u8>, AllocError> {
    vec![in alloc; 7; len]
}

#[test]
fn a_mebibyte_goes_through_a_link_in_memory(rt: HostRuntime) -> Result<(), Fail> {
    let bytes = sevens(rt.alloc(), 1_048_576)?;
    let mut link = MemoryLink::new(rt.alloc(), bytes.as_slice(), &[3, 5], &[], &[])?;
    assert!(rt; echoes(&mut link));
    assert!(rt; link.sent() == bytes.as_slice());
    Ok(())
}

// A row of links over which these words come.
fn links_of(alloc: Global, words: &[&[u8]]) -> Result<Row<MemoryLink>, AllocError> {
    let mut links = Row::new(alloc);
    for word in words {
        let link = MemoryLink::new(alloc, word, &[], &[], &[])?;
        if links.push(link).is_err() {
            return Err(AllocError);
        }
    }
    Ok(links)
}

// What the first receive of the next link answers, or the accept where it gave no link.
fn first_of<N: Listener>(listener: &mut N) -> Heard {
    match listener.accept() {
        Accepted::Got(mut link) => send_back(&mut link).0,
        Accepted::Ended => Heard::Ended,
        Accepted::Failed => Heard::Failed,
    }
}

#[test]
fn a_listener_in_memory_hands_out_its_links_in_order(rt: HostRuntime) -> Result<(), Fail> {
    let links = links_of(rt.alloc(), &[b"a", b"bc", b"def"])?;
    let mut listener = MemoryListener::new(rt.alloc(), links, &[2, 6])?;
    for heard in [
        Heard::Got(1),
        Heard::Failed,
        Heard::Got(2),
        Heard::Got(3),
        Heard::Ended,
        Heard::Failed,
        Heard::Ended,
    ] {
        assert_eq!(rt; first_of(&mut listener), heard);
    }
    Ok(())
}

#[test]
fn a_clock_in_memory_repeats_its_last_moment(rt: HostRuntime) -> Result<(), Fail> {
    let mut clock = StepClock::new(rt.alloc(), &[5, 3, 9])?;
    for moment in [5, 3, 9, 9, 9] {
        assert_eq!(rt; clock.now(), moment);
    }
    Ok(())
}
