use frame_wire::{Cut, Cutter, Front, Octets, Row, StreamEnd, frames_of, rests_begin_no_frame};
use std::test::Fail;

// Three frames: two bytes, none, one; then the first three bytes of a size.
const OPEN: &[u8] = &[
    0, 0, 0, 2, 0x61, 0x62, 0, 0, 0, 0, 0, 0, 0, 1, 0x63, 0, 0, 0,
];
// A frame of two bytes, and then a size of three.
const LARGE: &[u8] = &[0, 0, 0, 2, 0x61, 0x62, 0, 0, 0, 3, 0x63, 0x64, 0x65];

#[test]
fn a_stream_has_the_same_frames_however_it_is_cut(rt: HostRuntime) -> Result<(), Fail> {
    let cases: [(&[u8], &[&[u8]], StreamEnd); 2] = [
        (OPEN, &[b"ab", b"", b"c"], StreamEnd::Open),
        (LARGE, &[b"ab"], StreamEnd::TooLarge { size: 3 }),
    ];
    for (stream, bodies, end) in cases {
        for at in 0..stream.len() {
            let mut pieces = Row::new(rt.alloc());
            for part in [&stream[..at], &stream[at..]] {
                let Ok(()) = pieces.push(Octets::copy(rt.alloc(), part)?) else {
                    return Err(Fail::from("no room"));
                };
            }
            let cut = frames_of(rt.alloc(), 2, pieces.as_slice())?;
            assert_eq!(rt; cut.end, end, "cut at {at}");
            let found = cut.bodies.as_slice();
            assert_eq!(rt; found.len(), bodies.len(), "cut at {at}");
            for (body, want) in found.iter().zip(bodies) {
                assert_eq!(rt; body.as_slice(), *want, "cut at {at}");
            }
        }
    }
    Ok(())
}

#[test]
fn a_size_too_large_stays(rt: HostRuntime) -> Result<(), Fail> {
    let mut cutter = Cutter::new(rt.alloc(), 2);
    assert_eq!(rt; cutter.next(), Cut::More);
    cutter.feed(LARGE)?;
    assert_eq!(rt; cutter.next(), Cut::Frame);
    assert_eq!(rt; cutter.body(), b"ab".as_slice());
    for _ in 0..3 {
        assert_eq!(rt; cutter.next(), Cut::TooLarge { size: 3 });
        cutter.feed(OPEN)?;
    }
    Ok(())
}

#[test]
fn a_body_stands_until_the_next_feed(rt: HostRuntime) -> Result<(), Fail> {
    let mut cutter = Cutter::new(rt.alloc(), 9);
    cutter.feed(&OPEN[..8])?;
    assert_eq!(rt; cutter.next(), Cut::Frame);
    assert_eq!(rt; cutter.next(), Cut::More);
    assert_eq!(rt; cutter.body(), b"ab".as_slice());
    cutter.feed(&OPEN[8..])?;
    assert_eq!(rt; cutter.body(), b"".as_slice());
    for body in [b"".as_slice(), b"c".as_slice()] {
        let Front::Frame { body: first } = cutter.front() else {
            return Err(Fail::from("no frame in front"));
        };
        assert_eq!(rt; first, body);
        assert_eq!(rt; cutter.next(), Cut::Frame);
        assert_eq!(rt; cutter.body(), body);
    }
    rests_begin_no_frame();
    assert_eq!(rt; cutter.next(), Cut::More);
    Ok(())
}
