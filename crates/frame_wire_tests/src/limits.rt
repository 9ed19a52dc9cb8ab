use frame_wire::Limits;
use std::process::Abort;

/// Members, and the streams and bytes of a log that they have; no streams for a wrong number of members.
const MEMBERS: [(u8, u32, u64); 9] = [
    (0, 0, 0),
    (1, 8, 134_217_728),
    (2, 0, 0),
    (3, 8, 134_217_728),
    (4, 0, 0),
    (5, 8, 67_108_864),
    (6, 0, 0),
    (7, 6, 67_108_864),
    (8, 0, 0),
];

fn are_given<R: Abort>(rt: &R, members: u8, streams: u32, log_bytes: u64) {
    match Limits::for_members(members) {
        Some(limits) => {
            assert_eq!(rt; limits.streams, streams, "{members} members");
            assert_eq!(rt; limits.log_bytes, log_bytes, "{members} members");
            assert!(rt; limits.in_bounds(), "{members} members");
        }
        None => assert_eq!(rt; streams, 0, "{members} members"),
    }
}

#[test]
fn limits_follow_the_number_of_members(rt: HostRuntime) {
    for (members, streams, log_bytes) in MEMBERS {
        are_given(&rt, members, streams, log_bytes);
    }
    assert_eq!(rt; Limits::standard().streams, 16);
}

fn are_refused<R: Abort>(rt: &R, limits: Limits) {
    assert!(rt; !limits.in_bounds(), "{limits:?}");
}

#[test]
fn limits_beyond_their_bounds_are_refused(rt: HostRuntime) {
    let mut limits = Limits::standard();
    assert!(rt; limits.in_bounds());
    limits.members = 4;
    are_refused(&rt, limits);
    limits = Limits::standard();
    limits.streams = 17;
    are_refused(&rt, limits);
    limits = Limits::standard();
    limits.log_bytes = 67_108_865;
    are_refused(&rt, limits);
    limits = Limits::standard();
    limits.queue = 0;
    are_refused(&rt, limits);
}
