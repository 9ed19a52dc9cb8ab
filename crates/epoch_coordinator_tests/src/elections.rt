use epoch_coordinator::{Coordinator, Elected, Message, StoppedDid, Tail};
use std::alloc::{AllocError, Global};
use std::test::Fail;

/// A member, and the epoch and end of its tail.
type Reply = (u8, u64, u64);

/// How many members there are, the replies in order, the leader and the bits of its electors, and
/// the members that a nudge then tells to stop.
type Case = (u8, &'static [Reply], u8, u8, &'static [u8]);

const CASES: [Case; 8] = [
    (1, &[(1, 0, 0)], 1, 0b1, &[]),
    (3, &[(1, 1, 1), (2, 1, 1)], 1, 0b11, &[3]),
    // of equals the least number, whoever replied first
    (3, &[(3, 1, 1), (2, 1, 1)], 2, 0b110, &[1]),
    // the greater epoch, though its log is shorter
    (3, &[(1, 2, 9), (3, 3, 4)], 3, 0b101, &[2]),
    (3, &[(2, 2, 5), (1, 2, 4)], 2, 0b11, &[3]),
    // a second reply of a member isn't counted, and its first tail counts
    (3, &[(1, 1, 1), (1, 9, 9), (3, 1, 2)], 3, 0b101, &[2]),
    // numbers of no member are passed over
    (
        5,
        &[(0, 9, 9), (6, 9, 9), (5, 1, 3), (4, 1, 3), (2, 1, 1)],
        4,
        0b11010,
        &[1, 3],
    ),
    (
        7,
        &[(7, 2, 2), (6, 2, 2), (5, 2, 1), (1, 1, 8)],
        6,
        0b1110001,
        &[2, 3, 4],
    ),
];

/// A coordinator that elects in epoch 8.
fn electing(alloc: Global, members: u8) -> Result<Option<Coordinator>, AllocError> {
    if members < 1 || members > 7 {
        return Ok(None);
    }
    let mut coordinator = Coordinator::open(alloc, members, 7)?;
    if coordinator.elect() != (Elected::Asked { epoch: 8 }) {
        return Ok(None);
    }
    if coordinator.job().is_none() {
        return Ok(None);
    }
    let sent = coordinator.done()?;
    if sent.as_slice().len() != members as usize {
        return Ok(None);
    }
    Ok(Some(coordinator))
}

/// The leader and the electors that the replies lead to.
fn play(coordinator: &mut Coordinator, replies: &[Reply]) -> Option<(u8, u8)> {
    for (from, epoch, end) in replies {
        let tail = Tail {
            epoch: *epoch,
            end: *end,
        };
        if let StoppedDid::Opened {
            epoch: _,
            leader,
            electors,
        } = coordinator.stopped(8, *from, tail)
        {
            return Some((leader, electors));
        }
    }
    None
}

/// Whether a nudge tells exactly these members to stop, in epoch 8.
fn nudges(coordinator: &Coordinator, alloc: Global, members: &[u8]) -> Result<bool, AllocError> {
    let sent = coordinator.nudge(alloc)?;
    let sent = sent.as_slice();
    if sent.len() != members.len() {
        return Ok(false);
    }
    for (sent, member) in sent.iter().zip(members) {
        if sent.to != *member || !matches!(sent.message, Message::Stop { epoch: 8 }) {
            return Ok(false);
        }
    }
    Ok(true)
}

#[test]
fn a_majority_elects_the_greatest_tail(rt: HostRuntime) -> Result<(), Fail> {
    for (members, replies, leader, electors, rest) in CASES {
        let Some(mut coordinator) = electing(rt.alloc(), members)? else {
            assert!(rt; false, "no election of {members}");
            return Ok(());
        };
        let elected = play(&mut coordinator, replies);
        assert_eq!(rt;
            elected,
            Some((leader, electors)),
            "of {members} with {replies:?}"
        );
        assert_eq!(rt; coordinator.running(), Some((8, leader)), "of {members}");
        assert!(rt;
            nudges(&coordinator, rt.alloc(), rest)?,
            "of {members}, {rest:?}"
        );
    }
    Ok(())
}

/// A late reply of an epoch, of a member, and what is then sent to it: `s`, `o`, `f` or nothing.
const LATE: [(u64, u8, Option<char>); 6] = [
    (7, 3, Some('s')),
    (8, 3, Some('f')),
    (8, 1, Some('o')),
    (8, 2, Some('f')),
    (9, 2, None),
    (8, 4, None),
];

fn first_letter(answer: &StoppedDid, to: u8) -> Option<char> {
    let StoppedDid::Send1(sent) = answer else {
        return None;
    };
    if sent.to != to {
        return Some('?');
    }
    match sent.message {
        Message::Stop { epoch: 8 } => Some('s'),
        Message::Open { epoch: 8 } => Some('o'),
        Message::Follow {
            epoch: 8,
            leader: 1,
        } => Some('f'),
        _ => Some('?'),
    }
}

#[test]
fn a_late_reply_is_answered(rt: HostRuntime) -> Result<(), Fail> {
    let Some(mut coordinator) = electing(rt.alloc(), 3)? else {
        assert!(rt; false, "no election");
        return Ok(());
    };
    let elected = play(&mut coordinator, &[(1, 1, 1), (2, 1, 1)]);
    assert_eq!(rt; elected, Some((1, 3)));
    for (epoch, from, wanted) in LATE {
        let tail = Tail { epoch: 1, end: 1 };
        let answer = coordinator.stopped(epoch, from, tail);
        let letter = first_letter(&answer, from);
        assert_eq!(rt; letter, wanted, "of {from} in {epoch}");
    }
    Ok(())
}
