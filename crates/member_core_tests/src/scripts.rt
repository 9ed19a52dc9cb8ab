use crate::trio::{Letter, Trio};
use epoch_coordinator::Message;
use std::alloc::{AllocError, Global};
use std::test::Fail;

/// A line of a script: an election, the pending job of a member or of 0, a letter delivered by its
/// number from 1 on, a member that goes down and comes up, or all that is pending.
#[derive(Clone, Copy)]
enum Act {
    Elect,
    Work(u8),
    Deliver(usize),
    Restart(u8),
    Settle,
}

use Act::{Deliver, Elect, Restart, Settle, Work};

/// A letter: its receiver, the first letters of its kind, and its epoch.
type Mail = (u8, &'static str, u64);

/// Members 1 and 2 elect 1 in epoch 2, and it writes a chunk that nobody gets. Members 2 and 3
/// elect 2 in epoch 3.
const COMMON: &[Act] = &[
    Elect,
    Work(0),
    Deliver(1),
    Work(1),
    Deliver(2),
    Work(2),
    Deliver(4),
    Deliver(5),
    Deliver(6),
    Work(1),
    Elect,
    Work(0),
    Deliver(11),
    Work(2),
    Deliver(12),
    Work(3),
    Deliver(13),
    Deliver(14),
    Deliver(15),
    Work(2),
];

const COMMON_MAIL: &[Mail] = &[
    (1, "stop", 2),
    (2, "stop", 2),
    (3, "stop", 2),
    (0, "stopped", 2),
    (0, "stopped", 2),
    (1, "open", 2),
    (2, "follow", 2),
    (2, "append", 2),
    (3, "append", 2),
    (1, "stop", 3),
    (2, "stop", 3),
    (3, "stop", 3),
    (0, "stopped", 3),
    (0, "stopped", 3),
    (2, "open", 3),
    (3, "follow", 3),
    (1, "append", 3),
    (3, "append", 3),
];

/// Member 1 leads again in epoch 4 and sends 3 the chunk of epoch 2, which then two of three have.
const OLDER: &[Act] = &[
    Elect,
    Work(0),
    Deliver(19),
    Work(1),
    Deliver(21),
    Work(3),
    Deliver(22),
    Deliver(23),
    Deliver(24),
    Work(1),
    Deliver(25),
    Deliver(28),
    Deliver(29),
    Work(3),
    Deliver(30),
];

const OLDER_MAIL: &[Mail] = &[
    (1, "stop", 4),
    (2, "stop", 4),
    (3, "stop", 4),
    (0, "stopped", 4),
    (0, "stopped", 4),
    (1, "open", 4),
    (3, "follow", 4),
    (2, "append", 4),
    (3, "append", 4),
    (1, "ask", 4),
    (3, "append", 4),
    (1, "ask", 4),
    (3, "append", 4),
];

const FIFTH: &[Act] = &[
    Elect,
    Work(0),
    Deliver(33),
    Work(2),
    Deliver(34),
    Work(3),
    Deliver(35),
    Deliver(36),
];

const FIFTH_MAIL: &[Mail] = &[
    (1, "stop", 5),
    (2, "stop", 5),
    (3, "stop", 5),
    (0, "stopped", 5),
    (0, "stopped", 5),
    (2, "open", 5),
    (3, "follow", 5),
];

/// Member 1 follows 2 in epoch 3, cuts its chunk of epoch 2 and takes the one of epoch 3.
const LATE: &[Act] = &[
    Deliver(10),
    Work(1),
    Deliver(19),
    Deliver(20),
    Deliver(21),
    Deliver(22),
    Work(1),
    Deliver(23),
    Deliver(24),
    Work(1),
    Deliver(25),
];

const LATE_MAIL: &[Mail] = &[
    (0, "stopped", 3),
    (1, "follow", 3),
    (2, "ask", 3),
    (1, "shape", 3),
    (2, "ask", 3),
    (1, "append", 3),
    (2, "ask", 3),
];

/// It comes up again, follows again, and late messages change nothing.
const AGAIN: &[Act] = &[
    Restart(1),
    Deliver(20),
    Deliver(22),
    Work(1),
    Deliver(25),
    Deliver(25),
];

const AGAIN_MAIL: &[Mail] = &[(2, "ask", 3)];

fn do_one(trio: &mut Trio, one: Act) -> Result<(), AllocError> {
    match one {
        Act::Elect => {
            trio.elect();
            Ok(())
        }
        Act::Work(member) => trio.work(member),
        Act::Deliver(number) => trio.deliver(number.wrapping_sub(1)),
        Act::Restart(member) => trio.restart(member),
        Act::Settle => trio.settle(),
    }
}

fn play(trio: &mut Trio, acts: &[Act]) -> Result<(), AllocError> {
    for one in acts {
        do_one(trio, *one)?;
    }
    Ok(())
}

fn mailed(letter: &Letter) -> Mail {
    let to = letter.sent.to;
    match &letter.sent.message {
        Message::Stop { epoch } => (to, "stop", *epoch),
        Message::Stopped { epoch, .. } => (to, "stopped", *epoch),
        Message::Open { epoch } => (to, "open", *epoch),
        Message::Follow { epoch, .. } => (to, "follow", *epoch),
        Message::Shape { epoch, .. } => (to, "shape", *epoch),
        Message::Ask { epoch, .. } => (to, "ask", *epoch),
        Message::Append { epoch, .. } => (to, "append", *epoch),
    }
}

/// Whether these letters were sent from a place on, and no others.
fn has_sent(trio: &Trio, from: usize, mail: &[Mail]) -> bool {
    let letters = trio.letters.as_slice();
    if letters.len() < from || letters.len() - from != mail.len() {
        return false;
    }
    letters[from..]
        .iter()
        .zip(mail)
        .all(|(letter, wanted)| mailed(letter) == *wanted)
}

/// Epoch 1 runs, and each member has its first chunk.
fn first_epoch(alloc: Global) -> Result<Trio, AllocError> {
    let mut trio = Trio::new(alloc)?;
    play(&mut trio, &[Elect, Settle])?;
    trio.forget();
    Ok(trio)
}

#[test]
fn an_older_epoch_is_not_counted(rt: HostRuntime) -> Result<(), Fail> {
    let mut trio = first_epoch(rt.alloc())?;
    assert_eq!(rt; trio.counts(), [(1, 1), (1, 0), (1, 0)]);
    play(&mut trio, COMMON)?;
    assert!(rt; has_sent(&trio, 0, COMMON_MAIL), "the common part");
    assert_eq!(rt; trio.counts(), [(2, 0), (2, 0), (1, 0)]);
    play(&mut trio, OLDER)?;
    assert!(rt; has_sent(&trio, 18, OLDER_MAIL), "epoch 4");
    assert_eq!(rt; trio.counts(), [(3, 0), (2, 0), (2, 0)]);
    play(&mut trio, FIFTH)?;
    assert!(rt; has_sent(&trio, 31, FIFTH_MAIL), "epoch 5");
    play(&mut trio, &[Settle])?;
    assert_eq!(rt; trio.counts(), [(3, 0), (3, 3), (3, 0)]);
    Ok(())
}

#[test]
fn late_messages_change_nothing(rt: HostRuntime) -> Result<(), Fail> {
    let mut trio = first_epoch(rt.alloc())?;
    play(&mut trio, COMMON)?;
    assert!(rt; has_sent(&trio, 0, COMMON_MAIL), "the common part");
    play(&mut trio, LATE)?;
    assert!(rt; has_sent(&trio, 18, LATE_MAIL), "epoch 3");
    assert_eq!(rt; trio.counts(), [(2, 0), (2, 2), (1, 0)]);
    play(&mut trio, AGAIN)?;
    assert!(rt; has_sent(&trio, 25, AGAIN_MAIL), "late messages");
    assert_eq!(rt; trio.counts(), [(2, 0), (2, 2), (1, 0)]);
    Ok(())
}
