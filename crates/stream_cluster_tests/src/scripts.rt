use crate::played::{Mail, Played, Step};
use Step::{Again, Deliver, Elect, Forget, Nudge, Settle, Work};
use frame_wire::Limits;
use std::alloc::{AllocError, Global};
use std::test::Fail;

/// Members 1 and 2 elect 1 in epoch 2, and it writes a chunk that nobody gets. Members 2 and 3
/// elect 2 in epoch 3.
const COMMON: &[Step] = &[
    Elect,
    Work(0),
    Deliver(1),
    Work(1),
    Deliver(2),
    Work(2),
    Deliver(4),
    Deliver(5),
    Deliver(6),
    Work(1),
    Elect,
    Work(0),
    Deliver(11),
    Work(2),
    Deliver(12),
    Work(3),
    Deliver(13),
    Deliver(14),
    Deliver(15),
    Work(2),
];

const COMMON_MAIL: &[Mail] = &[
    (1, "stop", 2),
    (2, "stop", 2),
    (3, "stop", 2),
    (0, "stopped", 2),
    (0, "stopped", 2),
    (1, "open", 2),
    (2, "follow", 2),
    (2, "append", 2),
    (3, "append", 2),
    (1, "stop", 3),
    (2, "stop", 3),
    (3, "stop", 3),
    (0, "stopped", 3),
    (0, "stopped", 3),
    (2, "open", 3),
    (3, "follow", 3),
    (1, "append", 3),
    (3, "append", 3),
];

/// Member 1 leads again in epoch 4 and sends 3 the chunk of epoch 2, which then two of three have.
const OLDER: &[Step] = &[
    Elect,
    Work(0),
    Deliver(19),
    Work(1),
    Deliver(21),
    Work(3),
    Deliver(22),
    Deliver(23),
    Deliver(24),
    Work(1),
    Deliver(25),
    Deliver(28),
    Deliver(29),
    Work(3),
    Deliver(30),
];

const OLDER_MAIL: &[Mail] = &[
    (1, "stop", 4),
    (2, "stop", 4),
    (3, "stop", 4),
    (0, "stopped", 4),
    (0, "stopped", 4),
    (1, "open", 4),
    (3, "follow", 4),
    (2, "append", 4),
    (3, "append", 4),
    (1, "ask", 4),
    (3, "append", 4),
    (1, "ask", 4),
    (3, "append", 4),
];

const FIFTH: &[Step] = &[
    Elect,
    Work(0),
    Deliver(33),
    Work(2),
    Deliver(34),
    Work(3),
    Deliver(35),
    Deliver(36),
];

const FIFTH_MAIL: &[Mail] = &[
    (1, "stop", 5),
    (2, "stop", 5),
    (3, "stop", 5),
    (0, "stopped", 5),
    (0, "stopped", 5),
    (2, "open", 5),
    (3, "follow", 5),
];

/// Member 1 follows 2 in epoch 3, cuts its chunk of epoch 2 and takes the one of epoch 3.
const LATE: &[Step] = &[
    Deliver(10),
    Work(1),
    Deliver(19),
    Deliver(20),
    Deliver(21),
    Deliver(22),
    Work(1),
    Deliver(23),
    Deliver(24),
    Work(1),
    Deliver(25),
];

const LATE_MAIL: &[Mail] = &[
    (0, "stopped", 3),
    (1, "follow", 3),
    (2, "ask", 3),
    (1, "shape", 3),
    (2, "ask", 3),
    (1, "append", 3),
    (2, "ask", 3),
];

/// It comes up again, follows again, and late messages change nothing.
const AGAIN: &[Step] = &[
    Again(1),
    Deliver(20),
    Deliver(22),
    Work(1),
    Deliver(25),
    Deliver(25),
];

const AGAIN_MAIL: &[Mail] = &[(2, "ask", 3)];

/// Epoch 1 runs, and each member has its first chunk.
const FIRST: &[Step] = &[Elect, Settle, Forget];

const REST: &[Step] = &[Nudge, Settle];

fn play(played: &mut Played, steps: &[Step]) {
    for step in steps {
        played.answer(*step);
    }
}

/// A stream whose first epoch runs.
fn first_epoch(alloc: Global) -> Result<Played, AllocError> {
    let mut played = Played::new(alloc, Limits::standard())?;
    play(&mut played, FIRST);
    Ok(played)
}

/// How many chunks the members have, by number, and then the committed list.
fn counts(played: &mut Played) -> (u64, u64, u64, u64) {
    let one = played.answer(Step::Held(1));
    let two = played.answer(Step::Held(2));
    let three = played.answer(Step::Held(3));
    (one, two, three, played.answer(Step::Committed))
}

#[test]
fn an_older_epoch_is_not_counted(rt: HostRuntime) -> Result<(), Fail> {
    let mut played = first_epoch(rt.alloc())?;
    assert_eq!(rt; counts(&mut played), (1, 1, 1, 1));
    play(&mut played, COMMON);
    assert!(rt; played.has_sent(0, COMMON_MAIL), "the common part");
    assert_eq!(rt; counts(&mut played), (2, 2, 1, 1));
    play(&mut played, OLDER);
    assert!(rt; played.has_sent(18, OLDER_MAIL), "epoch 4");
    assert_eq!(rt; counts(&mut played), (3, 2, 2, 1));
    play(&mut played, FIFTH);
    assert!(rt; played.has_sent(31, FIFTH_MAIL), "epoch 5");
    play(&mut played, REST);
    assert_eq!(rt; counts(&mut played), (3, 3, 3, 3));
    Ok(())
}

#[test]
fn late_messages_change_nothing(rt: HostRuntime) -> Result<(), Fail> {
    let mut played = first_epoch(rt.alloc())?;
    play(&mut played, COMMON);
    assert!(rt; played.has_sent(0, COMMON_MAIL), "the common part");
    play(&mut played, LATE);
    assert!(rt; played.has_sent(18, LATE_MAIL), "epoch 3");
    assert_eq!(rt; counts(&mut played), (2, 2, 1, 2));
    play(&mut played, AGAIN);
    assert!(rt; played.has_sent(25, AGAIN_MAIL), "late messages");
    assert_eq!(rt; counts(&mut played), (2, 2, 1, 2));
    Ok(())
}
