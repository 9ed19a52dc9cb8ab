//! Links in memory that are served over a hub in memory.

use crate::answer::{
    CLOSED_BY_PEER, CLOSED_BY_US, DONE, MEMORY, PEER_ENDED, READ_FAULT, SILENT, WRITE_FAULT,
    of_bytes, of_end,
};
use crate::frames::{
    CLOSE, CLOSE_TOLD, CONF_BATCH, CREATE, CREATE_TOLD, DECLARE_UNNAMED, DECLARE_UNNAMED_TOLD,
    DELIVER_BATCH, HANDSHAKE, HANDSHAKE_TOLD, HEARTBEAT, HOST, HOST_TOLD, LOGIN, LOGIN_TOLD, PEER,
    PEER_TOLD, PUB_BATCH, SUBSCRIBE_2, SUBSCRIBE_2_TOLD, SUBSCRIBE_FIRST, SUBSCRIBE_FIRST_TOLD,
    SUBSCRIBE_SINGLE_0, SUBSCRIBE_SINGLE_0_TOLD, TOO_LARGE, TOO_LARGE_TOLD, TUNE, TUNE_ANSWER,
    UPDATE_0,
};
use crate::step::bytes_of;
use crate::talk::{new_talk, text};
use frame_wire::Octets;
use hub_terms::{ConsumerId, Hub};
use memory_hub::MemoryHub;
use outside_io::{MemoryLink, StepClock};
use session_link::serve_link;
use std::alloc::{AllocError, Global};
use std::sync::Wait;

/// A link: the peer's frames; the receives that find nothing, those that fail, and the sends that fail, by their numbers from 1;
/// the moments of the clock; how the link ends; and the frames that are sent.
#[derive(Clone, Copy, Debug)]
struct Case {
    peer: &'static [&'static str],
    quiets: &'static [u64],
    bad_receives: &'static [u64],
    bad_sends: &'static [u64],
    moments: [u64; 6],
    end: i64,
    sent: &'static [&'static str],
}

const AT_ONCE: [u64; 6] = [0, 0, 0, 0, 0, 0];

/// A client that publishes and subscribes in one piece, and what it is told, in the order of feed and poll.
const ACTIVE: &[&str] = &[
    PEER,
    HANDSHAKE,
    LOGIN,
    TUNE_ANSWER,
    HOST,
    CREATE,
    DECLARE_UNNAMED,
    PUB_BATCH,
    SUBSCRIBE_2,
];

const ACTIVE_TOLD: &[&str] = &[
    PEER_TOLD,
    HANDSHAKE_TOLD,
    LOGIN_TOLD,
    HOST_TOLD,
    CREATE_TOLD,
    DECLARE_UNNAMED_TOLD,
    SUBSCRIBE_2_TOLD,
    CONF_BATCH,
    DELIVER_BATCH,
];

const CASES: [Case; 8] = [
    Case {
        peer: ACTIVE,
        quiets: &[],
        bad_receives: &[],
        bad_sends: &[],
        moments: AT_ONCE,
        end: PEER_ENDED,
        sent: ACTIVE_TOLD,
    },
    Case {
        peer: ACTIVE,
        quiets: &[1, 2, 4],
        bad_receives: &[],
        bad_sends: &[2],
        moments: AT_ONCE,
        end: PEER_ENDED,
        sent: ACTIVE_TOLD,
    },
    Case {
        peer: ACTIVE,
        quiets: &[],
        bad_receives: &[1],
        bad_sends: &[],
        moments: AT_ONCE,
        end: READ_FAULT,
        sent: &[],
    },
    Case {
        peer: ACTIVE,
        quiets: &[],
        bad_receives: &[2],
        bad_sends: &[],
        moments: AT_ONCE,
        end: READ_FAULT,
        sent: ACTIVE_TOLD,
    },
    Case {
        peer: ACTIVE,
        quiets: &[],
        bad_receives: &[],
        bad_sends: &[1],
        moments: AT_ONCE,
        end: WRITE_FAULT,
        sent: &[],
    },
    Case {
        peer: &[PEER, CLOSE, HANDSHAKE],
        quiets: &[],
        bad_receives: &[2],
        bad_sends: &[],
        moments: AT_ONCE,
        end: CLOSED_BY_PEER,
        sent: &[PEER_TOLD, CLOSE_TOLD],
    },
    Case {
        peer: &[TOO_LARGE],
        quiets: &[],
        bad_receives: &[2],
        bad_sends: &[],
        moments: AT_ONCE,
        end: CLOSED_BY_US + 14,
        sent: &[TOO_LARGE_TOLD],
    },
    Case {
        peer: &[PEER, HANDSHAKE, LOGIN, TUNE, HOST],
        quiets: &[2, 3, 4, 5, 6],
        bad_receives: &[7],
        bad_sends: &[],
        moments: [0, 59_999, 60_000, 60_001, 119_999, 120_000],
        end: SILENT,
        sent: &[PEER_TOLD, HANDSHAKE_TOLD, LOGIN_TOLD, HOST_TOLD, HEARTBEAT],
    },
];

/// The bytes of frames, one behind the other.
fn all_bytes(alloc: Global, frames: &[&str]) -> Result<Octets, AllocError> {
    let mut all = Octets::new(alloc);
    for frame in frames {
        all.push_slice(bytes_of(alloc, frame).as_slice())?;
    }
    Ok(all)
}

/// Serves a link of session 1, and tells how it ended.
fn serve<W: Wait>(
    rt: &W,
    alloc: Global,
    link: &mut MemoryLink,
    hub: &mut MemoryHub,
    clock: &mut StepClock,
) -> i64 {
    match new_talk(alloc) {
        Ok(talk) => of_end(Some(serve_link(rt, alloc, link, hub, clock, talk.session))),
        Err(_) => MEMORY,
    }
}

/// Serves the link of a case, and tells `DONE` where it ends and sends as it is to.
fn wrong_over<W: Wait>(
    rt: &W,
    alloc: Global,
    case: &Case,
    hub: &mut MemoryHub,
) -> Result<i64, AllocError> {
    let peer = all_bytes(alloc, case.peer)?;
    let sent = all_bytes(alloc, case.sent)?;
    let mut link = MemoryLink::new(
        alloc,
        peer.as_slice(),
        case.quiets,
        case.bad_receives,
        case.bad_sends,
    )?;
    let mut clock = StepClock::new(alloc, &case.moments)?;
    let end = serve(rt, alloc, &mut link, hub, &mut clock);
    if end != case.end {
        return Ok(end);
    }
    Ok(of_bytes(link.sent(), sent.as_slice()))
}

/// The same over a hub without streams.
fn wrong_of<W: Wait>(rt: &W, alloc: Global, case: &Case) -> Result<i64, AllocError> {
    let mut hub = MemoryHub::new(alloc, 16, &[])?;
    wrong_over(rt, alloc, case, &mut hub)
}

fn wrong_in<W: Wait>(rt: &W, alloc: Global, case: &Case) -> i64 {
    match wrong_of(rt, alloc, case) {
        Ok(told) => told,
        Err(_) => MEMORY,
    }
}

#[test]
fn served_links_end_and_send_as_told(rt: HostRuntime) {
    for at in 0..CASES.len() {
        assert_eq!(rt; wrong_in(&rt, rt.alloc(), &CASES[at]), DONE, "case {at}");
    }
}

/// A client that subscribes, and then publishes a message that two receives bring.
const LONG: &[&str] = &[
    PEER,
    HANDSHAKE,
    LOGIN,
    TUNE_ANSWER,
    HOST,
    CREATE,
    DECLARE_UNNAMED,
    SUBSCRIBE_FIRST,
];

const LONG_TOLD: &[&str] = &[
    PEER_TOLD,
    HANDSHAKE_TOLD,
    LOGIN_TOLD,
    HOST_TOLD,
    CREATE_TOLD,
    DECLARE_UNNAMED_TOLD,
    SUBSCRIBE_FIRST_TOLD,
];

/// The message's length in bytes. Its confirm has 21 bytes, the head of its delivery 9, and the tail 52 more than the message.
const LENGTH: u32 = 70_000;

/// The sends that fail, how the link ends, and how many bytes are sent behind the answers, which are the first send. The second
/// is of what is joined, the third of the long tail alone.
const LONG_CASES: [(&[u64], i64, usize); 4] = [
    (&[], PEER_ENDED, 70_082),
    (&[2], WRITE_FAULT, 0),
    (&[3], WRITE_FAULT, 30),
    (&[4], PEER_ENDED, 70_082),
];

/// The frames of a client, and behind them a message of publisher 0.
fn with_message(alloc: Global, frames: &[&str], len: u32) -> Result<Octets, AllocError> {
    let mut all = all_bytes(alloc, frames)?;
    let body = vec![in alloc; 97; len as usize]?;
    all.push_slice(&len.saturating_add(21).to_be_bytes())?;
    all.push_slice(bytes_of(alloc, "0002000100000000010000000000000001").as_slice())?;
    all.push_slice(&len.to_be_bytes())?;
    all.push_slice(body.as_slice())?;
    Ok(all)
}

/// `DONE` where these bytes begin with the answers, and so many more stand behind them.
fn behind(sent: &[u8], told: &[u8], more: usize) -> i64 {
    if sent.starts_with(told) && sent.len() == told.len().saturating_add(more) {
        return DONE;
    }
    of_bytes(sent, told)
}

fn wrong_of_long<W: Wait>(
    rt: &W,
    alloc: Global,
    case: (&[u64], i64, usize),
) -> Result<i64, AllocError> {
    let (bad_sends, wanted, more) = case;
    let peer = with_message(alloc, LONG, LENGTH)?;
    let told = all_bytes(alloc, LONG_TOLD)?;
    let mut link = MemoryLink::new(alloc, peer.as_slice(), &[], &[], bad_sends)?;
    let mut clock = StepClock::new(alloc, &AT_ONCE)?;
    let mut hub = MemoryHub::new(alloc, 16, &[])?;
    let end = serve(rt, alloc, &mut link, &mut hub, &mut clock);
    if end != wanted {
        return Ok(end);
    }
    Ok(behind(link.sent(), told.as_slice(), more))
}

fn wrong_in_long<W: Wait>(rt: &W, alloc: Global, case: (&[u64], i64, usize)) -> i64 {
    match wrong_of_long(rt, alloc, case) {
        Ok(told) => told,
        Err(_) => MEMORY,
    }
}

#[test]
fn a_long_tail_goes_alone(rt: HostRuntime) {
    for at in 0..LONG_CASES.len() {
        assert_eq!(rt;
            wrong_in_long(&rt, rt.alloc(), LONG_CASES[at]),
            DONE,
            "case {at}"
        );
    }
}

/// A consumer of the group `g`, which is asked to be active and doesn't answer.
const SINGLE: Case = Case {
    peer: &[
        PEER,
        HANDSHAKE,
        LOGIN,
        TUNE_ANSWER,
        HOST,
        CREATE,
        SUBSCRIBE_SINGLE_0,
    ],
    quiets: &[],
    bad_receives: &[],
    bad_sends: &[],
    moments: AT_ONCE,
    end: PEER_ENDED,
    sent: &[
        PEER_TOLD,
        HANDSHAKE_TOLD,
        LOGIN_TOLD,
        HOST_TOLD,
        CREATE_TOLD,
        SUBSCRIBE_SINGLE_0_TOLD,
        UPDATE_0,
    ],
};

/// Whether a consumer of another session that joins the group is asked to be active.
fn next_is_asked(alloc: Global, hub: &mut MemoryHub) -> Result<bool, AllocError> {
    let group = text(alloc, b"g")?;
    let consumer = ConsumerId {
        session: 2,
        serial: 1,
    };
    hub.join(1, &group, consumer)?;
    Ok(hub.change(2).is_some())
}

fn leaves_its_group<W: Wait>(rt: &W, alloc: Global) -> Result<bool, AllocError> {
    let mut hub = MemoryHub::new(alloc, 16, &[])?;
    let served = wrong_over(rt, alloc, &SINGLE, &mut hub)?;
    let is_asked = next_is_asked(alloc, &mut hub)?;
    Ok(served == DONE && is_asked)
}

#[test]
fn consumers_leave_their_groups_at_the_end(rt: HostRuntime) {
    assert_eq!(rt; leaves_its_group(&rt, rt.alloc()), Ok(true));
}
