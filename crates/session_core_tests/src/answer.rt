//! Answers as numbers.

use session_tables::SessionEnd;

/// It was done, or it is what is wanted.
pub const DONE: i64 = 0;
/// The session stands.
pub const STANDS: i64 = -1;
/// There was not enough memory.
pub const MEMORY: i64 = -2;
/// The peer's connection ended.
pub const PEER_ENDED: i64 = -3;
/// The peer sent Close.
pub const CLOSED_BY_PEER: i64 = -4;
/// The peer was silent.
pub const SILENT: i64 = -5;
/// More than a number of these tests can tell.
pub const OTHER: i64 = -6;
/// There is no stream of the name.
pub const MISSING: i64 = -7;
/// No epoch runs on the stream.
pub const CLOSED: i64 = -8;
/// A receive failed.
pub const READ_FAULT: i64 = -9;
/// A send failed.
pub const WRITE_FAULT: i64 = -10;
/// The server closed the connection; to it the code is added.
pub const CLOSED_BY_US: i64 = 1_000_000;

/// `DONE` where these bytes are wanted, else 1 and how many bytes there are.
pub(crate) fn of_bytes(told: &[u8], wanted: &[u8]) -> i64 {
    if told == wanted {
        return DONE;
    }
    match i64::try_from(told.len()) {
        Ok(len) => len.saturating_add(1),
        Err(_) => OTHER,
    }
}

/// How a session ended.
pub(crate) fn of_end(how: Option<SessionEnd>) -> i64 {
    match how {
        None => STANDS,
        Some(SessionEnd::PeerEnded) => PEER_ENDED,
        Some(SessionEnd::ClosedByPeer) => CLOSED_BY_PEER,
        Some(SessionEnd::ClosedByUs(code)) => CLOSED_BY_US.saturating_add(i64::from(code)),
        Some(SessionEnd::Silent) => SILENT,
        Some(SessionEnd::Memory) => MEMORY,
        Some(SessionEnd::ReadFault) => READ_FAULT,
        Some(SessionEnd::WriteFault) => WRITE_FAULT,
    }
}
