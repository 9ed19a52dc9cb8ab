//! How a session ends of itself.

ghost use Rattle.std.specs.Prelude.{◌≡◌};
ghost use Rattle.session_link.specs.Turns.{own_end};

use session_core::Session;
use session_tables::SessionEnd;

/// How it ended, where that came of itself and not of its link.
pub(crate) fn ended_of_itself(session: &Session) -> Option<SessionEnd>
    ensures { result ≡ own_end session.now.tables.ended }
{
    match session.ended() {
        Some(SessionEnd::PeerEnded | SessionEnd::ReadFault | SessionEnd::WriteFault) => None,
        ended => ended,
    }
}
