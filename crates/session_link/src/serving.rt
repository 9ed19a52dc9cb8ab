//! The turns of a served link.

ghost use Rattle.std.specs.Prelude.{◌≡◌, ◌<◌, Some, length, IfOk};
ghost use Rattle.std.specs.List.{AllByRecursion};
ghost use Rattle.outside_io.specs.Causes.{HasCause};
ghost use Rattle.hub_terms.specs.Programs.{Runs};
ghost use Rattle.session_tables.specs.Opening.{silent};
ghost use Rattle.session_tables.specs.declared.tables.SessionEnd.TheVariants.{PeerEnded};
ghost use Rattle.session_core.specs.Living.{link_ended_row};
ghost use Rattle.session_core.specs.Outgoing.{IsSayableUnasked};
ghost use Rattle.session_core.specs.Sessions.{link_ended};
ghost use Rattle.session_link.specs.Turns.{served, ended_by, end_of, ReplyBy, TurnBy, Serves, RunsTo};

use crate::ending::ended_of_itself;
use crate::gathering::{Due, take_piece, wait};
use crate::sending::{Went, send_due};
use hub_terms::Hub;
use outside_io::{Clock, Heard, Link};
use session_core::Session;
use session_tables::SessionEnd;
use std::alloc::{AllocError, Global};
use std::sync::Wait;

/// So many bytes are received at most in a turn.
const MOST_RECEIVED: usize = 65_536;

/// Sends what is due, if that could be made.
fn reply<L: Link>(alloc: Global, link: &mut L, made: Result<Due, AllocError>) -> Option<SessionEnd>
    requires { IfOk made (λ due. AllByRecursion IsSayableUnasked due.said) }
    ensures sent { ReplyBy made (L.sent link.old) result (L.sent link.new) }
    ensures heard { L.heard link.new ≡ L.heard link.old }
    ensures ended { L.has_ended link.new ≡ L.has_ended link.old }
    ensures cause { HasCause (L.faults link.old) (L.faults link.new) (result ≡ Some SessionEnd.WriteFault) }
{
    let Ok(due) = made else {
        return Some(SessionEnd::Memory);
    };
    match send_due(alloc, link, due) {
        Went::Sent => None,
        Went::Failed => Some(SessionEnd::WriteFault),
        Went::Memory => Some(SessionEnd::Memory),
    }
}

/// One turn: a receive, and after it what is due. It gives how the link ended, if it did.
fn turn<L: Link, H: Hub, C: Clock>(
    alloc: Global,
    link: &mut L,
    hub: &mut H,
    clock: &mut C,
    session: &mut Session,
    buf: &mut [u8],
) -> Option<SessionEnd>
    requires room { 0 < length buf.old }
    ensures room { length buf.new ≡ length buf.old }
    ensures turn { TurnBy H.meaning (served session.old hub.old (L.heard link.old) (L.sent link.old) (C.moments clock.old)) result (served session.new hub.new (L.heard link.new) (L.sent link.new) (C.moments clock.new)) }
    ensures later { H.meaning.seen.later hub.old hub.new }
    ensures ended { L.has_ended link.new ≡ end_of (L.has_ended link.old) result }
    ensures read { HasCause (L.faults link.old) (L.faults link.new) (result ≡ Some SessionEnd.ReadFault) }
    ensures write { HasCause (L.faults link.old) (L.faults link.new) (result ≡ Some SessionEnd.WriteFault) }
{
    if let Some(how) = ended_of_itself(session) {
        return Some(how);
    }
    match link.receive(buf) {
        Heard::Got(count) => {
            let now = clock.now();
            reply(alloc, link, take_piece(hub, session, &buf[..count], now))
        }
        Heard::Quiet => {
            let now = clock.now();
            reply(alloc, link, wait(alloc, hub, session, now))
        }
        Heard::Ended => Some(SessionEnd::PeerEnded),
        Heard::Failed => Some(SessionEnd::ReadFault),
    }
}

/// Turn after turn, until the link ends.
fn run<W: Wait, L: Link, H: Hub, C: Clock>(
    rt: &W,
    alloc: Global,
    link: &mut L,
    hub: &mut H,
    clock: &mut C,
    session: &mut Session,
    buf: &mut [u8],
) -> SessionEnd
    requires room { 0 < length buf.old }
    ensures runs { Serves H.meaning (served session.old hub.old (L.heard link.old) (L.sent link.old) (C.moments clock.old)) result (served session.new hub.new (L.heard link.new) (L.sent link.new) (C.moments clock.new)) }
    ensures later { H.meaning.seen.later hub.old hub.new }
    ensures ended { L.has_ended link.new ≡ ended_by (L.has_ended link.old) result }
    ensures read { HasCause (L.faults link.old) (L.faults link.new) (result ≡ SessionEnd.ReadFault) }
    ensures write { HasCause (L.faults link.old) (L.faults link.new) (result ≡ SessionEnd.WriteFault) }
{
    'turns: for _ in rt.forever() {
        match turn(alloc, link, hub, clock, session, buf) {
            None => {}
            Some(how) => return how,
        }
    }
    unreachable!()
}

/// The bytes of zeros into which a link's bytes are received.
fn buffer(alloc: Global) -> Result<Vec<u8>, AllocError>
    ensures { IfOk result (λ bytes. 0 < length bytes.items) }
{
    vec![in alloc; 0; MOST_RECEIVED]
}

/// Turn after turn with a buffer of its own, until the link ends.
fn serve<W: Wait, L: Link, H: Hub, C: Clock>(
    rt: &W,
    alloc: Global,
    link: &mut L,
    hub: &mut H,
    clock: &mut C,
    session: &mut Session,
) -> SessionEnd
    ensures runs { Serves H.meaning (served session.old hub.old (L.heard link.old) (L.sent link.old) (C.moments clock.old)) result (served session.new hub.new (L.heard link.new) (L.sent link.new) (C.moments clock.new)) }
    ensures later { H.meaning.seen.later hub.old hub.new }
    ensures ended { L.has_ended link.new ≡ ended_by (L.has_ended link.old) result }
    ensures read { HasCause (L.faults link.old) (L.faults link.new) (result ≡ SessionEnd.ReadFault) }
    ensures write { HasCause (L.faults link.old) (L.faults link.new) (result ≡ SessionEnd.WriteFault) }
{
    match buffer(alloc) {
        Ok(mut buf) => run(rt, alloc, link, hub, clock, session, buf.as_mut_slice()),
        Err(_) => SessionEnd::Memory,
    }
}

/// The link ended: each consumer of the session leaves its group.
#[tactic(auto, using(crate::proofs::Runs::leaves_as))]
fn leave<H: Hub>(hub: &mut H, mut session: Session)
    ensures leaves { Runs H.meaning (link_ended_row session.tables) hub.old (silent (link_ended PeerEnded session).tables) hub.new }
    ensures later { H.meaning.seen.later hub.old hub.new }
{
    session.link_ended(hub);
}

/// Serves a link, turn by turn, until it or its session ends, and gives how; then each consumer of the session leaves its group.
///
/// A turn is one receive, after which the clock is asked once: a piece that came is fed, and in any case the session ticks and is
/// polled at that moment. All frames that come of it are sent before the next receive, at most 65,536 bytes of them in one piece,
/// and a longer head or tail alone. `PeerEnded` comes exactly where the link answered that its peer ended, `ReadFault` and
/// `WriteFault` only of a call of the link that failed, and the other ends are the session's own, or want of memory. It waits for
/// the peer.
pub fn serve_link<W: Wait, L: Link, H: Hub, C: Clock>(
    rt: &W,
    alloc: Global,
    link: &mut L,
    hub: &mut H,
    clock: &mut C,
    mut session: Session,
) -> SessionEnd
    // What was heard, sent and asked of the clock is a run of whole turns and then this end.
    ensures runs { RunsTo H.meaning (served session hub.old (L.heard link.old) (L.sent link.old) (C.moments clock.old)) result hub.new (L.heard link.new) (L.sent link.new) (C.moments clock.new) }
    ensures later { H.meaning.seen.later hub.old hub.new }
    ensures ended { L.has_ended link.new ≡ ended_by (L.has_ended link.old) result }
    ensures read { HasCause (L.faults link.old) (L.faults link.new) (result ≡ SessionEnd.ReadFault) }
    ensures write { HasCause (L.faults link.old) (L.faults link.new) (result ≡ SessionEnd.WriteFault) }
{
    let how = serve(rt, alloc, link, hub, clock, &mut session);
    leave(hub, session);
    how
}
