//! What is due in a turn: the frames of what was fed and of the tick, and what the poll says.

ghost use Rattle.std.specs.Prelude.{◌≡◌, IfOk};
ghost use Rattle.std.specs.List.{AllByRecursion};
ghost use Rattle.outside_io.specs.declared.link.Hearing.TheVariants as hearing;
ghost use Rattle.session_core.specs.Outgoing.{IsSayableUnasked};
ghost use Rattle.session_link.specs.Turns.{Answers, Beats};

use frame_wire::{Octets, Row};
use hub_terms::Hub;
use session_core::{Session, Unasked};
use std::alloc::{AllocError, Global};

/// What is due in a turn, in this order.
#[derive(Debug, Drop)]
pub struct Due {
    /// The frames of the replies to what was fed.
    pub fed: Octets,
    /// The frame of a Heartbeat, or none.
    pub ticked: Octets,
    pub said: Row<Unasked>,
}

/// What the tick of a moment and the poll after it add to the frames of what was fed.
fn beat<H: Hub>(
    hub: &mut H,
    session: &mut Session,
    fed: Octets,
    now: u64,
) -> Result<Due, AllocError>
    ensures ok { IfOk result (λ due. (due.fed ≡ fed) × Beats H.meaning now session.old due.ticked due.said session.new hub.old hub.new) }
    ensures sayable { IfOk result (λ due. AllByRecursion IsSayableUnasked due.said) }
    ensures later { H.meaning.seen.later hub.old hub.new }
{
    let ticked = session.tick(now)?;
    let said = session.poll(hub)?;
    Ok(Due { fed, ticked, said })
}

/// What is due where a piece came at a moment.
pub(crate) fn take_piece<H: Hub>(
    hub: &mut H,
    session: &mut Session,
    piece: &[u8],
    now: u64,
) -> Result<Due, AllocError>
    ensures ok { IfOk result (λ due. Answers H.meaning now (hearing.Piece piece.now) session.old due.fed due.ticked due.said session.new hub.old hub.new) }
    ensures sayable { IfOk result (λ due. AllByRecursion IsSayableUnasked due.said) }
    ensures later { H.meaning.seen.later hub.old hub.new }
{
    let fed = session.feed(hub, piece, now)?;
    beat(hub, session, fed, now)
}

/// What is due where nothing came up to a moment.
pub(crate) fn wait<H: Hub>(
    alloc: Global,
    hub: &mut H,
    session: &mut Session,
    now: u64,
) -> Result<Due, AllocError>
    ensures ok { IfOk result (λ due. Answers H.meaning now hearing.Quiet session.old due.fed due.ticked due.said session.new hub.old hub.new) }
    ensures sayable { IfOk result (λ due. AllByRecursion IsSayableUnasked due.said) }
    ensures later { H.meaning.seen.later hub.old hub.new }
{
    beat(hub, session, Octets::new(alloc), now)
}
