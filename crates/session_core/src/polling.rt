//! What a session says unasked, over any hub.

ghost use Rattle.std.specs.Prelude.{◌≡◌, true, OnOk};
ghost use Rattle.hub_terms.specs.Programs.{Runs};
ghost use Rattle.session_core.specs.Speaking.{spoken};
ghost use Rattle.session_core.specs.Polling.{is_open, open_row, poll_row};
ghost use Rattle.session_core.specs.Delivered.{PollAdds, DeliveriesJoin};

use crate::confirming::tell_confirms;
use crate::delivering::deliver_all;
use crate::ending::end_streams;
use crate::turning::turn_all;
use crate::unasked::Unasked;
use frame_wire::Row;
use hub_terms::Hub;
use session_tables::{Stage, Tables};
use std::alloc::AllocError;

/// Whether the connection is open and the session hasn't ended.
fn is_open(tables: &Tables) -> bool
    ensures { result ≡ is_open tables.now.ended tables.now.stage }
{
    match tables.ended {
        Some(_) => false,
        None => match tables.stage {
            Stage::Open => true,
            _ => false,
        },
    }
}

fn poll_open<H: Hub>(
    tables: &mut Tables,
    hub: &mut H,
    out: &mut Row<Unasked>,
) -> Result<(), AllocError>
    ensures ok { OnOk result (Runs H.meaning (open_row tables.old out.old) hub.old (spoken out.new tables.new) hub.new) }
    ensures adds { OnOk result (PollAdds H.meaning tables.old tables.new out.old out.new hub.old hub.new) }
    ensures later { H.meaning.seen.later hub.old hub.new }
{
    tell_confirms(tables, hub, out)?;
    end_streams(tables, hub, out)?;
    turn_all(tables, hub, out)?;
    deliver_all(tables, hub, out)
}

/// What is due unasked goes behind what was there: the confirms that are ready; a MetadataUpdate of each stream on which an
/// epoch of the session's publishers or subscriptions ended, which are gone then; the changes of groups; the chunks of the
/// active subscriptions. A connection that isn't open is told nothing. After want of memory the session has ended, and the hub
/// has only gone on.
pub fn poll<H: Hub>(
    tables: &mut Tables,
    hub: &mut H,
    out: &mut Row<Unasked>,
) -> Result<(), AllocError>
    ensures ok { OnOk result (Runs H.meaning (poll_row tables.old out.old) hub.old (spoken out.new tables.new) hub.new) }
    ensures adds { OnOk result (is_open tables.old.ended tables.old.stage ≡ true → PollAdds H.meaning tables.old tables.new out.old out.new hub.old hub.new) }
    ensures later { H.meaning.seen.later hub.old hub.new }
{
    if is_open(tables) {
        return poll_open(tables, hub, out);
    }
    Ok(())
}

/// Polls deliver to a subscription all that is due between the places from and to which it goes, each chunk once and in order,
/// also where it gets credit between two polls. It does nothing.
pub fn deliveries_join<H: Hub>()
    ensures { DeliveriesJoin H.meaning.seen }
{}
