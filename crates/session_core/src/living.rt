//! How a session beats and ends.

ghost use Rattle.std.specs.Prelude.{◌≡◌};
ghost use Rattle.hub_terms.specs.Programs.{Runs};
ghost use Rattle.session_tables.specs.Opening.{leaves, silent};
ghost use Rattle.session_tables.specs.declared.tables.SessionEnd.TheVariants.{PeerEnded};
ghost use Rattle.session_core.specs.Living.{at_tick, ends_by, Left, single_of, all_leave, link_ended_row};

use crate::consuming::consumer;
use hub_terms::Hub;
use session_tables::{Pulse, Reply, SessionEnd, Subscription, Tables};

/// What is due at a moment: a Heartbeat, the end of a session whose peer was silent for two intervals, or nothing.
pub fn tick(tables: &mut Tables, now: u64) -> Option<Reply>
    ensures { leaves result tables.new ≡ at_tick now tables.old }
{
    match tables.ended {
        Some(_) => None,
        None => match tables.moments.tick(now) {
            Pulse::Still => None,
            Pulse::Beat => Some(Reply::Heartbeat),
            Pulse::Silent => {
                tables.ended = Some(SessionEnd::Silent);
                None
            }
        },
    }
}

/// The session ends so, if it hasn't ended.
pub fn end(tables: &mut Tables, how: SessionEnd)
    ensures { tables.new ≡ ends_by how tables.old }
{
    if let None = tables.ended {
        tables.ended = Some(how);
    }
}

/// The consumer of a subscription leaves its group, if it is in one.
fn leave<H: Hub>(tables: &Tables, slot: &Option<Subscription>, hub: &mut H)
    ensures left { Left H.meaning tables.now (single_of slot.now) hub.old hub.new }
    ensures later { H.meaning.seen.later hub.old hub.new }
{
    match slot {
        None => {}
        Some(subscription) => match subscription.single {
            None => {}
            Some(serial) => hub.leave(consumer(tables, serial)),
        },
    }
}

/// The consumers of these subscriptions leave their groups.
fn leave_all<H: Hub>(tables: &Tables, slots: &[Option<Subscription>], hub: &mut H)
    ensures left { Runs H.meaning (all_leave tables.now slots.now) hub.old (silent (ends_by PeerEnded tables.now)) hub.new }
    ensures later { H.meaning.seen.later hub.old hub.new }
{
    'slots: for slot in slots {
        leave(tables, slot, hub);
    }
}

/// The link ended: each consumer of the session leaves its group, and a session that hadn't ended has ended with
/// `PeerEnded`. It takes no memory.
pub fn end_link<H: Hub>(tables: &mut Tables, hub: &mut H)
    ensures tables { tables.new ≡ ends_by PeerEnded tables.old }
    ensures ended { Runs H.meaning (link_ended_row tables.old) hub.old (silent tables.new) hub.new }
    ensures later { H.meaning.seen.later hub.old hub.new }
{
    leave_all(tables, &tables.subscriptions, hub);
    end(tables, SessionEnd::PeerEnded);
}
