//! What is delivered.

ghost use Rattle.std.specs.Prelude.{OnOk};
ghost use Rattle.session_rows.specs.Delivering.{Sending};

use crate::tables::{Reply, Subscription};
use frame_wire::Row;
use hub_terms::Hub;
use std::alloc::AllocError;

/// Sends a subscription what is due, as far as it has credit.
pub fn deliver<H: Hub>(
    hub: &mut H,
    id: u8,
    subscription: &mut Subscription,
    out: &mut Row<Reply>,
) -> Result<(), AllocError>
    ensures ok { OnOk result (Sending H.meaning id subscription.old subscription.new out.old out.new hub.old hub.new) }
    ensures later { H.meaning.seen.later hub.old hub.new }
{
    'chunks: while subscription.credit > 0 {
        match hub.next_chunk(subscription.stream, subscription.next)? {
            None => return Ok(()),
            Some(chunk) => {
                let header = chunk.header();
                let end = header.first + u64::from(header.records);
                let Ok(()) = out.push(Reply::Deliver { id, chunk }) else {
                    return Err(AllocError);
                };
                subscription.next = end;
                subscription.credit -= 1;
            }
        }
    }
    Ok(())
}
