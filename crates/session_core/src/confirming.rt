//! The confirms that are ready. After want of memory the session has ended, and the hub has only gone on.

ghost use Rattle.std.specs.Prelude.{◌≡◌, ◌++◌, OnOk};
ghost use Rattle.std.specs.Option.{option_map};
ghost use Rattle.std.specs.List.{find};
ghost use Rattle.hub_terms.specs.Programs.{Runs};
ghost use Rattle.session_core.specs.Speaking.{spoken};
ghost use Rattle.session_core.specs.Confirming.{is_of, told_of, all_told, confirms_row};

use crate::unasked::{Unasked, say};
use frame_wire::Row;
use hub_terms::{Confirm, Hub};
use session_tables::{Publisher, Publishers, Tables};
use std::alloc::AllocError;
use std::collections::VecDeque;

/// The id of the first publisher with the pass of a stream and a serial.
fn id_of(publishers: &[Publisher], stream: u32, serial: u32) -> Option<u8>
    ensures { result ≡ option_map (λ p. p.id) (find (is_of stream serial) publishers.now) }
{
    let publisher = publishers.iter().find(|publisher| publisher.pass.stream == stream
        && publisher.pass.serial == serial)?;
    Some(publisher.id)
}

/// Tells a confirm, where the publisher that offered it stands.
fn tell(publishers: &Publishers, confirm: Confirm, out: &mut Row<Unasked>) -> Result<(), AllocError>
    ensures { OnOk result (out.new ≡ out.old ++ told_of publishers.now confirm) }
{
    match id_of(publishers.as_slice(), confirm.stream, confirm.serial) {
        None => Ok(()),
        Some(id) => say(
            out,
            Unasked::Confirm {
                id,
                ids: confirm.ids,
            },
        ),
    }
}

/// Tells confirms in their order.
fn tell_all(
    publishers: &Publishers,
    confirms: Row<Confirm>,
    out: &mut Row<Unasked>,
) -> Result<(), AllocError>
    ensures { OnOk result (out.new ≡ out.old ++ all_told publishers.now confirms) }
{
    let mut left = VecDeque::from(confirms.into_vec());
    'confirms: while let Some(confirm) = left.pop_front() {
        tell(publishers, confirm, out)?;
    }
    Ok(())
}

/// The session's confirms that are ready, of publishers that stand, by stream and offer.
pub(crate) fn tell_confirms<H: Hub>(
    tables: &Tables,
    hub: &mut H,
    out: &mut Row<Unasked>,
) -> Result<(), AllocError>
    ensures ok { OnOk result (Runs H.meaning (confirms_row tables.now out.old) hub.old (spoken out.new tables.now) hub.new) }
    ensures later { H.meaning.seen.later hub.old hub.new }
{
    match hub.confirms(tables.number) {
        Ok(confirms) => tell_all(&tables.publishers, confirms, out),
        Err(refused) => Err(refused),
    }
}
