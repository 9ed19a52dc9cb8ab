//! What a session says unasked.

ghost use Rattle.std.specs.Prelude.{◌≡◌, ◌++◌, ◌∷◌, [], OnOk};

use chunk_format::Stored;
use frame_wire::{Row, Text};
use std::alloc::AllocError;

/// What a session says unasked, one frame each. `id` is the id that the peer gave a publisher or a subscription.
#[derive(Debug, Drop)]
pub enum Unasked {
    /// The entries of these publishing ids are in the stream's list.
    Confirm {
        id: u8,
        ids: Row<u64>,
    },
    /// The publishers and subscriptions on this stream whose epoch ended are gone. Its code is `StreamNotAvailable`.
    MetadataUpdate {
        stream: Text,
    },
    /// The subscription is to be active from now on, or to stop. It answers with this correlation.
    Update {
        corr: u32,
        id: u8,
        active: bool,
    },
    /// A chunk of the subscription: in version 2 with the first offset of the last committed chunk, in version 1 without.
    Deliver {
        id: u8,
        committed: Option<u64>,
        chunk: Stored,
    },
}

/// Adds one behind those that are there.
pub(crate) fn say(out: &mut Row<Unasked>, unasked: Unasked) -> Result<(), AllocError>
    ensures { OnOk result (out.new ≡ out.old ++ unasked ∷ []) }
{
    match out.push(unasked) {
        Ok(()) => Ok(()),
        Err(_) => Err(AllocError),
    }
}
