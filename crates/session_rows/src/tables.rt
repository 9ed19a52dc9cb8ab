//! What a session keeps and says.

ghost use Rattle.std.specs.Prelude.{◌≡◌, ◌==◌, ◌↔◌, IsTrue};
ghost use Rattle.std.specs.List.{list_any, find};
ghost use Rattle.std.specs.Option.{option_map};
ghost use Rattle.hub_terms.specs.Meaning.{IsShortName};
ghost use Rattle.session_rows.specs.Rows.{blocks, leave, has_name, without_publisher};
ghost use Rattle.session_rows.specs.declared.tables.Publisher.{Publisher};

use chunk_format::Stored;
use command_data::Tagged;
use command_fields::ResponseCode;
use frame_wire::{Row, Text};
use stream_terms::Pass;

/// A publisher that was declared.
#[derive(Debug, Drop)]
pub struct Publisher {
    pub id: u8,
    pub pass: Pass,
    /// Whether it has a reference.
    pub named: bool,
}

/// A subscription of a stream.
#[derive(Clone, Copy, Debug, PartialEq, Eq)]
pub struct Subscription {
    pub stream: u32,
    /// Chunks whose end is above this offset are due.
    pub next: u64,
    /// How many chunks may be sent.
    pub credit: u64,
}

/// What a session keeps.
#[derive(Debug, Drop)]
pub struct Tables {
    pub number: u32,
    pub publishers: Vec<Publisher>,
    pub subscriptions: [Option<Subscription>; 256],
}

/// A frame to send.
#[derive(Debug, Drop)]
pub enum Reply {
    Answer {
        corr: u32,
        code: ResponseCode,
    },
    PublishError {
        id: u8,
        items: Row<Tagged>,
        code: ResponseCode,
    },
    Deliver {
        id: u8,
        chunk: Stored,
    },
}

/// Whether a publisher of this id is declared.
pub(crate) fn is_declared(publishers: &[Publisher], id: u8) -> bool
    ensures { result ≡ list_any (blocks id) publishers.now }
{
    publishers.iter().any(|publisher| publisher.id == id)
}

pub(crate) fn remove_publisher(publishers: &mut Vec<Publisher>, id: u8)
    ensures { publishers.new.items ≡ without_publisher id publishers.old.items }
{
    publishers.retain(|publisher| publisher.id != id);
}

/// The pass of the publisher of this id, and whether it has a name.
pub(crate) fn leave_of(publishers: &[Publisher], id: u8) -> Option<(Pass, bool)>
    ensures { result ≡ option_map leave (find (blocks id) publishers.now) }
{
    let publisher = publishers.iter().find(|publisher| publisher.id == id)?;
    Some((publisher.pass, publisher.named))
}

/// Whether a reference is null or has at most 255 bytes.
pub(crate) fn is_short(name: &Text) -> bool
    ensures { IsTrue result ↔ IsShortName name.now }
{
    match name.get() {
        None => true,
        Some(bytes) => bytes.len() <= 255,
    }
}

/// Whether a reference is neither null nor empty.
pub(crate) fn has_name(name: &Text) -> bool
    ensures { result ≡ has_name name.now }
{
    match name.get() {
        None => false,
        Some(bytes) => bytes.len() > 0,
    }
}
