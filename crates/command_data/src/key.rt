//! The keys of the data commands.

ghost use Rattle.std.specs.Prelude.{◌≡◌};
ghost use Rattle.command_fields.specs.Tables.{in_version};
ghost use Rattle.command_data.specs.declared.key.DataKey.TheVariants as keys;
ghost use Rattle.command_data.specs.Commands.{key_named, data_table};

/// Which command a body is of, by the variants of `DataCommand`.
#[derive(Clone, Copy, Debug, PartialEq, Eq)]
pub enum DataKey {
    DeclarePublisher,
    Publish,
    PublishConfirm,
    PublishError,
    QueryPublisherSequence,
    SequenceAnswer,
    DeletePublisher,
    Subscribe,
    Deliver,
    /// The second version of `Deliver`.
    Deliver2,
    Credit,
    CreditFault,
    StoreOffset,
    QueryOffset,
    OffsetAnswer,
    Unsubscribe,
    /// A response of a code alone, by its own key.
    Plain(u16),
}

/// The key of a code in version 1, if it is one of this half of the commands.
pub fn key_of(code: u16) -> Option<DataKey>
    ensures { result ≡ key_named code }
{
    match code {
        0x0001 => Some(DataKey::DeclarePublisher),
        0x0002 => Some(DataKey::Publish),
        0x0003 => Some(DataKey::PublishConfirm),
        0x0004 => Some(DataKey::PublishError),
        0x0005 => Some(DataKey::QueryPublisherSequence),
        0x8005 => Some(DataKey::SequenceAnswer),
        0x0006 => Some(DataKey::DeletePublisher),
        0x0007 => Some(DataKey::Subscribe),
        0x0008 => Some(DataKey::Deliver),
        0x0009 => Some(DataKey::Credit),
        0x8009 => Some(DataKey::CreditFault),
        0x000a => Some(DataKey::StoreOffset),
        0x000b => Some(DataKey::QueryOffset),
        0x800b => Some(DataKey::OffsetAnswer),
        0x000c => Some(DataKey::Unsubscribe),
        0x8001 | 0x8006 | 0x8007 | 0x800c => Some(DataKey::Plain(code)),
        _ => None,
    }
}

/// The key of the same code in this version, if there is one: every key has version 1, and a delivery version 2 too.
pub(crate) fn in_version(first: DataKey, version: u16) -> Option<DataKey>
    ensures { result ≡ in_version data_table.newer first version }
{
    match version {
        1 => Some(first),
        2 => match first {
            DataKey::Deliver => Some(DataKey::Deliver2),
            _ => None,
        },
        _ => None,
    }
}
