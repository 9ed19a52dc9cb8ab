//! The keys of the administrative commands.

ghost use Rattle.std.specs.Prelude.{◌≡◌, ◌↔◌, IsTrue};
ghost use Rattle.command_admin.specs.Commands.{IsPlainKey, key_named};

/// Which command a body is of.
#[derive(Clone, Copy, Debug, PartialEq, Eq)]
pub enum AdminKey {
    Create,
    Delete,
    Metadata,
    MetadataAnswer,
    MetadataUpdate,
    PeerProperties,
    PeerAnswer,
    SaslHandshake,
    MechanismAnswer,
    SaslAuthenticate,
    SaslAnswer,
    Tune,
    TuneAnswer,
    OpenHost,
    HostAnswer,
    Close,
    Heartbeat,
    Route,
    RouteAnswer,
    Partitions,
    PartitionsAnswer,
    ConsumerUpdate,
    UpdateAnswer,
    ExchangeVersions,
    VersionsAnswer,
    StreamStats,
    StatsAnswer,
    CreateSuper,
    DeleteSuper,
    /// A response of a code alone, to the request with this key and the highest bit.
    Plain(u16),
}

/// The key of a code.
pub fn key_of(code: u16) -> Option<AdminKey>
    ensures { result ≡ key_named code }
{
    match code {
        0x000d => Some(AdminKey::Create),
        0x000e => Some(AdminKey::Delete),
        0x000f => Some(AdminKey::Metadata),
        0x800f => Some(AdminKey::MetadataAnswer),
        0x0010 => Some(AdminKey::MetadataUpdate),
        0x0011 => Some(AdminKey::PeerProperties),
        0x8011 => Some(AdminKey::PeerAnswer),
        0x0012 => Some(AdminKey::SaslHandshake),
        0x8012 => Some(AdminKey::MechanismAnswer),
        0x0013 => Some(AdminKey::SaslAuthenticate),
        0x8013 => Some(AdminKey::SaslAnswer),
        0x0014 => Some(AdminKey::Tune),
        0x8014 => Some(AdminKey::TuneAnswer),
        0x0015 => Some(AdminKey::OpenHost),
        0x8015 => Some(AdminKey::HostAnswer),
        0x0016 => Some(AdminKey::Close),
        0x0017 => Some(AdminKey::Heartbeat),
        0x0018 => Some(AdminKey::Route),
        0x8018 => Some(AdminKey::RouteAnswer),
        0x0019 => Some(AdminKey::Partitions),
        0x8019 => Some(AdminKey::PartitionsAnswer),
        0x001a => Some(AdminKey::ConsumerUpdate),
        0x801a => Some(AdminKey::UpdateAnswer),
        0x001b => Some(AdminKey::ExchangeVersions),
        0x801b => Some(AdminKey::VersionsAnswer),
        0x001c => Some(AdminKey::StreamStats),
        0x801c => Some(AdminKey::StatsAnswer),
        0x001d => Some(AdminKey::CreateSuper),
        0x001e => Some(AdminKey::DeleteSuper),
        0x800d | 0x800e | 0x8016 | 0x801d | 0x801e => Some(AdminKey::Plain(code)),
        _ => None,
    }
}

/// Whether this is the key of a response of a code alone.
pub fn is_plain(key: u16) -> bool
    ensures { IsTrue result ↔ IsPlainKey key }
{
    matches!(key, 0x800d | 0x800e | 0x8016 | 0x801d | 0x801e)
}
