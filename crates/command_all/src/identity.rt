use frame_wire::{Octets, Text};

/// Who a connection is, and where it goes: what SaslAuthenticate and OpenHost tell.
#[derive(Debug, Drop)]
pub struct Identity {
    pub user: Octets,
    pub password: Octets,
    /// The host's name as it is advertised.
    pub host: Text,
    pub port: u32,
}
