use frame_wire::{Item, Octets, ReadError, Scan, Text, put_text};
use std::alloc::{AllocError, Global};

/// A property of a peer, of a connection, of a stream or of a subscription: a key and a value, two texts. Lists of them
/// stand in PeerProperties, Create and Subscribe, and in answers. Either text may be null, and keys may be equal.
#[derive(Debug, Drop)]
pub struct Property {
    pub key: Text,
    pub value: Text,
}

impl Item for Property {
    ghost use Rattle.command_fields.specs.Properties.{property_field};

    ghost format = { property_field };

    fn read(alloc: Global, scan: &mut Scan<'_>) -> Result<Property, ReadError> {
        let key = Text::read(alloc, scan)?;
        let value = Text::read(alloc, scan)?;
        Ok(Property { key, value })
    }

    fn put(&self, out: &mut Octets) -> Result<(), AllocError> {
        put_text(out, &self.key)?;
        put_text(out, &self.value)
    }
}
