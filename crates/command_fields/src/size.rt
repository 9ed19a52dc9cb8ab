//! The lengths of spellings, so that a command that no frame can hold is seen before it is written.

ghost use Rattle.frame_wire.specs.Items.{same_fault};
ghost use Rattle.frame_wire.specs.Joins.{list};
ghost use Rattle.frame_wire.specs.Formats.{u16_field, u64_field};
ghost use Rattle.command_fields.specs.Sizes.{Measures, MeasuresText};

use crate::property::Property;
use frame_wire::{Item, Row, Text};

/// The greatest length of a body in bytes: a frame's size is a number of four bytes.
pub const GREATEST_BODY: u64 = 4_294_967_295;

/// An item whose length in bytes is known before it is written.
pub trait Measured: Item {
    /// The number of bytes of the item: `None` exactly where it has no spelling, or one of more than 4,294,967,295 bytes.
    fn size(&self) -> Option<u64>
        ensures { Measures Self.format self.now result };
}

#[tactic(auto, using(frame_wire::proofs::FieldLaws::u16_length))]
fn size_of_u16(value: u16) -> Option<u64>
    ensures { Measures u16_field value result }
{
    let _value = value;
    Some(2)
}

#[tactic(auto, using(frame_wire::proofs::FieldLaws::u64_length))]
fn size_of_u64(value: u64) -> Option<u64>
    ensures { Measures u64_field value result }
{
    let _value = value;
    Some(8)
}

impl Measured for u16 {
    fn size(&self) -> Option<u64> {
        size_of_u16(*self)
    }
}

impl Measured for u64 {
    fn size(&self) -> Option<u64> {
        size_of_u64(*self)
    }
}

/// The number of bytes of a text with its length, at most 32,769.
pub fn text_size(text: &Text) -> u64
    ensures { MeasuresText text.now result }
{
    match text.get() {
        None => 2,
        Some(bytes) => 2 + bytes.len() as u64,
    }
}

impl Measured for Text {
    fn size(&self) -> Option<u64> {
        Some(text_size(self))
    }
}

impl Measured for Property {
    fn size(&self) -> Option<u64> {
        let key = self.key.size()?;
        let value = self.value.size()?;
        Some(key + value)
    }
}

/// The number of bytes of a list with its count: `None` exactly where it has no spelling, or one of more than
/// 4,294,967,295 bytes.
pub fn list_size<T: Measured>(items: &Row<T>) -> Option<u64>
    ensures { Measures (list same_fault T.format) items.now result }
{
    let items = items.as_slice();
    if items.len() > 2_147_483_647 {
        return None;
    }
    let mut total = 4;
    for item in items {
        let Some(size) = item.size() else {
            return None;
        };
        total += size;
        if total > GREATEST_BODY {
            return None;
        }
    }
    Some(total)
}
