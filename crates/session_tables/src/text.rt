//! What texts say to a session.

ghost use Rattle.std.specs.Prelude.{◌≡◌, codes, find};
ghost use Rattle.std.specs.Option.{option_copied};
ghost use Rattle.std.specs.List.{list_any};
ghost use Rattle.chunk_format.specs.ByName.{same_name};
ghost use Rattle.stream_terms.specs.Views.{name_of};
ghost use Rattle.session_tables.specs.Subscribing.{is_text, has_key, says_true, is_single, is_group_name, group_name, takes_second};

use command_all::{KeyVersions, Property};
use frame_wire::{Row, Text};

pub(crate) fn is_same(one: &[u8], other: &[u8]) -> bool
    ensures { result ≡ same_name one.now other.now }
{
    one == other
}

/// Whether a text is these bytes.
pub(crate) fn is_text(text: &Text, bytes: &[u8]) -> bool
    ensures { result ≡ is_text bytes.now text.now }
{
    match text.get() {
        None => false,
        Some(other) => is_same(other, bytes),
    }
}

/// The bytes of a text, none where it is null.
pub fn bytes_of(text: &Text) -> &[u8]
    ensures { result.now ≡ name_of text.now }
{
    match text.get() {
        None => &[],
        Some(bytes) => bytes,
    }
}

/// The first property with this key.
fn property<'a>(properties: &'a [Property], key: &[u8]) -> Option<&'a Property>
    ensures { option_copied result ≡ find (has_key key.now) properties.now }
{
    properties
        .iter()
        .find(|property| is_text(&property.key, key))
}

fn says_true(properties: &[Property]) -> bool
    ensures { result ≡ says_true (find (has_key (codes "single-active-consumer")) properties.now) }
{
    match property(properties, b"single-active-consumer") {
        None => false,
        Some(property) => is_text(&property.value, b"true"),
    }
}

/// Whether a subscription with these properties is one of a group of which one is active.
pub fn is_single(properties: &Option<Row<Property>>) -> bool
    ensures { result ≡ is_single properties.now }
{
    match properties {
        None => false,
        Some(properties) => says_true(properties.as_slice()),
    }
}

/// Whether a text has 1 to 255 bytes.
fn is_group_name(text: &Text) -> bool
    ensures { result ≡ is_group_name text.now }
{
    match text.get() {
        None => false,
        Some(bytes) => 1 <= bytes.len() && bytes.len() <= 255,
    }
}

/// The name of the group of a subscription with these properties, if it may be one.
pub fn group_name(properties: &Option<Row<Property>>) -> Option<&Text>
    ensures { option_copied result ≡ group_name properties.now }
{
    match properties {
        None => None,
        Some(properties) => match property(properties.as_slice(), b"name") {
            None => None,
            Some(property) => {
                if is_group_name(&property.value) {
                    Some(&property.value)
                } else {
                    None
                }
            }
        },
    }
}

fn is_second(item: &KeyVersions) -> bool
    ensures { result ≡ takes_second item.now }
{
    item.key == 0x0008 && item.least <= 2 && 2 <= item.greatest
}

/// Whether a peer with these versions takes deliveries of version 2.
pub fn takes_second(items: &[KeyVersions]) -> bool
    ensures { result ≡ list_any takes_second items.now }
{
    items.iter().any(|item| is_second(item))
}
