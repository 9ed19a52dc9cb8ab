//! The parts of answers that take memory. Each call fails for want of memory alone.

ghost use Rattle.std.specs.Prelude.{◌≡◌, ◌<◌, ◌^◌, ◌++◌, ◌∷◌, [], length, take, map, All, Some, codes, IfOk, OnOk};
ghost use Rattle.std.specs.List.{AllByRecursion};
ghost use Rattle.frame_wire.specs.Fields.{IsText};
ghost use Rattle.command_fields.specs.Codes.{number_of_code};
ghost use Rattle.command_fields.specs.Properties.{property_field};
ghost use Rattle.command_all.specs.Fitting.{IsRefusal};
ghost use Rattle.session_tables.specs.Spelling.{property, product, place_of, refusal_of, version_of, number_at, statistic, numbers_of};

use command_all::{
    Broker, Identity, KeyVersions, Property, Refusal, ResponseCode, Statistic, Tagged,
};
use frame_wire::{Row, Text};
use std::alloc::{AllocError, Global};

/// A text of these bytes, of which there are at most 32,767.
pub(crate) fn text(alloc: Global, bytes: &[u8]) -> Result<Text, AllocError>
    ensures is { IfOk result (λ text. text ≡ Some bytes.now) }
    ensures short { IfOk result (λ text. length bytes.now < 2 ^ 15) }
{
    match Text::copy(alloc, bytes) {
        Ok(text) => Ok(text),
        Err(_) => Err(AllocError),
    }
}

/// A row of these two.
fn pair(alloc: Global, first: Property, second: Property) -> Result<Row<Property>, AllocError>
    ensures { IfOk result (λ row. row ≡ first ∷ second ∷ []) }
{
    let mut row = Row::new(alloc);
    let Ok(()) = row.push(first) else {
        return Err(AllocError);
    };
    let Ok(()) = row.push(second) else {
        return Err(AllocError);
    };
    Ok(row)
}

fn property(alloc: Global, key: &[u8], value: &[u8]) -> Result<Property, AllocError>
    ensures { IfOk result (λ p. p ≡ property key.now value.now) }
{
    let key = text(alloc, key)?;
    let value = text(alloc, value)?;
    Ok(Property { key, value })
}

/// What the server is.
pub(crate) fn product(alloc: Global) -> Result<Row<Property>, AllocError>
    ensures { IfOk result (λ row. row ≡ product) }
{
    let name = property(alloc, b"product", b"streamd")?;
    let version = property(alloc, b"version", b"1")?;
    pair(alloc, name, version)
}

/// The port in decimal digits.
fn port(alloc: Global, number: u32) -> Result<Text, AllocError>
    ensures is { IfOk result (λ text. text ≡ Some (Rattle.std.specs.Fmt.decimal number)) }
    ensures short { IfOk result (λ text. length (Rattle.std.specs.Fmt.decimal number) < 2 ^ 15) }
{
    let digits = number.to_string(alloc)?;
    text(alloc, digits.as_bytes())
}

/// Where the server is.
pub(crate) fn place(alloc: Global, identity: &Identity) -> Result<Row<Property>, AllocError>
    ensures is { IfOk result (λ row. row ≡ place_of identity.now) }
    ensures fits { IfOk result (λ row. AllByRecursion property_field.Fits (place_of identity.now)) }
{
    let _host = identity.host.get();
    let host = Property {
        key: text(alloc, b"advertised_host")?,
        value: identity.host.clone()?,
    };
    let port = Property {
        key: text(alloc, b"advertised_port")?,
        value: port(alloc, identity.port)?,
    };
    pair(alloc, host, port)
}

/// The number of a response code.
pub(crate) fn number_of(code: ResponseCode) -> u16
    ensures is { result ≡ number_of_code code }
    ensures small { result < 2 ^ 16 }
{
    u16::from(code)
}

fn refused(id: u64, code: u16) -> Refusal
    ensures is { result ≡ record { id = id; code = code } }
    ensures fits { IsRefusal result }
{
    Refusal { id, code }
}

/// None of the items is taken.
pub(crate) fn refusals(
    alloc: Global,
    items: &[Tagged],
    code: ResponseCode,
) -> Result<Row<Refusal>, AllocError>
    ensures is { IfOk result (λ row. row ≡ map (refusal_of code) items.now) }
    ensures fits { IfOk result (λ row. All IsRefusal row) }
{
    let number = number_of(code);
    let mut row = Row::new(alloc);
    'items: for item in items {
        let Ok(()) = row.push(refused(item.id, number)) else {
            return Err(AllocError);
        };
    }
    Ok(row)
}

/// Each name of a row is a text.
pub(crate) fn see_names(names: &Row<Text>)
    ensures { All IsText names.now }
{
    see_texts(names.as_slice());
}

/// Each name is a text.
fn see_texts(names: &[Text])
    ensures { All IsText names.now }
{
    'names: for name in names {
        let _bytes = name.get();
    }
}

/// The host's name as it is advertised.
pub(crate) fn host_of(identity: &Identity) -> Result<Text, AllocError>
    ensures is { IfOk result (λ text. text ≡ identity.now.host) }
    ensures short { IfOk result (λ text. IsText identity.now.host) }
{
    let _bytes = identity.host.get();
    identity.host.clone()
}

/// The one broker.
pub(crate) fn broker(host: Text, port: u32) -> Broker
    ensures is { result ≡ record { reference = 0; host = host; port = port } }
    ensures port { port < 2 ^ 32 }
{
    Broker {
        reference: 0,
        host,
        port,
    }
}

fn version_of(key: u16) -> KeyVersions
    ensures { result ≡ version_of key }
{
    KeyVersions {
        key,
        least: 1,
        greatest: if key == 0x0008 { 2 } else { 1 },
    }
}

/// The versions of the commands of these keys.
pub(crate) fn versions(alloc: Global, keys: &[u16]) -> Result<Row<KeyVersions>, AllocError>
    ensures { IfOk result (λ row. row ≡ map version_of keys.now) }
{
    let mut row = Row::new(alloc);
    'keys: for key in keys {
        let Ok(()) = row.push(version_of(*key)) else {
            return Err(AllocError);
        };
    }
    Ok(row)
}

/// An offset as a number with a sign, at most the greatest.
fn signed(offset: u64) -> i64
    ensures { result ≡ number_at offset }
{
    if offset > 9_223_372_036_854_775_807 {
        return i64::MAX;
    }
    offset as i64
}

fn statistic(alloc: Global, name: &[u8], value: i64) -> Result<Statistic, AllocError>
    ensures { IfOk result (λ s. s ≡ statistic name.now value) }
{
    let name = text(alloc, name)?;
    Ok(Statistic { name, value })
}

/// Both numbers of a stream, by the first offset of its last committed chunk.
pub(crate) fn numbers(alloc: Global, last: Option<u64>) -> Result<Row<Statistic>, AllocError>
    ensures { IfOk result (λ row. row ≡ numbers_of last) }
{
    let (first, committed) = match last {
        None => (-1, -1),
        Some(offset) => (0, signed(offset)),
    };
    let mut row = Row::new(alloc);
    let Ok(()) = row.push(statistic(alloc, b"first_chunk_id", first)?) else {
        return Err(AllocError);
    };
    let Ok(()) = row.push(statistic(alloc, b"committed_chunk_id", committed)?) else {
        return Err(AllocError);
    };
    Ok(row)
}
