//! The bytes of a change.

ghost use Rattle.std.specs.Prelude.{◌≡◌, ◌++◌, OnOk, IfOk};
ghost use Rattle.frame_wire.specs.Fields.{u8_bytes, u32_bytes, text_bytes};
ghost use Rattle.frame_wire.specs.Items.{Gives};
ghost use Rattle.frame_wire.specs.Reading.{text_at};
ghost use Rattle.stream_catalog.specs.ChangeBytes.{number_of_kind, kind_of_number, lists_of, change_fields, change_made, IsChange, HasLists, change_bytes, change_of};

use crate::change::{Change, ChangeKind};
use frame_wire::{
    Octets, ReadError, Row, Scan, Text, put_list, put_text, put_u8, put_u32, read_list,
};
use std::alloc::{AllocError, Global};

fn number_of(kind: ChangeKind) -> u8
    ensures { result ≡ number_of_kind kind }
{
    match kind {
        ChangeKind::Create => 1,
        ChangeKind::Delete => 2,
        ChangeKind::CreateSuper => 3,
        ChangeKind::DeleteSuper => 4,
    }
}

fn kind_of(number: u8) -> Option<ChangeKind>
    ensures { result ≡ kind_of_number number }
{
    match number {
        1 => Some(ChangeKind::Create),
        2 => Some(ChangeKind::Delete),
        3 => Some(ChangeKind::CreateSuper),
        4 => Some(ChangeKind::DeleteSuper),
        _ => None,
    }
}

fn put_head(out: &mut Octets, change: &Change) -> Result<(), AllocError>
    ensures { OnOk result (out.new ≡ out.old ++ (u8_bytes (number_of_kind change.now.kind) ++ (u32_bytes change.now.number ++ text_bytes change.now.name))) }
{
    put_u8(out, number_of(change.kind))?;
    put_u32(out, change.number)?;
    put_text(out, &change.name)
}

fn put_lists(out: &mut Octets, change: &Change) -> Result<(), AllocError>
    requires { HasLists change.now.kind (change.now.parts, change.now.keys) }
    ensures { OnOk result (out.new ≡ out.old ++ (lists_of (number_of_kind change.now.kind)).spell (change.now.parts, change.now.keys)) }
{
    match change.kind {
        ChangeKind::CreateSuper => {
            put_list::<Text>(out, &change.parts)?;
            put_list::<Text>(out, &change.keys)
        }
        _ => Ok(()),
    }
}

/// The bytes of a change. It needs memory for them.
pub(crate) fn spell_change(alloc: Global, change: &Change) -> Result<Octets, AllocError>
    requires { IsChange change.now }
    ensures { IfOk result (λ bytes. bytes ≡ change_bytes change.now) }
{
    let mut out = Octets::new(alloc);
    put_head(&mut out, change)?;
    put_lists(&mut out, change)?;
    Ok(out)
}

fn read_lists(
    alloc: Global,
    kind: u8,
    scan: &mut Scan<'_>,
) -> Result<(Row<Text>, Row<Text>), ReadError>
    ensures { Gives result scan.new ((lists_of kind).read scan.old) }
{
    if kind != 3 {
        return Ok((Row::new(alloc), Row::new(alloc)));
    }
    let parts = read_list::<Text>(alloc, scan)?;
    let keys = read_list::<Text>(alloc, scan)?;
    Ok((parts, keys))
}

/// A text from the front of a scan, copied.
fn read_text(alloc: Global, scan: &mut Scan<'_>) -> Result<Text, ReadError>
    ensures { Gives result scan.new (text_at scan.old) }
{
    match scan.text()? {
        None => Ok(Text::null()),
        Some(bytes) => match Text::copy(alloc, bytes) {
            Ok(text) => Ok(text),
            Err(_) => Err(ReadError::Memory),
        },
    }
}

fn read_fields(
    alloc: Global,
    scan: &mut Scan<'_>,
) -> Result<((u8, (u32, Text)), (Row<Text>, Row<Text>)), ReadError>
    ensures { Gives result scan.new (change_fields.read scan.old) }
{
    let kind = scan.u8()?;
    let number = scan.u32()?;
    let name = read_text(alloc, scan)?;
    let lists = read_lists(alloc, kind, scan)?;
    Ok(((kind, (number, name)), lists))
}

fn change_made(fields: ((u8, (u32, Text)), (Row<Text>, Row<Text>))) -> Option<Change>
    ensures { result ≡ change_made fields }
{
    let ((kind, (number, name)), (parts, keys)) = fields;
    if parts.as_slice().len() >= 65536 || keys.as_slice().len() >= 65536 {
        return None;
    }
    let kind = kind_of(kind)?;
    Some(Change {
        kind,
        number,
        name,
        parts,
        keys,
    })
}

/// The change that bytes spell, all of them, if they spell one. It needs memory for it.
#[tactic(auto, unfolding(crate::specs::ChangeBytes::change_of))]
pub(crate) fn read_change(alloc: Global, bytes: &[u8]) -> Result<Option<Change>, AllocError>
    ensures { IfOk result (λ change. change ≡ change_of bytes.now) }
{
    let mut scan = Scan::new(bytes);
    let fields = match read_fields(alloc, &mut scan) {
        Ok(fields) => fields,
        Err(ReadError::Memory) => return Err(AllocError),
        Err(ReadError::Fault(_)) => return Ok(None),
    };
    let Some(change) = change_made(fields) else {
        return Ok(None);
    };
    if scan.rest().len() == 0 {
        Ok(Some(change))
    } else {
        Ok(None)
    }
}
