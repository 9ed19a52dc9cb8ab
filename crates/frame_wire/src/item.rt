//! What stands in lists, and one reader and one writer for lists of any of it.

ghost use Rattle.std.specs.Prelude.{◌≡◌, ◌++◌, List, ℕ, Result, OnOk, OnErr, IfErr, length, take};
ghost use Rattle.frame_wire.specs.declared.fault.FieldFault.{FieldFault};
ghost use Rattle.frame_wire.specs.Formats.{Format};
ghost use Rattle.frame_wire.specs.Joins.{list_at, items_at, list_bytes, IsList};
ghost use Rattle.frame_wire.specs.Items.{same_fault, Gives};

use crate::fault::{FieldFault, ReadError};
use crate::octets::Octets;
use crate::put::{put_text, put_u16, put_u32, put_u64};
use crate::row::Row;
use crate::scan::Scan;
use crate::text::Text;
use std::alloc::{AllocError, Global};

/// A value with a format, that can stand in a list. A struct's is `mapped` of its fields' formats.
pub trait Item: Drop {
    ghost format: { Format Self FieldFault };

    /// Reads one from the front of a scan. After an error the scan stands anywhere in it.
    fn read(alloc: Global, scan: &mut Scan<'_>) -> Result<Self, ReadError>
        ensures { Gives result scan.new (format.read scan.old) };

    /// Adds its bytes. After an error some of them may stand behind what was there.
    fn put(&self, out: &mut Octets) -> Result<(), AllocError>
        requires { format.Fits self.now }
        ensures ok { OnOk result (out.new ≡ out.old ++ format.spell self.now) }
        ensures err { OnErr result (take (length out.old) out.new ≡ out.old) };
}

impl Item for u16 {
    ghost use Rattle.frame_wire.specs.Formats.{u16_field};

    ghost format = { u16_field };

    fn read(_alloc: Global, scan: &mut Scan<'_>) -> Result<u16, ReadError> {
        Ok(scan.u16()?)
    }

    fn put(&self, out: &mut Octets) -> Result<(), AllocError> {
        put_u16(out, *self)
    }
}

impl Item for u64 {
    ghost use Rattle.frame_wire.specs.Formats.{u64_field};

    ghost format = { u64_field };

    fn read(_alloc: Global, scan: &mut Scan<'_>) -> Result<u64, ReadError> {
        Ok(scan.u64()?)
    }

    fn put(&self, out: &mut Octets) -> Result<(), AllocError> {
        put_u64(out, *self)
    }
}

impl Item for Text {
    ghost use Rattle.frame_wire.specs.Formats.{text_field};

    ghost format = { text_field };

    fn read(alloc: Global, scan: &mut Scan<'_>) -> Result<Text, ReadError> {
        match scan.text()? {
            None => Ok(Text::null()),
            Some(bytes) => match Text::copy(alloc, bytes) {
                Ok(text) => Ok(text),
                Err(_) => Err(ReadError::Memory),
            },
        }
    }

    fn put(&self, out: &mut Octets) -> Result<(), AllocError> {
        put_text(out, self)
    }
}

/// So many items, one after another.
fn read_items<T: Item>(alloc: Global, count: u32, scan: &mut Scan<'_>) -> Result<Row<T>, ReadError>
    ensures { Gives result scan.new (items_at T.format.read count scan.old) }
{
    let mut items = Row::new(alloc);
    for _ in 0..count {
        let item = T::read(alloc, scan)?;
        let Ok(()) = items.push(item) else {
            return Err(ReadError::Memory);
        };
    }
    Ok(items)
}

/// Reads a count and its items, and takes memory for them alone. After an error the scan stands where it stood.
pub fn read_list<'a, T: Item>(alloc: Global, scan: &mut Scan<'a>) -> Result<Row<T>, ReadError>
    ensures read { Gives result scan.new (list_at same_fault T.format.read scan.old) }
    ensures unmoved { IfErr result (λ _. scan.new ≡ scan.old) }
{
    let start = scan.fork();
    let count = scan.count()?;
    match read_items(alloc, count, scan) {
        Ok(items) => Ok(items),
        Err(error) => {
            *scan = start;
            Err(error)
        }
    }
}

/// Adds a count and the items. After an error the list is as it was.
pub fn put_list<T: Item>(out: &mut Octets, items: &Row<T>) -> Result<(), AllocError>
    requires { IsList T.format.Fits items.now }
    ensures ok { OnOk result (out.new ≡ out.old ++ list_bytes T.format.spell items.now) }
    ensures err { OnErr result (out.new ≡ out.old) }
{
    let before = out.len();
    let items = items.as_slice();
    put_u32(out, items.len() as u32)?;
    for item in items {
        if let Err(refused) = item.put(out) {
            out.cut(before);
            return Err(refused);
        }
    }
    Ok(())
}
