//! The fields of commands, where several commands have the same ones: two fields, three fields, or a correlation, a code
//! and a last field that may be absent. Each is read to the body's end. After an error of a writer some of the bytes may
//! stand behind what was there. A length is `None` exactly where the fields have no spelling, or one of more than
//! 4,294,967,295 bytes.
#![tactic(auto, using(crate::proofs::SizeLaws::lengths))]

ghost use Rattle.std.specs.Prelude.{◌≡◌};
ghost use Rattle.frame_wire.specs.Joins.{◌then◌, or_absent};
ghost use Rattle.command_fields.specs.Adding.{Adds};
ghost use Rattle.command_fields.specs.Faults.{GivesAt};
ghost use Rattle.command_fields.specs.Sizes.{Measures};
ghost use Rattle.command_fields.specs.Tables.{last, u16, u32};

use crate::end::ended;
use crate::fault::DecodeError;
use crate::field::Field;
use crate::size::GREATEST_BODY;
use frame_wire::{Octets, Scan, put_u16, put_u32};
use std::alloc::{AllocError, Global};

/// Reads two fields, to the body's end.
pub fn read_two<A: Field, B: Field>(
    alloc: Global,
    scan: &mut Scan<'_>,
) -> Result<(A, B), DecodeError>
    ensures { GivesAt result scan.new ((A.format then last B.format).read scan.old) }
{
    let first = A::read_field(alloc, scan)?;
    let second = B::read_field(alloc, scan)?;
    ended(scan)?;
    Ok((first, second))
}

/// Reads three fields, to the body's end.
pub fn read_three<A: Field, B: Field, C: Field>(
    alloc: Global,
    scan: &mut Scan<'_>,
) -> Result<(A, (B, C)), DecodeError>
    ensures { GivesAt result scan.new ((A.format then B.format then last C.format).read scan.old) }
{
    let first = A::read_field(alloc, scan)?;
    let second = B::read_field(alloc, scan)?;
    let third = C::read_field(alloc, scan)?;
    ended(scan)?;
    Ok((first, (second, third)))
}

/// Reads a field that is absent where nothing is left, to the body's end.
pub fn read_or_absent<A: Field>(
    alloc: Global,
    scan: &mut Scan<'_>,
) -> Result<Option<A>, DecodeError>
    ensures { GivesAt result scan.new ((or_absent (last A.format)).read scan.old) }
{
    if scan.rest().is_empty() {
        return Ok(None);
    }
    let content = A::read_field(alloc, scan)?;
    ended(scan)?;
    Ok(Some(content))
}

/// Reads a correlation, a code, and a field that may be absent, to the body's end.
pub fn read_answer<A: Field>(
    alloc: Global,
    scan: &mut Scan<'_>,
) -> Result<(u32, (u16, Option<A>)), DecodeError>
    ensures { GivesAt result scan.new ((u32 then u16 then or_absent (last A.format)).read scan.old) }
{
    let corr = scan.u32()?;
    let code = scan.u16()?;
    let content = read_or_absent(alloc, scan)?;
    Ok((corr, (code, content)))
}

/// Adds two fields.
pub fn put_two<A: Field, B: Field>(
    out: &mut Octets,
    first: &A,
    second: &B,
) -> Result<(), AllocError>
    requires { (A.format then last B.format).Fits (first.now, second.now) }
    ensures { Adds result out.old out.new ((A.format then last B.format).spell (first.now, second.now)) }
{
    first.put_field(out)?;
    second.put_field(out)
}

/// Adds three fields.
pub fn put_three<A: Field, B: Field, C: Field>(
    out: &mut Octets,
    first: &A,
    second: &B,
    third: &C,
) -> Result<(), AllocError>
    requires { (A.format then B.format then last C.format).Fits (first.now, (second.now, third.now)) }
    ensures { Adds result out.old out.new ((A.format then B.format then last C.format).spell (first.now, (second.now, third.now))) }
{
    first.put_field(out)?;
    second.put_field(out)?;
    third.put_field(out)
}

/// Adds a field, or nothing where it is absent.
pub fn put_or_absent<A: Field>(out: &mut Octets, content: &Option<A>) -> Result<(), AllocError>
    requires { (or_absent (last A.format)).Fits content.now }
    ensures { Adds result out.old out.new ((or_absent (last A.format)).spell content.now) }
{
    match content {
        None => Ok(()),
        Some(content) => content.put_field(out),
    }
}

/// Adds a correlation, a code, and a field that may be absent.
pub fn put_answer<A: Field>(
    out: &mut Octets,
    corr: u32,
    code: u16,
    content: &Option<A>,
) -> Result<(), AllocError>
    requires { (or_absent (last A.format)).Fits content.now }
    ensures { Adds result out.old out.new ((u32 then u16 then or_absent (last A.format)).spell (corr, (code, content.now))) }
{
    put_u32(out, corr)?;
    put_u16(out, code)?;
    put_or_absent(out, content)
}

/// The length of two fields.
pub fn size_of_two<A: Field, B: Field>(first: &A, second: &B) -> Option<u64>
    ensures { Measures (A.format then last B.format) (first.now, second.now) result }
{
    let size = first.field_size()? + second.field_size()?;
    (size <= GREATEST_BODY).then_some(size)
}

/// The length of three fields.
pub fn size_of_three<A: Field, B: Field, C: Field>(first: &A, second: &B, third: &C) -> Option<u64>
    ensures { Measures (A.format then B.format then last C.format) (first.now, (second.now, third.now)) result }
{
    let size = first.field_size()? + second.field_size()? + third.field_size()?;
    (size <= GREATEST_BODY).then_some(size)
}

/// The length of a field, 0 where it is absent.
pub fn size_or_absent<A: Field>(content: &Option<A>) -> Option<u64>
    ensures { Measures (or_absent (last A.format)) content.now result }
{
    match content {
        None => Some(0),
        Some(content) => content.field_size(),
    }
}

/// The length of a correlation, a code, and a field that may be absent.
pub fn answer_size<A: Field>(corr: u32, code: u16, content: &Option<A>) -> Option<u64>
    ensures { Measures (u32 then u16 then or_absent (last A.format)) (corr, (code, content.now)) result }
{
    let size = 6 + size_or_absent(content)?;
    (size <= GREATEST_BODY).then_some(size)
}
