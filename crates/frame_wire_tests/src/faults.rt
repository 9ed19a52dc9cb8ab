use frame_wire::{FieldFault, ReadError, TextFault};
use std::alloc::Global;
use std::fmt::Display;
use std::process::Abort;
use std::test::Fail;

fn prints<R: Abort, F: Display>(rt: &R, alloc: Global, fault: &F, text: &str) -> Result<(), Fail> {
    let printed = format!(in alloc; "{fault}")?;
    assert_eq!(rt; printed.as_str(), text);
    Ok(())
}

#[test]
fn faults_have_texts(rt: HostRuntime) -> Result<(), Fail> {
    let short = FieldFault::Short { place: 3 };
    prints(&rt, rt.alloc(), &short, "the field ends early, at 3")?;
    let negative = FieldFault::Negative { place: 4 };
    prints(&rt, rt.alloc(), &negative, "negative length, at 4")?;
    let long = TextFault::TooLong { len: 32_768 };
    prints(&rt, rt.alloc(), &long, "a text of 32768 bytes is too long")?;
    prints(&rt, rt.alloc(), &TextFault::Memory, "memory ran out")?;
    let read = ReadError::Fault(short);
    prints(
        &rt,
        rt.alloc(),
        &read,
        "wrong field: the field ends early, at 3",
    )?;
    prints(&rt, rt.alloc(), &ReadError::Memory, "memory ran out")
}
