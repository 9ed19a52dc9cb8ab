use command_fields::{OffsetSpec, Property};
use frame_wire::{Item, Octets, Scan};
use std::alloc::Global;
use std::process::Abort;
use std::test::Fail;

/// An offset specification and its bytes.
const CASES: [(OffsetSpec, &[u8]); 6] = [
    (OffsetSpec::Unset, &[0, 0]),
    (OffsetSpec::First, &[0, 1]),
    (OffsetSpec::Last, &[0, 2]),
    (OffsetSpec::Next, &[0, 3]),
    (OffsetSpec::At(5), &[0, 4, 0, 0, 0, 0, 0, 0, 0, 5]),
    (
        OffsetSpec::Since(-1),
        &[0, 5, 255, 255, 255, 255, 255, 255, 255, 255],
    ),
];

/// An offset specification is written as these bytes, and read from them.
fn is_spelled<R: Abort>(rt: &R, alloc: Global, spec: OffsetSpec, bytes: &[u8]) -> Result<(), Fail> {
    let mut out = Octets::new(alloc);
    spec.put(&mut out)?;
    assert_eq!(rt; out.as_slice(), bytes);
    let mut scan = Scan::new(bytes);
    let Ok(read) = OffsetSpec::read(&mut scan) else {
        return Err(Fail::from("it was not read"));
    };
    assert_eq!(rt; read, spec);
    Ok(())
}

#[test]
fn offset_specifications_have_known_bytes(rt: HostRuntime) -> Result<(), Fail> {
    for (spec, bytes) in CASES {
        is_spelled(&rt, rt.alloc(), spec, bytes)?;
    }
    Ok(())
}

#[test]
fn a_property_has_known_bytes(rt: HostRuntime) -> Result<(), Fail> {
    let bytes = [0u8, 1, 97, 255, 255];
    let mut scan = Scan::new(&bytes);
    let Ok(property) = Property::read(rt.alloc(), &mut scan) else {
        return Err(Fail::from("it was not read"));
    };
    assert_eq!(rt; scan.place(), 5);
    let mut out = Octets::new(rt.alloc());
    property.put(&mut out)?;
    assert_eq!(rt; out.as_slice(), bytes.as_slice());
    Ok(())
}
