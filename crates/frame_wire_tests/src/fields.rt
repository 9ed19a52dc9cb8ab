use frame_wire::{
    FieldFault, Octets, Row, Scan, Text, TextFault, fields_are_lawful, fields_have_one_outcome,
    put_blob, put_i64, put_text, put_u8, put_u16, put_u32, put_u64,
};
use std::alloc::AllocError;
use std::test::Fail;

// One field of each kind.
const ALL: &[u8] = &[
    0x01, 0x02, 0x03, 0x04, 0x05, 0x06, 0x07, 0, 0, 0, 0, 0, 0, 0, 0x08, 0xff, 0xff, 0xff, 0xff,
    0xff, 0xff, 0xff, 0xfe, 0xff, 0xff, 0, 0, 0, 0x02, 0x61, 0x62, 0xff, 0xff, 0xff, 0xff, 0, 0, 0,
    0x01, 0x63,
];

#[test]
fn fields_are_written_as_by_hand(rt: HostRuntime) -> Result<(), Fail> {
    let mut out = Octets::new(rt.alloc());
    put_u8(&mut out, 0x01)?;
    put_u16(&mut out, 0x0203)?;
    put_u32(&mut out, 0x0405_0607)?;
    put_u64(&mut out, 8)?;
    put_i64(&mut out, -2)?;
    put_text(&mut out, &Text::null())?;
    for bytes in [b"".as_slice(), b"ab".as_slice()] {
        let Ok(text) = Text::copy(rt.alloc(), bytes) else {
            return Err(Fail::from("no text"));
        };
        put_text(&mut out, &text)?;
    }
    put_blob(&mut out, None)?;
    put_blob(&mut out, Some(b"c"))?;
    assert_eq!(rt; out.as_slice(), ALL);
    assert_eq!(rt; out.len(), ALL.len());
    out.cut(3);
    out.push_slice(&[9])?;
    assert_eq!(rt; out.as_slice(), [1, 2, 3, 9].as_slice());
    Ok(())
}

#[test]
fn fields_are_read_in_order(rt: HostRuntime) {
    let mut scan = Scan::new(ALL);
    assert_eq!(rt; scan.u8(), Ok(0x01));
    assert_eq!(rt; scan.u16(), Ok(0x0203));
    assert_eq!(rt; scan.u32(), Ok(0x0405_0607));
    assert_eq!(rt; scan.u64(), Ok(8));
    assert_eq!(rt; scan.i64(), Ok(-2));
    assert_eq!(rt; scan.text(), Ok(None));
    assert_eq!(rt; scan.text(), Ok(Some(b"".as_slice())));
    assert_eq!(rt; scan.text(), Ok(Some(b"ab".as_slice())));
    assert_eq!(rt; scan.blob(), Ok(None));
    assert_eq!(rt; scan.fork().blob(), Ok(Some(b"c".as_slice())));
    assert_eq!(rt; scan.place(), ALL.len() - 5);
    assert_eq!(rt; scan.count(), Ok(1));
    if scan.rest().len() == 1 {
        scan.advance(1);
    }
    assert_eq!(rt; scan.place(), ALL.len());
}

const SHORT: FieldFault = FieldFault::Short { place: 1 };

const NEGATIVE: FieldFault = FieldFault::Negative { place: 1 };

/// One byte to pass over, then a field: as a text, as a blob and as a count.
type Case = (
    &'static [u8],
    Result<Option<&'static [u8]>, FieldFault>,
    Result<Option<&'static [u8]>, FieldFault>,
    Result<u32, FieldFault>,
);

const CASES: [Case; 9] = [
    (&[0], Err(SHORT), Err(SHORT), Err(SHORT)),
    (&[0, 0], Err(SHORT), Err(SHORT), Err(SHORT)),
    (&[0, 0, 1], Err(SHORT), Err(SHORT), Err(SHORT)),
    (&[0, 0, 0], Ok(Some(&[])), Err(SHORT), Err(SHORT)),
    (
        &[0, 0, 1, 0x61, 0, 0],
        Ok(Some(&[0x61])),
        Err(SHORT),
        Ok(0x0001_6100),
    ),
    (
        &[0, 0xff, 0xff, 0xff, 0xff],
        Ok(None),
        Ok(None),
        Err(NEGATIVE),
    ),
    (
        &[0, 0xff, 0xfe, 0xff, 0xff],
        Err(NEGATIVE),
        Err(NEGATIVE),
        Err(NEGATIVE),
    ),
    (
        &[0, 0x80, 0, 0, 0],
        Err(NEGATIVE),
        Err(NEGATIVE),
        Err(NEGATIVE),
    ),
    (
        &[0, 0x7f, 0xff, 0xff, 0xff],
        Err(SHORT),
        Err(SHORT),
        Ok(0x7fff_ffff),
    ),
];

#[test]
fn a_fault_names_its_first_place_and_moves_nothing(rt: HostRuntime) {
    for (bytes, text, blob, count) in CASES {
        let mut scan = Scan::new(bytes);
        assert_eq!(rt; scan.u8(), Ok(0), "at {bytes:?}");
        assert_eq!(rt; scan.fork().text(), text, "at {bytes:?}");
        assert_eq!(rt; scan.fork().blob(), blob, "at {bytes:?}");
        assert_eq!(rt; scan.fork().count(), count, "at {bytes:?}");
        if text.is_err() {
            assert!(rt; scan.text().is_err(), "at {bytes:?}");
            assert_eq!(rt; scan.place(), 1, "at {bytes:?}");
        }
    }
}

#[test]
fn a_text_has_at_most_32767_bytes(rt: HostRuntime) -> Result<(), Fail> {
    let mut bytes = Octets::new(rt.alloc());
    for _ in 0..32_768 {
        bytes.push_slice(&[0x61])?;
    }
    let Err(fault) = Text::copy(rt.alloc(), bytes.as_slice()) else {
        return Err(Fail::from("a text that is too long"));
    };
    assert_eq!(rt; fault, TextFault::TooLong { len: 32_768 });
    bytes.cut(32_767);
    let Ok(text) = Text::copy(rt.alloc(), bytes.as_slice()) else {
        return Err(Fail::from("no text"));
    };
    assert_eq!(rt; text.get(), Some(bytes.as_slice()));
    assert_eq!(rt; Text::null().get(), None);
    Ok(())
}

#[test]
fn a_row_keeps_its_order(rt: HostRuntime) -> Result<(), Fail> {
    let mut row = Row::new(rt.alloc());
    for item in [3u16, 1, 2] {
        let Ok(()) = row.push(item) else {
            return Err(Fail::from("no room"));
        };
    }
    assert_eq!(rt; row.as_slice(), [3, 1, 2].as_slice());
    assert_eq!(rt; row.into_vec().as_slice(), [3, 1, 2].as_slice());
    let copied = Octets::copy(rt.alloc(), b"ab")?;
    assert!(rt; copied == Octets::copy(rt.alloc(), b"ab")?);
    fields_are_lawful();
    fields_have_one_outcome();
    Ok(())
}

/// Whether a copy of a text is the same as another one, as it should be or not.
fn is_copied(text: &Text, other: &Text, same: bool) -> Result<bool, AllocError> {
    let copied = text.clone()?;
    Ok((copied == *other) == same)
}

#[test]
fn texts_are_copied_and_compared(rt: HostRuntime) -> Result<(), Fail> {
    let null = Text::null();
    let (Ok(none), Ok(one)) = (Text::copy(rt.alloc(), b""), Text::copy(rt.alloc(), b"ab")) else {
        return Err(Fail::from("no text"));
    };
    assert!(rt; is_copied(&null, &null, true)?);
    assert!(rt; is_copied(&none, &none, true)?);
    assert!(rt; is_copied(&one, &one, true)?);
    assert!(rt; is_copied(&null, &none, false)?);
    assert!(rt; is_copied(&none, &one, false)?);
    Ok(())
}
