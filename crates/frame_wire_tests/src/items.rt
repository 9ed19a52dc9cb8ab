use frame_wire::{
    FieldFault, Item, Octets, ReadError, Row, Scan, Text, ends_are_lawful, joins_are_lawful,
    put_list, put_u64, read_list,
};
use std::alloc::{AllocError, Global};
use std::test::Fail;

// A number and a text, as items of several fields are made.
#[derive(Drop)]
struct Named {
    id: u64,
    name: Text,
}

impl Item for Named {
    ghost use Rattle.std.specs.Prelude.{◌≡◌};
    ghost use Rattle.frame_wire.specs.Formats.{u64_field, text_field};
    ghost use Rattle.frame_wire.specs.Joins.{◌then◌, mapped};

    ghost format = { mapped (λ x. record { id = x.0; name = x.1 }) (λ n. (n.id, n.name)) (u64_field then text_field) };

    fn read(alloc: Global, scan: &mut Scan<'_>) -> Result<Named, ReadError> {
        let id = scan.u64()?;
        let name = Text::read(alloc, scan)?;
        Ok(Named { id, name })
    }

    fn put(&self, out: &mut Octets) -> Result<(), AllocError> {
        put_u64(out, self.id)?;
        self.name.put(out)
    }
}

// Two items: 5 with null, 6 with "ab".
const LIST: &[u8] = &[
    0, 0, 0, 2, 0, 0, 0, 0, 0, 0, 0, 5, 0xff, 0xff, 0, 0, 0, 0, 0, 0, 0, 6, 0, 2, 0x61, 0x62,
];

#[test]
fn a_list_is_read(rt: HostRuntime) -> Result<(), Fail> {
    let mut scan = Scan::new(LIST);
    let Ok(list) = read_list::<Named>(rt.alloc(), &mut scan) else {
        return Err(Fail::from("no list"));
    };
    assert_eq!(rt; scan.place(), LIST.len());
    assert_eq!(rt; list.as_slice().len(), 2);
    assert_eq!(rt; list.as_slice()[0].id, 5);
    assert_eq!(rt; list.as_slice()[1].name.get(), Some(b"ab".as_slice()));
    Ok(())
}

#[test]
fn a_list_is_written(rt: HostRuntime) -> Result<(), Fail> {
    let Ok(name) = Text::copy(rt.alloc(), b"ab") else {
        return Err(Fail::from("no text"));
    };
    let null = Text::null();
    let mut list = Row::new(rt.alloc());
    let Ok(()) = list.push(Named { id: 5, name: null }) else {
        return Err(Fail::from("no room"));
    };
    let Ok(()) = list.push(Named { id: 6, name }) else {
        return Err(Fail::from("no room"));
    };
    let mut out = Octets::new(rt.alloc());
    put_list(&mut out, &list)?;
    assert_eq!(rt; out.as_slice(), LIST);
    Ok(())
}

#[test]
fn a_list_is_refused_at_its_wrong_field(rt: HostRuntime) {
    for len in 0..LIST.len() {
        // The first place of the field that is cut off.
        let place = if len < 4 {
            0
        } else if len < 12 {
            4
        } else if len < 14 {
            12
        } else if len < 22 {
            14
        } else {
            22
        };
        let mut scan = Scan::new(&LIST[..len]);
        let fault = match read_list::<Named>(rt.alloc(), &mut scan) {
            Err(ReadError::Fault(fault)) => Some(fault),
            _ => None,
        };
        assert_eq!(rt; fault, Some(FieldFault::Short { place }), "at {len}");
        assert_eq!(rt; scan.place(), 0, "at {len}");
    }
}

#[test]
fn laws_hold_of_these_items() {
    joins_are_lawful::<u16, Named, u8>();
    ends_are_lawful::<u64, Text>();
}
