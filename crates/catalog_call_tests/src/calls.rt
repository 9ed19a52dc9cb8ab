ghost use Rattle.member_disk.specs.MemoryDisks.{state_of};
ghost use Rattle.stream_catalog.specs.InHand.{Backed};

use crate::call::{Call, make};
use frame_wire::Text;
use member_disk::MemoryDisk;
use std::alloc::Global;
use stream_catalog::Catalog;
use stream_catalog_tests::{
    EXISTS, IN_SUPER, MISSING, NO_NAME, NO_PARTS, Request, STREAMS, recover, sign,
};

// Calls on a new catalog, each with what it tells, and what the catalog has then.
struct Script {
    calls: &'static [(Call, i64)],
    // The live streams, and the greatest number.
    streams: &'static [u32],
    last: u32,
    // Names, and the numbers of their streams, 0 for none.
    numbers: &'static [(&'static [u8], u32)],
    // Numbers, and their places.
    places: &'static [(u32, u32)],
    // Super streams, and their partitions.
    parts: &'static [(&'static [u8], &'static [&'static [u8]])],
    // A key, a super stream, and the partitions that the key takes.
    routes: &'static [(&'static [u8], &'static [u8], &'static [&'static [u8]])],
    // Names of no super stream.
    no_super: &'static [&'static [u8]],
}

// A stream comes, goes, and comes again under a new number.
const COMES_AND_GOES: Script = Script {
    calls: &[
        (Call::Ask(Request::Create(b"s")), 1),
        (Call::Ask(Request::Create(b"s")), EXISTS),
        (Call::Ask(Request::Delete(b"x")), MISSING),
        (Call::Ask(Request::Delete(b"s")), 1),
        (Call::Ask(Request::Delete(b"s")), MISSING),
        (Call::Ask(Request::Create(b"t")), 2),
        (Call::Ask(Request::Create(b"s")), 3),
        (Call::Ask(Request::Delete(b"s")), 3),
        (Call::Ask(Request::Create(b"s")), 4),
    ],
    streams: &[2, 4],
    last: 4,
    numbers: &[(b"s", 4), (b"t", 2), (b"x", 0), (b"", 0)],
    places: &[(1, 0), (2, 0), (4, 0)],
    parts: &[],
    routes: &[],
    no_super: &[b"s", b"x", b""],
};

// A stream that went is found no more.
const IS_GONE: Script = Script {
    calls: &[
        (Call::Ask(Request::Create(b"s")), 1),
        (Call::Ask(Request::Delete(b"s")), 1),
    ],
    streams: &[],
    last: 1,
    numbers: &[(b"s", 0)],
    places: &[(1, 0)],
    parts: &[],
    routes: &[],
    no_super: &[b"s"],
};

// A super stream: its partitions by key, none of which goes alone.
const SUPER_AND_ROUTE: Script = Script {
    calls: &[
        (
            Call::Ask(Request::CreateSuper(b"o", &[b"o-0", b"o-1"], &[b"0", b"1"])),
            1,
        ),
        (Call::Ask(Request::Delete(b"o-0")), IN_SUPER),
        (Call::Ask(Request::Delete(b"o")), MISSING),
        (Call::Ask(Request::DeleteSuper(b"o-0")), MISSING),
    ],
    streams: &[1, 2],
    last: 2,
    numbers: &[(b"o-0", 1), (b"o-1", 2), (b"o", 0)],
    places: &[(0, 0), (1, 0), (2, 1), (3, 0)],
    parts: &[(b"o", &[b"o-0", b"o-1"])],
    routes: &[
        (b"1", b"o", &[b"o-1"]),
        (b"0", b"o", &[b"o-0"]),
        (b"2", b"o", &[]),
        (b"", b"o", &[]),
    ],
    no_super: &[b"o-0", b"x"],
};

// A super stream goes with its partitions, whose names are free then.
const SUPER_GOES: Script = Script {
    calls: &[
        (Call::Ask(Request::Create(b"a")), 1),
        (
            Call::Ask(Request::CreateSuper(b"o", &[b"o-0", b"o-1"], &[b"0", b"1"])),
            2,
        ),
        (Call::Ask(Request::Create(b"b")), 4),
        (Call::Ask(Request::DeleteSuper(b"o")), 2),
        (Call::Ask(Request::DeleteSuper(b"o")), MISSING),
        (Call::Ask(Request::Delete(b"o-1")), MISSING),
        (Call::Ask(Request::Create(b"o-1")), 5),
        (
            Call::Ask(Request::CreateSuper(b"o", &[b"o-0", b"o-1"], &[b"0", b"1"])),
            EXISTS,
        ),
        (Call::Ask(Request::Delete(b"o-1")), 5),
        (
            Call::Ask(Request::CreateSuper(b"o", &[b"o-1", b"o-0"], &[b"1", b"1"])),
            6,
        ),
    ],
    streams: &[1, 4, 6, 7],
    last: 7,
    numbers: &[(b"a", 1), (b"b", 4), (b"o-0", 7), (b"o-1", 6), (b"o", 0)],
    places: &[(2, 0), (3, 0), (4, 0), (6, 0), (7, 1)],
    parts: &[(b"o", &[b"o-1", b"o-0"])],
    routes: &[(b"1", b"o", &[b"o-1", b"o-0"]), (b"0", b"o", &[])],
    no_super: &[b"a", b"o-0"],
};

// Streams, partitions and super streams share one set of names.
const ONE_SET_OF_NAMES: Script = Script {
    calls: &[
        (Call::Ask(Request::Create(b"s")), 1),
        (
            Call::Ask(Request::CreateSuper(b"o", &[b"p", b"q"], &[b"", b"q"])),
            2,
        ),
        (Call::Ask(Request::Create(b"o")), EXISTS),
        (Call::Ask(Request::Create(b"q")), EXISTS),
        (
            Call::Ask(Request::CreateSuper(b"s", &[b"t"], &[b"t"])),
            EXISTS,
        ),
        (
            Call::Ask(Request::CreateSuper(b"o", &[b"t"], &[b"t"])),
            EXISTS,
        ),
        (
            Call::Ask(Request::CreateSuper(b"t", &[b"u", b"s"], &[b"u", b"s"])),
            EXISTS,
        ),
        (
            Call::Ask(Request::CreateSuper(b"t", &[b"p"], &[b"p"])),
            EXISTS,
        ),
        (
            Call::Ask(Request::CreateSuper(b"t", &[b"o"], &[b"o"])),
            EXISTS,
        ),
        (Call::Ask(Request::DeleteSuper(b"s")), MISSING),
        (Call::Ask(Request::DeleteSuper(b"x")), MISSING),
        (Call::Ask(Request::Delete(b"q")), IN_SUPER),
    ],
    streams: &[1, 2, 3],
    last: 3,
    numbers: &[(b"s", 1), (b"p", 2), (b"q", 3), (b"t", 0), (b"u", 0)],
    places: &[(1, 0), (2, 0), (3, 1)],
    parts: &[(b"o", &[b"p", b"q"])],
    routes: &[(b"", b"o", &[b"p"]), (b"q", b"o", &[b"q"])],
    no_super: &[b"s", b"t", b"p"],
};

// Names of 1 to 255 bytes, which are looked at before all else.
const NAMES: Script = Script {
    calls: &[
        (Call::Ask(Request::Create(b"")), NO_NAME),
        (Call::CreateNull, NO_NAME),
        (Call::CreateLong(256), NO_NAME),
        (Call::CreateLong(32_767), NO_NAME),
        (Call::CreateLong(255), 1),
        (Call::CreateLong(255), EXISTS),
        (Call::CreateLong(1), 2),
        (
            Call::Ask(Request::CreateSuper(b"", &[b"a"], &[b"x"])),
            NO_NAME,
        ),
        (Call::Ask(Request::CreateSuper(b"", &[], &[])), NO_NAME),
        (
            Call::Ask(Request::CreateSuper(b"o", &[b"a", b""], &[b"x"])),
            NO_NAME,
        ),
        (
            Call::Ask(Request::CreateSuper(b"n", &[b""], &[b"x"])),
            NO_NAME,
        ),
        (Call::Ask(Request::Delete(b"")), MISSING),
        (Call::Ask(Request::DeleteSuper(b"")), MISSING),
    ],
    streams: &[1, 2],
    last: 2,
    numbers: &[(b"n", 2), (b"o", 0), (b"a", 0)],
    places: &[],
    parts: &[],
    routes: &[],
    no_super: &[b"o"],
};

// Partitions and their keys, which are looked at before names that stand for something.
const PARTITIONS: Script = Script {
    calls: &[
        (Call::Ask(Request::Create(b"s")), 1),
        (Call::Ask(Request::CreateSuper(b"o", &[], &[])), NO_PARTS),
        (
            Call::Ask(Request::CreateSuper(b"o", &[], &[b"x"])),
            NO_PARTS,
        ),
        (
            Call::Ask(Request::CreateSuper(b"o", &[b"a", b"b"], &[b"x"])),
            NO_PARTS,
        ),
        (
            Call::Ask(Request::CreateSuper(b"o", &[b"a"], &[b"x", b"y"])),
            NO_PARTS,
        ),
        (
            Call::Ask(Request::CreateSuper(b"o", &[b"a", b"b", b"a"], &[b"x", b"y", b"z"])),
            NO_PARTS,
        ),
        (
            Call::Ask(Request::CreateSuper(b"o", &[b"a", b"o"], &[b"x", b"y"])),
            NO_PARTS,
        ),
        (Call::CreateSuperNullKey(b"o", b"a"), NO_PARTS),
        (
            Call::Ask(Request::CreateSuper(b"s", &[b"a", b"a"], &[b"x", b"y"])),
            NO_PARTS,
        ),
        (
            Call::Ask(Request::CreateSuper(b"o", &[b"s", b"s"], &[b"x", b"y"])),
            NO_PARTS,
        ),
        (
            Call::Ask(Request::CreateSuper(b"o", &[b"c", b"a", b"b"], &[b"x", b"y", b"x"])),
            2,
        ),
    ],
    streams: &[1, 2, 3, 4],
    last: 4,
    numbers: &[(b"c", 2), (b"a", 3), (b"b", 4)],
    places: &[(1, 0), (2, 0), (3, 1), (4, 2), (5, 0)],
    parts: &[(b"o", &[b"c", b"a", b"b"])],
    routes: &[(b"x", b"o", &[b"c", b"b"]), (b"y", b"o", &[b"a"])],
    no_super: &[b"s"],
};

// As many streams as may live, and one that comes where one went.
const LIMIT: Script = Script {
    calls: &[
        (Call::Ask(Request::Create(b"a")), 1),
        (
            Call::Ask(Request::CreateSuper(b"o", LETTERS, LETTERS)),
            EXISTS,
        ),
        (Call::Ask(Request::Delete(b"a")), 1),
        (Call::Ask(Request::CreateSuper(b"o", LETTERS, LETTERS)), 2),
        (Call::Ask(Request::Create(b"r")), 16),
        (
            Call::Ask(Request::CreateSuper(b"t", &[b"u", b"v"], &[b"", b""])),
            STREAMS,
        ),
        (Call::Ask(Request::CreateSuper(b"t", &[b"u"], &[b""])), 17),
        (Call::Ask(Request::Create(b"w")), STREAMS),
        (
            Call::Ask(Request::CreateSuper(b"x", &[b"y"], &[b""])),
            STREAMS,
        ),
        (Call::Ask(Request::Create(b"r")), EXISTS),
        (Call::Ask(Request::Create(b"")), NO_NAME),
        (Call::Ask(Request::Delete(b"r")), 16),
        (Call::Ask(Request::Create(b"w")), 18),
        (Call::Ask(Request::Create(b"r")), STREAMS),
    ],
    streams: &[2, 3, 4, 5, 6, 7, 8, 9, 10, 11, 12, 13, 14, 15, 17, 18],
    last: 18,
    numbers: &[(b"a", 2), (b"n", 15), (b"u", 17), (b"w", 18), (b"r", 0)],
    places: &[(2, 0), (15, 13), (17, 0)],
    parts: &[(b"o", LETTERS), (b"t", &[b"u"])],
    routes: &[(b"n", b"o", &[b"n"])],
    no_super: &[b"x"],
};

// Fourteen names.
const LETTERS: &[&[u8]] = &[
    b"a", b"b", b"c", b"d", b"e", b"f", b"g", b"h", b"i", b"j", b"k", b"l", b"m", b"n",
];

const SCRIPTS: [Script; 8] = [
    COMES_AND_GOES,
    IS_GONE,
    SUPER_AND_ROUTE,
    SUPER_GOES,
    ONE_SET_OF_NAMES,
    NAMES,
    PARTITIONS,
    LIMIT,
];

// The catalog after calls on a new one, or the place of the first call that tells another number, counted from 1.
fn play(alloc: Global, disk: &mut MemoryDisk, calls: &[(Call, i64)]) -> Result<Catalog, usize> {
    let Ok(mut catalog) = recover(alloc, disk) else {
        return Err(1_000);
    };
    for at in 0..calls.len() {
        let (call, want) = calls[at];
        if sign(make(alloc, disk, &mut catalog, call)) != want {
            return Err(at + 1);
        }
    }
    Ok(catalog)
}

fn are(found: &[Text], want: &[&[u8]]) -> bool {
    if found.len() != want.len() {
        return false;
    }
    for (found, want) in found.iter().zip(want) {
        match found.get() {
            Some(bytes) => {
                if bytes != *want {
                    return false;
                }
            }
            None => return false,
        }
    }
    true
}

fn has_parts(alloc: Global, catalog: &Catalog, name: &[u8], want: &[&[u8]]) -> bool {
    match catalog.parts(alloc, name) {
        Ok(Some(row)) => are(row.as_slice(), want),
        _ => false,
    }
}

fn has_route(alloc: Global, catalog: &Catalog, key: &[u8], name: &[u8], want: &[&[u8]]) -> bool {
    match catalog.route(alloc, key, name) {
        Ok(Some(row)) => are(row.as_slice(), want),
        _ => false,
    }
}

fn is_no_super(alloc: Global, catalog: &Catalog, name: &[u8]) -> bool {
    let has_parts = match catalog.parts(alloc, name) {
        Ok(parts) => parts.is_some(),
        Err(_) => true,
    };
    let has_route = match catalog.route(alloc, b"x", name) {
        Ok(parts) => parts.is_some(),
        Err(_) => true,
    };
    !has_parts && !has_route
}

fn has_numbers(catalog: &Catalog, script: &Script) -> bool {
    for (name, number) in script.numbers {
        if catalog.find(name).unwrap_or(0) != *number {
            return false;
        }
    }
    for (number, place) in script.places {
        if catalog.part_index(*number) != *place {
            return false;
        }
    }
    catalog.streams() == script.streams && catalog.last() == script.last
}

fn has_supers(alloc: Global, catalog: &Catalog, script: &Script) -> bool {
    for (name, parts) in script.parts {
        if !has_parts(alloc, catalog, name, parts) {
            return false;
        }
    }
    for (key, name, parts) in script.routes {
        if !has_route(alloc, catalog, key, name, parts) {
            return false;
        }
    }
    for name in script.no_super {
        if !is_no_super(alloc, catalog, name) {
            return false;
        }
    }
    true
}

fn has_all(alloc: Global, catalog: &Catalog, script: &Script) -> bool {
    has_numbers(catalog, script) && has_supers(alloc, catalog, script)
}

// The place of the first call of a script that tells another number, counted from 1; or what is wrong of the catalog
// then, or of the one that its files have; or 0.
fn wrong_at(alloc: Global, script: &Script) -> usize {
    let mut disk = MemoryDisk::new(alloc);
    let catalog = match play(alloc, &mut disk, script.calls) {
        Ok(catalog) => catalog,
        Err(at) => return at,
    };
    if !has_all(alloc, &catalog, script) {
        return 1_001;
    }
    match recover(alloc, &mut disk) {
        Ok(catalog) => {
            if has_all(alloc, &catalog, script) {
                0
            } else {
                1_002
            }
        }
        Err(_) => 1_003,
    }
}

#[test]
fn calls_answer_by_the_rules(rt: HostRuntime) {
    for script in &SCRIPTS {
        assert_eq!(rt; wrong_at(rt.alloc(), script), 0, "{:?}", script.calls);
    }
}
