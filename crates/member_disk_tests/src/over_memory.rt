use member_disk::{Disk, DiskDid, DiskNames, DiskSize, FileId, FileName, MemoryDisk};
use std::alloc::{AllocError, Global};
use std::test::Fail;

const SEGMENT: FileId = FileId {
    stream: 1,
    file: FileName::Segment(0),
};

const INDEX: FileId = FileId {
    stream: 1,
    file: FileName::Index(0),
};

const PROMISE: FileId = FileId {
    stream: 2,
    file: FileName::Promise,
};

// Whether a file is there with these bytes, at most 16.
fn holds(disk: &mut MemoryDisk, id: FileId, bytes: &[u8]) -> bool {
    let mut buf = [0u8; 16];
    let len = bytes.len();
    if len > 16 {
        return false;
    }
    let DiskSize::Size(size) = disk.size(id) else {
        return false;
    };
    if size != len as u64 {
        return false;
    }
    disk.read(id, 0, &mut buf[..len]) == DiskDid::Done && &buf[..len] == bytes
}

fn read(disk: &mut MemoryDisk, id: FileId, place: u64, buf: &mut [u8]) -> bool {
    let DiskSize::Size(size) = disk.size(id) else {
        return false;
    };
    let Some(end) = place.checked_add(buf.len() as u64) else {
        return false;
    };
    if size < end {
        return false;
    }
    disk.read(id, place, buf) == DiskDid::Done
}

// So many sevens.
fn sevens(alloc: Global, len: usize) -> Result<Vec<u8>, AllocError> {
    Vec::from_elem(alloc, 7, len)
}

fn write(disk: &mut MemoryDisk, id: FileId, place: u64, bytes: &[u8]) -> bool {
    disk.write_at(id, place, bytes) == DiskDid::Done
}

fn sync(disk: &mut MemoryDisk, id: FileId) -> bool {
    disk.sync(id) == DiskDid::Done
}

fn cut(disk: &mut MemoryDisk, id: FileId, size: u64) -> bool {
    let DiskSize::Size(_) = disk.size(id) else {
        return false;
    };
    disk.cut(id, size) == DiskDid::Done
}

fn crash(disk: &mut MemoryDisk, stream: u32, image: u8) -> bool {
    disk.crash(stream, image.min(3)).is_ok()
}

// Writes a file and syncs it, writes to it, cuts it where the case says so, and crashes.
fn crashed(disk: &mut MemoryDisk, place: u64, bytes: &[u8], size: Option<u64>, image: u8) -> bool {
    if !write(disk, SEGMENT, 0, b"abcdef") || !sync(disk, SEGMENT) {
        return false;
    }
    if !write(disk, SEGMENT, place, bytes) {
        return false;
    }
    if let Some(size) = size {
        if !cut(disk, SEGMENT, size) {
            return false;
        }
    }
    crash(disk, 1, image)
}

#[test]
fn a_crash_takes_its_image(rt: HostRuntime) {
    // Where the last write begins, its bytes, the size that the file is then cut to, the image, and
    // the bytes after it.
    let cases: [(u64, &[u8], Option<u64>, u8, &[u8]); 12] = [
        (6, b"ghij", None, 0, b"abcdef"),
        (6, b"ghij", None, 1, b"abcdefghij"),
        (6, b"ghij", None, 2, b"abcdefgh"),
        (6, b"ghi", None, 2, b"abcdefg"),
        (6, b"ghij", None, 3, b"abcdef\xa5\xa5\xa5\xa5"),
        (4, b"WXYZ", None, 2, b"abcdWX"),
        (5, b"WX", None, 2, b"abcdeW"),
        (2, b"WXY", None, 2, b"abWdef"),
        (4, b"WXYZ", None, 3, b"abcd\xa5\xa5\xa5\xa5"),
        (6, b"ghij", Some(9), 2, b"abcdefgh"),
        (6, b"ghij", Some(7), 3, b"abcdef\xa5"),
        (6, b"ghij", Some(2), 0, b"abcdef"),
    ];
    for (place, bytes, size, image, want) in cases {
        let mut disk = MemoryDisk::new(rt.alloc());
        let done = crashed(&mut disk, place, bytes, size, image);
        assert!(rt; done, "image {image} of a write at {place}");
        assert!(rt;
            holds(&mut disk, SEGMENT, want),
            "image {image} of a write at {place}"
        );
    }
}

#[test]
fn the_last_write_is_that_of_the_stream(rt: HostRuntime) {
    let mut disk = MemoryDisk::new(rt.alloc());
    assert!(rt; write(&mut disk, SEGMENT, 0, b"ab") && write(&mut disk, PROMISE, 0, b"pq"));
    assert!(rt; write(&mut disk, INDEX, 0, b"cd") && sync(&mut disk, INDEX));
    assert!(rt; crash(&mut disk, 1, 3));
    assert!(rt; holds(&mut disk, SEGMENT, b"\xa5\xa5") && holds(&mut disk, INDEX, b"cd"));
    assert!(rt; holds(&mut disk, PROMISE, b"pq") && crash(&mut disk, 2, 0));
    assert_eq!(rt; disk.size(PROMISE), DiskSize::Missing);
    assert!(rt; write(&mut disk, PROMISE, 0, b"p") && crash(&mut disk, 2, 2));
    assert_eq!(rt; disk.size(PROMISE), DiskSize::Size(0));
    assert_eq!(rt; disk.refused(), 0);
}

#[test]
fn settings_stand_side_by_side(rt: HostRuntime) -> Result<(), Fail> {
    let mut disk = MemoryDisk::new(rt.alloc());
    disk.fail_after(1, 1)?;
    disk.fail_after(1, 3)?;
    disk.fail_after(1, 5)?;
    assert_eq!(rt; disk.write_at(SEGMENT, 0, b"ab"), DiskDid::Failed);
    assert_eq!(rt; disk.size(SEGMENT), DiskSize::Missing);
    assert_eq!(rt; disk.size(PROMISE), DiskSize::Missing);
    assert_eq!(rt; disk.size(INDEX), DiskSize::Failed);
    assert!(rt; crash(&mut disk, 1, 1));
    assert_eq!(rt; disk.size(SEGMENT), DiskSize::Missing);
    assert_eq!(rt; disk.size(SEGMENT), DiskSize::Missing);
    assert_eq!(rt; disk.refused(), 0);
    Ok(())
}

#[test]
fn names_are_those_of_one_stream(rt: HostRuntime) -> Result<(), Fail> {
    let mut disk = MemoryDisk::new(rt.alloc());
    assert!(rt; write(&mut disk, SEGMENT, 0, b"ab") && write(&mut disk, INDEX, 0, b"cd"));
    assert!(rt; write(&mut disk, PROMISE, 0, b"pq"));
    assert_eq!(rt; disk.remove(SEGMENT), DiskDid::Done);
    assert_eq!(rt; disk.remove(SEGMENT), DiskDid::Done);
    let DiskNames::Names(found) = disk.names(rt.alloc(), 1)? else {
        panic!(rt; "the disk failed");
    };
    assert_eq!(rt; found.as_slice(), [INDEX].as_slice());
    Ok(())
}

#[test]
fn a_file_stands_in_pieces(rt: HostRuntime) -> Result<(), Fail> {
    let mut disk = MemoryDisk::new(rt.alloc());
    let long = sevens(rt.alloc(), 2_500_000)?;
    assert!(rt;
        write(&mut disk, SEGMENT, 0, &long) && write(&mut disk, SEGMENT, 1_048_572, b"abcdefgh")
    );
    let mut buf = [0u8; 12];
    assert!(rt; read(&mut disk, SEGMENT, 1_048_570, &mut buf));
    assert_eq!(rt; &buf, b"\x07\x07abcdefgh\x07\x07");
    assert!(rt;
        cut(&mut disk, SEGMENT, 2_000_000) && sync(&mut disk, SEGMENT) && crash(&mut disk, 1, 0)
    );
    assert_eq!(rt; disk.size(SEGMENT), DiskSize::Size(2_000_000));
    Ok(())
}
