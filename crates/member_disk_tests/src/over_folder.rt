use member_disk::{
    DirDisk, Disk, DiskDid, DiskNames, DiskSize, FileId, FileName, WholeFile, append, make_file,
    read_file, shorten,
};
use std::alloc::Global;
use std::fs;
use std::io::Write;
use std::test::Fail;

const INDEX: FileId = FileId {
    stream: 7,
    file: FileName::Index(12),
};

const SEGMENT: FileId = FileId {
    stream: 7,
    file: FileName::Segment(12),
};

// Whether a file of a disk has these bytes.
fn holds<D: Disk>(alloc: Global, disk: &mut D, id: FileId, bytes: &[u8]) -> bool {
    match read_file(alloc, disk, id) {
        Ok(WholeFile::Bytes(found)) => found.as_slice() == bytes,
        _ => false,
    }
}

#[test]
fn a_folder_is_a_disk(rt: HostRuntime) -> Result<(), Fail> {
    const FOLDER: &str = "member_disk_folder";
    fs::create_dir_all(&rt, FOLDER)?;
    let mut disk = DirDisk::new(rt.clone()?, String::from_str(rt.alloc(), FOLDER)?);
    assert_eq!(rt; disk.size(INDEX), DiskSize::Missing);
    assert_eq!(rt; disk.write_at(INDEX, 0, b"hello"), DiskDid::Done);
    assert_eq!(rt; disk.write_at(INDEX, 5, b" there"), DiskDid::Done);
    assert_eq!(rt; disk.write_at(SEGMENT, 0, b"x"), DiskDid::Done);
    assert_eq!(rt; disk.sync(INDEX), DiskDid::Done);
    let mut buf = [0u8; 5];
    assert_eq!(rt; disk.read(INDEX, 6, &mut buf), DiskDid::Done);
    assert_eq!(rt; &buf, b"there");
    assert_eq!(rt; disk.cut(INDEX, 5), DiskDid::Done);
    assert_eq!(rt; disk.size(INDEX), DiskSize::Size(5));
    assert_eq!(rt;
        fs::read(&rt, "member_disk_folder/7/00000000000000000012.index")?.as_slice(),
        b"hello".as_slice()
    );
    assert_eq!(rt; disk.remove(SEGMENT), DiskDid::Done);
    assert_eq!(rt; disk.remove(SEGMENT), DiskDid::Done);
    assert_eq!(rt; disk.read(SEGMENT, 0, &mut buf), DiskDid::Failed);
    let DiskNames::Names(found) = disk.names(rt.alloc(), 7)? else {
        panic!(rt; "the disk failed");
    };
    assert_eq!(rt; found.as_slice(), [INDEX].as_slice());
    fs::remove_dir_all(&rt, FOLDER)?;
    Ok(())
}

#[test]
fn a_folder_is_opened_anew(rt: HostRuntime) -> Result<(), Fail> {
    const FOLDER: &str = "member_disk_again";
    fs::create_dir_all(&rt, FOLDER)?;
    let mut disk = DirDisk::new(rt.clone()?, String::from_str(rt.alloc(), FOLDER)?);
    assert_eq!(rt;
        make_file(&mut disk, INDEX, b"OSII\0\0\0\x01"),
        DiskDid::Done
    );
    assert_eq!(rt; append(&mut disk, INDEX, 8, b"record"), DiskDid::Done);
    assert_eq!(rt; append(&mut disk, SEGMENT, 0, b"chunk"), DiskDid::Done);
    assert_eq!(rt; shorten(&mut disk, INDEX, 11), DiskDid::Done);
    let mut again = DirDisk::new(rt.clone()?, String::from_str(rt.alloc(), FOLDER)?);
    assert!(rt; holds(rt.alloc(), &mut again, INDEX, b"OSII\0\0\0\x01rec"));
    assert!(rt; holds(rt.alloc(), &mut again, SEGMENT, b"chunk"));
    assert_eq!(rt; again.remove(SEGMENT), DiskDid::Done);
    assert_eq!(rt; disk.size(SEGMENT), DiskSize::Missing);
    fs::remove_dir_all(&rt, FOLDER)?;
    Ok(())
}

#[test]
fn other_names_are_passed_over(rt: HostRuntime) -> Result<(), Fail> {
    const FOLDER: &str = "member_disk_names";
    fs::create_dir_all(&rt, "member_disk_names/3")?;
    for name in [
        "member_disk_names/3/00000000000000000007.segment",
        "member_disk_names/3/+0000000000000000007.segment",
        "member_disk_names/3/000000000000000000007.index",
        "member_disk_names/3/18446744073709551616.index",
        "member_disk_names/3/promise.words3",
        "member_disk_names/3/promise.words2",
    ] {
        fs::create(&rt, name)?.write_all(b"x")?;
    }
    let mut disk = DirDisk::new(rt.clone()?, String::from_str(rt.alloc(), FOLDER)?);
    let DiskNames::Names(found) = disk.names(rt.alloc(), 3)? else {
        panic!(rt; "the disk failed");
    };
    assert_eq!(rt; found.as_slice().len(), 2);
    for file in [FileName::Segment(7), FileName::PromiseTwo] {
        assert!(rt; found.as_slice().contains(&FileId { stream: 3, file }));
    }
    let DiskNames::Names(none) = disk.names(rt.alloc(), 4)? else {
        panic!(rt; "the disk failed");
    };
    assert_eq!(rt; none.as_slice().len(), 0);
    fs::remove_dir_all(&rt, FOLDER)?;
    Ok(())
}

#[test]
fn a_path_that_cannot_be_made_fails(rt: HostRuntime) -> Result<(), Fail> {
    const FOLDER: &str = "member_disk_file";
    // The whole folder is a file.
    fs::create(&rt, FOLDER)?.write_all(b"x")?;
    let mut disk = DirDisk::new(rt.clone()?, String::from_str(rt.alloc(), FOLDER)?);
    let mut buf = [0u8; 1];
    assert_eq!(rt; disk.write_at(INDEX, 0, b"hello"), DiskDid::Failed);
    assert_eq!(rt; disk.read(INDEX, 0, &mut buf), DiskDid::Failed);
    assert_eq!(rt; disk.cut(INDEX, 0), DiskDid::Failed);
    assert_eq!(rt; disk.sync(INDEX), DiskDid::Failed);
    assert_eq!(rt; disk.remove(INDEX), DiskDid::Failed);
    assert_eq!(rt; disk.size(INDEX), DiskSize::Failed);
    let DiskNames::Failed = disk.names(rt.alloc(), 7)? else {
        panic!(rt; "the names of a file");
    };
    fs::remove_file(&rt, FOLDER)?;
    Ok(())
}

#[test]
fn a_failed_sync_is_made_good(rt: HostRuntime) -> Result<(), Fail> {
    const FOLDER: &str = "member_disk_sync";
    const FILE: &str = "member_disk_sync/7/00000000000000000012.index";
    fs::create_dir_all(&rt, FOLDER)?;
    let mut disk = DirDisk::new(rt.clone()?, String::from_str(rt.alloc(), FOLDER)?);
    assert_eq!(rt; disk.write_at(INDEX, 0, b"hello"), DiskDid::Done);
    // The file is gone, so its sync fails.
    fs::remove_file(&rt, FILE)?;
    assert_eq!(rt; disk.sync(INDEX), DiskDid::Failed);
    // A folder stands in its place: it can be synced, but has no bytes that can be written again.
    fs::create_dir_all(&rt, FILE)?;
    assert_eq!(rt; disk.sync(INDEX), DiskDid::Failed);
    let mut other = DirDisk::new(rt.clone()?, String::from_str(rt.alloc(), FOLDER)?);
    assert_eq!(rt; other.sync(INDEX), DiskDid::Done);
    // The file is there again: its bytes are written again and synced.
    fs::remove_dir_all(&rt, FILE)?;
    assert_eq!(rt; disk.write_at(INDEX, 0, b"hello"), DiskDid::Done);
    assert_eq!(rt; disk.sync(INDEX), DiskDid::Done);
    assert!(rt; holds(rt.alloc(), &mut disk, INDEX, b"hello"));
    fs::remove_dir_all(&rt, FOLDER)?;
    Ok(())
}
