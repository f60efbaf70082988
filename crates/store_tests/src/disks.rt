//! Disks in memory, one that fails, and one over a real file.

use disk_model::disk::{Disk, Failed};
use disk_model::file::FileDisk;
use disk_model::fuse::FuseDisk;
use disk_model::memory::MemDisk;
use std::alloc::Global;
use std::fs;
use std::fs::OpenOptions;
use std::process::Abort;

/// Which of three calls of a disk fail: the size, a write and a read.
fn first_calls(disk: &mut FuseDisk) -> [bool; 3] {
    let mut octets = [0; 0];
    [
        disk.size().is_err(),
        disk.write_at(0, b"xy").is_err(),
        disk.read(0, &mut octets).is_err(),
    ]
}

/// Which of two more calls fail: a sync and a cut.
fn last_calls(disk: &mut FuseDisk) -> [bool; 2] {
    [disk.sync().is_err(), disk.cut(0).is_err()]
}

/// Which of five calls failed on a disk whose call of that number fails, and the content after them.
fn five_calls<R: Abort>(rt: &R, alloc: Global, number: u64) -> ([bool; 3], [bool; 2], MemDisk) {
    let disk = MemDisk::new(alloc, b"abcd").expect(rt, "memory is ample");
    let mut disk = FuseDisk::new(disk, number);
    let first = first_calls(&mut disk);
    let last = last_calls(&mut disk);
    (first, last, disk.into_disk())
}

#[test]
fn a_fuse_fails_once(rt: HostRuntime) {
    for (number, first, last, content) in [
        (1, [true, false, false], [false, false], b"".as_slice()),
        (2, [false, true, false], [false, false], b"".as_slice()),
        (5, [false, false, false], [false, true], b"xycd".as_slice()),
        (6, [false, false, false], [false, false], b"".as_slice()),
    ] {
        let (failed, failed_last, disk) = five_calls(&rt, rt.alloc(), number);
        assert!(rt; failed == first && failed_last == last, "at {number}");
        assert!(rt; disk.content() == content, "at {number}");
    }
}

/// Writes octets behind those of a disk, whose number it says.
fn append(disk: &mut MemDisk, octets: &[u8]) -> Result<u64, Failed> {
    let size = disk.size()?;
    disk.write_at(size, octets)?;
    Ok(size)
}

/// Writes octets over the first ones of a disk.
fn write_over(disk: &mut MemDisk, octets: &[u8]) -> Result<(), Failed> {
    disk.write_at(0, octets)?;
    disk.sync()
}

#[test]
fn memory_is_read_as_written(rt: HostRuntime) {
    let mut disk = MemDisk::new(rt.alloc(), b"abcd").expect(&rt, "memory is ample");
    assert_eq!(rt; append(&mut disk, b"ef"), Ok(4));
    assert!(rt; disk.content() == b"abcdef".as_slice());
    assert_eq!(rt; write_over(&mut disk, b"xyz"), Ok(()));
    assert!(rt; disk.content() == b"xyzdef".as_slice());
}

/// Writes octets to an empty file in two pieces, and cuts them to eight.
fn write_pieces(disk: &mut FileDisk) -> Result<(), Failed> {
    disk.write_at(0, b"hello")?;
    disk.write_at(5, b" disk")?;
    disk.cut(8)?;
    disk.sync()
}

/// Five octets of a file from a place on.
fn read_five(disk: &mut FileDisk, at: u64) -> Result<[u8; 5], Failed> {
    let mut octets = [0; 5];
    disk.read(at, &mut octets)?;
    Ok(octets)
}

#[test]
fn a_file_is_read_as_written(rt: HostRuntime) {
    let path = "/tmp/disk_model_test_of_a_file";
    let file = OpenOptions::new()
        .read(true)
        .write(true)
        .create(true)
        .truncate(true)
        .open(&rt, path)
        .expect(&rt, "a file");
    let mut disk = FileDisk::new(file);
    assert_eq!(rt; disk.size(), Ok(0));
    assert_eq!(rt; write_pieces(&mut disk), Ok(()));
    assert_eq!(rt; disk.size(), Ok(8));
    assert_eq!(rt; read_five(&mut disk, 3), Ok(*b"lo di"));
    assert_eq!(rt; read_five(&mut disk, 4), Err(Failed));
    fs::remove_file(&rt, path).expect(&rt, "the file goes");
}
