//! Buffers that are filled from a file.

use super::slow::SlowFile;
use placed_files::{InMemory, Placed, Unopened, Unread, fill_from, open_regular};
use std::fs;
use std::fs::File;
use std::test::Fail;

/// What is read of `abcdefgh` from an offset on into a buffer of this length.
const ROWS: [(u64, usize, &str); 8] = [
    (0, 8, "abcdefgh"),
    (0, 9, "abcdefgh"),
    (0, 3, "abc"),
    (3, 3, "def"),
    (6, 3, "gh"),
    (8, 3, ""),
    (1_000_000, 3, ""),
    (4, 0, ""),
];

/// Reads each of the rows from this file of the bytes `abcdefgh`.
fn read_rows<F: Placed, R: std::process::Abort>(rt: &R, file: &F, name: &str) {
    for (offset, room, read) in ROWS {
        let mut bytes = [0; 9];
        let count = fill_from(file, &mut bytes[..room], offset);
        assert_eq!(rt; count, Ok(read.len()), "{name} at {offset}");
        assert_eq!(rt; &bytes[..read.len()], read.as_bytes(), "{name} at {offset}");
    }
}

/// Of a file of the system, of bytes in memory, and of interrupted reads of one byte. Would catch a
/// `File` that reads from the start, gives less than it read, or is always at its end.
#[test]
fn fills_from_each_offset(rt: HostRuntime) -> Result<(), Fail> {
    let bytes = b"abcdefgh".as_slice();
    let name = "fills_from_each_offset.tmp";
    fs::write(&rt, name, bytes)?;
    let file = File::open(&rt, name)?;
    read_rows(&rt, &file, "a file");
    read_rows(&rt, &InMemory { all: bytes }, "memory");
    let slow = SlowFile::of(bytes, usize::MAX);
    read_rows(&rt, &slow, "a slow file");
    assert_eq!(rt; slow.reads.get(), 8 + 8 + 3 + 3 + 2);
    assert_eq!(rt; file.stamp()?.bytes, 8);
    assert_eq!(rt; InMemory { all: bytes }.stamp()?.bytes, 8);
    fs::remove_file(&rt, name)?;
    Ok(())
}

/// A read that fails is reported if the wanted bytes reach it, and not before.
#[test]
fn fails_where_a_read_fails(rt: HostRuntime) {
    let file = SlowFile::of(b"abcdefgh".as_slice(), 5);
    let mut bytes = [0; 8];
    assert_eq!(rt; fill_from(&file, &mut bytes[..5], 0), Ok(5));
    assert_eq!(rt; &bytes[..5], b"abcde".as_slice());
    for (offset, room) in [(0, 6), (4, 2), (5, 1), (7, 1)] {
        let count = fill_from(&file, &mut bytes[..room], offset);
        assert_eq!(rt; count, Err(Unread), "{room} at {offset}");
    }
    assert_eq!(rt; fill_from(&file, &mut bytes[..0], 7), Ok(0));
}

/// A folder can be opened as a file is, and not be read.
#[test]
fn reads_no_folder(rt: HostRuntime) -> Result<(), Fail> {
    let name = "reads_no_folder.tmp";
    fs::create_dir(&rt, name)?;
    let folder = File::open(&rt, name)?;
    let mut bytes = [0; 8];
    assert_eq!(rt; fill_from(&folder, &mut bytes, 0), Err(Unread));
    fs::remove_dir(&rt, name)?;
    Ok(())
}

/// A file that grew has another stamp, and one that was only read has the same.
#[test]
fn stamps_a_change(rt: HostRuntime) -> Result<(), Fail> {
    let name = "stamps_a_change.tmp";
    fs::write(&rt, name, "abc")?;
    let file = File::open(&rt, name)?;
    let stamp = file.stamp()?;
    let mut bytes = [0; 8];
    assert_eq!(rt; fill_from(&file, &mut bytes, 0), Ok(3));
    assert!(rt; file.stamp()? == stamp);
    fs::write(&rt, name, "abcd")?;
    assert!(rt; file.stamp()? != stamp);
    assert_eq!(rt; fill_from(&file, &mut bytes, 0), Ok(4));
    fs::remove_file(&rt, name)?;
    Ok(())
}

/// A regular file is opened and read. A folder and a name that no file has are not opened.
#[test]
fn opens_regular_files_alone(rt: HostRuntime) -> Result<(), Fail> {
    let name = "opens_regular_files_alone.tmp";
    assert!(rt; matches!(open_regular(&rt, name), Err(Unopened::Unread)));
    fs::create_dir(&rt, name)?;
    assert!(rt; matches!(open_regular(&rt, name), Err(Unopened::NotRegular)));
    fs::remove_dir(&rt, name)?;
    fs::write(&rt, name, "abc")?;
    let mut bytes = [0; 8];
    match open_regular(&rt, name) {
        Ok(file) => assert_eq!(rt; fill_from(&file, &mut bytes, 0), Ok(3)),
        Err(_) => return Err(Fail::from("a regular file is not opened")),
    }
    fs::remove_file(&rt, name)?;
    Ok(())
}
