//! Kinds of files by their first bytes.

use std::fs;
use std::fs::Files;
use std::io::Read;

/// How many first bytes are looked at.
const FIRST_BYTES: usize = 64;

/// Where the name of the first file of a zip archive begins.
const ZIP_NAME: usize = 30;

/// What a file is that is no CSV, or a CSV that needs another program first.
#[derive(Clone, Copy, Debug, PartialEq, Eq)]
pub enum Kind {
    Gzip,
    Zip,
    /// A zip archive of a spreadsheet.
    Sheet,
    Parquet,
    /// With a byte order mark.
    Utf16,
    Utf16Le,
    Utf16Be,
    /// A CSV whose first line only says what its separator is.
    SeparatorLine,
}

fn is_sheet(first: &[u8]) -> bool {
    let name = first.get(ZIP_NAME..).unwrap_or(&[]);
    name.starts_with(b"[Content_Types].xml")
        || name.starts_with(b"_rels/")
        || name.starts_with(b"docProps/")
        || name.starts_with(b"xl/")
        || name.starts_with(b"mimetype")
}

/// Of the file that begins with these bytes; none if it may be CSV.
fn kind_of(first: &[u8]) -> Option<Kind> {
    if first.starts_with(&[0x1f, 0x8b]) {
        return Some(Kind::Gzip);
    }
    if first.starts_with(b"PK\x03\x04") {
        return Some(if is_sheet(first) {
            Kind::Sheet
        } else {
            Kind::Zip
        });
    }
    if first.starts_with(b"PAR1") {
        return Some(Kind::Parquet);
    }
    if first.starts_with(&[0xff, 0xfe]) || first.starts_with(&[0xfe, 0xff]) {
        return Some(Kind::Utf16);
    }
    if first.get(1) == Some(&0) {
        return Some(Kind::Utf16Le);
    }
    if first.first() == Some(&0) {
        return Some(Kind::Utf16Be);
    }
    let text = first.strip_prefix(&[0xef, 0xbb, 0xbf]).unwrap_or(first);
    let text = text.strip_prefix(b"\"").unwrap_or(text);
    if text.starts_with(b"sep=") {
        return Some(Kind::SeparatorLine);
    }
    None
}

/// The first bytes of a file.
#[derive(Drop)]
pub(crate) struct First {
    bytes: [u8; FIRST_BYTES],
    count: usize,
}

impl First {
    /// Of a regular file that can be read.
    pub(crate) fn of_file<R: Files>(rt: &R, name: &str) -> Option<First> {
        match fs::metadata(rt, name) {
            Ok(about) if about.is_file() => {}
            Ok(_) | Err(_) => return None,
        }
        let Ok(mut file) = fs::open(rt, name) else {
            return None;
        };
        let mut bytes = [0u8; FIRST_BYTES];
        match file.read(&mut bytes) {
            Ok(count) => Some(First { bytes, count }),
            Err(_) => None,
        }
    }

    pub(crate) fn bytes(&self) -> &[u8] {
        self.bytes.get(..self.count).unwrap_or(&[])
    }
}

/// The kind of a regular file that can be read; none if it may be CSV.
pub fn kind_of_file<R: Files>(rt: &R, name: &str) -> Option<Kind> {
    let first = First::of_file(rt, name)?;
    kind_of(first.bytes())
}
