//! The names of files that a text lists. No contract says which these are.

use memchr::memchr;
use std::alloc::{AllocError, AllocFailed, Global};
use world::LoadFault;

/// Why a list gives no names. The first two are usage errors.
#[derive(Clone, Copy, Debug, PartialEq, Eq)]
pub enum ListFault {
    /// It is said what ends its names, and no list is named.
    NullAlone,
    /// The list is standard input, and so is a file.
    InputTwice,
    /// It was not loaded, or an allocation failed.
    File(LoadFault),
    /// It is empty.
    NoNames,
    /// Its name of this number, from 1 on, is refused, and why.
    Name(usize, &'static str),
}

impl From<LoadFault> for ListFault {
    fn from(fault: LoadFault) -> ListFault {
        ListFault::File(fault)
    }
}

impl From<AllocError> for ListFault {
    fn from(_refused: AllocError) -> ListFault {
        ListFault::File(LoadFault::NoMemory)
    }
}

impl<T: Drop> From<AllocFailed<T>> for ListFault {
    fn from(_refused: AllocFailed<T>) -> ListFault {
        ListFault::File(LoadFault::NoMemory)
    }
}

fn name_of(bytes: &[u8]) -> Result<&str, &'static str> {
    if bytes.is_empty() {
        return Err("it is empty");
    }
    if memchr(0, bytes).is_some() {
        return Err("it has a NUL");
    }
    str::from_utf8(bytes).map_err(|_| "it is not UTF-8")
}

/// The names that the text lists, in order, each ended by this byte. The last one need not be ended.
/// An error is the first name that is empty, has a NUL or is not UTF-8, a list without a name, or an
/// allocation failure.
pub(crate) fn names_of_list<'a>(
    alloc: Global,
    text: &'a [u8],
    end: u8,
) -> Result<Vec<&'a str>, ListFault> {
    if text.is_empty() {
        return Err(ListFault::NoNames);
    }
    let mut names = Vec::new(alloc);
    let whole = text.strip_suffix(&[end]).unwrap_or(text);
    for piece in whole.split(|byte| *byte == end) {
        match name_of(piece) {
            Ok(name) => names.push(name)?,
            Err(why) => return Err(ListFault::Name(names.len().saturating_add(1), why)),
        }
    }
    Ok(names)
}
