//! Files of the system, opened to be read at any offset.

ghost use Rattle.std.specs.Prelude.{◌≡◌, ◌≢◌, ◌⊎◌, Some, pos};
ghost use Rattle.std.specs.IoError.{error_kind, raw_os_error};

use std::alloc::AllocError;
use std::fs::Files;
use std::io::ErrorKind;
use std::{fs, io};
use thiserror::Error;

const EMFILE: i32 = 24;

const ENFILE: i32 = 23;

/// Why a file was not opened. `NotRegular`: a folder, a pipe or a device, which have no offsets.
#[derive(Clone, Copy, Debug, PartialEq, Eq, Error)]
pub enum Unopened {
    /// The system refuses it: it is missing, say, or may not be read.
    #[error("it cannot be read")]
    Unread,
    #[error("it is no regular file")]
    NotRegular,
    #[error("too many files are open")]
    TooManyOpen,
    #[error("out of memory")]
    NoMemory,
}

impl From<AllocError> for Unopened {
    ghost use Rattle.placed_files.specs.declared.unopened.Unopened.TheVariants.{NoMemory};

    ghost from_gives = { λ _ fault. fault ≡ NoMemory };

    fn from(_refused: AllocError) -> Unopened {
        Unopened::NoMemory
    }
}

fn fault_of(error: &io::Error) -> Unopened
    ensures memory { error_kind error.now ≡ ErrorKind.OutOfMemory → result ≡ Unopened.NoMemory }
    ensures many { error_kind error.now ≢ ErrorKind.OutOfMemory
        → (raw_os_error error.now ≡ Some (pos 24)) ⊎ (raw_os_error error.now ≡ Some (pos 23))
        → result ≡ Unopened.TooManyOpen }
{
    if error.kind() == ErrorKind::OutOfMemory {
        return Unopened::NoMemory;
    }
    match error.raw_os_error() {
        Some(EMFILE | ENFILE) => Unopened::TooManyOpen,
        _ => Unopened::Unread,
    }
}

/// Opens the regular file of this name, and no other: the open of a pipe would wait for a writer.
pub fn open_regular<R: Files>(rt: &R, name: &str) -> Result<R::File, Unopened> {
    match fs::metadata(rt, name) {
        Ok(about) if !about.is_file() => Err(Unopened::NotRegular),
        Ok(_) => fs::open(rt, name).map_err(|error| fault_of(&error)),
        Err(error) => Err(fault_of(&error)),
    }
}
