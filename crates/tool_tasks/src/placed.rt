//! Files that are read at any offset.
ghost use Rattle.std.specs.Prelude.{◌≡◌, ◌++◌, ◌∷◌, [], IfErr, IfOk, OnOk, map};
ghost use Rattle.frame.specs.Outsides.{Stops};

use crate::fault::Fault;
use crate::stops::Halt;
use frame::Outside;
use placed_files::{Placed, Unopened};
use std::alloc::{AllocError, Global};

/// Files by their names, which are read at any offset.
pub trait PlacedFiles {
    ghost use Rattle.std.specs.Prelude.{◌≡◌, ℕ, List, IfOk, Option, None};

    /// A file that was opened to be read at any offset.
    type File: Placed + Drop;

    // The bytes of the file of a name, if known. They do not change.
    ghost bytes_under: { Self → List ℕ → Option (List ℕ) } = { λ _ _. None };

    /// The file of this name, opened to be read at any offset.
    fn open_placed(&self, name: &str) -> Result<Self::File, Unopened>
        ensures { IfOk result (λ file. Self.File.bytes file ≡ bytes_under self.now name.now) };
}

/// No trace tells that a file was not opened to be read at any offset.
fn halt_of_open<'a>(word: &'a str, fault: Unopened) -> Halt<'a>
    ensures { Stops ⊥ result.0 }
{
    match fault {
        Unopened::Unread | Unopened::NotRegular => Halt(Outside::Untraced, Fault::Unread(word)),
        Unopened::TooManyOpen => Halt(Outside::Untraced, Fault::TooManyOpen(word)),
        Unopened::NoMemory => Halt(Outside::NoMemory, Fault::NoMemory),
    }
}

pub(crate) fn push<F: Drop>(files: &mut Vec<F>, file: F) -> Result<(), AllocError>
    ensures { OnOk result (files.new.items ≡ files.old.items ++ file ∷ []) }
{
    files.push(file)?;
    Ok(())
}

pub(crate) fn open_placed<'a, D: PlacedFiles>(
    alloc: Global,
    disk: &D,
    words: &[&'a str],
) -> Result<Vec<D::File>, Halt<'a>>
    ensures opened { IfOk result (λ files. map D.File.bytes files.items
        ≡ map (D.bytes_under disk.now) (map (λ w. w.now) words.now)) }
    ensures stopped { IfErr result (λ halt. Stops ⊥ halt.0) }
{
    let mut files = Vec::new(alloc);
    for word in words {
        match disk.open_placed(word) {
            Ok(file) => push(&mut files, file)?,
            Err(fault) => return Err(halt_of_open(word, fault)),
        }
    }
    Ok(files)
}
