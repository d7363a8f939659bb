//! Why the program fails, with the line that says so.
ghost use Rattle.std.specs.Prelude.{◌≡◌};
ghost use Rattle.omny_audit.specs.inside.Program.{outside_of};

use frame::Outside;
use program_manners::{FileFault, NamedClassLine, TableLine, TablesFault};
use std::alloc::{AllocError, AllocFailed};
use std::fmt;
use world::{LoadFault, WriteFault};

/// Why the program fails. Its `Display` is the fault line without its line feed.
#[derive(Clone, Copy, Debug)]
pub(crate) enum Fault<'a> {
    /// A file was not loaded, or the ledger not opened.
    File(FileFault<'a>),
    /// The ledger was opened, and a read of it failed.
    Ledger(LoadFault),
    /// The fare tables were not loaded.
    Tables(TablesFault<'a>),
    /// A ledger was named as an upload.
    GivenLedger(&'a str),
    /// The text of the fare table of this file names a class that no traced ledger can have. It is
    /// the only table, and the line does not name it, if the flag is set.
    Class(&'a str, bool),
    /// The text was not written. Nothing is reported if its reader is gone.
    Unwritten(WriteFault),
    /// The file of this name does not say what made a text.
    NotMade(&'a str),
    /// An allocation failed.
    NoMemory,
}

impl<'a> From<FileFault<'a>> for Fault<'a> {
    ghost use Rattle.omny_audit.specs.declared.fault.Fault.TheVariants.{File};

    ghost from_gives = { λ refused fault. fault ≡ File refused };

    fn from(fault: FileFault<'a>) -> Fault<'a> {
        Fault::File(fault)
    }
}

impl From<AllocError> for Fault<'_> {
    ghost use Rattle.omny_audit.specs.declared.fault.Fault.TheVariants.{NoMemory};

    ghost from_gives = { λ _ fault. fault ≡ NoMemory };

    fn from(_refused: AllocError) -> Self {
        Fault::NoMemory
    }
}

impl<T: Drop> From<AllocFailed<T>> for Fault<'_> {
    ghost use Rattle.omny_audit.specs.declared.fault.Fault.TheVariants.{NoMemory};

    ghost from_gives = { λ _ fault. fault ≡ NoMemory };

    fn from(_refused: AllocFailed<T>) -> Self {
        Fault::NoMemory
    }
}

impl Fault<'_> {
    /// What stops the run.
    pub(crate) fn outside(&self) -> Outside
        ensures { result ≡ outside_of self.now }
    {
        match self {
            Fault::File(file) => Outside::Unread(file.fault),
            Fault::Ledger(why) => Outside::Unread(*why),
            Fault::Tables(fault) => fault.outside(),
            Fault::GivenLedger(_) | Fault::Class(_, _) | Fault::NotMade(_) => Outside::Wrong,
            Fault::Unwritten(why) => Outside::Unwritten(*why),
            Fault::NoMemory => Outside::NoMemory,
        }
    }
}

impl fmt::Display for Fault<'_> {
    fn fmt<W: fmt::Write>(&self, f: &mut fmt::Formatter<W>) -> fmt::Result {
        match self {
            Fault::File(fault) | Fault::Tables(TablesFault::File(fault)) => fault.fmt(f),
            Fault::Ledger(LoadFault::NoMemory)
            | Fault::Tables(TablesFault::NoMemory)
            | Fault::NoMemory => f.write_str("fault: out of memory"),
            Fault::Ledger(_) => f.write_str("fault: cannot read the ledger"),
            Fault::Tables(TablesFault::Table(fault)) => TableLine(*fault).fmt(f),
            Fault::Tables(TablesFault::NamedTable(line)) => line.fmt(f),
            Fault::Tables(TablesFault::Follow(line)) => line.fmt(f),
            Fault::GivenLedger(name) => write!(
                f,
                "fault: {name} is a ledger and no upload: write it before --uploads, or after --"
            ),
            Fault::Class(_, true) => {
                f.write_str("fault: table has a class name that no ledger can have")
            }
            Fault::Class(file, false) => NamedClassLine(*file).fmt(f),
            Fault::Unwritten(_) => f.write_str("fault: cannot write"),
            Fault::NotMade(name) => write!(f, "fault: {name} was not made by --made-by"),
        }
    }
}
