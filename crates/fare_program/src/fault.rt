//! Why the program fails, with the line that says so.
ghost use Rattle.fare_program.specs.{Causes.AreWrongSorted, inside.Ends.IsLate};
ghost use Rattle.fare_program.specs.inside.Fault.{CanStop, ended_as, of_write, outside_of};
ghost use Rattle.fare_program.specs.inside.Fault.{printed_as};
ghost use Rattle.settled_bills.specs.Faults.{IsBeforeText, IsBillFault};
ghost use Rattle.std.specs.Prelude.{◌≡◌, ◌≢◌, ⊤, ℕ, List, Option, Some, IfErr, map};

use fare_service::PrintFault;
use frame::Outside;
use placed_files::Unopened;
use program_manners::{FileFault, NamedClassLine, TableLine, TablesFault, WriteFault};
use settled_bills::BillFault;
use sorted_taps::SortedFault;
use std::fmt;

/// Why the text of sorted files was aborted: each file was checked before the first byte was
/// written.
#[derive(Clone, Copy, Debug)]
pub(crate) enum LateFault {
    /// A file does not have the taps that it had when it was checked.
    Changed,
    /// A file that was checked cannot be read again.
    Unread,
    /// An allocation failed.
    NoMemory,
}

impl LateFault {
    fn of(fault: SortedFault) -> LateFault {
        match fault {
            SortedFault::OutOfOrder { .. } | SortedFault::Layout { .. } => LateFault::Changed,
            SortedFault::Unread => LateFault::Unread,
            SortedFault::NoMemory => LateFault::NoMemory,
        }
    }

    /// Why the rest of a part was not written, if no write failed.
    pub(crate) fn of_bill(fault: BillFault) -> LateFault {
        match fault {
            BillFault::File(refused) => LateFault::of(refused.fault),
            BillFault::TooManyTaps | BillFault::Changed | BillFault::Write => LateFault::Changed,
            BillFault::Late(fault) => LateFault::of(fault),
            BillFault::NoMemory => LateFault::NoMemory,
        }
    }
}

/// Why the program fails. Its `Display` is the fault line without its line feed.
#[derive(Clone, Copy, Debug)]
pub(crate) enum Fault<'a> {
    /// A file or standard input was not loaded.
    File(FileFault<'a>),
    /// The fare tables were not loaded.
    Tables(TablesFault<'a>),
    /// The fare table of this file has a class whose name cannot be in a ledger. If it is the only
    /// table, the line does not name it.
    Class(&'a str, bool),
    /// The sorted file of this name was not opened.
    Unopened(&'a str, Unopened),
    /// The file of this name is not read as taps in canonical order, and each before it is.
    Unsorted(&'a str, SortedFault),
    /// Sorted files have more than 2^46 taps.
    TooManyTaps,
    /// A sorted file was refused after all were checked. A prefix of a text may be written.
    Late(LateFault),
    /// There are more uploads than a service takes.
    Uploads,
    /// A write failed.
    Write,
    /// An allocation failed.
    NoMemory,
}

impl<'a> Fault<'a> {
    /// Why a text was not printed.
    pub(crate) fn of_print(fault: PrintFault) -> Fault<'a>
        ensures { result ≡ printed_as fault }
    {
        match fault {
            PrintFault::Write => Fault::Write,
            PrintFault::NoMemory => Fault::NoMemory,
        }
    }

    /// Why the sorted files of these names are not charged.
    pub(crate) fn of_bill(names: &[&'a str], fault: BillFault) -> Fault<'a>
        ensures before { result ≢ Fault.Write → (IsLate result → ⊥) → IsBeforeText fault }
        ensures write { result ≡ Fault.Write → fault ≡ BillFault.Write }
        ensures right { (known : List (Option (List ℕ)))
            → ((all : List (List ℕ)) → known ≡ map Some all → IsBillFault all fault)
            → CanStop (AreWrongSorted (map (λ n. n.now) names.now) known) ⊤ result }
    {
        match fault {
            BillFault::File(refused) => match names.get(refused.index) {
                Some(name) => Fault::Unsorted(name, refused.fault),
                None => Fault::Late(LateFault::of(refused.fault)),
            },
            BillFault::TooManyTaps => Fault::TooManyTaps,
            BillFault::NoMemory => Fault::NoMemory,
            BillFault::Changed => Fault::Late(LateFault::Changed),
            BillFault::Late(fault) => Fault::Late(LateFault::of(fault)),
            BillFault::Write => Fault::Write,
        }
    }

    /// What stops the run, if the output remembers that `end` is why a write failed. No contract of
    /// what writes a text says that a write failed: if the output remembers none that did, an
    /// allocation failed.
    pub(crate) fn outside(&self, end: Option<WriteFault>) -> Outside
        ensures { result ≡ outside_of end self.now }
    {
        match self {
            Fault::File(file) => Outside::Unread(file.fault),
            Fault::Tables(fault) => fault.outside(),
            Fault::Unsorted(_, SortedFault::OutOfOrder { .. } | SortedFault::Layout { .. }) => {
                Outside::Wrong
            }
            Fault::Class(..) | Fault::TooManyTaps | Fault::Uploads => Outside::Wrong,
            Fault::Unopened(..) | Fault::Unsorted(_, SortedFault::Unread) | Fault::Late(_) => {
                Outside::Untraced
            }
            Fault::Write => outside_of_write(end),
            Fault::Unsorted(_, SortedFault::NoMemory) | Fault::NoMemory => Outside::NoMemory,
        }
    }

    /// What is reported of this fault, if the output remembers that `end` is why a write failed.
    pub(crate) fn as_remembered(self, end: Option<WriteFault>) -> Fault<'a> {
        match self {
            Fault::Write if end.is_none() => Fault::NoMemory,
            fault => fault,
        }
    }
}

fn outside_of_write(end: Option<WriteFault>) -> Outside
    ensures { result ≡ of_write end }
{
    match end {
        Some(why) => Outside::Unwritten(why),
        None => Outside::NoMemory,
    }
}

/// What the writing of a text comes to, of uploads that are whole or not.
pub(crate) fn ended<'a>(written: Result<(), PrintFault>, success: bool) -> Result<bool, Fault<'a>>
    ensures ended { result ≡ ended_as written success }
    ensures stop { IfErr result (CanStop ⊥ ⊥) }
{
    match written {
        Ok(()) => Ok(success),
        Err(fault) => Err(Fault::of_print(fault)),
    }
}

impl fmt::Display for Fault<'_> {
    fn fmt<W: fmt::Write>(&self, f: &mut fmt::Formatter<W>) -> fmt::Result {
        match self {
            Fault::File(fault) | Fault::Tables(TablesFault::File(fault)) => fault.fmt(f),
            Fault::Tables(TablesFault::Table(fault)) => TableLine(*fault).fmt(f),
            Fault::Tables(TablesFault::NamedTable(line)) => line.fmt(f),
            Fault::Tables(TablesFault::Follow(line)) => line.fmt(f),
            Fault::Class(_, true) => {
                f.write_str("fault: table has a class name that no ledger can have")
            }
            Fault::Class(file, false) => NamedClassLine(file).fmt(f),
            Fault::Unopened(name, Unopened::Unread) | Fault::Unsorted(name, SortedFault::Unread) =>
                { write!(f, "fault: cannot read {name}") }
            Fault::Unopened(name, Unopened::NotRegular) => {
                write!(f, "fault: {name} is no regular file")
            }
            Fault::Unopened(name, Unopened::TooManyOpen) => {
                write!(f, "fault: cannot open {name}: too many files are open")
            }
            Fault::Unsorted(name, SortedFault::OutOfOrder { tap }) => {
                write!(f, "fault: {name}: tap {tap} is out of order")
            }
            Fault::Unsorted(name, SortedFault::Layout { offset, fault }) => {
                let why = fault.name();
                write!(f, "fault: {name} at {offset} {why}")
            }
            Fault::TooManyTaps => f.write_str("fault: too many taps"),
            Fault::Late(LateFault::Changed) => {
                f.write_str("fault: a file changed while it was read")
            }
            Fault::Late(LateFault::Unread) => f.write_str("fault: a file cannot be read again"),
            Fault::Uploads => f.write_str("fault: too many uploads"),
            Fault::Write => f.write_str("fault: cannot write"),
            Fault::Tables(TablesFault::NoMemory)
            | Fault::Unopened(_, Unopened::NoMemory)
            | Fault::Unsorted(_, SortedFault::NoMemory)
            | Fault::Late(LateFault::NoMemory)
            | Fault::NoMemory => f.write_str("fault: out of memory"),
        }
    }
}
