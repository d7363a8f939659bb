//! Why a case stops early.

use fare_service::{GatherFault, OpenFault, RunFault};
use fare_table::TableFault;
use settled_bills::BillFault;
use sorted_taps::{FileFault, MergeFault, SortedFault, WriteFault};
use std::alloc::{AllocError, AllocFailed};
use tap_views::{EncodeFault, LayoutFault, NoMemory};

/// Why a case stops early.
#[derive(Clone, Copy, Debug, PartialEq, Eq)]
pub(crate) enum Stop {
    /// An allocation failed, and all promises held.
    Refused,
    /// A run was gathered, and it reports an upload that was cut or left undrawn.
    Less,
    /// What was found in place of what is promised.
    Wrong(&'static str),
}

/// What became of a case: `Ok` if all was answered.
pub(crate) type Case = Result<(), Stop>;

/// Stops with `what` if the promise does not hold.
pub(crate) fn promise(holds: bool, what: &'static str) -> Case {
    if holds {
        Ok(())
    } else {
        Err(Stop::Wrong(what))
    }
}

/// How a case ends that went on after a refusal.
pub(crate) fn ended(refused: bool) -> Case {
    if refused { Err(Stop::Refused) } else { Ok(()) }
}

/// One allocation of a run is refused, so the second call must be answered.
pub(crate) fn again(second: Case) -> Case {
    match second {
        Ok(()) => Err(Stop::Refused),
        Err(Stop::Refused | Stop::Less) => Err(Stop::Wrong("gives up again")),
        wrong => wrong,
    }
}

/// Asks, and again if an allocation failed. A closure with a `&'static str` is not borrow-checked.
macro_rules! twice {
    ($ask:expr) => {
        match $ask {
            Err($crate::stop::Stop::Refused) => $crate::stop::again($ask),
            first => first,
        }
    };
}

pub(crate) use twice;

impl From<NoMemory> for Stop {
    fn from(_: NoMemory) -> Self {
        Stop::Refused
    }
}

impl From<AllocError> for Stop {
    fn from(_: AllocError) -> Self {
        Stop::Refused
    }
}

impl<T: Drop> From<AllocFailed<T>> for Stop {
    fn from(_: AllocFailed<T>) -> Self {
        Stop::Refused
    }
}

impl From<LayoutFault> for Stop {
    fn from(_: LayoutFault) -> Self {
        Stop::Wrong("refuses a whole batch")
    }
}

impl From<EncodeFault> for Stop {
    fn from(fault: EncodeFault) -> Self {
        match fault {
            EncodeFault::NoMemory => Stop::Refused,
            _ => Stop::Wrong("refuses taps that can be encoded"),
        }
    }
}

impl From<TableFault> for Stop {
    fn from(fault: TableFault) -> Self {
        match fault {
            TableFault::NoMemory => Stop::Refused,
            _ => Stop::Wrong("refuses a right table"),
        }
    }
}

impl From<OpenFault> for Stop {
    fn from(fault: OpenFault) -> Self {
        match fault {
            OpenFault::NoMemory => Stop::Refused,
            _ => Stop::Wrong("does not open"),
        }
    }
}

impl From<GatherFault> for Stop {
    fn from(fault: GatherFault) -> Self {
        match fault {
            GatherFault::NoMemory => Stop::Refused,
            _ => Stop::Wrong("shares are said to be missing"),
        }
    }
}

impl From<RunFault> for Stop {
    fn from(fault: RunFault) -> Self {
        match fault {
            RunFault::NoMemory | RunFault::Gather(GatherFault::NoMemory) => Stop::Refused,
            _ => Stop::Wrong("a run is refused for another cause than memory"),
        }
    }
}

impl From<SortedFault> for Stop {
    fn from(fault: SortedFault) -> Self {
        match fault {
            SortedFault::NoMemory => Stop::Refused,
            _ => Stop::Wrong("refuses a sorted file"),
        }
    }
}

impl From<WriteFault> for Stop {
    fn from(fault: WriteFault) -> Self {
        match fault {
            WriteFault::NoMemory => Stop::Refused,
            WriteFault::Write => Stop::Wrong("a writer that takes all is said to fail"),
        }
    }
}

impl From<MergeFault> for Stop {
    fn from(fault: MergeFault) -> Self {
        match fault {
            MergeFault::NoMemory => Stop::Refused,
            MergeFault::File(FileFault { fault, .. }) => Stop::from(fault),
            _ => Stop::Wrong("does not merge"),
        }
    }
}

impl From<BillFault> for Stop {
    fn from(fault: BillFault) -> Self {
        match fault {
            BillFault::NoMemory => Stop::Refused,
            BillFault::File(FileFault { fault, .. }) | BillFault::Late(fault) => Stop::from(fault),
            _ => Stop::Wrong("does not charge sorted files"),
        }
    }
}
