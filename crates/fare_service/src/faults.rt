//! What may keep a service from opening, running or gathering.

use crate::lending::Unavailable;
use std::alloc::AllocError;
use tap_views::NoMemory;

/// Why a service was not opened. What was handed in is dropped.
#[derive(Clone, Copy, Debug, PartialEq, Eq, thiserror::Error)]
pub enum OpenFault {
    /// The number of shards is not 1 to 64.
    #[error("a service has 1 to 64 shards")]
    Shards,
    /// There are more than 65,535 uploads.
    #[error("too many uploads")]
    Uploads,
    /// An allocation failed, or the system gave no seed.
    #[error("out of memory")]
    NoMemory,
}

/// Why shares were not gathered. Service and shares are dropped.
#[derive(Clone, Copy, Debug, PartialEq, Eq, thiserror::Error)]
pub enum GatherFault {
    /// An allocation failed. All memory is taken first.
    #[error("out of memory")]
    NoMemory,
    /// The shares hold fewer visits of a shard than were made. The first such shard is named.
    #[error("the shares hold {held} of {kept} visits to shard {shard}")]
    Missing { shard: u32, held: u64, kept: u64 },
    /// The shares hold fewer uploads than were drawn.
    #[error("the shares hold {held} of {drawn} drawn uploads")]
    Drawn { held: u32, drawn: u32 },
}

/// Why a service was not run to its end.
#[derive(Clone, Copy, Debug, PartialEq, Eq, thiserror::Error)]
pub enum RunFault {
    /// The number of workers is not 1 to 16.
    #[error("a service has 1 to 16 workers")]
    Workers,
    /// An allocation or a thread failed. Workers that were started have ended.
    #[error("out of memory")]
    NoMemory,
    /// The shares were not gathered.
    #[error("{0}")]
    Gather(GatherFault),
    /// An upload was not lent. The other workers' shares were dropped too.
    #[error("{0}")]
    Unavailable(Unavailable),
}

impl From<NoMemory> for OpenFault {
    ghost use Rattle.std.specs.Prelude.{◌≡◌};
    ghost use Rattle.fare_service.specs.declared.faults.OpenFault.TheVariants as faults;

    ghost from_gives = { λ _ e. e ≡ faults.NoMemory };

    fn from(_: NoMemory) -> Self {
        OpenFault::NoMemory
    }
}

impl From<NoMemory> for GatherFault {
    ghost use Rattle.std.specs.Prelude.{◌≡◌};
    ghost use Rattle.fare_service.specs.declared.faults.GatherFault.TheVariants as faults;

    ghost from_gives = { λ _ e. e ≡ faults.NoMemory };

    fn from(_: NoMemory) -> Self {
        GatherFault::NoMemory
    }
}

impl From<NoMemory> for RunFault {
    ghost use Rattle.std.specs.Prelude.{◌≡◌};
    ghost use Rattle.fare_service.specs.declared.faults.RunFault.TheVariants as faults;

    ghost from_gives = { λ _ e. e ≡ faults.NoMemory };

    fn from(_: NoMemory) -> Self {
        RunFault::NoMemory
    }
}

impl From<GatherFault> for RunFault {
    ghost use Rattle.std.specs.Prelude.{◌≡◌};
    ghost use Rattle.fare_service.specs.declared.faults.RunFault.TheVariants.{Gather as ForGather};

    ghost from_gives = { λ fault e. e ≡ ForGather fault };

    fn from(fault: GatherFault) -> Self {
        RunFault::Gather(fault)
    }
}

impl From<AllocError> for GatherFault {
    ghost use Rattle.std.specs.Prelude.{◌≡◌};
    ghost use Rattle.fare_service.specs.declared.faults.GatherFault.TheVariants as faults;

    ghost from_gives = { λ _ e. e ≡ faults.NoMemory };

    fn from(_: AllocError) -> Self {
        GatherFault::NoMemory
    }
}

impl From<AllocError> for RunFault {
    ghost use Rattle.std.specs.Prelude.{◌≡◌};
    ghost use Rattle.fare_service.specs.declared.faults.RunFault.TheVariants as faults;

    ghost from_gives = { λ _ e. e ≡ faults.NoMemory };

    fn from(_: AllocError) -> Self {
        RunFault::NoMemory
    }
}
