//! What the calls of a shared book return.
use shard_book::{RunEnd, Statement};
use tap_views::NoMemory;
use thiserror::Error;

/// A visit that was made: its number, and how its run was posted.
#[derive(Clone, Copy, Debug)]
pub struct Visit {
    pub number: u64,
    /// Whether the run was posted whole.
    pub how: RunEnd,
}

/// What a read found: the number of its empty visit, and the statement over all visits before it.
#[derive(Drop)]
pub struct Readout {
    pub number: u64,
    pub statement: Statement,
}

/// The book has as many visits as are counted, `2^62`.
#[derive(Clone, Copy, Debug, Error)]
#[error("the book takes no more visits")]
pub struct Full;

/// Why a read has no statement.
#[derive(Clone, Copy, Debug, Error)]
pub enum ReadFault {
    /// The book takes no more visits.
    #[error("the book takes no more visits")]
    Full,
    #[error("out of memory")]
    NoMemory,
}

/// The pass made fewer visits than were taken: others were held back.
#[derive(Clone, Copy, Debug, Error)]
#[error("made {held} of {kept} visits")]
pub struct Missing {
    pub held: u64,
    /// How many were taken.
    pub kept: u64,
}

impl From<Full> for ReadFault {
    ghost use Rattle.std.specs.Prelude.{◌≡◌};
    ghost use Rattle.shared_books.specs.declared.turns.results.ReadFault.TheVariants.{Full as full};

    ghost from_gives = { λ _ fault. fault ≡ full };

    fn from(_: Full) -> ReadFault {
        ReadFault::Full
    }
}

impl From<NoMemory> for ReadFault {
    ghost use Rattle.std.specs.Prelude.{◌≡◌};
    ghost use Rattle.shared_books.specs.declared.turns.results.ReadFault.TheVariants.{NoMemory};

    ghost from_gives = { λ _ fault. fault ≡ NoMemory };

    fn from(_: NoMemory) -> ReadFault {
        ReadFault::NoMemory
    }
}
