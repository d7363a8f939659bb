//! Counts of work that is done by some threads while another reads them.

use file_sources::Amount;
use std::sync::atomic::{AtomicU64, Ordering};

/// How much work is done, and of how much.
#[derive(Drop)]
pub(crate) struct Meter {
    done: AtomicU64,
    all: AtomicU64,
}

#[derive(Clone, Copy, Debug, PartialEq, Eq)]
pub(crate) struct Reading {
    pub(crate) done: u64,
    /// How much there is: 0 if that is not known.
    pub(crate) all: u64,
}

impl Meter {
    pub(crate) fn new() -> Meter {
        Meter {
            done: AtomicU64::new(0),
            all: AtomicU64::new(0),
        }
    }

    /// Sets how much there is to do, of which nothing is done.
    pub(crate) fn begin(&self, all: u64) {
        self.done.store(0, Ordering::SeqCst);
        self.all.store(all, Ordering::SeqCst);
    }

    pub(crate) fn extend(&self, more: u64) {
        self.all.fetch_add(more, Ordering::SeqCst);
    }

    pub(crate) fn add(&self, more: u64) {
        self.done.fetch_add(more, Ordering::SeqCst);
    }

    pub(crate) fn read(&self) -> Reading {
        Reading {
            done: self.done.load(Ordering::SeqCst),
            all: self.all.load(Ordering::SeqCst),
        }
    }
}

impl Reading {
    pub(crate) fn goes_on(&self) -> bool {
        self.done < self.all
    }

    /// What is done of the same work, done a second time.
    pub(crate) fn again(&self) -> Reading {
        Reading {
            done: self.done.saturating_sub(self.all),
            all: self.all,
        }
    }
}

/// The meters of a run.
#[derive(Drop)]
pub(crate) struct Meters {
    /// Taps that are charged.
    pub(crate) taps: Meter,
    /// Bytes of uploads that are posted.
    pub(crate) posted: Meter,
    /// Bytes of sorted files that are read, some twice.
    pub(crate) sorted: Meter,
    /// Bytes that are written, of an unknown number.
    pub(crate) written: Meter,
}

#[derive(Clone, Copy, Debug, PartialEq, Eq)]
pub(crate) struct Readings {
    pub(crate) taps: Reading,
    pub(crate) posted: Reading,
    pub(crate) sorted: Reading,
    pub(crate) written: Reading,
}

impl Meters {
    pub(crate) fn of(&self, amount: Amount) -> (&Meter, u64) {
        match amount {
            Amount::Taps(taps) => (&self.taps, taps),
            Amount::Bytes(bytes) => (&self.posted, bytes),
        }
    }

    pub(crate) fn new() -> Meters {
        Meters {
            taps: Meter::new(),
            posted: Meter::new(),
            sorted: Meter::new(),
            written: Meter::new(),
        }
    }

    pub(crate) fn read(&self) -> Readings {
        Readings {
            taps: self.taps.read(),
            posted: self.posted.read(),
            sorted: self.sorted.read(),
            written: self.written.read(),
        }
    }
}
