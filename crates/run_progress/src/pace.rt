//! How long work that is seen again and again takes still.

use crate::meter::Reading;
use std::fmt;
use std::fmt::{Display, Formatter, Write};

/// For how many milliseconds work is watched before its rest is estimated.
const WATCHED_MS: u64 = 1_000;

/// What a meter read at a moment.
#[derive(Clone, Copy, Debug)]
struct First {
    /// In milliseconds since the run began.
    at_ms: u64,
    reading: Reading,
}

/// How fast work is done, on average since it was seen first.
#[derive(Clone, Copy, Debug)]
pub(crate) struct Pace {
    first: Option<First>,
}

/// For how many seconds more work goes on, if that can be estimated.
#[derive(Clone, Copy, Debug, PartialEq, Eq)]
pub(crate) struct Left(Option<u64>);

impl Pace {
    pub(crate) fn new() -> Pace {
        Pace { first: None }
    }

    /// Sees the work, or none, `at_ms` milliseconds after the run began.
    pub(crate) fn see(&mut self, at_ms: u64, reading: Option<Reading>) -> Left {
        let Some(reading) = reading else {
            self.first = None;
            return Left(None);
        };
        let seen = self.first;
        if let Some(first) = seen
            && is_later(first.reading, reading)
        {
            let passed = at_ms.saturating_sub(first.at_ms);
            return Left(seconds_left(passed, first.reading.done, reading));
        }
        self.first = Some(First { at_ms, reading });
        Left(None)
    }
}

fn is_later(first: Reading, reading: Reading) -> bool {
    first.all == reading.all && first.done <= reading.done
}

/// In how many seconds at most the rest is done, at the pace of the last `passed_ms` milliseconds.
fn seconds_left(passed_ms: u64, before: u64, reading: Reading) -> Option<u64> {
    let more = reading.done.saturating_sub(before);
    if more == 0 || passed_ms < WATCHED_MS || !reading.goes_on() {
        return None;
    }
    let rest = u128::from(reading.all.saturating_sub(reading.done));
    let left_ms = u128::from(passed_ms) * rest / u128::from(more);
    u64::try_from(left_ms.div_ceil(1_000)).ok()
}

impl Display for Left {
    fn fmt<W: Write>(&self, f: &mut Formatter<W>) -> fmt::Result {
        match self.0 {
            Some(seconds) => write!(f, ", {seconds} s left"),
            None => Ok(()),
        }
    }
}
