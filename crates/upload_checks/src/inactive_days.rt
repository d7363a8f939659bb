//! Days on which validators of a fare table are inactive: they have no tap.

use std::alloc::{AllocError, Global};
use std::collections::BTreeSet;
use tap_views::{MomentSpan, NoMemory, TapFields};
use tariffs::Tariff;

const DAY_MS: u64 = 86_400_000;

/// Validators of consecutive numbers, all in ranges of a fare table, that have no tap on a day.
#[derive(Clone, Copy, Debug, PartialEq, Eq)]
pub struct InactiveRun {
    /// The day of UTC, by its number since 1970-01-01.
    pub day: u64,
    pub first: u32,
    pub last: u32,
}

/// Which validators have no tap on which days.
#[derive(Drop)]
pub struct InactiveDays {
    /// By day, then by validator. On each day the runs are as few as can be.
    pub runs: Vec<InactiveRun>,
    pub number: u64,
}

#[derive(Drop)]
struct TappedDays {
    days: BTreeSet<u64>,
    visits: BTreeSet<(u64, u32)>,
}

impl InactiveDays {
    /// The run lies after all others. If it touches the last, they become one.
    fn push(&mut self, run: InactiveRun) -> Result<(), AllocError> {
        let validators = u64::from(run.last.saturating_sub(run.first)).saturating_add(1);
        self.number = self.number.saturating_add(validators);
        if let Some(last) = self.runs.last_mut() {
            if last.day == run.day && last.last.checked_add(1) == Some(run.first) {
                last.last = run.last;
                return Ok(());
            }
        }
        self.runs.push(run)?;
        Ok(())
    }

    /// Adds those of the validators, from the first to the last, that have no tap on the day.
    fn add(
        &mut self,
        tapped: &TappedDays,
        day: u64,
        first: u32,
        last: u32,
    ) -> Result<(), AllocError> {
        if last < first {
            return Ok(());
        }
        let mut next = Some(first);
        for (_day, validator) in tapped.visits.range((day, first)..=(day, last)) {
            if let Some(first) = next {
                if first < *validator {
                    let last = *validator - 1;
                    self.push(InactiveRun { day, first, last })?;
                }
            }
            next = validator.checked_add(1);
        }
        match next {
            Some(first) if first <= last => self.push(InactiveRun { day, first, last }),
            _ => Ok(()),
        }
    }
}

/// The validators of the table that have no tap on a day, of the days of UTC with a tap of the span
/// at one of them, and if `every_day` is set of all days of the span. It takes memory for each such
/// tap and each run, and time for each range of the table on each day.
pub fn find_inactive_days(
    alloc: Global,
    table: &Tariff,
    span: MomentSpan,
    every_day: bool,
    taps: &[TapFields],
) -> Result<InactiveDays, NoMemory> {
    let mut tapped = TappedDays {
        days: BTreeSet::new(alloc),
        visits: BTreeSet::new(alloc),
    };
    for tap in taps {
        let is_within = span.first <= tap.moment && tap.moment <= span.last;
        if is_within && table.mode_of(tap.validator).is_some() {
            let day = tap.moment / DAY_MS;
            tapped.days.insert(day)?;
            tapped.visits.insert((day, tap.validator))?;
        }
    }
    if every_day {
        for day in span.first / DAY_MS..span.last / DAY_MS + 1 {
            tapped.days.insert(day)?;
        }
    }
    let mut found = InactiveDays {
        runs: Vec::new(alloc),
        number: 0,
    };
    for day in tapped.days.iter() {
        for (first, rest) in table.ranges() {
            found.add(&tapped, *day, *first, rest.last)?;
        }
    }
    Ok(found)
}
