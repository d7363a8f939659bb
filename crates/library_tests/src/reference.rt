//! The reference account: it stores all taps of a token, and applies the rule to the whole list at
//! each. Its modes, transfers and terms are its own, and its windows end after seven days.

use account_rule::{Answer, Reply, WindowView};
use std::alloc::{AllocError, Global};

const TWO_HOURS: u64 = 7_200_000;

const WEEK: u64 = 604_800_000;

/// A tap at a known validator.
#[derive(Clone, Copy)]
struct Known {
    moment: u64,
    on_bus: bool,
}

/// All known taps of a token, in the order in which they were posted.
#[derive(Drop)]
pub(crate) struct ReferenceAccount {
    alloc: Global,
    known: Vec<Known>,
}

impl ReferenceAccount {
    pub(crate) fn new(alloc: Global) -> Self {
        ReferenceAccount {
            alloc,
            known: Vec::new(alloc),
        }
    }

    /// Takes one more tap, and returns the reply to it.
    pub(crate) fn step(&mut self, validator: u32, moment: u64) -> Result<Reply, AllocError> {
        if !(1000..3000).contains(&validator) {
            return Ok(free(Answer::Unknown));
        }
        let is_live = self.known.iter().all(|tap| tap.moment < moment);
        self.known.push(Known {
            moment,
            on_bus: validator >= 2000,
        })?;
        if !is_live {
            return Ok(free(Answer::Stale));
        }
        let rides = self.rides()?;
        if rides.last() != Some(&moment) {
            return Ok(free(Answer::Transfer));
        }
        let cents = charge(last_window(&rides).1);
        let answer = if cents > 0 {
            Answer::Paid
        } else {
            Answer::Capped
        };
        Ok(Reply { answer, cents })
    }

    pub(crate) fn window(&self) -> Result<Option<WindowView>, AllocError> {
        let rides = self.rides()?;
        if rides.is_empty() {
            return Ok(None);
        }
        let (start, position) = last_window(&rides);
        let (mut paid, mut cents) = (0u32, 0u32);
        for ride in 0..=position {
            paid = paid.saturating_add(u32::from(charge(ride) > 0));
            cents = cents.saturating_add(charge(ride));
        }
        Ok(Some(WindowView {
            start,
            until: start.saturating_add(WEEK),
            paid,
            cents,
        }))
    }

    /// The known taps that are later than all known taps before them.
    fn live(&self) -> Result<Vec<Known>, AllocError> {
        let mut live = Vec::new(self.alloc);
        let mut greatest = None;
        for tap in &self.known {
            if greatest.is_none_or(|moment| moment < tap.moment) {
                greatest = Some(tap.moment);
                live.push(*tap)?;
            }
        }
        Ok(live)
    }

    /// In each row of linked live taps every second one, from the first on.
    fn rides(&self) -> Result<Vec<u64>, AllocError> {
        let mut rides = Vec::new(self.alloc);
        let mut before: Option<Known> = None;
        let mut is_ride = false;
        for tap in &self.live()? {
            is_ride = !is_ride || !before.is_some_and(|earlier| is_linked(earlier, *tap));
            if is_ride {
                rides.push(tap.moment)?;
            }
            before = Some(*tap);
        }
        Ok(rides)
    }
}

/// A reply that costs nothing.
fn free(answer: Answer) -> Reply {
    Reply { answer, cents: 0 }
}

/// Within two hours, the limit included, and one of them at least on a bus.
fn is_linked(earlier: Known, tap: Known) -> bool {
    tap.moment.saturating_sub(earlier.moment) <= TWO_HOURS && (earlier.on_bus || tap.on_bus)
}

/// Where the last window starts, and the index in it of the last ride.
fn last_window(rides: &[u64]) -> (u64, u32) {
    let mut window: Option<(u64, u32)> = None;
    for ride in rides {
        window = match window {
            Some((start, position)) if *ride < start.saturating_add(WEEK) => {
                Some((start, position.saturating_add(1)))
            }
            _ => Some((*ride, 0)),
        };
    }
    window.unwrap_or((0, 0))
}

/// What the ride at an index of its window costs, in cents: 300 each, 12 of them, 3,500 together.
fn charge(position: u32) -> u32 {
    if position < 12 {
        3_500u32
            .saturating_sub(position.saturating_mul(300))
            .min(300)
    } else {
        0
    }
}
