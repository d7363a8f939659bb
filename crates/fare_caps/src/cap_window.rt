//! A window of a cap.

ghost use Rattle.fare_caps.specs.Caps.{no_window, opened_until};
ghost use Rattle.std.specs.Prelude.{◌≡◌, ◌≤◌, ◌<◌, IfSome};
ghost use Rattle.tariffs.specs.{Until.window_end_in, WindowSpan.IsBoundedSpan};
ghost use Rattle.fare_caps.specs.inside.Further as spec;

use crate::ride_cap::RideCap;
use tariffs::{Clock, WindowSpan};

/// A window of a cap. Any ride opens it, and the cap counts the taps of its modes.
#[derive(Clone, Copy, Debug, PartialEq, Eq)]
pub struct CapWindow {
    /// The moment of its first ride.
    pub start: u64,
    /// The moment from which on a ride opens the next window.
    pub until: u64,
    /// What the taps that the cap counts have cost, in cents.
    pub cents: u32,
}

impl CapWindow {
    #[tactic(auto, unfolding(crate::specs::Caps::no_window))]
    pub(crate) fn none() -> Self
        ensures { result ≡ no_window }
    {
        CapWindow {
            start: 0,
            until: 0,
            cents: 0,
        }
    }

    #[tactic(auto, unfolding(crate::specs::Caps::opened_until))]
    pub(crate) fn opened(self, span: WindowSpan, clock: &Clock, moment: u64) -> Self
        requires span { IsBoundedSpan span }
        requires moment { moment < 4_102_444_800_000 }
        ensures { result ≡ opened_until moment (window_end_in clock.now span moment) self }
    {
        if moment < self.until {
            return self;
        }
        CapWindow {
            start: moment,
            until: clock.window_end(span, moment),
            cents: 0,
        }
    }

    pub(crate) fn opened_by(self, cap: Option<RideCap>, clock: &Clock, moment: u64) -> Self
        requires bounds { IfSome cap spec.IsBoundedCap }
        requires moment { moment < 4_102_444_800_000 }
        ensures { result ≡ spec.opened_by clock.now moment cap self }
    {
        match cap {
            Some(cap) => self.opened(cap.span, clock, moment),
            None => self,
        }
    }

    pub(crate) fn left_by(self, cap: Option<RideCap>) -> Option<u32>
        ensures { result ≡ spec.left_by cap self }
    {
        let cap = cap?;
        if cap.counts {
            Some(cap.ceiling.saturating_sub(self.cents))
        } else {
            None
        }
    }

    pub(crate) fn counted_by(mut self, cap: Option<RideCap>, cents: u32) -> Self
        requires room { self.cents ≤ 100_000_000 }
        requires few { cents ≤ 100_000 }
        ensures { result ≡ spec.counted_by cents cap self }
    {
        if let Some(cap) = cap {
            if cap.counts {
                self.cents += cents;
            }
        }
        self
    }
}
