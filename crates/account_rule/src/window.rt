//! A window of rides, and what its next ride costs.

ghost use Rattle.account_rule.specs.{Kept.IsRoomy, Laws.position_cents};
ghost use Rattle.account_rule.specs.Windows.{charge, charged_by, is_paid, paid_by};
ghost use Rattle.account_rule.specs.inside.Kept.{next_reason, open_window, shown_of, with_ride};
ghost use Rattle.std.specs.Prelude.{◌≡◌, ℕ, ◌+◌, ◌<◌, ◌≤◌, IfSome, is_some, min, unwrap_or};
ghost use Rattle.tariffs.specs.{Terms.AreBoundedTerms, Until.window_end_in};

use crate::reason::{Charge, Reason};
use tariffs::{Clock, Tariff, Terms};

/// The highest ride limit of a table's classes. A window counts its rides up to it.
const MAX_RIDES: u16 = 60_000;

/// A window: its rides, and what they cost together.
#[derive(Clone, Copy, Debug, PartialEq, Eq)]
pub struct WindowView {
    /// The moment of its first ride.
    pub start: u64,
    /// The moment from which on a ride opens the next window.
    pub until: u64,
    /// How many of its rides were paid.
    pub paid: u32,
    /// What they cost together, in cents.
    pub cents: u32,
}

/// What an account stores of its last window.
#[derive(Clone, Copy, Debug, PartialEq, Eq)]
pub(crate) struct Window {
    pub(crate) start: u64,
    pub(crate) until: u64,
    pub(crate) cents: u32,
    /// Counted up to `MAX_RIDES` and no further.
    pub(crate) rides: u16,
    pub(crate) paid: u16,
}

impl Window {
    #[tactic(auto, unfolding(crate::specs::inside::Kept::open_window))]
    pub(crate) fn open(start: u64, until: u64) -> Self
        ensures { result ≡ open_window start until }
    {
        Window {
            start,
            until,
            cents: 0,
            rides: 0,
            paid: 0,
        }
    }

    /// Kept out of its callers: a token opens few windows.
    #[cold]
    #[inline(never)]
    pub(crate) fn opened(tariff: &Tariff, clock: &Clock, start: u64) -> Self
        requires { start < 4_102_444_800_000 }
        ensures { result
            ≡ open_window start (window_end_in clock.now tariff.now.meaning.window start) }
    {
        Window::open(start, clock.window_end(tariff.window_span(), start))
    }

    #[tactic(auto, unfolding(crate::specs::inside::Kept::shown_of))]
    pub(crate) fn shown(self) -> WindowView
        ensures { result ≡ shown_of self }
    {
        WindowView {
            start: self.start,
            until: self.until,
            paid: u32::from(self.paid),
            cents: self.cents,
        }
    }

    #[tactic(auto, unfolding(crate::specs::inside::Kept::with_ride, crate::specs::Windows::is_paid))]
    pub(crate) fn add_ride(&mut self, terms: Terms) -> Option<u32>
        requires bounds { AreBoundedTerms terms }
        requires room { IsRoomy self.old }
        ensures cost { result ≡ paid_by (charge terms self.old.rides self.old.cents) }
        ensures counts { self.new ≡ with_ride terms self.old }
    {
        if u32::from(self.rides) >= terms.rides {
            self.count_free_ride();
            return None;
        }
        self.rides += 1;
        let cents = paid_below(terms, self.cents)?;
        self.cents += cents;
        self.paid += 1;
        Some(cents)
    }

    fn count_free_ride(&mut self)
        requires room { self.old.rides ≤ 60_000 }
        ensures { self.new ≡ record self.old { rides = min (self.old.rides + 1) 60_000 } }
    {
        if self.rides < MAX_RIDES {
            self.rides += 1;
        }
    }

    #[tactic(auto, unfolding(crate::specs::inside::Kept::next_reason))]
    pub(crate) fn next_reason(self, terms: Terms) -> Reason
        requires bounds { AreBoundedTerms terms }
        requires room { IsRoomy self }
        ensures { result ≡ next_reason terms self }
    {
        Reason::Ride {
            start: self.start,
            until: self.until,
            charge: charge(terms, u32::from(self.rides), self.cents),
        }
    }
}

/// The cents of a ride after `position` rides of its window, all of which have these terms.
#[tactic(auto, unfolding(crate::specs::Windows::charge, crate::specs::Laws::position_cents))]
pub fn cents_at(terms: Terms, position: u32) -> u32
    requires bounds { AreBoundedTerms terms }
    requires position { position ≤ 60_000 }
    ensures { result ≡ position_cents terms position }
{
    let before = u64::from(position) * u64::from(terms.fare);
    if before >= u64::from(terms.ceiling) {
        return 0;
    }
    charge(terms, position, before as u32).cents()
}

#[tactic(auto, unfolding(crate::specs::Windows::charge))]
fn charge(terms: Terms, rides: u32, cents: u32) -> Charge
    requires bounds { AreBoundedTerms terms }
    requires low { cents ≤ 100_000_000 }
    ensures { result ≡ charge terms rides cents }
{
    if rides >= terms.rides {
        Charge::RideLimitReached
    } else if cents >= terms.ceiling {
        Charge::CeilingReached { position: rides }
    } else if cents + terms.fare <= terms.ceiling {
        Charge::Full {
            position: rides,
            cents: terms.fare,
        }
    } else {
        Charge::CeilingCut {
            position: rides,
            cents: terms.ceiling - cents,
        }
    }
}

/// The numbers alone, since it runs at each ride.
#[tactic(auto, unfolding(crate::specs::Windows::charge, crate::specs::Windows::is_paid))]
fn paid_below(terms: Terms, cents: u32) -> Option<u32>
    requires bounds { AreBoundedTerms terms }
    requires low { cents ≤ 100_000_000 }
    ensures cost { (rides : ℕ) → rides < terms.rides
        → result ≡ paid_by (charge terms rides cents) }
    ensures cents { (rides : ℕ) → rides < terms.rides
        → unwrap_or result 0 ≡ charged_by (charge terms rides cents) }
    ensures some { (rides : ℕ) → rides < terms.rides
        → is_some result ≡ is_paid (charge terms rides cents) }
    ensures below { IfSome result (λ paid. cents + paid ≤ terms.ceiling) }
{
    if terms.ceiling <= cents {
        None
    } else if terms.ceiling >= cents + terms.fare {
        Some(terms.fare)
    } else {
        Some(terms.ceiling - cents)
    }
}
