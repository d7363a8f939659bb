//! What an account stores beside the numbers of `account_rule` if its table has caps or prices.

ghost use Rattle.fare_caps.specs.{Charges.cap_cents, Charges.cap_paid, Prices.wanted};
ghost use Rattle.fare_caps.specs.Represents.{HasRoom, no_further};
ghost use Rattle.std.specs.Prelude.{◌≡◌, ◌<◌, ◌≤◌, ◌-◌, IfSome, is_some, length};
ghost use Rattle.tariffs.specs.Fares.{price_of, ride_terms};
ghost use Rattle.tariffs.specs.{Prices.IsBoundedPays, Terms.AreBoundedTerms, Until.window_end_in};
ghost use Rattle.tariffs.specs.WindowSpan.{IsBoundedSpan};
ghost use Rattle.account_rule.specs.Windows as rule;
ghost use Rattle.fare_caps.specs.inside.Further as spec;

use crate::cap_charge::{CapCharge, CapLeft, is_freed, lesser, lowered};
use crate::cap_window::CapWindow;
use crate::capped_reason::CappedReason;
use crate::ride_cap::RideCap;
use account_rule::Charge;
use tariffs::{CapTerms, Clock, Mode, Pays, Tariff, Terms, WindowSpan};

/// The highest ride limit of a table's classes. Rides are counted up to it.
const MAX_RIDES: u16 = 60_000;

/// What an account stores if its table has caps or prices: the numbers of the last window of
/// `window`, the last windows of the caps, and the price of the last trip.
#[derive(Clone, Copy, Debug, PartialEq, Eq)]
pub struct Further {
    pub(crate) window: CapWindow,
    pub(crate) first: CapWindow,
    pub(crate) second: CapWindow,
    pub(crate) third: CapWindow,
    /// Counted up to `MAX_RIDES` and no further.
    pub(crate) rides: u16,
    pub(crate) paid: u16,
    /// The fare of the last ride.
    pub(crate) fare: u32,
    /// What the last ride and its transfers so far cost before limits.
    pub(crate) price: u32,
    /// The mode of the last live tap.
    pub(crate) mode: Mode,
    /// Whether the limit of rides freed the last ride, and so frees its transfers.
    pub(crate) freed: bool,
}

/// What the caps say of one ride or transfer.
#[derive(Clone, Copy)]
struct RideCaps {
    first: Option<RideCap>,
    second: Option<RideCap>,
    third: Option<RideCap>,
}

impl RideCaps {
    fn said(caps: &[CapTerms], tariff: &Tariff, class: u32, mode: Mode) -> RideCaps
        requires { class < length tariff.now.meaning.classes }
        ensures said { result ≡ spec.said_by caps.now tariff.now.meaning mode.position class }
        ensures bounds { spec.AreBoundedCaps result }
    {
        RideCaps {
            first: RideCap::said(caps, 0, tariff, class, mode),
            second: RideCap::said(caps, 1, tariff, class, mode),
            third: RideCap::said(caps, 2, tariff, class, mode),
        }
    }
}

impl Further {
    /// What is stored before the first ride.
    pub fn none() -> Self
        ensures { result ≡ no_further }
    {
        Further {
            window: CapWindow::none(),
            first: CapWindow::none(),
            second: CapWindow::none(),
            third: CapWindow::none(),
            rides: 0,
            paid: 0,
            fare: 0,
            price: 0,
            mode: Mode { position: 0 },
            freed: false,
        }
    }

    /// Charges a ride of the class on the mode, by the first table's caps and what is valid.
    pub(crate) fn charge_ride(
        &mut self,
        tariff: &Tariff,
        caps: &[CapTerms],
        clock: &Clock,
        class: u32,
        mode: Mode,
        moment: u64,
    ) -> CapCharge
        requires class { class < length tariff.now.meaning.classes }
        requires mode { mode.position < length tariff.now.meaning.modes }
        requires early { moment < 4_102_444_800_000 }
        requires room { HasRoom self.old }
        ensures bounds { AreBoundedTerms (ride_terms tariff.now.meaning class mode.position) }
        ensures charge { result
            ≡ spec.charge_of (ride_terms tariff.now.meaning class mode.position)
            (spec.said_by caps.now tariff.now.meaning mode.position class)
            (spec.opened_all clock.now moment
            (window_end_in clock.now tariff.now.meaning.window moment)
            (spec.said_by caps.now tariff.now.meaning mode.position class) self.old) }
        ensures state { self.new ≡ spec.with_new_trip
            (ride_terms tariff.now.meaning class mode.position).fare mode
            (spec.counted_all result
            (spec.said_by caps.now tariff.now.meaning mode.position class)
            (spec.opened_all clock.now moment
            (window_end_in clock.now tariff.now.meaning.window moment)
            (spec.said_by caps.now tariff.now.meaning mode.position class) self.old)) }
        ensures few { cap_cents result ≤ 100_000 }
        ensures room { HasRoom self.new }
    {
        let said = RideCaps::said(caps, tariff, class, mode);
        let terms = tariff.ride_terms(class, mode);
        self.open(said, tariff.window_span(), clock, moment);
        let charge = self.charge(said, terms);
        self.count(said, charge);
        self.fare = terms.fare;
        self.price = terms.fare;
        self.mode = mode;
        charge
    }

    /// Charges a transfer of the class on the mode what it raises the price of its trip by, if it
    /// is not free.
    pub(crate) fn charge_transfer(
        &mut self,
        tariff: &Tariff,
        caps: &[CapTerms],
        class: u32,
        mode: Mode,
    ) -> Option<CapCharge>
        requires class { class < length tariff.now.meaning.classes }
        requires mode { mode.position < length tariff.now.meaning.modes }
        requires room { HasRoom self.old }
        ensures bounds { AreBoundedTerms (ride_terms tariff.now.meaning class mode.position) }
        ensures charge { let pays = price_of tariff.now.meaning self.old.mode.position mode.position in
            let terms = ride_terms tariff.now.meaning class mode.position in
            result ≡ spec.extra_of terms
            (spec.said_by caps.now tariff.now.meaning mode.position class)
            (spec.raised pays terms.fare self.old - self.old.price)
            (spec.transferred pays terms.fare mode self.old) }
        ensures state { let pays = price_of tariff.now.meaning self.old.mode.position mode.position in
            let terms = ride_terms tariff.now.meaning class mode.position in
            self.new ≡ spec.with_some_cents result
            (spec.said_by caps.now tariff.now.meaning mode.position class)
            (spec.transferred pays terms.fare mode self.old) }
        ensures few { IfSome result (λ charge. cap_cents charge ≤ 100_000) }
        ensures room { HasRoom self.new }
    {
        let terms = tariff.ride_terms(class, mode);
        let extra = self.transfer(tariff.price_of(self.mode, mode), terms.fare, mode);
        let said = RideCaps::said(caps, tariff, class, mode);
        let charge = self.charge_extra(said, terms, extra)?;
        self.count_cents(said, charge.cents());
        Some(charge)
    }

    #[tactic(auto, unfolding(crate::specs::inside::Further::extra_of))]
    fn charge_extra(&self, caps: RideCaps, terms: Terms, extra: u32) -> Option<CapCharge>
        requires bounds { AreBoundedTerms terms }
        requires extra { extra ≤ 100_000 }
        requires room { self.now.window.cents ≤ 100_000_000 }
        ensures { result ≡ spec.extra_of terms caps extra self.now }
    {
        if extra == 0 || self.freed {
            return None;
        }
        let terms = Terms {
            fare: extra,
            rides: 1,
            ceiling: terms.ceiling,
        };
        Some(lowered(self.least(caps), charge(terms, 0, self.window.cents)))
    }

    /// The reason of a transfer that the ride at the moment gives, after its charge.
    pub(crate) fn transfer_reason(
        &self,
        moment: u64,
        mode: Mode,
        charge: Option<CapCharge>,
    ) -> CappedReason
        ensures { result ≡ spec.transfer_reason self.now moment mode charge }
    {
        match charge {
            Some(charge) => CappedReason::PaidTransfer {
                start: self.window.start,
                until: self.window.until,
                moment,
                mode,
                charge,
            },
            None => CappedReason::Transfer { moment, mode },
        }
    }

    /// Takes a transfer that pays this into the trip, and returns what it raises its price by.
    fn transfer(&mut self, pays: Option<Pays>, own: u32, mode: Mode) -> u32
        requires room { HasRoom self.old }
        requires own { own ≤ 100_000 }
        requires pays { IfSome pays IsBoundedPays }
        ensures extra { result ≡ spec.raised pays own self.old - self.old.price }
        ensures few { result ≤ 100_000 }
        ensures state { self.new ≡ spec.transferred pays own mode self.old }
        ensures room { HasRoom self.new }
    {
        let before = self.price;
        let wanted = wanted(self.fare, own, pays);
        if before < wanted {
            self.price = wanted;
        }
        self.mode = mode;
        self.price - before
    }

    #[tactic(auto, unfolding(crate::specs::inside::Further::opened_all))]
    fn open(&mut self, caps: RideCaps, span: WindowSpan, clock: &Clock, moment: u64)
        requires span { IsBoundedSpan span }
        requires bounds { spec.AreBoundedCaps caps }
        requires early { moment < 4_102_444_800_000 }
        ensures { self.new ≡ spec.opened_all clock.now moment
            (window_end_in clock.now span moment) caps self.old }
    {
        if moment >= self.window.until {
            self.rides = 0;
            self.paid = 0;
        }
        self.window = self.window.opened(span, clock, moment);
        self.first = self.first.opened_by(caps.first, clock, moment);
        self.second = self.second.opened_by(caps.second, clock, moment);
        self.third = self.third.opened_by(caps.third, clock, moment);
    }

    #[tactic(auto, unfolding(crate::specs::inside::Further::least_of))]
    fn least(&self, caps: RideCaps) -> Option<CapLeft>
        ensures { result ≡ spec.least_of caps self.now }
    {
        let least = lesser(None, 0, self.first.left_by(caps.first));
        let least = lesser(least, 1, self.second.left_by(caps.second));
        lesser(least, 2, self.third.left_by(caps.third))
    }

    #[tactic(auto, unfolding(crate::specs::inside::Further::charge_of))]
    fn charge(&self, caps: RideCaps, terms: Terms) -> CapCharge
        requires bounds { AreBoundedTerms terms }
        requires room { self.now.window.cents ≤ 100_000_000 }
        ensures { result ≡ spec.charge_of terms caps self.now }
    {
        lowered(
            self.least(caps),
            charge(terms, u32::from(self.rides), self.window.cents),
        )
    }

    #[tactic(auto, unfolding(crate::specs::inside::Further::counted_all))]
    fn count(&mut self, caps: RideCaps, charge: CapCharge)
        requires room { HasRoom self.old }
        requires few { cap_cents charge ≤ 100_000 }
        ensures { self.new ≡ spec.counted_all charge caps self.old }
    {
        self.count_cents(caps, charge.cents());
        if charge.paid().is_some() {
            self.paid += 1;
        }
        if self.rides < MAX_RIDES {
            self.rides += 1;
        }
        self.freed = is_freed(charge);
    }

    fn count_cents(&mut self, caps: RideCaps, cents: u32)
        requires room { HasRoom self.old }
        requires few { cents ≤ 100_000 }
        ensures { self.new ≡ spec.counted_cents cents caps self.old }
    {
        self.window.cents += cents;
        self.first = self.first.counted_by(caps.first, cents);
        self.second = self.second.counted_by(caps.second, cents);
        self.third = self.third.counted_by(caps.third, cents);
    }
}

#[tactic(auto, unfolding(account_rule::specs::Windows::charge))]
fn charge(terms: Terms, rides: u32, cents: u32) -> Charge
    requires bounds { AreBoundedTerms terms }
    requires low { cents ≤ 100_000_000 }
    ensures { result ≡ rule.charge terms rides cents }
{
    if rides >= terms.rides {
        Charge::RideLimitReached
    } else if cents >= terms.ceiling {
        Charge::CeilingReached { position: rides }
    } else if cents + terms.fare <= terms.ceiling {
        Charge::Full {
            position: rides,
            cents: terms.fare,
        }
    } else {
        Charge::CeilingCut {
            position: rides,
            cents: terms.ceiling - cents,
        }
    }
}

/// What a trip costs at least, once it has a transfer of this fare that pays this.
fn wanted(ride: u32, own: u32, pays: Option<Pays>) -> u32
    requires ride { ride ≤ 100_000 }
    requires own { own ≤ 100_000 }
    requires pays { IfSome pays IsBoundedPays }
    ensures { result ≡ wanted ride own pays }
{
    match pays {
        Some(Pays::More { cents }) => ride + cents,
        Some(Pays::Difference) => own,
        None => 0,
    }
}
