//! The account of one token: its state, and its step.

ghost use Rattle.account_rule.specs.Blocks.{last_block};
ghost use Rattle.account_rule.specs.Kept.{IsRoomy, kept_numbers, kept_of, kept_trip};
ghost use Rattle.account_rule.specs.Replies.{reply, ride_reply};
ghost use Rattle.account_rule.specs.Represents.{Represents, RepresentsSome};
ghost use Rattle.account_rule.specs.{Taps.live_at, TokenRules.TokenRules, TokenRules.rules_of};
ghost use Rattle.account_rule.specs.Windows.{charge, last_window, paid_by, windows};
ghost use Rattle.account_rule.specs.declared.tap.TapIn.{TapIn};
ghost use Rattle.account_rule.specs.inside.Kept.{gives, kept_under, known_tap, open_window};
ghost use Rattle.account_rule.specs.inside.Kept.{reply_under, transfers_in, window_at, with_ride};
ghost use Rattle.std.specs.Option.{ForSome};
ghost use Rattle.std.specs.Prelude.{◌≡◌, ℕ, ◌+◌, ◌<◌, ◌≤◌, List, [], ◌∷◌, ◌++◌, length, All};
ghost use Rattle.std.specs.Prelude.{IfSome, IsTrue, Some, false};
ghost use Rattle.tariffs.specs.Fares.{class_of, meaning_at, ride_terms};
ghost use Rattle.tariffs.specs.{Terms.AreBoundedTerms, Until.window_end_in};

mod explain;

use crate::reply::{Answer, Reply};
use crate::tap::TapIn;
use crate::window::{Window, WindowView};
use tariffs::{Clock, FareTable, Mode, Tariff};

/// The account of one token under one fare table: a few numbers in place of its list of taps.
#[derive(Clone, Copy, Debug, PartialEq, Eq)]
pub struct Account {
    /// The moment of the last live tap.
    last: u64,
    /// The moment of the last ride.
    ride: u64,
    /// False before the first live tap, which is a ride: then no other field says anything.
    has_window: bool,
    /// How many transfers followed the last ride.
    given: u8,
    /// The mode of the last live tap.
    mode: Mode,
    ride_mode: Mode,
    /// The index of the token's class in the last live tap's tariff, so that it is looked up once.
    class: u32,
    window: Window,
}

impl Account {
    /// An account that has seen no tap.
    pub fn fresh() -> Self
        ensures holds { (rules : TokenRules) → Represents rules result [] }
        ensures some { (rules : TokenRules) → RepresentsSome rules result }
    {
        Account {
            last: 0,
            has_window: false,
            ride: 0,
            given: 0,
            mode: Mode { position: 0 },
            ride_mode: Mode { position: 0 },
            class: 0,
            window: Window::open(0, 0),
        }
    }

    /// Charges one more tap of the token, and returns the rule's reply: a tap that comes too late
    /// is stale. Takes no memory. It looks up the class at the first live tap under a tariff, and
    /// the window's end if a ride opens a window. All calls on an account have one table and one
    /// token.
    #[inline(always)]
    pub fn step(&mut self, table: &FareTable, clock: &Clock, token: &[u8], tap: TapIn) -> Reply
        requires clock { clock.now ≡ table.now.zone }
        requires token { length token.now ≡ 16 }
        requires mode { ForSome tap.mode (λ mode. mode.position < length table.now.meaning.modes) }
        requires early { tap.moment < 4_102_444_800_000 }
        requires holds { RepresentsSome (rules_of table.now token.now) self.old }

        // For every list of taps that the account represents.
        ensures reply { (taps : List TapIn) → Represents (rules_of table.now token.now) self.old taps
            → result ≡ reply (rules_of table.now token.now) taps tap }
        ensures holds { (taps : List TapIn) → Represents (rules_of table.now token.now) self.old taps
            → Represents (rules_of table.now token.now) self.new (taps ++ tap ∷ []) }
        ensures some { RepresentsSome (rules_of table.now token.now) self.new }
        ensures few { result.cents ≤ 100_000 }
    {
        let Some(mode) = tap.mode else {
            return Reply::free(Answer::Unknown);
        };
        if !table.is_first_at(tap.moment) {
            return self.later_step(table, clock, token, mode, tap.moment);
        }
        if !self.has_window {
            return self.first_ride(table.first(), clock, token, mode, tap.moment);
        }
        if tap.moment <= self.last {
            return Reply::free(Answer::Stale);
        }
        self.live_step(table.first(), clock, mode, tap.moment)
    }

    /// The last window, within the limits of its rides' terms, or `None` before the first ride.
    pub fn window(&self) -> Option<WindowView>
        ensures window { (rules : TokenRules) (taps : List TapIn) → Represents rules self.now taps
            → result ≡ last_window rules taps }
        ensures paid { (rules : TokenRules) (taps : List TapIn) (limit : ℕ)
            → Represents rules self.now taps
            → All (λ ride. (rules.terms ride).rides ≤ limit) (last_block (windows rules taps))
            → IfSome result (λ window. window.paid ≤ limit) }
        ensures cents { (rules : TokenRules) (taps : List TapIn) (ceiling : ℕ)
            → Represents rules self.now taps
            → All (λ ride. (rules.terms ride).ceiling ≤ ceiling) (last_block (windows rules taps))
            → IfSome result (λ window. window.cents ≤ ceiling) }
    {
        if self.has_window {
            Some(self.window.shown())
        } else {
            None
        }
    }

    /// Kept out of `step`: it runs once a token, and the rest of the step at every tap.
    #[cold]
    #[inline(never)]
    #[tactic(auto, unfolding(crate::specs::Kept::kept_of, crate::specs::inside::Kept::open_window, crate::specs::TokenRules::rules_of))]
    fn first_ride(
        &mut self,
        tariff: &Tariff,
        clock: &Clock,
        token: &[u8],
        mode: Mode,
        moment: u64,
    ) -> Reply
        requires token { length token.now ≡ 16 }
        requires mode { mode.position < length tariff.now.meaning.modes }
        requires early { moment < 4_102_444_800_000 }
        ensures class { self.new.class ≡ class_of tariff.now.meaning token.now }
        ensures there { self.new.class < length tariff.now.meaning.classes }
        ensures bounds { AreBoundedTerms (ride_terms tariff.now.meaning self.new.class mode.position) }
        ensures reply { let window = open_window moment (window_end_in clock.now
            tariff.now.meaning.window moment) in
            result ≡ ride_reply
            (paid_by (charge (ride_terms tariff.now.meaning self.new.class mode.position)
            window.rides window.cents)) }
        ensures state { kept_of self.new ≡ Some (record {
          last = live_at moment mode;
          ride = live_at moment mode;
          given = 0;
          class = self.new.class;
          window = with_ride (ride_terms tariff.now.meaning self.new.class mode.position)
              (open_window moment (window_end_in clock.now
              tariff.now.meaning.window moment));
        }) }
    {
        let class = tariff.class_of(token);
        let terms = tariff.ride_terms(class, mode);
        let mut window = Window::opened(tariff, clock, moment);
        let cents = window.add_ride(terms);
        *self = Account {
            last: moment,
            has_window: true,
            ride: moment,
            given: 0,
            mode,
            ride_mode: mode,
            class,
            window,
        };
        Reply::to_ride(cents)
    }

    /// Kept out of `step`, so that a run with one tariff has a compare there and no more.
    #[cold]
    #[inline(never)]
    fn later_step(
        &mut self,
        table: &FareTable,
        clock: &Clock,
        token: &[u8],
        mode: Mode,
        moment: u64,
    ) -> Reply
        requires clock { clock.now ≡ table.now.zone }
        requires token { length token.now ≡ 16 }
        requires mode { mode.position < length table.now.meaning.modes }
        requires early { moment < 4_102_444_800_000 }
        requires holds { RepresentsSome (rules_of table.now token.now) self.old }
        ensures reply { (taps : List TapIn) → Represents (rules_of table.now token.now) self.old taps
            → result ≡ reply (rules_of table.now token.now) taps (known_tap moment mode) }
        ensures holds { (taps : List TapIn) → Represents (rules_of table.now token.now) self.old taps
            → Represents (rules_of table.now token.now) self.new (taps ++ known_tap moment mode ∷ []) }
        ensures few { result.cents ≤ 100_000 }
    {
        if !self.has_window {
            return self.first_ride(table.at(moment), clock, token, mode, moment);
        }
        if moment <= self.last {
            return Reply::free(Answer::Stale);
        }
        self.class = self.class_at(table, token, moment);
        self.live_step(table.at(moment), clock, mode, moment)
    }

    #[inline(always)]
    fn live_step(&mut self, tariff: &Tariff, clock: &Clock, mode: Mode, moment: u64) -> Reply
        requires class { self.old.class < length tariff.now.meaning.classes }
        requires from { self.old.mode.position < length tariff.now.meaning.modes }
        requires mode { mode.position < length tariff.now.meaning.modes }
        requires early { moment < 4_102_444_800_000 }
        requires order { self.old.ride ≤ moment }
        requires room { IsRoomy self.old.window }
        ensures bounds { gives (transfers_in tariff.now.meaning self.old.class)
            (kept_trip (Some (kept_numbers self.old))) (live_at moment mode) ≡ false
            → AreBoundedTerms (ride_terms tariff.now.meaning self.old.class mode.position) }
        ensures few { result.cents ≤ 100_000 }
        ensures has_window { self.new.has_window ≡ self.old.has_window }
        ensures reply { result ≡ reply_under tariff.now.meaning clock.now
            (kept_numbers self.old) (live_at moment mode) }
        ensures state { kept_numbers self.new ≡ kept_under tariff.now.meaning clock.now
            (kept_numbers self.old) (live_at moment mode) }
    {
        if self.gives_transfer(tariff, moment, mode) {
            self.take_transfer(mode, moment);
            return Reply::free(Answer::Transfer);
        }
        Reply::to_ride(self.take_ride(tariff, clock, mode, moment))
    }

    #[inline(always)]
    fn class_at(&self, table: &FareTable, token: &[u8], moment: u64) -> u32
        requires token { length token.now ≡ 16 }
        requires order { self.now.last ≤ moment }
        requires class { self.now.class ≡ class_of (meaning_at table.now self.now.last) token.now }
        requires there { self.now.class < length (meaning_at table.now self.now.last).classes }
        ensures class { result ≡ class_of (meaning_at table.now moment) token.now }
        ensures there { result < length (meaning_at table.now moment).classes }
    {
        if table.is_one_tariff(self.last, moment) {
            self.class
        } else {
            table.at(moment).class_of(token)
        }
    }

    /// The time is compared first, since it fails most often.
    #[tactic(auto, unfolding(crate::specs::inside::Kept::transfers_in, crate::specs::inside::Kept::gives, crate::specs::Kept::kept_trip, crate::specs::Taps::live_at))]
    fn gives_transfer(&self, tariff: &Tariff, moment: u64, mode: Mode) -> bool
        requires class { self.now.class < length tariff.now.meaning.classes }
        requires from { self.now.mode.position < length tariff.now.meaning.modes }
        requires mode { mode.position < length tariff.now.meaning.modes }
        requires order { self.now.ride ≤ moment }
        ensures gives { result ≡ gives (transfers_in tariff.now.meaning self.now.class)
            (kept_trip (Some (kept_numbers self.now))) (live_at moment mode) }
        ensures few { IsTrue result → self.now.given < 255 }
    {
        let gives = tariff.transfer_terms(self.class);
        moment - self.ride <= u64::from(gives.time)
            && u32::from(self.given) < gives.taps
            && tariff.permits(self.mode, mode)
    }

    fn take_transfer(&mut self, mode: Mode, moment: u64)
        requires few { self.old.given < 255 }
        ensures has_window { self.new.has_window ≡ self.old.has_window }
        ensures state { kept_numbers self.new ≡ record {
          last = live_at moment mode;
          ride = live_at self.old.ride self.old.ride_mode;
          given = self.old.given + 1;
          class = self.old.class;
          window = self.old.window;
        } }
    {
        self.last = moment;
        self.mode = mode;
        self.given += 1;
    }

    #[tactic(auto, unfolding(crate::specs::inside::Kept::window_at, crate::specs::inside::Kept::open_window))]
    fn take_ride(&mut self, tariff: &Tariff, clock: &Clock, mode: Mode, moment: u64) -> Option<u32>
        requires class { self.old.class < length tariff.now.meaning.classes }
        requires mode { mode.position < length tariff.now.meaning.modes }
        requires early { moment < 4_102_444_800_000 }
        requires room { IsRoomy self.old.window }
        ensures bounds { AreBoundedTerms (ride_terms tariff.now.meaning self.old.class mode.position) }
        ensures cost { let window = window_at (Some self.old.window) moment (window_end_in clock.now
            tariff.now.meaning.window moment) in
            result ≡ paid_by (charge (ride_terms tariff.now.meaning self.old.class mode.position)
            window.rides window.cents) }
        ensures has_window { self.new.has_window ≡ self.old.has_window }
        ensures state { kept_numbers self.new ≡ record {
          last = live_at moment mode;
          ride = live_at moment mode;
          given = 0;
          class = self.old.class;
          window = with_ride (ride_terms tariff.now.meaning self.old.class mode.position)
              (window_at (Some self.old.window) moment (window_end_in clock.now
              tariff.now.meaning.window moment));
        } }
    {
        self.begin_trip(mode, moment);
        if moment >= self.window.until {
            self.window = Window::opened(tariff, clock, moment);
        }
        self.window.add_ride(tariff.ride_terms(self.class, mode))
    }

    fn begin_trip(&mut self, mode: Mode, moment: u64)
        ensures has_window { self.new.has_window ≡ self.old.has_window }
        ensures state { kept_numbers self.new ≡ record {
          last = live_at moment mode;
          ride = live_at moment mode;
          given = 0;
          class = self.old.class;
          window = self.old.window;
        } }
    {
        self.last = moment;
        self.ride = moment;
        self.given = 0;
        self.mode = mode;
        self.ride_mode = mode;
    }
}
